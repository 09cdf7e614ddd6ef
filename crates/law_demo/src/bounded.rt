ghost use Rattle.law_demo.specs.Made.{BoundedIsMade};

/// A law: a plain and modest recipe of at most 64 needed libraries, 512 symbols and 512 relocations has a file.
pub fn bounded_is_made()
    ensures { BoundedIsMade }
{}
