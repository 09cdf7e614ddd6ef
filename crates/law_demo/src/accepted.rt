ghost use Rattle.law_demo.specs.Accepted.{PlainIsAccepted};

/// A law: the file of a plain and modest recipe is accepted, with the object that the recipe describes.
pub fn plain_is_accepted()
    ensures { PlainIsAccepted }
{}
