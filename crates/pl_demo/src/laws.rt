// Laws of the sets.
ghost use Rattle.pl_demo.specs.Laws.{ProgramsAreDrawn, SizesAreSums};

/// A set has as many files as it draws libraries and programs, and its programs are those that it draws. It does nothing.
pub fn sets_are_drawn()
    ensures sizes { SizesAreSums }
    ensures programs { ProgramsAreDrawn }
{}
