ghost use Rattle.law_demo.specs.Closed.{RootsWalkWithin};

/// A law: among fewer than 256 libraries that need one another alone, the walk of each, and of each program that needs no others, is not refused, and stays among them.
pub fn roots_walk_within<E>()
    ensures { RootsWalkWithin E }
{}
