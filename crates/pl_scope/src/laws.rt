//! Laws of walks, for the proofs of the crates above.
ghost use Rattle.pl_scope.specs.Members.{WalksAreWalks, WalksAreClosed, MembersWalkWithin, MembersTellWalks};

/// A walk over whatever files, with whatever faults, is the walk of a name over some objects.
pub fn walks_are_walks<E>()
    ensures { WalksAreWalks E }
{}

/// In a walk no name stands twice, and each name that a member needs is a member's.
pub fn walks_are_closed()
    ensures { WalksAreClosed }
{}

/// Each member of a walk that begins with a program or library has itself a walk, whose members are members of the first.
pub fn members_walk_within<E>()
    ensures { MembersWalkWithin E }
{}

/// The walk of a member is the walk over the members alone, whatever else there is.
pub fn members_tell_walks<E>()
    ensures { MembersTellWalks E }
{}
