ghost use Rattle.std.specs.Prelude.{◌≡◌};
ghost use Rattle.pl_scope.specs.declared.fault.WalkFault.TheVariants as faults;

use pl_base::Text;
use pl_io::NoMemory;
use std::alloc::{AllocError, AllocFailed};
use std::fmt;
use thiserror::Error;

/// Why a name has no walk.
#[derive(Drop, Error)]
pub enum WalkFault {
    /// A member after the first is no library, and this is its name; or a member after the first needs the first, which is a program of this name.
    NeededIsProgram(Text),
    /// This name would be member number `MAX_MEMBERS` + 1.
    TooMany(Text),
    /// There is no object of this name.
    NotThere(Text),
    /// There was no memory for the answer.
    NoMemory,
}

impl fmt::Display for WalkFault {
    fn fmt<W: fmt::Write>(&self, f: &mut fmt::Formatter<W>) -> fmt::Result {
        let cause = match self {
            WalkFault::NeededIsProgram(_) => "a program is needed by another object",
            WalkFault::TooMany(_) => "the walk has too many members",
            WalkFault::NotThere(_) => "a needed object is not there",
            WalkFault::NoMemory => "out of memory",
        };
        f.write_str(cause)
    }
}

impl fmt::Debug for WalkFault {
    fn fmt<W: fmt::Write>(&self, f: &mut fmt::Formatter<W>) -> fmt::Result {
        let cause = match self {
            WalkFault::NeededIsProgram(_) => "NeededIsProgram",
            WalkFault::TooMany(_) => "TooMany",
            WalkFault::NotThere(_) => "NotThere",
            WalkFault::NoMemory => "NoMemory",
        };
        let name = match self {
            WalkFault::NeededIsProgram(name)
            | WalkFault::TooMany(name)
            | WalkFault::NotThere(name) => name.as_str(),
            WalkFault::NoMemory => "",
        };
        f.write_str(cause)?;
        f.write_str(" ")?;
        f.write_str(name)
    }
}

impl From<NoMemory> for WalkFault {
    ghost from_gives = { λ _ fault. fault ≡ faults.NoMemory };

    fn from(_: NoMemory) -> WalkFault {
        WalkFault::NoMemory
    }
}

impl From<AllocError> for WalkFault {
    ghost from_gives = { λ _ fault. fault ≡ faults.NoMemory };

    fn from(_: AllocError) -> WalkFault {
        WalkFault::NoMemory
    }
}

impl<T: Drop> From<AllocFailed<T>> for WalkFault {
    ghost from_gives = { λ _ fault. fault ≡ faults.NoMemory };

    fn from(_: AllocFailed<T>) -> WalkFault {
        WalkFault::NoMemory
    }
}
