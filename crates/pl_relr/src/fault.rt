use std::alloc::{AllocError, AllocFailed};
use thiserror::Error;

/// Why a table of packed relative relocations gives no places.
#[derive(Clone, Copy, Debug, PartialEq, Eq, Error)]
pub enum RelrFault {
    /// The size is no multiple of an entry's, the first entry is odd, or there are more places than are allowed.
    #[error("bad packed relocations")]
    Packed,

    /// There was no memory for the answer.
    #[error("out of memory")]
    NoMemory,
}

impl From<AllocError> for RelrFault {
    ghost use Rattle.std.specs.Prelude.{◌≡◌};
    ghost use Rattle.pl_relr.specs.declared.fault.RelrFault.TheVariants.{NoMemory};

    ghost from_gives = { λ _ e. e ≡ NoMemory };

    fn from(_: AllocError) -> RelrFault {
        RelrFault::NoMemory
    }
}

impl<T: Drop> From<AllocFailed<T>> for RelrFault {
    ghost use Rattle.std.specs.Prelude.{◌≡◌};
    ghost use Rattle.pl_relr.specs.declared.fault.RelrFault.TheVariants.{NoMemory};

    ghost from_gives = { λ _ e. e ≡ NoMemory };

    fn from(_: AllocFailed<T>) -> RelrFault {
        RelrFault::NoMemory
    }
}
