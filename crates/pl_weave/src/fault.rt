ghost use Rattle.std.specs.Prelude.{◌≡◌};
ghost use Rattle.pl_weave.specs.declared.fault.WeaveFault.TheVariants as faults;

use std::alloc::{AllocError, AllocFailed};
use thiserror::Error;

/// Why a loader opened no file.
#[derive(Clone, Copy, Debug, PartialEq, Eq, Error)]
pub enum WeaveFault {
    /// The folder failed.
    #[error("the folder failed")]
    Failed,

    /// The file is longer than a folder gives.
    #[error("a file is too large")]
    TooLarge,

    #[error("out of memory")]
    NoMemory,
}

impl From<AllocError> for WeaveFault {
    ghost from_gives = { λ _ fault. fault ≡ faults.NoMemory };

    fn from(_: AllocError) -> WeaveFault {
        WeaveFault::NoMemory
    }
}

impl<T: Drop> From<AllocFailed<T>> for WeaveFault {
    ghost from_gives = { λ _ fault. fault ≡ faults.NoMemory };

    fn from(_: AllocFailed<T>) -> WeaveFault {
        WeaveFault::NoMemory
    }
}
