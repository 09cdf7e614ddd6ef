use std::alloc::{AllocError, AllocFailed};
use thiserror::Error;

/// Why a cache could not be read.
#[derive(Clone, Copy, Debug, PartialEq, Eq, Error)]
pub enum CacheFault {
    /// The bytes are outside the cache's grammar.
    #[error("a bad cache")]
    BadCache,

    /// There was no memory for the answer.
    #[error("out of memory")]
    NoMemory,
}

impl From<AllocError> for CacheFault {
    ghost use Rattle.std.specs.Prelude.{◌≡◌};
    ghost use Rattle.pl_cache.specs.declared.fault.CacheFault.TheVariants.{NoMemory};

    ghost from_gives = { λ _ e. e ≡ NoMemory };

    fn from(_: AllocError) -> CacheFault {
        CacheFault::NoMemory
    }
}

impl<T: Drop> From<AllocFailed<T>> for CacheFault {
    ghost use Rattle.std.specs.Prelude.{◌≡◌};
    ghost use Rattle.pl_cache.specs.declared.fault.CacheFault.TheVariants.{NoMemory};

    ghost from_gives = { λ _ e. e ≡ NoMemory };

    fn from(_: AllocFailed<T>) -> CacheFault {
        CacheFault::NoMemory
    }
}
