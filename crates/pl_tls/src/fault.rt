ghost use Rattle.std.specs.Prelude.{◌≡◌};
ghost use Rattle.pl_tls.specs.declared.fault.TlsFault.TheVariants as faults;

use std::alloc::AllocError;
use thiserror::Error;

/// Why the modules have no offsets.
#[derive(Clone, Copy, Debug, PartialEq, Eq, Error)]
pub enum TlsFault {
    /// An offset is greater than `OFFSET_LIMIT`.
    #[error("thread-local storage is too large")]
    TooLarge,
    /// There was no memory for the answer.
    #[error("out of memory")]
    NoMemory,
}

impl From<AllocError> for TlsFault {
    ghost from_gives = { λ _ e. e ≡ faults.NoMemory };

    fn from(_: AllocError) -> TlsFault {
        TlsFault::NoMemory
    }
}
