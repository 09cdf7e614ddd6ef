ghost use Rattle.std.specs.Prelude.{◌≡◌};
ghost use Rattle.pl_undo.specs.declared.fault.UndoFault.TheVariants as faults;

use std::alloc::AllocError;
use thiserror::Error;

/// Why a section gives no value.
#[derive(Clone, Copy, Debug, PartialEq, Eq, Error)]
pub enum UndoFault {
    /// The bytes are no undo section.
    #[error("a bad undo section")]
    BadUndo,
    /// There was no memory for the answer.
    #[error("out of memory")]
    NoMemory,
}

impl From<AllocError> for UndoFault {
    ghost from_gives = { λ _ e. e ≡ faults.NoMemory };

    fn from(_: AllocError) -> UndoFault {
        UndoFault::NoMemory
    }
}
