use std::alloc::{AllocError, AllocFailed};
use thiserror::Error;

/// Why a symbol table is not read.
#[derive(Clone, Copy, Debug, PartialEq, Eq, Error)]
pub enum SymFault {
    /// Acceptance clause 16: a symbol's name has no end inside the strings.
    #[error("a symbol's name has no end")]
    BadSymbol,

    /// There was no memory for the symbols.
    #[error("out of memory")]
    NoMemory,
}

impl From<AllocError> for SymFault {
    ghost use Rattle.std.specs.Prelude.{◌≡◌};
    ghost use Rattle.pl_sym.specs.declared.fault.SymFault.TheVariants.{NoMemory};

    ghost from_gives = { λ _ fault. fault ≡ NoMemory };

    fn from(_: AllocError) -> SymFault {
        SymFault::NoMemory
    }
}

impl<T: Drop> From<AllocFailed<T>> for SymFault {
    ghost use Rattle.std.specs.Prelude.{◌≡◌};
    ghost use Rattle.pl_sym.specs.declared.fault.SymFault.TheVariants.{NoMemory};

    ghost from_gives = { λ _ fault. fault ≡ NoMemory };

    fn from(_: AllocFailed<T>) -> SymFault {
        SymFault::NoMemory
    }
}
