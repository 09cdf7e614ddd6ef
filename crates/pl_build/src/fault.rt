ghost use Rattle.std.specs.Prelude.{◌≡◌};
ghost use Rattle.pl_build.specs.declared.fault.RecipeFault.TheVariants.{NoMemory};

use std::alloc::{AllocError, AllocFailed};
use thiserror::Error;

/// Why a recipe gives no file.
#[derive(Clone, Copy, Debug, PartialEq, Eq, Error)]
pub enum RecipeFault {
    /// The first line with a fault, from 1 on, and the lowest kind of its faults: 1 the line is not in the grammar or a name
    /// is not valid, 2 a number is over its limit, a word passes the data, or a packed one is at an odd offset or shares a
    /// byte with an earlier one, 3 a relocation names no symbol or a symbol no version, 4 a line that may stand once stands twice or two symbols are written alike. Kind 5 has line 0, and comes only
    /// where no line has a fault: the tables or the file would be too large.
    #[error("line {line} of the recipe has fault {kind}")]
    Bad { line: u32, kind: u8 },

    #[error("out of memory")]
    NoMemory,
}

impl From<AllocError> for RecipeFault {
    ghost from_gives = { λ _ e. e ≡ NoMemory };

    fn from(_e: AllocError) -> RecipeFault {
        RecipeFault::NoMemory
    }
}

impl<T: Drop> From<AllocFailed<T>> for RecipeFault {
    ghost from_gives = { λ _ e. e ≡ NoMemory };

    fn from(_e: AllocFailed<T>) -> RecipeFault {
        RecipeFault::NoMemory
    }
}
