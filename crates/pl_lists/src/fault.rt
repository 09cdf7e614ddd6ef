ghost use Rattle.std.specs.Prelude.{◌≡◌};
ghost use Rattle.pl_lists.specs.declared.fault.ListFault.TheVariants as faults;

use std::alloc::AllocError;
use thiserror::Error;

/// Why a table gives no rows.
#[derive(Clone, Copy, Debug, PartialEq, Eq, Error)]
pub enum ListFault {
    /// The bytes spell no rows.
    #[error("a bad list")]
    BadList,
    /// There was no memory for the answer.
    #[error("out of memory")]
    NoMemory,
}

impl From<AllocError> for ListFault {
    ghost from_gives = { λ _ e. e ≡ faults.NoMemory };

    fn from(_: AllocError) -> ListFault {
        ListFault::NoMemory
    }
}
