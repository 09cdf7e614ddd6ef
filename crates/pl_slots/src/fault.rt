use pl_base::Text;
use std::alloc::{AllocError, AllocFailed};
use std::fmt::{self, Debug, Formatter, Write};
use thiserror::Error;

/// Why there is no plan.
#[derive(Drop, Error)]
pub enum PlanFault {
    /// No hole of the region that is left holds the library at an address that it wants.
    #[error("no slot")]
    NoSlot {
        /// The name of the library's file.
        name: Text,

        /// How many bytes of addresses it wants.
        span: u64,

        /// How many bytes the greatest hole has, 0 where there is none.
        hole: u64,
    },

    /// There was no memory for the answer.
    #[error("out of memory")]
    NoMemory,
}

impl From<AllocError> for PlanFault {
    ghost use Rattle.std.specs.Prelude.{◌≡◌};
    ghost use Rattle.pl_slots.specs.declared.fault.PlanFault.TheVariants.{NoMemory};

    ghost from_gives = { λ _ e. e ≡ NoMemory };

    fn from(_: AllocError) -> PlanFault {
        PlanFault::NoMemory
    }
}

impl<T: Drop> From<AllocFailed<T>> for PlanFault {
    ghost use Rattle.std.specs.Prelude.{◌≡◌};
    ghost use Rattle.pl_slots.specs.declared.fault.PlanFault.TheVariants.{NoMemory};

    ghost from_gives = { λ _ e. e ≡ NoMemory };

    fn from(_: AllocFailed<T>) -> PlanFault {
        PlanFault::NoMemory
    }
}

impl Debug for PlanFault {
    fn fmt<W: Write>(&self, out: &mut Formatter<W>) -> fmt::Result {
        match self {
            PlanFault::NoSlot { name, span, hole } => write!(
                out,
                "NoSlot {} {span} {hole}",
                name.as_str()
            ),
            PlanFault::NoMemory => write!(out, "NoMemory"),
        }
    }
}
