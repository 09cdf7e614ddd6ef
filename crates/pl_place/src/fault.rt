use pl_base::Text;
use std::alloc::{AllocError, AllocFailed};
use std::fmt::{self, Debug, Formatter, Write};
use thiserror::Error;

/// Why there are no places.
#[derive(Drop, Error)]
pub enum PlaceFault {
    /// No hole that is left holds the library at an address that it wants.
    #[error("no place")]
    NoPlace {
        /// The name of the library's file.
        name: Text,
    },

    /// There was no memory for the answer.
    #[error("out of memory")]
    NoMemory,
}

impl From<AllocError> for PlaceFault {
    ghost use Rattle.std.specs.Prelude.{◌≡◌};
    ghost use Rattle.pl_place.specs.declared.fault.PlaceFault.TheVariants.{NoMemory};

    ghost from_gives = { λ _ e. e ≡ NoMemory };

    fn from(_: AllocError) -> PlaceFault {
        PlaceFault::NoMemory
    }
}

impl<T: Drop> From<AllocFailed<T>> for PlaceFault {
    ghost use Rattle.std.specs.Prelude.{◌≡◌};
    ghost use Rattle.pl_place.specs.declared.fault.PlaceFault.TheVariants.{NoMemory};

    ghost from_gives = { λ _ e. e ≡ NoMemory };

    fn from(_: AllocFailed<T>) -> PlaceFault {
        PlaceFault::NoMemory
    }
}

impl Debug for PlaceFault {
    fn fmt<W: Write>(&self, out: &mut Formatter<W>) -> fmt::Result {
        match self {
            PlaceFault::NoPlace { name } => write!(out, "NoPlace {}", name.as_str()),
            PlaceFault::NoMemory => write!(out, "NoMemory"),
        }
    }
}
