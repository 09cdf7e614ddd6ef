ghost use Rattle.std.specs.Prelude.{◌≡◌};
ghost use Rattle.pl_object.specs.declared.refusal.Refusal.TheVariants.{Clause, NoMemory};

use pl_dyn::DynFault;
use pl_elf::HeaderFault;
use pl_sym::SymFault;
use pl_ver::VerFault;
use std::alloc::{AllocError, AllocFailed};
use thiserror::Error;

/// Why a file is no object.
#[derive(Clone, Copy, Debug, PartialEq, Eq, Error)]
pub enum Refusal {
    /// The first acceptance clause that refuses it, and what of it does: a tag's number for clauses 10 and 11, a relocation's kind for clause 23, else 0.
    #[error("acceptance clause {number} refuses the file")]
    Clause { number: u32, argument: u64 },

    /// There was no memory for the answer.
    #[error("out of memory")]
    NoMemory,
}

impl Refusal {
    /// The refusal by a clause that tells nothing more.
    pub fn clause(number: u32) -> Refusal
        ensures { result ≡ Clause number 0 }
    {
        Refusal::Clause {
            number,
            argument: 0,
        }
    }
}

impl From<AllocError> for Refusal {
    ghost from_gives = { λ _ refusal. refusal ≡ NoMemory };

    fn from(_: AllocError) -> Refusal {
        Refusal::NoMemory
    }
}

impl<T: Drop> From<AllocFailed<T>> for Refusal {
    ghost from_gives = { λ _ refusal. refusal ≡ NoMemory };

    fn from(_: AllocFailed<T>) -> Refusal {
        Refusal::NoMemory
    }
}

impl From<HeaderFault> for Refusal {
    ghost use Rattle.pl_object.specs.Refusals.{of_header};

    ghost from_gives = { λ fault refusal. refusal ≡ of_header fault };

    fn from(fault: HeaderFault) -> Refusal {
        let number = match fault {
            HeaderFault::NotElf => 1,
            HeaderFault::Class => 2,
            HeaderFault::Machine => 3,
            HeaderFault::Kind => 4,
            HeaderFault::Truncated => 5,
            HeaderFault::BadSegment => 6,
            HeaderFault::BadSection => 7,
            HeaderFault::NoSections => 8,
        };
        Refusal::clause(number)
    }
}

impl From<DynFault> for Refusal {
    ghost use Rattle.pl_object.specs.Refusals.{of_dynamic};

    ghost from_gives = { λ fault refusal. refusal ≡ of_dynamic fault };

    fn from(fault: DynFault) -> Refusal {
        match fault {
            DynFault::NoEnd => Refusal::clause(9),
            DynFault::UnknownTag(argument) => Refusal::Clause {
                number: 10,
                argument,
            },
            DynFault::Twice(argument) => Refusal::Clause {
                number: 11,
                argument,
            },
            DynFault::NoMemory => Refusal::NoMemory,
        }
    }
}

impl From<SymFault> for Refusal {
    ghost use Rattle.pl_object.specs.Refusals.{of_symbols};

    ghost from_gives = { λ fault refusal. refusal ≡ of_symbols fault };

    fn from(fault: SymFault) -> Refusal {
        match fault {
            SymFault::BadSymbol => Refusal::clause(16),
            SymFault::NoMemory => Refusal::NoMemory,
        }
    }
}

impl From<VerFault> for Refusal {
    ghost use Rattle.pl_object.specs.Refusals.{of_versions};

    ghost from_gives = { λ fault refusal. refusal ≡ of_versions fault };

    fn from(fault: VerFault) -> Refusal {
        match fault {
            VerFault::BadChain => Refusal::clause(17),
            VerFault::BadIndex => Refusal::clause(18),
            VerFault::NoMemory => Refusal::NoMemory,
        }
    }
}
