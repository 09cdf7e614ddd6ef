use pl_folder::FolderFault;
use pl_io::{Failed, NoMemory};
use std::alloc::{AllocError, AllocFailed};
use thiserror::Error;

/// Why a run by the journal ended.
#[derive(Clone, Copy, Debug, PartialEq, Eq, Error)]
pub enum JournalFault {
    /// The folder failed.
    #[error("the folder failed")]
    Failed,

    /// The journal's bytes are outside its grammar.
    #[error("a bad journal")]
    BadJournal,

    /// There was no memory.
    #[error("out of memory")]
    NoMemory,
}

impl From<Failed> for JournalFault {
    ghost use Rattle.std.specs.Prelude.{◌≡◌};
    ghost use Rattle.pl_journal.specs.declared.fault.JournalFault.TheVariants as faults;

    ghost from_gives = { λ _ fault. fault ≡ faults.Failed };

    fn from(_: Failed) -> JournalFault {
        JournalFault::Failed
    }
}

impl From<NoMemory> for JournalFault {
    ghost use Rattle.std.specs.Prelude.{◌≡◌};
    ghost use Rattle.pl_journal.specs.declared.fault.JournalFault.TheVariants as faults;

    ghost from_gives = { λ _ fault. fault ≡ faults.NoMemory };

    fn from(_: NoMemory) -> JournalFault {
        JournalFault::NoMemory
    }
}

impl From<AllocError> for JournalFault {
    ghost use Rattle.std.specs.Prelude.{◌≡◌};
    ghost use Rattle.pl_journal.specs.declared.fault.JournalFault.TheVariants as faults;

    ghost from_gives = { λ _ fault. fault ≡ faults.NoMemory };

    fn from(_: AllocError) -> JournalFault {
        JournalFault::NoMemory
    }
}

impl<T: Drop> From<AllocFailed<T>> for JournalFault {
    ghost use Rattle.std.specs.Prelude.{◌≡◌};
    ghost use Rattle.pl_journal.specs.declared.fault.JournalFault.TheVariants as faults;

    ghost from_gives = { λ _ fault. fault ≡ faults.NoMemory };

    fn from(_: AllocFailed<T>) -> JournalFault {
        JournalFault::NoMemory
    }
}

impl From<FolderFault> for JournalFault {
    ghost use Rattle.std.specs.Prelude.{◌≡◌};
    ghost use Rattle.pl_journal.specs.Faults.{of_folder};

    ghost from_gives = { λ from fault. fault ≡ of_folder from };

    fn from(fault: FolderFault) -> JournalFault {
        match fault {
            FolderFault::NoMemory => JournalFault::NoMemory,
            _ => JournalFault::Failed,
        }
    }
}
