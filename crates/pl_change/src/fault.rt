ghost use Rattle.std.specs.Prelude.{◌≡◌};
ghost use Rattle.pl_change.specs.declared.fault.BatchFault.TheVariants as faults;

use crate::Cause;
use pl_folder::FolderFault;
use pl_io::NoMemory;
use pl_journal::JournalFault;
use pl_scope::WalkFault;
use std::alloc::{AllocError, AllocFailed};
use std::fmt;
use thiserror::Error;

/// Why a command was not done.
#[derive(Drop, Error)]
pub enum BatchFault {
    /// The folder failed.
    #[error("the folder failed")]
    DiskFailed,

    /// There was no memory.
    #[error("out of memory")]
    NoMemory,

    /// The command is refused.
    #[error("the command is refused")]
    Cause(Cause),
}

impl fmt::Debug for BatchFault {
    fn fmt<W: fmt::Write>(&self, f: &mut fmt::Formatter<W>) -> fmt::Result {
        match self {
            BatchFault::DiskFailed => f.write_str("DiskFailed"),
            BatchFault::NoMemory => f.write_str("NoMemory"),
            BatchFault::Cause(cause) => cause.fmt(f),
        }
    }
}

impl From<NoMemory> for BatchFault {
    ghost from_gives = { λ _ fault. fault ≡ faults.NoMemory };

    fn from(_: NoMemory) -> BatchFault {
        BatchFault::NoMemory
    }
}

impl From<AllocError> for BatchFault {
    ghost from_gives = { λ _ fault. fault ≡ faults.NoMemory };

    fn from(_: AllocError) -> BatchFault {
        BatchFault::NoMemory
    }
}

impl<T: Drop> From<AllocFailed<T>> for BatchFault {
    ghost from_gives = { λ _ fault. fault ≡ faults.NoMemory };

    fn from(_: AllocFailed<T>) -> BatchFault {
        BatchFault::NoMemory
    }
}

/// A fault of a call that is given no file to take: it fails, or lacks memory.
impl From<FolderFault> for BatchFault {
    ghost use Rattle.pl_change.specs.Answers.{of_folder};

    ghost from_gives = { λ fault whole. whole ≡ of_folder fault };

    fn from(fault: FolderFault) -> BatchFault {
        match fault {
            FolderFault::Failed | FolderFault::NotThere | FolderFault::TooLarge => {
                BatchFault::DiskFailed
            }
            FolderFault::NoMemory => BatchFault::NoMemory,
        }
    }
}

impl From<JournalFault> for BatchFault {
    ghost use Rattle.pl_change.specs.Answers.{of_journal};

    ghost from_gives = { λ fault whole. whole ≡ of_journal fault };

    fn from(fault: JournalFault) -> BatchFault {
        match fault {
            JournalFault::Failed => BatchFault::DiskFailed,
            JournalFault::BadJournal => BatchFault::Cause(Cause::BadJournal),
            JournalFault::NoMemory => BatchFault::NoMemory,
        }
    }
}

impl From<WalkFault> for BatchFault {
    ghost use Rattle.pl_change.specs.Answers.{of_walk_fault};

    ghost from_gives = { λ fault whole. whole ≡ of_walk_fault fault };

    fn from(fault: WalkFault) -> BatchFault {
        match fault {
            WalkFault::NeededIsProgram(name) => BatchFault::Cause(Cause::NeededIsProgram(name)),
            WalkFault::TooMany(name) => BatchFault::Cause(Cause::TooMany(name)),
            WalkFault::NotThere(name) => BatchFault::Cause(Cause::NotThere(name)),
            WalkFault::NoMemory => BatchFault::NoMemory,
        }
    }
}
