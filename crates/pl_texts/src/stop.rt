ghost use Rattle.std.specs.Prelude.{◌≡◌};
ghost use Rattle.pl_texts.specs.declared.stop.Stop.TheVariants as stops;
ghost use Rattle.pl_texts.specs.Stops.{of_batch};

use crate::cause::Cause;
use pl_build::RecipeFault;
use pl_cache::CacheFault;
use pl_change::BatchFault;
use pl_io::{NoMemory, ReadFault};
use pl_loader::LoadFault;
use pl_scope::WalkFault;
use pl_script::ScriptFault;
use std::alloc::{AllocError, AllocFailed};

/// Why a command stopped.
#[derive(Drop)]
pub enum Stop {
    /// The command is refused.
    Cause(Cause),
    /// The folder failed.
    Failed,
    /// The input failed.
    InputFailed,
    /// There was no memory.
    NoMemory,
}

impl From<AllocError> for Stop {
    ghost from_gives = { λ _ stop. stop ≡ stops.NoMemory };

    fn from(_: AllocError) -> Stop {
        Stop::NoMemory
    }
}

impl<T: Drop> From<AllocFailed<T>> for Stop {
    ghost from_gives = { λ _ stop. stop ≡ stops.NoMemory };

    fn from(_: AllocFailed<T>) -> Stop {
        Stop::NoMemory
    }
}

impl From<NoMemory> for Stop {
    ghost from_gives = { λ _ stop. stop ≡ stops.NoMemory };

    fn from(_: NoMemory) -> Stop {
        Stop::NoMemory
    }
}

impl From<LoadFault> for Stop {
    ghost use Rattle.pl_texts.specs.Stops.{of_load_fault};

    ghost from_gives = { λ fault stop. stop ≡ of_load_fault fault };

    fn from(fault: LoadFault) -> Stop {
        match fault {
            LoadFault::NoMemory => Stop::NoMemory,
            fault => Stop::Cause(Cause::Load(fault)),
        }
    }
}

impl From<WalkFault> for Stop {
    ghost use Rattle.pl_texts.specs.Stops.{of_load_fault};
    ghost use Rattle.pl_loader.specs.Faults.{of_walk};

    ghost from_gives = { λ fault stop. stop ≡ of_load_fault (of_walk fault) };

    fn from(fault: WalkFault) -> Stop {
        Stop::from(LoadFault::from(fault))
    }
}

/// A cause of a command that changes files.
pub fn batch_cause(cause: pl_change::Cause) -> Cause
    ensures { result ≡ of_batch cause }
{
    match cause {
        pl_change::Cause::BadName => Cause::BadName,
        pl_change::Cause::BadJournal => Cause::BadJournal,
        pl_change::Cause::TooManyFiles => Cause::TooManyFiles,
        pl_change::Cause::NotThere(name) => Cause::Load(LoadFault::NotThere(name)),
        pl_change::Cause::FileTooLarge(name) => Cause::FileTooLarge(name),
        pl_change::Cause::BadMark(name) => Cause::Load(LoadFault::BadMark(name)),
        pl_change::Cause::BadCache => Cause::BadCache,
        pl_change::Cause::FolderTooLarge => Cause::FolderTooLarge,
        pl_change::Cause::NoSlot { name, span, hole } => Cause::NoSlot { name, span, hole },
        pl_change::Cause::StampsSpent(stamp) => Cause::StampsSpent(stamp),
        pl_change::Cause::Refused {
            name,
            number,
            argument,
        } => Cause::Load(LoadFault::Refused {
            name,
            number,
            argument,
        }),
        pl_change::Cause::NeededIsProgram(name) => Cause::Load(LoadFault::NeededIsProgram(name)),
        pl_change::Cause::TooMany(name) => Cause::Load(LoadFault::TooMany(name)),
        pl_change::Cause::NotPie(name) => Cause::NotPie(name),
        pl_change::Cause::NoPlace(name) => Cause::Load(LoadFault::NoPlace(name)),
        pl_change::Cause::NotFixed(name) => Cause::NotFixed(name),
    }
}

impl From<BatchFault> for Stop {
    ghost use Rattle.pl_texts.specs.Stops.{of_batch_fault};

    ghost from_gives = { λ fault stop. stop ≡ of_batch_fault fault };

    fn from(fault: BatchFault) -> Stop {
        match fault {
            BatchFault::DiskFailed => Stop::Failed,
            BatchFault::NoMemory => Stop::NoMemory,
            BatchFault::Cause(cause) => Stop::Cause(batch_cause(cause)),
        }
    }
}

impl From<ReadFault> for Stop {
    ghost use Rattle.pl_texts.specs.Stops.{of_read_fault};

    ghost from_gives = { λ fault stop. stop ≡ of_read_fault fault };

    fn from(fault: ReadFault) -> Stop {
        match fault {
            ReadFault::Failed => Stop::InputFailed,
            ReadFault::TooLarge => Stop::Cause(Cause::InputTooLarge),
            ReadFault::NoMemory => Stop::NoMemory,
        }
    }
}

impl From<CacheFault> for Stop {
    ghost use Rattle.pl_texts.specs.Stops.{of_cache_fault};

    ghost from_gives = { λ fault stop. stop ≡ of_cache_fault fault };

    fn from(fault: CacheFault) -> Stop {
        match fault {
            CacheFault::BadCache => Stop::Cause(Cause::BadCache),
            CacheFault::NoMemory => Stop::NoMemory,
        }
    }
}

impl From<RecipeFault> for Stop {
    ghost use Rattle.pl_texts.specs.Stops.{of_recipe_fault};

    ghost from_gives = { λ fault stop. stop ≡ of_recipe_fault fault };

    fn from(fault: RecipeFault) -> Stop {
        match fault {
            RecipeFault::Bad { line, kind } => Stop::Cause(Cause::Recipe { number: line, kind }),
            RecipeFault::NoMemory => Stop::NoMemory,
        }
    }
}

impl From<ScriptFault> for Stop {
    ghost use Rattle.pl_texts.specs.Stops.{of_script_fault};

    ghost from_gives = { λ fault stop. stop ≡ of_script_fault fault };

    fn from(fault: ScriptFault) -> Stop {
        match fault {
            ScriptFault::Wrong { line } => Stop::Cause(Cause::Script(line)),
            ScriptFault::NoMemory => Stop::NoMemory,
        }
    }
}
