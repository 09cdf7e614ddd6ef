//! How a command starts.
ghost use Rattle.std.specs.Prelude.{◌≡◌, OnOk};
ghost use Rattle.pl_folder.specs.Calls.{Calls};
ghost use Rattle.pl_journal.specs.Parts.{IsRested};
ghost use Rattle.pl_change.specs.Answers.{ending};
ghost use Rattle.pl_change.specs.Commands.{outcome, ready, ready_for};
ghost use Rattle.pl_change.specs.Starts as spec;
ghost use Rattle.pl_change.specs.Starts.{Named, Starts};

use crate::{BatchFault, Cause};
use pl_base::is_valid_name;
use pl_folder::Folder;
use pl_journal::{JournalFault, recover_lent};
use pl_stage::Held;
use std::alloc::Global;

/// Recovers a folder that is held. The one cause is BadJournal: the journal is outside its grammar, and the folder stays as it is.
///
/// After Ok nothing of the journal's own is left in the folder. `DiskFailed` comes only where the folder failed; after it, and after `NoMemory`, the folder stands for the files that it stood for.
pub fn start<D: Folder>(held: &mut Held<D>, alloc: Global) -> Result<(), BatchFault>
    ensures calls { Calls (ending result) (Starts ready (outcome result)) (D.seen held.old.folder)
        (D.seen held.new.folder) }
    ensures rested { OnOk result (IsRested (D.seen held.new.folder)) }
{
    match recover_lent(held, alloc) {
        Ok(()) => Ok(()),
        Err(JournalFault::BadJournal) => Err(BatchFault::Cause(Cause::BadJournal)),
        Err(JournalFault::Failed) => Err(BatchFault::DiskFailed),
        Err(JournalFault::NoMemory) => Err(BatchFault::NoMemory),
    }
}

/// Why a command stops whose name is not valid.
fn bad_name(started: Result<(), BatchFault>) -> BatchFault
    ensures { result ≡ spec.bad_name started }
{
    match started {
        Ok(()) => BatchFault::Cause(Cause::BadName),
        Err(BatchFault::DiskFailed) => BatchFault::DiskFailed,
        Err(BatchFault::NoMemory) => BatchFault::NoMemory,
        Err(BatchFault::Cause(_)) => BatchFault::Cause(Cause::BadName),
    }
}

/// Recovers a folder that is held, as `start` does, for a command of a name. The first cause counts: BadName, BadJournal. Where the name is not valid the folder is recovered all the same, and there is no Ok.
pub fn start_for<D: Folder>(held: &mut Held<D>, alloc: Global, name: &str) -> Result<(), BatchFault>
    ensures calls { Calls (ending result) (Starts (ready_for name.now) (outcome result))
        (D.seen held.old.folder) (D.seen held.new.folder) }
    ensures rested { OnOk result (IsRested (D.seen held.new.folder)) }
    ensures named { Named name.now result }
{
    let started = start(held, alloc);
    if is_valid_name(name.as_bytes()) {
        return started;
    }
    Err(bad_name(started))
}
