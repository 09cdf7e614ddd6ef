ghost use Rattle.std.specs.Prelude.{◌≤◌, length, OnOk};
ghost use Rattle.pl_folder.specs.Calls.{Calls};
ghost use Rattle.pl_folder.specs.Seen.{ends};
ghost use Rattle.pl_journal.specs.Parts.{CanGoOn, Finishes, IsAtRest, IsStill};
ghost use Rattle.pl_journal.specs.HeldFolder.{StaysFirm};

use crate::Step;
use crate::names::JOURNAL;
use pl_folder::Folder;
use pl_io::Failed;
use pl_stage::Held;

/// Settles the rows that are done, removes the journal, and settles. It takes no memory.
pub(crate) fn finish<D: Folder>(held: &mut Held<D>) -> Result<(), Failed>
    ensures calls { Calls (ends result) Finishes (D.seen held.old.folder) (D.seen held.new.folder) }
    ensures settled { OnOk result (IsStill (D.seen held.new.folder)) }
    ensures real { StaysFirm D.seen held.old held.new }
{
    held.folder.settle()?;
    held.folder.remove(JOURNAL)?;
    held.folder.settle()
}

/// Ends a journal all of whose rows are done: then none of its own names is left, and the folder is settled. It takes no memory.
pub fn finish_steps<D: Folder>(
    held: &mut Held<D>,
    steps: &[Step],
    done: usize,
) -> Result<(), Failed>
    requires none_left { length steps.now ≤ done }
    requires can { CanGoOn (D.seen held.old.folder) steps.now done }
    ensures calls { Calls (ends result) Finishes (D.seen held.old.folder) (D.seen held.new.folder) }
    ensures rested { OnOk result (IsAtRest (D.seen held.new.folder)) }
    ensures real { StaysFirm D.seen held.old held.new }
{
    finish(held)
}
