ghost use Rattle.std.specs.Prelude.{OnOk};
ghost use Rattle.pl_folder.specs.Calls.{Calls, IsThere};
ghost use Rattle.pl_folder.specs.Seen.{ends};
ghost use Rattle.pl_journal.specs.Names as names;
ghost use Rattle.pl_journal.specs.Parts.{CanGoOn, CanPut, Commits};
ghost use Rattle.pl_journal.specs.HeldFolder.{StaysFirm};

use crate::Step;
use crate::names::{JOURNAL, JOURNAL_NEW};
use crate::naming::name_firm;
use pl_folder::Folder;
use pl_io::Failed;
use pl_stage::Held;

/// Settles what is staged, gives the journal its name, and settles. It takes no memory.
pub(crate) fn commit<D: Folder>(held: &mut Held<D>) -> Result<(), Failed>
    requires { IsThere (D.seen held.old.folder) names.journal_new }
    ensures calls { Calls (ends result) Commits (D.seen held.old.folder) (D.seen held.new.folder) }
    ensures real { StaysFirm D.seen held.old held.new }
{
    held.folder.settle()?;
    name_firm(held, JOURNAL_NEW, JOURNAL)?;
    held.folder.settle()
}

/// Commits what is staged: from then on a recovery makes the changes, and their rows can be done. After a fault the recovered folder is the one before or the one after. It takes no memory.
pub fn commit_steps<D: Folder>(held: &mut Held<D>, steps: &[Step]) -> Result<(), Failed>
    requires { CanPut (D.seen held.old.folder) steps.now }
    ensures calls { Calls (ends result) Commits (D.seen held.old.folder) (D.seen held.new.folder) }
    ensures can { OnOk result (CanGoOn (D.seen held.new.folder) steps.now 0) }
    ensures real { StaysFirm D.seen held.old held.new }
{
    commit(held)
}
