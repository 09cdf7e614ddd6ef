ghost use Rattle.std.specs.Prelude.{◌≡◌, ◌+◌, nat_lt, length, IfOk, if◌then◌else◌};
ghost use Rattle.pl_folder.specs.Calls.{Calls, IsThere};
ghost use Rattle.pl_folder.specs.Seen.{ends};
ghost use Rattle.pl_journal.specs.FileNames.{name_text};
ghost use Rattle.pl_journal.specs.declared.step.Step.TheVariants as steps;
ghost use Rattle.pl_journal.specs.Parts.{CanDo, CanGoOn, CanStep, DoesRows, NextOn, StepsOn};
ghost use Rattle.pl_journal.specs.HeldFolder.{StaysFirm};

use crate::naming::name_firm;
use crate::{FileName, Step};
use pl_folder::Folder;
use pl_io::Failed;
use pl_stage::Held;

/// Does a row that puts.
fn put_file<D: Folder>(held: &mut Held<D>, from: &FileName, to: &FileName) -> Result<(), Failed>
    requires { IsThere (D.seen held.old.folder) (name_text from.now) }
    ensures calls { Calls (ends result) (StepsOn (steps.Put from.now to.now))
        (D.seen held.old.folder)
        (D.seen held.new.folder) }
    ensures real { StaysFirm D.seen held.old held.new }
{
    name_firm(held, from.as_str(), to.as_str())
}

/// Does a row that drops.
fn drop_file<D: Folder>(held: &mut Held<D>, name: &FileName) -> Result<(), Failed>
    ensures calls { Calls (ends result) (StepsOn (steps.Drop name.now)) (D.seen held.old.folder)
        (D.seen held.new.folder) }
    ensures real { StaysFirm D.seen held.old held.new }
{
    held.folder.remove(name.as_str())
}

/// Does one row of a journal. It takes no memory.
pub(crate) fn do_step<D: Folder>(held: &mut Held<D>, step: &Step) -> Result<(), Failed>
    requires { CanStep (D.seen held.old.folder) step.now }
    ensures calls { Calls (ends result) (StepsOn step.now) (D.seen held.old.folder)
        (D.seen held.new.folder) }
    ensures real { StaysFirm D.seen held.old held.new }
{
    match step {
        Step::Put { from, to } => put_file(held, from, to),
        Step::Drop { name } => drop_file(held, name),
        Step::Skip => Ok(()),
    }
}

/// Does the rows of a journal one after the other. It takes no memory.
pub(crate) fn do_rows<D: Folder>(held: &mut Held<D>, steps: &[Step]) -> Result<(), Failed>
    requires { CanDo (D.seen held.old.folder) steps.now }
    // Each image on the way is the folder with any of the rows done (`Midway`),
    // also where a call fails.
    ensures calls { Calls (ends result) (DoesRows steps.now) (D.seen held.old.folder)
        (D.seen held.new.folder) }
    ensures real { StaysFirm D.seen held.old held.new }
{
    for step in steps {
        do_step(held, step)?;
    }
    Ok(())
}

/// Does the next row of a journal, where one is left, after so many: then `true`, else `false`, and the folder is as it was. It takes no memory.
pub fn do_next<D: Folder>(held: &mut Held<D>, steps: &[Step], done: usize) -> Result<bool, Failed>
    requires { CanGoOn (D.seen held.old.folder) steps.now done }
    ensures calls { NextOn (ends result) steps.now done (D.seen held.old.folder)
        (D.seen held.new.folder) }
    ensures left { IfOk result (λ more. more ≡ nat_lt done (length steps.now)) }
    ensures can { IfOk result (λ more. CanGoOn (D.seen held.new.folder) steps.now
        (if more then done + 1 else done)) }
    ensures real { StaysFirm D.seen held.old held.new }
{
    if done >= steps.len() {
        return Ok(false);
    }
    do_step(held, &steps[done])?;
    Ok(true)
}
