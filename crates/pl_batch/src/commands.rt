//! The writing commands that prelink, undo or store files, over a folder that is held.
ghost use Rattle.std.specs.Fn.{FnOnceReturnsAt};
ghost use Rattle.std.specs.Prelude.{IfOk, Ok, OnOk};
ghost use Rattle.pl_folder.specs.Calls.{Calls};
ghost use Rattle.pl_journal.specs.Parts.{IsRested};
ghost use Rattle.pl_change.specs.Answers.{ending};
ghost use Rattle.pl_change.specs.Commands.{Commands, Counts, outcome};
ghost use Rattle.pl_change.specs.Starts.{Starts};
ghost use Rattle.pl_batch.specs.All.{Reports};
ghost use Rattle.pl_batch.specs.Changes.{IsRun, ready_by, run_meant};
ghost use Rattle.pl_batch.specs.declared.run.Run.TheVariants as runs;

use crate::all::all_fitting;
use crate::changes::changes_of;
use crate::{Prelinking, Run};
use pl_change::{BatchFault, start, start_for};
use pl_folder::Folder;
use pl_journal::carry_out;
use pl_rewrite::Report;
use pl_stage::Held;
use std::alloc::{AllocError, Global};

/// Recovers the folder, for the name of a command that has one.
fn start_run<D: Folder>(held: &mut Held<D>, alloc: Global, run: &Run) -> Result<(), BatchFault>
    ensures calls { Calls (ending result) (Starts (ready_by run.now) (outcome result))
        (D.seen held.old.folder) (D.seen held.new.folder) }
    ensures rested { OnOk result (IsRested (D.seen held.new.folder)) }
{
    match run {
        Run::All(_) => start(held, alloc),
        Run::UndoAll => start(held, alloc),
        Run::Undo { names: _ } => start(held, alloc),
        Run::Install { name, bytes: _ } => start_for(held, alloc, name.as_str()),
    }
}

/// `do_run`, over a folder that is held.
pub(crate) fn run_held<D: Folder>(
    held: &mut Held<D>,
    alloc: Global,
    run: &Run,
) -> Result<usize, BatchFault>
    requires { IsRun run.now }
    ensures calls { Calls (ending result) (Commands (run_meant run.now) (outcome result))
        (D.seen held.old.folder) (D.seen held.new.folder) }
    ensures count { IfOk result (λ count. Counts (run_meant run.now) count
        (D.seen held.old.folder)) }
{
    start_run(held, alloc, run)?;
    let rows = changes_of(alloc, &mut held.folder, run)?;
    carry_out(held, alloc, rows.as_slice())?;
    Ok(rows.len())
}

/// `prelink_all`, over a folder that is held.
pub(crate) fn prelink_held<D: Folder, F: FnOnce(&Report) -> Result<Vec<u8>, AllocError>>(
    held: &mut Held<D>,
    alloc: Global,
    asked: &Prelinking,
    tell: F,
) -> Result<Vec<u8>, BatchFault>
    requires { F.IsAlwaysCallable tell }
    ensures calls { Calls (ending result) (Commands (run_meant (runs.All asked.now))
        (outcome result))
        (D.seen held.old.folder) (D.seen held.new.folder) }
    ensures told { IfOk result (λ text. Reports (FnOnceReturnsAt F.FnOnce tell) asked.now
        (Ok text) (D.seen held.old.folder)) }
{
    start(held, alloc)?;
    let made = all_fitting(alloc, &mut held.folder, asked)?;
    let text = tell(&made.report)?;
    carry_out(held, alloc, made.rows.as_slice())?;
    Ok(text)
}
