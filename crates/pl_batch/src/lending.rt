//! The writing commands that prelink, undo or store files.
ghost use Rattle.std.specs.Fn.{FnOnceReturnsAt};
ghost use Rattle.std.specs.Prelude.{IfOk, Ok};
ghost use Rattle.pl_folder.specs.Calls.{Calls};
ghost use Rattle.pl_change.specs.Answers.{ending};
ghost use Rattle.pl_change.specs.Commands.{Commands, Counts, outcome};
ghost use Rattle.pl_batch.specs.All.{Reports};
ghost use Rattle.pl_batch.specs.Changes.{IsRun, run_meant};
ghost use Rattle.pl_batch.specs.declared.run.Run.TheVariants as runs;

use crate::commands::{prelink_held, run_held};
use crate::{Prelinking, Run};
use pl_change::{BatchFault, Lent};
use pl_folder::Folder;
use pl_rewrite::Report;
use pl_stage::Held;
use std::alloc::{AllocError, Global};

/// Recovers the folder and then makes the changes of a run, all or none; so many names change. The first cause counts:
/// - of `All`, `UndoAll` and `Undo`: BadJournal, then those of `changes_of`;
/// - of `Install`: BadName, BadJournal, then those of `changes_of`.
///
/// After a cause the folder is recovered and nothing else changes. `DiskFailed` comes only where the folder failed: recovered, it then has all changes or none. `NoMemory` comes before any change is committed. Each image that a crash on the way may leave stands for the files before or for those after; that of a moment before the first `settle` that is done may be one of the folder's images at the start. On a disk whose `settle` makes names last and no file's bytes, as real ones are, it goes on alike, moment for moment, but for the firmness of files that were loose, that is not firm, at its start and that it left alone.
pub fn do_run<D: Folder>(alloc: Global, folder: &mut D, run: &Run) -> Result<usize, BatchFault>
    requires { IsRun run.now }
    ensures calls { Calls (ending result) (Commands (run_meant run.now) (outcome result))
        (D.seen folder.old) (D.seen folder.new) }
    ensures count { IfOk result (λ count. Counts (run_meant run.now) count (D.seen folder.old)) }
{
    let mut held = Held {
        folder: Lent { folder },
    };
    run_held(&mut held, alloc, run)
}

/// Recovers the folder and then prelinks every file that may be prelinked, as `do_run` makes the changes of `All`. The first cause counts: BadJournal, then those of `changes_of`.
///
/// `tell` makes the answer of the report, which has a row for each valid name, ascending. It is called at most once, before a change is committed, and all memory is taken before that; it fails only for want of memory, and then nothing is changed.
pub fn prelink_all<D: Folder, F: FnOnce(&Report) -> Result<Vec<u8>, AllocError>>(
    alloc: Global,
    folder: &mut D,
    asked: &Prelinking,
    tell: F,
) -> Result<Vec<u8>, BatchFault>
    requires { F.IsAlwaysCallable tell }
    ensures calls { Calls (ending result) (Commands (run_meant (runs.All asked.now))
        (outcome result))
        (D.seen folder.old) (D.seen folder.new) }
    ensures told { IfOk result (λ text. Reports (FnOnceReturnsAt F.FnOnce tell) asked.now
        (Ok text) (D.seen folder.old)) }
{
    let mut held = Held {
        folder: Lent { folder },
    };
    prelink_held(&mut held, alloc, asked, tell)
}
