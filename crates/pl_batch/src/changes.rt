//! The rows of a run.
ghost use Rattle.std.specs.Prelude.{◌≡◌, IfOk, true};
ghost use Rattle.pl_journal.specs.Meaning.{rows_for};
ghost use Rattle.pl_journal.specs.Spelling.{are_rows};
ghost use Rattle.pl_change.specs.Answers.{Finds};
ghost use Rattle.pl_batch.specs.Changes as spec;

use crate::Run;
use crate::all::all_changes;
use pl_base::Rows;
use pl_change::{BatchFault, all_undone, fitting, installed, undone};
use pl_folder::Folder;
use pl_journal::Change;
use std::alloc::Global;

fn changes_by<D: Folder>(
    alloc: Global,
    folder: &mut D,
    run: &Run,
) -> Result<Rows<Change>, BatchFault>
    requires { spec.IsRun run.now }
    ensures { Finds (spec.changes_by (D.seen folder.old).files run.now) (λ rows. rows) result
        (D.seen folder.old) (D.seen folder.new) }
{
    match run {
        Run::All(asked) => all_changes(alloc, folder, asked),
        Run::UndoAll => all_undone(alloc, folder),
        Run::Undo { names } => undone(alloc, folder, names.as_slice()),
        Run::Install { name, bytes } => installed(alloc, folder, name.as_str(), bytes.as_slice()),
    }
}

/// The rows of the journal of a command: of `All` first that of the cache, then those of names, ascending. A file whose bytes would not change has no row; a folder without a cache has an empty one. Or the first cause, in this order:
/// - of `All`: TooManyFiles, BadCache, FileTooLarge in the order of the names, FolderTooLarge, NoSlot, StampsSpent;
/// - of `UndoAll`: TooManyFiles, FileTooLarge in the order of the names; a file that bears a mark and is no form stays as it is;
/// - of `Undo`: TooManyFiles, then for each name in the order given BadName, NotThere, FileTooLarge, BadMark;
/// - of `Install`: BadName, BadMark, TooManyFiles.
///
/// Bytes that are installed are at most `pl_folder::STORED`. `DiskFailed` comes only where the folder failed. No call writes to the folder. Where a journal could not have the rows, which no folder that lists each name once gives, the cause is TooManyFiles.
pub fn changes_of<D: Folder>(
    alloc: Global,
    folder: &mut D,
    run: &Run,
) -> Result<Rows<Change>, BatchFault>
    requires { spec.IsRun run.now }
    ensures found { Finds (spec.changes_of (D.seen folder.old).files run.now) (λ rows. rows) result
        (D.seen folder.old) (D.seen folder.new) }
    ensures fits { IfOk result (λ rows. are_rows (rows_for rows) ≡ true) }
{
    let rows = changes_by(alloc, folder, run)?;
    fitting(rows)
}
