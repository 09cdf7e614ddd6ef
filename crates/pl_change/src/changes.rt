//! The rows of a command, where a journal can have them.
ghost use Rattle.std.specs.Prelude.{◌≡◌, IfOk, true};
ghost use Rattle.pl_journal.specs.Meaning.{rows_for};
ghost use Rattle.pl_journal.specs.Spelling.{are_rows};
ghost use Rattle.pl_change.specs.Answers.{Finds, BatchMeansAlone};
ghost use Rattle.pl_change.specs.Changes as spec;

use crate::storing::removed;
use crate::{BatchFault, Cause};
use pl_base::Rows;
use pl_folder::Folder;
use pl_journal::{Change, are_changes};
use std::alloc::Global;

/// The rows as they are, where a journal can have them. The one cause is TooManyFiles: it can not.
pub fn fitting(rows: Rows<Change>) -> Result<Rows<Change>, BatchFault>
    ensures means { BatchMeansAlone (spec.fitting rows) result }
    ensures fits { IfOk result (λ rows. are_rows (rows_for rows) ≡ true) }
{
    if !are_changes(rows.as_slice()) {
        return Err(BatchFault::Cause(Cause::TooManyFiles));
    }
    Ok(rows)
}

/// The row of the journal of `--remove`, or the first cause: BadName, NotThere.
pub(crate) fn removal_of<D: Folder>(
    alloc: Global,
    folder: &mut D,
    name: &str,
) -> Result<Rows<Change>, BatchFault>
    ensures found { Finds (spec.removal_of (D.seen folder.old).files name.now) (λ rows. rows) result
        (D.seen folder.old) (D.seen folder.new) }
    ensures fits { IfOk result (λ rows. are_rows (rows_for rows) ≡ true) }
{
    let rows = removed(alloc, folder, name)?;
    fitting(rows)
}
