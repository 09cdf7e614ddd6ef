//! What does the rows of a journal, made before the first of them is done.
ghost use Rattle.std.specs.Prelude.{◌≡◌, true, IfOk, string_bytes};
ghost use Rattle.std.specs.List.{list_any};
ghost use Rattle.pl_base.specs.Names.{IsNameLength};
ghost use Rattle.pl_folder.specs.Disk.{View, same};
ghost use Rattle.pl_journal.specs.Lists as lists;
ghost use Rattle.pl_journal.specs.Leaves.{DoEdit, DoEdits};
ghost use Rattle.pl_journal.specs.Meaning.{row_of, rows_for};
ghost use Rattle.pl_journal.specs.Names as own;
ghost use Rattle.pl_journal.specs.Phases.{AreSteps, IsStep};
ghost use Rattle.pl_journal.specs.Spelling.{are_rows, name_of};

use crate::names::{beside, is, is_journal_name};
use crate::{Change, FileName, Row, Step};
use pl_base::Rows;
use pl_io::NoMemory;
use std::alloc::Global;

fn has_name(names: &[String], name: &str) -> bool
    ensures { result ≡ list_any (λ other. same name.now (string_bytes other)) names.now }
{
    names.iter().any(|other| is(name, other.as_str()))
}

/// Whether a name is one of these.
pub(crate) fn is_in(names: &[String], name: &str) -> bool
    ensures { result ≡ lists.is_listed name.now (lists.texts names.now) }
{
    has_name(names, name)
}

fn has_own_name(names: &[String]) -> bool
    ensures { result ≡ list_any (λ name. own.is_journal_name (string_bytes name)) names.now }
{
    names.iter().any(|name| is_journal_name(name.as_str()))
}

/// Whether one of the names is one of the journal's own.
pub(crate) fn has_own(names: &[String]) -> bool
    ensures { result ≡ lists.any_own (lists.texts names.now) }
{
    has_own_name(names)
}

/// What does a row of a journal, of a folder with these names.
fn plan_row(alloc: Global, number: usize, row: &Row, names: &[String]) -> Result<Step, NoMemory>
    requires { IsNameLength (name_of row.now) }
    ensures { IfOk result (λ step. (v : View) → lists.IsListOf (lists.texts names.now) v → IsStep v
        number row.now step) }
{
    match row {
        Row::Drop { name } => Ok(Step::Drop {
            name: FileName::copy_of(alloc, name.as_str())?,
        }),
        Row::Put { name } => {
            let from = beside(alloc, number)?;
            if !is_in(names, from.as_str()) {
                return Ok(Step::Skip);
            }
            let to = FileName::copy_of(alloc, name.as_str())?;
            Ok(Step::Put { from, to })
        }
    }
}

/// What does the rows of a journal, of a folder with these names. It fails only for want of memory.
pub(crate) fn plan_rows(
    alloc: Global,
    rows: &[Row],
    names: &[String],
) -> Result<Rows<Step>, NoMemory>
    requires { are_rows rows.now ≡ true }
    ensures { IfOk result (λ steps. (v : View) → lists.IsListOf (lists.texts names.now) v → AreSteps
        v 0 rows.now steps) }
{
    let mut steps = Rows::new(alloc);
    for number in 0..rows.len() {
        let step = plan_row(alloc, number, &rows[number], names)?;
        steps.push(step)?;
    }
    Ok(steps)
}

/// What does a change whose file is staged.
fn plan_change(alloc: Global, number: usize, change: &Change) -> Result<Step, NoMemory>
    requires { IsNameLength (name_of (row_of change.now)) }
    ensures { IfOk result (DoEdit number change.now) }
{
    match change {
        Change::Drop { name } => Ok(Step::Drop {
            name: FileName::copy_of(alloc, name.as_str())?,
        }),
        Change::Put { name, bytes: _ } => {
            let from = beside(alloc, number)?;
            let to = FileName::copy_of(alloc, name.as_str())?;
            Ok(Step::Put { from, to })
        }
    }
}

/// What does the changes, once they are staged. It fails only for want of memory.
pub(crate) fn plan_changes(alloc: Global, changes: &[Change]) -> Result<Rows<Step>, NoMemory>
    requires { are_rows (rows_for changes.now) ≡ true }
    ensures { IfOk result (DoEdits 0 changes.now) }
{
    let mut steps = Rows::new(alloc);
    for number in 0..changes.len() {
        let step = plan_change(alloc, number, &changes[number])?;
        steps.push(step)?;
    }
    Ok(steps)
}
