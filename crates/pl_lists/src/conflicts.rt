ghost use Rattle.std.specs.Prelude.{◌≡◌, ◌++◌, ◌+◌, ◌*◌, ◌/◌, ◌≤◌, length, true, IfOk, OnOk, List, Ok};
ghost use Rattle.pl_base.specs.Answers.{Answers};
ghost use Rattle.pl_lists.specs.Conflicts as conflicts;
ghost use Rattle.pl_lists.specs.Reading as spec;
ghost use Rattle.pl_lists.specs.declared.conflict_row.ConflictRow.{ConflictRow};

use crate::constants::{CONFLICT_INFO, CONFLICT_SIZE};
use crate::{ConflictRow, ListFault};
use pl_base::{Rows, push64, word64};
use pl_io::NoMemory;
use std::alloc::{AllocError, Global};

#[tactic(auto, unfolding(crate::specs::Reading::conflict_at))]
fn conflict_at(table: &[u8], index: usize) -> Result<ConflictRow, ListFault>
    requires { CONFLICT_SIZE * (index + 1) ≤ length table.now }
    ensures { Answers spec.is_memory result (spec.conflict_at table.now index) }
{
    let at = CONFLICT_SIZE * index;
    if word64(table, at + 8) != CONFLICT_INFO {
        return Err(ListFault::BadList);
    }
    Ok(ConflictRow {
        address: word64(table, at),
        word: word64(table, at + 16),
    })
}

fn ascend(rows: &[ConflictRow]) -> bool
    ensures { result ≡ conflicts.ascend rows.now }
{
    for index in 1..rows.len() {
        if rows[index - 1].address >= rows[index].address {
            return false;
        }
    }
    true
}

fn read_rows(alloc: Global, table: &[u8]) -> Result<Rows<ConflictRow>, ListFault>
    ensures { Answers spec.is_memory result (spec.conflict_rows_of table.now) }
{
    let mut rows = Rows::new(alloc);
    for index in 0..table.len() / CONFLICT_SIZE {
        rows.push(conflict_at(table, index)?)?;
    }
    Ok(rows)
}

#[tactic(auto, unfolding(crate::specs::Reading::conflicts_of))]
fn conflicts_of(alloc: Global, table: &[u8]) -> Result<Rows<ConflictRow>, ListFault>
    ensures { Answers spec.is_memory result (spec.conflicts_of table.now) }
{
    if table.len() % CONFLICT_SIZE != 0 {
        return Err(ListFault::BadList);
    }
    let rows = read_rows(alloc, table)?;
    if !ascend(rows.as_slice()) {
        return Err(ListFault::BadList);
    }
    Ok(rows)
}

/// The conflict rows of a table.
///
/// BadList comes exactly where the bytes spell no conflict rows: the table is rows of 24 bytes, each with the info `CONFLICT_INFO`, at addresses that ascend strictly.
pub fn read_conflicts(alloc: Global, table: &[u8]) -> Result<Rows<ConflictRow>, ListFault>
    // What is read is spelled so.
    ensures found { IfOk result (conflicts.AreConflictsOf table.now) }
    // What is spelled so is read, unless there is no memory.
    ensures only { (rows : List ConflictRow) → conflicts.AreConflictsOf table.now rows
        → Answers spec.is_memory result (Ok rows) }
    // No bytes spell two lists of rows.
    ensures unique { (rows others : List ConflictRow) → conflicts.AreConflictsOf table.now rows
        → conflicts.AreConflictsOf table.now others → rows ≡ others }
    ensures exact { Answers spec.is_memory result (spec.conflicts_of table.now) }
{
    conflicts_of(alloc, table)
}

#[tactic(auto, unfolding(crate::specs::Conflicts::conflict_bytes))]
fn push_conflict(table: &mut Vec<u8>, row: &ConflictRow) -> Result<(), AllocError>
    ensures { OnOk result (table.new.items ≡ table.old.items ++ conflicts.conflict_bytes row.now) }
{
    push64(table, row.address)?;
    push64(table, CONFLICT_INFO)?;
    push64(table, row.word)?;
    Ok(())
}

/// The table of conflict rows. Where the addresses ascend strictly, it is their one spelling, which `read_conflicts` reads.
pub fn write_conflicts(alloc: Global, rows: &[ConflictRow]) -> Result<Vec<u8>, NoMemory>
    ensures table { IfOk result (λ table. table.items ≡ conflicts.conflicts_bytes rows.now) }
    ensures spelled { IfOk result (λ table. conflicts.are_conflicts rows.now ≡ true
        → conflicts.AreConflictsOf table.items rows.now) }
{
    let mut table = Vec::new(alloc);
    for row in rows {
        push_conflict(&mut table, row)?;
    }
    Ok(table)
}
