ghost use Rattle.std.specs.Prelude.{◌≡◌, ◌+◌, ◌*◌, ◌/◌, ◌<◌, ◌≤◌, ◌-◌, ◌%◌, length, IfErr, IfOk, IsTrue, List, Ok};
ghost use Rattle.pl_base.specs.Answers.{Answers};
ghost use Rattle.pl_lists.specs.Lists as lists;
ghost use Rattle.pl_lists.specs.Reading as spec;
ghost use Rattle.pl_lists.specs.declared.fault.ListFault.TheVariants as faults;
ghost use Rattle.pl_lists.specs.declared.list_row.ListRow.{ListRow};

use crate::constants::LIST_ROW_SIZE;
use crate::{ListFault, ListRow};
use pl_base::{Rows, Text, valid_text, word32};
use std::alloc::Global;
use std::collections::BTreeSet;

#[tactic(auto, unfolding(crate::specs::Reading::checked_name))]
fn checked_name(alloc: Global, bytes: &[u8]) -> Result<Text, ListFault>
    ensures { Answers spec.is_memory result (spec.checked_name bytes.now) }
{
    match valid_text(bytes) {
        None => Err(ListFault::BadList),
        Some(name) => Ok(Text::copy_of(alloc, name)?),
    }
}

#[tactic(auto, unfolding(crate::specs::Reading::start_at))]
fn start_at(table: &[u8], strings: &[u8], index: usize) -> usize
    requires within { LIST_ROW_SIZE * index ≤ length table.now }
    requires whole { length table.now % LIST_ROW_SIZE ≡ 0 }
    ensures { result ≡ spec.start_at table.now strings.now index }
{
    let at = LIST_ROW_SIZE * index;
    if at < table.len() {
        word32(table, at) as usize
    } else {
        strings.len()
    }
}

#[tactic(auto, unfolding(crate::specs::Reading::is_ended))]
fn is_ended(start: usize, end: usize, strings: &[u8]) -> bool
    ensures test { result ≡ spec.is_ended start end strings.now }
    ensures within { IsTrue result → (start < end) × (end ≤ length strings.now) }
{
    start < end && end <= strings.len() && strings[end - 1] == 0
}

#[tactic(auto, unfolding(crate::specs::Reading::has_zeros))]
fn has_zeros(at: usize, table: &[u8]) -> bool
    requires { at + LIST_ROW_SIZE ≤ length table.now }
    ensures { result ≡ spec.has_zeros at table.now }
{
    word32(table, at + 12) == 0 && word32(table, at + 16) == 0
}

/// The row that begins at an offset of the table, whose name and its 0 are the bytes of the strings from `start` up to `end`.
#[tactic(auto, unfolding(crate::specs::Reading::row_between))]
fn row_between(
    alloc: Global,
    table: &[u8],
    strings: &[u8],
    at: usize,
    start: usize,
    end: usize,
) -> Result<ListRow, ListFault>
    requires { at + LIST_ROW_SIZE ≤ length table.now }
    ensures { Answers spec.is_memory result (spec.row_between table.now strings.now at start end) }
{
    if !is_ended(start, end, strings) || !has_zeros(at, table) {
        return Err(ListFault::BadList);
    }
    let name = checked_name(alloc, &strings[start..end - 1])?;
    Ok(ListRow {
        name,
        stamp: word32(table, at + 4),
        checksum: word32(table, at + 8),
    })
}

/// It goes from the last row to the first, with the names of all later rows at hand.
fn are_distinct(alloc: Global, rows: &[ListRow]) -> Result<bool, ListFault>
    ensures ok { IfOk result (λ b. b ≡ lists.are_distinct rows.now) }
    ensures err { IfErr result (λ e. e ≡ faults.NoMemory) }
{
    let mut later: BTreeSet<&str> = BTreeSet::new(alloc);
    for index in (0..rows.len()).rev() {
        let Ok(is_new) = later.insert(rows[index].name.as_str()) else {
            return Err(ListFault::NoMemory);
        };
        if !is_new {
            return Ok(false);
        }
    }
    Ok(true)
}

/// The row at an index. Its name goes up to where the next one begins.
#[tactic(auto, unfolding(crate::specs::Reading::row_at))]
fn row_at(alloc: Global, table: &[u8], strings: &[u8], index: usize) -> Result<ListRow, ListFault>
    requires within { LIST_ROW_SIZE * (index + 1) ≤ length table.now }
    requires whole { length table.now % LIST_ROW_SIZE ≡ 0 }
    ensures { Answers spec.is_memory result (spec.row_at table.now strings.now index) }
{
    let start = start_at(table, strings, index);
    let end = start_at(table, strings, index + 1);
    row_between(alloc, table, strings, LIST_ROW_SIZE * index, start, end)
}

fn read_rows(alloc: Global, table: &[u8], strings: &[u8]) -> Result<Rows<ListRow>, ListFault>
    requires { length table.now % LIST_ROW_SIZE ≡ 0 }
    ensures { Answers spec.is_memory result (spec.rows_of table.now strings.now) }
{
    let mut rows = Rows::new(alloc);
    for index in 0..table.len() / LIST_ROW_SIZE {
        rows.push(row_at(alloc, table, strings, index)?)?;
    }
    Ok(rows)
}

#[tactic(auto, unfolding(crate::specs::Reading::list_of))]
fn list_of(alloc: Global, table: &[u8], strings: &[u8]) -> Result<Rows<ListRow>, ListFault>
    ensures { Answers spec.is_memory result (spec.list_of table.now strings.now) }
{
    if table.len() % LIST_ROW_SIZE != 0 {
        return Err(ListFault::BadList);
    }
    let rows = read_rows(alloc, table, strings)?;
    if !are_distinct(alloc, rows.as_slice())? {
        return Err(ListFault::BadList);
    }
    Ok(rows)
}

/// The rows of a library list, from its table and the strings that end with its names.
///
/// BadList comes exactly where the bytes spell no list: the table is rows of 20 bytes, the last eight of them zeros; the names, each ended by a 0, are a suffix of the strings in the order of the rows, each row's offset is where its name begins there, and the names are valid and distinct.
pub fn read_list(alloc: Global, table: &[u8], strings: &[u8]) -> Result<Rows<ListRow>, ListFault>
    // What is read is spelled so.
    ensures found { IfOk result (lists.IsListOf table.now strings.now) }
    // What is spelled so is read, unless there is no memory.
    ensures only { (rows : List ListRow) → lists.IsListOf table.now strings.now rows
        → Answers spec.is_memory result (Ok rows) }
    // No bytes spell two lists.
    ensures unique { (rows others : List ListRow) → lists.IsListOf table.now strings.now rows
        → lists.IsListOf table.now strings.now others → rows ≡ others }
    ensures exact { Answers spec.is_memory result (spec.list_of table.now strings.now) }
{
    list_of(alloc, table, strings)
}
