ghost use Rattle.std.specs.Prelude.{◌≡◌, ◌++◌, ◌+◌, ◌<◌, ◌^◌, true, length, IfOk, OnErr, OnOk};
ghost use Rattle.pl_lists.specs.Lists as lists;

use crate::ListRow;
use pl_base::push32;
use pl_io::NoMemory;
use std::alloc::{AllocError, Global};

#[tactic(auto, unfolding(crate::specs::Lists::row_bytes))]
fn push_row(table: &mut Vec<u8>, start: u32, row: &ListRow) -> Result<(), AllocError>
    ensures { OnOk result (table.new.items ≡ table.old.items ++ lists.row_bytes start row.now) }
{
    push32(table, start)?;
    push32(table, row.stamp)?;
    push32(table, row.checksum)?;
    push32(table, 0)?;
    push32(table, 0)?;
    Ok(())
}

/// The table of rows whose names begin at an offset of the strings.
fn list_bytes(alloc: Global, start: usize, rows: &[ListRow]) -> Result<Vec<u8>, AllocError>
    requires { start + length (lists.list_strings rows.now) < 2 ^ 32 }
    ensures { IfOk result (λ table. table.items ≡ lists.list_bytes start rows.now) }
{
    let mut table = Vec::new(alloc);
    let mut at = start;
    for row in rows {
        push_row(&mut table, at as u32, row)?;
        at += row.name.as_str().len() + 1;
    }
    Ok(table)
}

fn push_name(names: &mut Vec<u8>, row: &ListRow) -> Result<(), AllocError>
    ensures { OnOk result (names.new.items ≡ names.old.items ++ lists.ended_name row.now) }
{
    names.extend_from_slice(row.name.as_str().as_bytes())?;
    names.push(0)?;
    Ok(())
}

fn list_strings(alloc: Global, rows: &[ListRow]) -> Result<Vec<u8>, AllocError>
    ensures { IfOk result (λ names. names.items ≡ lists.list_strings rows.now) }
{
    let mut names = Vec::new(alloc);
    for row in rows {
        push_name(&mut names, row)?;
    }
    Ok(names)
}

/// The table of a library list; its names, each ended by a 0, are added to the strings. Where the names are valid and distinct, both are the list's one spelling behind these strings, which `read_list` reads.
///
/// After `NoMemory` the strings are as before.
pub fn write_list(
    alloc: Global,
    rows: &[ListRow],
    strings: &mut Vec<u8>,
) -> Result<Vec<u8>, NoMemory>
    requires { length strings.old.items + length (lists.list_strings rows.now) < 2 ^ 32 }
    ensures table { IfOk result (λ table. table.items
        ≡ lists.list_bytes (length strings.old.items) rows.now) }
    ensures strings { OnOk result (strings.new.items ≡ strings.old.items
        ++ lists.list_strings rows.now) }
    ensures same { OnErr result (strings.new.items ≡ strings.old.items) }
    ensures spelled { IfOk result (λ table. lists.is_list rows.now ≡ true
        → lists.IsListOf table.items strings.new.items rows.now) }
{
    let table = list_bytes(alloc, strings.len(), rows)?;
    let names = list_strings(alloc, rows)?;
    strings.extend_from_slice(&names)?;
    Ok(table)
}
