// Tests of pl_lists.
ghost use Rattle.std.specs.Prelude.{◌≡◌, IfOk};

use pl_base::Text;
use pl_cases::{numbers, parts};
use pl_io::NoMemory;
use pl_lists::{
    ConflictRow, ListFault, ListRow, read_conflicts, read_list, write_conflicts, write_list,
};
use std::alloc::{AllocError, Global};
use std::test::Fail;

const STRINGS: &[u8] = b"\0libm.so.6\0liba\0libb\0";

/// Where `liba` begins in the strings.
const LIBA: u8 = 11;

/// The rows of `liba` and `libb`, whose names end the strings.
const LIST: [u8; 40] = [
    LIBA, 0, 0, 0, 1, 2, 0, 0, 0xba, 0x78, 0x16, 0xbf, 0, 0, 0, 0, 0, 0, 0, 0, //
    16, 0, 0, 0, 0xff, 0xff, 0xff, 0xff, 0, 0, 0, 0, 0, 0, 0, 0, 0, 0, 0, 0,
];

/// Their names, stamps and checksums.
const ROWS: [(&str, u32, u32); 2] = [("liba", 0x201, 0xbf16_78ba), ("libb", u32::MAX, 0)];

/// Whether the rows are these.
fn has_rows(rows: &[ListRow], wanted: &[(&str, u32, u32)]) -> bool {
    for (row, (name, stamp, checksum)) in rows.iter().zip(wanted) {
        if row.name.as_str() != *name || row.stamp != *stamp || row.checksum != *checksum {
            return false;
        }
    }
    rows.len() == wanted.len()
}

#[test]
fn reads_lists(rt: HostRuntime) -> Result<(), ListFault> {
    let rows = read_list(rt.alloc(), &LIST, STRINGS)?;
    assert!(rt; has_rows(rows.as_slice(), &ROWS));
    Ok(())
}

fn row(alloc: Global, name: &str, stamp: u32, checksum: u32) -> Result<ListRow, AllocError>
    ensures { IfOk result (λ row. row.name ≡ name.now) }
{
    Ok(ListRow {
        name: Text::copy_of(alloc, name)?,
        stamp,
        checksum,
    })
}

#[test]
#[tactic(auto, unfolding(pl_lists::specs::Lists::list_strings))]
fn writes_lists(rt: HostRuntime) -> Result<(), NoMemory> {
    let alloc = rt.alloc();
    let rows = [
        row(alloc, "liba", 0x201, 0xbf16_78ba)?,
        row(alloc, "libb", u32::MAX, 0)?,
    ];
    let mut strings = b"\0libm.so.6\0".to_vec(alloc)?;
    let table = write_list(alloc, &rows, &mut strings)?;
    assert!(rt; table.as_slice() == LIST.as_slice());
    assert!(rt; strings.as_slice() == STRINGS);
    Ok(())
}

/// The rows with another byte at an offset.
fn changed(at: usize, byte: u8) -> [u8; 40] {
    let mut table = LIST;
    if at < table.len() {
        table[at] = byte;
    }
    table
}

/// An offset in the rows and the byte there, in hexadecimal, and strings that are not theirs then, each of which ends with a bar.
const BAD_LISTS: &str = "\
0 b: |libm.so.6|liba|liba|\n\
0 b: |libm.so.6|liba|libb|libc|\n\
0 b: |libm.so.6|liba|libb\n\
0 b: |libm.so.6|li/a|libb|\n\
0 a: |libm.so.6|liba|libb|\n\
c 1: |libm.so.6|liba|libb|\n\
14 f: |libm.so.6|liba|libb|";

fn list_fault(alloc: Global, table: &[u8], strings: &[u8]) -> Option<ListFault> {
    read_list(alloc, table, strings).err()
}

/// Whether the list of a line is refused.
fn is_refused(alloc: Global, line: &str) -> Result<bool, Fail> {
    let (change, strings) = parts(line)?;
    let change = numbers(alloc, change)?;
    let [at, byte] = change.as_slice() else {
        return Err("an offset and a byte".into());
    };
    let table = changed(*at as usize, u8::try_from(*byte)?);
    let strings = strings.replace(alloc, "|", "\0")?;
    Ok(list_fault(alloc, &table, strings.as_bytes()) == Some(ListFault::BadList))
}

#[test]
fn refuses_lists(rt: HostRuntime) -> Result<(), Fail> {
    for line in BAD_LISTS.lines() {
        if !is_refused(rt.alloc(), line)? {
            return Err(line.into());
        }
    }
    Ok(())
}

#[test]
fn refuses_a_cut_list_and_no_text(rt: HostRuntime) {
    let alloc = rt.alloc();
    let bad = Some(ListFault::BadList);
    assert!(rt; list_fault(alloc, &LIST, b"\0libm.so.6\0lib\xe1\0libb\0") == bad);
    assert!(rt; list_fault(alloc, &LIST[..39], STRINGS) == bad);
    assert!(rt; list_fault(alloc, &[], b"libc\0").is_none());
}

/// Two rows: 0x0000003000302000 is to hold 0x0000003000100000, and the word after it 5.
const CONFLICTS: [u8; 48] = [
    0x00, 0x20, 0x30, 0x00, 0x30, 0, 0, 0, 1, 0, 0, 0, 0, 0, 0, 0, 0x00, 0x00, 0x10, 0x00, 0x30, 0,
    0, 0, //
    0x08, 0x20, 0x30, 0x00, 0x30, 0, 0, 0, 1, 0, 0, 0, 0, 0, 0, 0, 5, 0, 0, 0, 0, 0, 0, 0,
];

const CONFLICT_ROWS: [ConflictRow; 2] = [
    ConflictRow {
        address: 0x30_0030_2000,
        word: 0x30_0010_0000,
    },
    ConflictRow {
        address: 0x30_0030_2008,
        word: 5,
    },
];

#[test]
fn conflicts_both_ways(rt: HostRuntime) -> Result<(), ListFault> {
    let alloc = rt.alloc();
    let rows = read_conflicts(alloc, &CONFLICTS)?;
    assert!(rt; rows.as_slice() == CONFLICT_ROWS.as_slice());
    let table = write_conflicts(alloc, &CONFLICT_ROWS);
    assert!(rt; table.as_deref() == Ok(CONFLICTS.as_slice()));
    Ok(())
}

/// An offset in the two rows, and a byte there with which they are none: another kind, the same address twice.
const BAD_CONFLICTS: [(usize, u8); 2] = [(8, 2), (24, 0)];

#[test]
fn refuses_conflicts(rt: HostRuntime) -> Result<(), Fail> {
    let alloc = rt.alloc();
    let bad = Some(ListFault::BadList);
    for (at, byte) in &BAD_CONFLICTS {
        let mut table = CONFLICTS;
        if *at < table.len() {
            table[*at] = *byte;
        }
        if read_conflicts(alloc, &table).err() != bad {
            return Err((*at).into());
        }
    }
    assert!(rt; read_conflicts(alloc, &CONFLICTS[..47]).err() == bad);
    Ok(())
}
