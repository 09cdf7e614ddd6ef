// Tests of pl_relr.
use pl_base::put64;
use pl_relr::{RelrFault, is_packable, move_table, pack, unpack};
use std::alloc::{AllocError, Global};
use std::test::Fail;

// A table of the gABI's form: an even entry names its place; the next 63 places have the bits from 1 on of an odd entry, and those after them the ones of the next.
const ENTRIES: [u64; 3] = [0x10_0000, 3, 3];

const PLACES: [u64; 3] = [0x10_0000, 0x10_0008, 0x10_0200];

const SLOT: u64 = 0x30_0000_0000;

// Each table of one entry, how many places are allowed, and how many it names.
const ONES: [(u64, u64, Result<usize, RelrFault>); 5] = [
    (8, 1, Ok(1)),
    (8, 0, Err(RelrFault::Packed)),
    (1, 64, Err(RelrFault::Packed)),
    (u64::MAX - 1, 1, Ok(1)),
    (u64::MAX, 64, Err(RelrFault::Packed)),
];

fn table(entries: &[u64; 3]) -> [u8; 24] {
    let mut table = [0; 24];
    put64(&mut table, 0, entries[0]);
    put64(&mut table, 8, entries[1]);
    put64(&mut table, 16, entries[2]);
    table
}

/// How many places a table names, of which so many are allowed.
fn count(alloc: Global, table: &[u8], most: u64) -> Result<usize, RelrFault> {
    Ok(unpack(alloc, table, most)?.len())
}

#[test]
fn a_table_names_its_places(rt: HostRuntime) -> Result<(), Fail> {
    let alloc = rt.alloc();
    assert!(rt; unpack(alloc, &table(&ENTRIES), 3)?.as_slice() == PLACES.as_slice());
    assert!(rt; count(alloc, &table(&ENTRIES), 2) == Err(RelrFault::Packed));
    assert!(rt; count(alloc, &[0; 20], 3) == Err(RelrFault::Packed));
    assert!(rt; count(alloc, &[], 0) == Ok(0));
    Ok(())
}

#[test]
fn an_entry_names_places(rt: HostRuntime) {
    for (entry, most, places) in &ONES {
        assert!(rt;
            count(rt.alloc(), &entry.to_le_bytes(), *most) == *places,
            "{entry}"
        );
    }
}

/// Whether places have this table.
fn is_packed(alloc: Global, places: &[u64], table: &[u8]) -> Result<bool, AllocError> {
    Ok(is_packable(places) && pack(alloc, places)?.as_slice() == table)
}

#[test]
fn places_have_a_table(rt: HostRuntime) -> Result<(), AllocError> {
    assert!(rt; is_packed(rt.alloc(), &PLACES, &table(&ENTRIES))?);
    assert!(rt; is_packed(rt.alloc(), &[], &[])?);
    Ok(())
}

#[test]
fn places_have_no_table(rt: HostRuntime) {
    assert!(rt; !is_packable(&[9]));
    assert!(rt; !is_packable(&[8, 14]));
    assert!(rt; !is_packable(&[0x8000_0000_0000]));
}

#[test]
fn a_table_moves(rt: HostRuntime) -> Result<(), Fail> {
    let mut moved = table(&ENTRIES);
    move_table(&mut moved, SLOT);
    assert_eq!(rt;
        moved.as_slice(),
        table(&[SLOT + 0x10_0000, 3, 3]).as_slice()
    );
    move_table(&mut moved, 0u64.wrapping_sub(SLOT));
    assert_eq!(rt; moved.as_slice(), table(&ENTRIES).as_slice());
    Ok(())
}
