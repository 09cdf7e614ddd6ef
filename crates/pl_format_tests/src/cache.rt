// Tests of pl_cache.
use pl_base::Rows;
use pl_cache::{Cache, CacheFault, is_cache, read_cache, write_cache};
use pl_cases::bytes_of;
use std::alloc::{AllocError, Global};
use std::test::Fail;

/// The last stamp 1000, and a row: `liba` from 0x3000000000 on, 0x101000 bytes.
const ONE_ROW: [u8; 37] = [
    0x50, 0x4c, 0x43, 0x41, 0x43, 0x48, 0x45, 0x31, 0xe8, 3, 0, 0, 1, 0, 0, 0, 4, 0x6c, 0x69, 0x62,
    0x61, 0, 0, 0, 0, 0x30, 0, 0, 0, 0, 0x10, 0x10, 0, 0, 0, 0, 0,
];

/// Whether these bytes are written of a cache.
fn is_written(alloc: Global, cache: &Cache, bytes: &[u8]) -> bool {
    is_cache(cache) && write_cache(alloc, cache).as_deref() == Ok(bytes)
}

/// Whether the one row is what a cache has.
fn has_one_row(cache: &Cache) -> bool {
    match cache.rows.as_slice() {
        [row] => {
            let named = row.name.as_str() == "liba" && cache.last == 1000;
            named && row.start == 0x30_0000_0000 && row.span == 0x10_1000
        }
        _ => false,
    }
}

/// Whether the one row is read and written.
fn one_row_goes_both_ways(alloc: Global) -> Result<bool, CacheFault> {
    let cache = read_cache(alloc, &ONE_ROW)?;
    Ok(has_one_row(&cache) && is_written(alloc, &cache, &ONE_ROW))
}

#[test]
fn both_ways(rt: HostRuntime) -> Result<(), CacheFault> {
    assert!(rt; one_row_goes_both_ways(rt.alloc())?);
    Ok(())
}

/// Whether a cache without rows is written.
fn is_written_without_rows(alloc: Global) -> bool {
    let cache = Cache {
        last: 900,
        rows: Rows::new(alloc),
    };
    is_written(alloc, &cache, b"PLCACHE1\x84\x03\0\0\0\0\0\0")
}

#[test]
fn writes_no_rows(rt: HostRuntime) {
    assert!(rt; is_written_without_rows(rt.alloc()));
}

/// Bytes that are no cache, in hexadecimal: none, three, the second magic without rows, a byte behind the rows, and the one row without its last byte.
const BAD: &str = "\n\
61 62 63\n\
50 4c 43 41 43 48 45 32 84 03 0 0 0 0 0 0\n\
50 4c 43 41 43 48 45 31 84 03 0 0 0 0 0 0 0\n\
50 4c 43 41 43 48 45 31 e8 3 0 0 1 0 0 0 4 6c 69 62 61 0 0 0 0 30 0 0 0 0 10 10 0 0 0 0";

/// Whether bytes are read as a cache, or why they are not.
fn answer(alloc: Global, bytes: &[u8]) -> Result<(), CacheFault> {
    read_cache(alloc, bytes)?;
    Ok(())
}

fn is_refused(alloc: Global, bytes: &[u8]) -> bool {
    matches!(answer(alloc, bytes), Err(CacheFault::BadCache))
}

#[test]
fn refuses_what_is_no_cache(rt: HostRuntime) -> Result<(), Fail> {
    for line in BAD.lines() {
        if !is_refused(rt.alloc(), &bytes_of(rt.alloc(), line)?) {
            return Err(line.into());
        }
    }
    Ok(())
}

/// A cache of so many slots, a page each, one behind the other.
fn cache_of(alloc: Global, count: u16) -> Result<Vec<u8>, AllocError> {
    let mut bytes = b"PLCACHE1\0\0\0\0".to_vec(alloc)?;
    bytes.extend_from_slice(&u32::from(count).to_le_bytes())?;
    for row in 0..count {
        let name = [2, b'A' + (row / 32 % 64) as u8, b'A' + (row % 32) as u8];
        bytes.extend_from_slice(&name)?;
        bytes.extend_from_slice(&(4096 * u64::from(row)).to_le_bytes())?;
        bytes.extend_from_slice(&4096u64.to_le_bytes())?;
    }
    Ok(bytes)
}

/// Whether a cache of so many slots is read, or why it is not.
fn answer_of(alloc: Global, count: u16) -> Result<(), CacheFault> {
    answer(alloc, &cache_of(alloc, count)?)
}

#[test]
fn reads_the_most_rows(rt: HostRuntime) {
    assert!(rt; answer_of(rt.alloc(), 1024).is_ok());
    assert!(rt; matches!(answer_of(rt.alloc(), 1025), Err(CacheFault::BadCache)));
}

/// Two slots of one page, `a` and `b`, with one address and so with the second magic.
const SHARED: [u8; 52] = [
    0x50, 0x4c, 0x43, 0x41, 0x43, 0x48, 0x45, 0x32, 0, 0, 0, 0, 2, 0, 0, 0, 1, 0x61, 0, 0, 0, 0,
    0x30, 0, 0, 0, 0, 0x10, 0, 0, 0, 0, 0, 0, 1, 0x62, 0, 0, 0, 0, 0x30, 0, 0, 0, 0, 0x10, 0, 0, 0,
    0, 0, 0,
];

/// Whether the two slots are read and written.
fn shared_go_both_ways(alloc: Global) -> Result<bool, CacheFault> {
    let cache = read_cache(alloc, &SHARED)?;
    Ok(cache.rows.len() == 2 && is_written(alloc, &cache, &SHARED))
}

/// Two slots, with the last byte of the magic, and the second byte of the address of the second one.
fn slots(magic: u8, start: u8) -> [u8; 52] {
    let mut bytes = SHARED;
    bytes[7] = magic;
    bytes[37] = start;
    bytes
}

#[test]
fn tells_shared_addresses_by_the_magic(rt: HostRuntime) -> Result<(), Fail> {
    let alloc = rt.alloc();
    assert!(rt; shared_go_both_ways(alloc)?);
    assert!(rt; is_refused(alloc, &slots(b'1', 0)));
    assert!(rt; is_refused(alloc, &slots(b'2', 0x10)));
    assert!(rt; answer(alloc, &slots(b'1', 0x10)).is_ok());
    Ok(())
}
