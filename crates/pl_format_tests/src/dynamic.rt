// Tests of pl_dyn.
use pl_cases::{numbers, parts};
use pl_dyn::constants::{
    DT_GNU_HASH, DT_HASH, DT_INIT_ARRAY, DT_INIT_ARRAYSZ, DT_JMPREL, DT_NEEDED, DT_PLTGOT,
    DT_PLTREL, DT_PLTRELSZ, DT_RELA, DT_RELACOUNT, DT_RELAENT, DT_RELASZ, DT_SONAME, DT_STRSZ,
    DT_STRTAB, DT_SYMENT, DT_SYMTAB, DT_VERDEF, DT_VERDEFNUM, DT_VERNEED, DT_VERSYM,
};
use pl_dyn::{
    DynFault, Dynamic, entry, is_address_tag, is_ended, is_listed, is_prelink_tag, is_value_tag,
    read_dynamic, tag,
};
use std::alloc::{AllocError, Global};
use std::test::Fail;

/// The whole `.dynamic` of a library that gcc and GNU ld 2.40 made (`gcc -shared -nostdlib -Wl,--hash-style=both`, with a version script and a library that it needs).
const LIBRARY: [u8; 416] = [
    1, 0, 0, 0, 0, 0, 0, 0, 70, 0, 0, 0, 0, 0, 0, 0, 14, 0, 0, 0, 0, 0, 0, 0, 78, 0, 0, 0, 0, 0, 0,
    0, 25, 0, 0, 0, 0, 0, 0, 0, 40, 62, 0, 0, 0, 0, 0, 0, 27, 0, 0, 0, 0, 0, 0, 0, 8, 0, 0, 0, 0,
    0, 0, 0, 4, 0, 0, 0, 0, 0, 0, 0, 152, 2, 0, 0, 0, 0, 0, 0, 245, 254, 255, 111, 0, 0, 0, 0, 224,
    2, 0, 0, 0, 0, 0, 0, 5, 0, 0, 0, 0, 0, 0, 0, 72, 4, 0, 0, 0, 0, 0, 0, 6, 0, 0, 0, 0, 0, 0, 0,
    40, 3, 0, 0, 0, 0, 0, 0, 10, 0, 0, 0, 0, 0, 0, 0, 92, 0, 0, 0, 0, 0, 0, 0, 11, 0, 0, 0, 0, 0,
    0, 0, 24, 0, 0, 0, 0, 0, 0, 0, 3, 0, 0, 0, 0, 0, 0, 0, 232, 63, 0, 0, 0, 0, 0, 0, 2, 0, 0, 0,
    0, 0, 0, 0, 48, 0, 0, 0, 0, 0, 0, 0, 20, 0, 0, 0, 0, 0, 0, 0, 7, 0, 0, 0, 0, 0, 0, 0, 23, 0, 0,
    0, 0, 0, 0, 0, 128, 5, 0, 0, 0, 0, 0, 0, 7, 0, 0, 0, 0, 0, 0, 0, 32, 5, 0, 0, 0, 0, 0, 0, 8, 0,
    0, 0, 0, 0, 0, 0, 96, 0, 0, 0, 0, 0, 0, 0, 9, 0, 0, 0, 0, 0, 0, 0, 24, 0, 0, 0, 0, 0, 0, 0,
    252, 255, 255, 111, 0, 0, 0, 0, 192, 4, 0, 0, 0, 0, 0, 0, 253, 255, 255, 111, 0, 0, 0, 0, 3, 0,
    0, 0, 0, 0, 0, 0, 240, 255, 255, 111, 0, 0, 0, 0, 164, 4, 0, 0, 0, 0, 0, 0, 249, 255, 255, 111,
    0, 0, 0, 0, 1, 0, 0, 0, 0, 0, 0, 0, 0, 0, 0, 0, 0, 0, 0, 0, 0, 0, 0, 0, 0, 0, 0, 0, 0, 0, 0, 0,
    0, 0, 0, 0, 0, 0, 0, 0, 0, 0, 0, 0, 0, 0, 0, 0, 0, 0, 0, 0, 0, 0, 0, 0, 0, 0, 0, 0, 0, 0, 0, 0,
    0, 0, 0, 0, 0, 0, 0, 0, 0, 0, 0, 0, 0, 0, 0, 0, 0, 0, 0, 0, 0, 0, 0, 0, 0, 0, 0, 0,
];

/// Its entries before the first of tag DT_NULL, as `readelf -d` tells them. For DT_NEEDED and DT_SONAME it tells the strings, which begin at these offsets of `.dynstr`.
const LIBRARY_TAGS: [(u64, u64); 21] = [
    (DT_NEEDED, 0x46),
    (DT_SONAME, 0x4e),
    (DT_INIT_ARRAY, 0x3e28),
    (DT_INIT_ARRAYSZ, 8),
    (DT_HASH, 0x298),
    (DT_GNU_HASH, 0x2e0),
    (DT_STRTAB, 0x448),
    (DT_SYMTAB, 0x328),
    (DT_STRSZ, 92),
    (DT_SYMENT, 24),
    (DT_PLTGOT, 0x3fe8),
    (DT_PLTRELSZ, 48),
    (DT_PLTREL, DT_RELA),
    (DT_JMPREL, 0x580),
    (DT_RELA, 0x520),
    (DT_RELASZ, 96),
    (DT_RELAENT, 24),
    (DT_VERDEF, 0x4c0),
    (DT_VERDEFNUM, 3),
    (DT_VERSYM, 0x4a4),
    (DT_RELACOUNT, 1),
];

/// Whether the tags and what is found of each are these.
fn has_tags(dynamic: &Dynamic, tags: &[(u64, u64)]) -> bool {
    for (entry, (number, value)) in dynamic.tags.as_slice().iter().zip(tags) {
        if entry.number != *number
            || entry.value != *value
            || tag(dynamic, *number) != Some(*value)
        {
            return false;
        }
    }
    dynamic.tags.len() == tags.len()
}

/// Five entries of tag DT_NULL end the section.
#[test]
fn reads_a_library(rt: HostRuntime) -> Result<(), DynFault> {
    let dynamic = read_dynamic(rt.alloc(), &LIBRARY)?;
    assert!(rt; has_tags(&dynamic, &LIBRARY_TAGS));
    assert!(rt; tag(&dynamic, DT_VERNEED).is_none());
    assert!(rt; dynamic.spare == 4);
    assert!(rt; is_ended(&LIBRARY) && entry(&LIBRARY, 25).number == 0);
    Ok(())
}

/// What is read of tables, or the first clause that refuses them, each before the words of its table in hexadecimal.
const TABLES: &str = "\
0 tags and 0 spare: 0 0\n\
3 tags and 1 spare: 1 9 1 4 5 400 0 0 0 7\n\
2 tags and 0 spare: 6ffffdf5 0 6ffffdf8 0 0 0\n\
2 tags and 0 spare: 6ffffd00 0 6ffffdff 0 0 0\n\
3 tags and 0 spare: 23 0 24 0 25 0 0 0\n\
no end:\n\
no end: 1 9\n\
no end: 0 0 0\n\
no end: 1 9 0 0 1 4\n\
no end: 1 9 0 0 0 0 1 4 0 0\n\
unknown tag 17: 1 9 11 0 1f 0 0 0\n\
unknown tag 1879047928: 6ffffef8 0 0 0\n\
unknown tag 1879047929: 6ffffef9 0 0 0\n\
unknown tag 1879047423: 6ffffcff 0 0 0\n\
unknown tag 1879047680: 6ffffe00 0 0 0\n\
unknown tag 4294967301: 100000005 0 0 0\n\
tag 5 stands twice: 1 9 5 0 5 0 0 0\n\
tag 5 stands twice: 5 1 6 2 6 3 5 4 0 0\n\
tag 6 stands twice: 6 1 5 2 6 3 5 4 0 0\n\
tag 36 stands twice: 24 0 1 9 24 0 0 0\n\
no end: 11 0 5 0 5 0\n\
no end: 5 0 5 0 0 0 11 0\n\
unknown tag 17: 5 0 5 0 11 0 0 0";

fn bytes_of(alloc: Global, words: &[u64]) -> Result<Vec<u8>, AllocError> {
    let mut bytes = Vec::new(alloc);
    for word in words {
        bytes.extend_from_slice(&word.to_le_bytes())?;
    }
    Ok(bytes)
}

/// What is read of a table, as the cases spell it.
fn answer(alloc: Global, table: &[u8]) -> Result<String, AllocError> {
    if table.len() > 4096 {
        return String::from_str(alloc, "a short table");
    }
    match read_dynamic(alloc, table) {
        Ok(dynamic) => {
            let (tags, spare) = (dynamic.tags.len(), dynamic.spare);
            format!(in alloc; "{tags} tags and {spare} spare")
        }
        Err(fault) => format!(in alloc; "{fault}"),
    }
}

/// Whether the table of a line is read as the line says.
fn is_answered(alloc: Global, line: &str) -> Result<bool, Fail> {
    let (wanted, words) = parts(line)?;
    let table = bytes_of(alloc, &numbers(alloc, words)?)?;
    Ok(answer(alloc, &table)?.as_str() == wanted)
}

#[test]
fn refuses_by_the_first_clause(rt: HostRuntime) -> Result<(), Fail> {
    for line in TABLES.lines() {
        if !is_answered(rt.alloc(), line)? {
            return Err(line.into());
        }
    }
    Ok(())
}

const ADDRESSES: [u64; 16] = [
    3,
    4,
    5,
    6,
    7,
    12,
    13,
    23,
    25,
    26,
    32,
    36,
    0x6fff_fef5,
    0x6fff_fff0,
    0x6fff_fffc,
    0x6fff_fffe,
];

const VALUES: [u64; 24] = [
    1,
    2,
    8,
    9,
    10,
    11,
    14,
    15,
    16,
    20,
    21,
    22,
    24,
    27,
    28,
    29,
    30,
    33,
    35,
    37,
    0x6fff_fff9,
    0x6fff_fffb,
    0x6fff_fffd,
    0x6fff_ffff,
];

const PRELINK: [u64; 6] = [
    0x6fff_fdf5,
    0x6fff_fdf6,
    0x6fff_fdf7,
    0x6fff_fdf8,
    0x6fff_fef8,
    0x6fff_fef9,
];

/// Whether the kinds of a tag are those of the three lists.
fn is_known(number: u64) -> bool {
    let address = ADDRESSES.contains(&number);
    let value = VALUES.contains(&number) || (0x6fff_fd00..=0x6fff_fdff).contains(&number);
    let prelink = PRELINK.contains(&number);
    is_address_tag(number) == address
        && is_value_tag(number) == value
        && is_prelink_tag(number) == prelink
        && is_listed(number) == (address || value || prelink)
}

/// The first of the tags from one to another whose kinds are other ones.
fn unknown(first: u64, last: u64) -> Option<u64> {
    for number in first..=last {
        if !is_known(number) {
            return Some(number);
        }
    }
    None
}

#[test]
fn knows_the_kinds(rt: HostRuntime) {
    assert_eq!(rt; unknown(0, 64), None);
    assert_eq!(rt; unknown(0x6fff_fc00, 0x7000_0100), None);
}
