// Tests of pl_hash.
use pl_base::Rows;
use pl_cases::{number, numbers, numbers32, parts};
use pl_hash::{Table, first, found, gnu_hash, name_hash, next, sysv_hash, well_formed};
use std::alloc::{AllocError, Global};
use std::test::Fail;

/// The hashes of names in the two tables, in hexadecimal, and the names.
const HASHES: &str = "\
0 1505:\n\
66 2b60b: f\n\
77905a6 156b2bb8: printf\n\
6cf04 7c967e3f: exit\n\
b09985c bac212a0: syscall\n\
3987915 8ae9f18e: flapenguin.me\n\
3e0d720 1ec3e280: a_name_that_is_long_enough_to_wrap";

/// Whether the name of a line has its hashes.
fn has_hashes(alloc: Global, line: &str) -> Result<bool, Fail> {
    let (hashes, name) = parts(line)?;
    let hashes = numbers32(alloc, hashes)?;
    let found = [sysv_hash(name.as_bytes()), gnu_hash(name.as_bytes())];
    Ok(hashes.as_slice() == found.as_slice())
}

#[test]
fn hashes_names(rt: HostRuntime) -> Result<(), Fail> {
    for line in HASHES.lines() {
        if !has_hashes(rt.alloc(), line)? {
            return Err(line.into());
        }
    }
    let bytes = [0xff; 8];
    assert!(rt; sysv_hash(&bytes) == 0x10ef && gnu_hash(&bytes) == 0xe3f2ee7d);
    Ok(())
}

/// A table of words of 32 bits; its bytes are the first so many of them.
fn table(
    alloc: Global,
    gnu: bool,
    symbols: u32,
    words: &[u64],
    size: u64,
) -> Result<Table, AllocError> {
    let mut bytes = Vec::new(alloc);
    for word in words {
        bytes.extend_from_slice(&word.to_le_bytes()[..4])?;
    }
    bytes.truncate(size as usize);
    let bytes = Rows::from_vec(bytes);
    if gnu {
        Ok(Table::gnu(bytes, symbols))
    } else {
        Ok(Table::sysv(bytes, symbols))
    }
}

// Forms of tables: what a table is like, its count of symbols, how many bytes it has, 1 where it is well formed, else 0, and its words.

/// Two buckets, of symbol 3 and of symbols 1 and 2.
const SYSV: [u64; 8] = [2, 4, 3, 1, 0, 2, 0, 0];

const SYSV_FORMS: &str = "\
whole: 4 20 1 2 4 3 1 0 2 0 0\n\
a byte short: 4 1f 0 2 4 3 1 0 2 0 0\n\
no header: 4 7 0 2 4 3 1 0 2 0 0\n\
more symbols: 5 20 0 2 4 3 1 0 2 0 0\n\
fewer symbols: 3 20 0 2 4 3 1 0 2 0 0\n\
no bucket: 6 20 0 0 6 0 0 0 0 0 0\n\
bytes after it: 2 20 1 1 2 1 0 0 9 9 9\n\
a bucket past the symbols: 4 20 0 2 4 4 1 0 2 0 0\n\
a link past the symbols: 4 20 0 2 4 3 1 0 2 4 0\n\
a chain without end: 4 20 0 2 4 3 1 0 2 1 0\n\
a symbol after itself: 4 20 0 2 4 3 1 0 2 0 3\n\
a link of no chain: 4 20 1 2 4 3 1 7 2 0 0\n\
counts past all bytes: ffffffff 8 0 ffffffff ffffffff";

/// Symbols 1 and 2 of hashes 0x100 and 0x104 in the first bucket, symbol 3 of hash 0x241 in the second.
const GNU: [u64; 13] = [2, 1, 2, 6, 0x11, 0, 0x202, 0, 1, 3, 0x100, 0x105, 0x241];

/// The empty table that GNU ld writes.
const EMPTY: [u64; 7] = [1, 1, 1, 0, 0, 0, 0];

const GNU_FORMS: &str = "\
whole: 4 34 1 2 1 2 6 11 0 202 0 1 3 100 105 241\n\
a byte short: 4 33 0 2 1 2 6 11 0 202 0 1 3 100 105 241\n\
no header: 4 f 0 2 1 2 6 11 0 202 0 1 3 100 105 241\n\
a symbol without a link: 5 34 0 2 1 2 6 11 0 202 0 1 3 100 105 241\n\
a bucket past the symbols: 3 34 0 2 1 2 6 11 0 202 0 1 3 100 105 241\n\
no bucket: 1 18 0 0 1 1 6 0 0\n\
no bloom word: 4 24 0 2 1 0 6 1 3 100 105 241\n\
three bloom words: 2 30 0 1 1 3 6 0 0 0 0 0 0 1 1\n\
a bucket below symoffset: 4 24 0 1 2 1 6 0 0 1 1 1\n\
a chain without end: 4 28 0 1 1 1 6 0 0 1 0 0 0\n\
a large shift: 2 20 1 1 1 1 ffffffff 0 0 1 1\n\
empty of no symbols: 0 1c 1 1 1 1 0 0 0 0\n\
empty of two symbols: 2 1c 1 1 1 1 0 0 0 0\n\
empty of many symbols: ffffffff 1c 1 1 1 1 0 0 0 0\n\
empty and cut off: 1 1b 0 1 1 1 0 0 0 0";

/// Whether a table of such a form is well formed exactly where the form says so.
fn is_told(alloc: Global, gnu: bool, form: &str) -> Result<bool, Fail> {
    let (_name, row) = parts(form)?;
    let row = numbers(alloc, row)?;
    let [symbols, size, good, words @ ..] = row.as_slice() else {
        return Err("three numbers and words".into());
    };
    let table = table(alloc, gnu, u32::try_from(*symbols)?, words, *size)?;
    Ok(well_formed(&table) == (*good == 1))
}

fn expect_forms(alloc: Global, gnu: bool, forms: &str) -> Result<(), Fail> {
    for form in forms.lines() {
        if !is_told(alloc, gnu, form)? {
            return Err(form.into());
        }
    }
    Ok(())
}

#[test]
fn tells_forms(rt: HostRuntime) -> Result<(), Fail> {
    expect_forms(rt.alloc(), false, SYSV_FORMS)?;
    expect_forms(rt.alloc(), true, GNU_FORMS)
}

/// What `first` and `next` list for a hash.
fn listed(alloc: Global, table: &Table, hash: u32) -> Result<Vec<u64>, AllocError> {
    let mut symbols = Vec::new(alloc);
    if !well_formed(table) {
        return Ok(symbols);
    }
    let mut at = first(table, hash);
    while let Some(index) = at {
        symbols.push(u64::from(index))?;
        at = next(table, hash, index);
    }
    Ok(symbols)
}

// A hash, and the symbols that it leads to.

const SYSV_LISTS: &str = "4: 3\n5: 1 2";

/// The bloom words refuse the last three.
const GNU_LISTS: &str = "\
100: 1\n\
104: 2\n\
105:\n\
241: 3\n\
0:\n\
4:\n\
101:\n\
240:\n\
180:";

const EMPTY_LISTS: &str = "0:\n2b60b:";

/// Whether a hash leads to the symbols of a line.
fn lists(alloc: Global, table: &Table, line: &str) -> Result<bool, Fail> {
    let (hash, symbols) = parts(line)?;
    let found = listed(alloc, table, u32::try_from(number(hash)?)?)?;
    Ok(found.as_slice() == numbers(alloc, symbols)?.as_slice())
}

fn expect_lists(alloc: Global, table: &Table, lines: &str) -> Result<(), Fail> {
    for line in lines.lines() {
        if !lists(alloc, table, line)? {
            return Err(line.into());
        }
    }
    Ok(())
}

#[test]
fn lists_candidates(rt: HostRuntime) -> Result<(), Fail> {
    let alloc = rt.alloc();
    expect_lists(alloc, &table(alloc, false, 4, &SYSV, 32)?, SYSV_LISTS)?;
    expect_lists(alloc, &table(alloc, true, 4, &GNU, 52)?, GNU_LISTS)?;
    expect_lists(alloc, &table(alloc, true, 9, &EMPTY, 28)?, EMPTY_LISTS)
}

/// The `.hash` of a library that gcc and GNU ld made (`gcc -shared -nostdlib -Wl,--hash-style=both`), in words.
const LIBRARY_HASH: [u64; 43] = [
    17, 24, 11, 13, 17, 20, 19, 22, 0, 23, 4, 7, 6, 8, 3, 15, 9, 0, 12, 0, 0, 0, 18, 0, 0, 2, 21,
    0, 0, 0, 10, 0, 16, 0, 0, 0, 14, 0, 0, 1, 5, 0, 0,
];

/// Its `.gnu.hash`, in words.
const LIBRARY_GNU_HASH: [u64; 46] = [
    17, 3, 2, 7, 0xc18c8c40, 0x12145862, 0x84a48080, 0x28528100, 3, 0, 5, 0, 0, 9, 0, 0, 10, 12,
    14, 15, 18, 20, 21, 22, 23, 0x7017cbde, 0x005978c7, 0x106cdefa, 0x0059791e, 0x0f176c2a,
    0x7ca1b2b9, 0x0b886fdf, 0x0002b60a, 0x0b88ad4f, 0x105b5a76, 0x7c9489a1, 0x0b88a5af, 0x3fbb97ee,
    0x0f7deae8, 0x00597a27, 0x6a268bbc, 0x7c988ad3, 0x0f49cf8f, 0x0ae4e507, 0x0fc65a13, 0x005978e9,
];

/// Its symbols: each name, and those of its bucket in `.hash`.
const SYSV_NAMES: &str = "\
outside: 14 1\n\
other_data: 6 2\n\
epsilon: 3 12\n\
mu: 4\n\
theta: 7 15 5\n\
pi: 6 2\n\
alpha: 7 15 5\n\
zeta: 8\n\
eta: 9\n\
f: b a\n\
tau: b a\n\
sigma: c\n\
beta: d 10\n\
rho: 11 e\n\
upsilon: f\n\
gamma: d 10\n\
xi: 11 e\n\
omicron: 3 12\n\
iota: 13\n\
delta: 14 1\n\
lambda: 7 15 5\n\
kappa: 16\n\
nu: 17";

/// Each name, and its list in `.gnu.hash`, where the two undefined ones, 1 and 2, do not stand.
const GNU_NAMES: &str = "\
outside:\n\
other_data:\n\
epsilon: 3\n\
mu: 4\n\
theta: 5\n\
pi: 6\n\
alpha: 7\n\
zeta: 8\n\
eta: 9\n\
f: a\n\
tau: b\n\
sigma: c\n\
beta: d\n\
rho: e\n\
upsilon: f\n\
gamma: 10\n\
xi: 11\n\
omicron: 12\n\
iota: 13\n\
delta: 14\n\
lambda: 15\n\
kappa: 16\n\
nu: 17";

/// The `.gnu.hash` of a library that gcc and GNU ld made (`gcc -shared -nostdlib -Wl,--hash-style=gnu`), in words. Two pairs of its names have one hash each.
const TWINS: [u64; 16] = [
    3, 1, 1, 6, 0x10000000, 0x605c0, 1, 3, 4, 0xb885c6a, 0xb885c6b, 0xb885c69, 0x597728, 0x597728,
    0xb8899a6, 0xb885ca9,
];

/// Its names, and the numbers that `readelf --dyn-syms` gives those with the same hash.
const TWIN_NAMES: &str = "\
bAB: 1 2\n\
abB: 1 2\n\
aaa: 3\n\
ab: 4 5\n\
bA: 4 5\n\
one: 6\n\
ac_: 7";

/// Whether a name leads to the symbols of a line.
fn names(alloc: Global, table: &Table, line: &str) -> Result<bool, Fail> {
    let (name, symbols) = parts(line)?;
    let found = listed(alloc, table, name_hash(table, name.as_bytes()))?;
    Ok(found.as_slice() == numbers(alloc, symbols)?.as_slice())
}

fn expect_names(alloc: Global, table: &Table, lines: &str) -> Result<(), Fail> {
    for line in lines.lines() {
        if !names(alloc, table, line)? {
            return Err(line.into());
        }
    }
    Ok(())
}

#[test]
fn reads_libraries(rt: HostRuntime) -> Result<(), Fail> {
    let alloc = rt.alloc();
    expect_names(
        alloc,
        &table(alloc, false, 24, &LIBRARY_HASH, 172)?,
        SYSV_NAMES,
    )?;
    expect_names(
        alloc,
        &table(alloc, true, 24, &LIBRARY_GNU_HASH, 184)?,
        GNU_NAMES,
    )?;
    expect_names(alloc, &table(alloc, true, 8, &TWINS, 64)?, TWIN_NAMES)
}

/// What `found` tells of symbols with such hashes.
fn own(alloc: Global, table: &Table, hashes: &[u32]) -> Result<Vec<bool>, AllocError> {
    if !well_formed(table) {
        return Ok(Vec::new(alloc));
    }
    found(alloc, table, hashes)
}

const OWN: [bool; 4] = [false, true, false, true];

/// Symbol 2 has a hash of the other bucket of `SYSV`, and one that the bloom words of `GNU` refuse.
#[test]
fn finds_own_hashes(rt: HostRuntime) -> Result<(), AllocError> {
    let alloc = rt.alloc();
    let sysv = table(alloc, false, 4, &SYSV, 32)?;
    assert!(rt; own(alloc, &sysv, &[0, 5, 4, 8])?.as_slice() == OWN.as_slice());
    let gnu = table(alloc, true, 4, &GNU, 52)?;
    assert!(rt; own(alloc, &gnu, &[0, 0x100, 0x105, 0x241])?.as_slice() == OWN.as_slice());
    Ok(())
}
