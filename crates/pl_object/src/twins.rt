// Acceptance clause 22: two definers of one name and version.
ghost use Rattle.std.specs.Prelude.{◌≡◌, filter, length, map, slice_get, IfOk};
ghost use Rattle.std.specs.List.{range_with_len};
ghost use Rattle.std.specs.Option.{option_map};
ghost use Rattle.std.specs.List.Sorted.{IsNonDecreasingBy, IsPermutation};
ghost use Rattle.pl_object.specs.SymbolClauses as clauses;
ghost use Rattle.pl_object.specs.Runs as runs;
ghost use Rattle.pl_object.specs.Twins as spec;

use crate::keys::any_twins;
use pl_hash::gnu_hash;
use pl_sym::{Class, Symbol, is_definer};
use pl_ver::constants::VER_NDX_GLOBAL;
use pl_ver::{Versions, index_of, version_of};
use std::alloc::{AllocError, Global};

/// How many bytes at each end of a long name its key is made of.
pub const KEY_END: usize = 64;

/// The index of a symbol with the key of its name.
#[derive(Clone, Copy, Debug)]
pub struct Entry {
    pub key: u64,
    pub index: usize,
}

/// A number for a name by which two different names are told apart almost always. Of a long name only its length and both of its ends are read.
fn name_key(name: &[u8]) -> u64
    ensures { result ≡ spec.name_key name.now }
{
    let size = name.len();
    if size <= 2 * KEY_END {
        u64::from(gnu_hash(name))
    } else {
        let start = gnu_hash(&name[..KEY_END]);
        let end = gnu_hash(&name[size - KEY_END..]);
        u64::from(start) + u64::from(end) + size as u64
    }
}

fn key_of(symbols: &[Symbol], index: usize) -> u64
    ensures { result ≡ spec.key_of (slice_get symbols.now index) }
{
    match symbols.get(index) {
        None => 0,
        Some(symbol) => name_key(symbol.name.as_slice()),
    }
}

fn entry_of(symbols: &[Symbol], index: usize) -> Entry
    ensures { result ≡ spec.entry_of symbols.now index }
{
    Entry {
        key: key_of(symbols, index),
        index,
    }
}

fn defines_at(program: bool, symbols: &[Symbol], index: usize) -> bool
    ensures { result ≡ spec.defines_by program (slice_get symbols.now index) }
{
    match symbols.get(index) {
        None => false,
        Some(symbol) => is_definer(symbol, Class::Other, program),
    }
}

/// The definers.
fn entries(alloc: Global, program: bool, symbols: &[Symbol]) -> Result<Vec<Entry>, AllocError>
    ensures { IfOk result (λ v. v.items ≡ map (spec.entry_of symbols.now)
        (filter (λ index. spec.defines_by program (slice_get symbols.now index))
        (range_with_len 0 (length symbols.now)))) }
{
    (0..symbols.len())
        .filter(|index| defines_at(program, symbols, *index))
        .map(|index| entry_of(symbols, index))
        .collect(alloc)
}

/// Puts entries into the order of their keys.
fn sort_entries(entries: &mut [Entry])
    ensures same { IsPermutation entries.old entries.new }
    ensures len { length entries.new ≡ length entries.old }
    ensures rising { IsNonDecreasingBy spec.entry_key entries.new }
{
    entries.sort_unstable_by_key(|entry| entry.key);
}

pub fn is_plain(symbol: &Symbol) -> bool
    ensures { result ≡ clauses.is_plain symbol.now }
{
    index_of(symbol.version) <= VER_NDX_GLOBAL
}

/// The name of the version that a version word of an object stands for. None where the object has no version words, or none of that index.
pub fn version_name(versions: &Option<Versions>, word: u16) -> Option<&[u8]>
    ensures { option_map (λ x. x.now) result ≡ clauses.version_name versions.now word }
{
    match versions {
        None => None,
        Some(versions) => version_of(versions, word),
    }
}

fn is_same_name(versions: &Option<Versions>, word: u16, other: u16) -> bool
    ensures { result ≡ clauses.is_same_name (clauses.version_name versions.now word)
        (clauses.version_name versions.now other) }
{
    let Some(name) = version_name(versions, word) else {
        return false;
    };
    match version_name(versions, other) {
        None => false,
        Some(other) => name == other,
    }
}

#[tactic(auto, unfolding(crate::specs::SymbolClauses::is_same_version))]
fn is_same_version(versions: &Option<Versions>, symbol: &Symbol, other: &Symbol) -> bool
    ensures { result ≡ clauses.is_same_version versions.now symbol.now other.now }
{
    is_plain(symbol) && is_plain(other) || is_same_name(versions, symbol.version, other.version)
}

#[tactic(auto, unfolding(crate::specs::SymbolClauses::is_twin))]
fn is_twin(versions: &Option<Versions>, program: bool, symbol: &Symbol, other: &Symbol) -> bool
    ensures { result ≡ clauses.is_twin versions.now program symbol.now other.now }
{
    is_definer(symbol, Class::Other, program)
        && is_definer(other, Class::Other, program)
        && symbol.name.as_slice() == other.name.as_slice()
        && is_same_version(versions, symbol, other)
}

fn are_twins(
    versions: &Option<Versions>,
    program: bool,
    symbols: &[Symbol],
    entry: &Entry,
    other: &Entry,
) -> bool
    ensures { result ≡ spec.are_twins versions.now program symbols.now entry.now other.now }
{
    match symbols.get(entry.index) {
        None => false,
        Some(symbol) => match symbols.get(other.index) {
            None => false,
            Some(twin) => entry.key == other.key && is_twin(versions, program, symbol, twin),
        },
    }
}

/// Whether an entry has a twin among those that follow it under its key.
fn meets_run(
    versions: &Option<Versions>,
    program: bool,
    symbols: &[Symbol],
    entry: &Entry,
    others: &[Entry],
) -> bool
    ensures { result ≡ runs.meets_run (spec.are_twins versions.now program symbols.now)
        spec.entry_key entry.now others.now }
{
    for other in others {
        if other.key != entry.key {
            return false;
        }
        if are_twins(versions, program, symbols, entry, other) {
            return true;
        }
    }
    false
}

/// Whether two of the entries under one key are twins.
fn any_run(
    versions: &Option<Versions>,
    program: bool,
    symbols: &[Symbol],
    entries: &[Entry],
) -> bool
    ensures { result ≡ runs.any_run (spec.are_twins versions.now program symbols.now) spec.entry_key
        entries.now }
{
    for index in 0..entries.len() {
        if meets_run(
            versions,
            program,
            symbols,
            &entries[index],
            &entries[index + 1..],
        ) {
            return true;
        }
    }
    false
}

/// The most pairs of definers of one key, times one more than the versions of the object, for which each two are compared; where there are more, a map finds twins. The answer is the same.
const FEW: usize = 0x1_0000;

/// Whether few enough of the entries have one key, and there are few enough versions, that each two of one key may be compared.
fn are_few(versions: &Option<Versions>, entries: &[Entry]) -> bool {
    let mut pairs: usize = 0;
    let mut run: usize = 0;
    for index in 1..entries.len() {
        run = if entries[index].key == entries[index - 1].key {
            run.saturating_add(1)
        } else {
            0
        };
        pairs = pairs.saturating_add(run);
    }
    let rows = match versions {
        None => 0,
        Some(versions) => versions.names.len(),
    };
    pairs.saturating_mul(rows.saturating_add(1)) <= FEW
}

/// Whether two symbols are definers of one name and version. The definers are sorted by keys of their names once, and those of one key compared, or, where these are many, found by their names in a map: the time grows as `n log n`.
pub fn duplicate_definer(
    alloc: Global,
    versions: &Option<Versions>,
    program: bool,
    symbols: &[Symbol],
) -> Result<bool, AllocError>
    ensures { IfOk result (λ b. b ≡ clauses.duplicate_definer versions.now program symbols.now) }
{
    let mut sorted = entries(alloc, program, symbols)?;
    sort_entries(&mut sorted);
    let definers: &[Entry] = &sorted;
    if are_few(versions, definers) {
        return Ok(any_run(versions, program, symbols, definers));
    }
    any_twins(alloc, versions, program, symbols)
}
