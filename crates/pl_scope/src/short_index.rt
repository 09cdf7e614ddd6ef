// The definers of all members in one list, where few share a hash.
ghost use Rattle.std.specs.Prelude.{◌≡◌, ◌<◌, vec_len, IfOk, IfSome, OnOk};
ghost use Rattle.pl_scope.specs.Definers as definers;
ghost use Rattle.pl_scope.specs.Entries.{AreBetween, AreUnder, IsAdded};
ghost use Rattle.pl_scope.specs.Scope.{objects, IsFit};
ghost use Rattle.pl_scope.specs.ShortIndex as spec;

use crate::Scope;
use crate::ahead::Ahead;
use crate::definers::pair;
use crate::entries::{Entry, sort_entries};
use crate::sorted::{Sorted, range, sorted_of};
use crate::version_index::{VersionIndex, versions_of};
use pl_hash::gnu_hash;
use pl_object::Object;
use pl_sym::{Class, Symbol, is_definer};
use std::alloc::{AllocError, Global};

/// So many definers of a member under one hash are few.
const FEW_OF_A_MEMBER: usize = 8;

/// So many definers under one hash are few.
const FEW: usize = 512;

/// The definers of all members in one list, and the versions of each member.
#[derive(Drop)]
pub struct ShortIndex<'a> {
    /// The indexes of symbols, under the mixed hashes of their names and their members.
    pub definers: Sorted,

    pub versions: Vec<VersionIndex<'a>>,

    /// Where the searches for the names of a member's symbols begin in the list. It decides the time alone.
    pub ahead: Ahead,
}

/// One list of the definers of all members, and its entries under the hash of a name.
#[derive(Clone, Copy)]
pub struct UnderName<'i, 'a> {
    pub definers: &'i ShortIndex<'a>,
    pub entries: &'i [Entry],
}

/// A hash spread over all numbers of 32 bits, one to one: the hashes of names that differ in their last bytes lie close together.
pub fn mixed(hash: u32) -> u32
    ensures { result ≡ spec.mixed hash }
{
    hash.wrapping_mul(0x9e37_79b9)
}

/// The key of a member's symbol; None where it is no definer.
fn short_key(object: &Object, member: u32, symbol: &Symbol) -> Option<u64>
    ensures { result ≡ spec.short_key object.now member symbol.now }
{
    if is_definer(symbol, Class::Other, object.kind.is_program()) {
        let hash = gnu_hash(symbol.name.as_slice());
        Some(pair(mixed(hash), member))
    } else {
        None
    }
}

/// The key of the symbol of an index; None where it is no definer.
fn key_at(object: &Object, member: u32, symbol: u32) -> Option<u64>
    ensures { result ≡ spec.key_at object.now member symbol }
{
    match object.symbols.as_slice().get(symbol as usize) {
        None => None,
        Some(it) => short_key(object, member, it),
    }
}

/// Adds the symbol of an index, where it is a definer.
fn add_symbol(
    entries: &mut Vec<Entry>,
    object: &Object,
    member: u32,
    symbol: u32,
) -> Result<(), AllocError>
    ensures { OnOk result (IsAdded (spec.key_at object.now member symbol) symbol entries.old.items
        entries.new.items) }
{
    let Some(key) = key_at(object, member, symbol) else {
        return Ok(());
    };
    entries.push(Entry { key, value: symbol })?;
    Ok(())
}

/// Adds the definers of a member.
fn add_symbols(entries: &mut Vec<Entry>, object: &Object, member: u32) -> Result<(), AllocError>
    requires { IsFit object.now }
    ensures { OnOk result (spec.AreSymbolsAdded object.now member entries.old.items
        entries.new.items) }
{
    for symbol in 0..object.symbols.len() as u32 {
        add_symbol(entries, object, member, symbol)?;
    }
    Ok(())
}

/// The definers of all members.
fn all_definers(alloc: Global, scope: &Scope<'_>) -> Result<Vec<Entry>, AllocError>
    ensures { IfOk result (λ v. spec.HaveDefiners (objects scope.now) v.items) }
{
    let mut entries = Vec::new(alloc);
    for member in 0..scope.count() {
        let object = scope.object(member);
        add_symbols(&mut entries, object, member)?;
    }
    Ok(entries)
}

/// The versions of all members.
fn all_versions<'a>(alloc: Global, scope: &Scope<'a>) -> Result<Vec<VersionIndex<'a>>, AllocError>
    ensures { IfOk result (λ v. spec.AreVersions (objects scope.now) v.items) }
{
    let mut versions = Vec::new(alloc);
    for member in 0..scope.count() {
        let object = scope.object(member);
        versions.push(versions_of(alloc, &object.versions)?)?;
    }
    Ok(versions)
}

/// Whether an entry and the one so many behind it, if there is one, have the same keys, in whole numbers of a width.
fn share(entries: &[Entry], place: usize, apart: usize, width: u64) -> bool
    requires { 0 < width }
{
    let first = entries.get(place);
    let second = entries.get(place.saturating_add(apart));
    match first {
        None => false,
        Some(first) => match second {
            None => false,
            Some(second) => first.key / width == second.key / width,
        },
    }
}

/// Whether few entries, which rise, share a hash. It decides the time alone.
fn are_few(entries: &[Entry]) -> bool {
    for place in 0..entries.len() {
        if share(entries, place, FEW_OF_A_MEMBER, 1) || share(entries, place, FEW, 0x1_0000_0000) {
            return false;
        }
    }
    true
}

/// The definers of all members in the order of their keys, where few share a hash.
fn few_definers(alloc: Global, scope: &Scope<'_>) -> Result<Option<Sorted>, AllocError>
    ensures { IfOk result (λ found. IfSome found (λ d. spec.AreSorted (objects scope.now)
        d.entries.items)) }
{
    let mut entries = all_definers(alloc, scope)?;
    sort_entries(&mut entries);
    if are_few(&entries) {
        Ok(Some(sorted_of(alloc, entries)?))
    } else {
        Ok(None)
    }
}

/// The definers of all members in one list, where few share a hash. The time grows as `n log n`. It fails only for want of memory.
pub fn short_index_of<'a>(
    alloc: Global,
    scope: &Scope<'a>,
) -> Result<Option<ShortIndex<'a>>, AllocError>
    ensures { IfOk result (λ found. IfSome found (spec.IsShortIndex (objects scope.now))) }
{
    let versions = all_versions(alloc, scope)?;
    match few_definers(alloc, scope)? {
        None => Ok(None),
        Some(definers) => Ok(Some(ShortIndex {
            definers,
            versions,
            ahead: Ahead::none(alloc),
        })),
    }
}

/// The definers of the first so many members under a mixed hash. The search begins at a place that was found ahead, else by the table.
pub fn under_hash<'i>(
    index: &'i ShortIndex<'_>,
    start: Option<u32>,
    hash: u32,
    count: u32,
) -> &'i [Entry]
    requires { spec.IsRising index.now }
    ensures { AreBetween index.now.definers.entries.items (definers.pair hash 0)
        (spec.end_of_hash hash count) result.now }
{
    let first = u128::from(pair(hash, 0));
    let start = match start {
        None => index.definers.starts.place_of(hash),
        Some(place) => place,
    };
    range(&index.definers, start, first, first + u128::from(count))
}

/// The definers of a member under a mixed hash.
pub fn of_member<'i>(index: &'i ShortIndex<'_>, hash: u32, member: u32) -> &'i [Entry]
    requires { spec.IsRising index.now }
    ensures { AreUnder index.now.definers.entries.items (definers.pair hash member) result.now }
{
    let key = u128::from(pair(hash, member));
    let start = index.definers.starts.place_of(hash);
    range(&index.definers, start, key, key + 1)
}

/// The member of an entry.
pub fn member_of(entry: &Entry) -> u32
    ensures { result ≡ spec.member_of entry.now }
{
    (entry.key % 0x1_0000_0000) as u32
}

/// The versions of a member.
pub fn versions_at<'i, 'a>(index: &'i ShortIndex<'a>, member: u32) -> &'i VersionIndex<'a>
    requires { member < vec_len index.now.versions }
    ensures { spec.IsVersionsAt index.now member result.now }
{
    &index.versions[member as usize]
}
