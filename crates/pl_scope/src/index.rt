// The definers of objects, by the hashes of their names.
ghost use Rattle.std.specs.Prelude.{◌≡◌, ◌≤◌, ◌<◌, ◌++◌, true, false, nat_lt, length, IfSome, OnOk};
ghost use Rattle.std.specs.Bool.{OnTrue};
ghost use Rattle.std.specs.List.Sorted.{IsPartitionPoint};
ghost use Rattle.pl_scope.specs.Index as spec;
ghost use Rattle.pl_scope.specs.ShortIndex as short;

use crate::short_index::mixed;
use crate::starts::Starts;
use pl_hash::gnu_hash;
use pl_object::Object;
use pl_sym::{Class, Symbol, is_definer};
use std::alloc::{AllocError, Global};

/// So many entries are looked at before the list is halved.
const STEPS: usize = 12;

/// A definer of an object, under the hash of its name.
#[derive(Clone, Copy)]
pub struct Entry {
    /// The hash of the definer's name in a GNU table.
    pub hash: u32,

    /// The number of the object: in the index of a folder, the row of its file.
    pub member: u32,

    /// The number of the definer among the object's symbols.
    pub symbol: u32,
}

fn entry_of(object: &Object, member: u32, number: u32, symbol: &Symbol) -> Option<Entry>
    ensures { result ≡ spec.entry_of object.now member number symbol.now }
{
    if is_definer(symbol, Class::Other, object.kind.is_program()) {
        Some(Entry {
            hash: gnu_hash(symbol.name.as_slice()),
            member,
            symbol: number,
        })
    } else {
        None
    }
}

/// Adds the definers of a member. It fails only for want of memory, which comes before 2^32 symbols.
pub fn add_entries(entries: &mut Vec<Entry>, object: &Object, member: u32) -> Result<(), AllocError>
    ensures { OnOk result (entries.new.items ≡ entries.old.items
        ++ spec.entries_in object.now member) }
{
    let symbols = object.symbols.as_slice();
    if symbols.len() >= 4_294_967_296 {
        return Err(AllocError);
    }
    for number in 0..symbols.len() {
        if let Some(entry) = entry_of(object, member, number as u32, &symbols[number]) {
            entries.push(entry)?;
        }
    }
    Ok(())
}

/// How many of the entries, which rise, have lower mixed hashes than a number.
fn first_at(index: &[Entry], hash: u64) -> usize
    requires { spec.IsRising index.now }
    ensures bound { result ≤ length index.now }
    ensures point { IsPartitionPoint (λ e. nat_lt (short.mixed e.hash) hash ≡ true)
        (λ e. nat_lt (short.mixed e.hash) hash ≡ false) index.now result }
{
    index.partition_point(|entry| u64::from(mixed(entry.hash)) < hash)
}

/// Whether the entries before a place, which rise, have lower mixed hashes than a number.
fn is_behind(index: &[Entry], place: usize, hash: u64) -> bool
    requires { spec.IsRising index.now }
    ensures { OnTrue result (spec.IsBehind index.now hash place) }
{
    let count = index.len();
    if place == 0 {
        true
    } else if place > count {
        false
    } else {
        let last = &index[place - 1];
        u64::from(mixed(last.hash)) < hash
    }
}

/// The place of the first entry whose mixed hash is not lower than a number, where it is one of the next few from a place on.
fn near(index: &[Entry], start: usize, hash: u64) -> Option<usize>
    requires rising { spec.IsRising index.now }
    requires behind { spec.IsBehind index.now hash start }
    ensures { IfSome result (spec.IsFirst index.now hash) }
{
    let end = index.len().min(start.saturating_add(STEPS));
    for place in start..end {
        let entry = &index[place];
        let own = u64::from(mixed(entry.hash));
        if own >= hash {
            return Some(place);
        }
    }
    None
}

/// The place of the first entry whose mixed hash is not lower than a number, from a place on. Where it is not one of the next few, the list is halved.
fn end_from(index: &[Entry], start: usize, hash: u64) -> usize
    requires rising { spec.IsRising index.now }
    requires behind { spec.IsBehind index.now hash start }
    ensures { spec.IsFirst index.now hash result }
{
    match near(index, start, hash) {
        None => first_at(index, hash),
        Some(place) => place,
    }
}

/// The place of the first entry whose mixed hash is not lower than a number, looked for from any place on. Where entries before the place are not lower the list is halved.
fn first_from(index: &[Entry], start: usize, hash: u64) -> usize
    requires { spec.IsRising index.now }
    ensures { spec.IsFirst index.now hash result }
{
    if is_behind(index, start, hash) {
        end_from(index, start, hash)
    } else {
        first_at(index, hash)
    }
}

/// The places where searches of entries begin, which are in the order of their mixed hashes. It fails only for want of memory.
pub fn starts_of(alloc: Global, index: &[Entry]) -> Result<Starts, AllocError> {
    let count = index.len();
    let mut starts = Starts::with_room(alloc, count)?;
    for place in 0..count {
        starts.note(mixed(index[place].hash), place)?;
    }
    Ok(starts)
}

/// The entries of a hash, with the places where searches begin.
pub fn under<'i>(index: &'i [Entry], starts: &Starts, hash: u32) -> &'i [Entry]
    requires { spec.IsInOrder index.now }
    ensures { result.now ≡ spec.entries_of index.now hash }
{
    let own = mixed(hash);
    let start = starts.place_of(own) as usize;
    let number = u64::from(own);
    let first = first_from(index, start, number);
    let end = end_from(index, first, number + 1);
    &index[first..end]
}
