// Entries in the order of their keys, with the places where searches begin.
ghost use Rattle.std.specs.Prelude.{◌≡◌, ◌≤◌, true, false, IfOk, IfSome};
ghost use Rattle.std.specs.Bool.{OnTrue};
ghost use Rattle.std.specs.List.Sorted.{IsNonDecreasingBy};
ghost use Rattle.pl_scope.specs.Entries as entries;
ghost use Rattle.pl_scope.specs.Sorted as spec;

use crate::entries::{Entry, first_at};
use crate::starts::Starts;
use std::alloc::{AllocError, Global};

/// So many steps are gone from where a search begins.
const STEPS: usize = 12;

/// So many entries are read ahead of a search.
const AHEAD: usize = 8;

/// Entries in the order of their keys, with the places where searches begin.
#[derive(Drop)]
pub struct Sorted {
    pub entries: Vec<Entry>,

    pub starts: Starts,
}

/// The places where searches begin.
fn starts_of(alloc: Global, entries: &[Entry]) -> Result<Starts, AllocError> {
    let count = entries.len();
    let mut starts = Starts::with_room(alloc, count)?;
    for place in 0..count {
        starts.note((entries[place].key / 0x1_0000_0000) as u32, place)?;
    }
    Ok(starts)
}

/// Entries that are in the order of their keys, with the places where searches begin. It fails only for want of memory.
pub fn sorted_of(alloc: Global, entries: Vec<Entry>) -> Result<Sorted, AllocError>
    ensures { IfOk result (λ sorted. sorted.entries.items ≡ entries.items) }
{
    let starts = starts_of(alloc, &entries)?;
    Ok(Sorted { entries, starts })
}

/// Whether the entries before a place, which rise, have lower keys.
fn is_behind(entries: &[Entry], place: usize, key: u128) -> bool
    requires { IsNonDecreasingBy (λ e. e.key) entries.now }
    ensures { OnTrue result (spec.IsBehind entries.now key place) }
{
    let count = entries.len();
    if place == 0 {
        true
    } else if place > count {
        false
    } else {
        let last = &entries[place - 1];
        u128::from(last.key) < key
    }
}

/// The place of the first entry whose key is not lower, where it is one of the next few.
fn near(entries: &[Entry], start: usize, key: u128) -> Option<usize>
    requires rising { IsNonDecreasingBy (λ e. e.key) entries.now }
    requires behind { spec.IsBehind entries.now key start }
    ensures { IfSome result (spec.IsFirst entries.now key) }
{
    let end = entries.len().min(start.saturating_add(STEPS));
    for place in start..end {
        let entry = &entries[place];
        let own = u128::from(entry.key);
        if own >= key {
            return Some(place);
        }
    }
    None
}

/// The place of the first entry whose key is not lower, from a place on. Where it is not one of the next few, the list is halved.
fn end_from(entries: &[Entry], start: usize, key: u128) -> usize
    requires rising { IsNonDecreasingBy (λ e. e.key) entries.now }
    requires behind { spec.IsBehind entries.now key start }
    ensures { spec.IsFirst entries.now key result }
{
    match near(entries, start, key) {
        None => first_at(entries, key),
        Some(place) => place,
    }
}

/// The place of the first entry whose key is not lower, looked for from any place on. Where entries before the place have keys that are not lower, the list is halved.
fn first_from(entries: &[Entry], start: usize, key: u128) -> usize
    requires { IsNonDecreasingBy (λ e. e.key) entries.now }
    ensures { spec.IsFirst entries.now key result }
{
    if is_behind(entries, start, key) {
        end_from(entries, start, key)
    } else {
        first_at(entries, key)
    }
}

/// The entries under keys from one on, and before another, looked for from a place on. Any place gives the same; a near one takes a few steps, and the others as many as the logarithm of the number of entries.
pub fn range(sorted: &Sorted, start: u32, first: u128, end: u128) -> &[Entry]
    requires rising { IsNonDecreasingBy (λ e. e.key) sorted.now.entries.items }
    requires range { first ≤ end }
    ensures { entries.AreBetween sorted.now.entries.items first end result.now }
{
    let entries = sorted.entries.as_slice();
    let from = first_from(entries, start as usize, first);
    let to = end_from(entries, from, end);
    &entries[from..to]
}

/// The place of the first entry whose key is not lower, where it is one of the next few from a place on, else that behind them. It is a sum of comparisons, with no branch on what is read, so that the processor need not wait for one search before the next. It decides the time alone.
pub fn place_ahead(sorted: &Sorted, start: u32, key: u64) -> u32 {
    let entries = sorted.entries.as_slice();
    let end = entries.len().min((start as usize).saturating_add(AHEAD));
    let mut place = start;
    for at in start as usize..end {
        place = place.wrapping_add(u32::from(entries[at].key < key));
    }
    place
}
