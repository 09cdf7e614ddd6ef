// The table of places.
ghost use Rattle.std.specs.Prelude.{◌≡◌, ◌+◌, ◌++◌, ◌<◌, ◌≤◌, ◌^◌, ℕ, true, Ok, length, All, OnOk, IfOk};
ghost use Rattle.std.specs.Bool.{OnTrue};
ghost use Rattle.pl_relr.specs.Entries.{table_of};
ghost use Rattle.pl_relr.specs.Places.{unpacked};
ghost use Rattle.pl_relr.specs.Pack as spec;

use crate::entries::{PLACE_SIZE, PLACES_END, SPAN};
use pl_base::{Rows, push64};
use std::alloc::{AllocError, Global};

/// Whether a place can follow, where the next one is not to be before an address.
fn follows(next: u64, place: u64) -> bool
    ensures { result ≡ spec.follows next place }
{
    next <= place && place < PLACES_END && place % 2 == 0
}

/// Whether `pack` takes places: they are even, ascend, are at least 8 apart, and lie below 2^47. The time grows as their count.
#[tactic(auto, using(crate::proofs::PackLaws::are_packable), unfolding(crate::specs::Pack::is_packable))]
pub fn is_packable(places: &[u64]) -> bool
    ensures value { result ≡ spec.is_packable places.now }
    ensures facts { OnTrue result (spec.ArePackable places.now) }
{
    let mut next = 0;
    for place in places {
        if !follows(next, *place) {
            return false;
        }
        next = *place + PLACE_SIZE;
    }
    true
}

/// Whether an odd entry can name a place.
fn can_name(next: u64, place: u64) -> bool
    requires { next + SPAN < 2 ^ 64 }
    ensures { result ≡ spec.can_name next place }
{
    next <= place && place < next + SPAN && (place - next) % PLACE_SIZE == 0
}

/// How many of the first places the next odd entry names.
fn named_count(next: u64, places: &[u64]) -> usize
    requires { next + SPAN < 2 ^ 64 }
    ensures { result ≡ spec.named_count next places.now }
{
    places
        .iter()
        .take_while(|place| can_name(next, **place))
        .count()
}

/// The odd entry that names places.
#[tactic(auto, unfolding(crate::specs::Pack::odd_entry))]
fn odd_entry(next: u64, places: &[u64]) -> u64
    requires named { All (λ place. spec.can_name next place ≡ true) places.now }
    requires small { spec.odd_entry next places.now < 2 ^ 64 }
    ensures { result ≡ spec.odd_entry next places.now }
{
    let mut entry = 1;
    for place in places {
        entry += 1 << ((*place - next) / PLACE_SIZE + 1);
    }
    entry
}

/// Adds the entries for places that come after an entry.
fn push_entries(table: &mut Vec<u8>, first: u64, places: &[u64]) -> Result<(), AllocError>
    requires packable { spec.ArePackable places.now }
    requires low { first < 2 ^ 48 }
    ensures { OnOk result (table.new.items ≡ table.old.items
        ++ table_of (spec.packed_from first 0 places.now)) }
{
    let mut next = first;
    let mut at = 0;
    while at < places.len() {
        let place = places[at];
        if can_name(next, place) {
            let rest = &places[at..];
            let count = named_count(next, rest);
            push64(table, odd_entry(next, &rest[..count]))?;
            next += SPAN;
            at += count;
        } else {
            push64(table, place)?;
            next = place + PLACE_SIZE;
            at += 1;
        }
    }
    Ok(())
}

/// The table of packed relative relocations (gABI, "Relative Relocation Table") that names these places: an even entry, then odd ones as long as the first place left is one that the odd entry can name, each with the places in order up to the first one that it cannot name; then again an even entry. `unpack` of it gives the places. It fails only for want of memory. The time grows as the count of places.
#[tactic(auto, unfolding(crate::specs::Pack::packed, crate::specs::Pack::packed_entries))]
pub fn pack(alloc: Global, places: &[u64]) -> Result<Rows<u8>, AllocError>
    requires { spec.ArePackable places.now }
    ensures exact { IfOk result (λ table. table ≡ spec.packed places.now) }
    ensures back { IfOk result (λ table. (most : ℕ) → length places.now ≤ most → unpacked table most
        ≡ Ok places.now) }
{
    let mut table = Vec::new(alloc);
    if !places.is_empty() {
        push64(&mut table, places[0])?;
        push_entries(&mut table, places[0] + PLACE_SIZE, &places[1..])?;
    }
    Ok(Rows::from_vec(table))
}
