// The places that a table names.
ghost use Rattle.std.specs.Prelude.{◌≡◌, ◌++◌, ◌<◌, ◌≤◌, length, OnOk, IfOk};
ghost use Rattle.pl_base.specs.Answers.{Answers};
ghost use Rattle.pl_relr.specs.Entries.{entries};
ghost use Rattle.pl_relr.specs.Places as spec;

use crate::RelrFault;
use crate::entries::{BITS, ENTRY_SIZE, PLACE_SIZE, SPAN, entry, entry_count, is_even};
use pl_base::Rows;
use std::alloc::{AllocError, Global};

fn has_bit(entry: u64, bit: u64) -> bool
    requires { bit < 64 }
    ensures { result ≡ spec.has_bit entry bit }
{
    (entry >> bit) % 2 == 1
}

/// Adds the places that an odd entry names.
#[tactic(auto, unfolding(crate::specs::Places::odd_places))]
fn push_odd(places: &mut Vec<u64>, next: u64, entry: u64) -> Result<(), AllocError>
    ensures { OnOk result (places.new.items ≡ places.old.items ++ spec.odd_places next entry) }
{
    for bit in 1..BITS + 1 {
        if has_bit(entry, bit) {
            places.push(next.wrapping_add(PLACE_SIZE * (bit - 1)))?;
        }
    }
    Ok(())
}

/// Adds the places that an entry names.
#[tactic(auto, unfolding(crate::specs::Places::entry_places))]
fn push_places(places: &mut Vec<u64>, next: u64, entry: u64) -> Result<(), AllocError>
    ensures { OnOk result (places.new.items ≡ places.old.items ++ spec.entry_places next entry) }
{
    if is_even(entry) {
        places.push(entry)?;
        return Ok(());
    }
    push_odd(places, next, entry)
}

/// The next place after an entry.
#[tactic(auto, unfolding(crate::specs::Places::following))]
fn following(next: u64, entry: u64) -> u64
    ensures { result ≡ spec.following next entry }
{
    if is_even(entry) {
        entry.wrapping_add(PLACE_SIZE)
    } else {
        next.wrapping_add(SPAN)
    }
}

/// Whether a table has a first entry, and that is odd.
#[tactic(auto, unfolding(crate::specs::Entries::entries))]
fn begins_odd(table: &[u8]) -> bool
    ensures { result ≡ spec.begins_odd (entries table.now) }
{
    entry_count(table) > 0 && !is_even(entry(table, 0))
}

/// The places that a table of packed relative relocations names (gABI, "Relative Relocation Table"), in its order; all sums are modulo 2^64. Packed exactly where the size is no multiple of 8, the first entry is odd, or there are more than `most` places; NoMemory where there is no memory for the places. The time grows as the table's length.
pub fn unpack(alloc: Global, table: &[u8], most: u64) -> Result<Rows<u64>, RelrFault>
    ensures exact { Answers spec.is_memory result (spec.unpacked table.now most) }
    ensures few { IfOk result (λ places. length places ≤ most) }
{
    if table.len() % ENTRY_SIZE != 0 || begins_odd(table) {
        return Err(RelrFault::Packed);
    }
    let mut places = Vec::new(alloc);
    let mut next = 0;
    for index in 0..entry_count(table) {
        let entry = entry(table, index);
        push_places(&mut places, next, entry)?;
        if places.len() as u64 > most {
            return Err(RelrFault::Packed);
        }
        next = following(next, entry);
    }
    Ok(Rows::from_vec(places))
}
