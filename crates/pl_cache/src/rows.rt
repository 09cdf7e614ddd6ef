// What rows of a cache are to be.
ghost use Rattle.std.specs.Prelude.{◌≡◌};
ghost use Rattle.std.specs.List.{list_all};
ghost use Rattle.pl_cache.specs.Spelling as spec;

use crate::Cache;
use crate::constants::{MAGIC, MAX_ROWS, SHARED_MAGIC};
use pl_base::{end, is_aligned, is_valid_name};
use pl_elf::constants::{ADDRESS_LIMIT, PAGE};
use pl_slots::{Slot, are_apart};

#[tactic(auto, unfolding(crate::specs::Spelling::is_row))]
fn is_row(slot: &Slot) -> bool
    ensures { result ≡ spec.is_row slot.now }
{
    is_valid_name(slot.name.as_str().as_bytes())
        && is_aligned(slot.start, PAGE)
        && is_aligned(slot.span, PAGE)
        && slot.span > 0
        && end(slot.start, slot.span) <= u128::from(ADDRESS_LIMIT)
}

fn are_rows(rows: &[Slot]) -> bool
    ensures { result ≡ list_all spec.is_row rows.now }
{
    rows.iter().all(is_row)
}

fn precedes(a: &Slot, b: &Slot) -> bool
    ensures { result ≡ spec.precedes a.now b.now }
{
    a.name.as_str().cmp(b.name.as_str()).is_lt()
}

fn is_followed(slot: &Slot, others: &[Slot]) -> bool
    ensures { result ≡ spec.is_followed slot.now others.now }
{
    match others {
        [] => true,
        [next, ..] => precedes(slot, next),
    }
}

fn ascend(rows: &[Slot]) -> bool
    ensures { result ≡ spec.ascend rows.now }
{
    let mut left = rows;
    while let [slot, others @ ..] = left {
        if !is_followed(slot, others) {
            return false;
        }
        left = others;
    }
    true
}

/// The first bytes of a cache with these rows.
#[tactic(auto, unfolding(crate::specs::Spelling::magic_of))]
pub fn magic_of(rows: &[Slot]) -> [u8; 8]
    ensures { result ≡ spec.magic_of rows.now }
{
    if are_apart(rows) { MAGIC } else { SHARED_MAGIC }
}

/// Whether a cache has a spelling: its names are valid and ascend strictly, its slots and spans are multiples of 4096 and no span is 0, its slots end at or below 2^47, and there are at most 1024.
#[tactic(auto, unfolding(crate::specs::Spelling::is_cache))]
pub fn is_cache(cache: &Cache) -> bool
    ensures { result ≡ spec.is_cache cache.now }
{
    let _last = cache.last;
    let rows = cache.rows.as_slice();
    rows.len() <= MAX_ROWS as usize && are_rows(rows) && ascend(rows)
}
