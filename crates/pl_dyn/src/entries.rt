// The entries of a table, as they stand in its bytes.
ghost use Rattle.std.specs.Prelude.{◌≡◌, ◌+◌, ◌*◌, ◌/◌, ◌<◌, ◌≤◌, ◌^◌, length, IfOk};
ghost use Rattle.std.specs.Bool.{OnTrue};
ghost use Rattle.pl_dyn.specs.Entries as spec;

use crate::Tag;
use crate::constants::{DT_NULL, ENTRY_SIZE};
use pl_base::word64;
use std::alloc::{AllocError, Global};

/// The entry at an index, from 0: 16 bytes, first the tag's number, then its value, each a word of 64 bits (System V gABI chapter 5, "Dynamic Section"). The entry lies in the table; nothing else of it is tested.
pub fn entry(table: &[u8], index: u32) -> Tag
    requires { ENTRY_SIZE * index + ENTRY_SIZE ≤ length table.now }
    ensures { result ≡ spec.entry table.now index }
{
    let at = ENTRY_SIZE * index as usize;
    Tag {
        number: word64(table, at),
        value: word64(table, at + 8),
    }
}

fn entry_count(table: &[u8]) -> u32
    requires { length table.now < 2 ^ 32 }
    ensures { result ≡ length table.now / ENTRY_SIZE }
{
    (table.len() / ENTRY_SIZE) as u32
}

#[tactic(auto, unfolding(crate::specs::Entries::entries, crate::specs::Entries::null_count))]
pub fn null_count(table: &[u8]) -> u32
    requires { length table.now < 2 ^ 32 }
    ensures { result ≡ spec.null_count table.now }
{
    (0..entry_count(table))
        .map(|index| entry(table, index))
        .filter(|tag| tag.number == DT_NULL)
        .count() as u32
}

/// The entries of a dynamic table before the first of tag DT_NULL, in its order (System V gABI chapter 5, "Dynamic Section"); all whole entries where there is none of that tag. Nothing is refused. It fails only for want of memory.
#[tactic(auto, unfolding(crate::specs::Entries::entries, crate::specs::Entries::tags))]
pub fn read_tags(alloc: Global, table: &[u8]) -> Result<Vec<Tag>, AllocError>
    requires { length table.now < 2 ^ 32 }
    ensures { IfOk result (λ v. v.items ≡ spec.tags table.now) }
{
    (0..entry_count(table))
        .map(|index| entry(table, index))
        .take_while(|tag| tag.number != DT_NULL)
        .collect(alloc)
}

#[tactic(auto, unfolding(crate::specs::Entries::entries, crate::specs::Entries::only_nulls_follow))]
fn only_nulls_follow(table: &[u8]) -> bool
    requires { length table.now < 2 ^ 32 }
    ensures { result ≡ spec.only_nulls_follow table.now }
{
    (0..entry_count(table))
        .map(|index| entry(table, index))
        .skip_while(|tag| tag.number != DT_NULL)
        .all(|tag| tag.number == DT_NULL)
}

/// Whether a dynamic table (System V gABI chapter 5, "Dynamic Section") of fewer than 2^32 bytes, since `Dynamic`'s `spare` holds 32 bits, ends as it should: its size is a multiple of an entry's, it has an entry of tag DT_NULL, and no entry of another tag stands after that one. No memory is taken.
#[tactic(auto, using(crate::proofs::EntryLaws::whole), unfolding(crate::specs::Entries::is_ended))]
pub fn is_ended(table: &[u8]) -> bool
    requires { length table.now < 2 ^ 32 }
    ensures exact { result ≡ spec.is_ended table.now }
    ensures some { OnTrue result (0 < spec.null_count table.now) }
    ensures whole { OnTrue result (spec.IsWhole table.now) }
{
    table.len() % ENTRY_SIZE == 0 && null_count(table) > 0 && only_nulls_follow(table)
}
