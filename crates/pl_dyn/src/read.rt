ghost use Rattle.std.specs.Prelude.{◌≡◌, ◌+◌, ◌*◌, ◌<◌, ◌^◌, length, IfOk};
ghost use Rattle.pl_base.specs.Answers.{Answers};
ghost use Rattle.pl_dyn.specs.Entries.{AreEntries};
ghost use Rattle.pl_dyn.specs.Read as spec;

use crate::constants::{DT_NEEDED, ENTRY_SIZE};
use crate::entries::{is_ended, null_count, read_tags};
use crate::kinds::is_unknown;
use crate::{DynFault, Dynamic, Tag};
use pl_base::Rows;
use std::alloc::Global;

#[tactic(auto, unfolding(crate::specs::Read::stands_twice))]
fn stands_twice(tags: &[Tag], number: u64) -> bool
    ensures { result ≡ spec.stands_twice tags.now number }
{
    tags.iter().filter(|tag| tag.number == number).count() > 1
}

#[tactic(auto, unfolding(crate::specs::Read::first_unknown))]
fn first_unknown(tags: &[Tag]) -> Option<Tag>
    ensures { result ≡ spec.first_unknown tags.now }
{
    tags.iter().copied().find(|tag| is_unknown(tag.number))
}

// No tag is counted twice, DT_NEEDED never, and all are listed by now: so this goes through the tags at most 295 times.
#[tactic(auto, unfolding(crate::specs::Read::first_twice))]
fn first_twice(tags: &[Tag]) -> Option<Tag>
    ensures { result ≡ spec.first_twice tags.now }
{
    tags.iter().copied().find(|tag| tag.number != DT_NEEDED && stands_twice(tags, tag.number))
}

/// The tags of a dynamic table (System V gABI chapter 5, "Dynamic Section") of fewer than 2^32 bytes, since `spare` holds 32 bits; or the first of acceptance clauses 9 to 11 that refuses it, as far as its bytes alone show; or NoMemory where there is no memory for the tags. The time grows as the table's length.
#[tactic(auto, using(crate::proofs::EntryLaws::are_entries), unfolding(crate::specs::Read::read))]
pub fn read_dynamic(alloc: Global, table: &[u8]) -> Result<Dynamic, DynFault>
    requires { length table.now < 2 ^ 32 }
    ensures exact { Answers spec.is_memory result (spec.read table.now) }
    ensures places { IfOk result (λ dynamic. AreEntries table.now dynamic.tags) }
    ensures whole { IfOk result (λ dynamic. ENTRY_SIZE * (length dynamic.tags + dynamic.spare + 1)
        ≡ length table.now) }
{
    if !is_ended(table) {
        return Err(DynFault::NoEnd);
    }
    let tags = read_tags(alloc, table)?;
    if let Some(tag) = first_unknown(&tags) {
        return Err(DynFault::UnknownTag(tag.number));
    }
    if let Some(tag) = first_twice(&tags) {
        return Err(DynFault::Twice(tag.number));
    }
    Ok(Dynamic {
        tags: Rows::from_vec(tags),
        spare: null_count(table) - 1,
    })
}
