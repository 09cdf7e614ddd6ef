// The text of the cache.
ghost use Rattle.std.specs.Prelude.{◌≡◌, ◌<◌, ◌^◌, ◌+◌, ◌++◌, All, IfOk, OnOk, string_bytes, true};
ghost use Rattle.std.specs.List.{flat_map};
ghost use Rattle.pl_base.specs.Answers.{AnswersAs};
ghost use Rattle.pl_cache.specs.Reading as cache;
ghost use Rattle.pl_cache.specs.Spelling.{is_cache};
ghost use Rattle.pl_texts.specs.CacheText as spec;

use pl_cache::{Cache, CacheFault, read_cache};
use pl_slots::Slot;
use std::alloc::{AllocError, Global};

/// The line of the last stamp.
#[tactic(auto, unfolding(crate::specs::CacheText::last_line))]
fn last_line(alloc: Global, last: u32) -> Result<String, AllocError>
    ensures { IfOk result (λ text. string_bytes text ≡ spec.last_line last) }
{
    format!(in alloc; "last {last}\n")
}

/// The line of a slot.
#[tactic(auto, using(pl_base::proofs::HexLaws::hex16_format), unfolding(crate::specs::CacheText::slot_line))]
fn slot_line(alloc: Global, slot: &Slot) -> Result<String, AllocError>
    requires { slot.now.start + slot.now.span < 2 ^ 64 }
    ensures { IfOk result (λ text. string_bytes text ≡ spec.slot_line slot.now) }
{
    let (start, end, name) = (slot.start, slot.start + slot.span, slot.name.as_str());
    format!(in alloc; "slot {start:016x} {end:016x} {name}\n")
}

fn push_slots(alloc: Global, out: &mut Vec<u8>, slots: &[Slot]) -> Result<(), AllocError>
    requires { All (λ slot. slot.start + slot.span < 2 ^ 64) slots.now }
    ensures { OnOk result (out.new.items ≡ out.old.items ++ flat_map spec.slot_line slots.now) }
{
    for slot in slots {
        let line = slot_line(alloc, slot)?;
        out.extend_from_slice(line.as_bytes())?;
    }
    Ok(())
}

/// The text of a cache: the last stamp, and its slots in the order of their names.
#[tactic(auto, using(crate::proofs::CacheLemmas::ends_fit), unfolding(crate::specs::CacheText::print_text))]
fn cache_text(alloc: Global, cache: &Cache) -> Result<Vec<u8>, AllocError>
    requires { is_cache cache.now ≡ true }
    ensures { IfOk result (λ text. text.items ≡ spec.print_text cache.now) }
{
    let mut text = last_line(alloc, cache.last)?.into_bytes();
    push_slots(alloc, &mut text, cache.rows.as_slice())?;
    Ok(text)
}

/// The text of the cache that bytes spell; `BadCache` exactly where they spell none.
pub fn spelled_text(alloc: Global, bytes: &[u8]) -> Result<Vec<u8>, CacheFault>
    ensures { AnswersAs (λ text. text.items) cache.is_memory result
        (spec.spelled bytes.now) }
{
    let cache = read_cache(alloc, bytes)?;
    Ok(cache_text(alloc, &cache)?)
}

/// The text of the cache of a folder that has no file of it. It fails only for want of memory.
#[tactic(auto, unfolding(crate::specs::CacheText::print_text))]
pub fn no_cache_text(alloc: Global) -> Result<Vec<u8>, AllocError>
    ensures { IfOk result (λ text. text.items ≡ spec.print_text spec.no_cache) }
{
    Ok(last_line(alloc, 0)?.into_bytes())
}
