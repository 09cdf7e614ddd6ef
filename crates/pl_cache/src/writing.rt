ghost use Rattle.std.specs.Prelude.{◌≡◌, ◌<◌, ◌≤◌, ◌^◌, ◌++◌, true, length, All, OnOk, IfOk};
ghost use Rattle.std.specs.List.{flat_map};
ghost use Rattle.pl_cache.specs.Spelling as spec;

use crate::Cache;
use crate::constants::MAX_ROWS;
use crate::rows::magic_of;
use pl_base::{push32, push64};
use pl_io::NoMemory;
use pl_slots::Slot;
use std::alloc::{AllocError, Global};

fn push_row(out: &mut Vec<u8>, slot: &Slot) -> Result<(), AllocError>
    requires { length slot.now.name < 2 ^ 8 }
    ensures { OnOk result (out.new.items ≡ out.old.items ++ spec.row_bytes slot.now) }
{
    let name = slot.name.as_str().as_bytes();
    out.push(name.len() as u8)?;
    out.extend_from_slice(name)?;
    push64(out, slot.start)?;
    push64(out, slot.span)
}

fn push_rows(out: &mut Vec<u8>, slots: &[Slot]) -> Result<(), AllocError>
    requires { All (λ slot. length slot.name < 2 ^ 8) slots.now }
    ensures { OnOk result (out.new.items ≡ out.old.items ++ flat_map spec.row_bytes slots.now) }
{
    for slot in slots {
        push_row(out, slot)?;
    }
    Ok(())
}

fn row_count(cache: &Cache) -> u32
    requires { length cache.now.rows ≤ MAX_ROWS }
    ensures { result ≡ length cache.now.rows }
{
    cache.rows.len() as u32
}

/// The one spelling of a cache.
#[tactic(auto, unfolding(crate::specs::Spelling::cache_bytes))]
pub fn write_cache(alloc: Global, cache: &Cache) -> Result<Vec<u8>, NoMemory>
    requires { spec.is_cache cache.now ≡ true }
    ensures { IfOk result (λ bytes. bytes.items ≡ spec.cache_bytes cache.now) }
{
    let mut out = Vec::new(alloc);
    out.extend_from_slice(&magic_of(cache.rows.as_slice()))?;
    push32(&mut out, cache.last)?;
    push32(&mut out, row_count(cache))?;
    push_rows(&mut out, cache.rows.as_slice())?;
    Ok(out)
}
