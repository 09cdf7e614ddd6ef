// The lengths of all chains of records with a name.
ghost use Rattle.std.specs.Prelude.{◌≡◌, ℕ, ◌+◌, ◌<◌, ◌≤◌, Bool, List, slice_index, IfOk};
ghost use Rattle.pl_ver.specs.Chains.{is_chain, is_named};
ghost use Rattle.pl_ver.specs.Lengths as spec;

use crate::chains::is_named;
use crate::constants::NEXT_SIZE;
use crate::fields::next;
use pl_base::{Strings, end};
use std::alloc::{AllocError, Global};

/// The length at an offset, 0 past the end.
fn length_from(lengths: &[u16], at: usize) -> u16
    ensures { result ≡ slice_index lengths.now at }
{
    if at < lengths.len() { lengths[at] } else { 0 }
}

/// The length of the chain from an offset on, where the lengths behind it are known. A chain of more than 65535 records counts as none, since no record's count is so great.
#[tactic(auto, using(crate::proofs::LengthLaws::outside, crate::proofs::LengthLaws::unnamed, crate::proofs::LengthLaws::last, crate::proofs::LengthLaws::linked, crate::proofs::LengthLaws::cut_off))]
fn length_at(
    strings: &Strings<'_>,
    section: &[u8],
    size: usize,
    field: usize,
    lengths: &[u16],
    at: usize,
) -> u16
    requires next { NEXT_SIZE ≤ size }
    requires field { field + 4 ≤ size }
    requires behind { spec.AreLengths (is_named strings.now section.now field) size section.now
        lengths.now (at + 1) }
    ensures { spec.IsLength (is_named strings.now section.now field) size section.now at result }
{
    if end(at as u64, size as u64) > section.len() as u128 {
        return 0;
    }
    if !is_named(strings, section, field, at) {
        return 0;
    }
    let next = next(section, size, at);
    if next == 0 {
        return 1;
    }
    let rest = length_from(lengths, at + next as usize);
    if rest == 0 { 0 } else { rest.wrapping_add(1) }
}

/// The lengths of the chains from all offsets on, of records of a size in which the offset of a name stands in a field so many bytes behind the record's begin. Chains that share records are walked once.
pub fn lengths(
    alloc: Global,
    strings: &Strings<'_>,
    section: &[u8],
    size: usize,
    field: usize,
) -> Result<Vec<u16>, AllocError>
    requires next { NEXT_SIZE ≤ size }
    requires field { field + 4 ≤ size }
    ensures { IfOk result (λ v. spec.AreLengths (is_named strings.now section.now field) size
        section.now v.items 0) }
{
    let mut lengths = Vec::from_elem(alloc, 0, section.len())?;
    let mut at = section.len();
    while at > 0 {
        at -= 1;
        lengths[at] = length_at(strings, section, size, field, &lengths, at);
    }
    Ok(lengths)
}

/// Whether so many records from an offset on are a chain with names.
#[tactic(auto, using(crate::proofs::LengthLaws::told))]
pub fn has_length(lengths: &[u16], count: u16, first: usize) -> bool
    ensures { (passes : ℕ → Bool) (size : ℕ) (section : List ℕ)
        → spec.AreLengths passes size section lengths.now 0 → result
        ≡ is_chain passes size section count first }
{
    count == 0 || count == length_from(lengths, first)
}
