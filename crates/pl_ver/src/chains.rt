// Chains of version records, and acceptance clause 17.
ghost use Rattle.std.specs.Prelude.{◌≡◌, ℕ, ◌+◌, ◌≤◌, List, length, IfOk, IsTrue};
ghost use Rattle.pl_ver.specs.Lengths.{AreLengths};
ghost use Rattle.pl_ver.specs.Chains as spec;

use crate::constants::{
    NEXT_SIZE, VDA_NAME, VERDAUX_SIZE, VERDEF_SIZE, VERNAUX_SIZE, VERNEED_SIZE, VN_FILE, VNA_NAME,
};
use crate::fields::{following, next, verdef_count, verdef_names, verneed_count, verneed_versions};
use crate::lengths::{has_length, lengths};
use pl_base::{Strings, end, word32};
use std::alloc::{AllocError, Global};

/// Whether a record lies in its section, and its `next` is 0 exactly where no more records follow.
#[tactic(auto, unfolding(crate::specs::Chains::is_linked))]
fn is_linked(section: &[u8], size: usize, more: u64, at: usize) -> bool
    requires { NEXT_SIZE ≤ size }
    ensures test { result ≡ spec.is_linked size section.now more at }
    ensures within { IsTrue result → at + size ≤ length section.now }
{
    if end(at as u64, size as u64) > section.len() as u128 {
        return false;
    }
    let next = next(section, size, at);
    if more == 0 { next == 0 } else { next != 0 }
}

/// Whether the string whose offset stands in a record, so many bytes behind the record's begin, has an end.
#[tactic(auto, unfolding(crate::specs::Chains::is_named))]
pub fn is_named(strings: &Strings<'_>, section: &[u8], field: usize, at: usize) -> bool
    requires { at + field + 4 ≤ length section.now }
    ensures { result ≡ spec.is_named strings.now section.now field at }
{
    strings.has_end(word32(section, at + field))
}

/// Whether a Verdef has a name, and each of its names an end, by the lengths of the chains of its names.
#[tactic(auto, unfolding(crate::specs::Chains::is_verdef))]
fn is_verdef(lengths: &[u16], verdef: &[u8], at: usize) -> bool
    requires { at + VERDEF_SIZE ≤ length verdef.now }
    ensures { (strings : List ℕ) → AreLengths (spec.is_named strings verdef.now VDA_NAME)
        VERDAUX_SIZE verdef.now lengths.now 0 → result ≡ spec.is_verdef strings verdef.now at }
{
    let count = verdef_count(verdef, at);
    count != 0 && has_length(lengths, count, verdef_names(verdef, at))
}

/// Whether the names of a Verneed's file and of the versions that are needed of it have an end, by the lengths of the chains of these versions.
#[tactic(auto, unfolding(crate::specs::Chains::is_verneed))]
fn is_verneed(strings: &Strings<'_>, lengths: &[u16], verneed: &[u8], at: usize) -> bool
    requires record { at + VERNEED_SIZE ≤ length verneed.now }
    requires lengths { AreLengths (spec.is_named strings.now verneed.now VNA_NAME) VERNAUX_SIZE
        verneed.now lengths.now 0 }
    ensures { result ≡ spec.is_verneed strings.now verneed.now at }
{
    let count = verneed_count(verneed, at);
    is_named(strings, verneed, VN_FILE, at)
        && has_length(lengths, count, verneed_versions(verneed, at))
}

/// Whether so many Verdefs from the section's begin on are a chain.
#[tactic(auto, using(crate::proofs::ChainLaws::is_chain_step, crate::proofs::ChainLaws::is_chain_none), unfolding(crate::specs::Chains::are_verdefs))]
pub fn are_verdefs(
    alloc: Global,
    strings: &Strings<'_>,
    verdef: &[u8],
    defs: u64,
) -> Result<bool, AllocError>
    ensures { IfOk result (λ all. all ≡ spec.are_verdefs strings.now verdef.now defs) }
{
    let lengths = lengths(alloc, strings, verdef, VERDAUX_SIZE, VDA_NAME)?;
    let mut at = 0;
    let mut more = defs;
    while more > 0 {
        more -= 1;
        if !is_linked(verdef, VERDEF_SIZE, more, at) {
            return Ok(false);
        }
        if !is_verdef(&lengths, verdef, at) {
            return Ok(false);
        }
        at = following(verdef, VERDEF_SIZE, at);
    }
    Ok(true)
}

/// Whether so many Verneeds from the section's begin on are a chain.
#[tactic(auto, using(crate::proofs::ChainLaws::is_chain_step, crate::proofs::ChainLaws::is_chain_none), unfolding(crate::specs::Chains::are_verneeds))]
pub fn are_verneeds(
    alloc: Global,
    strings: &Strings<'_>,
    verneed: &[u8],
    needs: u64,
) -> Result<bool, AllocError>
    ensures { IfOk result (λ all. all ≡ spec.are_verneeds strings.now verneed.now needs) }
{
    let lengths = lengths(alloc, strings, verneed, VERNAUX_SIZE, VNA_NAME)?;
    let mut at = 0;
    let mut more = needs;
    while more > 0 {
        more -= 1;
        if !is_linked(verneed, VERNEED_SIZE, more, at) {
            return Ok(false);
        }
        if !is_verneed(strings, &lengths, verneed, at) {
            return Ok(false);
        }
        at = following(verneed, VERNEED_SIZE, at);
    }
    Ok(true)
}
