// The fields of version records.
ghost use Rattle.std.specs.Prelude.{◌≡◌, ◌+◌, ◌*◌, ◌≤◌, length, IfOk};
ghost use Rattle.pl_ver.specs.Fields as spec;

use crate::constants::{
    NEXT_SIZE, VDA_NAME, VER_FLG_BASE, VERDAUX_SIZE, VERDEF_SIZE, VERNAUX_SIZE, VERNEED_SIZE,
    VERSYM_HIDDEN, VERSYM_SIZE, VNA_NAME,
};
use crate::record::Record;
use pl_base::{word16, word32};
use std::alloc::{AllocError, Global};

/// How far behind a record of a size the one after it begins, in bytes; 0 for none.
#[tactic(auto, unfolding(crate::specs::Fields::next))]
pub fn next(section: &[u8], size: usize, at: usize) -> u32
    requires field { NEXT_SIZE ≤ size }
    requires within { at + size ≤ length section.now }
    ensures { result ≡ spec.next size section.now at }
{
    word32(section, at + (size - NEXT_SIZE))
}

/// The offset of the record after one of a size; the same offset where there is none.
pub fn following(section: &[u8], size: usize, at: usize) -> usize
    requires field { NEXT_SIZE ≤ size }
    requires within { at + size ≤ length section.now }
    ensures { result ≡ at + spec.next size section.now at }
{
    at + next(section, size, at) as usize
}

#[tactic(auto, unfolding(crate::specs::Fields::verdef_count))]
pub fn verdef_count(verdef: &[u8], at: usize) -> u16
    requires { at + VERDEF_SIZE ≤ length verdef.now }
    ensures { result ≡ spec.verdef_count verdef.now at }
{
    word16(verdef, at + 6)
}

/// The offset of a Verdef's first Verdaux.
#[tactic(auto, unfolding(crate::specs::Fields::verdef_names))]
pub fn verdef_names(verdef: &[u8], at: usize) -> usize
    requires { at + VERDEF_SIZE ≤ length verdef.now }
    ensures { result ≡ spec.verdef_names verdef.now at }
{
    at + word32(verdef, at + 12) as usize
}

#[tactic(auto, unfolding(crate::specs::Fields::is_base))]
fn is_base(verdef: &[u8], at: usize) -> bool
    requires { at + VERDEF_SIZE ≤ length verdef.now }
    ensures { result ≡ spec.is_base verdef.now at }
{
    word16(verdef, at + 2) & VER_FLG_BASE != 0
}

#[tactic(auto, unfolding(crate::specs::Fields::verdef_at))]
pub fn verdef_at(verdef: &[u8], at: usize) -> Record
    requires record { at + VERDEF_SIZE ≤ length verdef.now }
    requires name { spec.verdef_names verdef.now at + VERDAUX_SIZE ≤ length verdef.now }
    ensures { result ≡ spec.verdef_at verdef.now at }
{
    Record {
        index: word16(verdef, at + 4),
        name: word32(verdef, verdef_names(verdef, at) + VDA_NAME),
        defined: true,
        base: is_base(verdef, at),
    }
}

#[tactic(auto, unfolding(crate::specs::Fields::verneed_count))]
pub fn verneed_count(verneed: &[u8], at: usize) -> u16
    requires { at + VERNEED_SIZE ≤ length verneed.now }
    ensures { result ≡ spec.verneed_count verneed.now at }
{
    word16(verneed, at + 2)
}

/// The offset of a Verneed's first Vernaux.
#[tactic(auto, unfolding(crate::specs::Fields::verneed_versions))]
pub fn verneed_versions(verneed: &[u8], at: usize) -> usize
    requires { at + VERNEED_SIZE ≤ length verneed.now }
    ensures { result ≡ spec.verneed_versions verneed.now at }
{
    at + word32(verneed, at + 8) as usize
}

#[tactic(auto, unfolding(crate::specs::Fields::vernaux_at))]
pub fn vernaux_at(verneed: &[u8], at: usize) -> Record
    requires { at + VERNAUX_SIZE ≤ length verneed.now }
    ensures { result ≡ spec.vernaux_at verneed.now at }
{
    Record {
        index: word16(verneed, at + 6),
        name: word32(verneed, at + VNA_NAME),
        defined: false,
        base: false,
    }
}

/// The version words of a section, as many as are whole. It fails only for want of memory.
#[tactic(auto, unfolding(crate::specs::Fields::words))]
pub fn words(alloc: Global, versym: &[u8]) -> Result<Vec<u16>, AllocError>
    ensures { IfOk result (λ v. v.items ≡ spec.words versym.now) }
{
    (0..versym.len() / VERSYM_SIZE)
        .map(|k| word16(versym, VERSYM_SIZE * k))
        .collect(alloc)
}

/// The index of a version word, all of it but bit 15.
pub fn index_of(word: u16) -> u16
    ensures { result ≡ spec.index_of word }
{
    word % VERSYM_HIDDEN
}
