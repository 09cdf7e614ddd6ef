ghost use Rattle.std.specs.Prelude.{◌≡◌, ◌+◌, ◌<◌, ◌≤◌, ◌^◌, length, drop, IfOk, IsTrue, Ok};
ghost use Rattle.pl_base.specs.Answers.{Answers};
ghost use Rattle.pl_base.specs.Bytes.{part};
ghost use Rattle.pl_elf.specs.Headers.{header};
ghost use Rattle.pl_undo.specs.Section as section;
ghost use Rattle.pl_undo.specs.Reading as spec;
ghost use Rattle.pl_undo.specs.declared.undo.Undo.{Undo};

use crate::constants::{DIGEST_AT, DIGEST_SIZE, HEADERS_AT, UNDO_MAGIC, UNDO_MAGIC_2};
use crate::undo::headers_at;
use crate::{Undo, UndoFault};
use pl_base::{Rows, word64};
use pl_elf::constants::{ET_DYN, ET_EXEC, HEADER_SIZE, SECTION_SIZE, SEGMENT_SIZE};
use pl_elf::{Header, header_fields};
use std::alloc::{AllocError, Global};

#[tactic(auto, unfolding(crate::specs::Section::headers_size))]
fn headers_size(header: &Header) -> usize
    ensures size { result ≡ section.headers_size header.now }
    ensures small { result < 2 ^ 24 }
{
    HEADER_SIZE
        + SEGMENT_SIZE * usize::from(header.phnum)
        + SECTION_SIZE * usize::from(header.shnum)
}

#[tactic(auto, unfolding(crate::specs::Section::fits_kind))]
fn fits_kind(kind: u16, undo: &Undo) -> bool
    ensures { result ≡ section.fits_kind kind undo.now }
{
    match kind {
        ET_DYN => undo.cut == undo.length && undo.shift == 0,
        ET_EXEC => undo.slot == 0,
        _ => true,
    }
}

#[tactic(auto, unfolding(crate::specs::Reading::has_front))]
fn has_front(magic: &[u8; 8], at: usize, bytes: &[u8]) -> bool
    requires { at ≤ HEADERS_AT }
    ensures test { result ≡ spec.has_front magic.now at bytes.now }
    ensures long { IsTrue result → at + HEADER_SIZE ≤ length bytes.now }
{
    bytes.starts_with(magic) && !(bytes.len() < at + HEADER_SIZE)
}

#[tactic(auto, unfolding(crate::specs::Reading::ends_at))]
fn ends_at(bytes: &[u8], headers_end: usize) -> bool
    requires long { DIGEST_AT ≤ length bytes.now }
    requires small { headers_end < 2 ^ 32 }
    ensures test { result ≡ spec.ends_at bytes.now headers_end }
    ensures within { IsTrue result → headers_end ≤ length bytes.now }
{
    bytes.len() as u128 == headers_end as u128 + u128::from(word64(bytes, 40))
}

/// The value of a version whose headers end at an offset.
#[tactic(auto, unfolding(crate::specs::Reading::stored))]
fn stored(
    alloc: Global,
    bytes: &[u8],
    digest: Option<[u8; DIGEST_SIZE]>,
    headers_end: usize,
) -> Result<Undo, AllocError>
    requires front { section.headers_at digest ≤ headers_end }
    requires within { headers_end ≤ length bytes.now }
    ensures { IfOk result (λ undo. undo ≡ spec.stored bytes.now digest headers_end) }
{
    let headers = Vec::from_slice(alloc, &bytes[headers_at(&digest)..headers_end])?;
    let kept = Vec::from_slice(alloc, &bytes[headers_end..])?;
    Ok(Undo {
        slot: word64(bytes, 8),
        cut: word64(bytes, 16),
        shift: word64(bytes, 24),
        length: word64(bytes, 32),
        headers: Rows::from_vec(headers),
        kept: Rows::from_vec(kept),
        digest,
    })
}

#[tactic(auto, unfolding(crate::specs::Reading::behind_front))]
fn behind_front(
    alloc: Global,
    bytes: &[u8],
    digest: Option<[u8; DIGEST_SIZE]>,
    header: &Header,
) -> Result<Undo, UndoFault>
    requires { section.headers_at digest ≤ length bytes.now }
    ensures { Answers spec.is_memory result (spec.behind_front bytes.now digest header.now) }
{
    let headers_end = headers_at(&digest) + headers_size(header);
    if !ends_at(bytes, headers_end) {
        return Err(UndoFault::BadUndo);
    }
    let undo = stored(alloc, bytes, digest, headers_end)?;
    if !fits_kind(header.kind, &undo) {
        return Err(UndoFault::BadUndo);
    }
    Ok(undo)
}

fn stored_header(bytes: &[u8], at: usize) -> Header
    requires { at + HEADER_SIZE ≤ length bytes.now }
    ensures { result ≡ header (drop at bytes.now) }
{
    header_fields(&bytes[at..])
}

/// The digest of a section of version 2.
fn digest_in(bytes: &[u8]) -> [u8; DIGEST_SIZE]
    requires { HEADERS_AT ≤ length bytes.now }
    ensures { result ≡ part DIGEST_AT DIGEST_SIZE bytes.now }
{
    let mut digest = [0; DIGEST_SIZE];
    digest.copy_from_slice(&bytes[DIGEST_AT..HEADERS_AT]);
    digest
}

#[tactic(auto, unfolding(crate::specs::Reading::undo_of))]
fn undo_of(alloc: Global, bytes: &[u8]) -> Result<Undo, UndoFault>
    ensures { Answers spec.is_memory result (spec.undo_of bytes.now) }
{
    if has_front(&UNDO_MAGIC, DIGEST_AT, bytes) {
        return behind_front(alloc, bytes, None, &stored_header(bytes, DIGEST_AT));
    }
    if !has_front(&UNDO_MAGIC_2, HEADERS_AT, bytes) {
        return Err(UndoFault::BadUndo);
    }
    let digest = digest_in(bytes);
    behind_front(
        alloc,
        bytes,
        Some(digest),
        &stored_header(bytes, HEADERS_AT),
    )
}

/// The value of an undo section.
///
/// BadUndo comes exactly where the bytes spell none: they are the first bytes, `UNDO_MAGIC` in version 1 and `UNDO_MAGIC_2` in version 2, the slot, the cut, the shift, the original's length and the number of kept bytes, 64 bits each, in version 2 the 32 bytes of the original's SHA-256, then the original's header, program header table and section header table, as long as that header says, then the kept bytes, and no more. By the header's type, the cut of a library (ET_DYN) is the original's length and its shift is 0, and the slot of a program (ET_EXEC) is 0. Other types are not refused here, and nothing else of the header is looked at. The digest is not compared with anything.
pub fn read_undo(alloc: Global, bytes: &[u8]) -> Result<Undo, UndoFault>
    // What is read is spelled so.
    ensures found { IfOk result (section.IsUndoOf bytes.now) }
    // What is spelled so is read, unless there is no memory.
    ensures only { (undo : Undo) → section.IsUndoOf bytes.now undo
        → Answers spec.is_memory result (Ok undo) }
    // No bytes spell two values.
    ensures unique { (undo other : Undo) → section.IsUndoOf bytes.now undo
        → section.IsUndoOf bytes.now other → undo ≡ other }
    ensures exact { Answers spec.is_memory result (spec.undo_of bytes.now) }
{
    undo_of(alloc, bytes)
}
