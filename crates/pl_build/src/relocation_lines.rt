// The line `rel`.
ghost use Rattle.std.specs.Prelude.{◌≡◌, IfOk};
ghost use Rattle.pl_build.specs.RelocationLines as spec;

use crate::line::{Addend, Line, PackedWord, Relocation};
use crate::names::is;
use crate::words::{copy_of, is_negative, is_written, magnitude, number, word};
use pl_base::Rows;
use pl_elf::constants::{
    R_X86_64_64, R_X86_64_COPY, R_X86_64_DTPMOD64, R_X86_64_DTPOFF64, R_X86_64_GLOB_DAT,
    R_X86_64_IRELATIVE, R_X86_64_JUMP_SLOT, R_X86_64_NONE, R_X86_64_RELATIVE, R_X86_64_TLSDESC,
    R_X86_64_TPOFF64,
};
use std::alloc::{AllocError, Global};

#[tactic(auto, unfolding(crate::specs::RelocationLines::symbol_kind))]
fn symbol_kind(text: &[u8]) -> Option<u32>
    ensures { result ≡ spec.symbol_kind text.now }
{
    if is(text, b"abs64") {
        Some(R_X86_64_64)
    } else if is(text, b"copy") {
        Some(R_X86_64_COPY)
    } else if is(text, b"globdat") {
        Some(R_X86_64_GLOB_DAT)
    } else if is(text, b"jumpslot") {
        Some(R_X86_64_JUMP_SLOT)
    } else if is(text, b"relative") {
        Some(R_X86_64_RELATIVE)
    } else if is(text, b"none") {
        Some(R_X86_64_NONE)
    } else {
        None
    }
}

#[tactic(auto, unfolding(crate::specs::RelocationLines::other_kind))]
fn other_kind(text: &[u8]) -> Option<u32>
    ensures { result ≡ spec.other_kind text.now }
{
    if is(text, b"dtpmod") {
        Some(R_X86_64_DTPMOD64)
    } else if is(text, b"dtpoff") {
        Some(R_X86_64_DTPOFF64)
    } else if is(text, b"tpoff") {
        Some(R_X86_64_TPOFF64)
    } else if is(text, b"irelative") {
        Some(R_X86_64_IRELATIVE)
    } else if is(text, b"tlsdesc") {
        Some(R_X86_64_TLSDESC)
    } else {
        None
    }
}

#[tactic(auto, unfolding(crate::specs::RelocationLines::relocation_kind))]
fn relocation_kind(text: &[u8]) -> Option<u32>
    ensures { result ≡ spec.relocation_kind text.now }
{
    symbol_kind(text).or(other_kind(text))
}

/// Whether a name stands for no symbol.
#[tactic(auto, unfolding(crate::specs::RelocationLines::is_no_symbol))]
pub fn is_no_symbol(text: &[u8]) -> bool
    ensures { result ≡ spec.is_no_symbol text.now }
{
    is(text, b"-")
}

#[tactic(auto, unfolding(crate::specs::RelocationLines::fits))]
fn fits(kind: u32, text: &[u8]) -> bool
    ensures { result ≡ spec.fits kind text.now }
{
    is_written(text) && (is_no_symbol(text) || kind != R_X86_64_RELATIVE)
}

#[tactic(auto, unfolding(crate::specs::RelocationLines::addend))]
fn addend(text: &[u8]) -> Option<Addend>
    ensures { result ≡ spec.addend text.now }
{
    let magnitude = magnitude(text)?;
    Some(Addend {
        negative: is_negative(text),
        magnitude,
    })
}

#[tactic(auto, unfolding(crate::specs::RelocationLines::packed_line))]
fn packed_line(words: &[Rows<u8>]) -> Line
    ensures { result ≡ spec.packed_line words.now }
{
    let Some(offset) = number(word(words, 2)) else {
        return Line::Wrong;
    };
    let Some(addend) = addend(word(words, 4)) else {
        return Line::Wrong;
    };
    if !is_no_symbol(word(words, 3)) {
        return Line::Wrong;
    }
    Line::Packs(PackedWord { offset, addend })
}

#[tactic(auto, unfolding(crate::specs::RelocationLines::relocation_line))]
fn relocation_line(alloc: Global, words: &[Rows<u8>]) -> Result<Line, AllocError>
    ensures { IfOk result (λ line. line ≡ spec.relocation_line words.now) }
{
    let Some(kind) = relocation_kind(word(words, 1)) else {
        return Ok(Line::Wrong);
    };
    let Some(offset) = number(word(words, 2)) else {
        return Ok(Line::Wrong);
    };
    let Some(addend) = addend(word(words, 4)) else {
        return Ok(Line::Wrong);
    };
    if !fits(kind, word(words, 3)) {
        return Ok(Line::Wrong);
    }
    Ok(Line::Relocates(Relocation {
        kind,
        offset,
        name: copy_of(alloc, word(words, 3))?,
        addend,
    }))
}

/// The line of five words that begin with `rel`.
#[tactic(auto, unfolding(crate::specs::RelocationLines::rel_line))]
pub fn rel_line(alloc: Global, words: &[Rows<u8>]) -> Result<Line, AllocError>
    ensures { IfOk result (λ line. line ≡ spec.rel_line words.now) }
{
    if is(word(words, 1), b"packed") {
        return Ok(packed_line(words));
    }
    relocation_line(alloc, words)
}
