// Parts of an object, and acceptance clauses 28 to 31.
ghost use Rattle.std.specs.Prelude.{◌≡◌, ◌+◌, ◌≤◌, IfSome};
ghost use Rattle.pl_elf.specs.Headers.{loads};
ghost use Rattle.pl_elf.specs.Clauses.{AreLoads};
ghost use Rattle.pl_object.specs.Reads as spec;

use crate::constants::ORIGINAL;
use crate::place_clauses::{last_load, misplaced_copy};
use crate::symbol_clauses::has_ifunc;
use crate::tags::{has_tag, value};
use crate::{Refusal, Reloc};
use pl_base::round_up;
use pl_dyn::Tag;
use pl_dyn::constants::{DF_1_PIE, DF_SYMBOLIC, DT_FLAGS, DT_FLAGS_1, DT_SONAME, DT_SYMBOLIC};
use pl_elf::constants::{ADDRESS_LIMIT, ET_DYN, ET_EXEC, PAGE, PT_INTERP, PT_TLS};
use pl_elf::{Header, Kind, Segment, segment_of_kind};
use pl_sym::Symbol;
use pl_tls::Block;

fn end_in_memory(segment: Option<Segment>) -> u64
    requires { IfSome segment (λ s. s.vaddr + s.memsz ≤ ADDRESS_LIMIT) }
    ensures value { result ≡ spec.end_in_memory segment }
    ensures fit { result ≤ ADDRESS_LIMIT }
{
    match segment {
        None => 0,
        Some(segment) => segment.vaddr + segment.memsz,
    }
}

/// The end of the last PT_LOAD, in whole pages.
#[tactic(auto, using(crate::proofs::LoadLaws::last_load_fits), unfolding(crate::specs::Reads::span))]
pub fn span(segments: &[Segment]) -> u64
    requires { AreLoads (loads segments.now) }
    ensures { result ≡ spec.span segments.now }
{
    round_up(end_in_memory(last_load(segments)), PAGE)
}

/// The greatest alignment of the PT_LOADs, at least a page.
#[tactic(auto, unfolding(crate::specs::Reads::align))]
pub fn align(segments: &[Segment]) -> u64
    ensures { result ≡ spec.align segments.now }
{
    segments
        .iter()
        .filter(|segment| segment.is_load())
        .fold(PAGE, |most, segment| most.max(segment.align))
}

/// The thread-local block of the PT_TLS.
#[tactic(auto, unfolding(crate::specs::Reads::tls))]
pub fn tls(segments: &[Segment]) -> Option<Block>
    ensures { result ≡ spec.tls segments.now }
{
    match segment_of_kind(segments, PT_TLS) {
        None => None,
        Some(segment) => Some(Block {
            size: segment.memsz,
            align: segment.align,
        }),
    }
}

fn has_flag(tags: &[Tag], number: u64, flag: u64) -> bool
    ensures { result ≡ spec.has_flag number flag tags.now }
{
    value(tags, number) & flag != 0
}

/// Whether an object's own references search it first.
#[tactic(auto, unfolding(crate::specs::Reads::is_symbolic))]
pub fn is_symbolic(tags: &[Tag]) -> bool
    ensures { result ≡ spec.is_symbolic tags.now }
{
    has_tag(tags, DT_SYMBOLIC) || has_flag(tags, DT_FLAGS, DF_SYMBOLIC)
}

/// What an object with a PT_DYNAMIC is.
pub fn kind_of(header: &Header) -> Kind
    ensures { result ≡ spec.kind_of header.now }
{
    if header.kind == ET_EXEC {
        Kind::Program
    } else {
        Kind::Library
    }
}

/// Clause 30.
#[tactic(auto, unfolding(crate::specs::Reads::too_large))]
pub fn too_large(bytes: &[u8]) -> bool
    ensures { result ≡ spec.too_large bytes.now }
{
    bytes.len() > ORIGINAL
}

/// Clause 31.
#[tactic(auto, unfolding(crate::specs::Reads::is_pie))]
fn is_pie(header: &Header, segments: &[Segment], tags: &[Tag]) -> bool
    ensures { result ≡ spec.is_pie header.now segments.now tags.now }
{
    header.kind == ET_DYN
        && (has_flag(tags, DT_FLAGS_1, DF_1_PIE)
            || segment_of_kind(segments, PT_INTERP).is_some() && !has_tag(tags, DT_SONAME))
}

/// The first of clauses 28 to 31 that refuses the file.
#[tactic(auto, unfolding(crate::specs::Reads::check_rest))]
pub fn check_rest(
    bytes: &[u8],
    header: &Header,
    segments: &[Segment],
    tags: &[Tag],
    symbols: &[Symbol],
    relocs: &[Reloc],
) -> Result<(), Refusal>
    ensures { result ≡ spec.check_rest bytes.now header.now segments.now tags.now symbols.now
        relocs.now }
{
    if has_ifunc(symbols) {
        return Err(Refusal::clause(28));
    }
    if misplaced_copy(header.kind == ET_EXEC, relocs) {
        return Err(Refusal::clause(29));
    }
    if too_large(bytes) {
        return Err(Refusal::clause(30));
    }
    if is_pie(header, segments, tags) {
        return Err(Refusal::clause(31));
    }
    Ok(())
}
