// Acceptance clauses 12 to 14: tables that do not fit together. A test is true where the clause refuses the file.
ghost use Rattle.std.specs.Prelude.{◌≡◌, ◌<◌, ◌≤◌, ◌^◌, length, not, count_by, IfOk};
ghost use Rattle.std.specs.List.{list_any};
ghost use Rattle.pl_base.specs.Answers.{Answers};
ghost use Rattle.pl_object.specs.FilePart as part;
ghost use Rattle.pl_object.specs.Tables as tables;
ghost use Rattle.pl_object.specs.Refusals.{is_memory};
ghost use Rattle.pl_object.specs.TableClauses as spec;

use crate::file_part::{file_window, in_file_part, loaded};
use crate::overlaps::any_share;
use crate::tables::main_windows;
use crate::tags::{has_tag, is_lost, relr_memory, tables_memory, value};
use crate::{Refusal, Window};
use pl_dyn::Tag;
use pl_dyn::constants::{
    DT_GNU_HASH, DT_HASH, DT_JMPREL, DT_PLTREL, DT_PLTRELSZ, DT_RELA, DT_RELAENT, DT_RELASZ,
    DT_RELR, DT_RELRENT, DT_RELRSZ, DT_STRSZ, DT_STRTAB, DT_SYMENT, DT_SYMTAB, DT_VERDEF,
    DT_VERNEED, DT_VERSYM,
};
use pl_elf::constants::{RELA_SIZE, RELR_SIZE, SHT_DYNSYM};
use pl_elf::{Header, Section, Segment};
use pl_relr::{RelrFault, unpack};
use pl_sym::constants::SYMBOL_SIZE;
use std::alloc::{AllocError, Global};

#[tactic(auto, unfolding(crate::specs::TableClauses::lacks_tags))]
fn lacks_tags(tags: &[Tag]) -> bool
    ensures { result ≡ spec.lacks_tags tags.now }
{
    !has_tag(tags, DT_STRTAB)
        || !has_tag(tags, DT_STRSZ)
        || !has_tag(tags, DT_SYMTAB)
        || !has_tag(tags, DT_SYMENT)
        || value(tags, DT_SYMENT) != SYMBOL_SIZE as u64
}

fn count_dynsym(sections: &[Section]) -> usize
    ensures { result ≡ count_by (tables.has_kind SHT_DYNSYM) sections.now }
{
    sections
        .iter()
        .filter(|section| section.kind == SHT_DYNSYM)
        .count()
}

#[tactic(auto, unfolding(crate::specs::TableClauses::is_misplaced))]
fn is_misplaced(address: u64, section: &Section) -> bool
    ensures { result ≡ spec.is_misplaced address section.now }
{
    section.kind == SHT_DYNSYM
        && (section.addr != address || section.size % SYMBOL_SIZE as u64 != 0)
}

fn any_misplaced(address: u64, sections: &[Section]) -> bool
    ensures { result ≡ list_any (spec.is_misplaced address) sections.now }
{
    sections
        .iter()
        .any(|section| is_misplaced(address, section))
}

#[tactic(auto, unfolding(crate::specs::TableClauses::other_dynsym))]
fn other_dynsym(tags: &[Tag], sections: &[Section]) -> bool
    ensures { result ≡ spec.other_dynsym tags.now sections.now }
{
    count_dynsym(sections) != 1 || any_misplaced(value(tags, DT_SYMTAB), sections)
}

#[tactic(auto, unfolding(crate::specs::TableClauses::any_lost))]
fn any_lost(tags: &[Tag], sections: &[Section]) -> bool
    ensures { result ≡ spec.any_lost tags.now sections.now }
{
    is_lost(tags, sections, DT_HASH)
        || is_lost(tags, sections, DT_GNU_HASH)
        || is_lost(tags, sections, DT_VERSYM)
        || is_lost(tags, sections, DT_VERDEF)
        || is_lost(tags, sections, DT_VERNEED)
}

fn any_not_in_file(segments: &[Segment], ranges: &[Window]) -> bool
    ensures { result ≡ list_any (λ w. not (part.in_file_part segments.now w)) ranges.now }
{
    ranges.iter().any(|memory| !in_file_part(segments, *memory))
}

#[tactic(auto, unfolding(crate::specs::TableClauses::any_table_outside))]
fn any_table_outside(segments: &[Segment], sections: &[Section], tags: &[Tag]) -> bool
    ensures { result ≡ spec.any_table_outside segments.now sections.now tags.now }
{
    any_lost(tags, sections) || any_not_in_file(segments, &tables_memory(tags, sections))
}

#[tactic(auto, unfolding(crate::specs::TableClauses::tables_overlap))]
fn tables_overlap(
    alloc: Global,
    header: &Header,
    segments: &[Segment],
    sections: &[Section],
    tags: &[Tag],
) -> Result<bool, AllocError>
    ensures { IfOk result (λ b. b ≡ spec.tables_overlap header.now segments.now sections.now
        tags.now) }
{
    let windows = main_windows(alloc, header, segments, sections, tags)?;
    Ok(any_share(windows))
}

/// Clause 12.
#[tactic(auto, unfolding(crate::specs::TableClauses::bad_tables))]
fn bad_tables(
    alloc: Global,
    header: &Header,
    segments: &[Segment],
    sections: &[Section],
    tags: &[Tag],
) -> Result<bool, AllocError>
    ensures { IfOk result (λ b. b ≡ spec.bad_tables header.now segments.now sections.now tags.now) }
{
    let overlap = tables_overlap(alloc, header, segments, sections, tags)?;
    Ok(
        lacks_tags(tags)
            || other_dynsym(tags, sections)
            || any_table_outside(segments, sections, tags)
            || overlap,
    )
}

fn parted(tags: &[Tag], x: u64, y: u64) -> bool
    ensures { result ≡ spec.parted x y tags.now }
{
    if has_tag(tags, x) {
        !has_tag(tags, y)
    } else {
        has_tag(tags, y)
    }
}

fn is_other(tags: &[Tag], number: u64, wanted: u64) -> bool
    ensures { result ≡ spec.is_other number wanted tags.now }
{
    has_tag(tags, number) && value(tags, number) != wanted
}

fn is_uneven(tags: &[Tag], number: u64) -> bool
    ensures { result ≡ spec.is_uneven number tags.now }
{
    value(tags, number) % RELA_SIZE as u64 != 0
}

#[tactic(auto, unfolding(crate::specs::TableClauses::bad_rela))]
fn bad_rela(tags: &[Tag]) -> bool
    ensures { result ≡ spec.bad_rela tags.now }
{
    parted(tags, DT_RELA, DT_RELASZ)
        || parted(tags, DT_RELA, DT_RELAENT)
        || is_other(tags, DT_RELAENT, RELA_SIZE as u64)
        || is_uneven(tags, DT_RELASZ)
}

#[tactic(auto, unfolding(crate::specs::TableClauses::bad_jmprel))]
fn bad_jmprel(tags: &[Tag]) -> bool
    ensures { result ≡ spec.bad_jmprel tags.now }
{
    parted(tags, DT_JMPREL, DT_PLTRELSZ)
        || parted(tags, DT_JMPREL, DT_PLTREL)
        || is_other(tags, DT_PLTREL, DT_RELA)
        || is_uneven(tags, DT_PLTRELSZ)
}

/// Clause 13.
#[tactic(auto, unfolding(crate::specs::TableClauses::bad_relocation_tables))]
fn bad_relocation_tables(tags: &[Tag]) -> bool
    ensures { result ≡ spec.bad_relocation_tables tags.now }
{
    bad_rela(tags) || bad_jmprel(tags)
}

#[tactic(auto, unfolding(crate::specs::TableClauses::bad_relr_tags))]
fn bad_relr_tags(tags: &[Tag]) -> bool
    ensures { result ≡ spec.bad_relr_tags tags.now }
{
    parted(tags, DT_RELR, DT_RELRSZ)
        || parted(tags, DT_RELR, DT_RELRENT)
        || is_other(tags, DT_RELRENT, RELR_SIZE as u64)
}

fn meets(tables: &[Window], window: Window) -> bool
    ensures { result ≡ spec.meets tables.now window }
{
    tables.iter().any(|table| window.shares(table))
}

#[tactic(auto, unfolding(crate::specs::TableClauses::misplaced_relr))]
fn misplaced_relr(
    alloc: Global,
    header: &Header,
    segments: &[Segment],
    sections: &[Section],
    tags: &[Tag],
) -> Result<bool, AllocError>
    ensures { IfOk result (λ b. b ≡ spec.misplaced_relr header.now segments.now sections.now
        tags.now) }
{
    let memory = relr_memory(tags);
    let main = main_windows(alloc, header, segments, sections, tags)?;
    Ok(!in_file_part(segments, memory) || meets(&main, file_window(segments, memory)))
}

/// The bytes of the packed relocations.
pub fn relr_table<'a>(bytes: &'a [u8], segments: &[Segment], tags: &[Tag]) -> &'a [u8]
    ensures table { result.now ≡ spec.relr_table bytes.now segments.now tags.now }
    ensures within { length result.now ≤ length bytes.now }
{
    loaded(bytes, segments, relr_memory(tags))
}

#[tactic(auto, unfolding(crate::specs::TableClauses::bad_relr_table))]
fn bad_relr_table(
    alloc: Global,
    bytes: &[u8],
    segments: &[Segment],
    tags: &[Tag],
) -> Result<bool, AllocError>
    requires { length bytes.now < 2 ^ 32 }
    ensures { IfOk result (λ b. b ≡ spec.bad_relr_table bytes.now segments.now tags.now) }
{
    let table = relr_table(bytes, segments, tags);
    match unpack(alloc, table, (bytes.len() / RELR_SIZE) as u64) {
        Ok(_) => Ok(false),
        Err(RelrFault::Packed) => Ok(true),
        Err(RelrFault::NoMemory) => Err(AllocError),
    }
}

/// Clause 14.
#[tactic(auto, unfolding(crate::specs::TableClauses::bad_packed))]
fn bad_packed(
    alloc: Global,
    bytes: &[u8],
    header: &Header,
    segments: &[Segment],
    sections: &[Section],
    tags: &[Tag],
) -> Result<bool, AllocError>
    requires { length bytes.now < 2 ^ 32 }
    ensures { IfOk result (λ b. b ≡ spec.bad_packed bytes.now header.now segments.now sections.now
        tags.now) }
{
    if bad_relr_tags(tags) || misplaced_relr(alloc, header, segments, sections, tags)? {
        return Ok(true);
    }
    bad_relr_table(alloc, bytes, segments, tags)
}

/// The first of clauses 12 to 14 that refuses the file.
#[tactic(auto, unfolding(crate::specs::TableClauses::check_tables))]
pub fn check_tables(
    alloc: Global,
    bytes: &[u8],
    header: &Header,
    segments: &[Segment],
    sections: &[Section],
    tags: &[Tag],
) -> Result<(), Refusal>
    requires { length bytes.now < 2 ^ 32 }
    ensures { Answers is_memory result (spec.check_tables bytes.now header.now segments.now
        sections.now tags.now) }
{
    if bad_tables(alloc, header, segments, sections, tags)? {
        return Err(Refusal::clause(12));
    }
    if bad_relocation_tables(tags) {
        return Err(Refusal::clause(13));
    }
    if bad_packed(alloc, bytes, header, segments, sections, tags)? {
        return Err(Refusal::clause(14));
    }
    Ok(())
}
