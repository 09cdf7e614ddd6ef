// The points of the definition of a position-independent program that can be fixed: its mark and its layout.
ghost use Rattle.std.specs.Prelude.{◌≡◌, ◌&&◌, ◌<◌, ◌≤◌, ◌^◌, drop, false, length, map, take, slice_get, IfOk};
ghost use Rattle.pl_elf.specs.Kinds as kinds;
ghost use Rattle.pl_object.specs.Accepted.{Accepted};
ghost use Rattle.pl_object.specs.Reads as reads;
ghost use Rattle.pl_object.specs.SymbolClauses.{base_not_zero};
ghost use Rattle.pl_object.specs.Tables as tables;
ghost use Rattle.pl_pie.specs.Pie as spec;

use crate::constants::{HASH_AND_VERSION_TABLES, HASH_TABLE, TYPE_AT, TYPE_SIZE};
use crate::meets::{meets, others_meet, tables_meet};
use crate::words::other_words;
use pl_dyn::constants::{DF_1_PIE, DT_FLAGS_1, DT_SONAME};
use pl_dyn::{Tag, read_tags};
use pl_elf::constants::{ET_DYN, HEADER_SIZE, PAGE, PT_INTERP, PT_LOAD, SHF_ALLOC, SHT_DYNSYM};
use pl_elf::{Header, Range, Section, Segment, header_fields, segment_of_kind};
use pl_object::tables::sections_window;
use pl_object::tags::{dynamic_memory, has_tag, value};
use pl_object::{Object, Window, loaded, range_window, strings_of};
use std::alloc::{AllocError, Global};

// ---- the file tells that it is a program

#[tactic(auto, unfolding(pl_object::specs::Reads::is_pie))]
fn is_pie_by(header: &Header, segments: &[Segment], tags: &[Tag]) -> bool
    ensures { result ≡ reads.is_pie header.now segments.now tags.now }
{
    header.kind == ET_DYN
        && (value(tags, DT_FLAGS_1) & DF_1_PIE != 0
            || segment_of_kind(segments, PT_INTERP).is_some() && !has_tag(tags, DT_SONAME))
}

/// Whether it is an ET_DYN whose flags or segments tell that it is a program. `program` are the same bytes with the type of a program.
#[tactic(auto, unfolding(crate::specs::Pie::is_marked))]
pub fn is_marked(
    alloc: Global,
    bytes: &[u8],
    program: &[u8],
    object: &Object,
) -> Result<bool, AllocError>
    requires long { HEADER_SIZE ≤ length bytes.now }
    requires few { length program.now < 2 ^ 32 }
    requires program { program.now ≡ spec.as_program bytes.now }
    ensures { IfOk result (λ b. b ≡ spec.is_marked bytes.now object.now) }
{
    let segments = object.segments.as_slice();
    let tags = read_tags(alloc, loaded(program, segments, dynamic_memory(segments)))?;
    Ok(is_pie_by(&header_fields(bytes), segments, &tags))
}

// ---- the layout of the file

#[tactic(auto, unfolding(pl_object::specs::SymbolClauses::base_not_zero))]
fn begins_above(segments: &[Segment]) -> bool
    ensures { result ≡ base_not_zero false segments.now }
{
    match segment_of_kind(segments, PT_LOAD) {
        None => false,
        Some(segment) => segment.vaddr / PAGE != 0,
    }
}

fn is_loaded_dynsym(section: &Section) -> bool
    ensures { result ≡ (tables.has_kind SHT_DYNSYM section.now && tables.is_allocated section.now) }
{
    section.kind == SHT_DYNSYM && section.flags & SHF_ALLOC != 0
}

#[tactic(auto, unfolding(crate::specs::Pie::has_loaded_symbols))]
fn has_loaded_symbols(object: &Object) -> bool
    ensures { result ≡ spec.has_loaded_symbols object.now }
{
    object.sections.as_slice().iter().any(is_loaded_dynsym)
}

fn loads_window(window: Window, segment: &Segment) -> bool
    ensures { result ≡ spec.loads_window window segment.now }
{
    let file = Window::new(u128::from(segment.offset), segment.filesz);
    segment.is_load() && window.shares(&file)
}

#[tactic(auto, unfolding(crate::specs::Pie::loads_sections))]
fn loads_sections(object: &Object) -> bool
    ensures { result ≡ spec.loads_sections object.now }
{
    let table = sections_window(&object.header);
    object
        .segments
        .as_slice()
        .iter()
        .any(|segment| loads_window(table, segment))
}

// ---- what is read by name

fn hash_and_version_tables(tables: &[Range]) -> &[Range]
    ensures { result.now ≡ take HASH_AND_VERSION_TABLES (drop HASH_TABLE tables.now) }
{
    let rest = &tables[HASH_TABLE.min(tables.len())..];
    &rest[..HASH_AND_VERSION_TABLES.min(rest.len())]
}

#[tactic(auto, unfolding(crate::specs::Pie::named_windows))]
fn named_windows(alloc: Global, object: &Object) -> Result<Vec<Window>, AllocError>
    ensures { IfOk result (λ v. v.items ≡ spec.named_windows object.now) }
{
    hash_and_version_tables(object.tables.as_slice())
        .iter()
        .map(|range| range_window(range))
        .collect(alloc)
}

fn section_window(section: &Section) -> Window
    ensures { result ≡ tables.section_window section.now }
{
    Window::new(u128::from(section.offset), section.size)
}

fn names_windows(
    alloc: Global,
    sections: &[Section],
    index: usize,
) -> Result<Vec<Window>, AllocError>
    ensures { IfOk result (λ v. v.items ≡ spec.window_if (slice_get sections.now index)) }
{
    match sections.get(index) {
        None => Ok(Vec::new(alloc)),
        Some(names) => Ok(Vec::from_array(alloc, [section_window(names)])?),
    }
}

#[tactic(auto, unfolding(crate::specs::Pie::kept_windows))]
fn kept_windows(alloc: Global, object: &Object) -> Result<Vec<Window>, AllocError>
    ensures { IfOk result (λ v. v.items ≡ spec.kept_windows object.now) }
{
    let mut windows = Vec::from_array(alloc, [strings_of(object)])?;
    windows.extend_from_slice(&named_windows(alloc, object)?)?;
    let index = usize::from(object.header.shstrndx);
    let names = names_windows(alloc, object.sections.as_slice(), index)?;
    windows.extend_from_slice(&names)?;
    Ok(windows)
}

#[tactic(auto, using(crate::proofs::CallLaws::symbols_small), unfolding(crate::specs::Pie::writes_kept, crate::specs::Words::others_meet))]
fn writes_kept(
    alloc: Global,
    bytes: &[u8],
    program: &[u8],
    object: &Object,
) -> Result<bool, AllocError>
    requires program { program.now ≡ spec.as_program bytes.now }
    requires accepted { Accepted program.now object.now }
    requires dynamic { kinds.is_static object.now.kind ≡ false }
    requires few { length program.now < 2 ^ 32 }
    ensures { IfOk result (λ b. b ≡ spec.writes_kept bytes.now object.now) }
{
    let kept = kept_windows(alloc, object)?;
    let words = other_words(alloc, object)?;
    let kind = Window::new(TYPE_AT as u128, TYPE_SIZE as u64);
    if meets(&kept, kind) || tables_meet(&kept, program, object) {
        return Ok(true);
    }
    Ok(others_meet(&kept, &words))
}

/// Whether its first PT_LOAD begins in page 0, its dynamic symbol table is loaded, its section header table is not, and nothing that is written where it is fixed shares a byte with its strings, hash tables, version tables or section names.
#[tactic(auto, unfolding(crate::specs::Pie::is_laid_out, crate::specs::Pie::begins_low))]
pub fn is_laid_out(
    alloc: Global,
    bytes: &[u8],
    program: &[u8],
    object: &Object,
) -> Result<bool, AllocError>
    requires program { program.now ≡ spec.as_program bytes.now }
    requires accepted { Accepted program.now object.now }
    requires dynamic { kinds.is_static object.now.kind ≡ false }
    requires few { length program.now < 2 ^ 32 }
    ensures { IfOk result (λ b. b ≡ spec.is_laid_out bytes.now object.now) }
{
    if begins_above(object.segments.as_slice())
        || !has_loaded_symbols(object)
        || loads_sections(object)
    {
        return Ok(false);
    }
    Ok(!writes_kept(alloc, bytes, program, object)?)
}
