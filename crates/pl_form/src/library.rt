// The plan of a library's form.
ghost use Rattle.std.specs.Prelude.{◌≡◌, ◌+◌, ◌*◌, ◌<◌, ◌≤◌, ◌^◌, ◌++◌, ◌∷◌, [], length, map, IfOk};
ghost use Rattle.pl_base.specs.Bytes.{put};
ghost use Rattle.pl_move.specs.Moves.{row_moved, rows};
ghost use Rattle.pl_move.specs.declared.kind.RowKind.TheVariants.{TagValue};
ghost use Rattle.pl_form.specs.Parts as parts;
ghost use Rattle.pl_object.specs.Accepted.{HasHead};
ghost use Rattle.pl_form.specs.Extending.{HasNames};
ghost use Rattle.pl_form.specs.Library.{IsMovable};
ghost use Rattle.pl_form.specs.Originals.{original};
ghost use Rattle.pl_form.specs.Tables.{tables_of};

use crate::bytes::{plain, push_entry, put_bytes, up};
use crate::section_names::{LIBLIST_NAME, LIBSTR_NAME};
use crate::write::old_names;
use crate::{FormPlan, FormTables, Layout, Listed, Mark, plan_of};
use pl_base::{Rows, part};
use pl_dyn::constants::{DT_CHECKSUM, DT_GNU_PRELINKED};
use pl_elf::constants::{SHF_ALLOC, SHT_GNU_LIBLIST, SHT_STRTAB};
use pl_elf::{Section, Segment, is_moved_kind};
use pl_move::{RowKind, move_rows};
use pl_object::Object;
use std::alloc::{AllocError, Global};

fn moved_segment(slot: u64, segment: &Segment) -> Segment
    ensures { result ≡ parts.moved_segment slot segment.now }
{
    let mut moved = *segment;
    if is_moved_kind(segment.kind) {
        moved.vaddr = segment.vaddr.wrapping_add(slot);
        moved.paddr = segment.paddr.wrapping_add(slot);
    }
    moved
}

/// The program headers, each address moved.
fn moved_segments(
    alloc: Global,
    slot: u64,
    segments: &[Segment],
) -> Result<Vec<Segment>, AllocError>
    ensures { IfOk result (λ v. v.items ≡ map (parts.moved_segment slot) segments.now) }
{
    segments
        .iter()
        .map(|segment| moved_segment(slot, segment))
        .collect(alloc)
}

fn moved_section(slot: u64, section: &Section) -> Section
    ensures { result ≡ parts.moved_section slot section.now }
{
    let mut moved = *section;
    if section.flags & SHF_ALLOC != 0 {
        moved.addr = section.addr.wrapping_add(slot);
    }
    moved
}

/// The section headers, each address moved.
fn moved_sections(
    alloc: Global,
    slot: u64,
    sections: &[Section],
) -> Result<Vec<Section>, AllocError>
    ensures { IfOk result (λ v. v.items ≡ map (parts.moved_section slot) sections.now) }
{
    sections
        .iter()
        .map(|section| moved_section(slot, section))
        .collect(alloc)
}

/// The dynamic table moved, up to the first entry of tag DT_NULL.
fn moved_table(alloc: Global, slot: u64, tags: usize, table: &[u8]) -> Result<Vec<u8>, AllocError>
    requires { 16 * tags ≤ length table.now }
    ensures { IfOk result (λ v. v.items ≡ rows 16 (row_moved slot TagValue) tags table.now) }
{
    let mut moved = Vec::from_slice(alloc, table)?;
    move_rows(&mut moved, RowKind::TagValue, tags, slot);
    Ok(moved)
}

/// The two entries of a library's form.
fn library_entries(alloc: Global, mark: &Mark) -> Result<Vec<u8>, AllocError>
    ensures { IfOk result (λ v. v.items ≡ parts.library_entries mark.now.stamp mark.now.checksum) }
{
    let mut entries = Vec::new(alloc);
    push_entry(&mut entries, DT_GNU_PRELINKED, u64::from(mark.stamp))?;
    push_entry(&mut entries, DT_CHECKSUM, u64::from(mark.checksum))?;
    Ok(entries)
}

/// The new dynamic table: moved, with the stamp and the checksum in place of the first two entries of tag DT_NULL.
fn library_table(
    alloc: Global,
    mark: &Mark,
    tags: usize,
    table: &[u8],
) -> Result<Vec<u8>, AllocError>
    requires { 16 * tags + 32 ≤ length table.now }
    ensures { IfOk result (λ v. v.items ≡ put (16 * tags)
        (parts.library_entries mark.now.stamp mark.now.checksum)
        (rows 16 (row_moved mark.now.slot TagValue) tags table.now)) }
{
    let mut moved = moved_table(alloc, mark.slot, tags, table)?;
    let entries = library_entries(alloc, mark)?;
    put_bytes(&mut moved, 16 * tags, &entries);
    Ok(moved)
}

/// The sections of the list's strings and of the list, behind a file and sections of so many bytes and rows, and names of so many bytes.
fn list_sections(listed: &Listed, file: usize, rows: usize, names: usize) -> [Section; 2]
    requires file { file < 2 ^ 32 }
    requires rows { rows < 2 ^ 16 }
    requires names { names + 100 < 2 ^ 32 }
    requires strings { length listed.now.strings < 2 ^ 32 }
    ensures { result ≡ parts.list_sections listed.now file rows names }
{
    let at = up(file);
    let strings = listed.strings.len();
    let list = plain(
        names + 12,
        SHT_GNU_LIBLIST,
        up(at + strings),
        listed.rows.len(),
    );
    [
        plain(names, SHT_STRTAB, at, strings),
        Section {
            link: rows as u32,
            entsize: 20,
            ..list
        },
    ]
}

/// The new section header table up to the section of the list: the original's rows moved, then the list's.
fn library_sections(
    alloc: Global,
    bytes: &[u8],
    object: &Object,
    slot: u64,
    listed: &Listed,
) -> Result<Vec<Section>, AllocError>
    requires few { length bytes.now + 100 < 2 ^ 32 }
    requires strings { length listed.now.strings < 2 ^ 32 }
    requires rows { length object.now.sections < 2 ^ 16 }
    requires names { HasNames bytes.now }
    ensures { IfOk result (λ v. let old = map (parts.moved_section slot) object.now.sections in
        v.items ≡ old ++ parts.list_sections listed.now (length bytes.now) (length old)
        (length (parts.old_names bytes.now))) }
{
    let mut sections = moved_sections(alloc, slot, object.sections.as_slice())?;
    let new = list_sections(listed, bytes.len(), sections.len(), old_names(bytes).len());
    sections.extend_from_slice(&new)?;
    Ok(sections)
}

/// The names of the sections that a library's form adds before its undo section.
fn library_names(alloc: Global) -> Result<Vec<u8>, AllocError>
    ensures { IfOk result (λ v. v.items ≡ LIBSTR_NAME ++ LIBLIST_NAME) }
{
    let mut names = Vec::from_slice(alloc, &LIBSTR_NAME)?;
    names.extend_from_slice(&LIBLIST_NAME)?;
    Ok(names)
}

/// The new tables of a library's form.
#[tactic(auto, unfolding(crate::specs::Parts::library_plan, crate::specs::Parts::library_dynamic, crate::specs::Parts::library_sections, crate::specs::Parts::with_entries))]
fn library_tables(
    alloc: Global,
    bytes: &[u8],
    object: &Object,
    layout: &Layout,
    mark: &Mark,
    listed: &Listed,
) -> Result<FormTables, AllocError>
    requires head { HasHead bytes.now object.now }
    requires library { IsMovable bytes.now object.now layout.now }
    requires strings { length listed.now.strings < 2 ^ 32 }
    ensures { IfOk result (λ t. t ≡ tables_of (parts.library_plan (original bytes.now layout.now)
        mark.now.slot mark.now.stamp mark.now.checksum listed.now)) }
{
    let table = part(bytes, layout.dynamic.at(), layout.dynamic.size());
    let sections = library_sections(alloc, bytes, object, mark.slot, listed)?;
    let segments = moved_segments(alloc, mark.slot, object.segments.as_slice())?;
    let dynamic = library_table(alloc, mark, layout.tags as usize, table)?;
    let names = library_names(alloc)?;
    Ok(FormTables {
        segments: Rows::from_vec(segments),
        dynamic: Rows::from_vec(dynamic),
        sections: Rows::from_vec(sections),
        names: Rows::from_vec(names),
    })
}

/// The parts of a library's list.
fn list_parts(alloc: Global, listed: Listed) -> Result<Rows<Rows<u8>>, AllocError>
    ensures { IfOk result (λ all. all ≡ listed.strings ∷ listed.rows ∷ []) }
{
    let Listed { strings, rows } = listed;
    let all = Vec::from_array(alloc, [strings, rows])?;
    Ok(Rows::from_vec(all))
}

/// The plan of a library's form.
pub fn library_plan(
    alloc: Global,
    bytes: &[u8],
    object: &Object,
    layout: &Layout,
    mark: &Mark,
    listed: Listed,
) -> Result<FormPlan, AllocError>
    requires head { HasHead bytes.now object.now }
    requires library { IsMovable bytes.now object.now layout.now }
    requires strings { length listed.strings < 2 ^ 32 }
    ensures { IfOk result (λ plan. plan ≡ parts.library_plan (original bytes.now layout.now)
        mark.now.slot mark.now.stamp mark.now.checksum listed) }
{
    let tables = library_tables(alloc, bytes, object, layout, mark, &listed)?;
    let parts = list_parts(alloc, listed)?;
    let cut = bytes.len();
    Ok(plan_of(mark.slot, cut, Rows::new(alloc), tables, parts))
}
