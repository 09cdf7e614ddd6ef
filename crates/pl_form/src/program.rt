// The plan of a program's form.
ghost use Rattle.std.specs.Prelude.{◌≡◌, ◌+◌, ◌*◌, ◌<◌, ◌≤◌, ◌^◌, ◌++◌, length, map, IfOk};
ghost use Rattle.pl_move.specs.Moves.{rows};
ghost use Rattle.pl_object.specs.Accepted.{HasHead};
ghost use Rattle.pl_form.specs.Back as back;
ghost use Rattle.pl_form.specs.Parts as parts;
ghost use Rattle.pl_form.specs.Extending as spec;
ghost use Rattle.pl_form.specs.Extending.{IsShort, AreShort, LieInZeros, IsExtended};
ghost use Rattle.pl_form.specs.Originals.{original};
ghost use Rattle.pl_form.specs.Tables as tables;

use crate::bytes::{plain, push_entry, put_bytes};
use crate::extension::{conflicts_at, extension, extension_at, rows_at, whole_extension};
use crate::section_names::{CONFLICT_NAME, LIBLIST_NAME, LIBSTR_NAME};
use crate::write::old_names;
use crate::{Extension, FormPlan, FormTables, Layout, Spot, plan_of};
use pl_base::{Rows, end, part, put64, word64};
use pl_dyn::constants::{
    DT_GNU_CONFLICT, DT_GNU_CONFLICTSZ, DT_GNU_LIBLIST, DT_GNU_LIBLISTSZ, DT_STRSZ, DT_STRTAB,
    ENTRY_SIZE,
};
use pl_elf::constants::{
    SHF_ALLOC, SHF_TLS, SHT_GNU_LIBLIST, SHT_NOBITS, SHT_PROGBITS, SHT_RELA, SHT_STRTAB,
};
use pl_elf::{Section, Segment};
use pl_lists::{CONFLICT_SIZE, LIST_ROW_SIZE};
use pl_object::Object;
use std::alloc::{AllocError, Global};

/// What the bytes from an offset of the file on move by.
#[derive(Clone, Copy)]
pub struct Shift {
    /// The file offset from which bytes are inserted.
    pub cut: u64,

    /// How many.
    pub size: u64,
}

/// A segment other than the last PT_LOAD: what follows cut in the file moves.
fn shifted_segment(shift: Shift, segment: &Segment) -> Segment
    ensures { result ≡ spec.segment_shifted_by shift segment.now }
{
    let mut shifted = *segment;
    if segment.filesz > 0 && shift.cut <= segment.offset {
        shifted.offset = segment.offset.wrapping_add(shift.size);
    }
    shifted
}

fn shifted_segments(
    alloc: Global,
    shift: Shift,
    segments: &[Segment],
) -> Result<Vec<Segment>, AllocError>
    ensures { IfOk result (λ v. v.items ≡ map (spec.segment_shifted_by shift) segments.now) }
{
    segments
        .iter()
        .map(|segment| shifted_segment(shift, segment))
        .collect(alloc)
}

/// The last PT_LOAD of a program, and its index.
#[derive(Clone, Copy)]
pub struct Last {
    pub index: usize,
    pub segment: Segment,
}

/// The program headers: the last PT_LOAD goes up to the end of the conflicts.
fn program_segments(
    alloc: Global,
    shift: Shift,
    more: u64,
    last: &Last,
    segments: &[Segment],
) -> Result<Vec<Segment>, AllocError>
    requires index { last.now.index < length segments.now }
    requires short { IsShort last.now.segment }
    requires room { more < 2 ^ 32 }
    ensures { IfOk result (λ v. v.items ≡ spec.split_segments shift more last.now segments.now) }
{
    let size = last.segment.filesz + more;
    let mut all = shifted_segments(alloc, shift, &segments[..last.index])?;
    all.push(Segment {
        filesz: size,
        memsz: size,
        ..last.segment
    })?;
    all.extend_from_slice(&shifted_segments(alloc, shift, &segments[last.index + 1..])?)?;
    Ok(all)
}

/// Whether a section's bytes are zeros that the last PT_LOAD of the form has in the file.
fn is_grown(last: &Segment, section: &Section) -> bool
    ensures { result ≡ parts.is_grown last.now section.now }
{
    section.kind == SHT_NOBITS
        && section.size > 0
        && section.flags & SHF_ALLOC != 0
        && section.flags & SHF_TLS == 0
        && end(last.vaddr, last.filesz) <= u128::from(section.addr)
        && end(section.addr, section.size) <= end(last.vaddr, last.memsz)
}

/// A section: zeros of the last PT_LOAD become its bytes, and what follows cut in the file moves.
fn program_section(shift: Shift, last: &Segment, section: &Section) -> Section
    requires { IsShort last.now }
    ensures { result ≡ spec.section_shifted_by shift last.now section.now }
{
    let mut new = *section;
    if is_grown(last, section) {
        new.kind = SHT_PROGBITS;
        new.offset = last.offset + (section.addr - last.vaddr);
    } else if section.kind != SHT_NOBITS && shift.cut <= section.offset {
        new.offset = section.offset.wrapping_add(shift.size);
    }
    new
}

fn old_sections(
    alloc: Global,
    shift: Shift,
    last: &Segment,
    sections: &[Section],
) -> Result<Vec<Section>, AllocError>
    requires { IsShort last.now }
    ensures { IfOk result (λ v. v.items ≡ map (spec.section_shifted_by shift last.now)
        sections.now) }
{
    sections
        .iter()
        .map(|section| program_section(shift, last, section))
        .collect(alloc)
}

/// A new section that the last PT_LOAD loads.
fn loaded_section(last: &Segment, name: usize, kind: u32, address: u64, size: usize) -> Section
    requires last { IsShort last.now }
    requires name { name < 2 ^ 32 }
    requires from { last.now.vaddr ≤ address }
    requires address { address < 2 ^ 48 }
    ensures { result ≡ parts.loaded_section last.now name kind address size }
{
    let at = last.offset + (address - last.vaddr);
    Section {
        flags: SHF_ALLOC,
        addr: address,
        ..plain(name, kind, at as usize, size)
    }
}

/// The sections of the strings, of the list and of the conflicts, behind so many sections and bytes of names.
fn new_sections(last: &Segment, lists: &Extension, rows: usize, names: usize) -> [Section; 3]
    requires last { IsShort last.now }
    requires lists { AreShort lists.now }
    requires rows { rows < 2 ^ 16 }
    requires names { names + 100 < 2 ^ 32 }
    ensures { result ≡ spec.new_sections last.now lists.now rows names }
{
    let strings = lists.strings.len();
    let list = loaded_section(
        last,
        names + LIBSTR_NAME.len(),
        SHT_GNU_LIBLIST,
        rows_at(last, lists),
        lists.rows.len(),
    );
    let conflicts = loaded_section(
        last,
        names + LIBSTR_NAME.len() + LIBLIST_NAME.len(),
        SHT_RELA,
        conflicts_at(last, lists),
        lists.conflicts.len(),
    );
    [
        loaded_section(last, names, SHT_STRTAB, extension_at(last), strings),
        Section {
            link: rows as u32,
            entsize: LIST_ROW_SIZE as u64,
            ..list
        },
        Section {
            entsize: CONFLICT_SIZE as u64,
            ..conflicts
        },
    ]
}

/// The new section header table up to the section of the conflicts, behind names of so many bytes.
fn program_sections(
    alloc: Global,
    old: &[Section],
    names: usize,
    last: &Segment,
    shift: Shift,
    lists: &Extension,
) -> Result<Vec<Section>, AllocError>
    requires old { length old.now < 2 ^ 16 }
    requires names { names + 100 < 2 ^ 32 }
    requires last { IsShort last.now }
    requires lists { AreShort lists.now }
    ensures { IfOk result (λ v. v.items ≡ spec.all_sections names old.now last.now shift
        lists.now) }
{
    let mut sections = old_sections(alloc, shift, last, old)?;
    let new = new_sections(last, lists, old.len(), names);
    sections.extend_from_slice(&new)?;
    Ok(sections)
}

/// Puts a value under a tag.
fn set_value(row: &mut [u8], number: u64, value: u64)
    requires { length row.old ≡ ENTRY_SIZE }
    ensures { row.new ≡ parts.with_tag number value row.old }
{
    if word64(row, 0) == number {
        put64(row, 0, number);
        put64(row, 8, value);
    }
}

/// Puts the address and the size of the form's strings under their tags.
fn set_strings(row: &mut [u8], address: u64, size: u64)
    requires { length row.old ≡ ENTRY_SIZE }
    ensures { row.new ≡ spec.with_strings address size row.old }
{
    set_value(row, DT_STRTAB, address);
    set_value(row, DT_STRSZ, size);
}

/// Names the strings of the form in so many of the first entries.
fn name_strings(table: &mut [u8], tags: usize, address: u64, size: u64)
    requires { ENTRY_SIZE * tags ≤ length table.old }
    ensures { table.new ≡ rows ENTRY_SIZE (spec.with_strings address size) tags table.old }
{
    for index in 0..tags {
        let at = ENTRY_SIZE * index;
        set_strings(&mut table[at..at + ENTRY_SIZE], address, size);
    }
}

/// The four entries of a program's form.
fn program_entries(alloc: Global, last: &Segment, lists: &Extension) -> Result<Vec<u8>, AllocError>
    requires last { IsShort last.now }
    requires lists { AreShort lists.now }
    ensures { IfOk result (λ v. v.items ≡ spec.program_entries last.now lists.now) }
{
    let mut entries = Vec::new(alloc);
    push_entry(&mut entries, DT_GNU_LIBLIST, rows_at(last, lists))?;
    push_entry(&mut entries, DT_GNU_LIBLISTSZ, lists.rows.len() as u64)?;
    push_entry(&mut entries, DT_GNU_CONFLICT, conflicts_at(last, lists))?;
    push_entry(
        &mut entries,
        DT_GNU_CONFLICTSZ,
        lists.conflicts.len() as u64,
    )?;
    Ok(entries)
}

/// The new dynamic table: so many of the first entries with the strings of the form, and the list and the conflicts in place of the first four entries of tag DT_NULL.
fn program_table(
    alloc: Global,
    last: &Segment,
    lists: &Extension,
    tags: usize,
    table: &[u8],
) -> Result<Vec<u8>, AllocError>
    requires last { IsShort last.now }
    requires lists { AreShort lists.now }
    requires spare { ENTRY_SIZE * tags + 64 ≤ length table.now }
    ensures { IfOk result (λ v. v.items ≡ spec.program_table last.now lists.now tags table.now) }
{
    let mut table = Vec::from_slice(alloc, table)?;
    let size = lists.strings.len() as u64;
    name_strings(&mut table, tags, extension_at(last), size);
    let entries = program_entries(alloc, last, lists)?;
    put_bytes(&mut table, ENTRY_SIZE * tags, &entries);
    Ok(table)
}

/// The names of the sections that a program's form adds before its undo section.
fn program_names(alloc: Global) -> Result<Vec<u8>, AllocError>
    ensures { IfOk result (λ v. v.items ≡ LIBSTR_NAME ++ (LIBLIST_NAME ++ CONFLICT_NAME)) }
{
    let mut names = Vec::from_slice(alloc, &LIBSTR_NAME)?;
    names.extend_from_slice(&LIBLIST_NAME)?;
    names.extend_from_slice(&CONFLICT_NAME)?;
    Ok(names)
}

/// What is inserted behind the file bytes of the last PT_LOAD.
#[derive(Drop)]
pub struct Insertion {
    /// Its bytes.
    pub bytes: Rows<u8>,

    /// How many of them belong to the last PT_LOAD.
    pub grown: u64,
}

/// What is inserted behind the file bytes of the last PT_LOAD.
fn inserted(
    alloc: Global,
    last: &Segment,
    spots: &[Spot],
    flat: &[u8],
    lists: &Extension,
) -> Result<Insertion, AllocError>
    requires last { IsShort last.now }
    requires spots { LieInZeros last.now spots.now }
    ensures { IfOk result (λ more. more ≡ tables.inserted last.now spots.now flat.now lists.now) }
{
    let block = extension(alloc, last, spots, flat, lists)?;
    let grown = block.len() as u64;
    let bytes = whole_extension(block)?;
    Ok(Insertion {
        bytes: Rows::from_vec(bytes),
        grown,
    })
}

/// The new tables of a program's form.
fn program_tables(
    alloc: Global,
    bytes: &[u8],
    object: &Object,
    layout: &Layout,
    last: &Last,
    more: &Insertion,
    lists: &Extension,
) -> Result<FormTables, AllocError>
    requires few { length bytes.now + 100 < 2 ^ 32 }
    requires program { IsExtended bytes.now object.now layout.now last.now }
    requires room { more.now.grown < 2 ^ 32 }
    requires lists { AreShort lists.now }
    ensures { IfOk result (λ t. t ≡ tables.program_tables bytes.now object.now layout.now last.now
        more.now lists.now) }
{
    let segment = &last.segment;
    let shift = Shift {
        cut: segment.offset + segment.filesz,
        size: more.bytes.len() as u64,
    };
    let segments = program_segments(alloc, shift, more.grown, last, object.segments.as_slice())?;
    let names = old_names(bytes).len();
    let old = object.sections.as_slice();
    let sections = program_sections(alloc, old, names, segment, shift, lists)?;
    let table = part(bytes, layout.dynamic.at(), layout.dynamic.size());
    let dynamic = program_table(alloc, segment, lists, layout.tags as usize, table)?;
    let new = program_names(alloc)?;
    Ok(FormTables {
        segments: Rows::from_vec(segments),
        dynamic: Rows::from_vec(dynamic),
        sections: Rows::from_vec(sections),
        names: Rows::from_vec(new),
    })
}

/// The plan of a program's form.
pub fn program_plan(
    alloc: Global,
    bytes: &[u8],
    object: &Object,
    layout: &Layout,
    last: &Last,
    flat: &[u8],
    lists: &Extension,
) -> Result<FormPlan, AllocError>
    requires head { HasHead bytes.now object.now }
    requires few { length bytes.now + 100 < 2 ^ 32 }
    requires program { IsExtended bytes.now object.now layout.now last.now }
    requires flat { length flat.now ≡ back.wanted layout.now.spots }
    requires lists { AreShort lists.now }
    ensures { IfOk result (λ plan. plan ≡ parts.program_plan (original bytes.now layout.now)
        last.now.index last.now.segment flat.now lists.now) }
{
    let segment = &last.segment;
    let more = inserted(alloc, segment, layout.spots.as_slice(), flat, lists)?;
    let tables = program_tables(alloc, bytes, object, layout, last, &more, lists)?;
    let cut = (segment.offset + segment.filesz) as usize;
    Ok(plan_of(0, cut, more.bytes, tables, Rows::new(alloc)))
}
