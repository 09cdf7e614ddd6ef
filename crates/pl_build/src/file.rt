// The file.
ghost use Rattle.std.specs.Prelude.{◌≡◌, ◌++◌, ◌+◌, ◌*◌, ◌≤◌, ◌<◌, ◌^◌, IfOk, OnOk};
ghost use Rattle.pl_build.specs.Build.{Builds};
ghost use Rattle.pl_build.specs.Data.{data_bytes};
ghost use Rattle.pl_build.specs.File as spec;
ghost use Rattle.pl_build.specs.SectionHeaders as headers;
ghost use Rattle.pl_build.specs.Layout as layout;

use crate::constants::{INTERP_OFFSET, MAX_FILE, MAX_TABLES, TABLE_ALIGN, TABLES_OFFSET};
use crate::data::data_bytes;
use crate::dynamic::place_of;
use crate::fault::RecipeFault;
use crate::fields::{Field, push_fields, push_rows};
use crate::layout::{Tables, end_of, fill_to, lay_out};
use crate::layout_plan::{LayoutPlan, base_of, data_address, has_interp};
use crate::recipe::Settings;
use crate::roles::{PlacedSection, index_of};
use crate::sections::{first_places, last_places, section_rows};
use crate::segments::{data_offset, interp_bytes, segments};
use crate::string_table::{StringTable, section_names};
use pl_base::{Rows, round_up_wide};
use pl_elf::constants::{
    ELFCLASS64, ELFDATA2LSB, ELFMAG0, ELFMAG1, ELFMAG2, ELFMAG3, EM_X86_64, ET_DYN, ET_EXEC,
    EV_CURRENT, HEADER_SIZE, SECTION_SIZE, SEGMENT_SIZE,
};
use std::alloc::{AllocError, Global};

fn entry_or_base(settings: &Settings) -> u64
    ensures { result ≡ spec.entry_or_base settings.now settings.now.entry }
{
    match settings.entry {
        Some(offset) => data_address(settings).wrapping_add(offset),
        None => base_of(settings),
    }
}

fn ident() -> [Field; 9]
    ensures { result ≡ spec.ident }
{
    [
        Field::Byte(u64::from(ELFMAG0)),
        Field::Byte(u64::from(ELFMAG1)),
        Field::Byte(u64::from(ELFMAG2)),
        Field::Byte(u64::from(ELFMAG3)),
        Field::Byte(u64::from(ELFCLASS64)),
        Field::Byte(u64::from(ELFDATA2LSB)),
        Field::Byte(u64::from(EV_CURRENT)),
        Field::Byte(0),
        Field::Xword(0),
    ]
}

#[tactic(auto, unfolding(crate::specs::File::type_of))]
fn type_of(settings: &Settings) -> u16
    ensures { result ≡ spec.type_of settings.now }
{
    if settings.kind.is_position_independent() {
        ET_DYN
    } else {
        ET_EXEC
    }
}

#[tactic(auto, unfolding(crate::specs::File::first_header_fields))]
fn first_header_fields(settings: &Settings, shoff: u64) -> [Field; 6]
    ensures { result ≡ spec.first_header_fields settings.now shoff }
{
    [
        Field::Half(u64::from(type_of(settings))),
        Field::Half(u64::from(EM_X86_64)),
        Field::Word(u64::from(EV_CURRENT)),
        Field::Xword(entry_or_base(settings)),
        Field::Xword(HEADER_SIZE as u64),
        Field::Xword(shoff),
    ]
}

fn last_header_fields(phnum: usize, shnum: usize, shstrndx: usize) -> [Field; 7]
    ensures { result ≡ spec.last_header_fields phnum shnum shstrndx }
{
    [
        Field::Word(0),
        Field::Half(HEADER_SIZE as u64),
        Field::Half(SEGMENT_SIZE as u64),
        Field::Half(phnum as u64),
        Field::Half(SECTION_SIZE as u64),
        Field::Half(shnum as u64),
        Field::Half(shstrndx as u64),
    ]
}

#[tactic(auto, unfolding(crate::specs::File::header_bytes))]
fn push_header(
    out: &mut Vec<u8>,
    plan: &LayoutPlan,
    phnum: usize,
    shoff: u64,
) -> Result<(), AllocError>
    ensures { OnOk result (out.new.items ≡ out.old.items
        ++ spec.header_bytes plan.now phnum shoff) }
{
    let roles = plan.roles.as_slice();
    let shstrndx = index_of(roles, b".shstrtab");
    push_fields(out, &ident())?;
    push_fields(out, &first_header_fields(&plan.settings, shoff))?;
    push_fields(out, &last_header_fields(phnum, roles.len(), shstrndx))
}

#[tactic(auto, unfolding(crate::specs::File::interp_of))]
fn interp_of(settings: &Settings) -> &'static [u8]
    ensures { result.now ≡ spec.interp_of settings.now }
{
    if has_interp(settings) {
        interp_bytes()
    } else {
        b""
    }
}

#[tactic(auto, unfolding(crate::specs::File::front))]
fn front(
    alloc: Global,
    plan: &LayoutPlan,
    tables: &Tables,
    tables_end: u64,
    shoff: u64,
) -> Result<Vec<u8>, AllocError>
    requires { tables_end < 2 ^ 32 }
    ensures { IfOk result (λ v. v.items ≡ spec.front plan.now tables.now tables_end shoff) }
{
    let dynamic = place_of(tables.places.as_slice(), b".dynamic");
    let segments = segments(alloc, &plan.settings, tables_end, &dynamic)?;
    let mut out = Vec::new(alloc);
    push_header(&mut out, plan, segments.len(), shoff)?;
    push_rows(&mut out, segments.as_slice())?;
    fill_to(&mut out, INTERP_OFFSET)?;
    out.extend_from_slice(interp_of(&plan.settings))?;
    Ok(out)
}

#[tactic(auto, unfolding(crate::specs::File::places_of))]
fn places_of(
    alloc: Global,
    plan: &LayoutPlan,
    tables: &Tables,
    offset: u64,
    names_size: u64,
) -> Result<Vec<PlacedSection>, AllocError>
    requires { offset + plan.now.settings.data_size < 2 ^ 64 }
    ensures { IfOk result (λ v. v.items ≡ spec.places_of plan.now tables.now offset names_size) }
{
    let mut places = first_places(alloc, plan)?;
    places.extend_from_slice(tables.places.as_slice())?;
    places.extend_from_slice(&last_places(plan, offset, names_size))?;
    Ok(places)
}

#[tactic(auto, unfolding(crate::specs::File::up_to_data))]
fn up_to_data(
    alloc: Global,
    plan: &LayoutPlan,
    tables: &Tables,
    tables_end: u64,
    shoff: u64,
) -> Result<Vec<u8>, AllocError>
    requires { tables_end < 2 ^ 32 }
    ensures { IfOk result (λ v. v.items ≡ spec.up_to_data plan.now tables.now tables_end shoff) }
{
    let mut out = front(alloc, plan, tables, tables_end, shoff)?;
    fill_to(&mut out, TABLES_OFFSET)?;
    out.extend_from_slice(tables.bytes.as_slice())?;
    fill_to(&mut out, data_offset(tables_end))?;
    Ok(out)
}

/// Adds the data.
fn push_data(alloc: Global, out: &mut Vec<u8>, plan: &LayoutPlan) -> Result<(), AllocError>
    ensures { OnOk result (out.new.items ≡ out.old.items
        ++ data_bytes plan.now.settings.data_size plan.now.words) }
{
    let bytes = data_bytes(alloc, plan.settings.data_size, plan.words.as_slice())?;
    out.extend_from_slice(bytes.as_slice())
}

/// Adds the section header table.
fn push_sections(
    alloc: Global,
    out: &mut Vec<u8>,
    plan: &LayoutPlan,
    tables: &Tables,
    tables_end: u64,
    names: &StringTable,
) -> Result<(), AllocError>
    requires tables { tables_end < 2 ^ 32 }
    requires size { plan.now.settings.data_size < 2 ^ 32 }
    ensures { OnOk result (out.new.items ≡ out.old.items
        ++ headers.section_headers plan.now tables.now tables_end names.now) }
{
    let names_size = names.bytes.len() as u64;
    let places = places_of(alloc, plan, tables, data_offset(tables_end), names_size)?;
    let rows = section_rows(alloc, plan, names, places.as_slice())?;
    push_rows(out, rows.as_slice())
}

#[tactic(auto, unfolding(crate::specs::File::file_of))]
fn file_of(
    alloc: Global,
    plan: &LayoutPlan,
    tables: &Tables,
    tables_end: u64,
    names: &StringTable,
    shoff: u64,
) -> Result<Vec<u8>, AllocError>
    requires tables { tables_end < 2 ^ 32 }
    requires size { plan.now.settings.data_size < 2 ^ 32 }
    ensures { IfOk result (λ v. v.items ≡ spec.file_of plan.now tables.now tables_end names.now
        shoff) }
{
    let mut out = up_to_data(alloc, plan, tables, tables_end, shoff)?;
    push_data(alloc, &mut out, plan)?;
    out.extend_from_slice(names.bytes.as_slice())?;
    fill_to(&mut out, shoff)?;
    push_sections(alloc, &mut out, plan, tables, tables_end, names)?;
    Ok(out)
}

#[tactic(auto, unfolding(crate::specs::File::parts_end))]
fn parts_end(plan: &LayoutPlan, tables_end: u64, names: &StringTable) -> u128
    requires { tables_end < 2 ^ 32 }
    ensures value { result ≡ spec.parts_end plan.now tables_end names.now }
    ensures holds_data { plan.now.settings.data_size ≤ result }
    ensures small { result < 2 ^ 66 }
{
    u128::from(data_offset(tables_end))
        + u128::from(plan.settings.data_size)
        + names.bytes.len() as u128
}

#[tactic(auto, unfolding(crate::specs::File::sections_offset, pl_base::specs::Sums::round_up))]
fn sections_offset(plan: &LayoutPlan, tables_end: u64, names: &StringTable) -> u128
    requires { tables_end < 2 ^ 32 }
    ensures value { result ≡ spec.sections_offset plan.now tables_end names.now }
    ensures holds_data { plan.now.settings.data_size ≤ result }
    ensures small { result < 2 ^ 67 }
{
    round_up_wide(parts_end(plan, tables_end, names), TABLE_ALIGN)
}

fn file_end(plan: &LayoutPlan, tables_end: u64, names: &StringTable) -> u128
    requires { tables_end < 2 ^ 32 }
    ensures { result ≡ spec.file_end plan.now tables_end names.now }
{
    sections_offset(plan, tables_end, names) + SECTION_SIZE as u128 * plan.roles.len() as u128
}

#[tactic(auto, unfolding(crate::specs::File::limited))]
fn limited(
    alloc: Global,
    plan: &LayoutPlan,
    names: &StringTable,
    tables: &Tables,
) -> Result<Rows<u8>, RecipeFault>
    requires { layout.end_of tables.now ≤ MAX_TABLES }
    ensures { Builds result (spec.limited plan.now names.now tables.now) }
{
    let tables_end = end_of(tables);
    if file_end(plan, tables_end, names) > u128::from(MAX_FILE) {
        return Err(RecipeFault::Bad { line: 0, kind: 5 });
    }
    let shoff = sections_offset(plan, tables_end, names) as u64;
    let file = file_of(alloc, plan, tables, tables_end, names, shoff)?;
    Ok(Rows::from_vec(file))
}

/// The file of a plan. Fault 5 where its tables or the file would be too large.
#[tactic(auto, unfolding(crate::specs::File::made))]
pub fn made(alloc: Global, plan: &LayoutPlan) -> Result<Rows<u8>, RecipeFault>
    ensures { Builds result (spec.made plan.now) }
{
    let tables = lay_out(alloc, plan)?;
    let names = section_names(alloc, plan.roles.as_slice())?;
    limited(alloc, plan, &names, &tables)
}
