// The section header table.
ghost use Rattle.std.specs.Prelude.{◌≡◌, ◌+◌, ◌<◌, ◌^◌, IfOk, map};
ghost use Rattle.pl_build.specs.Sections as spec;

use crate::constants::INTERP_OFFSET;
use crate::dynamic::null_place;
use crate::fields::{Field, Row, push_fields};
use crate::layout::place_at;
use crate::layout_plan::{LayoutPlan, data_address, has_interp};
use crate::roles::{
    PlacedSection, Role, align_of, entsize_of, flags_of, index_of, kind_of, link_of, section_name,
};
use crate::segments::interp_bytes;
use crate::string_table::{StringTable, text_at};
use std::alloc::{AllocError, Global};

/// A section header (System V gABI chapter 4, "Sections").
#[derive(Clone, Copy)]
pub struct SectionRow {
    /// Where its name begins in the section of section names.
    pub name: u64,
    pub kind: u32,
    pub flags: u64,
    pub addr: u64,
    pub offset: u64,
    pub size: u64,

    /// The index of another section.
    pub link: u64,
    pub info: u64,
    pub addralign: u64,
    pub entsize: u64,
}

fn first_fields(row: &SectionRow) -> [Field; 6]
    ensures { result ≡ spec.first_fields row.now }
{
    [
        Field::Word(row.name),
        Field::Word(u64::from(row.kind)),
        Field::Xword(row.flags),
        Field::Xword(row.addr),
        Field::Xword(row.offset),
        Field::Xword(row.size),
    ]
}

fn last_fields(row: &SectionRow) -> [Field; 4]
    ensures { result ≡ spec.last_fields row.now }
{
    [
        Field::Word(row.link),
        Field::Word(row.info),
        Field::Xword(row.addralign),
        Field::Xword(row.entsize),
    ]
}

impl Row for SectionRow {
    ghost bytes = { spec.section_row_bytes };

    #[tactic(auto, unfolding(crate::specs::Sections::section_row_bytes))]
    fn push_to(&self, out: &mut Vec<u8>) -> Result<(), AllocError> {
        push_fields(out, &first_fields(self))?;
        push_fields(out, &last_fields(self))
    }
}

#[tactic(auto, unfolding(crate::specs::Sections::info_of))]
fn info_of(plan: &LayoutPlan, role: Role) -> u64
    ensures { result ≡ spec.info_of plan.now role }
{
    match role {
        Role::Dynsym => 1,
        Role::Verdef => plan.versions.as_slice().len() as u64 + 1,
        Role::Verneed => plan.files.as_slice().len() as u64,
        _ => 0,
    }
}

#[tactic(auto, unfolding(crate::specs::Sections::row_of))]
fn row_of(plan: &LayoutPlan, names: &StringTable, place: &PlacedSection) -> SectionRow
    ensures { result ≡ spec.row_of plan.now names.now place.now }
{
    let role = place.role;
    SectionRow {
        name: text_at(names, section_name(role)),
        kind: kind_of(role),
        flags: flags_of(role),
        addr: place.addr,
        offset: place.offset,
        size: place.size,
        link: index_of(plan.roles.as_slice(), link_of(role)) as u64,
        info: info_of(plan, role),
        addralign: align_of(role),
        entsize: entsize_of(role),
    }
}

/// Where the null section and that of the interpreter's path stand.
#[tactic(auto, unfolding(crate::specs::Sections::first_places))]
pub fn first_places(alloc: Global, plan: &LayoutPlan) -> Result<Vec<PlacedSection>, AllocError>
    ensures { IfOk result (λ v. v.items ≡ spec.first_places plan.now) }
{
    let null = null_place();
    if !has_interp(&plan.settings) {
        return Ok(vec![in alloc; null]?);
    }
    let size = interp_bytes().len() as u64;
    let interp = place_at(plan, Role::Interp, INTERP_OFFSET, size);
    Ok(vec![in alloc; null, interp]?)
}

/// Where the data, the zeros behind it and the names of the sections stand, where the data stands at an offset of the file.
#[tactic(auto, unfolding(crate::specs::Sections::last_places))]
pub fn last_places(plan: &LayoutPlan, offset: u64, names_size: u64) -> [PlacedSection; 3]
    requires { offset + plan.now.settings.data_size < 2 ^ 64 }
    ensures { result ≡ spec.last_places plan.now offset names_size }
{
    let address = data_address(&plan.settings);
    let size = plan.settings.data_size;
    [
        PlacedSection {
            role: Role::Data,
            addr: address,
            offset,
            size,
        },
        PlacedSection {
            role: Role::Bss,
            addr: address.wrapping_add(size),
            offset: 0,
            size: plan.settings.bss,
        },
        PlacedSection {
            role: Role::Shstrtab,
            addr: 0,
            offset: offset + size,
            size: names_size,
        },
    ]
}

/// The section headers, where the sections have their names in a table of strings.
#[tactic(auto, unfolding(crate::specs::Sections::section_rows))]
pub fn section_rows(
    alloc: Global,
    plan: &LayoutPlan,
    names: &StringTable,
    places: &[PlacedSection],
) -> Result<Vec<SectionRow>, AllocError>
    ensures { IfOk result (λ v. v.items ≡ spec.section_rows plan.now names.now places.now) }
{
    let mut rows = Vec::new(alloc);
    for place in places {
        rows.push(row_of(plan, names, place))?;
    }
    Ok(rows)
}
