// The dynamic table.
ghost use Rattle.std.specs.Prelude.{◌≡◌, ◌+◌, ◌++◌, IfOk, OnOk};
ghost use Rattle.pl_build.specs.Dynamic as spec;
ghost use Rattle.pl_build.specs.PlacedTags.{placed_tags};

use crate::choices::push_chosen;
use crate::fields::{Field, Row, push_fields, push_rows};
use crate::indexed_plan::IndexedPlan;
use crate::names::is;
use crate::recipe::Settings;
use crate::roles::{PlacedSection, Role, section_name};
use pl_dyn::Tag;
use pl_dyn::constants::{
    DF_1_NOW, DF_1_PIE, DF_BIND_NOW, DT_BIND_NOW, DT_DEBUG, DT_FLAGS, DT_FLAGS_1, DT_GNU_HASH,
    DT_HASH, DT_JMPREL, DT_NEEDED, DT_NULL, DT_PLTREL, DT_PLTRELSZ, DT_RELA, DT_RELAENT, DT_RELASZ,
    DT_RELR, DT_RELRENT, DT_RELRSZ, DT_STRSZ, DT_STRTAB, DT_SYMBOLIC, DT_SYMENT, DT_SYMTAB,
    DT_VERDEF, DT_VERDEFNUM, DT_VERNEED, DT_VERNEEDNUM, DT_VERSYM,
};
use pl_elf::constants::{RELA_SIZE, RELR_SIZE};
use pl_sym::constants::SYMBOL_SIZE;
use std::alloc::{AllocError, Global};

impl Row for Tag {
    ghost bytes = { spec.tag_bytes };

    #[tactic(auto, unfolding(crate::specs::Dynamic::tag_bytes))]
    fn push_to(&self, out: &mut Vec<u8>) -> Result<(), AllocError> {
        push_fields(out, &[Field::Xword(self.number), Field::Xword(self.value)])
    }
}

fn tag(number: u64, value: u64) -> Tag
    ensures { result ≡ spec.tag number value }
{
    Tag { number, value }
}

/// The place of the null section.
pub fn null_place() -> PlacedSection
    ensures { result ≡ spec.null_place }
{
    PlacedSection {
        role: Role::Null,
        addr: 0,
        offset: 0,
        size: 0,
    }
}

/// Where the section of a name stands. One that is not there has no bytes.
#[tactic(auto, unfolding(crate::specs::Dynamic::place_of))]
pub fn place_of(places: &[PlacedSection], name: &[u8]) -> PlacedSection
    ensures { result ≡ spec.place_of places.now name.now }
{
    for place in places {
        if is(section_name(place.role), name) {
            return *place;
        }
    }
    null_place()
}

/// Whether a section is there.
pub fn is_there(place: &PlacedSection) -> bool
    ensures { result ≡ spec.is_there place.now }
{
    place.size != 0
}

#[tactic(auto, unfolding(crate::specs::Dynamic::needed_tags))]
fn needed_tags(alloc: Global, plan: &IndexedPlan<'_>) -> Result<Vec<Tag>, AllocError>
    ensures { IfOk result (λ v. v.items ≡ spec.needed_tags plan.now) }
{
    let mut tags = Vec::new(alloc);
    let names = plan.layout().needed.as_slice();
    for name in names {
        tags.push(tag(DT_NEEDED, plan.text_at(name.as_slice())))?;
    }
    Ok(tags)
}

#[tactic(auto, unfolding(crate::specs::Dynamic::table_tags))]
fn push_table_tags(
    tags: &mut Vec<Tag>,
    plan: &IndexedPlan<'_>,
    places: &[PlacedSection],
) -> Result<(), AllocError>
    ensures { OnOk result (tags.new.items ≡ tags.old.items ++ spec.table_tags plan.now places.now) }
{
    let hash = place_of(places, b".hash");
    let gnu_hash = place_of(places, b".gnu.hash");
    let strings = place_of(places, b".dynstr");
    let symbols = place_of(places, b".dynsym");
    push_chosen(
        tags,
        &[
            (is_there(&hash), tag(DT_HASH, hash.addr)),
            (is_there(&gnu_hash), tag(DT_GNU_HASH, gnu_hash.addr)),
            (true, tag(DT_STRTAB, strings.addr)),
            (true, tag(DT_SYMTAB, symbols.addr)),
            (true, tag(DT_STRSZ, strings.size)),
            (true, tag(DT_SYMENT, SYMBOL_SIZE as u64)),
            (plan.layout().settings.symbolic, tag(DT_SYMBOLIC, 0)),
        ],
    )
}

#[tactic(auto, unfolding(crate::specs::Dynamic::relocation_tags))]
fn push_relocation_tags(tags: &mut Vec<Tag>, places: &[PlacedSection]) -> Result<(), AllocError>
    ensures { OnOk result (tags.new.items ≡ tags.old.items ++ spec.relocation_tags places.now) }
{
    let slots = place_of(places, b".rela.plt");
    let others = place_of(places, b".rela.dyn");
    push_chosen(
        tags,
        &[
            (is_there(&slots), tag(DT_PLTRELSZ, slots.size)),
            (is_there(&slots), tag(DT_PLTREL, DT_RELA)),
            (is_there(&slots), tag(DT_JMPREL, slots.addr)),
            (is_there(&others), tag(DT_RELA, others.addr)),
            (is_there(&others), tag(DT_RELASZ, others.size)),
            (is_there(&others), tag(DT_RELAENT, RELA_SIZE as u64)),
        ],
    )
}

#[tactic(auto, unfolding(crate::specs::Dynamic::packed_tags))]
fn push_packed_tags(tags: &mut Vec<Tag>, places: &[PlacedSection]) -> Result<(), AllocError>
    ensures { OnOk result (tags.new.items ≡ tags.old.items ++ spec.packed_tags places.now) }
{
    let packed = place_of(places, b".relr.dyn");
    push_chosen(
        tags,
        &[
            (is_there(&packed), tag(DT_RELR, packed.addr)),
            (is_there(&packed), tag(DT_RELRSZ, packed.size)),
            (is_there(&packed), tag(DT_RELRENT, RELR_SIZE as u64)),
        ],
    )
}

#[tactic(auto, unfolding(crate::specs::Dynamic::version_tags))]
fn push_version_tags(
    tags: &mut Vec<Tag>,
    plan: &IndexedPlan<'_>,
    places: &[PlacedSection],
) -> Result<(), AllocError>
    ensures { OnOk result (tags.new.items ≡ tags.old.items
        ++ spec.version_tags plan.now places.now) }
{
    let words = place_of(places, b".gnu.version");
    let defined = place_of(places, b".gnu.version_d");
    let needed = place_of(places, b".gnu.version_r");
    let defs = plan.layout().versions.as_slice().len() as u64 + 1;
    let files = plan.layout().files.as_slice().len() as u64;
    push_chosen(
        tags,
        &[
            (is_there(&words), tag(DT_VERSYM, words.addr)),
            (is_there(&defined), tag(DT_VERDEF, defined.addr)),
            (is_there(&defined), tag(DT_VERDEFNUM, defs)),
            (is_there(&needed), tag(DT_VERNEED, needed.addr)),
            (is_there(&needed), tag(DT_VERNEEDNUM, files)),
        ],
    )
}

#[tactic(auto, unfolding(crate::specs::Dynamic::flags_1))]
fn flags_1(settings: &Settings) -> u64
    ensures { result ≡ spec.flags_1 settings.now }
{
    let now = if settings.usual { DF_1_NOW } else { 0 };
    let pie = if settings.kind.is_pie() { DF_1_PIE } else { 0 };
    now + pie
}

#[tactic(auto, unfolding(crate::specs::Dynamic::usual_tags))]
fn push_usual_tags(tags: &mut Vec<Tag>, plan: &IndexedPlan<'_>) -> Result<(), AllocError>
    ensures { OnOk result (tags.new.items ≡ tags.old.items ++ spec.usual_tags plan.now) }
{
    let usual = plan.layout().settings.usual;
    let flags_1 = flags_1(&plan.layout().settings);
    push_chosen(
        tags,
        &[
            (
                usual && plan.layout().settings.kind.is_program(),
                tag(DT_DEBUG, 0),
            ),
            (usual, tag(DT_BIND_NOW, 0)),
            (usual, tag(DT_FLAGS, DF_BIND_NOW)),
            (flags_1 != 0, tag(DT_FLAGS_1, flags_1)),
        ],
    )
}

#[tactic(auto, unfolding(crate::specs::Dynamic::spare_tags))]
fn spare_tags(alloc: Global, plan: &IndexedPlan<'_>) -> Result<Vec<Tag>, AllocError>
    ensures { IfOk result (λ v. v.items ≡ spec.spare_tags plan.now) }
{
    (0..plan.layout().settings.spare)
        .map(|_| tag(DT_NULL, 0))
        .collect(alloc)
}

/// The tags that say where the other tables stand, those of a usual file, and the end.
#[tactic(auto, unfolding(crate::specs::PlacedTags::placed_tags))]
fn push_placed_tags(
    tags: &mut Vec<Tag>,
    plan: &IndexedPlan<'_>,
    places: &[PlacedSection],
) -> Result<(), AllocError>
    ensures { OnOk result (tags.new.items ≡ tags.old.items ++ placed_tags plan.now places.now) }
{
    push_table_tags(tags, plan, places)?;
    push_relocation_tags(tags, places)?;
    push_packed_tags(tags, places)?;
    push_version_tags(tags, plan, places)?;
    push_usual_tags(tags, plan)?;
    tags.push(tag(DT_NULL, 0))?;
    Ok(())
}

/// The bytes of the dynamic table, for tables that stand at places.
pub fn dynamic_table(
    alloc: Global,
    plan: &IndexedPlan<'_>,
    places: &[PlacedSection],
) -> Result<Vec<u8>, AllocError>
    ensures { IfOk result (λ v. v.items ≡ spec.dynamic_table plan.now places.now) }
{
    let mut tags = needed_tags(alloc, plan)?;
    push_placed_tags(&mut tags, plan, places)?;
    tags.extend_from_slice(spare_tags(alloc, plan)?.as_slice())?;
    let mut out = Vec::new(alloc);
    push_rows(&mut out, tags.as_slice())?;
    Ok(out)
}
