// The tables, one after the other.
ghost use Rattle.std.specs.Prelude.{◌≡◌, ◌+◌, ◌≤◌, IfOk, OnOk};
ghost use Rattle.pl_base.specs.Each.{run};
ghost use Rattle.pl_build.specs.Build.{Builds};
ghost use Rattle.pl_build.specs.Layout as spec;

use crate::constants::{MAX_TABLES, TABLE_ALIGN, TABLES_OFFSET};
use crate::dynamic::dynamic_table;
use crate::fault::RecipeFault;
use crate::hash_tables::{gnu_table, sysv_table};
use crate::indexed_plan::IndexedPlan;
use crate::layout_plan::{LayoutPlan, base_of};
use crate::packed::packed_table;
use crate::relocations::{jump_slots, others};
use crate::roles::{PlacedSection, Role};
use crate::symbol_table::symbol_table;
use crate::versions::{verdefs, verneeds, version_words};
use pl_base::{Rows, end, round_up};
use std::alloc::{AllocError, Global};

/// The tables: their bytes from the offset of the first one on, and where each stands.
#[derive(Drop)]
pub struct Tables {
    pub bytes: Rows<u8>,
    pub places: Rows<PlacedSection>,
}

fn no_tables(alloc: Global) -> Tables
    ensures { result ≡ spec.no_tables }
{
    Tables {
        bytes: Rows::new(alloc),
        places: Rows::new(alloc),
    }
}

/// The bytes of a table, for tables before it that stand at places. Other sections have none.
#[tactic(auto, unfolding(crate::specs::Layout::contents))]
fn contents(
    alloc: Global,
    plan: &IndexedPlan<'_>,
    places: &[PlacedSection],
    role: Role,
) -> Result<Vec<u8>, AllocError>
    ensures { IfOk result (λ v. v.items ≡ spec.contents plan.now places.now role) }
{
    match role {
        Role::Hash => sysv_table(alloc, plan.layout()),
        Role::GnuHash => gnu_table(alloc, plan.layout()),
        Role::Dynsym => symbol_table(alloc, plan),
        Role::Dynstr => Vec::from_slice(alloc, plan.layout().strings.bytes.as_slice()),
        Role::Versym => version_words(alloc, plan),
        Role::Verdef => verdefs(alloc, plan),
        Role::Verneed => verneeds(alloc, plan),
        Role::RelaDyn => others(alloc, plan),
        Role::RelaPlt => jump_slots(alloc, plan),
        Role::RelrDyn => packed_table(alloc, plan.layout()),
        Role::Dynamic => dynamic_table(alloc, plan, places),
        _ => Ok(Vec::new(alloc)),
    }
}

/// The place of a section at an offset of the file.
#[tactic(auto, unfolding(crate::specs::Layout::place_at))]
pub fn place_at(plan: &LayoutPlan, role: Role, offset: u64, size: u64) -> PlacedSection
    ensures { result ≡ spec.place_at plan.now role offset size }
{
    PlacedSection {
        role,
        addr: base_of(&plan.settings).wrapping_add(offset),
        offset,
        size,
    }
}

/// Zeros up to an offset.
#[tactic(auto, unfolding(crate::specs::Layout::filled_to))]
pub fn fill_to(out: &mut Vec<u8>, offset: u64) -> Result<(), AllocError>
    ensures { OnOk result (out.new.items ≡ spec.filled_to offset out.old.items) }
{
    let offset = offset as usize;
    if offset > out.len() {
        out.resize(offset, 0)?;
    }
    Ok(())
}

#[tactic(auto, unfolding(crate::specs::Layout::aligned))]
fn align(bytes: &mut Vec<u8>) -> Result<(), AllocError>
    ensures { OnOk result (bytes.new.items ≡ spec.aligned bytes.old.items) }
{
    let end = round_up(bytes.len() as u64, TABLE_ALIGN);
    fill_to(bytes, end)
}

#[tactic(auto, unfolding(crate::specs::Layout::table_added))]
fn add_table(
    plan: &LayoutPlan,
    tables: Tables,
    role: Role,
    content: &[u8],
) -> Result<Tables, AllocError>
    requires { spec.end_of tables ≤ MAX_TABLES }
    ensures { IfOk result (λ t. t ≡ spec.table_added plan.now tables role content.now) }
{
    let Tables { bytes, places } = tables;
    let mut bytes = bytes.into_vec();
    let mut places = places;
    align(&mut bytes)?;
    let offset = TABLES_OFFSET + bytes.len() as u64;
    places.push(place_at(plan, role, offset, content.len() as u64))?;
    bytes.extend_from_slice(content)?;
    Ok(Tables {
        bytes: Rows::from_vec(bytes),
        places,
    })
}

/// Where the tables end in the file.
pub fn end_of(tables: &Tables) -> u64
    requires { spec.end_of tables.now ≤ MAX_TABLES }
    ensures { result ≡ spec.end_of tables.now }
{
    TABLES_OFFSET + tables.bytes.len() as u64
}

fn in_limit(tables: Tables) -> Result<Tables, RecipeFault>
    ensures exact { Builds result (spec.in_limit tables) }
    ensures small { IfOk result (λ t. spec.end_of t ≤ MAX_TABLES) }
{
    if end(TABLES_OFFSET, tables.bytes.len() as u64) > u128::from(MAX_TABLES) {
        return Err(RecipeFault::Bad { line: 0, kind: 5 });
    }
    Ok(tables)
}

#[tactic(auto, unfolding(crate::specs::Layout::role_added))]
fn add_role(
    alloc: Global,
    plan: &IndexedPlan<'_>,
    tables: Tables,
    role: Role,
) -> Result<Tables, RecipeFault>
    requires { spec.end_of tables ≤ MAX_TABLES }
    ensures answer { Builds result (spec.role_added plan.now tables role) }
    ensures small { IfOk result (λ t. spec.end_of t ≤ MAX_TABLES) }
{
    let content = contents(alloc, plan, tables.places.as_slice(), role)?;
    if content.is_empty() {
        return Ok(tables);
    }
    let tables = add_table(plan.layout(), tables, role, content.as_slice())?;
    in_limit(tables)
}

fn add_roles(alloc: Global, plan: &IndexedPlan<'_>, roles: &[Role]) -> Result<Tables, RecipeFault>
    ensures answer { Builds result (run (spec.role_added plan.now) spec.no_tables roles.now) }
    ensures small { IfOk result (λ t. spec.end_of t ≤ MAX_TABLES) }
{
    let mut tables = no_tables(alloc);
    for role in roles {
        tables = add_role(alloc, plan, tables, *role)?;
    }
    Ok(tables)
}

/// All tables. Fault 5 where they would end past their limit.
#[tactic(auto, unfolding(crate::specs::Layout::tables))]
pub fn lay_out(alloc: Global, plan: &LayoutPlan) -> Result<Tables, RecipeFault>
    ensures answer { Builds result (spec.tables plan.now) }
    ensures small { IfOk result (λ t. spec.end_of t ≤ MAX_TABLES) }
{
    let indexed = IndexedPlan::of(alloc, plan)?;
    add_roles(alloc, &indexed, plan.roles.as_slice())
}
