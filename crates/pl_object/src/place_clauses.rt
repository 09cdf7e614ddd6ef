// Acceptance clauses 23 to 27 and 29: relocations, and the places that they change. A test is true where the clause refuses the file.
ghost use Rattle.std.specs.Prelude.{◌≡◌, if◌then◌else◌, Some, IfOk};
ghost use Rattle.std.specs.List.{list_any};
ghost use Rattle.pl_elf.specs.Clauses.{AreLoads};
ghost use Rattle.pl_elf.specs.Headers.{is_load, loads};
ghost use Rattle.pl_base.specs.Answers.{Answers};
ghost use Rattle.pl_object.specs.Crossing.{AreSorted};
ghost use Rattle.pl_object.specs.Refusals.{is_memory};
ghost use Rattle.pl_object.specs.TableClauses.{meets};
ghost use Rattle.pl_object.specs.PlaceClauses as spec;

use crate::constants::RELOC_KINDS;
use crate::crossing::{SortedTables, furthest_windows};
use crate::loads::Loads;
use crate::overlaps::{any_share, sorted_windows};
use crate::relocations::{place, places};
use crate::{Refusal, Reloc, Window};
use pl_base::end;
use pl_elf::Segment;
use pl_elf::constants::{R_X86_64_COPY, R_X86_64_GLOB_DAT, R_X86_64_JUMP_SLOT};
use std::alloc::{AllocError, Global};

#[tactic(auto, unfolding(crate::specs::PlaceClauses::is_known))]
fn is_known(kind: u32) -> bool
    ensures { result ≡ spec.is_known kind }
{
    RELOC_KINDS.contains(&kind)
}

#[tactic(auto, unfolding(crate::specs::PlaceClauses::is_bad))]
fn is_bad(count: u32, reloc: &Reloc) -> bool
    ensures { result ≡ spec.is_bad count reloc.now }
{
    !is_known(reloc.kind) || reloc.symbol >= count
}

/// The first relocation of a kind that is not known, or by a symbol that is not there: clause 23.
#[tactic(auto, unfolding(crate::specs::PlaceClauses::first_bad))]
fn first_bad(count: u32, relocs: &[Reloc]) -> Option<Reloc>
    ensures { result ≡ spec.first_bad count relocs.now }
{
    relocs.iter().copied().find(|reloc| is_bad(count, reloc))
}

/// The last PT_LOAD of a program header table.
#[tactic(auto, unfolding(crate::specs::PlaceClauses::last_load))]
pub fn last_load(segments: &[Segment]) -> Option<Segment>
    ensures { result ≡ spec.last_load segments.now }
{
    segments.iter().fold(None, later_load)
}

fn later_load(found: Option<Segment>, segment: &Segment) -> Option<Segment>
    ensures { result ≡ (if is_load segment.now then Some segment.now else found) }
{
    if segment.is_load() {
        Some(*segment)
    } else {
        found
    }
}

fn is_in_memory(memory: Window, segment: Option<Segment>) -> bool
    ensures { result ≡ spec.is_in_memory memory segment }
{
    match segment {
        None => false,
        Some(segment) => is_in_segment(memory, &segment),
    }
}

/// Whether a window of memory lies in the memory of a segment.
pub fn is_in_segment(memory: Window, segment: &Segment) -> bool
    ensures { result ≡ spec.is_in_segment memory segment.now }
{
    u128::from(segment.vaddr) <= memory.at()
        && memory.at() <= end(segment.vaddr, segment.memsz)
        && memory.at() + u128::from(memory.size()) <= end(segment.vaddr, segment.memsz)
}

#[tactic(auto, unfolding(crate::specs::PlaceClauses::is_held))]
fn is_held(program: bool, loads: &Loads, last: Option<Segment>, memory: Window) -> bool
    requires { last ≡ spec.last_load loads.now }
    ensures { result ≡ spec.is_held program loads.now memory }
{
    loads.in_file_part(memory) || program && is_in_memory(memory, last)
}

/// Whether a place is not where it may be.
#[tactic(auto, unfolding(crate::specs::PlaceClauses::reloc_outside))]
fn reloc_outside(program: bool, loads: &Loads, relocs: &[Reloc]) -> bool
    ensures { result ≡ spec.reloc_outside program loads.now relocs.now }
{
    let last = last_load(loads.segments());
    relocs
        .iter()
        .map(place)
        .any(|memory| !is_held(program, loads, last, memory))
}

/// Clause 24, where so many packed relocations stand last.
#[tactic(auto, unfolding(crate::specs::PlaceClauses::any_place_outside))]
fn any_place_outside(program: bool, loads: &Loads, packed: u32, relocs: &[Reloc]) -> bool
    ensures { result ≡ spec.any_place_outside program loads.now packed relocs.now }
{
    let (rows, packed) = relocs.split_at(relocs.len().saturating_sub(packed as usize));
    reloc_outside(program, loads, rows) || reloc_outside(false, loads, packed)
}

/// Clause 25.
#[tactic(auto, unfolding(crate::specs::PlaceClauses::reloc_overlap))]
fn reloc_overlap(alloc: Global, relocs: &[Reloc]) -> Result<bool, AllocError>
    ensures { IfOk result (λ b. b ≡ spec.reloc_overlap relocs.now) }
{
    Ok(any_share(places(alloc, relocs)?))
}

/// Whether the file bytes of a place share a byte with a table.
#[tactic(auto, unfolding(crate::specs::PlaceClauses::spots))]
fn any_in_tables(tables: &SortedTables<'_>, loads: &Loads, relocs: &[Reloc]) -> bool
    requires { AreSorted tables.now }
    ensures { result ≡ list_any (meets tables.now.tables.now) (spec.spots loads.now relocs.now) }
{
    relocs
        .iter()
        .map(place)
        .map(|memory| loads.file_window(memory))
        .any(|spot| tables.meet(spot))
}

/// Clause 26.
fn reloc_in_tables(
    alloc: Global,
    tables: &[Window],
    loads: &Loads,
    relocs: &[Reloc],
) -> Result<bool, AllocError>
    ensures { IfOk result (λ b. b ≡ spec.reloc_in_tables tables.now loads.now relocs.now) }
{
    let sorted = sorted_windows(alloc, tables)?;
    let furthest = furthest_windows(alloc, &sorted)?;
    let tables = SortedTables {
        tables: sorted.as_slice(),
        furthest: furthest.as_slice(),
    };
    Ok(any_in_tables(&tables, loads, relocs))
}

#[tactic(auto, unfolding(crate::specs::PlaceClauses::is_odd))]
fn is_odd(reloc: &Reloc) -> bool
    ensures { result ≡ spec.is_odd reloc.now }
{
    (reloc.kind == R_X86_64_GLOB_DAT
        || reloc.kind == R_X86_64_JUMP_SLOT
        || reloc.kind == R_X86_64_COPY)
        && reloc.addend != 0
}

/// Clause 27.
#[tactic(auto, unfolding(crate::specs::PlaceClauses::odd_addend))]
fn odd_addend(relocs: &[Reloc]) -> bool
    ensures { result ≡ spec.odd_addend relocs.now }
{
    relocs.iter().any(is_odd)
}

#[tactic(auto, unfolding(crate::specs::PlaceClauses::is_misplaced_copy))]
fn is_misplaced_copy(program: bool, reloc: &Reloc) -> bool
    ensures { result ≡ spec.is_misplaced_copy program reloc.now }
{
    reloc.kind == R_X86_64_COPY && (!program || reloc.symbol == 0)
}

/// Clause 29.
#[tactic(auto, unfolding(crate::specs::PlaceClauses::misplaced_copy))]
pub fn misplaced_copy(program: bool, relocs: &[Reloc]) -> bool
    ensures { result ≡ spec.misplaced_copy program relocs.now }
{
    relocs.iter().any(|reloc| is_misplaced_copy(program, reloc))
}

/// The first of clauses 24 to 27 that refuses the file.
#[tactic(auto, unfolding(crate::specs::PlaceClauses::check_places))]
fn check_places(
    alloc: Global,
    program: bool,
    loads: &Loads,
    tables: &[Window],
    packed: u32,
    relocs: &[Reloc],
) -> Result<(), Refusal>
    ensures { Answers is_memory result (spec.check_places program loads.now tables.now packed
        relocs.now) }
{
    if any_place_outside(program, loads, packed, relocs) {
        return Err(Refusal::clause(24));
    }
    if reloc_overlap(alloc, relocs)? {
        return Err(Refusal::clause(25));
    }
    if reloc_in_tables(alloc, tables, loads, relocs)? {
        return Err(Refusal::clause(26));
    }
    if odd_addend(relocs) {
        return Err(Refusal::clause(27));
    }
    Ok(())
}

/// The first of clauses 23 to 27 that refuses the file.
#[tactic(auto, unfolding(crate::specs::PlaceClauses::check_relocs))]
pub fn check_relocs(
    alloc: Global,
    program: bool,
    segments: &[Segment],
    tables: &[Window],
    count: u32,
    packed: u32,
    relocs: &[Reloc],
) -> Result<(), Refusal>
    requires { AreLoads (loads segments.now) }
    ensures { Answers is_memory result (spec.check_relocs program segments.now tables.now count
        packed relocs.now) }
{
    if let Some(reloc) = first_bad(count, relocs) {
        return Err(Refusal::Clause {
            number: 23,
            argument: u64::from(reloc.kind),
        });
    }
    let loads = Loads::new(alloc, segments)?;
    check_places(alloc, program, &loads, tables, packed, relocs)
}
