// What a run plans: the slots of the libraries that may be prelinked, the stale names and the stamps.
ghost use Rattle.std.specs.Prelude.{◌≡◌, ◌<◌, IfOk, length, map};
ghost use Rattle.pl_base.specs.Answers.{Answers, AnswersAs};
ghost use Rattle.pl_cone.specs.Faulted.{is_memory};
ghost use Rattle.pl_cone.specs.Plans.{planned};
ghost use Rattle.pl_cone.specs.Slots as spec;
ghost use Rattle.pl_cone.specs.Table as columns;
ghost use Rattle.pl_cone.specs.Taken.{files_in, names_of};

use crate::currency::{run_stamp, stale_rows, stamps_of};
use crate::{PlanningFault, RunTable};
use pl_base::{Rows, Text};
use pl_elf::Range;
use pl_io::NoMemory;
use pl_share::{Walks, disjoint, plan_shared};
use pl_slots::{Slot, Want, plan};
use std::alloc::Global;

/// What a run is asked, besides the files.
#[derive(Drop)]
pub struct Asked<'a> {
    /// The rows of the cache.
    pub rows: &'a [Slot],

    /// The stamp of the last run that gave one, by the cache.
    pub last: u32,

    /// The addresses from which slots are given.
    pub region: Range,

    /// Whether libraries may share addresses that the walk of no name holds together.
    pub share: bool,

    /// When the run is, in seconds since 1970.
    pub moment: u32,
}

/// What a run plans for the files of a table. The columns have one row for each file.
#[derive(Drop)]
pub struct RowPlan {
    /// The slots of the libraries that may be prelinked, in the order of the files.
    pub slots: Rows<Slot>,

    /// Where each file's slot starts, 0 where it has none.
    pub places: Rows<u64>,

    /// Whether each may be prelinked and is not current.
    pub stale: Rows<bool>,

    /// The stamp of each library after the run; 0 for every other file.
    pub stamps: Rows<u32>,

    /// The stamp that stale libraries get; the last one so far where no file is stale.
    pub stamp: u32,
}

/// The libraries of a table that may be prelinked.
#[derive(Drop)]
struct Wanting {
    /// What they want, in the order of their rows.
    wants: Rows<Want>,

    /// For each row the position of its want, if it has one.
    positions: Vec<Option<u32>>,
}

fn want_of(alloc: Global, table: &RunTable<'_>, row: usize) -> Result<Option<Want>, NoMemory>
    requires { row < length table.now.files.now }
    ensures { IfOk result (λ want. want ≡ spec.want_at table.now row) }
{
    if !table.is_candidate(row) {
        return Ok(None);
    }
    let taken = &table.files[row];
    let Some(object) = taken.object() else {
        return Ok(None);
    };
    if !object.kind.is_library() {
        return Ok(None);
    }
    Ok(Some(Want {
        name: Text::copy_of(alloc, taken.name.as_str())?,
        span: object.span,
        align: object.align,
    }))
}

fn add_want(wanting: &mut Wanting, want: Option<Want>) -> Result<(), NoMemory>
    ensures { spec.AddsWant want wanting.old wanting.new result }
{
    if wanting.wants.len() >= u32::MAX as usize {
        return Err(NoMemory);
    }
    let position = want.is_some().then_some(wanting.wants.len() as u32);
    wanting.positions.push(position)?;
    wanting.wants.push_some(want)?;
    Ok(())
}

fn wanting_of(alloc: Global, table: &RunTable<'_>) -> Result<Wanting, NoMemory>
    requires { columns.IsRunTableOfSome table.now }
    ensures { IfOk result (spec.IsWanting table.now) }
{
    let wants = Rows::new(alloc);
    let positions = Vec::new(alloc);
    let mut wanting = Wanting { wants, positions };
    for row in 0..table.files.len() {
        let want = want_of(alloc, table, row)?;
        add_want(&mut wanting, want)?;
    }
    Ok(wanting)
}

fn wanted_in(alloc: Global, positions: &[Option<u32>], walk: &[u32]) -> Result<Rows<u32>, NoMemory>
    requires { columns.AreBelow (length positions.now) walk.now }
    ensures { IfOk result (λ v. v ≡ spec.positions_in positions.now walk.now) }
{
    let mut all = Rows::new(alloc);
    for row in walk {
        all.push_some(positions[*row as usize])?;
    }
    Ok(all)
}

fn table_walks(alloc: Global, table: &RunTable<'_>, wanting: &Wanting) -> Result<Walks, NoMemory>
    requires { spec.IsWantedBy table.now wanting.now }
    ensures { IfOk result (λ walks. walks.rows ≡ spec.table_walks table.now) }
{
    let mut rows = Rows::new(alloc);
    for row in 0..table.files.len() {
        if table.is_candidate(row) {
            rows.push(wanted_in(alloc, &wanting.positions, table.walk(row))?)?;
        }
    }
    Ok(Walks { rows })
}

/// The slots of all that want some, in their order. Where libraries may share addresses, those may overlap that no walk holds together; else no two overlap.
fn planned_slots(
    alloc: Global,
    table: &RunTable<'_>,
    asked: &Asked<'_>,
    wanting: &Wanting,
) -> Result<Rows<Slot>, PlanningFault>
    requires { spec.IsWantedBy table.now wanting.now }
    ensures value { Answers is_memory result (spec.table_slots table.now asked.now) }
    ensures names { IfOk result (spec.HaveWantedNames (spec.table_wants table.now)) }
{
    let wants = wanting.wants.as_slice();
    if asked.share {
        let walks = table_walks(alloc, table, wanting)?;
        Ok(plan_shared(alloc, asked.rows, wants, &walks, asked.region)?)
    } else {
        let kept = disjoint(alloc, asked.rows, wants, asked.region)?;
        Ok(plan(alloc, kept.as_slice(), wants, asked.region)?)
    }
}

fn start_of(slots: &[Slot], position: Option<u32>) -> u64
    ensures { result ≡ spec.start_at slots.now position }
{
    match position {
        None => 0,
        Some(position) => match slots.get(position as usize) {
            None => 0,
            Some(slot) => slot.start,
        },
    }
}

fn places(alloc: Global, slots: &[Slot], positions: &[Option<u32>]) -> Result<Rows<u64>, NoMemory>
    ensures { IfOk result (λ v. v ≡ map (spec.start_at slots.now) positions.now) }
{
    let mut places = Rows::new(alloc);
    for position in positions {
        places.push(start_of(slots, *position))?;
    }
    Ok(places)
}

/// The slots of the libraries that may be prelinked.
#[derive(Drop)]
pub struct PlannedSlots {
    /// In the order of their rows.
    pub slots: Rows<Slot>,

    /// For each row where its slot starts, 0 where it has none.
    pub places: Rows<u64>,
}

/// A slot for each library that may be prelinked, in the order of the files, by `plan` of pl_slots over the rows of the cache that are kept, or, where libraries may share addresses that the walk of no name which may be prelinked holds together, by `plan_shared` of pl_share. NoSlot comes exactly where no hole holds a library. 2^32 libraries count as a want of memory.
pub fn slots_of(
    alloc: Global,
    table: &RunTable<'_>,
    asked: &Asked<'_>,
) -> Result<PlannedSlots, PlanningFault>
    requires { columns.IsRunTableOfSome table.now }
    ensures { spec.PlacesSlots table.now asked.now result }
{
    let wanting = wanting_of(alloc, table)?;
    let slots = planned_slots(alloc, table, asked, &wanting)?;
    let places = places(alloc, slots.as_slice(), &wanting.positions)?;
    Ok(PlannedSlots { slots, places })
}

/// What a run plans for the files of a table:
///
/// - A slot for each library that may be prelinked, in the order of the files.
/// - The names that may be prelinked and are not current at these slots, and the stamp that they get. A name is current where it and each library of its walk are prelinked in the version of now, at their planned slots, with lists that tell the names, stamps and checksums of the other members of their walks. The stamp is the greater of the moment and one more than the greatest of the last run's, those of all marks and those in their lists; it is the last run's where no name is stale.
///
/// The first cause counts: NoSlot exactly where no hole holds a library, then StampsSpent exactly where a name is stale and no stamp is left.
pub fn plan_of(
    alloc: Global,
    table: &RunTable<'_>,
    asked: &Asked<'_>,
) -> Result<RowPlan, PlanningFault>
    requires { columns.IsRunTable asked.now.region table.now }
    ensures planned { AnswersAs (columns.planned_by table.now) is_memory result
        (planned (files_in table.now.files.now) (names_of table.now.files.now) asked.now) }
    ensures rows { IfOk result (columns.IsPlan table.now asked.now) }
{
    let placed = slots_of(alloc, table, asked)?;
    let PlannedSlots { slots, places } = placed;
    let stale = stale_rows(alloc, table, places.as_slice())?;
    let stamp = run_stamp(table.files, stale.as_slice(), asked.last, asked.moment)?;
    let stamps = stamps_of(alloc, table.files, stale.as_slice(), stamp)?;
    Ok(RowPlan {
        slots,
        places,
        stale,
        stamps,
        stamp,
    })
}
