// What may be prelinked of a folder, and what a run rewrites.
ghost use Rattle.std.specs.Prelude.{◌≡◌, IfOk, length};
ghost use Rattle.pl_base.specs.Answers.{Answers};
ghost use Rattle.pl_elf.specs.declared.range.Range.{Range};
ghost use Rattle.pl_cone.specs.Calls as spec;
ghost use Rattle.pl_cone.specs.Skips.{skip_is_memory, stops_memory};
ghost use Rattle.pl_cone.specs.Skipped.{skip_of};
ghost use Rattle.pl_cone.specs.Table as columns;
ghost use Rattle.pl_cone.specs.Taken.{AreTaken, WereTaken, files_in};

use crate::currency::{run_stamp, stale_rows};
use crate::{ConeFault, RunTable, Skip, Taken};
use pl_base::{Rows, Text};
use pl_io::NoMemory;
use pl_slots::Slot;
use std::alloc::Global;

/// What a run rewrites.
#[derive(Drop)]
pub struct Cone {
    /// The names that may be prelinked and are not current, in the order of the files.
    pub stale: Rows<Text>,

    /// The stamp that they get; the last one so far where there are none.
    pub stamp: u32,
}

/// The row of the file of a name, if there is one.
pub fn row_of(files: &[Taken], name: &str) -> Option<usize>
    ensures { spec.IsRowOf files.now name.now result }
{
    for row in 0..files.len() {
        if files[row].name.as_str() == name {
            return Some(row);
        }
    }
    None
}

fn causes_of(table: RunTable<'_>) -> Vec<Option<Skip>>
    ensures { result.items ≡ table.entry.causes }
{
    table.causes.into_vec()
}

/// Whether a name of a folder may be prelinked: it is a program or library whose walk has no refusal, each member of its walk has a form, and, where it is a program, thread-local storage has offsets and each relocation has a value. Else the first cause, in this order, those of one kind in the order of the walk. That a program's form may be too large is not looked at.
///
/// `take_file` gave the files under a region, and no name stands twice.
pub fn prelinkable(alloc: Global, files: &[Taken], name: &str) -> Result<(), Skip>
    requires { WereTaken files.now }
    ensures { (region : Range) → AreTaken region files.now →
        Answers skip_is_memory result (skip_of (files_in files.now) region name.now) }
{
    let Some(row) = row_of(files, name) else {
        return Err(Skip::NotThere(Text::copy_of(alloc, name)?));
    };
    let table = RunTable::of(alloc, files)?;
    let mut causes = causes_of(table);
    match causes.remove(row) {
        None => Ok(()),
        Some(skip) => Err(skip),
    }
}

fn place_of(slots: &[Slot], taken: &Taken) -> u64
    ensures { result ≡ spec.place_of slots.now taken.now }
{
    for slot in slots {
        if slot.name.as_str() == taken.name.as_str() {
            return slot.start;
        }
    }
    0
}

fn places_of(alloc: Global, slots: &[Slot], files: &[Taken]) -> Result<Rows<u64>, NoMemory>
    ensures { IfOk result (λ v. v ≡ spec.places_of slots.now files.now) }
{
    let mut places = Rows::new(alloc);
    for taken in files {
        places.push(place_of(slots, taken))?;
    }
    Ok(places)
}

fn names_where(alloc: Global, files: &[Taken], stale: &[bool]) -> Result<Rows<Text>, NoMemory>
    requires { length stale.now ≡ length files.now }
    ensures { IfOk result (λ v. v ≡ columns.names_where files.now stale.now) }
{
    let mut names = Rows::new(alloc);
    for row in 0..files.len() {
        if stale[row] {
            names.push(Text::copy_of(alloc, files[row].name.as_str())?)?;
        }
    }
    Ok(names)
}

/// What a run at a moment rewrites, at these slots: the names that may be prelinked and are not current, and the stamp that they get. `last` is the stamp of the last run that gave one. `StampsSpent` comes exactly where a name is stale and the greatest stamp is the last that there is.
pub fn cone_of(
    alloc: Global,
    table: &RunTable<'_>,
    slots: &[Slot],
    last: u32,
    now: u32,
) -> Result<Cone, ConeFault>
    requires { columns.IsRunTableOfSome table.now }
    ensures { (region : Range) → columns.IsRunTable region table.now →
        Answers stops_memory result (spec.cone region table.now slots.now last now) }
{
    let places = places_of(alloc, slots, table.files)?;
    let flags = stale_rows(alloc, table, places.as_slice())?;
    let stamp = run_stamp(table.files, flags.as_slice(), last, now)?;
    let stale = names_where(alloc, table.files, flags.as_slice())?;
    Ok(Cone { stale, stamp })
}
