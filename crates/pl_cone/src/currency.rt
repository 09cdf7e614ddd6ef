// The names whose files may stay as they are, and the stamps of a run.
ghost use Rattle.std.specs.Prelude.{◌≡◌, IfOk, length};
ghost use Rattle.std.specs.List.{list_any};
ghost use Rattle.pl_cone.specs.Currency as spec;
ghost use Rattle.pl_cone.specs.Table as columns;
ghost use Rattle.pl_base.specs.Answers.{Answers};
ghost use Rattle.pl_cone.specs.Skips.{stops_memory};

use crate::{ConeFault, RunTable, Taken};
use pl_base::Rows;
use pl_form::{Marked, Version};
use pl_io::NoMemory;
use pl_lists::ListRow;
use std::alloc::Global;

fn is_row(taken: &Taken, row: &ListRow) -> bool
    ensures { result ≡ spec.is_row taken.now row.now }
{
    let Some(marked) = taken.marked() else {
        return false;
    };
    row.stamp == marked.stamp
        && row.checksum == marked.checksum
        && row.name.as_str() == taken.name.as_str()
}

fn lists_members(files: &[Taken], list: &[ListRow], others: &[u32]) -> bool
    requires { columns.AreRows files.now others.now }
    ensures { result ≡ spec.lists_members files.now list.now others.now }
{
    if list.len() != others.len() {
        return false;
    }
    for index in 0..list.len() {
        if !is_row(&files[others[index] as usize], &list[index]) {
            return false;
        }
    }
    true
}

/// Whether a file has a mark as they are made now, stands at its planned slot if it is a library, and has a list that tells the other members of its walk.
fn holds(files: &[Taken], taken: &Taken, others: &[u32], place: u64) -> bool
    requires { columns.AreRows files.now others.now }
    ensures { result ≡ spec.holds files.now taken.now others.now place }
{
    let Some(marked) = taken.marked() else {
        return false;
    };
    matches!(marked.version, Version::Two)
        && (!taken.is_library() || marked.slot == place)
        && lists_members(files, marked.list.as_slice(), others)
}

fn is_held(files: &[Taken], walk: &[u32], place: u64) -> bool
    requires { columns.AreRows files.now walk.now }
    ensures { result ≡ spec.is_held files.now walk.now place }
{
    let [_, others @ ..] = walk else {
        return false;
    };
    holds(files, &files[walk[0] as usize], others, place)
}

fn held_rows(alloc: Global, table: &RunTable<'_>, places: &[u64]) -> Result<Vec<bool>, NoMemory>
    requires { spec.HavePlaces table.now places.now }
    ensures { IfOk result (λ v. v.items ≡ spec.held_rows table.now places.now) }
{
    let mut held = Vec::new(alloc);
    for row in 0..table.files.len() {
        held.push(is_held(table.files, table.walk(row), places[row]))?;
    }
    Ok(held)
}

fn is_stale(table: &RunTable<'_>, held: &[bool], row: usize) -> bool
    requires { columns.AreBelow (length held.now) (columns.walk_of table.now row) }
    ensures { result ≡ spec.stale_at table.now held.now row }
{
    let walk = table.walk(row);
    for member in walk {
        if !held[*member as usize] {
            return table.is_candidate(row);
        }
    }
    false
}

/// Which names are stale, at these places, one for each row: they may be prelinked, and it is not so that each member of their walks, themselves too, has a mark as they are made now, stands at its planned slot, and has a list that tells the others.
pub fn stale_rows(
    alloc: Global,
    table: &RunTable<'_>,
    places: &[u64],
) -> Result<Rows<bool>, NoMemory>
    requires { spec.HavePlaces table.now places.now }
    ensures { IfOk result (λ stale. stale ≡ spec.stale_rows table.now places.now) }
{
    let held = held_rows(alloc, table, places)?;
    let mut stale = Rows::new(alloc);
    for row in 0..table.files.len() {
        stale.push(is_stale(table, &held, row))?;
    }
    Ok(stale)
}

/// The last stamp that there is, 2^32 - 1.
pub const LAST_STAMP: u32 = 4_294_967_295;

fn greatest_in(marked: &Marked) -> u32
    ensures { result ≡ spec.greatest_in marked.now }
{
    let mut most = marked.stamp;
    for row in marked.list.as_slice() {
        most = most.max(row.stamp);
    }
    most
}

fn greatest_of_files(last: u32, files: &[Taken]) -> u32
    ensures { result ≡ spec.greatest_of_files last files.now }
{
    let mut most = last;
    for taken in files {
        if let Some(marked) = taken.marked() {
            most = most.max(greatest_in(marked));
        }
    }
    most
}

fn any_stale(stale: &[bool]) -> bool
    ensures { result ≡ list_any (λ b. b) stale.now }
{
    stale.contains(&true)
}

/// The stamp that the stale names of a run at a moment get: the greater of the moment and one more than the greatest of `last`, the stamps of all marks and those in their lists. It is `last` where no name is stale. `StampsSpent` comes exactly where one is and that greatest stamp is the last that there is.
#[tactic(auto, unfolding(crate::specs::Plans::stamp_after))]
pub fn run_stamp(files: &[Taken], stale: &[bool], last: u32, now: u32) -> Result<u32, ConeFault>
    ensures { Answers stops_memory result (spec.run_stamp files.now stale.now last now) }
{
    if !any_stale(stale) {
        return Ok(last);
    }
    let greatest = greatest_of_files(last, files);
    if greatest == LAST_STAMP {
        return Err(ConeFault::StampsSpent(greatest));
    }
    Ok(now.max(greatest + 1))
}

fn next_stamp_of_file(taken: &Taken, is_stale: bool, stamp: u32) -> u32
    ensures { result ≡ spec.next_stamp_of_file taken.now is_stale stamp }
{
    if !taken.is_library() {
        return 0;
    }
    if is_stale { stamp } else { taken.stamp() }
}

/// The stamps of the files after a run, in their order: the run's of a stale library, its old one of any other, and 0 of what is no library.
pub fn stamps_of(
    alloc: Global,
    files: &[Taken],
    stale: &[bool],
    stamp: u32,
) -> Result<Rows<u32>, NoMemory>
    requires { length stale.now ≡ length files.now }
    ensures { IfOk result (λ v. v ≡ spec.stamps_of files.now stale.now stamp) }
{
    let mut stamps = Rows::new(alloc);
    for row in 0..files.len() {
        stamps.push(next_stamp_of_file(&files[row], stale[row], stamp))?;
    }
    Ok(stamps)
}
