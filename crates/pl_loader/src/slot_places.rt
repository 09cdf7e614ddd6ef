// Prelinked libraries at their own slots.
ghost use Rattle.std.specs.Prelude.{◌≡◌, ◌+◌, ◌<◌, ◌^◌, ◌++◌, IfOk, OnOk};
ghost use Rattle.std.specs.List.{All, list_all};
ghost use Rattle.pl_loader.specs.Loading.{IsLibrary, IsRead};
ghost use Rattle.pl_loader.specs.Places as spec;

use crate::ObjectFile;
use pl_base::{Rows, Text};
use pl_elf::Range;
use pl_slots::Want;
use std::alloc::{AllocError, Global};

/// The slot that a library's file bears, where it is prelinked.
fn slot_of(library: &ObjectFile) -> Option<u64>
    requires read { IsRead library.now }
    requires library { IsLibrary library.now }
    ensures slot { result ≡ spec.slot_of library.now }
    ensures fits { spec.Fits library.now result }
{
    match &library.mark {
        None => None,
        Some(mark) => Some(mark.slot),
    }
}

/// The addresses of a library at a place.
fn range_at(library: &ObjectFile, place: u64) -> Range
    requires { place + library.now.object.span < 2 ^ 64 }
    ensures { result ≡ spec.range_at library.now place }
{
    Range::from_size(place, library.object.span)
}

/// Whether two ranges have no address in common.
fn misses(a: &Range, b: &Range) -> bool
    ensures { result ≡ spec.misses a.now b.now }
{
    a.end <= b.start || b.end <= a.start || b.end <= b.start
}

fn misses_all(range: &Range, taken: &[Range]) -> bool
    ensures { result ≡ list_all (spec.misses range.now) taken.now }
{
    taken.iter().all(|other| misses(range, other))
}

/// The slot of a library, where it is free of what is taken.
fn slot_place(taken: &[Range], library: &ObjectFile) -> Option<u64>
    requires read { IsRead library.now }
    requires library { IsLibrary library.now }
    ensures place { result ≡ spec.slot_place taken.now library.now }
    ensures fits { spec.Fits library.now result }
{
    match slot_of(library) {
        None => None,
        Some(slot) => {
            if misses_all(&range_at(library, slot), taken) {
                Some(slot)
            } else {
                None
            }
        }
    }
}

/// Adds what a library takes at its slot.
fn take_own(
    taken: &mut Vec<Range>,
    library: &ObjectFile,
    own: Option<u64>,
) -> Result<(), AllocError>
    requires { spec.Fits library.now own }
    ensures { OnOk result (taken.new.items ≡ taken.old.items
        ++ spec.range_at_slot library.now own) }
{
    if let Some(slot) = own {
        taken.push(range_at(library, slot))?;
    }
    Ok(())
}

/// The addresses that a library wants.
fn want_of(alloc: Global, library: &ObjectFile) -> Result<Want, AllocError>
    ensures { IfOk result (λ want. want ≡ spec.want_of library.now) }
{
    Ok(Want {
        name: Text::copy_of(alloc, library.name.as_str())?,
        span: library.object.span,
        align: library.object.align,
    })
}

/// Adds what a library wants that is not placed at its slot.
fn add_want(
    alloc: Global,
    wants: &mut Vec<Want>,
    library: &ObjectFile,
    own: Option<u64>,
) -> Result<(), AllocError>
    ensures { OnOk result (wants.new.items ≡ wants.old.items ++ spec.want_if library.now own) }
{
    if own.is_none() {
        wants.push(want_of(alloc, library)?)?;
    }
    Ok(())
}

/// The slots of libraries that are free, and what the others want.
#[derive(Drop)]
pub struct Owned {
    pub places: Rows<Option<u64>>,
    pub wants: Rows<Want>,
}

/// The slots of libraries as their places, each where it is free of what is taken and of the ones before it; they are taken then.
pub fn slot_places(
    alloc: Global,
    taken: &mut Vec<Range>,
    libraries: &[ObjectFile],
) -> Result<Owned, AllocError>
    requires read { All IsRead libraries.now }
    requires libraries { All IsLibrary libraries.now }
    ensures places { IfOk result (λ own. own.places
        ≡ spec.slot_places taken.old.items libraries.now) }
    ensures wants { IfOk result (λ own. own.wants
        ≡ spec.wants_left libraries.now (spec.slot_places taken.old.items libraries.now)) }
    ensures taken { OnOk result (taken.new.items ≡ taken.old.items
        ++ spec.ranges_at_slots libraries.now (spec.slot_places taken.old.items libraries.now)) }
{
    let mut places = Vec::new(alloc);
    let mut wants = Vec::new(alloc);
    for library in libraries {
        let own = slot_place(taken, library);
        add_want(alloc, &mut wants, library, own)?;
        take_own(taken, library, own)?;
        places.push(own)?;
    }
    Ok(Owned {
        places: Rows::from_vec(places),
        wants: Rows::from_vec(wants),
    })
}

/// The slots, and for each library without a free one the next of the others.
#[tactic(auto, unfolding(crate::specs::Places::joined))]
pub fn joined(alloc: Global, owns: &[Option<u64>], starts: &[u64]) -> Result<Vec<u64>, AllocError>
    ensures { IfOk result (λ v. v.items ≡ spec.joined owns.now starts.now) }
{
    let mut places = Vec::new(alloc);
    let mut left = starts;
    for own in owns {
        if let Some(slot) = own {
            places.push(*slot)?;
        } else if let [start, rest @ ..] = left {
            places.push(*start)?;
            left = rest;
        } else {
            return Ok(places);
        }
    }
    Ok(places)
}
