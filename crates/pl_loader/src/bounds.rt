// The bounds of objects in memory.
ghost use Rattle.std.specs.Prelude.{◌≡◌, ◌+◌, ◌≤◌, max, IfOk};
ghost use Rattle.std.specs.List.{All, AllZip};
ghost use Rattle.pl_elf.specs.declared.constants.TheConstants.{ADDRESS_LIMIT};
ghost use Rattle.pl_loader.specs.Places.{IsAt};
ghost use Rattle.pl_loader.specs.Started as spec;

use crate::{ObjectFile, Placed};
use pl_base::{Rows, Text, round_down, round_up};
use pl_elf::constants::{ADDRESS_LIMIT as LIMIT, PAGE};
use pl_elf::{Segment, loads};
use std::alloc::{AllocError, Global};

/// The lowest address of PT_LOADs, as linked.
#[tactic(auto, unfolding(crate::specs::Started::lowest_address))]
fn lowest_address(loads: &[Segment]) -> u64
    ensures value { result ≡ spec.lowest_address loads.now }
    ensures limit { result ≤ ADDRESS_LIMIT }
{
    let mut least = LIMIT;
    for segment in loads {
        least = least.min(segment.vaddr);
    }
    least
}

/// The highest end of PT_LOADs, as linked.
#[tactic(auto, unfolding(crate::specs::Started::highest_end))]
fn highest_end(loads: &[Segment], place: u64) -> u64
    requires place { place ≤ ADDRESS_LIMIT }
    requires ends { All (λ s. place + (s.vaddr + s.memsz) ≤ ADDRESS_LIMIT) loads.now }
    ensures value { result ≡ spec.highest_end loads.now }
    ensures limit { place + result ≤ ADDRESS_LIMIT }
{
    let mut most = 0;
    for segment in loads {
        most = most.max(segment.vaddr + segment.memsz);
    }
    most
}

#[tactic(auto, unfolding(crate::specs::Started::placed))]
fn placed(alloc: Global, file: &ObjectFile, place: u64) -> Result<Placed, AllocError>
    requires { IsAt file.now place }
    ensures { IfOk result (λ placed. placed ≡ spec.placed file.now place) }
{
    let loads = loads(alloc, file.object.segments.as_slice())?;
    let end = place + highest_end(&loads, place);
    Ok(Placed {
        name: Text::copy_of(alloc, file.name.as_str())?,
        start: round_down(place + lowest_address(&loads), PAGE),
        end: round_up(end, PAGE),
    })
}

/// Where each object is loaded at its place, in whole pages.
#[tactic(auto, unfolding(crate::specs::Started::all_placed))]
pub fn all_placed(
    alloc: Global,
    files: &[ObjectFile],
    places: &[u64],
) -> Result<Rows<Placed>, AllocError>
    requires { AllZip IsAt files.now places.now }
    ensures { IfOk result (λ objects. objects ≡ spec.all_placed files.now places.now) }
{
    let mut objects = Rows::new(alloc);
    for (file, place) in files.iter().zip(places) {
        objects.push(placed(alloc, file, *place)?)?;
    }
    Ok(objects)
}
