// Where the objects of a load are placed.
ghost use Rattle.std.specs.Prelude.{◌≡◌, ◌+◌, ◌^◌, ◌<◌, ◌∷◌, map, IfOk, IfErr};
ghost use Rattle.std.specs.List.{All, AllZip};
ghost use Rattle.pl_elf.specs.Headers.{loads as loads_spec};
ghost use Rattle.pl_place.specs.Left.{left};
ghost use Rattle.pl_place.specs.Placing.{ArePlacedInTurn as PolicyPlaced, IsWant};
ghost use Rattle.pl_place.specs.Policy as policy;
ghost use Rattle.pl_value.specs.Ordinary.{ArePlaced};
ghost use Rattle.pl_loader.specs.Loading.{AreFiles, IsRead, objects_of, parts_of};
ghost use Rattle.pl_loader.specs.Places as spec;

use crate::slot_places::{joined, slot_places};
use crate::{LoadFault, ObjectFile, REGION_END, REGION_START};
use pl_base::Rows;
use pl_elf::{Range, Segment, header_fields, loads, read_segments};
use pl_place::{Holes, Placer, place_all};
use pl_slots::Want;
use std::alloc::{AllocError, Global};

/// The region in which libraries are placed.
fn region() -> Range
    ensures { result ≡ spec.region }
{
    Range {
        start: REGION_START,
        end: REGION_END,
    }
}

/// The addresses of a PT_LOAD, as linked.
fn load_range(segment: &Segment) -> Range
    requires { segment.now.vaddr + segment.now.memsz < 2 ^ 64 }
    ensures { result ≡ spec.load_range segment.now }
{
    Range::from_size(segment.vaddr, segment.memsz)
}

/// The PT_LOADs of a file, as it stands.
fn loads_of(alloc: Global, file: &ObjectFile) -> Result<Vec<Segment>, AllocError>
    requires { IsRead file.now }
    ensures value { IfOk result (λ v. v.items ≡ loads_spec (spec.segments_of file.now)) }
    ensures ends { IfOk result (λ v. All (λ s. s.vaddr + s.memsz < 2 ^ 64) v.items) }
{
    match &file.mark {
        None => loads(alloc, file.object.segments.as_slice()),
        Some(mark) => {
            let bytes = mark.file.as_slice();
            let segments = read_segments(alloc, bytes, &header_fields(bytes))?;
            loads(alloc, &segments)
        }
    }
}

/// The addresses that a program's file takes, as it stands.
#[tactic(auto, unfolding(crate::specs::Places::program_ranges))]
fn program_ranges(alloc: Global, program: &ObjectFile) -> Result<Vec<Range>, AllocError>
    requires { IsRead program.now }
    ensures { IfOk result (λ ranges. ranges.items ≡ spec.program_ranges program.now) }
{
    let mut ranges = Vec::new(alloc);
    for segment in &loads_of(alloc, program)? {
        ranges.push(load_range(segment))?;
    }
    Ok(ranges)
}

/// What is taken before any library is placed: the program, and the addresses that are kept free besides.
fn taken_first(
    alloc: Global,
    busy: Option<Range>,
    program: &ObjectFile,
) -> Result<Vec<Range>, AllocError>
    requires { IsRead program.now }
    ensures { IfOk result (λ ranges. ranges.items ≡ spec.taken_first busy program.now) }
{
    let mut ranges = program_ranges(alloc, program)?;
    if let Some(range) = busy {
        ranges.push(range)?;
    }
    Ok(ranges)
}

/// The places of wants in the region beside what is taken, by the policy.
fn policy_places<F: Fn(&Holes, u64, u64) -> Option<u64>>(
    alloc: Global,
    placer: &Placer<F>,
    wants: &[Want],
    taken: &[Range],
) -> Result<Vec<u64>, LoadFault>
    requires may { policy.MayChoose (F.pre placer.now) }
    requires chooses { policy.Chooses (F.post placer.now) }
    requires wants { All IsWant wants.now }
    ensures placed { IfOk result (λ starts. PolicyPlaced (F.post placer.now)
        (left spec.region taken.now) wants.now starts.items) }
    ensures free { IfOk result (λ starts. spec.IsFree spec.region taken.now wants.now
        starts.items) }
    ensures stops { IfErr result (spec.StopsOf (F.post placer.now) (left spec.region taken.now)
        wants.now) }
{
    Ok(place_all(alloc, placer, wants, taken, region())?)
}

/// The places of libraries beside a program: first their own slots, as far as these are free, then those of the policy.
fn library_places<F: Fn(&Holes, u64, u64) -> Option<u64>>(
    alloc: Global,
    placer: &Placer<F>,
    busy: Option<Range>,
    program: &ObjectFile,
    libraries: &[ObjectFile],
) -> Result<Vec<u64>, LoadFault>
    requires may { policy.MayChoose (F.pre placer.now) }
    requires chooses { policy.Chooses (F.post placer.now) }
    requires files { AreFiles (program.now ∷ libraries.now) }
    ensures placed { IfOk result (λ places. spec.IsPlaced (F.post placer.now) busy
        (program.now ∷ libraries.now) (0 ∷ places.items)) }
    ensures free { IfOk result (λ places. spec.IsFree spec.everywhere
        (spec.taken_first busy program.now) (map spec.want_of libraries.now) places.items) }
    ensures stops { IfErr result (spec.StopsFiles (F.post placer.now) busy
        (program.now ∷ libraries.now)) }
{
    let mut taken = taken_first(alloc, busy, program)?;
    let own = slot_places(alloc, &mut taken, libraries)?;
    let starts = policy_places(alloc, placer, own.wants.as_slice(), &taken)?;
    Ok(joined(alloc, own.places.as_slice(), &starts)?)
}

/// The place of each object: 0 for the first, which is the program; for each prelinked library in scope order its slot, where that is free of the program's file as it stands, of the busy addresses and of the libraries before it; and for each other library in scope order the policy's answer, in what these leave of the region.
///
/// `NoPlace` comes exactly at the first of the others for which nothing fits in what is left.
pub fn places<F: Fn(&Holes, u64, u64) -> Option<u64>>(
    alloc: Global,
    placer: &Placer<F>,
    busy: Option<Range>,
    files: &[ObjectFile],
) -> Result<Rows<u64>, LoadFault>
    requires may { policy.MayChoose (F.pre placer.now) }
    requires chooses { policy.Chooses (F.post placer.now) }
    requires files { AreFiles files.now }
    ensures placed { IfOk result (spec.IsPlaced (F.post placer.now) busy files.now) }
    ensures stops { IfErr result (spec.StopsFiles (F.post placer.now) busy files.now) }
    // each object ends there at or below the limit of addresses,
    ensures within { IfOk result (λ places. AllZip spec.IsAt files.now places) }
    // and no two objects have an address in common
    ensures apart { IfOk result (λ places. ArePlaced places (parts_of files.now)
        (objects_of files.now)) }
{
    let [program, libraries @ ..] = files else {
        return Ok(Rows::new(alloc));
    };
    let others = library_places(alloc, placer, busy, program, libraries)?;
    let mut places = Vec::from_array(alloc, [0])?;
    places.extend_from_slice(&others)?;
    Ok(Rows::from_vec(places))
}
