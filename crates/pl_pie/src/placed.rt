// A position-independent program fixed where a policy places it.
ghost use Rattle.std.specs.Prelude.{◌≡◌, ◌<◌, ◌^◌, length, Some, IfOk};
ghost use Rattle.pl_pie.specs.Fix.{MayBeFixed, fixed_bytes};
ghost use Rattle.pl_pie.specs.Pie.{pie};
ghost use Rattle.pl_place.specs.Policy as policy;
ghost use Rattle.pl_pie.specs.Placed as spec;

use crate::constants::{REGION_END, REGION_START};
use crate::objects::object_at;
use crate::{FixedProgram, Placing, fix, is_pie};
use pl_elf::Range;
use pl_io::NoMemory;
use pl_object::Object;
use pl_place::{Holes, Placer};
use pl_slots::region_holes;
use std::alloc::{AllocError, Global};

/// The holes of the region of position-independent programs: nothing in it is busy.
fn pie_holes(alloc: Global) -> Result<Holes, AllocError>
    ensures { IfOk result (λ holes. holes ≡ spec.pie_holes) }
{
    let region = Range {
        start: REGION_START,
        end: REGION_END,
    };
    Ok(Holes::new(region_holes(alloc, region)?))
}

/// A position-independent program at an address, with the object that is read of it.
fn read_fixed(
    alloc: Global,
    bytes: &[u8],
    object: Object,
    address: u64,
) -> Result<FixedProgram, NoMemory>
    requires object { pie bytes.now ≡ Some object }
    requires few { length bytes.now < 2 ^ 32 }
    requires may { MayBeFixed object address }
    ensures { IfOk result (λ program. program ≡ fixed_bytes address object bytes.now) }
{
    match fix(alloc, bytes, &object, address) {
        Ok(file) => {
            let read = object_at(alloc, &file, object, address)?;
            Ok(FixedProgram::new(file, read))
        }
        Err(fault) => {
            drop(object);
            Err(fault)
        }
    }
}

/// The program at a policy's answer.
fn fix_at(
    alloc: Global,
    bytes: &[u8],
    object: Object,
    place: Option<u64>,
) -> Result<Placing, NoMemory>
    requires object { pie bytes.now ≡ Some object }
    requires few { length bytes.now < 2 ^ 32 }
    requires place { policy.MayAnswer spec.pie_holes object.span object.align place }
    ensures { IfOk result (λ p. p ≡ spec.fixed_at bytes.now object place) }
{
    match place {
        None => {
            drop(object);
            Ok(Placing::NoPlace)
        }
        Some(address) => Ok(Placing::Fixed {
            address,
            program: read_fixed(alloc, bytes, object, address)?,
        }),
    }
}

/// The program that a position-independent program becomes where a policy places it: at the policy's answer for its span and alignment, and for the whole region of such programs, 0x2000000000 to 0x2f00000000. `NotPie` comes where `is_pie` gives nothing, and `NoPlace` where the policy finds no place. The program is never one that would be taken for a prelinked file. The file has fewer than 2^32 bytes. It fails only for want of memory.
#[tactic(auto, unfolding(crate::specs::Placed::placed))]
pub fn fix_placed<F: Fn(&Holes, u64, u64) -> Option<u64>>(
    alloc: Global,
    placer: &Placer<F>,
    bytes: &[u8],
) -> Result<Placing, NoMemory>
    requires may { policy.MayChoose (F.pre placer.now) }
    requires chooses { policy.Chooses (F.post placer.now) }
    requires few { length bytes.now < 2 ^ 32 }
    // It is what each function makes of the file that answers as the policy did, which was asked
    // at most once.
    ensures placed { IfOk result (λ p. spec.HoldsBy (F.post placer.now)
        (λ choose. p ≡ spec.placed choose bytes.now)) }
    ensures small { IfOk result spec.IsSmall }
{
    match is_pie(alloc, bytes)? {
        None => Ok(Placing::NotPie),
        Some(object) => {
            let holes = pie_holes(alloc)?;
            let place = placer.place(&holes, object.span, object.align);
            Ok(fix_at(alloc, bytes, object, place)?)
        }
    }
}
