// A fixed program loosened again.
ghost use Rattle.std.specs.Prelude.{◌≡◌, ◌%◌, ◌<◌, ◌^◌, length, true, IfOk};
ghost use Rattle.std.specs.Str.{bytes_eq};
ghost use Rattle.pl_elf.specs.Kinds.{is_program};
ghost use Rattle.pl_object.specs.Accepted.{Accepted};
ghost use Rattle.pl_pie.specs.Fix as spec;

use crate::constants::{REGION_END, REGION_START};
use crate::fixing::{fixed, take_words};
use crate::pie::{is_pie, set_type};
use crate::words::other_words;
use pl_base::{Rows, end};
use pl_elf::constants::{ET_DYN, PAGE, PT_LOAD};
use pl_elf::segment_of_kind;
use pl_io::NoMemory;
use pl_move::move_back;
use pl_object::{Object, Refusal, accept};
use std::alloc::{AllocError, Global};

/// Whether a position-independent program may be fixed at an address.
#[tactic(auto, unfolding(crate::specs::Fix::fits))]
fn fits(object: &Object, address: u64) -> bool
    requires { 0 < object.now.align }
    ensures { result ≡ spec.fits object.now address }
{
    address % object.align == 0
        && address >= REGION_START
        && end(address, object.span) <= u128::from(REGION_END)
}

/// The page in which the first PT_LOAD begins.
#[tactic(auto, unfolding(crate::specs::Fix::page_of, pl_base::specs::Sums::round_down))]
fn page_of(object: &Object) -> u64
    ensures page { result ≡ spec.page_of object.now }
    ensures even { result % 2 ≡ 0 }
{
    match segment_of_kind(object.segments.as_slice(), PT_LOAD) {
        None => 0,
        Some(segment) => segment.vaddr / PAGE * PAGE,
    }
}

/// The bytes of an accepted program without the address at which it begins, with the type of a position-independent program.
#[tactic(auto, using(crate::proofs::CallLaws::program_small, crate::proofs::CallLaws::program_lies, crate::proofs::CallLaws::program_words), unfolding(crate::specs::Fix::loosened))]
fn loosened(alloc: Global, file: &[u8], object: &Object) -> Result<Vec<u8>, AllocError>
    requires accepted { Accepted file.now object.now }
    requires program { is_program object.now.kind ≡ true }
    requires few { length file.now < 2 ^ 32 }
    ensures bytes { IfOk result (λ v. v.items ≡ spec.loosened object.now file.now) }
    ensures size { IfOk result (λ v. length v.items ≡ length file.now) }
{
    let address = page_of(object);
    let words = other_words(alloc, object)?;
    let mut bytes = Vec::from_slice(alloc, file)?;
    take_words(&mut bytes, &words, address);
    move_back(&mut bytes, object, address);
    set_type(&mut bytes, ET_DYN);
    Ok(bytes)
}

fn are_same(bytes: &[u8], others: &[u8]) -> bool
    ensures { result ≡ bytes_eq bytes.now others.now }
{
    bytes == others
}

/// The bytes, where they are a position-independent program, of which the file is the one fixed at the address.
#[tactic(auto, using(crate::proofs::CallLaws::pie_align), unfolding(crate::specs::Fix::checked))]
fn checked(
    alloc: Global,
    address: u64,
    file: &[u8],
    bytes: Vec<u8>,
) -> Result<Option<Rows<u8>>, NoMemory>
    requires few { length bytes.items < 2 ^ 32 }
    requires even { address % 2 ≡ 0 }
    ensures { IfOk result (λ v. v ≡ spec.checked address file.now bytes.items) }
{
    let Some(object) = is_pie(alloc, &bytes)? else {
        return Ok(None);
    };
    if !fits(&object, address) {
        drop(object);
        return Ok(None);
    }
    let again = fixed(alloc, &bytes, &object, address);
    drop(object);
    if !are_same(again?.as_slice(), file) {
        return Ok(None);
    }
    Ok(Some(Rows::from_vec(bytes)))
}

/// The position-independent program of which the bytes are the one that `fix` makes at an address of the region, 0x2000000000 to 0x2f00000000, that is a multiple of its alignment and where it ends in the region. It is found by the bytes alone, and `fix` is done again and compared, so None comes wherever no such program is found. The file has fewer than 2^32 bytes. It fails only for want of memory.
#[tactic(auto, unfolding(crate::specs::Fix::unfixed))]
pub fn unfix(alloc: Global, bytes: &[u8]) -> Result<Option<Rows<u8>>, NoMemory>
    requires { length bytes.now < 2 ^ 32 }
    ensures { IfOk result (λ v. v ≡ spec.unfixed bytes.now) }
{
    let object = match accept(alloc, bytes) {
        Ok(object) => object,
        Err(Refusal::NoMemory) => return Err(NoMemory),
        Err(Refusal::Clause { .. }) => return Ok(None),
    };
    if !object.kind.is_program() {
        drop(object);
        return Ok(None);
    }
    let address = page_of(&object);
    let program = loosened(alloc, bytes, &object);
    drop(object);
    checked(alloc, address, bytes, program?)
}
