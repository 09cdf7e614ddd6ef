// Which files are position-independent programs that can be fixed.
ghost use Rattle.std.specs.Prelude.{◌≡◌, ◌==◌, ◌<◌, ◌≤◌, ◌^◌, length, IfOk};
ghost use Rattle.pl_base.specs.Bytes.{word16};
ghost use Rattle.pl_object.specs.Accepted.{Accepted};
ghost use Rattle.pl_pie.specs.Pie as spec;

use crate::constants::TYPE_AT;
use crate::links::is_linked;
use crate::points::{is_laid_out, is_marked};
use pl_base::{put16, word16};
use pl_elf::constants::{ET_DYN, ET_EXEC, HEADER_SIZE};
use pl_io::NoMemory;
use pl_object::{Object, Refusal, accept};
use std::alloc::{AllocError, Global};

/// Writes another type into the header of a file.
#[tactic(auto, unfolding(crate::specs::Pie::typed))]
pub fn set_type(bytes: &mut [u8], kind: u16)
    requires { HEADER_SIZE ≤ length bytes.old }
    ensures { bytes.new ≡ spec.typed kind bytes.old }
{
    put16(bytes, TYPE_AT, kind);
}

/// The bytes of a file with the type of a program.
pub fn as_program(alloc: Global, bytes: &[u8]) -> Result<Vec<u8>, AllocError>
    requires { HEADER_SIZE ≤ length bytes.now }
    ensures bytes { IfOk result (λ v. v.items ≡ spec.as_program bytes.now) }
    ensures size { IfOk result (λ v. length v.items ≡ length bytes.now) }
{
    let mut program = Vec::from_slice(alloc, bytes)?;
    set_type(&mut program, ET_EXEC);
    Ok(program)
}

/// Whether the type of a file is the one of position-independent programs and of libraries.
fn has_pie_type(bytes: &[u8]) -> bool
    requires { HEADER_SIZE ≤ length bytes.now }
    ensures { result ≡ (word16 TYPE_AT bytes.now == ET_DYN) }
{
    word16(bytes, TYPE_AT) == ET_DYN
}

/// Whether an accepted object is that of a position-independent program.
#[tactic(auto, using(crate::proofs::PieLaws::not_static), unfolding(crate::specs::Pie::is_pie))]
fn is_pie_object(
    alloc: Global,
    bytes: &[u8],
    program: &[u8],
    object: &Object,
) -> Result<bool, AllocError>
    requires long { HEADER_SIZE ≤ length bytes.now }
    requires program { program.now ≡ spec.as_program bytes.now }
    requires accepted { Accepted program.now object.now }
    requires few { length program.now < 2 ^ 32 }
    ensures { IfOk result (λ b. b ≡ spec.is_pie bytes.now object.now) }
{
    if !object.kind.is_program() || !is_marked(alloc, bytes, program, object)? {
        return Ok(false);
    }
    if !is_laid_out(alloc, bytes, program, object)? {
        return Ok(false);
    }
    Ok(is_linked(object))
}

/// The object of a position-independent program that can be fixed, as the program that it becomes: that of the same bytes with type ET_EXEC. The file has fewer than 2^32 bytes. It fails only for want of memory.
///
/// None where one of these does not hold. The type is ET_DYN, and DT_FLAGS_1 has DF_1_PIE, or there is a PT_INTERP and no DT_SONAME. The same bytes with type ET_EXEC are accepted as a program. The first PT_LOAD begins in page 0. The section of the dynamic symbol table has SHF_ALLOC. No PT_LOAD loads a byte of the section header table. Nothing that `fix` writes shares a byte with the strings, the hash tables, the version tables or the section of section names. The entry and the values of symbols that move are below 2^47. No symbol would be a definer but for its value 0. Each symbol of a relocation that binds to itself is absolute or has a section, and no COPY has a symbol that binds to itself.
#[tactic(auto, using(crate::proofs::CallLaws::pie_none), unfolding(crate::specs::Pie::pie))]
pub fn is_pie(alloc: Global, bytes: &[u8]) -> Result<Option<Object>, NoMemory>
    requires { length bytes.now < 2 ^ 32 }
    ensures { IfOk result (λ o. o ≡ spec.pie bytes.now) }
{
    if bytes.len() < HEADER_SIZE {
        return Ok(None);
    }
    if !has_pie_type(bytes) {
        return Ok(None);
    }
    let program = as_program(alloc, bytes)?;
    let object = match accept(alloc, &program) {
        Ok(object) => object,
        Err(Refusal::NoMemory) => return Err(NoMemory),
        Err(Refusal::Clause { .. }) => return Ok(None),
    };
    match is_pie_object(alloc, bytes, &program, &object) {
        Ok(true) => Ok(Some(object)),
        Ok(false) => {
            drop(object);
            Ok(None)
        }
        Err(_) => {
            drop(object);
            Err(NoMemory)
        }
    }
}
