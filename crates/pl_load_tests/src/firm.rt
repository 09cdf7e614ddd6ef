// Files of recipes, those that have a form, and what stands at a program's places: bytes of an image, or one byte all over.
ghost use Rattle.std.specs.Prelude.{◌≡◌, ◌++◌, ◌∷◌, [], map, filter, length, IfOk, OnOk};
ghost use Rattle.pl_form.specs.Faults.{IsFirm};
ghost use Rattle.pl_form.specs.Words as spec;
ghost use Rattle.pl_object.specs.Relocations.{places};

use pl_base::Rows;
use pl_build::build;
use pl_elf::Range;
use pl_elf::constants::R_X86_64_NONE;
use pl_form::{Fill, check_form};
use pl_image::Image;
use pl_object::{ORIGINAL, Object, Reloc, accept};
use std::alloc::{AllocError, Global};
use std::test::Fail;

// A region without any address.
const NOWHERE: Range = Range { start: 0, end: 0 };

/// The file of a recipe, whose lines semicolons part.
pub fn file_of(alloc: Global, recipe: &str) -> Result<Vec<u8>, Fail> {
    let recipe = recipe.replace(alloc, "; ", "\n")?;
    if recipe.len() > 0x1000 {
        return Err("a short recipe".into());
    }
    Ok(build(alloc, recipe.as_bytes())?.into_vec())
}

/// The object of a file that has a form.
pub fn object_of(alloc: Global, file: &[u8]) -> Result<Object, Fail>
    ensures { IfOk result (IsFirm file.now) }
{
    if file.len() > ORIGINAL {
        return Err("a short file".into());
    }
    let object = accept(alloc, file)?;
    if object.kind.is_static() {
        return Err("a dynamic file".into());
    }
    check_form(&object, NOWHERE)?;
    Ok(object)
}

/// The byte that stands everywhere where there is no image.
const FILLED: u8 = 0xa7;

fn byte_of(image: Option<&Image<'_>>, address: u64) -> u8 {
    match image {
        None => FILLED,
        Some(image) => image.byte(address).unwrap_or(0),
    }
}

/// The bytes from an address on.
fn bytes_of(
    alloc: Global,
    image: Option<&Image<'_>>,
    address: u64,
    size: u64,
) -> Result<Vec<u8>, AllocError>
    ensures { IfOk result (λ bytes. length bytes.items ≡ size) }
{
    let mut bytes = Vec::new(alloc);
    for index in 0..size {
        bytes.push(byte_of(image, address.wrapping_add(index)))?;
    }
    Ok(bytes)
}

/// Adds the fill of a relocation, if it has a place.
fn push_fill(
    alloc: Global,
    fills: &mut Vec<Fill>,
    reloc: &Reloc,
    image: Option<&Image<'_>>,
) -> Result<(), AllocError>
    ensures { OnOk result (map spec.fill_window fills.new.items ≡ map spec.fill_window fills.old.items ++ places (filter spec.has_place (reloc.now ∷ []))) }
{
    if reloc.kind == R_X86_64_NONE {
        return Ok(());
    }
    let bytes = bytes_of(alloc, image, reloc.address, reloc.width)?;
    fills.push(Fill {
        address: reloc.address,
        bytes: Rows::from_vec(bytes),
    })?;
    Ok(())
}

/// A fill for each relocation that has a place.
pub fn fills_of(
    alloc: Global,
    relocations: &[Reloc],
    image: Option<&Image<'_>>,
) -> Result<Vec<Fill>, AllocError>
    ensures { IfOk result (λ fills. spec.AreFills fills.items relocations.now) }
{
    let mut fills = Vec::new(alloc);
    for reloc in relocations {
        push_fill(alloc, &mut fills, reloc, image)?;
    }
    Ok(fills)
}
