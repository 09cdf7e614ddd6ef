// Programs of recipes fixed at addresses and loosened again, and files that are none.
ghost use Rattle.std.specs.Prelude.{◌≡◌, ◌<◌, ◌^◌, length, Some, IfOk};
ghost use Rattle.pl_pie.specs.Pie.{pie};

use crate::samples::file_of;
use pl_base::end;
use pl_elf::constants::ADDRESS_LIMIT;
use pl_object::{ORIGINAL, Object, accept};
use pl_pie::constants::REGION_START;
use pl_pie::{fix, is_pie, unfix};
use std::alloc::Global;
use std::test::Fail;

const PROGRAMS: &str = "\
pie; needs liba; entry 0; data 10; ref f global func; rel globdat 0 f 0; rel relative 8 - 0\n\
pie; data 10; rel packed 0 - 8\n\
pie; usual; hash both; needs liba; data 20; bss 10; tls 0 0 8 8; ref f global func at 10; def g global func 8 8; def t global tls 0 4; rel jumpslot 0 f 0; rel abs64 8 g 0; rel relative 10 - 18; rel tpoff 18 t 0\n\
pie; needs liba; data 18; bss 8; ref f global func; def x global object 10 8; rel copy 10 x 0; rel packed 0 - 8\n\
pie; version V1; needs liba; data 8; def g@@V1 global func 0 8; ref f@S global func from liba; rel globdat 0 f@S 0";

// A library, a program at fixed addresses, and a program whose COPY binds to itself.
const OTHERS: &str = "\
library; data 8; word 0 1111; def f global func 0 8\n\
program; data 10; rel relative 0 - 8\n\
pie; data 10; def x global object 0 8 protected; rel copy 8 x 0";

/// The file of a recipe, of fewer than 2^32 bytes.
fn short_file(alloc: Global, recipe: &str) -> Result<Vec<u8>, Fail>
    ensures { IfOk result (λ v. length v.items < 2 ^ 32) }
{
    let file = file_of(alloc, recipe)?;
    if file.len() > ORIGINAL {
        return Err("a short file".into());
    }
    Ok(file)
}

/// A position-independent program fixed at an address.
fn fixed_at(alloc: Global, file: &[u8], object: &Object, address: u64) -> Result<Vec<u8>, Fail>
    requires object { pie file.now ≡ Some object.now }
    requires few { length file.now < 2 ^ 32 }
    ensures { IfOk result (λ v. length v.items < 2 ^ 32) }
{
    if object.align == 0 || address % object.align != 0 {
        return Err("an aligned address".into());
    }
    if end(address, object.span) > u128::from(ADDRESS_LIMIT) {
        return Err("a low address".into());
    }
    let fixed = fix(alloc, file, object, address)?;
    if fixed.len() > ORIGINAL {
        return Err("a short file".into());
    }
    Ok(fixed)
}

/// Whether a program fixed at an address is accepted there, and is the file again when it is loosened.
fn is_fixed_at(alloc: Global, file: &[u8], object: &Object, address: u64) -> Result<bool, Fail>
    requires object { pie file.now ≡ Some object.now }
    requires few { length file.now < 2 ^ 32 }
{
    let fixed = fixed_at(alloc, file, object, address)?;
    let again = accept(alloc, &fixed)?;
    match unfix(alloc, &fixed)? {
        None => Ok(false),
        Some(loosened) => {
            let is_same = loosened.as_slice() == file;
            Ok(is_same && again.span == object.span.wrapping_add(address))
        }
    }
}

/// Whether the program of a recipe is fixed so at three addresses of the region.
fn is_fixed(alloc: Global, recipe: &str) -> Result<bool, Fail> {
    let file = short_file(alloc, recipe)?;
    let Some(object) = is_pie(alloc, &file)? else {
        return Err("no position-independent program".into());
    };
    let first = is_fixed_at(alloc, &file, &object, REGION_START)?;
    let second = is_fixed_at(alloc, &file, &object, REGION_START + 0x1000)?;
    let last = is_fixed_at(alloc, &file, &object, REGION_START + 0xeff_e000)?;
    Ok(first && second && last)
}

/// Whether the file of a recipe is no program to be fixed or loosened.
fn is_left(alloc: Global, recipe: &str) -> Result<bool, Fail> {
    let file = short_file(alloc, recipe)?;
    let object = is_pie(alloc, &file)?;
    let loosened = unfix(alloc, &file)?;
    Ok(object.is_none() && loosened.is_none())
}

#[test]
fn fixes_and_loosens(rt: HostRuntime) -> Result<(), Fail> {
    for recipe in PROGRAMS.lines() {
        if !is_fixed(rt.alloc(), recipe)? {
            return Err(recipe.into());
        }
    }
    Ok(())
}

#[test]
fn leaves_other_files(rt: HostRuntime) -> Result<(), Fail> {
    for recipe in OTHERS.lines() {
        if !is_left(rt.alloc(), recipe)? {
            return Err(recipe.into());
        }
    }
    Ok(())
}
