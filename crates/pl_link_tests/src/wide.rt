// Look-ups in a scope of a program and 255 times one library: 16,384 weak references, which find nothing, to names that none of the library's 16,384 definers has.
ghost use Rattle.std.specs.Prelude.{IsSome};
ghost use Rattle.pl_scope.specs.Walking.{wants};
ghost use Rattle.pl_scope.specs.Scope.{objects, IsAccepted, IsSymbol};

use crate::samples::{accepted, needs};
use crate::scope::is_symbol;
use pl_base::Text;
use pl_build::build;
use pl_elf::constants::R_X86_64_GLOB_DAT;
use pl_loader::{GivenFile, Loader, Started};
use pl_object::Object;
use pl_place::{Holes, Placer, lowest};
use pl_scope::{Kept, MAX_MEMBERS, Member, Reference, Scope};
use std::alloc::{AllocError, Global};
use std::process::Abort;
use std::test::Fail;

const SYMBOLS: u32 = 0x4000;

const LIBRARIES: u32 = 255;

// A weak reference, and the relocation of its word.
fn reference(alloc: Global, symbol: u32) -> Result<String, AllocError> {
    let place = symbol.wrapping_mul(8);
    format!(in alloc; "ref r{symbol:04x} weak func\nrel globdat {place:x} r{symbol:04x} 0\n")
}

fn program(alloc: Global) -> Result<String, AllocError> {
    let mut recipe = String::from_str(alloc, "program\nhash gnu\ndata 20000\n")?;
    recipe.push_str(needs(alloc, LIBRARIES as usize)?.as_str())?;
    for symbol in 0..SYMBOLS {
        recipe.push_str(reference(alloc, symbol)?.as_str())?;
    }
    Ok(recipe)
}

fn library(alloc: Global) -> Result<String, AllocError> {
    let mut recipe = String::from_str(alloc, "library\nhash gnu\nbuckets 1000\ndata 8\n")?;
    for symbol in 0..SYMBOLS {
        let line = format!(in alloc; "def d{symbol:04x} global func 0 8\n")?;
        recipe.push_str(line.as_str())?;
    }
    Ok(recipe)
}

fn file(alloc: Global, recipe: &str) -> Result<Vec<u8>, Fail> {
    if recipe.len() > 0x10_0000 {
        return Err("a short recipe".into());
    }
    Ok(build(alloc, recipe.as_bytes())?.into_vec())
}

// Two bytes of the program's data, which all relocations set.
fn expect_zeros(rt: &impl Abort, started: &Started<'_>) {
    assert_eq!(rt; started.image.byte(0x50_0000), Some(0));
    assert_eq!(rt; started.image.byte(0x51_ffff), Some(0));
}

// Gives the name that is wanted its file.
fn give<F>(alloc: Global, loader: &mut Loader<'_, F>, file: &[u8]) -> Result<(), Fail>
    requires { IsSome (wants loader.old.walk.order) }
{
    if file.len() > 0x10_0000 {
        return Err("a short file".into());
    }
    Ok(loader.give(alloc, Some(GivenFile::new(file.to_vec(alloc)?)))?)
}

#[test]
fn wide(rt: HostRuntime) -> Result<(), Fail> {
    let alloc: Global = rt.alloc();
    let program = file(alloc, program(alloc)?.as_str())?;
    let library = file(alloc, library(alloc)?.as_str())?;
    let placer = Placer::new(|holes: &Holes, span: u64, align: u64| lowest(holes, span, align));
    let mut loader = Loader::new(alloc, "p", None, &placer)?;
    for index in 0..MAX_MEMBERS {
        if loader.wants().is_none() {
            return Err("fewer members".into());
        }
        give(
            alloc,
            &mut loader,
            if index == 0 { &program } else { &library },
        )?;
    }
    if loader.wants().is_some() {
        return Err("more members".into());
    }
    expect_zeros(&rt, &loader.start(alloc)?);
    Ok(())
}

// The scope of a program and a library, the library 255 times.
fn scope_of<'a>(
    alloc: Global,
    program: &'a Object,
    library: &'a Object,
) -> Result<Scope<'a>, AllocError>
    requires program { IsAccepted program.now }
    requires library { IsAccepted library.now }
{
    let mut members = Vec::new(alloc);
    members.push(Member {
        name: Text::copy_of(alloc, "p")?,
        object: program,
    })?;
    for index in 0..LIBRARIES {
        members.push(Member {
            name: Text::copy_of(alloc, format!(in alloc; "lib{index}")?.as_str())?,
            object: library,
        })?;
    }
    Ok(Scope::new(members))
}

// How many of so many look-ups of one reference find something.
fn count_found(kept: &mut Kept<'_, '_>, reference: Reference, times: u32) -> u32
    requires { IsSymbol (objects kept.old) reference.member reference.symbol }
{
    let mut count = 0u32;
    for _time in 0..times {
        if kept.find(reference).is_some() {
            count = count.saturating_add(1);
        }
    }
    count
}

#[test]
fn again(rt: HostRuntime) -> Result<(), Fail> {
    let alloc: Global = rt.alloc();
    let program = accepted(alloc, &file(alloc, program(alloc)?.as_str())?)?;
    let library = accepted(alloc, &file(alloc, library(alloc)?.as_str())?)?;
    let scope = scope_of(alloc, &program, &library)?;
    let reference = Reference {
        member: 0,
        symbol: 1,
        kind: R_X86_64_GLOB_DAT,
    };
    if !is_symbol(&scope, reference) {
        return Err("a symbol".into());
    }
    let mut kept = Kept::new(alloc, &scope)?;
    assert_eq!(rt; count_found(&mut kept, reference, 1 << 27), 0);
    Ok(())
}
