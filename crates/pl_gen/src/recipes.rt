// The recipes of a library and of a program.
ghost use Rattle.std.specs.Prelude.{◌≡◌, ◌<◌, ◌*◌, ◌+◌, ◌≤◌, ◌^◌, ◌++◌, [], length, string_bytes, IfOk, OnOk};
ghost use Rattle.pl_gen.specs.Lines as lines;
ghost use Rattle.pl_gen.specs.Set as spec;

use crate::draws::remainders;
use crate::lines::{copy_line, def_line, needs_line, object_line};
use crate::relocations::push_relocations;
use std::alloc::{AllocError, Global};

/// How many words a library draws: two for libraries that it needs, one for each of 64 functions, two for each of 128 relocations.
pub const LIBRARY_WORDS: usize = 322;

/// How many words a program draws: three for libraries that it needs, two for each of 64 relocations.
pub const PROGRAM_WORDS: usize = 131;

/// Adds the line of a function that is defined, where it is not one of those before.
fn push_def(
    alloc: Global,
    out: &mut String,
    before: &[u64],
    offset: u64,
    number: u64,
) -> Result<(), AllocError>
    ensures { OnOk result (string_bytes out.new ≡ string_bytes out.old
        ++ lines.unless_there before.now number (lines.def_line offset number)) }
{
    if !before.contains(&number) {
        out.push_str(def_line(alloc, offset, number)?.as_str())?;
    }
    Ok(())
}

/// Adds the lines of functions that are defined, each once, and 8 bytes behind the one of the turn before.
fn push_defs(alloc: Global, out: &mut String, functions: &[u64]) -> Result<(), AllocError>
    requires { 8 * length functions.now ≤ 2 ^ 32 }
    ensures { OnOk result (string_bytes out.new ≡ string_bytes out.old
        ++ lines.def_lines [] 0 functions.now) }
{
    for turn in 0..functions.len() {
        let offset = 8 * turn as u64;
        push_def(alloc, out, &functions[..turn], offset, functions[turn])?;
    }
    Ok(())
}

/// Adds the line of a needed library, where it is not one of those before.
fn push_needed(
    alloc: Global,
    out: &mut String,
    before: &[u64],
    library: u64,
) -> Result<(), AllocError>
    ensures { OnOk result (string_bytes out.new ≡ string_bytes out.old
        ++ lines.unless_there before.now library (lines.needs_line library)) }
{
    if !before.contains(&library) {
        out.push_str(needs_line(alloc, library)?.as_str())?;
    }
    Ok(())
}

/// Adds the lines of needed libraries, each once.
fn push_needs(alloc: Global, out: &mut String, libraries: &[u64]) -> Result<(), AllocError>
    ensures { OnOk result (string_bytes out.new ≡ string_bytes out.old
        ++ lines.needs_lines [] libraries.now) }
{
    for turn in 0..libraries.len() {
        push_needed(alloc, out, &libraries[..turn], libraries[turn])?;
    }
    Ok(())
}

/// The recipe of the library of an index, among so many.
#[tactic(auto, unfolding(crate::specs::Set::library_recipe))]
pub fn library_recipe(
    alloc: Global,
    count: u64,
    index: u64,
    words: &[u64],
) -> Result<String, AllocError>
    requires index { index < count }
    requires words { length words.now ≡ 322 }
    ensures { IfOk result (λ text. string_bytes text ≡ spec.library_recipe count index words.now) }
{
    let functions = remainders(alloc, &words[2..66], 1000)?;
    let mut recipe = String::from_str(alloc, "library\nhash both\nbuckets 8\n")?;
    recipe.push_str(needs_line(alloc, (index + 1) % count)?.as_str())?;
    recipe.push_str(needs_line(alloc, words[0] % count)?.as_str())?;
    recipe.push_str(needs_line(alloc, words[1] % count)?.as_str())?;
    recipe.push_str("data 1000\n")?;
    push_defs(alloc, &mut recipe, functions.as_slice())?;
    recipe.push_str(object_line(alloc, index)?.as_str())?;
    push_relocations(alloc, &mut recipe, functions, 0x808, &words[66..322])?;
    Ok(recipe)
}

/// The recipe of a program, beside so many libraries.
#[tactic(auto, unfolding(crate::specs::Set::program_recipe))]
pub fn program_recipe(alloc: Global, count: u64, words: &[u64]) -> Result<String, AllocError>
    requires some { 0 < count }
    requires words { length words.now ≡ 131 }
    ensures { IfOk result (λ text. string_bytes text ≡ spec.program_recipe count words.now) }
{
    let needed = remainders(alloc, &words[..3], count)?;
    let mut recipe = String::from_str(alloc, "program\nhash gnu\nbuckets 8\n")?;
    push_needs(alloc, &mut recipe, needed.as_slice())?;
    recipe.push_str("data 800\n")?;
    push_relocations(alloc, &mut recipe, Vec::new(alloc), 0, &words[3..131])?;
    recipe.push_str("bss 8\n")?;
    recipe.push_str(object_line(alloc, words[0] % count)?.as_str())?;
    recipe.push_str(copy_line(alloc, words[0] % count)?.as_str())?;
    Ok(recipe)
}
