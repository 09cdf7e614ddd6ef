// All files of the set.
ghost use Rattle.std.specs.Prelude.{◌≡◌, ◌<◌, ◌*◌, ◌++◌, map, IfOk, OnOk};
ghost use Rattle.std.specs.List.{range_with_len};
ghost use Rattle.pl_gen.specs.Draws.{after};
ghost use Rattle.pl_gen.specs.Set as spec;

use crate::draws::{draw, seeded};
use crate::lines::{library_name, program_name};
use crate::recipes::{LIBRARY_WORDS, PROGRAM_WORDS, library_recipe, program_recipe};
use pl_io::NoMemory;
use rand_pcg::Lcg128Xsl64;
use std::alloc::{AllocError, Global};

/// A file of the set.
#[derive(Drop)]
pub struct DemoFile {
    /// Its name.
    pub name: String,

    /// The recipe of its bytes.
    pub recipe: String,
}

/// Draws so many libraries.
fn push_libraries(
    alloc: Global,
    files: &mut Vec<DemoFile>,
    generator: &mut Lcg128Xsl64,
    count: u64,
) -> Result<(), AllocError>
    ensures files { OnOk result (spec.seen files.new.items ≡ spec.seen files.old.items
        ++ map (spec.library count generator.old) (range_with_len 0 count)) }
    ensures generator { OnOk result (generator.new ≡ after (322 * count) generator.old) }
{
    for index in 0..count {
        let words = draw(alloc, generator, LIBRARY_WORDS)?;
        files.push(DemoFile {
            name: library_name(alloc, index)?,
            recipe: library_recipe(alloc, count, index, words.as_slice())?,
        })?;
    }
    Ok(())
}

/// Draws so many programs, beside so many libraries.
fn push_programs(
    alloc: Global,
    files: &mut Vec<DemoFile>,
    generator: &mut Lcg128Xsl64,
    libraries: u64,
    count: u64,
) -> Result<(), AllocError>
    requires { 0 < libraries }
    ensures { OnOk result (spec.seen files.new.items ≡ spec.seen files.old.items
        ++ map (spec.program libraries generator.old) (range_with_len 0 count)) }
{
    for index in 0..count {
        let words = draw(alloc, generator, PROGRAM_WORDS)?;
        files.push(DemoFile {
            name: program_name(alloc, index)?,
            recipe: program_recipe(alloc, libraries, words.as_slice())?,
        })?;
    }
    Ok(())
}

/// The set of files that a number draws: 8 to 64 libraries, then 1 to 12 programs, each with its name and its recipe. The words are those of the generator PCG XSL RR 128/64 that the number seeds. It fails only for want of memory.
#[tactic(auto, unfolding(crate::specs::Set::demo_set))]
pub fn demo_set(alloc: Global, number: u64) -> Result<Vec<DemoFile>, NoMemory>
    ensures { IfOk result (λ files. spec.seen files.items ≡ spec.demo_set number) }
{
    let mut generator = seeded(number);
    let head = draw(alloc, &mut generator, 2)?;
    let words = head.as_slice();
    let (libraries, programs) = (8 + words[0] % 57, 1 + words[1] % 12);
    let mut files = Vec::new(alloc);
    push_libraries(alloc, &mut files, &mut generator, libraries)?;
    push_programs(alloc, &mut files, &mut generator, libraries, programs)?;
    Ok(files)
}
