// What is loaded of a file of a program's walk.
ghost use Rattle.std.specs.Prelude.{◌<◌, ◌^◌, IfOk, length};
ghost use Rattle.std.specs.Option.{ForSome, option_map};
ghost use Rattle.pl_base.specs.Answers.{Answers};
ghost use Rattle.pl_loader.specs.Faults.{is_memory};
ghost use Rattle.pl_place.specs.Policy as policy;
ghost use Rattle.pl_loader.specs.Given as spec;

use crate::{GivenFile, LoadFault};
use pl_base::Text;
use pl_pie::{Placing, fix_placed};
use pl_place::{Holes, Placer};
use std::alloc::Global;

/// What is loaded of the bytes of a program's own file.
fn first_file<F: Fn(&Holes, u64, u64) -> Option<u64>>(
    alloc: Global,
    placer: &Placer<F>,
    name: &str,
    bytes: Vec<u8>,
) -> Result<GivenFile, LoadFault>
    requires policy { spec.MayPlace F.pre F.post placer.now }
    requires few { length bytes.items < 2 ^ 32 }
    ensures means { (choose : policy.Choice) → policy.Follows (F.post placer.now) choose →
        Answers is_memory result (spec.first_of choose name.now bytes.items) }
    ensures few { IfOk result (λ file. length file < 2 ^ 32) }
{
    match fix_placed(alloc, placer, &bytes)? {
        Placing::NotPie => Ok(GivenFile::new(bytes)),
        Placing::NoPlace => Err(LoadFault::NoPlace(Text::copy_of(alloc, name)?)),
        Placing::Fixed { program, .. } => Ok(GivenFile::fixed(alloc, program)?),
    }
}

/// What is loaded of the bytes of the file of a name of the walk of a program that is loaded: of its own file, where that is a position-independent program, the program that it becomes where the policy places it, whatever is busy; any other file is loaded as it is. A file has fewer than 2^32 bytes.
///
/// `NoPlace` comes where the policy finds no place for the program.
pub fn given_file<F: Fn(&Holes, u64, u64) -> Option<u64>>(
    alloc: Global,
    placer: &Placer<F>,
    loaded: &str,
    name: &str,
    bytes: Vec<u8>,
) -> Result<GivenFile, LoadFault>
    requires policy { spec.MayPlace F.pre F.post placer.now }
    requires few { length bytes.items < 2 ^ 32 }
    // Where the policy follows a function, the file is given as that says.
    ensures means { spec.GivesFile (F.post placer.now) loaded.now name.now bytes.items result }
    ensures few { IfOk result (λ file. length file < 2 ^ 32) }
{
    if name == loaded {
        return first_file(alloc, placer, name, bytes);
    }
    Ok(GivenFile::new(bytes))
}

/// What is loaded of the file of a name of the walk of a program that is loaded, as `given_file` gives it; None where there is no file.
pub fn given_if_there<F: Fn(&Holes, u64, u64) -> Option<u64>>(
    alloc: Global,
    placer: &Placer<F>,
    loaded: &str,
    name: &str,
    file: Option<Vec<u8>>,
) -> Result<Option<GivenFile>, LoadFault>
    requires policy { spec.MayPlace F.pre F.post placer.now }
    requires few { ForSome file (λ bytes. length bytes.items < 2 ^ 32) }
    // Where the policy follows a function, the file is given as that says.
    ensures means { spec.GivesFileIfThere (F.post placer.now) loaded.now name.now
        (option_map (λ bytes. bytes.items) file) result }
    ensures few { IfOk result (λ file. ForSome file (λ given. length given < 2 ^ 32)) }
{
    match file {
        Some(bytes) => Ok(Some(given_file(alloc, placer, loaded, name, bytes)?)),
        None => Ok(None),
    }
}
