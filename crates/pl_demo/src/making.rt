// The files of a set, each made from its recipe.
ghost use Rattle.std.specs.Prelude.{◌≡◌, ◌≢◌, IfOk, None, OnOk, fold, true};
ghost use Rattle.std.specs.FinMap.{contains_key, insert};
ghost use Rattle.pl_base.specs.Names.{IsNameLength};
ghost use Rattle.pl_folder.specs.Calls.{IsPlain};
ghost use Rattle.pl_folder.specs.Effects.{files_after_append};
ghost use Rattle.pl_folder.specs.InMemory.{quiet_files};
ghost use Rattle.pl_demo.specs.Made as spec;

use pl_base::{Rows, is_valid_name};
use pl_build::{RecipeFault, build};
use pl_folder::{Folder, FolderFault, QuietFolder, STORED};
use pl_gen::DemoFile;
use pl_io::NoMemory;
use std::alloc::Global;

/// The most bytes of a recipe: 1 MiB.
pub const RECIPE: usize = 1_048_576;

/// A file that a folder stores. No other one is there.
fn if_stored(bytes: Rows<u8>) -> Option<Rows<u8>>
    ensures { result ≡ spec.if_stored bytes }
{
    if bytes.len() > STORED {
        return None;
    }
    Some(bytes)
}

/// A recipe with a fault has no file.
fn unbuilt(fault: RecipeFault) -> Result<Option<Rows<u8>>, NoMemory>
    ensures none { IfOk result (λ file. file ≡ None) }
    ensures bad { OnOk result (spec.is_bad fault ≡ true) }
{
    match fault {
        RecipeFault::Bad { .. } => Ok(None),
        RecipeFault::NoMemory => Err(NoMemory),
    }
}

/// The file that a recipe describes, where it describes one that a folder stores.
fn made(alloc: Global, recipe: &[u8]) -> Result<Option<Rows<u8>>, NoMemory>
    ensures { IfOk result (λ file. file ≡ spec.made recipe.now) }
{
    if recipe.len() > RECIPE {
        return Ok(None);
    }
    match build(alloc, recipe) {
        Ok(bytes) => Ok(if_stored(bytes)),
        Err(fault) => unbuilt(fault),
    }
}

/// What a call that changes a folder in memory lacked. No call of such a folder fails, so that is memory alone.
fn lacked(fault: FolderFault) -> NoMemory
    requires plain { IsPlain fault }
    requires never_fails { fault ≢ FolderFault.Failed }
{
    match fault {
        FolderFault::NoMemory => NoMemory,
        FolderFault::Failed => unreachable!(),
        FolderFault::NotThere => unreachable!(),
        FolderFault::TooLarge => unreachable!(),
    }
}

/// Adds bytes at the end of a file that is there.
fn append(alloc: Global, folder: &mut QuietFolder, name: &str, bytes: &[u8]) -> Result<(), NoMemory>
    requires length { IsNameLength name.now }
    requires there { contains_key (quiet_files folder.old) name.now ≡ true }
    ensures { OnOk result (quiet_files folder.new
        ≡ files_after_append (quiet_files folder.old) name.now bytes.now) }
{
    match folder.append(alloc, name, bytes) {
        Ok(()) => Ok(()),
        Err(fault) => Err(lacked(fault)),
    }
}

/// Gives a name these bytes.
fn put(alloc: Global, folder: &mut QuietFolder, name: &str, bytes: &[u8]) -> Result<(), NoMemory>
    requires { IsNameLength name.now }
    ensures { OnOk result (quiet_files folder.new
        ≡ insert (quiet_files folder.old) name.now bytes.now) }
{
    match folder.create(alloc, name) {
        Ok(()) => append(alloc, folder, name, bytes),
        Err(fault) => Err(lacked(fault)),
    }
}

/// Gives a name the file that was made, if there is one.
fn put_made(
    alloc: Global,
    folder: &mut QuietFolder,
    name: &str,
    made: Option<Rows<u8>>,
) -> Result<(), NoMemory>
    requires { IsNameLength name.now }
    ensures { OnOk result (quiet_files folder.new
        ≡ spec.with_made made name.now (quiet_files folder.old)) }
{
    match made {
        Some(bytes) => put(alloc, folder, name, bytes.as_slice()),
        None => Ok(()),
    }
}

/// Makes a file from its recipe, under a valid name.
fn make_file(
    alloc: Global,
    folder: &mut QuietFolder,
    name: &str,
    recipe: &[u8],
) -> Result<(), NoMemory>
    ensures { OnOk result (quiet_files folder.new
        ≡ spec.with_file (quiet_files folder.old) (name.now, recipe.now)) }
{
    if !is_valid_name(name.as_bytes()) {
        return Ok(());
    }
    let bytes = made(alloc, recipe)?;
    put_made(alloc, folder, name, bytes)
}

/// Makes the files of a set, one after the other.
pub fn make_files(alloc: Global, folder: &mut QuietFolder, set: &[DemoFile]) -> Result<(), NoMemory>
    ensures { OnOk result (quiet_files folder.new
        ≡ fold spec.with_demo_file (quiet_files folder.old) set.now) }
{
    for file in set {
        make_file(alloc, folder, file.name.as_str(), file.recipe.as_bytes())?;
    }
    Ok(())
}
