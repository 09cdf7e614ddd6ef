ghost use Rattle.std.specs.Prelude.{◌≡◌, ◌++◌, IfOk, OnOk};
ghost use Rattle.std.specs.List.{flat_map};
ghost use Rattle.pl_folder.specs.InMemory.{quiet_files};
ghost use Rattle.pl_demo.specs.Demo as spec;
ghost use Rattle.pl_demo.specs.Made.{no_files};

use crate::Counts;
use crate::counting::all_counts;
use crate::making::make_files;
use crate::prelinking::prelink;
use pl_base::{Rows, Text};
use pl_folder::QuietFolder;
use pl_gen::{DemoFile, demo_set};
use pl_io::NoMemory;
use std::alloc::{AllocError, Global};

/// The set of files that a number draws, prelinked.
#[derive(Drop)]
pub struct DemoFolder {
    /// The folder that has them.
    pub folder: QuietFolder,

    /// How many files the set has.
    pub size: usize,

    /// What its files have.
    pub counts: Counts,

    /// The names of its programs, in the order in which it draws them.
    pub programs: Rows<Text>,
}

/// Whether a name is that of a program of a set.
#[tactic(auto, unfolding(crate::specs::Demo::is_program))]
fn is_program(name: &str) -> bool
    ensures { result ≡ spec.is_program name.now }
{
    name.as_bytes().starts_with(b"prog")
}

/// Adds the name of a file, where it is a program's.
fn push_program(alloc: Global, names: &mut Rows<Text>, file: &DemoFile) -> Result<(), AllocError>
    ensures { OnOk result (names.new ≡ names.old ++ spec.program_name file.now) }
{
    let name = file.name.as_str();
    if is_program(name) {
        names.push(Text::copy_of(alloc, name)?)?;
    }
    Ok(())
}

/// The names of a set's programs.
fn programs_of(alloc: Global, set: &[DemoFile]) -> Result<Rows<Text>, AllocError>
    ensures { IfOk result (λ names. names ≡ flat_map spec.program_name set.now) }
{
    let mut names = Rows::new(alloc);
    for file in set {
        push_program(alloc, &mut names, file)?;
    }
    Ok(names)
}

/// A folder without files.
fn no_folder(alloc: Global) -> Result<QuietFolder, NoMemory>
    ensures { IfOk result (λ folder. quiet_files folder ≡ no_files) }
{
    let files: Vec<(String, Vec<u8>)> = Vec::new(alloc);
    let folder = QuietFolder::new(alloc, files.as_slice())?;
    Ok(folder)
}

/// The set of files that a number draws, each made from its recipe in a folder of its own, and prelinked there as by `-a` at moment 1. A recipe that describes no file, and a run that is refused, leave the folder as it is; no set is known with either. It fails only for want of memory.
pub fn demo_folder(alloc: Global, number: u64) -> Result<DemoFolder, NoMemory>
    ensures folder { IfOk result (λ demo. quiet_files demo.folder ≡ spec.folder number) }
    ensures size { IfOk result (λ demo. demo.size ≡ spec.size number) }
    ensures counts { IfOk result (λ demo. demo.counts ≡ spec.counts number) }
    ensures programs { IfOk result (λ demo. demo.programs ≡ spec.programs number) }
{
    let set = demo_set(alloc, number)?;
    let files = set.as_slice();
    let mut folder = no_folder(alloc)?;
    make_files(alloc, &mut folder, files)?;
    prelink(alloc, &mut folder)?;
    let counts = all_counts(alloc, &mut folder, files)?;
    let programs = programs_of(alloc, files)?;
    Ok(DemoFolder {
        folder,
        size: files.len(),
        counts,
        programs,
    })
}
