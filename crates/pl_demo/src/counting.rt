// How many relocations and conflict rows files have.
ghost use Rattle.std.specs.Prelude.{◌≡◌, ◌<◌, ◌^◌, IfOk, OnOk, fold, length};
ghost use Rattle.pl_base.specs.Names.{IsNameLength};
ghost use Rattle.pl_folder.specs.InMemory.{quiet_files};
ghost use Rattle.pl_folder.specs.Taken.{taken};
ghost use Rattle.pl_form.specs.Files.{file_in};
ghost use Rattle.pl_demo.specs.Counted as spec;

use pl_base::is_valid_name;
use pl_folder::{Folder, FolderFault, QuietFolder};
use pl_form::{File, FileFault, read_file};
use pl_gen::DemoFile;
use pl_io::NoMemory;
use pl_object::Refusal;
use std::alloc::Global;

/// What is counted of files.
#[derive(Clone, Copy, Debug, PartialEq, Eq)]
pub struct Counts {
    /// How many relocations their originals have.
    pub relocations: usize,

    /// How many conflict rows they have.
    pub conflicts: usize,
}

impl Counts {
    /// Nothing.
    fn none() -> Counts
        ensures { result ≡ spec.none }
    {
        Counts {
            relocations: 0,
            conflicts: 0,
        }
    }

    /// The sum of two counts. No memory holds as many as do not fit.
    fn plus(self, other: Counts) -> Result<Counts, NoMemory>
        ensures { IfOk result (λ sum. sum ≡ spec.plus self other) }
    {
        let Some(relocations) = self.relocations.checked_add(other.relocations) else {
            return Err(NoMemory);
        };
        let Some(conflicts) = self.conflicts.checked_add(other.conflicts) else {
            return Err(NoMemory);
        };
        Ok(Counts {
            relocations,
            conflicts,
        })
    }
}

/// What a file has.
fn counts_by(file: &File) -> Counts
    ensures { result ≡ spec.counts_by file.now }
{
    match file {
        File::Plain(object) => Counts {
            relocations: object.relocations.len(),
            conflicts: 0,
        },
        File::Marked(marked) => Counts {
            relocations: marked.object.relocations.len(),
            conflicts: marked.conflicts.len(),
        },
    }
}

/// What the file of these bytes has; nothing where it is refused.
fn counts_in(alloc: Global, bytes: &[u8]) -> Result<Counts, NoMemory>
    requires { length bytes.now < 2 ^ 32 }
    ensures { IfOk result (λ counts. counts ≡ spec.counts_if (file_in bytes.now)) }
{
    match read_file(alloc, bytes) {
        Ok(file) => Ok(counts_by(&file)),
        Err(FileFault::BadMark) => Ok(Counts::none()),
        Err(FileFault::Refused(Refusal::Clause { .. })) => Ok(Counts::none()),
        Err(FileFault::Refused(Refusal::NoMemory)) => Err(NoMemory),
    }
}

/// What the file of a name has; nothing where it is not there.
fn counts_at(alloc: Global, folder: &mut QuietFolder, name: &str) -> Result<Counts, NoMemory>
    requires { IsNameLength name.now }
    ensures counts { IfOk result (λ counts.
        counts ≡ spec.counts_in (taken (quiet_files folder.old) name.now)) }
    ensures same { OnOk result (spec.HasSameFiles folder.old folder.new) }
{
    match folder.take(alloc, name) {
        Ok(bytes) => counts_in(alloc, &bytes),
        Err(FolderFault::NotThere) => Ok(Counts::none()),
        Err(FolderFault::TooLarge) => Ok(Counts::none()),
        Err(FolderFault::Failed) => unreachable!(),
        Err(FolderFault::NoMemory) => Err(NoMemory),
    }
}

/// What the file of a name has. No other name than a valid one has a file.
fn counts_of(alloc: Global, folder: &mut QuietFolder, name: &str) -> Result<Counts, NoMemory>
    ensures counts { IfOk result (λ counts.
        counts ≡ spec.counts_of (quiet_files folder.old) name.now) }
    ensures same { OnOk result (spec.HasSameFiles folder.old folder.new) }
{
    if !is_valid_name(name.as_bytes()) {
        return Ok(Counts::none());
    }
    counts_at(alloc, folder, name)
}

/// What the files of a set have together, as they stand in a folder.
pub fn all_counts(
    alloc: Global,
    folder: &mut QuietFolder,
    set: &[DemoFile],
) -> Result<Counts, NoMemory>
    ensures counts { IfOk result (λ total.
        total ≡ fold (spec.with_counts (quiet_files folder.old)) spec.none set.now) }
    ensures same { OnOk result (spec.HasSameFiles folder.old folder.new) }
{
    let mut total = Counts::none();
    for file in set {
        let counts = counts_of(alloc, folder, file.name.as_str())?;
        total = total.plus(counts)?;
    }
    Ok(total)
}
