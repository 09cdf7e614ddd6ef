//! The files of a folder that a run prelinks or verifies.
ghost use Rattle.std.specs.Prelude.{◌≡◌, All, IfOk, filter, length, map, string_bytes};
ghost use Rattle.pl_base.specs.Names.{IsNameLength, is_valid_name};
ghost use Rattle.pl_form.specs.Files.{original_in};
ghost use Rattle.pl_change.specs.Answers.{Finds};
ghost use Rattle.pl_change.specs.Folder.{all_files};
ghost use Rattle.pl_change.specs.Names.{file_of};
ghost use Rattle.pl_rewrite.specs.Taken.{IsTaken, names_of};
ghost use Rattle.pl_batch.specs.Folder as spec;

use pl_base::{Rows, Text, is_valid_name};
use pl_change::{BatchFault, FOLDER, take};
use pl_elf::Range;
use pl_folder::Folder;
use pl_form::{Entry, File};
use pl_rewrite::{Taken, take_file};
use std::alloc::Global;

/// The file of a name, with what it is; its original's form fault is that under a region of slots.
pub(crate) fn take_one<D: Folder>(
    alloc: Global,
    folder: &mut D,
    name: &str,
    region: Range,
) -> Result<Taken, BatchFault>
    requires { IsNameLength name.now }
    ensures found { Finds (file_of (D.seen folder.old).files name.now) (λ taken. taken.bytes) result
        (D.seen folder.old) (D.seen folder.new) }
    ensures name { IfOk result (λ taken. taken.name ≡ name.now) }
    ensures is { IfOk result (IsTaken region) }
{
    let bytes = take(alloc, folder, name)?;
    let name = Text::copy_of(alloc, name)?;
    Ok(take_file(alloc, name, bytes, region)?)
}

/// The files of those of these names that are valid, in their order.
pub(crate) fn take_valid<D: Folder>(
    alloc: Global,
    folder: &mut D,
    names: &[String],
    region: Range,
) -> Result<Rows<Taken>, BatchFault>
    requires { All (λ name. IsNameLength (string_bytes name)) names.now }
    ensures found { Finds (all_files (D.seen folder.old).files
        (filter is_valid_name (map string_bytes names.now)))
        (map (λ taken. taken.bytes)) result
        (D.seen folder.old) (D.seen folder.new) }
    ensures names { IfOk result (λ files. names_of files
        ≡ filter is_valid_name (map string_bytes names.now)) }
    ensures each { IfOk result (All (IsTaken region)) }
{
    let mut files = Rows::new(alloc);
    for name in names {
        if !is_valid_name(name.as_str().as_bytes()) {
            continue;
        }
        let taken = take_one(alloc, folder, name.as_str(), region)?;
        files.push(taken)?;
    }
    Ok(files)
}

/// How many bytes the original of a file of so many has; any file but a prelinked one is its own original.
fn size_by(size: usize, entry: &Entry) -> usize
    ensures { result ≡ spec.size_by size entry.now }
{
    match entry {
        Entry::There(File::Plain(_)) => size,
        Entry::There(File::Marked(marked)) => marked.original.len(),
        Entry::BadMark => size,
        Entry::Refused { .. } => size,
    }
}

/// How many bytes the original of a file has.
fn original_size(taken: &Taken) -> usize
    requires { spec.IsRead taken.now }
    ensures { result ≡ length (original_in taken.now.bytes) }
{
    size_by(taken.bytes.len(), &taken.entry)
}

/// Whether the originals of files have together more bytes than a run takes.
pub(crate) fn are_large(files: &[Taken]) -> bool
    requires { All spec.IsRead files.now }
    ensures { result ≡ spec.are_large (map (λ taken. taken.bytes) files.now) }
{
    let mut left = FOLDER;
    for taken in files {
        let size = original_size(taken);
        if size > left {
            return true;
        }
        left -= size;
    }
    false
}
