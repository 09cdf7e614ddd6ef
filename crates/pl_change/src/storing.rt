//! What storing a file changes, and removing one.
ghost use Rattle.std.specs.Prelude.{◌≡◌, ◌≤◌, ◌<◌, ◌^◌, ◌∷◌, [], IfOk, Ok, length};
ghost use Rattle.pl_base.specs.Names.{IsNameLength};
ghost use Rattle.pl_folder.specs.declared.TheConstants.{STORED};
ghost use Rattle.pl_folder.specs.Taken.{taken};
ghost use Rattle.pl_form.specs.Files.{file_in};
ghost use Rattle.pl_change.specs.Answers.{Finds, BatchMeansAlone};
ghost use Rattle.pl_journal.specs.declared.change.Change.TheVariants.{Drop, Put};
ghost use Rattle.pl_change.specs.Store as spec;

use crate::room::{has_name, is_full};
use crate::taking::list;
use crate::{BatchFault, Cause};
use pl_base::{Rows, Text, is_valid_name};
use pl_folder::{Folder, FolderFault};
use pl_form::{File, FileFault, Marked, read_file};
use pl_journal::Change;
use pl_object::Refusal;
use std::alloc::{AllocError, Global};

/// A prelinked file's original, which it is taken apart for.
fn original_of(marked: Marked) -> Rows<u8>
    ensures { result ≡ marked.original }
{
    let Marked { original, .. } = marked;
    original
}

fn copy_of(alloc: Global, bytes: &[u8]) -> Result<Rows<u8>, AllocError>
    ensures { IfOk result (λ copy. copy ≡ bytes.now) }
{
    Ok(Rows::from_vec(Vec::from_slice(alloc, bytes)?))
}

/// The bytes that are stored of a file: of a prelinked one its original.
pub(crate) fn stored_as(alloc: Global, name: &str, bytes: &[u8]) -> Result<Rows<u8>, BatchFault>
    requires { length bytes.now < 2 ^ 32 }
    ensures { BatchMeansAlone (spec.stored_as name.now bytes.now (file_in bytes.now)) result }
{
    match read_file(alloc, bytes) {
        Ok(File::Plain(_)) => Ok(copy_of(alloc, bytes)?),
        Ok(File::Marked(marked)) => Ok(original_of(marked)),
        Err(FileFault::BadMark) => Err(BatchFault::Cause(Cause::BadMark(Text::copy_of(
            alloc, name,
        )?))),
        Err(FileFault::Refused(Refusal::NoMemory)) => Err(BatchFault::NoMemory),
        Err(FileFault::Refused(_)) => Ok(copy_of(alloc, bytes)?),
    }
}

/// Whether a folder gives these bytes under a name.
fn has_bytes<D: Folder>(
    alloc: Global,
    folder: &mut D,
    name: &str,
    bytes: &[u8],
) -> Result<bool, BatchFault>
    requires { IsNameLength name.now }
    ensures { Finds (Ok (spec.is_file (taken (D.seen folder.old).files name.now) bytes.now))
        (λ has. has) result
        (D.seen folder.old) (D.seen folder.new) }
{
    match folder.take(alloc, name) {
        Ok(file) => Ok(file.as_slice() == bytes),
        Err(FolderFault::NotThere) => Ok(false),
        Err(FolderFault::TooLarge) => Ok(false),
        Err(FolderFault::Failed) => Err(BatchFault::DiskFailed),
        Err(FolderFault::NoMemory) => Err(BatchFault::NoMemory),
    }
}

/// The one row of a name that gets these bytes.
fn put_row(alloc: Global, name: &str, bytes: Rows<u8>) -> Result<Rows<Change>, AllocError>
    ensures { IfOk result (λ rows. rows ≡ Put name.now bytes ∷ []) }
{
    let name = Text::copy_of(alloc, name)?;
    let mut rows = Rows::new(alloc);
    rows.push(Change::Put { name, bytes })?;
    Ok(rows)
}

/// The one row of a name that is dropped.
fn drop_row(alloc: Global, name: &str) -> Result<Rows<Change>, AllocError>
    ensures { IfOk result (λ rows. rows ≡ Drop name.now ∷ []) }
{
    let name = Text::copy_of(alloc, name)?;
    let mut rows = Rows::new(alloc);
    rows.push(Change::Drop { name })?;
    Ok(rows)
}

/// The row of a name that gets these bytes, where it has not.
pub(crate) fn put<D: Folder>(
    alloc: Global,
    folder: &mut D,
    name: &str,
    bytes: Rows<u8>,
) -> Result<Rows<Change>, BatchFault>
    requires { IsNameLength name.now }
    ensures { Finds (Ok (spec.put (D.seen folder.old).files name.now bytes)) (λ rows. rows) result
        (D.seen folder.old) (D.seen folder.new) }
{
    if has_bytes(alloc, folder, name, bytes.as_slice())? {
        return Ok(Rows::new(alloc));
    }
    Ok(put_row(alloc, name, bytes)?)
}

/// The row of the journal that gives a name these bytes, of a prelinked file its original; no row where it has them. The first cause counts: BadName, BadMark, TooManyFiles.
///
/// The bytes are at most `pl_folder::STORED`. `DiskFailed` comes only where the folder failed. No call writes to the folder.
pub fn installed<D: Folder>(
    alloc: Global,
    folder: &mut D,
    name: &str,
    bytes: &[u8],
) -> Result<Rows<Change>, BatchFault>
    requires { length bytes.now ≤ STORED }
    ensures { Finds (spec.installed (D.seen folder.old).files name.now bytes.now)
        (λ rows. rows) result
        (D.seen folder.old) (D.seen folder.new) }
{
    if !is_valid_name(name.as_bytes()) {
        return Err(BatchFault::Cause(Cause::BadName));
    }
    let original = stored_as(alloc, name, bytes)?;
    let names = list(alloc, folder)?;
    if is_full(&names, name) {
        return Err(BatchFault::Cause(Cause::TooManyFiles));
    }
    put(alloc, folder, name, original)
}

/// What removing a name changes, or the first cause.
pub(crate) fn removed<D: Folder>(
    alloc: Global,
    folder: &mut D,
    name: &str,
) -> Result<Rows<Change>, BatchFault>
    ensures { Finds (spec.removed (D.seen folder.old).files name.now) (λ rows. rows) result
        (D.seen folder.old) (D.seen folder.new) }
{
    if !is_valid_name(name.as_bytes()) {
        return Err(BatchFault::Cause(Cause::BadName));
    }
    let names = list(alloc, folder)?;
    if !has_name(&names, name) {
        return Err(BatchFault::Cause(Cause::NotThere(Text::copy_of(alloc, name)?)));
    }
    Ok(drop_row(alloc, name)?)
}
