//! The copy of a folder in which a weave goes on.
ghost use Rattle.std.specs.Prelude.{◌≡◌, ◌≤◌, ◌++◌, All, IfOk, OnOk, filter, length, map, string_bytes, true};
ghost use Rattle.std.specs.FinMap.{keys};
ghost use Rattle.std.specs.Option.{ForSome, option_map};
ghost use Rattle.pl_base.specs.Files.{file_entry, files_of};
ghost use Rattle.pl_base.specs.Names.{IsNameLength, is_valid_name};
ghost use Rattle.pl_folder.specs.declared.TheConstants.{STORED};
ghost use Rattle.pl_change.specs.Answers.{Finds};
ghost use Rattle.pl_change.specs.Copied as spec;
ghost use Rattle.pl_change.specs.Folder as folders;

use crate::cache::{CACHE, cache_in};
use crate::order::ascend;
use crate::room::{FOLDER, are_many};
use crate::taking::{list, take};
use crate::{BatchFault, Cause};
use pl_base::is_valid_name;
use pl_folder::{Folder, FolderFault};
use std::alloc::{AllocError, Global};

/// The folder's cache, where it has one in its grammar.
fn take_cache<D: Folder>(alloc: Global, folder: &mut D) -> Result<Option<Vec<u8>>, BatchFault>
    ensures found { Finds (spec.cache_there (D.seen folder.old).files)
        (option_map (λ bytes. bytes.items)) result
        (D.seen folder.old) (D.seen folder.new) }
    ensures stored { IfOk result (λ cache. ForSome cache (λ bytes. length bytes.items ≤ STORED)) }
{
    match folder.take(alloc, CACHE) {
        Ok(bytes) => {
            cache_in(alloc, &bytes)?;
            Ok(Some(bytes))
        }
        Err(FolderFault::NotThere) => Ok(None),
        Err(FolderFault::TooLarge) => Err(BatchFault::Cause(Cause::BadCache)),
        Err(FolderFault::Failed) => Err(BatchFault::DiskFailed),
        Err(FolderFault::NoMemory) => Err(BatchFault::NoMemory),
    }
}

/// The files of those of these names that are valid, in their order.
fn take_files<D: Folder>(
    alloc: Global,
    folder: &mut D,
    names: &[String],
) -> Result<Vec<(String, Vec<u8>)>, BatchFault>
    requires { All (λ name. IsNameLength (string_bytes name)) names.now }
    ensures found { Finds (folders.all_files (D.seen folder.old).files
        (filter is_valid_name (map string_bytes names.now)))
        (λ files. map (λ file. file.1.items) files.items) result
        (D.seen folder.old) (D.seen folder.new) }
    ensures names { IfOk result (λ files. map (λ file. string_bytes file.0) files.items
        ≡ filter is_valid_name (map string_bytes names.now)) }
    ensures stored { IfOk result (λ files. All (λ file. length file.1.items ≤ STORED) files.items) }
{
    let mut files = Vec::new(alloc);
    for name in names {
        if !is_valid_name(name.as_str().as_bytes()) {
            continue;
        }
        let bytes = take(alloc, folder, name.as_str())?;
        files.push((String::from_str(alloc, name.as_str())?, bytes))?;
    }
    Ok(files)
}

/// Whether files have together more bytes than a run takes.
fn are_bulky(files: &[(String, Vec<u8>)]) -> bool
    ensures { result ≡ spec.are_bulky (map (λ file. file.1.items) files.now) }
{
    let mut left = FOLDER;
    for file in files {
        if file.1.len() > left {
            return true;
        }
        left -= file.1.len();
    }
    false
}

/// Adds the cache, where there is one.
fn add_cache(
    alloc: Global,
    files: &mut Vec<(String, Vec<u8>)>,
    cache: Option<Vec<u8>>,
) -> Result<(), AllocError>
    ensures { OnOk result (map file_entry files.new.items ≡
        map file_entry files.old.items ++ spec.cache_entry
        (option_map (λ bytes. bytes.items) cache)) }
{
    if let Some(bytes) = cache {
        files.push((String::from_str(alloc, CACHE)?, bytes))?;
    }
    Ok(())
}

/// The copy of a folder with these names, which ascend; or the first cause: BadCache, FileTooLarge in the order of the names, FolderTooLarge.
fn copy_named<D: Folder>(
    alloc: Global,
    folder: &mut D,
    names: &[String],
) -> Result<Vec<(String, Vec<u8>)>, BatchFault>
    requires lengths { All (λ name. IsNameLength (string_bytes name)) names.now }
    requires ascend { folders.ascend (map string_bytes names.now) ≡ true }
    requires listed { (D.seen folder.old).tells ≡ true →
        map string_bytes names.now ≡ keys (D.seen folder.old).files }
    ensures found { Finds (spec.copied_by (D.seen folder.old).files) (λ files. files_of files.items)
        result (D.seen folder.old) (D.seen folder.new) }
    ensures files { IfOk result (λ files. spec.IsCopy files.items) }
{
    let cache = take_cache(alloc, folder)?;
    let mut files = take_files(alloc, folder, names)?;
    if are_bulky(&files) {
        return Err(BatchFault::Cause(Cause::FolderTooLarge));
    }
    add_cache(alloc, &mut files, cache)?;
    Ok(files)
}

/// The files of a folder under valid names, and its cache; or the first cause: TooManyFiles, BadCache, FileTooLarge in the order of the names, FolderTooLarge where the files under valid names have together more than `FOLDER` bytes.
///
/// What is copied are files that a folder in memory may hold, none of them under a name of the journal's own, each at most `pl_folder::STORED` bytes. `DiskFailed` comes only where the folder failed. No call writes to the folder. Where the names did not ascend, which they do in every folder that tells its files, the cause is TooManyFiles.
pub fn copy_files<D: Folder>(
    alloc: Global,
    folder: &mut D,
) -> Result<Vec<(String, Vec<u8>)>, BatchFault>
    ensures found { Finds (spec.copied (D.seen folder.old).files)
        (λ files. files_of files.items) result
        (D.seen folder.old) (D.seen folder.new) }
    ensures files { IfOk result (λ files. spec.IsCopy files.items) }
{
    let names = list(alloc, folder)?;
    if are_many(&names) {
        return Err(BatchFault::Cause(Cause::TooManyFiles));
    }
    if !ascend(&names) {
        return Err(BatchFault::Cause(Cause::TooManyFiles));
    }
    copy_named(alloc, folder, &names)
}
