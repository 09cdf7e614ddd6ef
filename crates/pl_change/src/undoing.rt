//! What undoing changes.
ghost use Rattle.std.specs.Prelude.{◌≡◌, ◌<◌, ◌^◌, All, IfOk, OnOk, Ok, length, map, string_bytes, true};
ghost use Rattle.std.specs.List.{filter_map};
ghost use Rattle.pl_base.specs.Names.{IsNameLength};
ghost use Rattle.pl_form.specs.Files.{file_in};
ghost use Rattle.pl_change.specs.Answers.{Finds, BatchMeansAlone};
ghost use Rattle.pl_journal.specs.declared.change.Change.TheVariants.{Put};
ghost use Rattle.pl_change.specs.Folder as folders;
ghost use Rattle.pl_change.specs.Looked as looks;
ghost use Rattle.pl_change.specs.Undo as spec;

use crate::looked::Looked;
use crate::order::ascend;
use crate::room::are_many;
use crate::taking::{list, take};
use crate::{BatchFault, Cause};
use pl_base::{Rows, Text, is_valid_name};
use pl_folder::Folder;
use pl_form::{File, FileFault, Marked, read_file};
use pl_journal::Change;
use pl_object::Refusal;
use std::alloc::{AllocError, Global};

/// The row that gives a name its original.
fn original_row(alloc: Global, name: &str, marked: Marked) -> Result<Change, AllocError>
    ensures { IfOk result (λ row. row ≡ Put name.now marked.original) }
{
    let Marked { original, .. } = marked;
    Ok(Change::Put {
        name: Text::copy_of(alloc, name)?,
        bytes: original,
    })
}

/// What undoing makes of the file of a name that was asked for.
fn asked_row(alloc: Global, name: &str, bytes: &[u8]) -> Result<Option<Change>, BatchFault>
    requires { length bytes.now < 2 ^ 32 }
    ensures { BatchMeansAlone (spec.asked_row name.now (file_in bytes.now)) result }
{
    match read_file(alloc, bytes) {
        Ok(File::Plain(_)) => Ok(None),
        Ok(File::Marked(marked)) => Ok(Some(original_row(alloc, name, marked)?)),
        Err(FileFault::BadMark) => Err(BatchFault::Cause(Cause::BadMark(Text::copy_of(
            alloc, name,
        )?))),
        Err(FileFault::Refused(Refusal::NoMemory)) => Err(BatchFault::NoMemory),
        Err(FileFault::Refused(_)) => Ok(None),
    }
}

/// What undoing makes of the file of any name: one with a mark that is no form stays.
fn form_row(alloc: Global, name: &str, bytes: &[u8]) -> Result<Option<Change>, BatchFault>
    requires { length bytes.now < 2 ^ 32 }
    ensures { BatchMeansAlone (Ok (spec.form_row name.now (file_in bytes.now))) result }
{
    match read_file(alloc, bytes) {
        Ok(File::Plain(_)) => Ok(None),
        Ok(File::Marked(marked)) => Ok(Some(original_row(alloc, name, marked)?)),
        Err(FileFault::Refused(Refusal::NoMemory)) => Err(BatchFault::NoMemory),
        Err(_) => Ok(None),
    }
}

/// What undoing a name of the words changes, or its first cause.
fn undo_asked<D: Folder>(
    alloc: Global,
    folder: &mut D,
    name: &str,
) -> Result<Option<Change>, BatchFault>
    ensures { Finds (spec.undo_asked (D.seen folder.old).files name.now) (λ row. row) result
        (D.seen folder.old) (D.seen folder.new) }
{
    if !is_valid_name(name.as_bytes()) {
        return Err(BatchFault::Cause(Cause::BadName));
    }
    let bytes = take(alloc, folder, name)?;
    asked_row(alloc, name, &bytes)
}

/// What undoing a name of the folder changes, or its first cause.
fn undo_any<D: Folder>(
    alloc: Global,
    folder: &mut D,
    name: &str,
) -> Result<Option<Change>, BatchFault>
    requires { IsNameLength name.now }
    ensures { Finds (spec.undo_any (D.seen folder.old).files name.now) (λ row. row) result
        (D.seen folder.old) (D.seen folder.new) }
{
    let bytes = take(alloc, folder, name)?;
    form_row(alloc, name, &bytes)
}

/// What undoing a name of the folder changes, or its first cause, where the name is valid; nothing else.
fn undo_if_valid<D: Folder>(
    alloc: Global,
    folder: &mut D,
    name: &str,
) -> Result<Option<Change>, BatchFault>
    requires { IsNameLength name.now }
    ensures { Finds (spec.if_valid (D.seen folder.old).files name.now) (λ row. row) result
        (D.seen folder.old) (D.seen folder.new) }
{
    if !is_valid_name(name.as_bytes()) {
        return Ok(None);
    }
    undo_any(alloc, folder, name)
}

/// Adds a row, where there is one.
fn add(rows: &mut Rows<Change>, row: Option<Change>) -> Result<(), AllocError>
    ensures { OnOk result (rows.new ≡ spec.added rows.old row) }
{
    match row {
        Some(row) => rows.push(row),
        None => Ok(()),
    }
}

/// What undoing a name of the words changes is kept under it; or its first cause. A name that was looked at is not read again.
fn look_at<'a, D: Folder>(
    alloc: Global,
    folder: &mut D,
    looked: &mut Looked<'a>,
    name: &'a str,
) -> Result<(), BatchFault>
    requires { (D.seen folder.old).tells ≡ true
        → looks.AreFound (D.seen folder.old).files looked.old }
    ensures passes { Finds (looks.passes_at (D.seen folder.old).files name.now) (λ u. u) result
        (D.seen folder.old) (D.seen folder.new) }
    ensures found { OnOk result ((D.seen folder.old).tells ≡ true
        → looks.AreFound (D.seen folder.old).files looked.new) }
    ensures names { OnOk result (looks.HasMore looked.old name.now looked.new) }
{
    if looked.has(name) {
        return Ok(());
    }
    let row = undo_asked(alloc, folder, name)?;
    looked.put(name, row)?;
    Ok(())
}

/// What undoing each of these names changes, or the first cause. Each file is read once.
fn look_at_all<'a, D: Folder>(
    alloc: Global,
    folder: &mut D,
    asked: &'a [Text],
) -> Result<Looked<'a>, BatchFault>
    ensures passes { Finds (looks.pass_all (D.seen folder.old).files asked.now) looks.no_value
        result (D.seen folder.old) (D.seen folder.new) }
    ensures found { IfOk result (λ looked. (D.seen folder.old).tells ≡ true
        → looks.AreFound (D.seen folder.old).files looked) }
    ensures names { IfOk result (looks.Looks asked.now) }
{
    let mut looked = Looked::new(alloc);
    for name in asked {
        look_at(alloc, folder, &mut looked, name.as_str())?;
    }
    Ok(looked)
}

/// The rows of those of these names that were looked at and have one.
fn in_order(alloc: Global, names: &[String], looked: Looked<'_>) -> Result<Rows<Change>, AllocError>
    requires { folders.ascend (map string_bytes names.now) ≡ true }
    ensures { IfOk result (λ rows. rows ≡ filter_map (looks.row_at looked.entry)
        (map string_bytes names.now)) }
{
    let mut left = looked;
    let mut rows = Rows::new(alloc);
    for name in names {
        let row = left.take(name.as_str());
        add(&mut rows, row)?;
    }
    Ok(rows)
}

/// The rows of those of the folder's names that are valid.
fn undo_all<D: Folder>(
    alloc: Global,
    folder: &mut D,
    names: &[String],
) -> Result<Rows<Change>, BatchFault>
    requires { All (λ name. IsNameLength (string_bytes name)) names.now }
    ensures { Finds (spec.rows_of (spec.if_valid (D.seen folder.old).files)
        (map string_bytes names.now)) (λ rows. rows) result
        (D.seen folder.old) (D.seen folder.new) }
{
    let mut rows = Rows::new(alloc);
    for name in names {
        let row = undo_if_valid(alloc, folder, name.as_str())?;
        add(&mut rows, row)?;
    }
    Ok(rows)
}

/// The rows of the journal that give the prelinked ones of these names their originals, ascending by name. The first cause counts: TooManyFiles, then for each name in the order given BadName, NotThere, FileTooLarge, BadMark.
///
/// Each file is read once, however often it is named. A folder whose names do not ascend, as those of one that tells its files do, is refused as TooManyFiles. `DiskFailed` comes only where the folder failed. No call writes to the folder.
pub fn undone<D: Folder>(
    alloc: Global,
    folder: &mut D,
    asked: &[Text],
) -> Result<Rows<Change>, BatchFault>
    ensures { Finds (spec.undone (D.seen folder.old).files asked.now) (λ rows. rows) result
        (D.seen folder.old) (D.seen folder.new) }
{
    let names = list(alloc, folder)?;
    if are_many(&names) {
        return Err(BatchFault::Cause(Cause::TooManyFiles));
    }
    if !ascend(&names) {
        return Err(BatchFault::Cause(Cause::TooManyFiles));
    }
    let looked = look_at_all(alloc, folder, asked)?;
    Ok(in_order(alloc, &names, looked)?)
}

/// The rows of the journal that give every prelinked file its original, ascending by name; a file that bears a mark and is no form stays as it is. The first cause counts: TooManyFiles, FileTooLarge in the order of the names.
///
/// `DiskFailed` comes only where the folder failed. No call writes to the folder.
pub fn all_undone<D: Folder>(alloc: Global, folder: &mut D) -> Result<Rows<Change>, BatchFault>
    ensures { Finds (spec.all_undone (D.seen folder.old).files) (λ rows. rows) result
        (D.seen folder.old) (D.seen folder.new) }
{
    let names = list(alloc, folder)?;
    if are_many(&names) {
        return Err(BatchFault::Cause(Cause::TooManyFiles));
    }
    undo_all(alloc, folder, &names)
}
