// The prelinked file of a library, and the list of the other members of a walk.
ghost use Rattle.std.specs.Prelude.{◌≡◌, ◌<◌, IfOk, length, drop};
ghost use Rattle.std.specs.Option.{option_map};
ghost use Rattle.pl_cone.specs.Table.{AreRows};
ghost use Rattle.pl_cone.specs.Taken.{HasItsEntry};
ghost use Rattle.pl_conflict.specs.Prelinked as firm;
ghost use Rattle.pl_rewrite.specs.Digests as told;
ghost use Rattle.pl_rewrite.specs.Libraries as libraries;
ghost use Rattle.pl_rewrite.specs.Rows as spec;
ghost use Rattle.pl_rewrite.specs.RowWords as by_rows;

use crate::apart::are_set;
use crate::numbers::Numbered;
use crate::outcomes::NewLibrary;
use crate::own_words::OwnWords;
use pl_base::{Rows, Text, word32};
use pl_cone::Taken;
use pl_form::{STORED, Version, digest_of, form_library_with, original_digest};
use pl_io::NoMemory;
use pl_lists::ListRow;
use std::alloc::{AllocError, Global};

pub type Digests = Vec<Option<[u8; 32]>>;

/// The SHA-256 of a file's original, if it is asked for. That of a prelinked file is not made again where the file keeps it.
fn digest_if(alloc: Global, taken: &Taken, asked: bool) -> Result<Option<[u8; 32]>, AllocError>
    requires { HasItsEntry taken.now }
    ensures { IfOk result (λ digest. spec.IsDigestOf taken.now digest) }
{
    if !asked {
        return Ok(None);
    }
    let bytes = taken.bytes.as_slice();
    match taken.marked() {
        None => Ok(Some(digest_of(bytes))),
        Some(marked) => Ok(Some(original_digest(alloc, bytes, marked)?)),
    }
}

/// The SHA-256 of the original of each flagged file.
pub fn digests_of(alloc: Global, files: &[Taken], asked: &[bool]) -> Result<Digests, AllocError>
    requires taken { spec.AreFilesRead files.now }
    requires one_each { length asked.now ≡ length files.now }
    ensures { IfOk result (λ v. spec.AreDigests files.now v.items) }
{
    let mut digests = Vec::new(alloc);
    for row in 0..files.len() {
        digests.push(digest_if(alloc, &files[row], asked[row])?)?;
    }
    Ok(digests)
}

/// The SHA-256 of a row's original, made now where it was not.
pub fn digest_at(numbered: &Numbered<'_>, row: usize) -> [u8; 32]
    requires numbered { spec.IsNumbered numbered.now }
    requires row { row < length numbered.now.files.now }
    ensures { told.IsDigestAt numbered.now.files.now row result }
{
    let taken = &numbered.files[row];
    match numbered.digests[row] {
        None => digest_of(taken.original()),
        Some(digest) => digest,
    }
}

fn checksum_at(numbered: &Numbered<'_>, row: usize) -> u32
    requires numbered { spec.IsNumbered numbered.now }
    requires row { row < length numbered.now.files.now }
    ensures { told.IsChecksumAt numbered.now.files.now row result }
{
    if let Some(marked) = numbered.files[row].marked() {
        if marked.object.kind.is_library() {
            return marked.checksum;
        }
    }
    word32(&digest_at(numbered, row), 0)
}

fn list_row(alloc: Global, numbered: &Numbered<'_>, row: usize) -> Result<ListRow, AllocError>
    requires numbered { spec.IsNumbered numbered.now }
    requires row { row < length numbered.now.files.now }
    ensures { IfOk result (told.IsListRowAt numbered.now row) }
{
    let name = Text::copy_of(alloc, numbered.files[row].name.as_str())?;
    Ok(ListRow {
        name,
        stamp: numbered.stamps[row],
        checksum: checksum_at(numbered, row),
    })
}

/// The rows of the members of the walk of a row after the first: their names, their stamps and the checksums of their originals.
pub fn list_of(
    alloc: Global,
    numbered: &Numbered<'_>,
    row: usize,
) -> Result<Rows<ListRow>, AllocError>
    requires numbered { spec.IsNumbered numbered.now }
    requires rows { AreRows numbered.now.files.now (spec.walk_of numbered.now row) }
    ensures { IfOk result (λ rows. rows ≡ firm.list_of (drop 1 (spec.firms_of numbered.now row))) }
{
    let mut rows = Rows::new(alloc);
    let walk = numbered.walk(row);
    let [_, others @ ..] = walk else {
        return Ok(rows);
    };
    for other in others {
        rows.push(list_row(alloc, numbered, *other as usize)?)?;
    }
    Ok(rows)
}

/// What the prelinked file of the library of a row is made of, with these own words; None where the members of its walk cannot be prelinked together.
pub fn new_library(
    alloc: Global,
    numbered: &Numbered<'_>,
    row: usize,
    words: OwnWords,
) -> Result<Option<NewLibrary>, NoMemory>
    requires row { spec.IsLibraryRow numbered.now row }
    requires words { words ≡ by_rows.own_words_at numbered.now row }
    ensures { IfOk result (libraries.IsNewIfAny numbered.now row) }
{
    let set = are_set(alloc, numbered, row)?;
    if !set {
        return Ok(None);
    }
    let list = list_of(alloc, numbered, row)?;
    Ok(Some(NewLibrary {
        slot: numbered.places[row],
        stamp: numbered.stamps[row],
        digest: digest_at(numbered, row),
        list,
        words,
    }))
}

/// The prelinked file of a library of its original and these parts, in a version; None where it is longer than a folder stores.
pub fn storable_library(
    alloc: Global,
    taken: &Taken,
    parts: &NewLibrary,
    version: Version,
) -> Result<Option<Vec<u8>>, NoMemory>
    requires read { HasItsEntry taken.now }
    requires form { libraries.HasForm taken.now parts.now }
    ensures { IfOk result (λ file. option_map (λ v. v.items) file
        ≡ libraries.storable_library taken.now parts.now version) }
{
    let Some(object) = taken.object() else {
        return Ok(None);
    };
    let words = parts.words.rows(alloc)?;
    let file = form_library_with(
        alloc,
        taken.original(),
        object,
        parts.slot,
        parts.stamp,
        parts.list.as_slice(),
        words.as_slice(),
        version,
        &parts.digest,
    )?;
    if file.len() > STORED {
        return Ok(None);
    }
    Ok(Some(file))
}
