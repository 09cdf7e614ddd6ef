// Whether a file is the prelinked file of the originals that are there.
ghost use Rattle.std.specs.Prelude.{◌≡◌, ◌<◌, [], ◌∷◌, IfOk, length, map};
ghost use Rattle.std.specs.Option.{option_map};
ghost use Rattle.pl_cone.specs.Currency.{old_stamp};
ghost use Rattle.pl_cone.specs.Taken.{WereTaken, files_in};
ghost use Rattle.pl_rewrite.specs.Flags.{AreFlagsOf};
ghost use Rattle.pl_rewrite.specs.Rows as rows;
ghost use Rattle.pl_rewrite.specs.RowWords as by_rows;
ghost use Rattle.pl_rewrite.specs.Verify as spec;

use crate::library::{digests_of, new_library, storable_library};
use crate::numbers::Numbered;
use crate::outcomes::held_by_programs;
use crate::own_words::OwnWords;
use crate::program::{Work, program_file};
use crate::row_words::{Needed, flag_of, is_needed, words_of_rows};
use pl_base::Rows;
use pl_cone::{Link, Taken, WalkScope, index_of, library_link, row_of, walks_of};
use pl_form::Version;
use pl_io::NoMemory;
use std::alloc::{AllocError, Global};

fn slot_borne(taken: &Taken) -> u64
    ensures { result ≡ spec.slot_borne taken.now }
{
    match taken.marked() {
        None => 0,
        Some(marked) => marked.slot,
    }
}

fn slots_borne(alloc: Global, files: &[Taken]) -> Result<Rows<u64>, AllocError>
    ensures { IfOk result (λ v. v ≡ map spec.slot_borne files.now) }
{
    let mut slots = Rows::new(alloc);
    for taken in files {
        slots.push(slot_borne(taken))?;
    }
    Ok(slots)
}

fn stamps_borne(alloc: Global, files: &[Taken]) -> Result<Rows<u32>, AllocError>
    ensures { IfOk result (λ v. v ≡ map old_stamp files.now) }
{
    let mut stamps = Rows::new(alloc);
    for taken in files {
        stamps.push(taken.stamp())?;
    }
    Ok(stamps)
}

fn are_marked(files: &[Taken], walk: &[u32]) -> bool
    requires { rows.AreRowsOf files.now walk.now }
    ensures { result ≡ spec.are_marked files.now walk.now }
{
    for row in walk {
        if files[*row as usize].marked().is_none() {
            return false;
        }
    }
    true
}

/// What the relocations of the file of a row find, where that is needed; else of no relocations.
fn link_if(
    alloc: Global,
    numbered: &Numbered<'_>,
    needed: &Needed<'_>,
    row: usize,
) -> Result<Link, NoMemory>
    requires needed { spec.AreNeededRows numbered.now needed.now }
    requires row { row < length numbered.now.files.now }
    ensures { IfOk result (by_rows.IsLinkIf numbered.now needed.now row) }
{
    if !is_needed(needed, row) {
        return Ok(Link::none(alloc));
    }
    let members = numbered.walk(row);
    let walk = WalkScope::of(alloc, numbered.files, members)?;
    let linked = library_link(alloc, &walk, numbered.index);
    drop(walk);
    let link = linked?;
    if numbered.files[row].is_library() {
        return Ok(link);
    }
    Ok(Link {
        found: link.found,
        remaining: Rows::new(alloc),
    })
}

fn links_for(
    alloc: Global,
    numbered: &Numbered<'_>,
    needed: &Needed<'_>,
) -> Result<Rows<Link>, NoMemory>
    requires { spec.AreNeededRows numbered.now needed.now }
    ensures { IfOk result (by_rows.AreLinks numbered.now (by_rows.is_needed needed.now)) }
{
    let mut links = Rows::new(alloc);
    for row in 0..numbered.files.len() {
        links.push(link_if(alloc, numbered, needed, row)?)?;
    }
    Ok(links)
}

fn library_meant(
    alloc: Global,
    numbered: &Numbered<'_>,
    words: OwnWords,
    row: usize,
    version: Version,
) -> Result<Option<Vec<u8>>, NoMemory>
    requires row { rows.IsLibraryRow numbered.now row }
    requires words { words ≡ by_rows.own_words_at numbered.now row }
    ensures { IfOk result (spec.IsMeantFile numbered.now row version) }
{
    let made = new_library(alloc, numbered, row, words)?;
    let Some(parts) = made else {
        return Ok(None);
    };
    storable_library(alloc, &numbered.files[row], &parts, version)
}

/// The file that is meant of a row, by what the relocations of the files find that it is made of; `stale` flags it alone.
fn meant_by(
    alloc: Global,
    numbered: &Numbered<'_>,
    stale: &[bool],
    row: usize,
    version: Version,
) -> Result<Option<Vec<u8>>, NoMemory>
    requires numbered { rows.IsNumbered numbered.now }
    requires walk { rows.IsWalkRow numbered.now row }
    requires stale { AreFlagsOf (length numbered.now.files.now) (row ∷ []) stale.now }
    ensures { IfOk result (spec.IsMeantFile numbered.now row version) }
{
    let held = held_by_programs(alloc, numbered, stale)?;
    let needed = Needed {
        made: &*stale,
        held: held.as_slice(),
    };
    let links = links_for(alloc, numbered, &needed)?;
    let mut row_words = words_of_rows(alloc, numbered, links, &needed)?;
    if numbered.files[row].is_library() {
        let one = row_words.remove(row);
        return library_meant(alloc, numbered, one.words, row, version);
    }
    let work = Work {
        numbered: &*numbered,
        row_words: row_words.as_slice(),
    };
    let made = program_file(alloc, &work, row, version)?;
    match made {
        None => Ok(None),
        Some(program) => Ok(Some(program.file)),
    }
}

/// The file that is meant of a row, at the slots and stamps that the files bear: none where its walk is refused, or a file of it is not prelinked. `stale` flags the row alone.
fn meant_if_marked(
    alloc: Global,
    numbered: &Numbered<'_>,
    stale: &[bool],
    row: usize,
    version: Version,
) -> Result<Option<Vec<u8>>, NoMemory>
    requires numbered { rows.IsNumbered numbered.now }
    requires stale { AreFlagsOf (length numbered.now.files.now) (row ∷ []) stale.now }
    requires borne { spec.AreBorne numbered.now }
    ensures { IfOk result (λ file. spec.IsMeantIn numbered.now.files.now row version
        (option_map (λ v. v.items) file)) }
{
    let walk = numbered.walk(row);
    if walk.is_empty() {
        return Ok(None);
    }
    if !are_marked(numbered.files, walk) {
        return Ok(None);
    }
    meant_by(alloc, numbered, stale, row, version)
}

/// The file that is meant of a row: that of its walk's originals, in a version, at the slots and stamps that their files bear. None where there is none.
fn meant(
    alloc: Global,
    files: &[Taken],
    row: usize,
    version: Version,
) -> Result<Option<Vec<u8>>, NoMemory>
    requires { WereTaken files.now }
    ensures { IfOk result (λ file. spec.IsMeantIn files.now row version
        (option_map (λ v. v.items) file)) }
{
    let flags = flag_of(alloc, files.len(), row)?;
    let stale = flags.as_slice();
    let places = slots_borne(alloc, files)?;
    let stamps = stamps_borne(alloc, files)?;
    let digests = digests_of(alloc, files, stale)?;
    let walked = walks_of(alloc, files)?;
    let index = index_of(alloc, files)?;
    let numbered = Numbered {
        files: &*files,
        walks: walked.walks.as_slice(),
        index: &index,
        places: places.as_slice(),
        stamps: stamps.as_slice(),
        digests: digests.as_slice(),
    };
    let file = meant_if_marked(alloc, &numbered, stale, row, version);
    drop(index);
    file
}

fn is_file(file: Option<Vec<u8>>, bytes: &[u8]) -> bool
    ensures { result ≡ spec.is_same (option_map (λ v. v.items) file) bytes.now }
{
    match file {
        None => false,
        Some(file) => file.as_slice() == bytes,
    }
}

/// The original of the file of a name, where that is prelinked, and is byte for byte the file that the originals of its walk give, with the versions, slots and stamps that their files bear; None where it is not. It fails only for want of memory. `take_file` of pl_cone gave the files, and no name stands twice.
pub fn verified_original<'f>(
    alloc: Global,
    files: &'f [Taken],
    name: &str,
) -> Result<Option<&'f [u8]>, NoMemory>
    requires { WereTaken files.now }
    ensures { IfOk result (λ original. option_map (λ bytes. bytes.now) original
        ≡ spec.verified_original (files_in files.now) name.now) }
{
    let Some(row) = row_of(files, name) else {
        return Ok(None);
    };
    let taken = &files[row];
    let Some(marked) = taken.marked() else {
        return Ok(None);
    };
    let file = meant(alloc, files, row, marked.version)?;
    if !is_file(file, taken.bytes.as_slice()) {
        return Ok(None);
    }
    Ok(Some(marked.original.as_slice()))
}

/// Whether the file of a name is prelinked, and is byte for byte the file that the originals of its walk give, with the versions, slots and stamps that their files bear. It fails only for want of memory. `take_file` of pl_cone gave the files, and no name stands twice.
pub fn is_verified(alloc: Global, files: &[Taken], name: &str) -> Result<bool, NoMemory>
    requires { WereTaken files.now }
    ensures { IfOk result (λ verified. verified ≡ spec.is_verified (files_in files.now) name.now) }
{
    let original = verified_original(alloc, files, name)?;
    Ok(original.is_some())
}
