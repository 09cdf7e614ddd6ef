// What the relocations of files give, once the slots are known.
ghost use Rattle.std.specs.Prelude.{◌≡◌, ◌<◌, [], ◌∷◌, true, IfOk, length};
ghost use Rattle.std.specs.List.{All};
ghost use Rattle.pl_image.specs.Image.{AreLoaded};
ghost use Rattle.pl_cone.specs.Table.{AreBelow};
ghost use Rattle.pl_rewrite.specs.Flags as flags_by;
ghost use Rattle.pl_rewrite.specs.Held as held_by;
ghost use Rattle.pl_rewrite.specs.Rows as spec;
ghost use Rattle.pl_rewrite.specs.RowWords as by_rows;

use crate::numbers::Numbered;
use crate::own_words::OwnWords;
use pl_base::Rows;
use pl_cone::Link;
use pl_conflict::{own_words_by, word_held};
use pl_image::{LoadedObject, load_object};
use pl_io::NoMemory;
use pl_object::Reloc;
use pl_scope::Found;
use std::alloc::{AllocError, Global};

/// A remaining relocation of a library, and the word that the library's prelinked file holds at its place.
#[derive(Clone, Copy)]
pub struct HeldWord {
    pub index: u32,
    pub word: u64,
}

/// What the relocations of a file give, once the slots are known. What is not asked for is not there.
#[derive(Drop)]
pub struct RowWords {
    /// Of a library whose file is made: the own word of each relocation, in their order.
    pub words: OwnWords,

    /// Of a library that a new program's walk holds: its remaining relocations, and the words that its prelinked file holds at their places.
    pub held: Rows<HeldWord>,

    /// Of a program: what each of its relocations finds.
    pub found: Rows<Option<Found>>,
}

/// What is asked of files: whose own are made, and which libraries the walks of new programs hold. One flag of each for each row.
#[derive(Clone, Copy)]
pub struct Needed<'t> {
    pub made: &'t [bool],
    pub held: &'t [bool],
}

pub fn flag_all(flags: &mut [bool], rows: &[u32])
    requires { AreBelow (length flags.old) rows.now }
    ensures { flags_by.FlagsAll rows.now flags.old flags.new }
{
    for row in rows {
        flags[*row as usize] = true;
    }
}

/// A flag for each of so many rows, set for this one.
pub fn flag_of(alloc: Global, count: usize, row: usize) -> Result<Vec<bool>, AllocError>
    ensures { IfOk result (λ v. flags_by.AreFlagsOf count (row ∷ []) v.items) }
{
    let mut flags = Vec::with_capacity(alloc, count)?;
    for index in 0..count {
        flags.push(row == index)?;
    }
    Ok(flags)
}

fn only_found(alloc: Global, found: Rows<Option<Found>>) -> RowWords
    ensures { result.found ≡ found }
{
    RowWords {
        words: OwnWords::none(alloc),
        held: Rows::new(alloc),
        found,
    }
}

/// The word that the prelinked file of a library holds at the place of a relocation: its own word, or what the original holds.
fn held_word(
    alloc: Global,
    original: &[LoadedObject<'_>],
    reloc: &Reloc,
    own: Option<u64>,
) -> Result<u64, AllocError>
    requires loaded { AreLoaded original.now }
    requires one { 0 < length original.now }
    ensures { IfOk result (held_by.IsWordIn original.now reloc.now own) }
{
    match own {
        None => word_held(alloc, original, 0, reloc),
        Some(word) => Ok(word),
    }
}

fn held_words(
    alloc: Global,
    original: &[LoadedObject<'_>],
    relocs: &[Reloc],
    words: &[Option<u64>],
    remaining: &[u32],
) -> Result<Rows<HeldWord>, AllocError>
    requires loaded { AreLoaded original.now }
    requires one { 0 < length original.now }
    requires words { length words.now ≡ length relocs.now }
    requires remaining { All (λ i. i < length relocs.now) remaining.now }
    ensures { IfOk result (held_by.AreHeldIn original.now relocs.now words.now remaining.now) }
{
    let mut all = Rows::new(alloc);
    for index in remaining {
        let index = *index;
        let at = index as usize;
        let word = held_word(alloc, original, &relocs[at], words[at])?;
        all.push(HeldWord { index, word })?;
    }
    Ok(all)
}

/// The words that the prelinked file of the library of a row holds at the places of its remaining relocations, if they are asked for; else none. `words` are its own words. The file need not be there.
fn held_of(
    alloc: Global,
    numbered: &Numbered<'_>,
    row: usize,
    words: &[Option<u64>],
    remaining: &[u32],
    asked: bool,
) -> Result<Rows<HeldWord>, AllocError>
    requires row { spec.IsLibraryRow numbered.now row }
    requires words { words.now ≡ by_rows.own_words_at numbered.now row }
    requires remaining { by_rows.AreOfRow numbered.now row remaining.now }
    ensures { IfOk result (by_rows.AreHeldIf asked numbered.now row remaining.now) }
{
    if !asked {
        return Ok(Rows::new(alloc));
    }
    let taken = &numbered.files[row];
    let Some(object) = taken.object() else {
        return Ok(Rows::new(alloc));
    };
    let relocs = object.relocations.as_slice();
    let loaded = load_object(alloc, object, taken.original(), 0)?;
    held_words(alloc, &[loaded], relocs, words, remaining)
}

fn kept_if(alloc: Global, words: &[Option<u64>], asked: bool) -> Result<OwnWords, AllocError>
    ensures { IfOk result (λ w. asked ≡ true → w ≡ words.now) }
{
    if !asked {
        return Ok(OwnWords::none(alloc));
    }
    OwnWords::of(alloc, words)
}

/// Whether anything is asked of a row.
pub fn is_needed(needed: &Needed<'_>, row: usize) -> bool
    requires made { row < length needed.now.made.now }
    requires held { row < length needed.now.held.now }
    ensures { result ≡ by_rows.is_needed needed.now row }
{
    needed.made[row] || needed.held[row]
}

/// The own words of the library of a row, by what its relocations find.
fn own_words_of(
    alloc: Global,
    numbered: &Numbered<'_>,
    row: usize,
    found: &[Option<Found>],
) -> Result<Rows<Option<u64>>, NoMemory>
    requires row { spec.IsLibraryRow numbered.now row }
    requires found { by_rows.FindsRow numbered.now row found.now }
    ensures { IfOk result (λ words. words ≡ by_rows.own_words_at numbered.now row) }
{
    let placed = numbered.placed(alloc, row)?;
    let words = own_words_by(alloc, &placed.walk.scope, &placed.places, found);
    drop(placed);
    words
}

fn library_row_words(
    alloc: Global,
    numbered: &Numbered<'_>,
    row: usize,
    link: &Link,
    needed: &Needed<'_>,
) -> Result<RowWords, NoMemory>
    requires numbered { spec.IsNumbered numbered.now }
    requires row { row < length numbered.now.files.now }
    requires library { spec.is_library_row numbered.now row ≡ true }
    requires needed { by_rows.IsNeeded numbered.now needed.now }
    requires link { by_rows.IsLinkIf numbered.now needed.now row link.now }
    ensures { IfOk result (by_rows.AreRowWordsBy numbered.now row needed.now link.now) }
{
    if !is_needed(needed, row) {
        return Ok(only_found(alloc, Rows::new(alloc)));
    }
    let all = own_words_of(alloc, numbered, row, link.found.as_slice())?;
    let own = all.as_slice();
    let remaining = link.remaining.as_slice();
    let words = kept_if(alloc, own, needed.made[row])?;
    let held = held_of(alloc, numbered, row, own, remaining, needed.held[row])?;
    Ok(RowWords {
        words,
        held,
        found: Rows::new(alloc),
    })
}

fn row_words_of(
    alloc: Global,
    numbered: &Numbered<'_>,
    row: usize,
    link: Link,
    needed: &Needed<'_>,
) -> Result<RowWords, NoMemory>
    requires numbered { spec.IsNumbered numbered.now }
    requires row { row < length numbered.now.files.now }
    requires needed { by_rows.IsNeeded numbered.now needed.now }
    requires link { by_rows.IsLinkIf numbered.now needed.now row link }
    ensures { IfOk result (by_rows.AreRowWordsBy numbered.now row needed.now link) }
{
    if !numbered.files[row].is_library() {
        return Ok(only_found(alloc, link.found));
    }
    library_row_words(alloc, numbered, row, &link, needed)
}

/// What is asked of all files, in their order. What the relocations of a library find is let go once its words are there.
pub fn words_of_rows(
    alloc: Global,
    numbered: &Numbered<'_>,
    links: Rows<Link>,
    needed: &Needed<'_>,
) -> Result<Vec<RowWords>, NoMemory>
    requires numbered { spec.IsNumbered numbered.now }
    requires needed { by_rows.IsNeeded numbered.now needed.now }
    requires links { by_rows.AreLinks numbered.now (by_rows.is_needed needed.now) links }
    ensures { IfOk result (λ v. by_rows.AreRowWords numbered.now needed.now v.items) }
{
    let mut all = Vec::new(alloc);
    for link in links.into_vec() {
        let one = row_words_of(alloc, numbered, all.len(), link, needed)?;
        all.push(one)?;
    }
    Ok(all)
}
