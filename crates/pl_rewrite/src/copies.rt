// The bytes at the places of a program: its own words, and what its copies read.
ghost use Rattle.std.specs.Prelude.{◌≡◌, ◌<◌, [], ◌∷◌, IfOk, length};
ghost use Rattle.pl_form.specs.Words as form;
ghost use Rattle.pl_image.specs.Image.{AreLoaded};
ghost use Rattle.pl_rewrite.specs.Copies as spec;
ghost use Rattle.pl_rewrite.specs.Rows as rows;
ghost use Rattle.pl_value.specs.Linked as linked;

use crate::numbers::Numbered;
use pl_base::Rows;
use pl_elf::constants::R_X86_64_NONE;
use pl_form::Fill;
use pl_image::{LoadedObject, Mask, Patches, load_object, read_loaded};
use pl_object::Reloc;
use pl_value::{Meaning, Word, words};
use std::alloc::{AllocError, Global};

fn loads_nothing<'f>(alloc: Global) -> LoadedObject<'f>
    ensures { AreLoaded (result ∷ []) }
{
    let loads = Rows::new(alloc);
    let tables = Rows::new(alloc);
    LoadedObject {
        pieces: Rows::new(alloc),
        mask: Mask { loads, tables },
    }
}

/// The memory of the original of a row at its place; what a row of no object loads is nothing.
fn loaded_at<'f>(
    alloc: Global,
    numbered: &Numbered<'f>,
    row: usize,
) -> Result<LoadedObject<'f>, AllocError>
    requires numbered { rows.IsNumbered numbered.now }
    requires row { row < length numbered.now.files.now }
    requires placed { spec.IsPlacedRow numbered.now row }
    ensures value { IfOk result (spec.IsLoadedAt numbered.now row) }
    ensures loaded { IfOk result (λ l. AreLoaded (l ∷ [])) }
{
    let taken = &numbered.files[row];
    let Some(object) = taken.object() else {
        return Ok(loads_nothing(alloc));
    };
    load_object(alloc, object, taken.original(), numbered.places[row])
}

fn members_loaded<'f>(
    alloc: Global,
    numbered: &Numbered<'f>,
    walk: &[u32],
) -> Result<Vec<LoadedObject<'f>>, AllocError>
    requires { spec.IsFillable numbered.now walk.now }
    ensures { IfOk result (λ v. spec.AreLoadedAt numbered.now walk.now v.items) }
{
    let mut members = Vec::new(alloc);
    for row in walk {
        members.push(loaded_at(alloc, numbered, *row as usize)?)?;
    }
    Ok(members)
}

fn one_of<'t>(loaded: &'t [LoadedObject<'t>], member: u32) -> &'t [LoadedObject<'t>]
    requires { member < length loaded.now }
    ensures { spec.IsOneOf loaded.now member result.now }
{
    let index = member as usize;
    &loaded[index..index + 1]
}

fn put_first(bytes: &mut [u8], first: &[u8])
    ensures { spec.PutsFirst first.now bytes.old bytes.new }
{
    let count = first.len().min(bytes.len());
    bytes[..count].copy_from_slice(&first[..count]);
}

#[derive(Clone, Copy)]
struct Filling<'t> {
    numbered: &'t Numbered<'t>,
    walk: &'t [u32],
    loaded: &'t [LoadedObject<'t>],

    /// The words of the walk in the ranges from which the program copies.
    near: &'t Patches,
}

fn standing_at(alloc: Global, filling: &Filling<'_>, reloc: &Reloc) -> Result<Vec<u8>, AllocError>
    requires { spec.IsFilling filling.now }
    ensures { IfOk result (λ v. spec.HasBytesAt filling.now reloc.now v.items) }
{
    let loaded = one_of(filling.loaded, 0);
    read_loaded(alloc, loaded, reloc.address, reloc.width)
}

/// The bytes of the program's original at the place of a relocation, with what it copies over the first of them.
fn copied_over(
    alloc: Global,
    filling: &Filling<'_>,
    reloc: &Reloc,
    member: u32,
    from: u64,
    bytes: u64,
) -> Result<Vec<u8>, AllocError>
    requires filling { spec.IsFilling filling.now }
    requires member { member < length filling.now.walk.now }
    ensures { IfOk result (λ v. spec.FillsCopy filling.now reloc.now member from bytes v.items) }
{
    let mut standing = standing_at(alloc, filling, reloc)?;
    let loaded = one_of(filling.loaded, member);
    let first = filling.near.read(alloc, loaded, from, bytes)?;
    put_first(&mut standing, first.as_slice());
    Ok(standing)
}

/// The bytes at the place of a relocation of the program: the word that it gives; or those of the original, where it gives nothing; or what it copies, and behind that the original's.
fn bytes_at(
    alloc: Global,
    filling: &Filling<'_>,
    reloc: &Reloc,
    meaning: &Meaning,
) -> Result<Vec<u8>, AllocError>
    requires filling { spec.IsFilling filling.now }
    requires member { spec.IsFillOf filling.now.walk.now meaning.now.word }
    ensures { IfOk result (λ v. spec.FillsBy filling.now reloc.now meaning.now.word v.items) }
{
    match meaning.word {
        Word::Put(word) => Vec::from_slice(alloc, &word.to_le_bytes()),
        Word::Nothing => standing_at(alloc, filling, reloc),
        Word::Copy {
            member,
            from,
            bytes,
        } => copied_over(alloc, filling, reloc, member, from, bytes),
    }
}

fn has_place(reloc: &Reloc) -> bool
    ensures { result ≡ form.has_place reloc.now }
{
    reloc.kind != R_X86_64_NONE
}

/// A fill for each of a program's own relocations that is not NONE, in their order. `meanings` are what these give.
fn fills_of(
    alloc: Global,
    filling: &Filling<'_>,
    relocs: &[Reloc],
    meanings: &[Meaning],
) -> Result<Vec<Fill>, AllocError>
    requires filling { spec.IsFilling filling.now }
    requires one_each { length meanings.now ≡ length relocs.now }
    requires members { spec.AreFillsOf filling.now.walk.now meanings.now }
    ensures { IfOk result (λ v. spec.AreProgramFills filling.now relocs.now meanings.now v.items) }
{
    let mut fills = Vec::with_capacity(alloc, relocs.len())?;
    for index in 0..relocs.len() {
        let reloc = &relocs[index];
        if has_place(reloc) {
            let bytes = bytes_at(alloc, filling, reloc, &meanings[index])?;
            fills.push(Fill {
                address: reloc.address,
                bytes: Rows::from_vec(bytes),
            })?;
        }
    }
    Ok(fills)
}

fn patches_of(alloc: Global, near: &[Meaning]) -> Result<Patches, AllocError>
    ensures { IfOk result (λ p. p ≡ linked.words near.now) }
{
    let words = words(alloc, near)?;
    Patches::new(alloc, words)
}

/// The bytes at the places of a program, as its scope makes them: a fill for each of its own relocations that is not NONE, in their order. `walk` has the rows of its walk, it first, `near` the words of the walk in the ranges from which it copies, and `meanings` what its relocations give. The time grows as `n log n`, and as what is copied.
pub fn program_fills(
    alloc: Global,
    numbered: &Numbered<'_>,
    walk: &[u32],
    near: &[Meaning],
    relocs: &[Reloc],
    meanings: &[Meaning],
) -> Result<Vec<Fill>, AllocError>
    requires walk { spec.IsFillable numbered.now walk.now }
    requires one_each { length meanings.now ≡ length relocs.now }
    requires members { spec.AreFillsOf walk.now meanings.now }
    ensures { IfOk result (λ v. spec.AreFillsNear numbered.now walk.now near.now relocs.now
        meanings.now v.items) }
{
    let indexed = patches_of(alloc, near)?;
    let loaded = members_loaded(alloc, numbered, walk)?;
    let filling = Filling {
        numbered,
        walk,
        loaded: &loaded,
        near: &indexed,
    };
    fills_of(alloc, &filling, relocs, meanings)
}
