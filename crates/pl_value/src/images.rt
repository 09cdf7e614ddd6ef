// The ordinary image of a scope.
ghost use Rattle.std.specs.Prelude.{◌≡◌, length, IfOk};
ghost use Rattle.std.specs.List.{list_any};
ghost use Rattle.pl_base.specs.Memory.{layered};
ghost use Rattle.pl_image.specs.Image.{all_pieces, patched, AreLoaded};
ghost use Rattle.pl_scope.specs.Scope.{objects};
ghost use Rattle.pl_value.specs.Linked as linked;
ghost use Rattle.pl_value.specs.Ordinary as spec;

use crate::collecting::meanings;
use crate::targets::base_of;
use crate::{Meaning, OrdinaryFault, Places, Word};
use pl_base::Rows;
use pl_image::{Image, LoadedObject, Parts, Patch, Patched, load_object};
use pl_scope::Scope;
use pl_tls::Module;
use std::alloc::{AllocError, Global};

/// The objects of a scope as loaded at their places, in scope order: `parts` are the files of the members. It fails only for want of memory.
pub fn load<'a>(
    alloc: Global,
    scope: &Scope<'a>,
    parts: &Parts<'a>,
    places: &Places,
) -> Result<Vec<LoadedObject<'a>>, AllocError>
    requires one_each { length places.now ≡ length scope.now }
    requires parts { length parts.now ≡ length scope.now }
    requires placed { spec.ArePlaced places.now parts.now (objects scope.now) }
    ensures value { IfOk result (λ v. v.items ≡ spec.loaded_objects places.now parts.now
        (objects scope.now)) }
    ensures loaded { IfOk result (λ v. AreLoaded v.items) }
{
    let files = parts.as_slice();
    let mut loaded = Vec::new(alloc);
    for member in 0..scope.count() {
        let object = scope.object(member);
        let place = base_of(places, member);
        loaded.push(load_object(alloc, object, files[member as usize], place)?)?;
    }
    Ok(loaded)
}

/// A word for its place, where there is one.
fn word_patch(meaning: &Meaning) -> Option<Patch>
    ensures { result ≡ linked.put_of meaning.now.start meaning.now.word }
{
    match meaning.word {
        Word::Put(word) => Some(Patch::word(meaning.start, word)),
        _ => None,
    }
}

/// The words that relocations give, for their places, in the order of the relocations; those that give none are left out. It fails only for want of memory.
#[tactic(auto, unfolding(crate::specs::Linked::words))]
pub fn words(alloc: Global, meanings: &[Meaning]) -> Result<Vec<Patch>, AllocError>
    ensures { IfOk result (λ v. v.items ≡ linked.words meanings.now) }
{
    let mut patches = Rows::from_vec(Vec::with_capacity(alloc, meanings.len())?);
    for meaning in meanings {
        patches.push_some(word_patch(meaning))?;
    }
    Ok(patches.into_vec())
}

/// The bytes for the place of a copy, where there are any, as they stand after the words.
fn copy_of(
    alloc: Global,
    worded: &Patched<'_, '_>,
    meaning: &Meaning,
) -> Result<Option<Patch>, AllocError>
    ensures { IfOk result (λ patch. patch
        ≡ linked.copy_of (patched worded.now) meaning.now.start meaning.now.word) }
{
    match meaning.word {
        Word::Copy { from, bytes, .. } => {
            let copied = worded.read(alloc, from, bytes)?;
            Ok(Some(Patch::new(meaning.start, copied)))
        }
        _ => Ok(None),
    }
}

/// The bytes for the places of copies, in the order of the relocations. None reads what another copy writes.
#[tactic(auto, unfolding(crate::specs::Linked::copies))]
fn copies(
    alloc: Global,
    worded: &Patched<'_, '_>,
    meanings: &[Meaning],
) -> Result<Vec<Patch>, AllocError>
    ensures { IfOk result (λ v. v.items ≡ linked.copies (patched worded.now) meanings.now) }
{
    let mut patches = Rows::new(alloc);
    for meaning in meanings {
        patches.push_some(copy_of(alloc, worded, meaning)?)?;
    }
    Ok(patches.into_vec())
}

fn is_copy(meaning: &Meaning) -> bool
    ensures { result ≡ linked.is_copy meaning.now.word }
{
    matches!(meaning.word, Word::Copy { .. })
}

/// Whether bytes are copied to one of the places.
fn any_copies(meanings: &[Meaning]) -> bool
    ensures { result ≡ list_any (λ g. linked.is_copy g.word) meanings.now }
{
    meanings.iter().any(|meaning| is_copy(meaning))
}

/// What relocations write over loaded objects: their words, then their copies, each in the order of the relocations. The time grows as `n log n`, and as what is copied.
pub fn patches(
    alloc: Global,
    loaded: &[LoadedObject<'_>],
    meanings: &[Meaning],
) -> Result<Vec<Patch>, AllocError>
    requires { AreLoaded loaded.now }
    ensures { IfOk result (λ v. v.items
        ≡ linked.written (layered (all_pieces loaded.now)) meanings.now) }
{
    let words = words(alloc, meanings)?;
    if !any_copies(meanings) {
        return Ok(words);
    }
    let worded = Patched::new(alloc, loaded, words)?;
    let mut copies = copies(alloc, &worded, meanings)?;
    let mut patches = worded.into_patches();
    patches.append(&mut copies)?;
    Ok(patches)
}

/// The objects of a scope at their places, with what these relocations write over them.
fn image_by<'a>(
    alloc: Global,
    scope: &Scope<'a>,
    parts: &Parts<'a>,
    places: &Places,
    meanings: &[Meaning],
) -> Result<Image<'a>, AllocError>
    requires one_each { length places.now ≡ length scope.now }
    requires parts { length parts.now ≡ length scope.now }
    requires placed { spec.ArePlaced places.now parts.now (objects scope.now) }
    ensures objects { IfOk result (λ image. image.objects
        ≡ spec.loaded_objects places.now parts.now (objects scope.now)) }
    ensures patches { IfOk result (λ image. image.patches
        ≡ linked.written (layered (all_pieces image.objects)) meanings.now) }
{
    let loaded = load(alloc, scope, parts, places)?;
    let patches = patches(alloc, &loaded, meanings)?;
    Ok(Image::new(alloc, loaded, patches)?)
}

/// The image from which a program starts: its objects at their places, then each relocation's word, then each copy from the bytes as they stand after all words; a byte of a link table is shown as 0 (System V gABI chapter 5, "Program Loading"; x86-64 psABI, "Relocation"). `parts` are the files of the members. Else the first link refusal in scope order, in an object those of DT_RELA before those of DT_JMPREL, or NoMemory.
///
/// The conditions are those of `value` for every relocation, one part a member, and that the PT_LOADs have no address in common at the places and end there within the limit of addresses. The time grows as `n log n`, and as what is copied.
pub fn ordinary<'a>(
    alloc: Global,
    scope: &Scope<'a>,
    parts: &Parts<'a>,
    places: &Places,
    tls: &[Module],
) -> Result<Image<'a>, OrdinaryFault>
    requires one_each { length places.now ≡ length scope.now }
    requires parts { length parts.now ≡ length scope.now }
    requires placed { spec.ArePlaced places.now parts.now (objects scope.now) }
    ensures exact { spec.IsOrdinary result (spec.ordinary (objects scope.now) parts.now places.now
        tls.now) }
    ensures objects { IfOk result (λ image. image.objects
        ≡ spec.loaded_objects places.now parts.now (objects scope.now)) }
{
    let meanings = meanings(alloc, scope, places, tls)?;
    Ok(image_by(alloc, scope, parts, places, meanings.as_slice())?)
}
