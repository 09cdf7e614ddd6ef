// The own words of a library.
ghost use Rattle.std.specs.Prelude.{◌≡◌, ◌<◌, length, map, IfOk};
ghost use Rattle.std.specs.List.{All, AllZip};
ghost use Rattle.pl_scope.specs.Scope.{objects, IsReference, IsSymbol};
ghost use Rattle.pl_value.specs.Definers.{IsSought};
ghost use Rattle.pl_value.specs.Values.{reference};
ghost use Rattle.pl_conflict.specs.Own as spec;

use pl_base::Rows;
use pl_elf::constants::{R_X86_64_DTPMOD64, R_X86_64_RELATIVE, R_X86_64_TPOFF64};
use pl_io::NoMemory;
use pl_object::Reloc;
use pl_scope::{Found, Reference, Scope, find};
use pl_value::{LinkFault, Places, Word, reference_of, word_of};
use std::alloc::{AllocError, Global};

/// What the symbol of a reference finds. Symbol 0 is no reference.
fn sought(scope: &Scope<'_>, reference: Reference) -> Option<Found>
    requires { IsReference scope.now reference }
    ensures { IsSought (objects scope.now) reference result }
{
    if reference.symbol == 0 {
        return None;
    }
    find(scope, reference)
}

/// Whether a kind is one that a program's start alone gives.
#[tactic(auto, unfolding(crate::specs::Own::is_of_start))]
fn is_of_start(kind: u32) -> bool
    ensures { result ≡ spec.is_of_start kind }
{
    kind == R_X86_64_DTPMOD64 || kind == R_X86_64_TPOFF64
}

/// Whether a relocation refers to a symbol that has no definer.
#[tactic(auto, unfolding(crate::specs::Own::lacks_definer))]
fn lacks_definer(reloc: &Reloc, found: Option<Found>) -> bool
    ensures { result ≡ spec.lacks_definer reloc.now found }
{
    reloc.kind != R_X86_64_RELATIVE && reloc.symbol != 0 && found.is_none()
}

/// The word that a relocation gives, if it gives one.
fn put_in(given: Result<Word, LinkFault>) -> Option<u64>
    ensures { result ≡ spec.put_in given }
{
    match given {
        Ok(Word::Put(word)) => Some(word),
        _ => None,
    }
}

/// The own word of a relocation of the first member, by what its symbol finds.
#[tactic(auto, unfolding(crate::specs::Own::own_word))]
fn own_word_by(
    scope: &Scope<'_>,
    places: &Places,
    reloc: &Reloc,
    found: Option<Found>,
) -> Option<u64>
    requires one_each { length places.now ≡ length scope.now }
    requires reference { IsSymbol (objects scope.now) 0 reloc.now.symbol }
    requires found { IsSought (objects scope.now) (reference 0 reloc.now) found }
    ensures { result ≡ spec.own_word (objects scope.now) places.now reloc.now }
{
    if is_of_start(reloc.kind) {
        return None;
    }
    if lacks_definer(reloc, found) {
        return None;
    }
    put_in(word_of(scope, places, &[], 0, reloc, found))
}

/// The own word of a relocation of the first member.
#[tactic(auto, unfolding(crate::specs::Own::own_word))]
fn own_word(scope: &Scope<'_>, places: &Places, reloc: &Reloc) -> Option<u64>
    requires one_each { length places.now ≡ length scope.now }
    requires reference { IsSymbol (objects scope.now) 0 reloc.now.symbol }
    ensures { result ≡ spec.own_word (objects scope.now) places.now reloc.now }
{
    if is_of_start(reloc.kind) {
        return None;
    }
    let found = sought(scope, reference_of(0, reloc));
    own_word_by(scope, places, reloc, found)
}

/// The own words of relocations of the first member, in their order.
fn relocation_words(
    alloc: Global,
    scope: &Scope<'_>,
    places: &Places,
    relocs: &[Reloc],
) -> Result<Rows<Option<u64>>, AllocError>
    requires one_each { length places.now ≡ length scope.now }
    requires references { All (λ r. IsSymbol (objects scope.now) 0 r.symbol) relocs.now }
    ensures { IfOk result (λ words. words ≡ map (spec.own_word (objects scope.now) places.now)
        relocs.now) }
{
    let mut words = Rows::new(alloc);
    for reloc in relocs {
        words.push(own_word(scope, places, reloc))?;
    }
    Ok(words)
}

/// The own words of relocations of the first member, in their order, by what each finds.
fn words_by(
    alloc: Global,
    scope: &Scope<'_>,
    places: &Places,
    relocs: &[Reloc],
    found: &[Option<Found>],
) -> Result<Rows<Option<u64>>, AllocError>
    requires one_each { length places.now ≡ length scope.now }
    requires references { All (λ r. IsSymbol (objects scope.now) 0 r.symbol) relocs.now }
    requires found { AllZip (λ r f. IsSought (objects scope.now) (reference 0 r) f) relocs.now
        found.now }
    ensures { IfOk result (λ words. words ≡ map (spec.own_word (objects scope.now) places.now)
        relocs.now) }
{
    let mut words = Rows::new(alloc);
    for index in 0..relocs.len() {
        words.push(own_word_by(scope, places, &relocs[index], found[index]))?;
    }
    Ok(words)
}

/// The own words of a library, which is the first member of its scope, at these places: one for each of its relocations, in their order, each looked up by itself. It is the word that the relocation gives in this scope. There is none for the kinds DTPMOD64 and TPOFF64, which a program's start alone gives, for a symbol without definer, and where `value` of pl_value gives no word: then the file keeps the word that its linker wrote.
///
/// There is at least one member, and `places` has one row for each. It fails only for want of memory.
#[tactic(auto, unfolding(crate::specs::Own::own_words))]
pub fn own_words(
    alloc: Global,
    scope: &Scope<'_>,
    places: &Places,
) -> Result<Rows<Option<u64>>, NoMemory>
    requires first { 0 < length scope.now }
    requires one_each { length places.now ≡ length scope.now }
    ensures { IfOk result (λ words. words ≡ spec.own_words (objects scope.now) places.now) }
{
    let object = scope.object(0);
    let relocs = object.relocations.as_slice();
    let words = relocation_words(alloc, scope, places, relocs)?;
    Ok(words)
}

/// The own words that `own_words` gives, where what each relocation finds in the scope is known: `found` has one row for each, in their order.
///
/// There is at least one member, and `places` has one row for each. It fails only for want of memory.
#[tactic(auto, unfolding(crate::specs::Own::own_words))]
pub fn own_words_by(
    alloc: Global,
    scope: &Scope<'_>,
    places: &Places,
    found: &[Option<Found>],
) -> Result<Rows<Option<u64>>, NoMemory>
    requires first { 0 < length scope.now }
    requires one_each { length places.now ≡ length scope.now }
    requires found { spec.FindAll (objects scope.now) found.now }
    ensures { IfOk result (λ words. words ≡ spec.own_words (objects scope.now) places.now) }
{
    let object = scope.object(0);
    let relocs = object.relocations.as_slice();
    let words = words_by(alloc, scope, places, relocs, found)?;
    Ok(words)
}
