// What a relocation gives.
ghost use Rattle.std.specs.Prelude.{◌≡◌, Some, length};
ghost use Rattle.pl_scope.specs.Scope.{objects, IsReference, IsSymbol};
ghost use Rattle.pl_value.specs.Definers.{IsSought};
ghost use Rattle.pl_value.specs.Linkable.{IsReloc, IsFoundFor};
ghost use Rattle.pl_value.specs.Values as spec;

use crate::copies::copy;
use crate::targets::{added, base_of, target};
use crate::tls::{is_tls_kind, variable, word};
use crate::{LinkFault, Places, Word};
use pl_elf::constants::{
    R_X86_64_64, R_X86_64_COPY, R_X86_64_GLOB_DAT, R_X86_64_JUMP_SLOT, R_X86_64_RELATIVE,
};
use pl_object::Reloc;
use pl_scope::{Found, Reference, Scope, find};
use pl_tls::Module;

/// A relocation of a member.
fn reloc_of<'a>(scope: &Scope<'a>, member: u32, reloc: u32) -> &'a Reloc
    requires { IsReloc (objects scope.now) member reloc }
    ensures reloc { spec.reloc_at (objects scope.now) member reloc ≡ Some result.now }
    ensures symbol { IsSymbol (objects scope.now) member result.now.symbol }
{
    &scope.object(member).relocations.as_slice()[reloc as usize]
}

/// The symbol that a relocation of a member refers to.
pub fn reference_of(member: u32, reloc: &Reloc) -> Reference
    ensures { result ≡ spec.reference member reloc.now }
{
    Reference {
        member,
        symbol: reloc.symbol,
        kind: reloc.kind,
    }
}

/// What a relocation of a member gives, by what its symbol finds.
#[tactic(auto, unfolding(crate::specs::Values::value_of))]
pub fn word_of(
    scope: &Scope<'_>,
    places: &Places,
    tls: &[Module],
    member: u32,
    reloc: &Reloc,
    found: Option<Found>,
) -> Result<Word, LinkFault>
    requires one_each { length places.now ≡ length scope.now }
    requires reference { IsSymbol (objects scope.now) member reloc.now.symbol }
    requires found { IsSought (objects scope.now) (spec.reference member reloc.now) found }
    ensures { result ≡ spec.value_of (objects scope.now) places.now tls.now member reloc.now }
{
    let kind = reloc.kind;
    let reference = reference_of(member, reloc);
    if kind == R_X86_64_RELATIVE {
        return Ok(Word::Put(added(base_of(places, member), reloc.addend)));
    }
    if kind == R_X86_64_64 {
        let address = target(scope, places, reference, found)?;
        return Ok(Word::Put(added(address, reloc.addend)));
    }
    if kind == R_X86_64_GLOB_DAT || kind == R_X86_64_JUMP_SLOT {
        return Ok(Word::Put(target(scope, places, reference, found)?));
    }
    if kind == R_X86_64_COPY {
        return copy(scope, places, reference, found);
    }
    if is_tls_kind(kind) {
        let variable = variable(scope, reference, found)?;
        return Ok(Word::Put(word(tls, reloc, variable)));
    }
    Ok(Word::Nothing)
}

/// What a relocation of a member gives, as `value` answers, where what its symbol finds is known: `found` is what `find` of pl_scope answers for the member, the relocation's symbol and its kind. Of symbol 0, which is no reference, nothing need be known. The other conditions are those of `value`.
#[tactic(auto, unfolding(crate::specs::Values::value))]
pub fn value_of(
    scope: &Scope<'_>,
    places: &Places,
    tls: &[Module],
    member: u32,
    reloc: u32,
    found: Option<Found>,
) -> Result<Word, LinkFault>
    requires one_each { length places.now ≡ length scope.now }
    requires reloc { IsReloc (objects scope.now) member reloc }
    requires found { IsFoundFor (objects scope.now) member reloc found }
    ensures { result ≡ spec.value (objects scope.now) places.now tls.now member reloc }
{
    let reloc = reloc_of(scope, member, reloc);
    word_of(scope, places, tls, member, reloc, found)
}

/// What the symbol of a reference finds. Symbol 0 is no reference.
fn sought(scope: &Scope<'_>, reference: Reference) -> Option<Found>
    requires { IsReference scope.now reference }
    ensures { IsSought (objects scope.now) reference result }
{
    if reference.symbol == 0 {
        return None;
    }
    find(scope, reference)
}

/// What a relocation of a member gives (x86-64 psABI, "Relocation Types"), by the member's index in the scope and the relocation's index in its object. `tls` is the modules of the members, which kinds DTPMOD64 and TPOFF64 alone ask for; they are found by their member. Sums are modulo 2^64.
///
/// Symbol 0 is no reference: its address is 0, and for the kinds of thread-local storage it is the begin of the object's own block. A weak symbol without definer has the address 0, and nothing is copied for it. `NONE` and `RELATIVE` refer to no symbol, whatever symbol they have.
///
/// - `Undefined`: a symbol that is not weak has no definer, for the kinds 64, COPY, GLOB_DAT and JUMP_SLOT.
/// - `UndefinedTls`: a symbol has no definer, for the kinds of thread-local storage, weak or not.
/// - `TlsMismatch`: a kind of thread-local storage finds a symbol that is not of type TLS, or an object without PT_TLS; or another kind finds a symbol of type TLS.
/// - `CopyOutside`: the definer of a COPY is absolute, or the bytes to be copied, from the definer's value on, are not all in the memory of one PT_LOAD of its object as linked. Of no bytes none is outside.
#[tactic(auto, unfolding(crate::specs::Values::value))]
pub fn value(
    scope: &Scope<'_>,
    places: &Places,
    tls: &[Module],
    member: u32,
    reloc: u32,
) -> Result<Word, LinkFault>
    requires one_each { length places.now ≡ length scope.now }
    requires reloc { IsReloc (objects scope.now) member reloc }
    ensures { result ≡ spec.value (objects scope.now) places.now tls.now member reloc }
{
    let reloc = reloc_of(scope, member, reloc);
    let found = sought(scope, reference_of(member, reloc));
    word_of(scope, places, tls, member, reloc, found)
}
