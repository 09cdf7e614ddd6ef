// What all relocations of a scope give.
ghost use Rattle.std.specs.Prelude.{◌≡◌, length, map, Ok, Err, OnOk, IfErr};
ghost use Rattle.std.specs.List.{All};
ghost use Rattle.pl_base.specs.Answers.{Answers, because};
ghost use Rattle.pl_base.specs.Each.{each, with_front};
ghost use Rattle.pl_scope.specs.Scope.{objects, IsSymbol};
ghost use Rattle.pl_value.specs.Definers.{IsSought};
ghost use Rattle.pl_value.specs.Meanings as spec;
ghost use Rattle.pl_value.specs.declared.fault.OrdinaryFault.TheVariants.{Link};

use crate::targets::base_of;
use crate::values::{reference_of, word_of};
use crate::{LinkFault, Meaning, OrdinaryFault, Places};
use pl_base::Rows;
use pl_object::Reloc;
use pl_scope::{Found, Kept, Reference, Scope};
use pl_tls::Module;
use std::alloc::Global;

/// What the symbol of a reference finds, by the answers that are kept. Symbol 0 is no reference.
fn sought(kept: &mut Kept<'_, '_>, reference: Reference) -> Option<Found>
    requires { IsSymbol (objects kept.old) reference.member reference.symbol }
    ensures exact { IsSought (objects kept.old) reference result }
    ensures same { kept.new ≡ kept.old }
{
    if reference.symbol == 0 {
        return None;
    }
    kept.find(reference)
}

/// The place of a relocation of a member as loaded, and what it gives.
#[tactic(auto, unfolding(crate::specs::Meanings::meaning))]
fn meaning(
    kept: &mut Kept<'_, '_>,
    places: &Places,
    tls: &[Module],
    member: u32,
    reloc: &Reloc,
) -> Result<Meaning, LinkFault>
    requires one_each { length places.now ≡ length kept.old }
    requires reference { IsSymbol (objects kept.old) member reloc.now.symbol }
    ensures exact { result ≡ spec.meaning (objects kept.old) places.now tls.now
        (spec.row member reloc.now) }
    ensures same { kept.new ≡ kept.old }
{
    let found = sought(kept, reference_of(member, reloc));
    let word = word_of(kept.scope(), places, tls, member, reloc, found)?;
    Ok(Meaning {
        member,
        start: base_of(places, member).wrapping_add(reloc.address),
        size: reloc.width,
        word,
    })
}

/// Adds what relocations of a member give, in their order.
fn add_each(
    kept: &mut Kept<'_, '_>,
    places: &Places,
    tls: &[Module],
    member: u32,
    relocs: &[Reloc],
    meanings: &mut Rows<Meaning>,
) -> Result<(), OrdinaryFault>
    requires one_each { length places.now ≡ length kept.old }
    requires references { All (λ r. IsSymbol (objects kept.old) member r.symbol) relocs.now }
    ensures ok { OnOk result (with_front meanings.old
        (each (spec.meaning (objects kept.old) places.now tls.now)
        (map (spec.row member) relocs.now)) ≡ Ok meanings.new) }
    ensures err { IfErr result (λ fault. Answers spec.is_memory (Err fault)
        (because Link (with_front meanings.old
        (each (spec.meaning (objects kept.old) places.now tls.now)
        (map (spec.row member) relocs.now))))) }
    ensures same { kept.new ≡ kept.old }
{
    for reloc in relocs {
        let meaning = meaning(kept, places, tls, member, reloc)?;
        meanings.push(meaning)?;
    }
    Ok(())
}

/// How many relocations the members have. It only says how much room their meanings take.
fn relocation_count(scope: &Scope<'_>) -> usize {
    let mut count: usize = 0;
    for member in 0..scope.count() {
        count = count.saturating_add(scope.object(member).relocations.len());
    }
    count
}

/// The places of all relocations of a scope as loaded, and what they give, in scope order and in an object those of DT_RELA before those of DT_JMPREL; or the first of them that has no value. The conditions are those of `value` for every relocation.
pub fn meanings(
    alloc: Global,
    scope: &Scope<'_>,
    places: &Places,
    tls: &[Module],
) -> Result<Rows<Meaning>, OrdinaryFault>
    requires { length places.now ≡ length scope.now }
    ensures { Answers spec.is_memory result (because Link
        (spec.meanings (objects scope.now) places.now tls.now)) }
{
    let mut meanings = Rows::from_vec(Vec::with_capacity(alloc, relocation_count(scope))?);
    let mut kept = Kept::new(alloc, scope)?;
    for member in 0..scope.count() {
        kept.look_ahead(alloc, member)?;
        let object = scope.object(member);
        let relocs = object.relocations.as_slice();
        add_each(&mut kept, places, tls, member, relocs, &mut meanings)?;
    }
    Ok(meanings)
}
