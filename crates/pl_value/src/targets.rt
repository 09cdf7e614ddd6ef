// The address that a symbol stands for.
ghost use Rattle.std.specs.Prelude.{◌≡◌, ◌<◌, length};
ghost use Rattle.pl_scope.specs.Scope.{objects, IsReference};
ghost use Rattle.pl_value.specs.Definers.{seen, IsSought};
ghost use Rattle.pl_value.specs.Targets as spec;

use crate::definer::{Definer, definer_of, is_weak};
use crate::{LinkFault, Places};
use pl_scope::{Found, Reference, Scope};

/// A number and a signed addend, modulo 2^64.
pub fn added(number: u64, addend: i64) -> u64
    ensures { result ≡ spec.added number addend }
{
    number.wrapping_add(addend.cast_unsigned())
}

/// Where a member is loaded.
pub fn base_of(places: &Places, member: u32) -> u64
    requires { member < length places.now }
    ensures { result ≡ spec.base_of places.now member }
{
    places.as_slice()[member as usize]
}

/// The address of a definer as loaded. An absolute one is a number, which no load changes.
#[tactic(auto, unfolding(crate::specs::Targets::address))]
pub fn address(places: &Places, definer: &Definer<'_>) -> u64
    requires { definer.now.member < length places.now }
    ensures { result ≡ spec.address places.now (seen definer.now) }
{
    if definer.symbol.is_absolute() {
        return definer.symbol.value;
    }
    base_of(places, definer.member).wrapping_add(definer.symbol.value)
}

/// The address that a reference stands for: 0 for symbol 0, and for a weak symbol without definer.
#[tactic(auto, unfolding(crate::specs::Targets::target))]
pub fn target(
    scope: &Scope<'_>,
    places: &Places,
    reference: Reference,
    found: Option<Found>,
) -> Result<u64, LinkFault>
    requires one_each { length places.now ≡ length scope.now }
    requires reference { IsReference scope.now reference }
    requires found { IsSought (objects scope.now) reference found }
    ensures { result ≡ spec.target (objects scope.now) places.now reference }
{
    if reference.symbol == 0 {
        return Ok(0);
    }
    let Some(definer) = definer_of(scope, reference, found) else {
        if !is_weak(scope, reference) {
            return Err(LinkFault::undefined(reference));
        }
        return Ok(0);
    };
    if definer.symbol.is_tls() {
        return Err(LinkFault::tls_mismatch(reference));
    }
    Ok(address(places, &definer))
}
