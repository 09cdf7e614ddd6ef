// What a COPY gives.
ghost use Rattle.std.specs.Prelude.{◌≡◌, ◌<◌, length};
ghost use Rattle.std.specs.List.{list_any};
ghost use Rattle.pl_scope.specs.Scope.{objects, IsReference};
ghost use Rattle.pl_value.specs.Definers.{seen, IsSought};
ghost use Rattle.pl_value.specs.Copies as spec;

use crate::definer::{Definer, definer_of, is_weak};
use crate::targets::address;
use crate::{LinkFault, Places, Word};
use pl_elf::Segment;
use pl_object::{Window, is_in_segment};
use pl_scope::{Found, Reference, Scope, own_symbol};

#[tactic(auto, unfolding(crate::specs::Copies::is_in_load))]
fn is_in_load(from: u64, size: u64, segment: &Segment) -> bool
    ensures { result ≡ spec.is_in_load from size segment.now }
{
    segment.is_load() && is_in_segment(Window::new(u128::from(from), size), segment)
}

fn is_in_one(segments: &[Segment], from: u64, size: u64) -> bool
    ensures { result ≡ list_any (spec.is_in_load from size) segments.now }
{
    segments
        .iter()
        .any(|segment| is_in_load(from, size, segment))
}

/// Whether bytes do not all lie in the memory of one PT_LOAD. Of no bytes none is outside.
#[tactic(auto, unfolding(crate::specs::Copies::is_outside))]
fn is_outside(segments: &[Segment], from: u64, size: u64) -> bool
    ensures { result ≡ spec.is_outside segments.now from size }
{
    size != 0 && !is_in_one(segments, from, size)
}

/// So many bytes of a definer, from its value on.
#[tactic(auto, unfolding(crate::specs::Copies::copied))]
fn copied(
    places: &Places,
    reference: Reference,
    size: u64,
    definer: &Definer<'_>,
) -> Result<Word, LinkFault>
    requires { definer.now.member < length places.now }
    ensures { result ≡ spec.copied places.now reference size (seen definer.now) }
{
    let symbol = definer.symbol;
    if symbol.is_tls() {
        return Err(LinkFault::tls_mismatch(reference));
    }
    let segments = definer.object.segments.as_slice();
    if symbol.is_absolute() || is_outside(segments, symbol.value, size) {
        return Err(LinkFault::copy_outside(reference));
    }
    Ok(Word::Copy {
        member: definer.member,
        from: address(places, definer),
        bytes: size,
    })
}

/// What a COPY gives: the lesser of the two symbols' sizes is copied. Nothing for symbol 0, and for a weak symbol without definer.
#[tactic(auto, unfolding(crate::specs::Copies::copy))]
pub fn copy(
    scope: &Scope<'_>,
    places: &Places,
    reference: Reference,
    found: Option<Found>,
) -> Result<Word, LinkFault>
    requires one_each { length places.now ≡ length scope.now }
    requires reference { IsReference scope.now reference }
    requires found { IsSought (objects scope.now) reference found }
    ensures { result ≡ spec.copy (objects scope.now) places.now reference }
{
    if reference.symbol == 0 {
        return Ok(Word::Nothing);
    }
    let Some(definer) = definer_of(scope, reference, found) else {
        if !is_weak(scope, reference) {
            return Err(LinkFault::undefined(reference));
        }
        return Ok(Word::Nothing);
    };
    let size = own_symbol(scope, reference).size.min(definer.symbol.size);
    copied(places, reference, size, &definer)
}
