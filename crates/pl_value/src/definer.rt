// The symbol that a reference finds, with its object.
ghost use Rattle.std.specs.Prelude.{◌≡◌, ◌<◌, length, IfSome};
ghost use Rattle.std.specs.Option.{option_map};
ghost use Rattle.pl_scope.specs.Scope.{objects, IsReference};
ghost use Rattle.pl_scope.specs.Finds.{finds};
ghost use Rattle.pl_value.specs.Definers as spec;

use pl_object::Object;
use pl_scope::{Found, Reference, Scope, own_symbol};
use pl_sym::Symbol;
use pl_sym::constants::STB_WEAK;

/// A symbol that a reference found.
#[derive(Clone, Copy)]
pub struct Definer<'a> {
    /// The index of its object among the members of the scope.
    pub member: u32,
    pub object: &'a Object,
    pub symbol: &'a Symbol,
}

/// The definer that a reference finds, by what was found. None exactly where there is none.
#[tactic(auto, unfolding(crate::specs::Definers::definer))]
pub fn definer_of<'a>(
    scope: &Scope<'a>,
    reference: Reference,
    found: Option<Found>,
) -> Option<Definer<'a>>
    requires { found ≡ finds (objects scope.now) reference }
    ensures exact { option_map spec.seen result ≡ spec.definer (objects scope.now) reference }
    ensures within { IfSome result (λ d. d.member < length scope.now) }
{
    let Some(found) = found else {
        return None;
    };
    let object = scope.object(found.member);
    let symbol = &object.symbols.as_slice()[found.symbol as usize];
    Some(Definer {
        member: found.member,
        object,
        symbol,
    })
}

/// Whether a reference's own symbol is weak, so that it may stay without a definer.
#[tactic(auto, unfolding(crate::specs::Definers::is_weak))]
pub fn is_weak(scope: &Scope<'_>, reference: Reference) -> bool
    requires { IsReference scope.now reference }
    ensures { result ≡ spec.is_weak (objects scope.now) reference }
{
    own_symbol(scope, reference).bind == STB_WEAK
}
