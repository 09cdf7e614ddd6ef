// What a policy of the words chooses.
ghost use Rattle.std.specs.Prelude.{◌≡◌};
ghost use Rattle.pl_place.specs.Policy.{IsAsked, MayAnswer};
ghost use Rattle.pl_cli.specs.Load.{choice};

use pl_place::{Holes, highest, lowest, seeded};
use pl_words::Policy;

/// The address that a policy chooses in holes for a span with an alignment. None comes exactly where the span fits nowhere.
pub fn chosen(policy: Policy, holes: &Holes, span: u64, align: u64) -> Option<u64>
    requires { IsAsked span align }
    ensures may { MayAnswer holes.now span align result }
    ensures exact { result ≡ choice policy holes.now span align }
{
    match policy {
        Policy::Lowest => lowest(holes, span, align),
        Policy::Highest => highest(holes, span, align),
        Policy::Seeded(number) => seeded(number, holes, span, align),
    }
}
