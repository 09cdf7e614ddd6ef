// The policies that choose a place.
ghost use Rattle.std.specs.Prelude.{◌≡◌, IfSome};
ghost use Rattle.pl_slots.specs.Holes.{IsLowest};
ghost use Rattle.pl_place.specs.Policies as policies;
ghost use Rattle.pl_place.specs.Policy as policy;
ghost use Rattle.pl_place.specs.Numbering as spec;

use crate::Holes;
use crate::numbering::{all_room, numbered};
use pl_slots::lowest_place;
use rand_core::SeedableRng;
use rand_core::utils::NextWord;
use rand_pcg::Lcg128Xsl64;

/// The least aligned address at which a span fits in one of the holes. None comes exactly where it fits nowhere.
#[tactic(auto, unfolding(crate::specs::Policies::lowest))]
pub fn lowest(holes: &Holes, span: u64, align: u64) -> Option<u64>
    requires { policy.IsAsked span align }
    ensures may { policy.MayAnswer holes.now span align result }
    ensures lowest { IfSome result (IsLowest holes.now span align) }
    ensures exact { result ≡ policies.lowest holes.now span align }
{
    lowest_place(holes.rows(), span, align)
}

/// The greatest aligned address at which a span fits in one of the holes. None comes exactly where it fits nowhere.
pub fn highest(holes: &Holes, span: u64, align: u64) -> Option<u64>
    requires { policy.IsAsked span align }
    ensures may { policy.MayAnswer holes.now span align result }
    ensures highest { IfSome result (policy.IsHighest holes.now span align) }
    ensures exact { result ≡ policies.highest holes.now span align }
{
    let all = all_room(holes.rows(), span, align);
    if all == 0 {
        return None;
    }
    numbered(holes.rows(), span, align, all - 1)
}

/// The first word of the generator that a number seeds.
fn first_word(seed: u64) -> u64
    ensures { result ≡ spec.first_word seed }
{
    Lcg128Xsl64::seed_from_u64(seed).next_word()
}

/// An aligned address at which a span fits in one of the holes, chosen by a number: of all these addresses, numbered upwards from 0, the one whose number is the first word of the generator PCG XSL RR 128/64, seeded by the number plus the span modulo 2^64, modulo how many there are. None comes exactly where the span fits nowhere.
pub fn seeded(number: u64, holes: &Holes, span: u64, align: u64) -> Option<u64>
    requires { policy.IsAsked span align }
    ensures may { policy.MayAnswer holes.now span align result }
    ensures seeded { IfSome result (spec.IsSeeded number holes.now span align) }
    ensures exact { result ≡ policies.seeded number holes.now span align }
{
    let all = all_room(holes.rows(), span, align);
    if all == 0 {
        return None;
    }
    let word = first_word(number.wrapping_add(span));
    numbered(holes.rows(), span, align, u128::from(word) % all)
}
