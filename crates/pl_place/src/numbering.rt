// The places of a span in holes, numbered upwards.
ghost use Rattle.std.specs.Prelude.{◌≡◌, ◌<◌, ◌≤◌, ◌^◌};
ghost use Rattle.pl_place.specs.Numbering as spec;

use pl_elf::Range;
use pl_slots::first_address;

/// How many places there are in a hole.
#[tactic(auto, unfolding(crate::specs::Numbering::room, pl_slots::specs::Holes::fits_in))]
fn room(hole: Range, span: u64, align: u64) -> u128
    requires { 0 < align }
    ensures value { result ≡ spec.room span align hole }
    ensures small { result ≤ 2 ^ 64 }
{
    let first = first_address(hole, align);
    let span = u128::from(span);
    let end = u128::from(hole.end);
    if first + span <= end {
        (end - span - first) / u128::from(align) + 1
    } else {
        0
    }
}

/// How many places there are in all holes.
#[tactic(auto, using(std::proofs::lemmas::List::Sums::sum_by_more), unfolding(crate::specs::Numbering::all_room))]
pub fn all_room(holes: &[Range], span: u64, align: u64) -> u128
    requires { 0 < align }
    ensures { result ≡ spec.all_room span align holes.now }
{
    let mut all = 0;
    for hole in holes {
        all += room(*hole, span, align);
    }
    all
}

/// The place of a number in a hole.
#[tactic(auto, using(crate::proofs::NumberLaws::place_within), unfolding(crate::specs::Numbering::place_in))]
fn place_in(hole: Range, span: u64, align: u64, number: u128) -> u64
    requires some { 0 < align }
    requires there { number < spec.room span align hole }
    ensures { result ≡ spec.place_in align hole number }
{
    (first_address(hole, align) + u128::from(align) * number) as u64
}

/// The place of a number in all holes.
#[tactic(auto, unfolding(crate::specs::Numbering::numbered))]
pub fn numbered(holes: &[Range], span: u64, align: u64, number: u128) -> Option<u64>
    requires { 0 < align }
    ensures { result ≡ spec.numbered span align holes.now number }
{
    let mut left = number;
    for hole in holes {
        let here = room(*hole, span, align);
        if left < here {
            return Some(place_in(*hole, span, align, left));
        }
        left -= here;
    }
    None
}
