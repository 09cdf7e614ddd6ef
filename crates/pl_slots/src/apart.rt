// Slots that share no address.
ghost use Rattle.std.specs.Prelude.{◌≡◌};
ghost use Rattle.std.specs.List.{list_all};
ghost use Rattle.pl_slots.specs.Apart as spec;

use crate::Slot;
use pl_base::end;

/// Whether two slots share no address: one of them ends at or below the other's start.
pub fn is_beside(a: &Slot, b: &Slot) -> bool
    ensures { result ≡ spec.is_beside a.now b.now }
{
    end(a.start, a.span) <= u128::from(b.start) || end(b.start, b.span) <= u128::from(a.start)
}

fn are_beside(slot: &Slot, others: &[Slot]) -> bool
    ensures { result ≡ list_all (spec.is_beside slot.now) others.now }
{
    others.iter().all(|other| is_beside(slot, other))
}

/// Whether no two of the slots share an address. The time grows as the square of their number.
pub fn are_apart(slots: &[Slot]) -> bool
    ensures { result ≡ spec.are_apart slots.now }
{
    let mut left = slots;
    while let [slot, others @ ..] = left {
        if !are_beside(slot, others) {
            return false;
        }
        left = others;
    }
    true
}
