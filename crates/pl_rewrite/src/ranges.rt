// The addresses from which the relocations of a program copy.
ghost use Rattle.std.specs.Prelude.{◌≡◌, ◌==◌, IfOk, length};
ghost use Rattle.pl_rewrite.specs.Ranges as spec;

use pl_elf::Range;
use pl_image::{apart, near};
use pl_value::{Meaning, Word};
use std::alloc::{AllocError, Global};
use std::marker::Model;

/// The addresses from which relocations copy, a range for each that does, in their order.
fn given_ranges(alloc: Global, meanings: &[Meaning]) -> Result<Vec<Range>, AllocError>
    ensures { IfOk result (λ v. v.items ≡ spec.ranges_of meanings.now) }
{
    let mut ranges = Vec::new(alloc);
    for meaning in meanings {
        if let Word::Copy { from, bytes, .. } = meaning.word {
            ranges.push(Range {
                start: from,
                end: from.saturating_add(bytes),
            })?;
        }
    }
    Ok(ranges)
}

fn touches(range: &Range, start: u64) -> bool
    ensures { result ≡ spec.touches start range.now }
{
    range.start < range.end && start < range.end && u128::from(range.start) < u128::from(start) + 8
}

/// The addresses from which relocations copy. Contracts see them as a range for each relocation that does, in their order.
#[derive(Drop)]
pub struct Ranges {
    given: Vec<Range>,

    /// Ranges that ascend and do not overlap, with the same addresses.
    rising: Vec<Range>,
}

impl Model for Ranges {
    ghost use Rattle.std.specs.Prelude.{List};
    ghost use Rattle.pl_elf.specs.declared.range.Range.{Range};
    ghost use Rattle.pl_rewrite.specs.Ranges.{AreRising};

    ghost Value = { List Range };

    ghost view = { λ r. r.given.items };

    ghost invariant = { λ r. AreRising r.given.items r.rising.items };
}

impl Ranges {
    /// The addresses from which these relocations copy. The time grows as `n log n`.
    pub fn of(alloc: Global, meanings: &[Meaning]) -> Result<Ranges, AllocError>
        ensures { IfOk result (λ r. r ≡ spec.ranges_of meanings.now) }
    {
        let given = given_ranges(alloc, meanings)?;
        let copy = Vec::from_slice(alloc, &given)?;
        let rising = apart(alloc, copy)?;
        Ok(Ranges { given, rising })
    }

    /// Whether no relocation copies.
    pub fn is_empty(&self) -> bool
        ensures { result ≡ (length self.now == 0) }
    {
        self.given.is_empty()
    }

    /// Whether a word from an address on has an address of one of the ranges. The time grows as the logarithm of their number.
    pub fn is_near(&self, start: u64) -> bool
        ensures { result ≡ spec.is_near self.now start }
    {
        for range in near(&self.rising, start, 8) {
            if touches(range, start) {
                return true;
            }
        }
        false
    }
}
