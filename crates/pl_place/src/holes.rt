ghost use Rattle.std.specs.Prelude.{◌≡◌, ◌+◌, ◌≤◌, ◌&&◌, not, true, ℕ, IfOk};
ghost use Rattle.pl_slots.specs.Holes.{AreHoles, fits_at, is_free};
ghost use Rattle.pl_elf.specs.Ranges.{has};
ghost use Rattle.pl_place.specs.Left as spec;

use pl_elf::Range;
use pl_slots::{region_holes, without};
use std::alloc::{AllocError, Global};
use std::marker::Model;

/// Ascending ranges of free addresses that are not empty and do not touch.
#[derive(Drop)]
pub struct Holes {
    rows: Vec<Range>,
}

impl Model for Holes {
    ghost use Rattle.std.specs.Prelude.{List};
    ghost use Rattle.pl_elf.specs.declared.range.Range.{Range};
    ghost use Rattle.pl_slots.specs.Holes.{AreHoles};

    ghost Value = { List Range };

    ghost view = { λ h. h.rows.items };

    ghost invariant = { λ h. AreHoles h.rows.items };
}

impl Holes {
    /// The holes of these ranges.
    pub fn new(rows: Vec<Range>) -> Holes
        requires { AreHoles rows.items }
        ensures { result ≡ rows.items }
    {
        Holes { rows }
    }

    /// The ranges, lent.
    pub fn rows(&self) -> &[Range]
        ensures rows { result.now ≡ self.now }
        ensures holes { AreHoles self.now }
    {
        &self.rows
    }

    /// The end of the highest hole, 0 where there is none. What fits ends there at most.
    pub fn end(&self) -> u64
        ensures value { result ≡ spec.greatest_end self.now }
        ensures most { (span start : ℕ) → fits_at self.now span start ≡ true
            → start + span ≤ result }
    {
        greatest_end(self.rows())
    }

    /// What is left beside a range that is taken. A range without addresses takes nothing.
    pub fn without_busy(self, alloc: Global, taken: Range) -> Result<Holes, AllocError>
        ensures { IfOk result (λ holes. holes ≡ spec.without_busy self taken) }
    {
        if taken.start < taken.end {
            Ok(Holes::new(without(alloc, self.rows(), taken)?))
        } else {
            Ok(self)
        }
    }
}

#[tactic(auto, unfolding(crate::specs::Left::greatest_end))]
fn greatest_end(holes: &[Range]) -> u64
    ensures { result ≡ spec.greatest_end holes.now }
{
    holes.iter().fold(0, |end: u64, hole| end.max(hole.end))
}

/// The holes of a region beside ranges that are busy.
#[tactic(auto, unfolding(crate::specs::Left::left))]
fn holes_left(alloc: Global, region: Range, busy: &[Range]) -> Result<Holes, AllocError>
    ensures { IfOk result (λ holes. holes ≡ spec.left region busy.now) }
{
    let mut holes = Holes::new(region_holes(alloc, region)?);
    for taken in busy {
        holes = holes.without_busy(alloc, *taken)?;
    }
    Ok(holes)
}

/// The holes of a region beside ranges that are busy. The ranges may overlap, and lie outside of the region.
pub fn left(alloc: Global, region: Range, busy: &[Range]) -> Result<Holes, AllocError>
    ensures value { IfOk result (λ holes. holes ≡ spec.left region busy.now) }
    ensures free { IfOk result (λ holes. (address : ℕ) → is_free address holes
        ≡ (has address region && not (is_free address busy.now))) }
{
    holes_left(alloc, region, busy)
}
