ghost use Rattle.std.specs.Prelude.{◌≡◌, ◌≢◌, ◌+◌, ◌<◌, ◌≤◌, true, Option, IfOk, IfSome, All, AllPairs};
ghost use Rattle.std.specs.Option.{option_map};
ghost use Rattle.pl_base.specs.Answers.{Answers};
ghost use Rattle.pl_slots.specs.Apart.{are_apart};
ghost use Rattle.pl_slots.specs.Plan as spec;

use crate::holes::{greatest, lowest_place, region_holes, without};
use crate::partial_plan::PartialPlan;
use crate::{PlanFault, Slot, Want};
use pl_base::{Rows, Text, end, is_aligned};
use pl_elf::Range;
use std::alloc::{AllocError, Global};

#[tactic(auto, unfolding(crate::specs::Plan::lies_in))]
fn lies_in(region: Range, slot: &Slot) -> bool
    ensures { result ≡ spec.lies_in region slot.now }
{
    region.start <= slot.start && end(slot.start, slot.span) <= u128::from(region.end)
}

#[tactic(auto, unfolding(crate::specs::Plan::keeps))]
fn keeps(region: Range, want: &Want, slot: &Slot) -> bool
    requires { 0 < want.now.align }
    ensures { result ≡ spec.keeps region want.now slot.now }
{
    slot.name.as_str() == want.name.as_str()
        && want.span <= slot.span
        && is_aligned(slot.start, want.align)
        && lies_in(region, slot)
}

#[tactic(auto, unfolding(crate::specs::Plan::kept_row))]
fn find_row<'a>(kept: &'a [Slot], region: Range, want: &Want) -> Option<&'a Slot>
    requires { 0 < want.now.align }
    ensures { option_map (λ row. row.now) result ≡ spec.kept_row kept.now region want.now }
{
    kept.iter().find(|row| keeps(region, want, row))
}

/// The row that a want keeps, if there is one: the row of its name, where it is large enough, aligned as the library wants, and in the region.
pub fn kept_row<'a>(kept: &'a [Slot], region: Range, want: &Want) -> Option<&'a Slot>
    requires { 0 < want.now.align }
    ensures row { option_map (λ row. row.now) result ≡ spec.kept_row kept.now region want.now }
    ensures within { IfSome result (λ row. row.now.start + row.now.span ≤ region.end) }
{
    find_row(kept, region, want)
}

/// The holes that the kept rows of all wants leave in a region.
#[tactic(auto, unfolding(crate::specs::Plan::kept_holes))]
fn kept_holes(
    alloc: Global,
    kept: &[Slot],
    region: Range,
    wants: &[Want],
) -> Result<Vec<Range>, AllocError>
    requires { All (λ want. 0 < want.align) wants.now }
    ensures { IfOk result (λ holes. holes.items ≡ spec.kept_holes kept.now region wants.now) }
{
    let mut holes = region_holes(alloc, region)?;
    for want in wants {
        if let Some(row) = kept_row(kept, region, want) {
            holes = without(alloc, &holes, row.range())?;
        }
    }
    Ok(holes)
}

/// Gives a want that keeps no row the least aligned address of a hole.
#[tactic(auto, unfolding(crate::specs::Plan::placed))]
fn placed(alloc: Global, planned: PartialPlan, want: &Want) -> Result<PartialPlan, PlanFault>
    requires { 0 < want.now.align }
    ensures { Answers spec.is_memory result (spec.placed planned want.now) }
{
    let PartialPlan { mut rows, holes } = planned;
    let name = Text::copy_of(alloc, want.name.as_str())?;
    match lowest_place(holes.as_slice(), want.span, want.align) {
        None => Err(PlanFault::NoSlot {
            name,
            span: want.span,
            hole: greatest(holes.as_slice()),
        }),
        Some(start) => {
            let taken = Range::from_size(start, want.span);
            let left = without(alloc, holes.as_slice(), taken)?;
            rows.push(Slot {
                name,
                start,
                span: want.span,
            })?;
            Ok(PartialPlan {
                rows,
                holes: Rows::from_vec(left),
            })
        }
    }
}

/// Gives a want its kept row, or else a place.
#[tactic(auto, unfolding(crate::specs::Plan::next))]
fn next(
    alloc: Global,
    kept: &[Slot],
    region: Range,
    planned: PartialPlan,
    want: &Want,
) -> Result<PartialPlan, PlanFault>
    requires { 0 < want.now.align }
    ensures { Answers spec.is_memory result (spec.next kept.now region planned want.now) }
{
    match kept_row(kept, region, want) {
        None => placed(alloc, planned, want),
        Some(row) => {
            let PartialPlan { mut rows, holes } = planned;
            rows.push(row.copy(alloc)?)?;
            Ok(PartialPlan { rows, holes })
        }
    }
}

#[tactic(auto, unfolding(crate::specs::Plan::plan))]
fn all_placed(
    alloc: Global,
    kept: &[Slot],
    wants: &[Want],
    region: Range,
) -> Result<Rows<Slot>, PlanFault>
    requires { All (λ want. 0 < want.align) wants.now }
    ensures { Answers spec.is_memory result (spec.plan kept.now wants.now region) }
{
    let holes = Rows::from_vec(kept_holes(alloc, kept, region, wants)?);
    let mut planned = PartialPlan {
        rows: Rows::new(alloc),
        holes,
    };
    for want in wants {
        planned = next(alloc, kept, region, planned, want)?;
    }
    let PartialPlan { rows, holes: _ } = planned;
    Ok(rows)
}

/// The slots of all wants, in their order; callers hand the wants in ascending by name. A want keeps the row of its name where the row is large enough, aligned as the library wants, and in the region; all of the row then. Each other want, in its turn, takes the least aligned address at which it fits in a hole of the region beside the kept rows and the slots placed before. NoSlot comes at the first want that fits in no hole.
pub fn plan(
    alloc: Global,
    kept: &[Slot],
    wants: &[Want],
    region: Range,
) -> Result<Rows<Slot>, PlanFault>
    requires { All (λ want. 0 < want.align) wants.now }
    // Which slots, or which fault.
    ensures exact { Answers spec.is_memory result (spec.plan kept.now wants.now region) }
    // Each want's slot is its kept row, or as large as it wants; it is aligned and in the region.
    ensures serve { IfOk result (λ rows. All (λ want. 0 < want.span) wants.now
        → spec.AllServe kept.now region wants.now rows) }
    // No two slots share an address.
    ensures apart { IfOk result (λ rows. All (λ want. 0 < want.span) wants.now
        → AllPairs (λ a b. a.name ≢ b.name) wants.now → are_apart kept.now ≡ true → are_apart rows
        ≡ true) }
{
    all_placed(alloc, kept, wants, region)
}
