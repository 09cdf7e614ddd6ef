// The plan where slots may overlap.
ghost use Rattle.std.specs.Prelude.{◌≡◌, ◌+◌, ◌<◌, ◌≤◌, ◌^◌, ◌++◌, ◌||◌, ◌==◌, Some, Ok, Err, ℕ, not, false, List, [], length, slice_index_or, fold, find, if◌then◌else◌, All, IfOk, IfErr, IfSome, OnOk};
ghost use Rattle.std.specs.List.{list_all, list_any, cons_option};
ghost use Rattle.std.specs.Option.{option_map};
ghost use Rattle.pl_base.specs.Answers.{Answers};
ghost use Rattle.pl_slots.specs.Apart.{is_beside};
ghost use Rattle.pl_slots.specs.Holes.{lowest};
ghost use Rattle.pl_slots.specs.Plan.{is_memory, kept_row};
ghost use Rattle.pl_share.specs.Shared.{AreGiven};
ghost use Rattle.pl_share.specs.Shared as spec;

use crate::Walks;
use crate::asked::Asked;
use crate::given::Given;
use crate::together::flags_of;
use pl_base::{Rows, Text};
use pl_elf::Range;
use pl_slots::{
    PlanFault, Slot, Want, greatest, is_beside, kept_row, lowest_place, region_holes, without,
};
use std::alloc::{AllocError, Global};

/// Whether a row meets no slot of a flagged want.
fn is_clear(given: &[Given], flags: &[bool], row: &Slot) -> bool
    requires { All (λ g. g.want < length flags.now) given.now }
    ensures { result ≡ list_all (λ g. not (slice_index_or flags.now g.want false) || is_beside
        row.now g.slot) given.now }
{
    given
        .iter()
        .all(|g| !flags[g.want] || is_beside(row, &g.slot))
}

/// The holes that the slots of flagged wants leave.
fn holes_beside(
    alloc: Global,
    given: &[Given],
    flags: &[bool],
    region: Range,
) -> Result<Vec<Range>, AllocError>
    requires given { AreGiven given.now (length flags.now) }
    ensures { IfOk result (λ holes. holes.items ≡ spec.flagged_holes flags.now region given.now) }
{
    let mut holes = region_holes(alloc, region)?;
    for g in given {
        if flags[g.want] {
            holes = without(alloc, &holes, g.slot.range())?;
        }
    }
    Ok(holes)
}

fn has_slot(given: &[Given], position: usize) -> bool
    ensures { result ≡ spec.has_slot given.now position }
{
    given.iter().any(|g| g.want == position)
}

/// Keeps a row for a want, where it meets no slot of a want that some walk holds with it.
fn keep_row(
    alloc: Global,
    asked: &Asked<'_>,
    count: usize,
    given: &mut Rows<Given>,
    position: usize,
    row: &Slot,
) -> Result<(), AllocError>
    requires within { position < count }
    requires given { AreGiven given.old count }
    requires end { row.now.start + row.now.span < 2 ^ 64 }
    ensures kept { OnOk result (given.new ≡ spec.with_clear_row asked.now.walks.now given.old
        position (Some row.now)) }
    ensures given { OnOk result (AreGiven given.new count) }
{
    let flags = flags_of(alloc, asked.walks, count, position)?;
    if !is_clear(given.as_slice(), &flags, row) {
        return Ok(());
    }
    let slot = row.copy(alloc)?;
    given.push(Given {
        want: position,
        slot,
    })
}

/// The row that a want keeps, if there is one, by the rows and the region alone.
fn find_row<'a>(rows: &'a [Slot], region: Range, want: &Want) -> Option<&'a Slot>
    requires { 0 < want.now.align }
    ensures row { option_map (λ row. row.now) result ≡ kept_row rows.now region want.now }
    ensures end { IfSome result (λ row. row.now.start + row.now.span < 2 ^ 64) }
{
    kept_row(rows, region, want)
}

/// Keeps the row that a want keeps, if there is one.
#[tactic(auto, unfolding(crate::specs::Shared::kept))]
fn keep(
    alloc: Global,
    asked: &Asked<'_>,
    count: usize,
    given: &mut Rows<Given>,
    position: usize,
    want: &Want,
) -> Result<(), AllocError>
    requires align { 0 < want.now.align }
    requires within { position < count }
    requires given { AreGiven given.old count }
    ensures kept { OnOk result (given.new ≡ spec.kept asked.now.rows.now asked.now.walks.now
        asked.now.region given.old position want.now) }
    ensures given { OnOk result (AreGiven given.new count) }
{
    match find_row(asked.rows, asked.region, want) {
        None => Ok(()),
        Some(row) => keep_row(alloc, asked, count, given, position, row),
    }
}

/// Gives a want the least aligned address of a hole.
fn place_in(
    alloc: Global,
    count: usize,
    given: &mut Rows<Given>,
    position: usize,
    want: &Want,
    holes: &[Range],
) -> Result<(), PlanFault>
    requires align { 0 < want.now.align }
    requires within { position < count }
    requires given { AreGiven given.old count }
    ensures ok { OnOk result (spec.at_place given.old position want.now holes.now
        (lowest want.now.span want.now.align holes.now) ≡ Ok given.new) }
    ensures err { IfErr result (λ fault. Answers is_memory (Err fault)
        (spec.at_place given.old position want.now holes.now
        (lowest want.now.span want.now.align holes.now))) }
    ensures given { OnOk result (AreGiven given.new count) }
{
    let name = Text::copy_of(alloc, want.name.as_str())?;
    let Some(start) = lowest_place(holes, want.span, want.align) else {
        return Err(PlanFault::NoSlot {
            name,
            span: want.span,
            hole: greatest(holes),
        });
    };
    let slot = Slot {
        name,
        start,
        span: want.span,
    };
    given.push(Given {
        want: position,
        slot,
    })?;
    Ok(())
}

/// Gives a want its place beside the slots of all that some walk holds with it: those are flagged. One that keeps a row has it beside these already (`keep_row`).
fn place(
    alloc: Global,
    asked: &Asked<'_>,
    count: usize,
    given: &mut Rows<Given>,
    position: usize,
    want: &Want,
) -> Result<(), PlanFault>
    requires align { 0 < want.now.align }
    requires within { position < count }
    requires given { AreGiven given.old count }
    ensures ok { OnOk result (spec.placed asked.now.walks.now asked.now.region given.old position
        want.now ≡ Ok given.new) }
    ensures err { IfErr result (λ fault. Answers is_memory (Err fault)
        (spec.placed asked.now.walks.now asked.now.region given.old position want.now)) }
    ensures given { OnOk result (AreGiven given.new count) }
{
    if has_slot(given.as_slice(), position) {
        return Ok(());
    }
    let flags = flags_of(alloc, asked.walks, count, position)?;
    let holes = holes_beside(alloc, given.as_slice(), &flags, asked.region)?;
    place_in(alloc, count, given, position, want, &holes)
}

/// The rows that the wants keep.
fn keep_all(alloc: Global, asked: &Asked<'_>, wants: &[Want]) -> Result<Rows<Given>, AllocError>
    requires { All (λ want. 0 < want.align) wants.now }
    ensures kept { IfOk result (λ given. given
        ≡ spec.all_kept asked.now.rows.now asked.now.walks.now asked.now.region [] 0 wants.now) }
    ensures given { IfOk result (λ given. AreGiven given (length wants.now)) }
{
    let mut given = Rows::new(alloc);
    for position in 0..wants.len() {
        keep(
            alloc,
            asked,
            wants.len(),
            &mut given,
            position,
            &wants[position],
        )?;
    }
    Ok(given)
}

/// These slots, and those of the other wants.
fn place_all(
    alloc: Global,
    asked: &Asked<'_>,
    wants: &[Want],
    kept: Rows<Given>,
) -> Result<Rows<Given>, PlanFault>
    requires align { All (λ want. 0 < want.align) wants.now }
    requires given { AreGiven kept (length wants.now) }
    ensures { Answers is_memory result (spec.all_placed asked.now.walks.now asked.now.region kept 0
        wants.now) }
{
    let mut given = kept;
    for position in 0..wants.len() {
        place(
            alloc,
            asked,
            wants.len(),
            &mut given,
            position,
            &wants[position],
        )?;
    }
    Ok(given)
}

fn slot_of(given: &[Given], position: usize) -> Option<&Slot>
    ensures { option_map (λ slot. slot.now) result ≡ spec.slot_of given.now position }
{
    match given.iter().find(|g| g.want == position) {
        None => None,
        Some(g) => Some(&g.slot),
    }
}

/// Adds a slot, if there is one.
fn push_slot(alloc: Global, slots: &mut Rows<Slot>, slot: Option<&Slot>) -> Result<(), AllocError>
    ensures { OnOk result (slots.new ≡ slots.old
        ++ cons_option (option_map (λ slot. slot.now) slot.entry) []) }
{
    match slot {
        None => Ok(()),
        Some(slot) => slots.push(slot.copy(alloc)?),
    }
}

/// The slots of so many wants, in their order.
fn slots_of(alloc: Global, given: &[Given], count: usize) -> Result<Rows<Slot>, AllocError>
    ensures { IfOk result (λ slots. slots ≡ spec.slots_of given.now count) }
{
    let mut slots = Rows::new(alloc);
    for position in 0..count {
        push_slot(alloc, &mut slots, slot_of(given, position))?;
    }
    Ok(slots)
}

fn planned(alloc: Global, asked: &Asked<'_>, wants: &[Want]) -> Result<Rows<Slot>, PlanFault>
    requires { All (λ want. 0 < want.align) wants.now }
    ensures { Answers is_memory result (spec.plan_shared asked.now.rows.now wants.now
        asked.now.walks.now asked.now.region) }
{
    let kept = keep_all(alloc, asked, wants)?;
    let given = place_all(alloc, asked, wants, kept)?;
    Ok(slots_of(alloc, given.as_slice(), wants.len())?)
}

/// The slots of all wants, in their order, where slots of libraries may overlap that no walk holds together; callers hand the wants in ascending by name. A want keeps the row of its name where the row is large enough, aligned as the library wants, in the region, and meets no row that a want before it kept and some walk holds with it. Each other want, in its turn, takes the least aligned address at which it fits in a hole of the region beside the slots given so far, of which those count that some walk holds with it. NoSlot comes at the first want that fits in no hole, with the size of the greatest.
pub fn plan_shared(
    alloc: Global,
    rows: &[Slot],
    wants: &[Want],
    walks: &Walks,
    region: Range,
) -> Result<Rows<Slot>, PlanFault>
    requires { All (λ want. 0 < want.align) wants.now }
    // Which slots, or which fault.
    ensures exact { Answers is_memory result (spec.plan_shared rows.now wants.now walks.now.rows
        region) }
    // Each want's slot is as large as it wants, aligned and in the region.
    ensures serve { IfOk result (λ slots. All (λ want. 0 < want.span) wants.now
        → spec.AreSlotsFor region wants.now slots) }
    // In each walk no two slots share an address.
    ensures apart { IfOk result (λ slots. All (λ want. 0 < want.span) wants.now
        → spec.WalksAreApart walks.now.rows slots) }
{
    let asked = Asked {
        rows,
        walks: walks.rows.as_slice(),
        region,
    };
    planned(alloc, &asked, wants)
}
