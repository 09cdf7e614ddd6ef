//! The writing commands of one name, over a folder that is held.
ghost use Rattle.pl_pie.specs.Placed.{HoldsBy};
ghost use Rattle.pl_folder.specs.Calls.{Calls};
ghost use Rattle.pl_place.specs.Policy as policy;
ghost use Rattle.pl_change.specs.Answers.{ending};
ghost use Rattle.pl_change.specs.Changes.{removal_meant};
ghost use Rattle.pl_change.specs.Commands.{Commands, outcome, ready_for};
ghost use Rattle.pl_change.specs.Replace.{Fixes, loosening_meant};
ghost use Rattle.pl_change.specs.Starts.{Named};

use crate::BatchFault;
use crate::changes::removal_of;
use crate::fixing::{fix_changes, unfix_changes};
use crate::starting::start_for;
use pl_folder::Folder;
use pl_journal::carry_out;
use pl_place::{Holes, Placer};
use pl_stage::Held;
use std::alloc::Global;

/// `remove`, over a folder that is held.
pub(crate) fn remove_held<D: Folder>(
    held: &mut Held<D>,
    alloc: Global,
    name: &str,
) -> Result<(), BatchFault>
    ensures calls { Calls (ending result) (Commands (removal_meant name.now) (outcome result))
        (D.seen held.old.folder) (D.seen held.new.folder) }
    ensures named { Named name.now result }
{
    start_for(held, alloc, name)?;
    let rows = removal_of(alloc, &mut held.folder, name)?;
    carry_out(held, alloc, rows.as_slice())?;
    Ok(())
}

/// `fix_file`, over a folder that is held.
pub(crate) fn fix_held<D: Folder, F: Fn(&Holes, u64, u64) -> Option<u64>>(
    held: &mut Held<D>,
    alloc: Global,
    name: &str,
    placer: &Placer<F>,
) -> Result<u64, BatchFault>
    requires may { policy.MayChoose (F.pre placer.now) }
    requires chooses { policy.Chooses (F.post placer.now) }
    ensures fixes { HoldsBy (F.post placer.now)
        (λ choose. Fixes choose name.now result (D.seen held.old.folder) (D.seen held.new.folder)) }
    ensures named { Named name.now result }
{
    start_for(held, alloc, name)?;
    let made = fix_changes(alloc, &mut held.folder, name, placer)?;
    carry_out(held, alloc, made.rows.as_slice())?;
    Ok(made.address)
}

/// `unfix_file`, over a folder that is held.
pub(crate) fn unfix_held<D: Folder>(
    held: &mut Held<D>,
    alloc: Global,
    name: &str,
) -> Result<(), BatchFault>
    ensures calls { Calls (ending result) (Commands (loosening_meant name.now) (outcome result))
        (D.seen held.old.folder) (D.seen held.new.folder) }
    ensures named { Named name.now result }
{
    start_for(held, alloc, name)?;
    let rows = unfix_changes(alloc, &mut held.folder, name)?;
    carry_out(held, alloc, rows.as_slice())?;
    Ok(())
}

/// `recover_for`, over a folder that is held.
pub(crate) fn recover_held<D: Folder>(
    held: &mut Held<D>,
    alloc: Global,
    name: &str,
) -> Result<(), BatchFault>
    ensures calls { Calls (ending result) (Commands (ready_for name.now) (outcome result))
        (D.seen held.old.folder) (D.seen held.new.folder) }
    ensures named { Named name.now result }
{
    start_for(held, alloc, name)
}
