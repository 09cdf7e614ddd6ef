//! The writing commands of one name.
ghost use Rattle.pl_pie.specs.Placed.{HoldsBy};
ghost use Rattle.pl_folder.specs.Calls.{Calls};
ghost use Rattle.pl_place.specs.Policy as policy;
ghost use Rattle.pl_change.specs.Answers.{ending};
ghost use Rattle.pl_change.specs.Changes.{removal_meant};
ghost use Rattle.pl_change.specs.Commands.{Commands, outcome, ready_for};
ghost use Rattle.pl_change.specs.Replace.{Fixes, loosening_meant};
ghost use Rattle.pl_change.specs.Starts.{Named};

use crate::BatchFault;
use crate::commands::{fix_held, recover_held, remove_held, unfix_held};
use crate::lent::Lent;
use pl_folder::Folder;
use pl_place::{Holes, Placer};
use pl_stage::Held;
use std::alloc::Global;

/// Recovers the folder and then removes the file of a name, or changes nothing. The first cause counts: BadName, BadJournal, NotThere.
///
/// After a cause the folder is recovered and nothing else changes. `DiskFailed` comes only where the folder failed: recovered, it then has the change or has it not. `NoMemory` comes before the change is committed. Each image that a crash on the way may leave stands for the files before or for those after; that of a moment before the first `settle` that is done may be one of the folder's images at the start. On a disk whose `settle` makes names last and no file's bytes, as real ones are, it goes on alike, moment for moment, but for the firmness of files that were loose, that is not firm, at its start and that it left alone.
pub fn remove<D: Folder>(alloc: Global, folder: &mut D, name: &str) -> Result<(), BatchFault>
    ensures calls { Calls (ending result) (Commands (removal_meant name.now) (outcome result))
        (D.seen folder.old) (D.seen folder.new) }
    ensures named { Named name.now result }
{
    let mut held = Held {
        folder: Lent { folder },
    };
    remove_held(&mut held, alloc, name)
}

/// Recovers the folder and then fixes the position-independent program of a name where the policy places it, and tells the address. The name gets the program that `fix` of pl_pie makes of the original of its file there, as `remove` makes its change; the policy is asked once, for the whole region of such programs, 0x2000000000 to 0x2f00000000. The first cause counts: BadName, BadJournal, NotThere, FileTooLarge, BadMark, NotPie, NoPlace.
///
/// What is said of the folder and of the address is said by the answer that the policy gave, whether it follows a function or none: it is so of each function that answers so. For a name that is not valid there is no other cause than BadName, whatever the folder tells, and no Ok.
pub fn fix_file<D: Folder, F: Fn(&Holes, u64, u64) -> Option<u64>>(
    alloc: Global,
    folder: &mut D,
    name: &str,
    placer: &Placer<F>,
) -> Result<u64, BatchFault>
    requires may { policy.MayChoose (F.pre placer.now) }
    requires chooses { policy.Chooses (F.post placer.now) }
    ensures fixes { HoldsBy (F.post placer.now)
        (λ choose. Fixes choose name.now result (D.seen folder.old) (D.seen folder.new)) }
    ensures named { Named name.now result }
{
    let mut held = Held {
        folder: Lent { folder },
    };
    fix_held(&mut held, alloc, name, placer)
}

/// Recovers the folder and then gives a name the position-independent program of which the original of its file is the fixed one, as `remove` makes its change. The first cause counts: BadName, BadJournal, NotThere, FileTooLarge, BadMark, NotFixed.
pub fn unfix_file<D: Folder>(alloc: Global, folder: &mut D, name: &str) -> Result<(), BatchFault>
    ensures calls { Calls (ending result) (Commands (loosening_meant name.now) (outcome result))
        (D.seen folder.old) (D.seen folder.new) }
    ensures named { Named name.now result }
{
    let mut held = Held {
        folder: Lent { folder },
    };
    unfix_held(&mut held, alloc, name)
}

/// Recovers the folder for a command that stores a file under a name, before its bytes are read. The first cause counts: BadName, BadJournal. For a name that is not valid there is no other cause, whatever the folder tells, and no Ok.
pub fn recover_for<D: Folder>(alloc: Global, folder: &mut D, name: &str) -> Result<(), BatchFault>
    ensures calls { Calls (ending result) (Commands (ready_for name.now) (outcome result))
        (D.seen folder.old) (D.seen folder.new) }
    ensures named { Named name.now result }
{
    let mut held = Held {
        folder: Lent { folder },
    };
    recover_held(&mut held, alloc, name)
}
