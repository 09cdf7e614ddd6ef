ghost use Rattle.std.specs.Prelude.{◌≡◌, ◌≢◌, true, All, IfErr, IfOk, OnOk, None, string_bytes};
ghost use Rattle.std.specs.FinMap.{get};
ghost use Rattle.pl_base.specs.Names.{IsNameLength};
ghost use Rattle.pl_folder.specs.Calls.{Calls};
ghost use Rattle.pl_folder.specs.Disk.{after};
ghost use Rattle.pl_folder.specs.Seen.{ends};
ghost use Rattle.pl_journal.specs.Faults.{part_ending};
ghost use Rattle.pl_journal.specs.Leaves.{fault_of};
ghost use Rattle.pl_journal.specs.Lists.{IsListOf, texts};
ghost use Rattle.pl_journal.specs.Names.{journal};
ghost use Rattle.pl_journal.specs.Parts.{AreNames, DoesJournal, DoesJournalOf, IsAtRest, IsQuiet, IsRested, Looking, Recovers, RemovesIfOwn, RemovesOwn, StepsSpelled};
ghost use Rattle.pl_journal.specs.HeldFolder.{RecoversHeld, StaysFirm};
ghost use Rattle.pl_journal.specs.Reading.{rows_spelled};
ghost use Rattle.pl_journal.specs.Rows.{rows_in};
ghost use Rattle.pl_journal.specs.declared.fault.JournalFault.TheVariants as faults;

use crate::doing::do_rows;
use crate::names::{JOURNAL, is_journal_name};
use crate::planning::{has_own, is_in, plan_rows};
use crate::{JournalFault, Step, read_journal};
use pl_base::Rows;
use pl_folder::{Folder, FolderFault};
use pl_io::Failed;
use pl_stage::Held;
use std::alloc::Global;

/// What does the rows of the journal that these bytes are, of a folder with these names.
fn steps_of(alloc: Global, bytes: &[u8], names: &[String]) -> Result<Rows<Step>, JournalFault>
    ensures ok { IfOk result (StepsSpelled bytes.now (texts names.now)) }
    ensures bad { IfErr result (λ fault. fault ≡ faults.BadJournal → rows_spelled bytes.now ≡
        None) }
    ensures plain { IfErr result (λ fault. fault ≢ faults.Failed) }
{
    let rows = read_journal(alloc, bytes)?;
    let steps = plan_rows(alloc, rows.as_slice(), names)?;
    Ok(steps)
}

/// What does the rows of the folder's journal; without one there are none. The folder stays as it is.
#[tactic(auto, using(crate::proofs::RealLemmas::firmly_idle))]
fn read_steps<D: Folder>(
    held: &mut Held<D>,
    alloc: Global,
    names: &[String],
) -> Result<Rows<Step>, JournalFault>
    ensures calls { Calls (part_ending result) Looking (D.seen held.old.folder)
        (D.seen held.new.folder) }
    ensures ok { IfOk result (λ steps. (D.seen held.old.folder).tells ≡ true → IsListOf
        (texts names.now) (get (D.seen held.old.folder).files) → DoesJournalOf steps
        (get (D.seen held.old.folder).files)) }
    ensures bad { IfErr result (λ fault. fault ≡ faults.BadJournal → (D.seen held.old.folder).tells
        ≡ true → rows_in (get (D.seen held.old.folder).files journal) ≡ None) }
    ensures real { StaysFirm D.seen held.old held.new }
{
    match held.folder.take(alloc, JOURNAL) {
        Ok(bytes) => steps_of(alloc, bytes.as_slice(), names),
        Err(FolderFault::NotThere) => Ok(Rows::new(alloc)),
        Err(FolderFault::TooLarge) => Err(JournalFault::BadJournal),
        Err(FolderFault::NoMemory) => Err(JournalFault::NoMemory),
        Err(FolderFault::Failed) => Err(JournalFault::Failed),
    }
}

/// Does the rows of the folder's journal, where it has one, and settles them.
fn do_journal<D: Folder>(
    held: &mut Held<D>,
    alloc: Global,
    names: &[String],
) -> Result<(), JournalFault>
    requires { AreNames (D.seen held.old.folder) (texts names.now) }
    ensures calls { Calls (part_ending result) (DoesJournal (texts names.now) (fault_of result))
        (D.seen held.old.folder) (D.seen held.new.folder) }
    ensures real { StaysFirm D.seen held.old held.new }
{
    if !is_in(names, JOURNAL) {
        return Ok(());
    }
    let steps = read_steps(held, alloc, names)?;
    do_rows(held, steps.as_slice())?;
    held.folder.settle()?;
    Ok(())
}

/// Removes the name where it is one of the journal's own.
fn remove_if_own<D: Folder>(held: &mut Held<D>, name: &str) -> Result<(), Failed>
    requires { IsNameLength name.now }
    ensures calls { Calls (ends result) (RemovesIfOwn name.now) (D.seen held.old.folder)
        (D.seen held.new.folder) }
    ensures real { StaysFirm D.seen held.old held.new }
{
    if !is_journal_name(name) {
        return Ok(());
    }
    held.folder.remove(name)
}

/// Removes those of the names that are the journal's own.
fn remove_own<D: Folder>(held: &mut Held<D>, names: &[String]) -> Result<(), Failed>
    requires { All (λ name. IsNameLength (string_bytes name)) names.now }
    ensures calls { Calls (ends result) (RemovesOwn (texts names.now)) (D.seen held.old.folder)
        (D.seen held.new.folder) }
    ensures real { StaysFirm D.seen held.old held.new }
{
    for name in names {
        remove_if_own(held, name.as_str())?;
    }
    Ok(())
}

/// Recovers a settled folder that has these names.
fn recover_named<D: Folder>(
    held: &mut Held<D>,
    alloc: Global,
    names: &[String],
) -> Result<(), JournalFault>
    requires names { AreNames (D.seen held.old.folder) (texts names.now) }
    requires lengths { All (λ name. IsNameLength (string_bytes name)) names.now }
    ensures calls { RecoversHeld D.seen result held.old held.new }
    ensures real { StaysFirm D.seen held.old held.new }
{
    do_journal(held, alloc, names)?;
    remove_own(held, names)?;
    held.folder.settle()?;
    Ok(())
}

/// Recovers a settled folder that has these names. Where none of them is the journal's own nothing is done.
fn recover_listed<D: Folder>(
    held: &mut Held<D>,
    alloc: Global,
    names: &[String],
) -> Result<(), JournalFault>
    requires names { AreNames (D.seen held.old.folder) (texts names.now) }
    requires lengths { All (λ name. IsNameLength (string_bytes name)) names.now }
    ensures calls { RecoversHeld D.seen result held.old held.new }
    ensures quiet { IsRested (D.seen held.old.folder) → (D.seen held.old.folder).tells ≡ true →
        D.seen held.new.folder ≡ D.seen held.old.folder }
    ensures real { StaysFirm D.seen held.old held.new }
{
    if !has_own(names) {
        return Ok(());
    }
    recover_named(held, alloc, names)
}

/// Recovers a settled folder. Where none of the journal's own names is there it asks for the names alone.
fn recover_settled<D: Folder>(held: &mut Held<D>, alloc: Global) -> Result<(), JournalFault>
    ensures calls { RecoversHeld D.seen result held.old held.new }
    ensures quiet { OnOk result (IsRested (D.seen held.old.folder) →
        (D.seen held.old.folder).records ≡ true → (D.seen held.new.folder).disk ≡ after
        (D.seen held.old.folder).disk.now (D.seen held.old.folder).disk) }
    ensures real { StaysFirm D.seen held.old held.new }
{
    let names = held.folder.names(alloc)?;
    recover_listed(held, alloc, names.as_slice())
}

/// Recovers a folder, as `recover`, and lets it go.
///
/// Where none of the journal's own names is there, Ok comes after a `settle` and a call that changed nothing. On a disk whose `settle` makes names last and no file's bytes it is the same, but that files which were loose at its start may stay so.
pub fn recover_lent<D: Folder>(held: &mut Held<D>, alloc: Global) -> Result<(), JournalFault>
    ensures calls { Calls (part_ending result) (Recovers (fault_of result)) (D.seen held.old.folder)
        (D.seen held.new.folder) }
    ensures rested { OnOk result (IsAtRest (D.seen held.new.folder)) }
    ensures quiet { OnOk result (IsQuiet (D.seen held.old.folder) (D.seen held.new.folder)) }
    ensures real { StaysFirm D.seen held.old held.new }
{
    held.folder.settle()?;
    recover_settled(held, alloc)
}
