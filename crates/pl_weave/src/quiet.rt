//! The parts of a run in a folder in memory, none of which fails.
ghost use Rattle.std.specs.Prelude.{◌≡◌, ◌<◌, ◌≤◌, false, true, get_or, length, IfOk, OnOk};
ghost use Rattle.std.specs.FinMap.{get};
ghost use Rattle.std.specs.List.{list_any};
ghost use Rattle.pl_batch.specs.Changes.{IsRun};
ghost use Rattle.pl_folder.specs.InMemory.{quiet_seen};
ghost use Rattle.pl_journal.specs.Leaves.{DoEdits};
ghost use Rattle.pl_journal.specs.Meaning.{Agree, HasNoOwn, Same, rows_for};
ghost use Rattle.pl_journal.specs.Names.{journal, journal_new};
ghost use Rattle.pl_journal.specs.Parts.{CanPut, ReadsDone, journal_of, stepped, without_journal};
ghost use Rattle.pl_journal.specs.Phases.{all_staged, shifted};
ghost use Rattle.pl_journal.specs.Spelling.{are_rows};
ghost use Rattle.pl_journal.specs.declared.step.Step.TheVariants.{Skip};
ghost use Rattle.pl_weave.specs.Running as spec;
ghost use Rattle.pl_weave.specs.Running.{files_in};
ghost use Rattle.pl_weave.specs.Runs as runs;

use crate::storable::storable;
use pl_base::Rows;
use pl_batch::{Run, changes_of};
use pl_change::{BatchFault, Cause};
use pl_folder::QuietFolder;
use pl_io::{Failed, NoMemory};
use pl_journal::{Change, JournalFault, Step, commit_steps, do_next, finish_steps, stage_changes};
use pl_stage::Held;
use std::alloc::Global;

/// The rows that a run means of the files as they stand, which have no journal; or why it is refused.
#[tactic(auto, using(crate::proofs::QuietLemmas::never_broken))]
pub(crate) fn rows_of(
    alloc: Global,
    held: &mut Held<QuietFolder>,
    run: &Run,
) -> Result<Result<Rows<Change>, Cause>, NoMemory>
    requires is_run { IsRun run.now }
    requires no_own { HasNoOwn (get (files_in held.old)) }
    ensures rows { IfOk result (λ meant. meant ≡ runs.run_rows run.now (files_in held.old)) }
    ensures fits { IfOk result (λ meant. IfOk meant (λ rows. are_rows (rows_for rows) ≡ true)) }
    ensures same { OnOk result (files_in held.new ≡ files_in held.old) }
{
    match changes_of(alloc, &mut held.folder, run) {
        Ok(rows) => Ok(storable(rows)),
        Err(BatchFault::Cause(cause)) => Ok(Err(cause)),
        Err(BatchFault::DiskFailed) => unreachable!(),
        Err(BatchFault::NoMemory) => Err(NoMemory),
    }
}

/// Writes the files of rows and their journal under names of the journal's own.
#[tactic(auto, using(crate::proofs::QuietLemmas::never_broken))]
fn stage(
    alloc: Global,
    held: &mut Held<QuietFolder>,
    rows: &[Change],
) -> Result<Rows<Step>, NoMemory>
    requires fine { are_rows (rows_for rows.now) ≡ true }
    requires no_own { HasNoOwn (get (files_in held.old)) }
    ensures steps { IfOk result (DoEdits 0 rows.now) }
    ensures can { IfOk result (CanPut (quiet_seen held.new.folder)) }
    ensures reads { OnOk result (Same (get (files_in held.new))
        (all_staged rows.now (journal_of rows.now) (get (files_in held.old)))) }
    ensures agree { OnOk result (Agree (get (files_in held.new)) (get (files_in held.old))) }
{
    match stage_changes(held, alloc, rows) {
        Ok(steps) => Ok(steps),
        Err(JournalFault::Failed) => unreachable!(),
        Err(JournalFault::BadJournal) => unreachable!(),
        Err(JournalFault::NoMemory) => Err(NoMemory),
    }
}

/// Gives the journal its name.
#[tactic(auto, using(crate::proofs::QuietLemmas::never_broken))]
fn commit(held: &mut Held<QuietFolder>, steps: &[Step])
    requires { CanPut (quiet_seen held.old.folder) steps.now }
    ensures { Same (get (files_in held.new))
        (shifted journal_new journal (get (files_in held.old))) }
{
    match commit_steps(held, steps) {
        Ok(()) => {}
        Err(Failed) => unreachable!(),
    }
}

/// Begins the rows of a run over files that have no journal: then they are done one after the other.
pub(crate) fn begin_rows(
    alloc: Global,
    held: &mut Held<QuietFolder>,
    rows: &[Change],
) -> Result<Rows<Step>, NoMemory>
    requires fine { are_rows (rows_for rows.now) ≡ true }
    requires no_own { HasNoOwn (get (files_in held.old)) }
    ensures { IfOk result (λ steps. list_any runs.is_large rows.now ≡ false →
        spec.AreStored (files_in held.old) →
        spec.IsUnderWay steps 0 rows.now (files_in held.old) (files_in held.new)) }
{
    let steps = stage(alloc, held, rows)?;
    commit(held, steps.as_slice());
    Ok(steps)
}

/// Does the next row of a run: one rename, or one removal.
#[tactic(auto, using(crate::proofs::QuietLemmas::never_next))]
pub(crate) fn do_row(held: &mut Held<QuietFolder>, steps: &[Step], done: usize)
    requires left { done < length steps.now }
    requires can { ReadsDone steps.now done (get (files_in held.old)) }
    ensures { Same (get (files_in held.new))
        (stepped (get_or steps.now done Skip) (get (files_in held.old))) }
{
    match do_next(held, steps, done) {
        Ok(_) => {}
        Err(Failed) => unreachable!(),
    }
}

/// Ends the journal of a run all of whose rows are done.
#[tactic(auto, using(crate::proofs::QuietLemmas::never_broken))]
pub(crate) fn end_rows(held: &mut Held<QuietFolder>, steps: &[Step], done: usize)
    requires none_left { length steps.now ≤ done }
    requires can { ReadsDone steps.now done (get (files_in held.old)) }
    ensures reads { Same (get (files_in held.new)) (without_journal (get (files_in held.old))) }
    ensures no_own { HasNoOwn (get (files_in held.new)) }
{
    match finish_steps(held, steps, done) {
        Ok(()) => {}
        Err(Failed) => unreachable!(),
    }
}
