//! A writing run in its states: each is had only by the one before.
ghost use Rattle.std.specs.Prelude.{◌≡◌, ◌≤◌, true, IfErr, IfOk, OnOk, None, length};
ghost use Rattle.std.specs.Borrow.{sem, RestsIfErr};
ghost use Rattle.pl_folder.specs.Calls.{Calls};
ghost use Rattle.pl_folder.specs.Seen.{Done, ends};
ghost use Rattle.pl_stage.specs.Loans.{HoldsLoan};
ghost use Rattle.pl_stage.specs.contracts.held.Held.{the_row};
ghost use Rattle.pl_journal.specs.Faults.{IsNotBad, part_ending};
ghost use Rattle.pl_journal.specs.Leaves.{DoEdits, fault_of};
ghost use Rattle.pl_journal.specs.Meaning.{rows_for};
ghost use Rattle.pl_journal.specs.Parts.{CanGoOn, CanPut, Commits, Finishes, IsAtRest, IsQuiet, IsRested, Moves, NextOn, Recovers, Stages};
ghost use Rattle.pl_journal.specs.Spelling.{are_rows};

use crate::committing::commit_steps;
use crate::doing::do_next;
use crate::finishing::finish_steps;
use crate::staging::stage_changes;
use crate::states::{Committed, Settled, Staged, Stopped};
use crate::{Change, JournalFault, recover_lent};
use pl_folder::Folder;
use pl_io::Failed;
use pl_stage::Held;
use std::alloc::Global;

/// Recovers a folder: after a crash at any call it holds all of the changes of a run or none.
///
/// Where none of the journal's own names is there its only calls are a `settle` and a `names`. It begins with a `settle`. With a journal each row that is not done is done and settled; then the journal and each other file of its own is removed, and the folder is settled. `BadJournal` comes exactly where the journal's bytes are outside its grammar, or too large to be taken; the files are as before. After `Failed` or `NoMemory` the folder stands for what it stood for: it may be recovered again. Where it gives no answer the loan ends.
pub fn recover<'a, D: Folder>(
    held: &'a mut Held<D>,
    alloc: Global,
) -> Result<Settled<'a, D>, JournalFault>
    ensures* rests { sem 𝓛 (RestsIfErr (the_row D.row) held.entry (λ it. it.held.ghost_name) result
        (λ n. Calls (part_ending result) (Recovers (fault_of result)) (D.seen held.old.folder)
        (D.seen n.folder))) }
    ensures same_reference { HoldsLoan result (λ it. it.held) held.entry }
    ensures calls { IfOk result (λ it. Calls Done (Recovers None) (D.seen held.old.folder)
        (D.seen it.held.now.folder)) }
    ensures rested { IfOk result (λ it. IsAtRest (D.seen it.held.now.folder)) }
    ensures quiet { IfOk result (λ it. IsQuiet (D.seen held.old.folder)
        (D.seen it.held.now.folder)) }
{
    match recover_lent(held, alloc) {
        Ok(()) => Ok(Settled { held }),
        Err(fault) => Err(fault),
    }
}

impl<'a, D: Folder> Settled<'a, D> {
    /// Ends the loan.
    pub fn leave(self)
        ensures { self.exit.0.now ≡ self.entry.held.now }
    {
        let Settled { held: _ } = self;
    }

    /// Writes the bytes of the changes and their journal under names of the journal's own. Where it gives no answer the loan ends, and the folder stands for the files before. `BadJournal` does not come.
    pub fn stage(self, alloc: Global, changes: &[Change]) -> Result<Staged<'a, D>, JournalFault>
        requires fine { are_rows (rows_for changes.now) ≡ true }
        requires rested { IsRested (D.seen self.held.now.folder) }
        ensures* rests { sem 𝓛 (RestsIfErr (the_row D.row) self.entry.held
            (λ it. it.held.ghost_name) result
            (λ n. Calls (part_ending result) (Stages changes.now)
            (D.seen self.entry.held.now.folder) (D.seen n.folder))) }
        ensures same_reference { HoldsLoan result (λ it. it.held) self.entry.held }
        ensures calls { IfOk result (λ it. Calls Done (Stages changes.now)
            (D.seen self.entry.held.now.folder) (D.seen it.held.now.folder)) }
        ensures plain { IfErr result IsNotBad }
        ensures ready { IfOk result (λ it. DoEdits 0 changes.now it.steps × CanPut
            (D.seen it.held.now.folder) it.steps) }
    {
        let Settled { held } = self;
        let steps = stage_changes(held, alloc, changes)?;
        Ok(Staged { held, steps })
    }
}

impl<'a, D: Folder> Staged<'a, D> {
    /// Gives the journal its name: from then on a recovery makes the changes. After a fault the loan ends; the recovered folder is the one before or the one after.
    pub fn commit(self) -> Result<Committed<'a, D>, Failed>
        requires { CanPut (D.seen self.held.now.folder) self.steps }
        ensures* rests { sem 𝓛 (RestsIfErr (the_row D.row) self.entry.held
            (λ it. it.held.ghost_name) result
            (λ n. Calls (ends result) Commits (D.seen self.entry.held.now.folder)
            (D.seen n.folder))) }
        ensures same_reference { HoldsLoan result (λ it. it.held) self.entry.held }
        ensures calls { IfOk result (λ it. Calls Done Commits (D.seen self.entry.held.now.folder)
            (D.seen it.held.now.folder)) }
        ensures begins { IfOk result (λ it. (it.steps ≡ self.entry.steps) × (it.done ≡ 0) × CanGoOn
            (D.seen it.held.now.folder) it.steps it.done) }
    {
        let Staged { held, steps } = self;
        let committed = commit_steps(held, steps.as_slice());
        match committed {
            Ok(()) => Ok(Committed {
                held,
                steps,
                done: 0,
            }),
            Err(fault) => {
                drop(steps);
                Err(fault)
            }
        }
    }

    /// Stops before the commit; the folder is as it was. What is staged is left to a recovery, which removes it.
    pub fn stop(self) -> Stopped<'a, D>
        ensures same_reference { result.held.ghost_name ≡ self.entry.held.ghost_name }
        ensures same { result.held.now ≡ self.entry.held.now }
    {
        let Staged { held, steps } = self;
        drop(steps);
        Stopped { held }
    }
}

impl<'a, D: Folder> Committed<'a, D> {
    /// Does the next row, where one is left: then `true`, else `false`, and the folder is as it was. A fault comes only where a row is left and the folder failed at it; then as many rows count as done as before, and the loan serves a recovery alone.
    pub fn rename_next(&mut self) -> Result<bool, Failed>
        requires { CanGoOn (D.seen self.old.held.now.folder) self.old.steps self.old.done }
        ensures same_reference { self.new.held.ghost_name ≡ self.old.held.ghost_name }
        ensures steps { self.new.steps ≡ self.old.steps }
        ensures calls { NextOn (ends result) self.old.steps self.old.done
            (D.seen self.old.held.now.folder) (D.seen self.new.held.now.folder) }
        ensures moves { IfOk result (λ more. Moves more (length self.old.steps) self.old.done
            self.new.done) }
        ensures still { IfErr result (λ fault. self.new.done ≡ self.old.done) }
        ensures can { OnOk result (CanGoOn (D.seen self.new.held.now.folder) self.new.steps
            self.new.done) }
    {
        let more = do_next(self.held, self.steps.as_slice(), self.done)?;
        if more {
            self.done += 1;
        }
        Ok(more)
    }

    /// Settles the rows, removes the journal, and settles: then there is nothing to recover. No row is left before. After a fault the loan ends.
    pub fn finish(self) -> Result<Settled<'a, D>, Failed>
        requires none_left { length self.steps ≤ self.done }
        requires can { CanGoOn (D.seen self.held.now.folder) self.steps self.done }
        ensures* rests { sem 𝓛 (RestsIfErr (the_row D.row) self.entry.held
            (λ it. it.held.ghost_name) result
            (λ n. Calls (ends result) Finishes (D.seen self.entry.held.now.folder)
            (D.seen n.folder))) }
        ensures same_reference { HoldsLoan result (λ it. it.held) self.entry.held }
        ensures calls { IfOk result (λ it. Calls Done Finishes (D.seen self.entry.held.now.folder)
            (D.seen it.held.now.folder)) }
        ensures rested { IfOk result (λ it. IsAtRest (D.seen it.held.now.folder)) }
    {
        let Committed { held, steps, done } = self;
        let finished = finish_steps(held, steps.as_slice(), done);
        drop(steps);
        match finished {
            Ok(()) => Ok(Settled { held }),
            Err(fault) => Err(fault),
        }
    }

    /// Stops; the folder is as it was. Rows that are not done are left to a recovery.
    pub fn stop(self) -> Stopped<'a, D>
        ensures same_reference { result.held.ghost_name ≡ self.entry.held.ghost_name }
        ensures same { result.held.now ≡ self.entry.held.now }
    {
        let Committed {
            held,
            steps,
            done: _,
        } = self;
        drop(steps);
        Stopped { held }
    }
}

impl<'a, D: Folder> Stopped<'a, D> {
    /// Ends the loan.
    pub fn leave(self)
        ensures { self.exit.0.now ≡ self.entry.held.now }
    {
        let Stopped { held: _ } = self;
    }
}
