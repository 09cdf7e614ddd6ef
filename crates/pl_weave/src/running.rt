//! Runs whose rows are done one at a time.
ghost use Rattle.std.specs.Prelude.{◌≡◌, ◌+◌, ◌<◌, ◌≤◌, ◌++◌, ◌∷◌, [], List, Ok, true, length, map, nat_lt, IfOk, OnOk, if◌then◌else◌};
ghost use Rattle.std.specs.FinMap.{get};
ghost use Rattle.pl_base.specs.Files.{Files};
ghost use Rattle.pl_batch.specs.Changes.{IsRun};
ghost use Rattle.pl_folder.specs.InMemory.{quiet_files};
ghost use Rattle.pl_journal.specs.Meaning.{HasNoOwn, rows_for};
ghost use Rattle.pl_journal.specs.Parts.{ReadsDone};
ghost use Rattle.pl_journal.specs.Spelling.{are_rows};
ghost use Rattle.pl_journal.specs.declared.change.Change as changes;
ghost use Rattle.pl_weave.specs.Running as spec;
ghost use Rattle.pl_weave.specs.Running.{files_in};
ghost use Rattle.pl_weave.specs.Runs as runs;
ghost use Rattle.pl_weave.specs.declared.progress.Progress.TheVariants as progresses;

use crate::Progress;
use crate::quiet::{begin_rows, do_row, end_rows, rows_of};
use pl_base::Rows;
use pl_batch::Run;
use pl_folder::QuietFolder;
use pl_io::NoMemory;
use pl_journal::{Change, Step};
use pl_stage::Held;
use std::alloc::Global;

/// A folder in memory in which runs go on: what came of those that have finished; what does the rows of the run under way, and how many of them are done; and the runs that wait. Where no row is left no run is under way.
#[derive(Drop)]
pub(crate) struct Running<'r> {
    pub(crate) held: Held<QuietFolder>,
    pub(crate) finished: Rows<Progress>,
    pub(crate) steps: Rows<Step>,
    pub(crate) done: usize,
    pub(crate) waiting: &'r [Run],
}

impl<'r> Running<'r> {
    /// Runs in a folder that has no file under a name of the journal's own. The first of them that has rows begins.
    pub(crate) fn new(
        alloc: Global,
        folder: QuietFolder,
        waiting: &'r [Run],
    ) -> Result<Running<'r>, NoMemory>
        requires no_own { HasNoOwn (get (quiet_files folder)) }
        requires stored { spec.AreStored (quiet_files folder) }
        requires runs { spec.AreRuns waiting.now }
        ensures { IfOk result (λ m. spec.Stands m
            (runs.begun (quiet_files folder) [] waiting.now)) }
    {
        let mut running = Running {
            held: Held { folder },
            finished: Rows::new(alloc),
            steps: Rows::new(alloc),
            done: 0,
            waiting,
        };
        running.begin_next(alloc)?;
        Ok(running)
    }

    /// A run that has rows is under way.
    fn begin_with(&mut self, alloc: Global, rows: Rows<Change>) -> Result<(), NoMemory>
        requires fine { are_rows (rows_for rows) ≡ true }
        requires no_own { HasNoOwn (get (files_in self.old.held)) }
        ensures begins { OnOk result ((files : Files) → spec.Idles files self.old →
            runs.storable rows ≡ Ok rows → spec.Begins (Ok rows) files self.old self.new) }
        ensures waiting { OnOk result (self.new.waiting ≡ self.old.waiting) }
    {
        if rows.is_empty() {
            self.finished.push(Progress::Does { done: 0, rows: 0 })?;
            return Ok(());
        }
        self.steps = begin_rows(alloc, &mut self.held, rows.as_slice())?;
        Ok(())
    }

    /// A run begins; where it is refused or has no rows it has finished.
    fn begin(&mut self, alloc: Global, run: &Run) -> Result<(), NoMemory>
        requires is_run { IsRun run.now }
        requires no_own { HasNoOwn (get (files_in self.old.held)) }
        ensures begins { OnOk result ((files : Files) → spec.Idles files self.old →
            spec.Begins (runs.run_rows run.now files) files self.old self.new) }
        ensures waiting { OnOk result (self.new.waiting ≡ self.old.waiting) }
    {
        match rows_of(alloc, &mut self.held, run)? {
            Ok(rows) => self.begin_with(alloc, rows)?,
            Err(cause) => self.finished.push(Progress::Refused(cause))?,
        }
        Ok(())
    }

    /// The first run of those that wait that has rows begins; those before it have finished.
    fn begin_next(&mut self, alloc: Global) -> Result<(), NoMemory>
        requires { spec.Rests self.old }
        ensures { OnOk result ((files : Files) → spec.Idles files self.old →
            spec.Stands self.new (runs.begun files self.old.finished self.old.waiting.now)) }
    {
        let mut left = self.waiting;
        while let [run, rest @ ..] = left {
            left = rest;
            self.begin(alloc, run)?;
            if self.done < self.steps.len() {
                self.waiting = left;
                return Ok(());
            }
        }
        self.waiting = left;
        Ok(())
    }

    /// The run under way does its next row.
    fn do_row(&mut self)
        requires left { self.old.done < length self.old.steps }
        requires can { ReadsDone self.old.steps self.old.done (get (files_in self.old.held)) }
        ensures goes { (row : changes.Change) (rows : List changes.Change) (files : Files) →
            spec.IsUnderWay self.old.steps self.old.done (row ∷ rows) files
            (files_in self.old.held) →
            spec.IsUnderWay self.new.steps self.new.done rows (runs.with_row files row)
            (files_in self.new.held) }
        ensures done { self.new.done ≡ self.old.done + 1 }
        ensures steps { self.new.steps ≡ self.old.steps }
        ensures finished { self.new.finished ≡ self.old.finished }
        ensures waiting { self.new.waiting ≡ self.old.waiting }
    {
        do_row(&mut self.held, self.steps.as_slice(), self.done);
        self.done += 1;
    }

    /// The run under way has done all its rows, and has finished.
    fn end_run(&mut self, alloc: Global) -> Result<(), NoMemory>
        requires none_left { length self.old.steps ≤ self.old.done }
        requires can { ReadsDone self.old.steps self.old.done (get (files_in self.old.held)) }
        ensures idles { OnOk result ((files : Files) →
            spec.IsUnderWay self.old.steps self.old.done [] files (files_in self.old.held) →
            spec.Idles files self.new) }
        ensures finished { OnOk result (self.new.finished ≡
            self.old.finished ++ progresses.Does self.old.done self.old.done ∷ []) }
        ensures waiting { OnOk result (self.new.waiting ≡ self.old.waiting) }
    {
        self.finished.push(Progress::Does {
            done: self.done,
            rows: self.done,
        })?;
        end_rows(&mut self.held, self.steps.as_slice(), self.done);
        self.steps = Rows::new(alloc);
        self.done = 0;
        Ok(())
    }

    /// The run under way does its next row; with its last it has finished, and the next one begins. Without a run under way nothing is done.
    pub(crate) fn rename(&mut self, alloc: Global) -> Result<(), NoMemory>
        requires { spec.GoesOn self.old }
        ensures { OnOk result ((r : runs.Runs) → spec.Stands self.old r →
            spec.Stands self.new (runs.renamed r)) }
    {
        if self.done >= self.steps.len() {
            return Ok(());
        }
        self.do_row();
        if self.done < self.steps.len() {
            return Ok(());
        }
        self.end_run(alloc)?;
        self.begin_next(alloc)?;
        Ok(())
    }

    /// How far each run came, in their order.
    pub(crate) fn progress(self) -> Result<Rows<Progress>, NoMemory>
        requires { spec.GoesOn self }
        ensures { IfOk result (λ told. (r : runs.Runs) → spec.Stands self.entry r →
            told ≡ runs.progress r) }
    {
        let Running {
            held: _,
            finished,
            steps,
            done,
            waiting,
        } = self;
        let mut told = finished;
        tell_under_way(&mut told, steps.len(), done)?;
        tell_waiting(&mut told, waiting)?;
        Ok(told)
    }
}

/// How far a run of so many rows came, where it is under way.
fn tell_under_way(told: &mut Rows<Progress>, rows: usize, done: usize) -> Result<(), NoMemory>
    ensures { OnOk result (told.new ≡ told.old ++
        (if nat_lt done rows then progresses.Does done rows ∷ [] else [])) }
{
    if done < rows {
        told.push(Progress::Does { done, rows })?;
    }
    Ok(())
}

/// That each of these runs waits.
fn tell_waiting(told: &mut Rows<Progress>, waiting: &[Run]) -> Result<(), NoMemory>
    ensures { OnOk result (told.new ≡ told.old ++ map (λ run. progresses.Waits) waiting.now) }
{
    for _run in waiting {
        told.push(Progress::Waits)?;
    }
    Ok(())
}
