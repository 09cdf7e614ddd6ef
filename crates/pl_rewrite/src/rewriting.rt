// A whole run that prelinks everything: what is made of files by their outcomes, each of which is let go in its turn.
ghost use Rattle.std.specs.Prelude.{◌≡◌, IfOk, OnOk, Some, if◌then◌else◌};
ghost use Rattle.std.specs.List.{All};
ghost use Rattle.pl_base.specs.Answers.{Answers};
ghost use Rattle.pl_cone.specs.Faulted.{is_memory};
ghost use Rattle.pl_cone.specs.Taken.{AreTaken, HasItsEntry, files_in, names_of};
ghost use Rattle.pl_rewrite.specs.Changes as changes;
ghost use Rattle.pl_rewrite.specs.Outcomes as told;
ghost use Rattle.pl_rewrite.specs.Rewriting as spec;

use crate::library::storable_library;
use crate::outcomes::{NewLibrary, NewProgram, RowOutcome, outcomes, too_large};
use pl_base::{Rows, Text};
use pl_cache::Cache;
use pl_cone::{Asked, PlanningFault, RowPlan, RunTable, Skip, Taken, plan_of};
use pl_form::Version;
use pl_io::NoMemory;
use pl_journal::Change;
use std::alloc::{AllocError, Global};

/// What a run that prelinks everything makes of each name, in their order.
#[derive(Drop)]
pub struct Report {
    pub rows: Rows<ReportRow>,
}

/// What it makes of one name.
#[derive(Drop)]
pub struct ReportRow {
    pub name: Text,
    pub state: RowState,
}

/// The state of a name after the run.
#[derive(Drop)]
pub enum RowState {
    /// A prelinked library with its slot and its stamp; `current` where it stays as it was.
    Library {
        current: bool,
        slot: u64,
        stamp: u32,
    },

    /// A prelinked program with the number of its conflict rows; `current` where it stays as it was.
    Program {
        current: bool,
        conflicts: u64,
    },

    /// Not prelinked, and the first cause why. `NoMemory` does not come here.
    Skipped(Skip),
}

/// What a run changes, what it leaves in the cache, and what it reports.
#[derive(Drop)]
pub struct Rewritten {
    /// The rows of the journal, in the order of the files.
    pub rows: Rows<Change>,

    /// The slots, and the last stamp that was given.
    pub cache: Cache,

    /// What became of each name, in the order of the files.
    pub report: Report,
}

/// What a run makes of one file.
#[derive(Drop)]
pub struct Made {
    /// Its row in the journal; None where its bytes would not change.
    pub change: Option<Change>,
    pub state: RowState,

    /// Whether it gets the stamp of the run.
    pub given: bool,
}

/// What a run makes of all files.
#[derive(Drop)]
pub struct MadeFiles {
    pub rows: Rows<Change>,
    pub states: Rows<ReportRow>,

    /// Whether a file gets the stamp of the run.
    pub given: bool,
}

/// The row that gives a file other bytes than its own; None where they are the same.
fn put(alloc: Global, taken: &Taken, bytes: Vec<u8>) -> Result<Option<Change>, AllocError>
    ensures { IfOk result (λ row. row
        ≡ changes.put (Some taken.now.bytes) taken.now.name (Some bytes.items)) }
{
    if taken.bytes.as_slice() == bytes.as_slice() {
        return Ok(None);
    }
    Ok(Some(Change::Put {
        name: Text::copy_of(alloc, taken.name.as_str())?,
        bytes: Rows::from_vec(bytes),
    }))
}

fn put_original(alloc: Global, taken: &Taken) -> Result<Option<Change>, AllocError>
    requires { HasItsEntry taken.now }
    ensures { IfOk result (λ row. row ≡ told.put_original taken.now) }
{
    let Some(marked) = taken.marked() else {
        return Ok(None);
    };
    let original = Vec::from_slice(alloc, marked.original.as_slice())?;
    put(alloc, taken, original)
}

/// A file that gets its original, for a cause. Any file but a prelinked one is its own.
fn made_original(alloc: Global, taken: &Taken, cause: Skip) -> Result<Made, AllocError>
    requires { HasItsEntry taken.now }
    ensures { IfOk result (λ made. made ≡ told.made_original taken.now cause) }
{
    match put_original(alloc, taken) {
        Ok(change) => Ok(Made {
            change,
            state: RowState::Skipped(cause),
            given: false,
        }),
        Err(fault) => {
            drop(cause);
            Err(fault)
        }
    }
}

/// A library that is prelinked anew; one whose file would be too large gets its original.
fn made_library(alloc: Global, taken: &Taken, parts: &NewLibrary) -> Result<Made, NoMemory>
    requires read { HasItsEntry taken.now }
    requires form { told.HasLibraryForm taken.now parts.now }
    ensures { IfOk result (λ made. made ≡ told.made_library taken.now parts.now) }
{
    match storable_library(alloc, taken, parts, Version::Two)? {
        None => Ok(made_original(alloc, taken, too_large(alloc, taken)?)?),
        Some(file) => Ok(Made {
            change: put(alloc, taken, file)?,
            state: RowState::Library {
                current: false,
                slot: parts.slot,
                stamp: parts.stamp,
            },
            given: true,
        }),
    }
}

fn made_last(alloc: Global, taken: &Taken, outcome: RowOutcome) -> Result<Made, NoMemory>
    requires read { HasItsEntry taken.now }
    requires may { told.MayBe taken.now outcome }
    ensures { IfOk result (λ made. made ≡ told.made_by taken.now outcome) }
{
    match outcome {
        RowOutcome::Unchanged(state) => Ok(Made {
            change: None,
            state,
            given: false,
        }),
        RowOutcome::Original(cause) => Ok(made_original(alloc, taken, cause)?),
        RowOutcome::Program(NewProgram { file, conflicts }) => Ok(Made {
            change: put(alloc, taken, file)?,
            state: RowState::Program {
                current: false,
                conflicts,
            },
            given: true,
        }),
        RowOutcome::Library(parts) => made_library(alloc, taken, &parts),
    }
}

fn name_of(taken: Taken) -> Text
    ensures { result ≡ taken.name }
{
    let Taken { name, entry, .. } = taken;
    drop(entry);
    name
}

fn add_made(all: &mut MadeFiles, name: Text, made: Made) -> Result<(), AllocError>
    ensures { OnOk result (all.new ≡ told.with_made all.old name made) }
{
    let Made {
        change,
        state,
        given,
    } = made;
    all.states.push(ReportRow { name, state })?;
    all.rows.push_some(change)?;
    all.given = all.given || given;
    Ok(())
}

fn all_made(
    alloc: Global,
    files: Rows<Taken>,
    outcomes: Vec<RowOutcome>,
) -> Result<MadeFiles, NoMemory>
    requires read { All HasItsEntry files }
    requires may { told.MayBeAll files outcomes.items }
    ensures { IfOk result (λ all. all ≡ told.all_made files outcomes.items) }
{
    let mut outcomes = outcomes.into_iter();
    let mut all = MadeFiles {
        rows: Rows::new(alloc),
        states: Rows::new(alloc),
        given: false,
    };
    let items = files.into_vec();
    for taken in items {
        if let Some(outcome) = outcomes.next() {
            let made = made_last(alloc, &taken, outcome);
            let name = name_of(taken);
            add_made(&mut all, name, made?)?;
        } else {
            drop(taken);
        }
    }
    Ok(all)
}

fn last_of(asked: &Asked<'_>, plan: &RowPlan, made: &MadeFiles) -> u32
    ensures { result ≡ (if made.now.given then plan.now.stamp else asked.now.last) }
{
    if made.given { plan.stamp } else { asked.last }
}

/// What a run makes of its files by their outcomes, with the cache that it leaves. Each file is let go once its new one is there. It fails only for want of memory.
pub fn finish(
    alloc: Global,
    files: Rows<Taken>,
    asked: &Asked<'_>,
    plan: RowPlan,
    outcomes: Vec<RowOutcome>,
) -> Result<Rewritten, NoMemory>
    requires { spec.AreDecided files asked.now plan outcomes.items }
    ensures { IfOk result (λ all. all ≡ spec.rewritten (files_in files) (names_of files) asked.now
        (told.planned_of files asked.now plan)) }
{
    let made = all_made(alloc, files, outcomes)?;
    let last = last_of(asked, &plan, &made);
    Ok(Rewritten {
        rows: made.rows,
        cache: Cache {
            last,
            rows: plan.slots,
        },
        report: Report { rows: made.states },
    })
}

/// What a run that prelinks everything makes of the files of a folder, ascending by name; the first cause why it has no plan is NoSlot, then StampsSpent.
///
/// - A current name stays, and has no row. Each other name that may be prelinked is: at the planned slots, with the old stamps of current libraries and the run's stamp for the others, in version 2. Any other name gets its original, and so does one whose form would be too large. A file whose bytes would not change has no row.
/// - The cache has the planned slots; its stamp is the run's where a name got it, and else stays.
/// - The report has a row for each name.
///
/// `take_file` of pl_cone gave the files under the region that is asked for, and no name stands twice. The rows of the cache have no limit here. The files are taken over. Once everything is decided the table of the run is let go, the files of libraries are made, and each file is let go once its new one is there.
#[tactic(auto, unfolding(crate::specs::Rewriting::rewrite))]
pub fn rewrite(
    alloc: Global,
    files: Rows<Taken>,
    asked: &Asked<'_>,
) -> Result<Rewritten, PlanningFault>
    requires { AreTaken asked.now.region files }
    ensures { Answers is_memory result (spec.rewrite (files_in files) (names_of files) asked.now) }
{
    let table = RunTable::of(alloc, files.as_slice())?;
    let plan = plan_of(alloc, &table, asked)?;
    let outcomes = outcomes(alloc, table, &plan)?;
    Ok(finish(alloc, files, asked, plan, outcomes)?)
}
