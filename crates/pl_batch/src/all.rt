//! What a run that prelinks everything makes of the files of a folder.
ghost use Rattle.std.specs.Prelude.{◌≡◌, ◌∷◌, ◌++◌, All, IfOk, Ok, map, string_bytes, true};
ghost use Rattle.std.specs.FinMap.{keys};
ghost use Rattle.pl_base.specs.Names.{IsNameLength};
ghost use Rattle.pl_journal.specs.Meaning.{rows_for};
ghost use Rattle.pl_journal.specs.Spelling.{are_rows};
ghost use Rattle.pl_journal.specs.declared.change.Change.TheVariants.{Put};
ghost use Rattle.pl_change.specs.Answers.{Finds, BatchMeansAlone};
ghost use Rattle.pl_change.specs.Folder as reading;
ghost use Rattle.pl_rewrite.specs.Taken.{AreTaken, files_in, names_of};
ghost use Rattle.pl_batch.specs.All as spec;
ghost use Rattle.pl_batch.specs.Changes.{changes_of};
ghost use Rattle.pl_batch.specs.declared.run.Run.TheVariants as runs;

use crate::Prelinking;
use crate::reading::{are_large, take_valid};
use pl_base::{Rows, Text};
use pl_cache::{Cache, is_cache, write_cache};
use pl_change::{BatchFault, CACHE, Cause, are_many, ascend, cache_file, cache_in, fitting, list};
use pl_folder::Folder;
use pl_journal::Change;
use pl_rewrite::{Asked, PlanningFault, Report, Rewritten, Taken, rewrite};
use std::alloc::{AllocError, Global};

/// What a run that prelinks everything makes.
#[derive(Drop)]
pub(crate) struct AllMade {
    /// The rows of the journal.
    pub(crate) rows: Rows<Change>,

    /// What became of each name.
    pub(crate) report: Report,
}

/// The row that gives the cache its bytes.
fn cache_row(alloc: Global, bytes: Vec<u8>) -> Result<Change, AllocError>
    ensures { IfOk result (λ row. row ≡ Put reading.cache bytes.items) }
{
    Ok(Change::Put {
        name: Text::copy_of(alloc, CACHE)?,
        bytes: Rows::from_vec(bytes),
    })
}

/// A row before others.
fn in_front(row: Change, rows: Rows<Change>) -> Result<Rows<Change>, AllocError>
    ensures { IfOk result (λ all. all ≡ row ∷ rows) }
{
    let mut all = rows.into_vec();
    all.insert(0, row)?;
    Ok(Rows::from_vec(all))
}

/// The row of the cache before the others, where its bytes would change.
fn put_cache(
    alloc: Global,
    old: &[u8],
    new: Vec<u8>,
    rows: Rows<Change>,
) -> Result<Rows<Change>, AllocError>
    ensures { IfOk result (λ all. all ≡ spec.put_cache old.now new.items ++ rows) }
{
    if old == new.as_slice() {
        return Ok(rows);
    }
    in_front(cache_row(alloc, new)?, rows)
}

/// The rows with that of the cache, where it has a spelling.
#[tactic(auto, unfolding(crate::specs::All::spelled))]
fn spelled(alloc: Global, old: &[u8], rewritten: Rewritten) -> Result<AllMade, BatchFault>
    ensures { BatchMeansAlone (spec.spelled old.now rewritten) result }
{
    let Rewritten {
        rows,
        cache,
        report,
    } = rewritten;
    if !is_cache(&cache) {
        return Err(BatchFault::Cause(Cause::BadCache));
    }
    let new = write_cache(alloc, &cache)?;
    let rows = put_cache(alloc, old, new, rows)?;
    Ok(AllMade { rows, report })
}

/// Why a run that has no plan is not done.
fn unplanned(fault: PlanningFault) -> BatchFault
    ensures { result ≡ spec.of_plan fault }
{
    match fault {
        PlanningFault::NoSlot { name, span, hole } => {
            BatchFault::Cause(Cause::NoSlot { name, span, hole })
        }
        PlanningFault::StampsSpent(stamp) => BatchFault::Cause(Cause::StampsSpent(stamp)),
        PlanningFault::NoMemory => BatchFault::NoMemory,
    }
}

/// What a run makes of files that were taken, by the bytes of the cache and what they say.
fn made_of(
    alloc: Global,
    files: Rows<Taken>,
    asked: &Prelinking,
    old: &[u8],
    cache: &Cache,
) -> Result<AllMade, BatchFault>
    requires { AreTaken asked.now.region files }
    ensures { BatchMeansAlone (spec.made_of (files_in files) (names_of files)
        asked.now old.now cache.now) result }
{
    let run = Asked {
        rows: cache.rows.as_slice(),
        last: cache.last,
        region: asked.region,
        share: asked.share,
        moment: asked.moment,
    };
    match rewrite(alloc, files, &run) {
        Ok(rewritten) => spelled(alloc, old, rewritten),
        Err(fault) => Err(unplanned(fault)),
    }
}

/// What a run makes of the files of a folder with these names, ascending.
fn made_of_folder<D: Folder>(
    alloc: Global,
    folder: &mut D,
    names: &[String],
    asked: &Prelinking,
) -> Result<AllMade, BatchFault>
    requires lengths { All (λ name. IsNameLength (string_bytes name)) names.now }
    requires ascend { reading.ascend (map string_bytes names.now) ≡ true }
    requires listed { (D.seen folder.old).tells ≡ true
        → map string_bytes names.now ≡ keys (D.seen folder.old).files }
    ensures { Finds (spec.made_of_folder (D.seen folder.old).files asked.now) (λ made. made) result
        (D.seen folder.old) (D.seen folder.new) }
{
    let old = cache_file(alloc, folder)?;
    let cache = cache_in(alloc, &old)?;
    let files = take_valid(alloc, folder, names, asked.region)?;
    if are_large(files.as_slice()) {
        return Err(BatchFault::Cause(Cause::FolderTooLarge));
    }
    made_of(alloc, files, asked, &old, &cache)
}

/// What a run makes of the files of a folder, or its first cause. A folder that lists each name once, ascending, gives names that ascend.
fn all_made<D: Folder>(
    alloc: Global,
    folder: &mut D,
    asked: &Prelinking,
) -> Result<AllMade, BatchFault>
    ensures { Finds (spec.all_made (D.seen folder.old).files asked.now) (λ made. made) result
        (D.seen folder.old) (D.seen folder.new) }
{
    let names = list(alloc, folder)?;
    if are_many(&names) {
        return Err(BatchFault::Cause(Cause::TooManyFiles));
    }
    if !ascend(&names) {
        return Err(BatchFault::Cause(Cause::TooManyFiles));
    }
    made_of_folder(alloc, folder, &names, asked)
}

/// The rows of a run, or its first cause.
pub(crate) fn all_changes<D: Folder>(
    alloc: Global,
    folder: &mut D,
    asked: &Prelinking,
) -> Result<Rows<Change>, BatchFault>
    ensures { Finds (spec.all_changes (D.seen folder.old).files asked.now) (λ rows. rows) result
        (D.seen folder.old) (D.seen folder.new) }
{
    let made = all_made(alloc, folder, asked)?;
    Ok(made.rows)
}

/// What a run makes, where a journal can have its rows.
pub(crate) fn all_fitting<D: Folder>(
    alloc: Global,
    folder: &mut D,
    asked: &Prelinking,
) -> Result<AllMade, BatchFault>
    ensures found { Finds (changes_of (D.seen folder.old).files (runs.All asked.now))
        (λ made. made.rows) result
        (D.seen folder.old) (D.seen folder.new) }
    ensures fits { IfOk result (λ made. are_rows (rows_for made.rows) ≡ true) }
    ensures report { IfOk result (λ made. (D.seen folder.old).tells ≡ true
        → spec.all_reported (D.seen folder.old).files asked.now ≡ Ok made.report) }
{
    let made = all_made(alloc, folder, asked)?;
    let rows = fitting(made.rows)?;
    Ok(AllMade {
        rows,
        report: made.report,
    })
}

/// What a run that prelinks everything would report of the files of a folder as they stand, one row for each valid name, ascending; it only reads. The first cause counts: TooManyFiles, BadCache, FileTooLarge in the order of the names, FolderTooLarge, NoSlot, StampsSpent.
///
/// A journal of the folder is not looked at, and the folder is not recovered. `DiskFailed` comes only where the folder failed.
pub fn preview_all<D: Folder>(
    alloc: Global,
    folder: &mut D,
    asked: &Prelinking,
) -> Result<Report, BatchFault>
    ensures { Finds (spec.all_reported (D.seen folder.old).files asked.now)
        (λ report. report) result
        (D.seen folder.old) (D.seen folder.new) }
{
    let made = all_made(alloc, folder, asked)?;
    Ok(made.report)
}
