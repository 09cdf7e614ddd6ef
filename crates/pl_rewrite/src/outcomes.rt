// What a run makes of each file.
ghost use Rattle.std.specs.Prelude.{◌≡◌, ◌<◌, IfOk, None, length};
ghost use Rattle.pl_rewrite.specs.Outcomes as spec;
ghost use Rattle.pl_rewrite.specs.Rows as rows;
ghost use Rattle.pl_rewrite.specs.RowWords as by_rows;

use crate::RowState;
use crate::library::{digests_of, new_library};
use crate::numbers::Numbered;
use crate::own_words::OwnWords;
use crate::program::{Work, program_file};
use crate::row_words::{Needed, RowWords, flag_all, words_of_rows};
use pl_base::{Rows, Text};
use pl_cone::{Link, RowPlan, RunTable, Skip, Taken};
use pl_form::{Marked, Version};
use pl_io::NoMemory;
use pl_lists::ListRow;
use std::alloc::{AllocError, Global};

/// The prelinked file of a program.
#[derive(Drop)]
pub struct NewProgram {
    pub file: Vec<u8>,

    /// How many conflict rows it has.
    pub conflicts: u64,
}

/// What the prelinked file of a library is made of, beside its original.
#[derive(Drop)]
pub struct NewLibrary {
    pub slot: u64,
    pub stamp: u32,

    pub digest: [u8; 32],
    pub list: Rows<ListRow>,

    /// The own word of each of its relocations, in their order; none where the file keeps what its linker wrote.
    pub words: OwnWords,
}

/// What a run makes of a file.
#[derive(Drop)]
pub enum RowOutcome {
    /// It stays, and this is reported of it.
    Unchanged(RowState),

    /// It gets its original, for a cause.
    Original(Skip),

    /// It is a program that is prelinked anew.
    Program(NewProgram),

    /// It is a library that is prelinked anew.
    Library(NewLibrary),
}

/// That the form of a file is too large.
pub fn too_large(alloc: Global, taken: &Taken) -> Result<Skip, AllocError>
    ensures { IfOk result (λ skip. skip ≡ spec.too_large taken.now) }
{
    Ok(Skip::Form {
        name: Text::copy_of(alloc, taken.name.as_str())?,
        number: 6,
    })
}

fn current_state(marked: &Marked) -> RowState
    ensures { result ≡ spec.current_state marked.now }
{
    if marked.object.kind.is_library() {
        return RowState::Library {
            current: true,
            slot: marked.slot,
            stamp: marked.stamp,
        };
    }
    RowState::Program {
        current: true,
        conflicts: marked.conflicts.len() as u64,
    }
}

/// What a run makes of a file that stays; one that is not prelinked gets its original, as its form is too large.
fn stays(alloc: Global, taken: &Taken) -> Result<RowOutcome, AllocError>
    ensures { IfOk result (spec.KeepsFile taken.now None) }
{
    match taken.marked() {
        Some(marked) => Ok(RowOutcome::Unchanged(current_state(marked))),
        None => Ok(RowOutcome::Original(too_large(alloc, taken)?)),
    }
}

/// What is made of a file: what was made of it; else it gets its original for a cause, or stays.
fn outcome_for(
    alloc: Global,
    taken: &Taken,
    cause: Option<Skip>,
    made: Option<RowOutcome>,
) -> Result<RowOutcome, AllocError>
    ensures { IfOk result (spec.IsOutcomeFor taken.now cause made) }
{
    match made {
        Some(outcome) => {
            drop(cause);
            Ok(outcome)
        }
        None => match cause {
            Some(cause) => Ok(RowOutcome::Original(cause)),
            None => stays(alloc, taken),
        },
    }
}

fn is_stale_program(numbered: &Numbered<'_>, stale: &[bool], row: usize) -> bool
    requires row { row < length numbered.now.files.now }
    requires one_each { length stale.now ≡ length numbered.now.files.now }
    ensures { result ≡ spec.is_stale_program numbered.now stale.now row }
{
    stale[row] && !numbered.files[row].is_library()
}

fn is_stale_library(numbered: &Numbered<'_>, stale: &[bool], row: usize) -> bool
    requires row { row < length numbered.now.files.now }
    requires one_each { length stale.now ≡ length numbered.now.files.now }
    ensures { result ≡ spec.is_stale_library numbered.now stale.now row }
{
    stale[row] && numbered.files[row].is_library()
}

/// A flag for each row, set where the walk of a stale program holds it.
pub fn held_by_programs(
    alloc: Global,
    numbered: &Numbered<'_>,
    stale: &[bool],
) -> Result<Vec<bool>, AllocError>
    requires numbered { rows.IsNumbered numbered.now }
    requires one_each { length stale.now ≡ length numbered.now.files.now }
    ensures { IfOk result (λ v. spec.AreHeldFlags numbered.now stale.now v.items) }
{
    let count = numbered.files.len();
    let mut held = Vec::from_elem(alloc, false, count)?;
    for row in 0..count {
        if is_stale_program(numbered, stale, row) {
            flag_all(&mut held, numbered.walk(row));
        }
    }
    Ok(held)
}

fn program_if(
    alloc: Global,
    work: &Work<'_>,
    stale: &[bool],
    row: usize,
) -> Result<Option<RowOutcome>, NoMemory>
    requires programs { spec.CanMakePrograms work.now stale.now }
    requires row { row < length work.now.numbered.now.files.now }
    ensures { IfOk result (spec.IsProgramIf work.now.numbered.now stale.now row) }
{
    if !is_stale_program(work.numbered, stale, row) {
        return Ok(None);
    }
    let made = program_file(alloc, work, row, Version::Two)?;
    match made {
        Some(program) => Ok(Some(RowOutcome::Program(program))),
        None => Ok(Some(RowOutcome::Original(too_large(alloc, &work.numbered.files[row])?))),
    }
}

fn program_outcomes(
    alloc: Global,
    work: &Work<'_>,
    stale: &[bool],
) -> Result<Vec<Option<RowOutcome>>, NoMemory>
    requires { spec.CanMakePrograms work.now stale.now }
    ensures { IfOk result (λ v. spec.AreProgramsMade work.now.numbered.now stale.now v.items) }
{
    let mut all = Vec::new(alloc);
    for row in 0..stale.len() {
        all.push(program_if(alloc, work, stale, row)?)?;
    }
    Ok(all)
}

fn programs_of(
    alloc: Global,
    numbered: &Numbered<'_>,
    stale: &[bool],
    row_words: &[RowWords],
) -> Result<Vec<Option<RowOutcome>>, NoMemory>
    requires run { spec.IsStaleRun numbered.now stale.now }
    requires row_words { spec.AreToldRows numbered.now stale.now row_words.now }
    ensures { IfOk result (λ v. spec.AreProgramsMade numbered.now stale.now v.items) }
{
    let work = Work {
        numbered: &*numbered,
        row_words: &*row_words,
    };
    program_outcomes(alloc, &work, stale)
}

fn library_if(
    alloc: Global,
    numbered: &Numbered<'_>,
    stale: &[bool],
    row: usize,
    words: OwnWords,
) -> Result<Option<RowOutcome>, NoMemory>
    requires run { spec.IsStaleRun numbered.now stale.now }
    requires row { row < length numbered.now.files.now }
    requires words { spec.HasWordsIf numbered.now stale.now row words }
    ensures { IfOk result (spec.IsLibraryIf numbered.now stale.now row) }
{
    if !is_stale_library(numbered, stale, row) {
        return Ok(None);
    }
    let made = new_library(alloc, numbered, row, words)?;
    match made {
        Some(library) => Ok(Some(RowOutcome::Library(library))),
        None => Ok(Some(RowOutcome::Original(too_large(alloc, &numbered.files[row])?))),
    }
}

/// What a run makes of the stale libraries, by their rows, and of the stale programs, which is handed in; None of every other row.
fn with_libraries(
    alloc: Global,
    numbered: &Numbered<'_>,
    stale: &[bool],
    row_words: Vec<RowWords>,
    programs: Vec<Option<RowOutcome>>,
) -> Result<Vec<Option<RowOutcome>>, NoMemory>
    requires run { spec.IsStaleRun numbered.now stale.now }
    requires row_words { spec.HaveWords numbered.now stale.now row_words.items }
    requires programs { spec.AreProgramsMade numbered.now stale.now programs.items }
    ensures { IfOk result (λ v. spec.AreMade numbered.now stale.now v.items) }
{
    let mut programs = programs.into_iter();
    let mut all = Vec::new(alloc);
    for one in row_words {
        let library = library_if(alloc, numbered, stale, all.len(), one.words)?;
        let program = programs.next().flatten();
        all.push(library.or(program))?;
    }
    Ok(all)
}

fn made_of(
    alloc: Global,
    numbered: &Numbered<'_>,
    links: Rows<Link>,
    stale: &[bool],
) -> Result<Vec<Option<RowOutcome>>, NoMemory>
    requires run { spec.IsStaleRun numbered.now stale.now }
    requires links { by_rows.AreLinks numbered.now (spec.is_used numbered.now stale.now) links }
    ensures { IfOk result (λ v. spec.AreMade numbered.now stale.now v.items) }
{
    let held = held_by_programs(alloc, numbered, stale)?;
    let needed = Needed {
        made: &*stale,
        held: held.as_slice(),
    };
    let row_words = words_of_rows(alloc, numbered, links, &needed)?;
    let programs = programs_of(alloc, numbered, stale, row_words.as_slice())?;
    with_libraries(alloc, numbered, stale, row_words, programs)
}

fn all_outcomes(
    alloc: Global,
    files: &[Taken],
    causes: Rows<Option<Skip>>,
    made: Vec<Option<RowOutcome>>,
) -> Result<Vec<RowOutcome>, NoMemory>
    requires made { length made.items ≡ length files.now }
    requires causes { length causes ≡ length files.now }
    ensures { IfOk result (λ v. spec.AreAll files.now causes made.items v.items) }
{
    let mut made = made.into_iter();
    let mut all = Vec::new(alloc);
    for cause in causes.into_vec() {
        let row = all.len();
        let one = made.next().flatten();
        all.push(outcome_for(alloc, &files[row], cause, one)?)?;
    }
    Ok(all)
}

/// What a run makes of each file, in their order: a name that is not stale stays or gets its original, for its cause; a stale program's file is made now, by the words that the files of its libraries hold; of a stale library what its file is made of is found, and the file is made last. It fails only for want of memory.
pub fn outcomes(
    alloc: Global,
    table: RunTable<'_>,
    plan: &RowPlan,
) -> Result<Vec<RowOutcome>, NoMemory>
    requires { spec.IsPlannedTable table plan.now }
    ensures { IfOk result (λ v. spec.AreOutcomes table.entry plan.now v.items) }
{
    let stale = plan.stale.as_slice();
    let digests = digests_of(alloc, table.files, stale)?;
    let RunTable {
        files,
        walks,
        index,
        links,
        causes,
    } = table;
    let numbered = Numbered {
        files,
        walks: walks.as_slice(),
        index: &index,
        places: plan.places.as_slice(),
        stamps: plan.stamps.as_slice(),
        digests: digests.as_slice(),
    };
    let made = made_of(alloc, &numbered, links, stale);
    drop(index);
    all_outcomes(alloc, files, causes, made?)
}
