// The prelinked file of a program.
ghost use Rattle.std.specs.Prelude.{IfOk};
ghost use Rattle.pl_rewrite.specs.Rows as spec;
ghost use Rattle.pl_rewrite.specs.Contents as contents;
ghost use Rattle.pl_rewrite.specs.Fills.{AreFirstFills};

use crate::apart::are_set;
use crate::conflict::{RemainingRows, own_meanings, remaining_rows};
use crate::copies::program_fills;
use crate::library::{digest_at, list_of};
use crate::numbers::{Numbered, PlacedWalk};
use crate::outcomes::NewProgram;
use crate::row_words::RowWords;
use pl_cone::{WalkLinking, modules_of};
use pl_form::{Fill, FormFault, Version, form_program_with};
use pl_io::NoMemory;
use pl_lists::ConflictRow;
use pl_tls::{Module, TlsFault};
use pl_value::OrdinaryFault;
use std::alloc::Global;

/// What the files of programs are made of: the files with their numbers, and what their relocations find and hold, by rows.
#[derive(Clone, Copy)]
pub struct Work<'t> {
    pub numbered: &'t Numbered<'t>,
    pub row_words: &'t [RowWords],
}

#[derive(Drop)]
struct Contents {
    fills: Vec<Fill>,
    rows: Vec<ConflictRow>,
}

/// What stands at the places of the program of a row, whose walk is linked, and its conflict rows; or the first relocation without a value.
fn contents_of(
    alloc: Global,
    work: &Work<'_>,
    row: usize,
    linking: &WalkLinking<'_, '_>,
) -> Result<Contents, OrdinaryFault>
    requires program { contents.IsSetProgram work.now row }
    requires linking { contents.IsLinkingOfRow work.now row linking.now }
    ensures { contents.IsContents work.now row linking.now result }
{
    let walk = work.numbered.walk(row);
    let meanings = own_meanings(alloc, linking, work.row_words[row].found.as_slice())?;
    let own = meanings.as_slice();
    let made = remaining_rows(alloc, linking, walk, work.row_words, own)?;
    let RemainingRows { rows, near } = made;
    let relocs = linking.scope.object(0).relocations.as_slice();
    let fills = program_fills(alloc, work.numbered, walk, &near, relocs, own)?;
    Ok(Contents { fills, rows })
}

/// The form of the program of a row with these contents, with no room behind it, since the new files of programs are kept until all are made; None where it is longer than a folder stores.
fn form_of(
    alloc: Global,
    work: &Work<'_>,
    row: usize,
    version: Version,
    made: Contents,
) -> Result<Option<NewProgram>, NoMemory>
    requires program { contents.IsSetProgram work.now row }
    requires fills { AreFirstFills (spec.firms_of work.now.numbered.now row) made.fills.items }
    ensures { IfOk result (contents.IsProgramForm work.now row version made) }
{
    let numbered = work.numbered;
    let files = numbered.files;
    let taken = &files[row];
    let Some(object) = taken.object() else {
        return Ok(None);
    };
    let list = list_of(alloc, numbered, row)?;
    let digest = digest_at(numbered, row);
    let original = taken.original();
    let listed = list.as_slice();
    let fills = made.fills;
    let rows = made.rows.as_slice();
    match form_program_with(
        alloc, original, object, listed, fills, rows, version, &digest,
    ) {
        Ok(mut file) => {
            file.shrink_to_fit();
            Ok(Some(NewProgram {
                file,
                conflicts: rows.len() as u64,
            }))
        }
        Err(FormFault::TooLarge) => Ok(None),
        Err(_) => Err(NoMemory),
    }
}

fn file_with(
    alloc: Global,
    work: &Work<'_>,
    row: usize,
    version: Version,
    placed: &PlacedWalk<'_>,
    modules: &[Module],
) -> Result<Option<NewProgram>, NoMemory>
    requires program { contents.IsSetProgram work.now row }
    requires placed { spec.IsPlacedWalk work.now.numbered.now row placed.now }
    ensures { IfOk result (contents.IsProgramWith work.now row version modules.now) }
{
    let among = placed.walk.among(work.numbered.index);
    let linking = WalkLinking {
        scope: &placed.walk.scope,
        places: &placed.places,
        modules: &*modules,
        among,
    };
    match contents_of(alloc, work, row, &linking) {
        Ok(made) => form_of(alloc, work, row, version, made),
        Err(OrdinaryFault::Link(_)) => Ok(None),
        Err(OrdinaryFault::NoMemory) => Err(NoMemory),
    }
}

/// The prelinked file of the program of a row that may be prelinked, in a version, and how many conflict rows it has; None where the members of its walk cannot be prelinked together, thread-local storage is too large, a relocation has no value, or the file is longer than a folder stores. Each own relocation has been looked up; each remaining one of a library, and each whose place is near what the program copies, is looked up again here, where its value is needed, since what they find is not kept. What is held is told of all libraries of the walk.
pub fn program_file(
    alloc: Global,
    work: &Work<'_>,
    row: usize,
    version: Version,
) -> Result<Option<NewProgram>, NoMemory>
    requires work { contents.IsWork work.now }
    requires program { contents.IsProgramRow work.now row }
    ensures { IfOk result (contents.IsNewProgram work.now.numbered.now row version) }
{
    let set = are_set(alloc, work.numbered, row)?;
    if !set {
        return Ok(None);
    }
    let placed = work.numbered.placed(alloc, row)?;
    match modules_of(alloc, &placed.walk.scope) {
        Ok(modules) => file_with(alloc, work, row, version, &placed, modules.as_slice()),
        Err(TlsFault::TooLarge) => Ok(None),
        Err(TlsFault::NoMemory) => Err(NoMemory),
    }
}
