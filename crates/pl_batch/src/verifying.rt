//! Whether a file is the prelinked file of the originals that are there.
ghost use Rattle.std.specs.Prelude.{◌≡◌, true, Ok, IfErr, IfOk};
ghost use Rattle.std.specs.Option.{option_map};
ghost use Rattle.pl_base.specs.Names.{is_valid_name};
ghost use Rattle.pl_rewrite.specs.Taken.{AreTaken, IsTaken, files_in, names_of};
ghost use Rattle.pl_rewrite.specs.Verify as rewrite;
ghost use Rattle.pl_scope.specs.Walking.{wants};
ghost use Rattle.pl_change.specs.Answers.{Finds, BatchStopsAlone};
ghost use Rattle.pl_batch.specs.Verify as spec;

use crate::reading::take_one;
use pl_base::{Rows, Text, is_valid_name};
use pl_change::{BatchFault, Cause};
use pl_elf::Range;
use pl_folder::Folder;
use pl_form::{Entry, File};
use pl_io::NoMemory;
use pl_object::Object;
use pl_rewrite::{Taken, verified_original};
use pl_scope::Order;
use std::alloc::Global;

/// The file of a name that a walk wants, with what it is. A name that is not valid has none, and the folder is not asked for it.
fn take_wanted<D: Folder>(alloc: Global, folder: &mut D, name: &str) -> Result<Taken, BatchFault>
    ensures found { Finds (spec.wanted_file (D.seen folder.old).files name.now)
        (λ taken. taken.bytes) result
        (D.seen folder.old) (D.seen folder.new) }
    ensures name { IfOk result (λ taken. taken.name ≡ name.now) }
    ensures is { IfOk result (IsTaken spec.nowhere) }
{
    if !is_valid_name(name.as_bytes()) {
        return Err(BatchFault::Cause(Cause::NotThere(Text::copy_of(alloc, name)?)));
    }
    take_one(alloc, folder, name, Range { start: 0, end: 0 })
}

/// The object of a file's original, or why it has none.
fn object_of(alloc: Global, taken: &Taken) -> Result<&Object, BatchFault>
    ensures ok { IfOk result (λ object. spec.object_by taken.now.name taken.now.entry
        ≡ Ok object.now) }
    ensures err { IfErr result (BatchStopsAlone (spec.object_by taken.now.name taken.now.entry)) }
{
    match &taken.entry {
        Entry::There(File::Plain(object)) => Ok(object),
        Entry::There(File::Marked(marked)) => Ok(&marked.object),
        Entry::BadMark => Err(BatchFault::Cause(Cause::BadMark(Text::copy_of(
            alloc,
            taken.name.as_str(),
        )?))),
        Entry::Refused { number, argument } => Err(BatchFault::Cause(Cause::Refused {
            name: Text::copy_of(alloc, taken.name.as_str())?,
            number: *number,
            argument: *argument,
        })),
    }
}

/// The files of the walk of a valid name, taken one after the other as the walk wants them; or the first cause that came before.
fn take_walk<D: Folder>(
    alloc: Global,
    folder: &mut D,
    name: &str,
) -> Result<Rows<Taken>, BatchFault>
    ensures found { Finds (spec.walked_names (D.seen folder.old).files name.now) names_of result
        (D.seen folder.old) (D.seen folder.new) }
    ensures files { IfOk result (λ files. (D.seen folder.old).tells ≡ true →
        spec.AreIn (D.seen folder.old).files files) }
    ensures taken { IfOk result (AreTaken spec.nowhere) }
{
    let mut order = Order::new(alloc, name)?;
    let mut files = Rows::new(alloc);
    while let Some(wanted) = order.wants() {
        let taken = take_wanted(alloc, folder, wanted)?;
        let object = object_of(alloc, &taken)?;
        order.give(alloc, object)?;
        files.push(taken)?;
    }
    Ok(files)
}

/// The original of the file of a name that is verified by these files.
fn original_by(alloc: Global, files: &[Taken], name: &str) -> Result<Option<Vec<u8>>, NoMemory>
    requires { AreTaken spec.nowhere files.now }
    ensures { IfOk result (λ original. option_map (λ bytes. bytes.items) original
        ≡ rewrite.verified_original (files_in files.now) name.now) }
{
    match verified_original(alloc, files, name)? {
        None => Ok(None),
        Some(original) => Ok(Some(Vec::from_slice(alloc, original)?)),
    }
}

/// The original of the file of a name, where that is byte for byte the file that the originals of its walk give, with the versions, slots and stamps that the walk's files bear; None where it differs or is not prelinked. The first cause counts: BadName; then for each name of the walk NotThere, FileTooLarge, BadMark, Refused, NeededIsProgram, TooMany.
///
/// Each file of the walk is taken once, and nothing else is asked of the folder: not its journal, and for a name that is not valid nothing at all. `DiskFailed` comes only where the folder failed.
pub fn verify<D: Folder>(
    alloc: Global,
    folder: &mut D,
    name: &str,
) -> Result<Option<Vec<u8>>, BatchFault>
    ensures found { Finds (spec.verified (D.seen folder.old).files name.now)
        (option_map (λ bytes. bytes.items)) result
        (D.seen folder.old) (D.seen folder.new) }
    ensures bad_name { spec.RefusesName name.now result folder.old folder.new }
{
    if !is_valid_name(name.as_bytes()) {
        return Err(BatchFault::Cause(Cause::BadName));
    }
    let files = take_walk(alloc, folder, name)?;
    Ok(original_by(alloc, files.as_slice(), name)?)
}
