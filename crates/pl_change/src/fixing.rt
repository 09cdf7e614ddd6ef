//! What fixing a position-independent program changes, and loosening a fixed one.
ghost use Rattle.std.specs.Prelude.{◌≡◌, ◌<◌, ◌^◌, IfErr, IfOk, length, true};
ghost use Rattle.pl_base.specs.Names.{IsNameLength, is_valid_name};
ghost use Rattle.pl_pie.specs.Placed.{HoldsBy};
ghost use Rattle.pl_folder.specs.Calls.{Calls};
ghost use Rattle.pl_journal.specs.Meaning.{rows_for};
ghost use Rattle.pl_journal.specs.Parts.{Looking};
ghost use Rattle.pl_journal.specs.Spelling.{are_rows};
ghost use Rattle.pl_place.specs.Policy as policy;
ghost use Rattle.pl_change.specs.Answers.{Finds, BatchMeansAlone, ending};
ghost use Rattle.pl_change.specs.Replace as spec;

use crate::changes::fitting;
use crate::storing::{put, stored_as};
use crate::taking::take;
use crate::{BatchFault, Cause};
use pl_base::{Rows, Text, is_valid_name};
use pl_folder::Folder;
use pl_journal::Change;
use pl_pie::{Placing, fix_placed, unfix};
use pl_place::{Holes, Placer};
use std::alloc::Global;

/// A program that was fixed.
#[derive(Drop)]
pub(crate) struct FixedFile {
    /// The address that was added to its own.
    pub(crate) address: u64,

    /// Its bytes.
    pub(crate) bytes: Rows<u8>,
}

/// What fixing the program of a name changes.
#[derive(Drop)]
pub(crate) struct FixMade {
    /// The rows of the journal.
    pub(crate) rows: Rows<Change>,

    /// The address at which it is fixed.
    pub(crate) address: u64,
}

/// The original of the file of a name that was asked for, or the first cause: BadName, NotThere, FileTooLarge, BadMark.
fn take_original<D: Folder>(
    alloc: Global,
    folder: &mut D,
    name: &str,
) -> Result<Rows<u8>, BatchFault>
    ensures found { Finds (spec.original_of (D.seen folder.old).files name.now)
        (λ bytes. bytes) result
        (D.seen folder.old) (D.seen folder.new) }
    ensures valid { IfOk result (λ _. is_valid_name name.now ≡ true) }
    ensures small { IfOk result (λ bytes. length bytes < 2 ^ 32) }
{
    if !is_valid_name(name.as_bytes()) {
        return Err(BatchFault::Cause(Cause::BadName));
    }
    let file = take(alloc, folder, name)?;
    let original = stored_as(alloc, name, &file)?;
    Ok(original)
}

/// The row of a name that gets these bytes, where it has not, and where a journal can have it.
fn put_fitting<D: Folder>(
    alloc: Global,
    folder: &mut D,
    name: &str,
    bytes: Rows<u8>,
) -> Result<Rows<Change>, BatchFault>
    requires { IsNameLength name.now }
    ensures found { Finds (spec.put_fitting (D.seen folder.old).files name.now bytes)
        (λ rows. rows) result
        (D.seen folder.old) (D.seen folder.new) }
    ensures fits { IfOk result (λ rows. are_rows (rows_for rows) ≡ true) }
{
    let rows = put(alloc, folder, name, bytes)?;
    fitting(rows)
}

/// The program that a name's original becomes where a policy places it, or the cause: NotPie, NoPlace.
fn fixed_of<F: Fn(&Holes, u64, u64) -> Option<u64>>(
    alloc: Global,
    name: &str,
    original: &[u8],
    placer: &Placer<F>,
) -> Result<FixedFile, BatchFault>
    requires may { policy.MayChoose (F.pre placer.now) }
    requires chooses { policy.Chooses (F.post placer.now) }
    requires few { length original.now < 2 ^ 32 }
    ensures means { HoldsBy (F.post placer.now)
        (λ choose. BatchMeansAlone (spec.fixed_of choose name.now original.now) result) }
    ensures alone { IfErr result spec.IsAlone }
{
    match fix_placed(alloc, placer, original)? {
        Placing::NotPie => Err(BatchFault::Cause(Cause::NotPie(Text::copy_of(alloc, name)?))),
        Placing::NoPlace => Err(BatchFault::Cause(Cause::NoPlace(Text::copy_of(alloc, name)?))),
        Placing::Fixed { address, program } => Ok(FixedFile {
            address,
            bytes: program.into_bytes(),
        }),
    }
}

/// The position-independent program of which a name's original is the fixed one, or the cause: NotFixed.
#[tactic(auto, unfolding(crate::specs::Replace::loosened_of))]
fn loosened_of(alloc: Global, name: &str, original: &[u8]) -> Result<Rows<u8>, BatchFault>
    requires { length original.now < 2 ^ 32 }
    ensures { BatchMeansAlone (spec.loosened_of name.now original.now) result }
{
    match unfix(alloc, original)? {
        Some(bytes) => Ok(bytes),
        None => Err(BatchFault::Cause(Cause::NotFixed(Text::copy_of(alloc, name)?))),
    }
}

/// What fixing the program of a name changes, or the first cause.
pub(crate) fn fix_changes<D: Folder, F: Fn(&Holes, u64, u64) -> Option<u64>>(
    alloc: Global,
    folder: &mut D,
    name: &str,
    placer: &Placer<F>,
) -> Result<FixMade, BatchFault>
    requires may { policy.MayChoose (F.pre placer.now) }
    requires chooses { policy.Chooses (F.post placer.now) }
    ensures found { HoldsBy (F.post placer.now)
        (λ choose. spec.FindsFixed choose name.now result (D.seen folder.old) (D.seen folder.new)) }
    ensures looks { Calls (ending result) Looking (D.seen folder.old) (D.seen folder.new) }
    ensures fits { IfOk result (λ made. are_rows (rows_for made.rows) ≡ true) }
{
    let original = take_original(alloc, folder, name)?;
    let program = fixed_of(alloc, name, original.as_slice(), placer)?;
    let rows = put_fitting(alloc, folder, name, program.bytes)?;
    Ok(FixMade {
        rows,
        address: program.address,
    })
}

/// What loosening the fixed program of a name changes, or the first cause.
pub(crate) fn unfix_changes<D: Folder>(
    alloc: Global,
    folder: &mut D,
    name: &str,
) -> Result<Rows<Change>, BatchFault>
    ensures found { Finds (spec.replacement_of (spec.loosened_of name.now)
        (D.seen folder.old).files name.now) (λ rows. rows) result
        (D.seen folder.old) (D.seen folder.new) }
    ensures fits { IfOk result (λ rows. are_rows (rows_for rows) ≡ true) }
{
    let original = take_original(alloc, folder, name)?;
    let bytes = loosened_of(alloc, name, original.as_slice())?;
    let rows = put_fitting(alloc, folder, name, bytes)?;
    Ok(rows)
}
