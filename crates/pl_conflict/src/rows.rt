// The conflict rows of a program.
ghost use Rattle.std.specs.Prelude.{◌≡◌, ◌<◌, length, true, IfOk};
ghost use Rattle.std.specs.List.{All};
ghost use Rattle.std.specs.List.Sorted.{IsPermutation, IsNonDecreasingBy};
ghost use Rattle.std.specs.Str.{bytes_eq};
ghost use Rattle.pl_base.specs.Answers.{Answers, because};
ghost use Rattle.pl_base.specs.Bytes.{bytes64};
ghost use Rattle.pl_image.specs.Image.{AreLoaded};
ghost use Rattle.pl_lists.specs.Conflicts.{ascend};
ghost use Rattle.pl_scope.specs.Scope.{objects, IsAccepted};
ghost use Rattle.pl_value.specs.Meanings.{is_memory};
ghost use Rattle.pl_value.specs.Ordinary.{ArePlaced};
ghost use Rattle.pl_value.specs.declared.fault.OrdinaryFault.TheVariants.{Link};
ghost use Rattle.pl_conflict.specs.Compared as compared;
ghost use Rattle.pl_conflict.specs.Conflicts as spec;

use pl_base::Rows;
use pl_image::{LoadedObject, Parts, read_loaded};
use pl_io::NoMemory;
use pl_lists::ConflictRow;
use pl_scope::Scope;
use pl_tls::Module;
use pl_value::{Meaning, OrdinaryFault, Places, Word, load, meanings};
use std::alloc::{AllocError, Global};

/// The eight bytes that a member's file loads from an address on.
#[tactic(auto, unfolding(crate::specs::Conflicts::held))]
pub fn held(
    alloc: Global,
    files: &[LoadedObject<'_>],
    member: u32,
    start: u64,
) -> Result<Vec<u8>, AllocError>
    requires files { AreLoaded files.now }
    requires member { member < length files.now }
    ensures { IfOk result (λ v. v.items ≡ spec.held files.now member start) }
{
    let index = member as usize;
    read_loaded(alloc, &files[index..index + 1], start, 8)
}

/// Whether bytes are those of a word, little-endian.
#[tactic(auto, using(pl_base::proofs::WordLaws::bytes64_std))]
fn is_word(bytes: &[u8], word: u64) -> bool
    ensures { result ≡ bytes_eq bytes.now (bytes64 word) }
{
    bytes == word.to_le_bytes().as_slice()
}

/// The row of a relocation, if there is one.
fn row_of(
    alloc: Global,
    files: &[LoadedObject<'_>],
    meaning: &Meaning,
) -> Result<Option<ConflictRow>, AllocError>
    requires files { AreLoaded files.now }
    requires member { meaning.now.member < length files.now }
    ensures { IfOk result (λ row. row ≡ spec.row_of files.now meaning.now.member meaning.now.start
        meaning.now.word) }
{
    let Word::Put(word) = meaning.word else {
        return Ok(None);
    };
    if meaning.member == 0 {
        return Ok(None);
    }
    let held = held(alloc, files, meaning.member, meaning.start)?;
    if is_word(&held, word) {
        return Ok(None);
    }
    Ok(Some(ConflictRow {
        address: meaning.start,
        word,
    }))
}

/// The rows of relocations, in their order.
#[tactic(auto, unfolding(crate::specs::Conflicts::rows_of))]
fn rows_of(
    alloc: Global,
    files: &[LoadedObject<'_>],
    meanings: &[Meaning],
) -> Result<Vec<ConflictRow>, AllocError>
    requires files { AreLoaded files.now }
    requires members { All (λ g. g.member < length files.now) meanings.now }
    ensures { IfOk result (λ v. v.items ≡ spec.rows_of files.now meanings.now) }
{
    let mut rows = Vec::new(alloc);
    for meaning in meanings {
        if let Some(row) = row_of(alloc, files, meaning)? {
            rows.push(row)?;
        }
    }
    Ok(rows)
}

/// Puts rows into ascending order of their addresses.
fn sort_rows(rows: &mut Vec<ConflictRow>)
    ensures rows { IsPermutation rows.old.items rows.new.items }
    ensures sorted { IsNonDecreasingBy (λ r. r.address) rows.new.items }
{
    rows.sort_unstable_by_key(|row| row.address);
}

/// The conflict rows of a program of whose relocations these meanings are enough: the same rows are made of them as of all that `meanings` of pl_value gives for the scope at the places. They are the rows that `conflicts` gives. It fails only for want of memory; the other conditions are those of `conflicts`.
fn conflicts_by(
    alloc: Global,
    scope: &Scope<'_>,
    places: &Places,
    meanings: &[Meaning],
    parts: &Parts<'_>,
) -> Result<Rows<ConflictRow>, NoMemory>
    requires compared { compared.AreCompared (objects scope.now) places.now parts.now }
    requires given { compared.AreEnough (objects scope.now) parts.now places.now meanings.now }
    ensures exact { IfOk result (compared.AreConflicts (objects scope.now) parts.now places.now
        meanings.now) }
    ensures ascending { IfOk result (λ rows. ascend rows ≡ true) }
{
    let files = load(alloc, scope, parts, places)?;
    let mut rows = rows_of(alloc, &files, meanings)?;
    sort_rows(&mut rows);
    Ok(Rows::from_vec(rows))
}

/// The conflict rows of a program: for each relocation of a library that gives a word in the program's scope, at these places, other than the eight bytes that the library's file loads there, its place and that word. They ascend by their addresses, which differ from one another. Else the first link refusal in scope order, in an object the relocations of DT_RELA before those of DT_JMPREL, or NoMemory.
///
/// The program is the first member, and each object is one that `accept` gave. `places` and `parts` have one row for each member. `parts` are the files as they are loaded: for the program its original, for a library its prelinked file, whose PT_LOADs have the offsets of the original's. The PT_LOADs have no address in common at the places and end there within the limit of addresses.
pub fn conflicts(
    alloc: Global,
    scope: &Scope<'_>,
    places: &Places,
    tls: &[Module],
    parts: &Parts<'_>,
) -> Result<Rows<ConflictRow>, OrdinaryFault>
    requires one_each { length places.now ≡ length scope.now }
    requires parts { length parts.now ≡ length scope.now }
    requires accepted { All IsAccepted (objects scope.now) }
    requires placed { ArePlaced places.now parts.now (objects scope.now) }
    ensures exact { Answers is_memory result (because Link
        (spec.conflicts (objects scope.now) parts.now places.now tls.now)) }
    ensures ascending { IfOk result (λ rows. ascend rows ≡ true) }
{
    let meanings = meanings(alloc, scope, places, tls)?;
    Ok(conflicts_by(alloc, scope, places, meanings.as_slice(), parts)?)
}
