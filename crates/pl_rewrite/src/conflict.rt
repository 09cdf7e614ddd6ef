// What the relocations of a program give, its conflict rows, and the words that its copies read.
ghost use Rattle.std.specs.Prelude.{◌≡◌, ◌<◌, filter, true, length, IfErr, IfOk, OnOk};
ghost use Rattle.std.specs.List.{All};
ghost use Rattle.std.specs.List.Sorted.{IsNonDecreasingBy, IsPermutation};
ghost use Rattle.std.specs.Str.{bytes_eq};
ghost use Rattle.pl_base.specs.Bytes.{bytes64};
ghost use Rattle.pl_base.specs.Sums.{plus};
ghost use Rattle.pl_cone.specs.Links.{IsLinking, objects_of};
ghost use Rattle.pl_scope.specs.Scope.{IsSymbol};
ghost use Rattle.pl_value.specs.Definers.{IsSought};
ghost use Rattle.pl_value.specs.Meanings.{is_memory};
ghost use Rattle.pl_value.specs.Targets.{base_of};
ghost use Rattle.pl_value.specs.Values.{reference};
ghost use Rattle.pl_rewrite.specs.RemainingRows as spec;

use crate::ranges::Ranges;
use crate::row_words::{HeldWord, RowWords};
use pl_base::Rows;
use pl_cone::{WalkLinking, sought};
use pl_lists::ConflictRow;
use pl_object::Reloc;
use pl_scope::Found;
use pl_value::{LinkFault, Meaning, OrdinaryFault, Places, Word, reference_of, word_of};
use std::alloc::{AllocError, Global};

/// What the relocations of the libraries of a program's walk make.
#[derive(Drop)]
pub struct RemainingRows {
    pub rows: Vec<ConflictRow>,

    /// The words that are given in the ranges from which the program copies.
    pub near: Vec<Meaning>,
}

fn start_of(places: &Places, member: u32, reloc: &Reloc) -> u64
    requires { member < length places.now }
    ensures { result ≡ plus (base_of places.now member) reloc.now.address }
{
    places.as_slice()[member as usize].wrapping_add(reloc.address)
}

/// The place of a relocation of a member, and what it gives, by what it finds; or its link refusal.
#[tactic(auto, unfolding(pl_value::specs::Meanings::meaning))]
fn meaning_with(
    linking: &WalkLinking<'_, '_>,
    member: u32,
    reloc: &Reloc,
    found: Option<Found>,
) -> Result<Meaning, LinkFault>
    requires linking { IsLinking linking.now }
    requires member { member < length linking.now.places.now }
    requires reference { IsSymbol (objects_of linking.now) member reloc.now.symbol }
    requires found { IsSought (objects_of linking.now) (reference member reloc.now) found }
    ensures { result ≡ spec.meaning_in linking.now member reloc.now }
{
    let word = word_of(
        linking.scope,
        linking.places,
        linking.modules,
        member,
        reloc,
        found,
    )?;
    Ok(Meaning {
        member,
        start: start_of(linking.places, member, reloc),
        size: reloc.width,
        word,
    })
}

fn gives(linking: &WalkLinking<'_, '_>, member: u32, reloc: &Reloc) -> Result<Meaning, LinkFault>
    requires linking { IsLinking linking.now }
    requires member { member < length linking.now.places.now }
    requires reference { IsSymbol (objects_of linking.now) member reloc.now.symbol }
    ensures { result ≡ spec.meaning_in linking.now member reloc.now }
{
    let found = sought(linking.scope, reference_of(member, reloc), &linking.among);
    meaning_with(linking, member, reloc, found)
}

fn is_same(held: u64, word: u64) -> bool
    ensures { result ≡ bytes_eq (bytes64 held) (bytes64 word) }
{
    held == word
}

fn row_with(meaning: &Meaning, held: u64) -> Option<ConflictRow>
    ensures { spec.IsRowBy meaning.now held result }
{
    let Word::Put(word) = meaning.word else {
        return None;
    };
    if meaning.member == 0 {
        return None;
    }
    if is_same(held, word) {
        return None;
    }
    Some(ConflictRow {
        address: meaning.start,
        word,
    })
}

/// Adds the rows of a member's remaining relocations; or the first relocation of the member that has no value. The others have one. Each is looked up again, as it was when the program was linked: what those of all programs find may take more memory than the folder.
fn add_rows(
    linking: &WalkLinking<'_, '_>,
    member: u32,
    relocs: &[Reloc],
    held: &[HeldWord],
    rows: &mut Vec<ConflictRow>,
) -> Result<(), OrdinaryFault>
    requires linking { IsLinking linking.now }
    requires member { member < length linking.now.places.now }
    requires references { All (λ r. IsSymbol (objects_of linking.now) member r.symbol) relocs.now }
    requires held { spec.TellsHeldOf linking.now member relocs.now held.now }
    ensures added { OnOk result (spec.AddsRows linking.now member relocs.now held.now
        rows.old.items rows.new.items) }
    ensures refused { IfErr result (spec.RefusesOne linking.now member relocs.now) }
{
    for one in held {
        let meaning = gives(linking, member, &relocs[one.index as usize])?;
        if let Some(row) = row_with(&meaning, one.word) {
            rows.push(row)?;
        }
    }
    Ok(())
}

fn is_near_word(ranges: &Ranges, meaning: &Meaning) -> bool
    ensures { result ≡ spec.is_near_word ranges.now meaning.now }
{
    matches!(meaning.word, Word::Put(_)) && ranges.is_near(meaning.start)
}

/// Adds the words that a member's relocations give in the ranges from which the program copies. All have values. Those near a range are looked up again, whether they remain or not: few programs copy, and what they copy is small.
fn add_near(
    linking: &WalkLinking<'_, '_>,
    member: u32,
    relocs: &[Reloc],
    ranges: &Ranges,
    near: &mut Vec<Meaning>,
) -> Result<(), OrdinaryFault>
    requires linking { IsLinking linking.now }
    requires member { member < length linking.now.places.now }
    requires references { All (λ r. IsSymbol (objects_of linking.now) member r.symbol) relocs.now }
    requires given { spec.AllHave linking.now member relocs.now }
    ensures added { OnOk result (spec.AddsNear linking.now member relocs.now ranges.now
        near.old.items near.new.items) }
    ensures refused { IfErr result (λ fault. is_memory fault ≡ true) }
{
    for reloc in relocs {
        if ranges.is_near(start_of(linking.places, member, reloc)) {
            let meaning = gives(linking, member, reloc)?;
            if is_near_word(ranges, &meaning) {
                near.push(meaning)?;
            }
        }
    }
    Ok(())
}

fn add_member(
    linking: &WalkLinking<'_, '_>,
    member: u32,
    held: &[HeldWord],
    ranges: &Ranges,
    found_rows: &mut RemainingRows,
) -> Result<(), OrdinaryFault>
    requires linking { IsLinking linking.now }
    requires member { member < length linking.now.scope.now }
    requires held { spec.TellsOfMember linking.now member held.now }
    ensures added { OnOk result (spec.AddsMember linking.now member held.now ranges.now
        found_rows.old found_rows.new) }
    ensures refused { IfErr result (spec.RefusesMember linking.now member) }
{
    let relocs = linking.scope.object(member).relocations.as_slice();
    add_rows(linking, member, relocs, held, &mut found_rows.rows)?;
    if ranges.is_empty() {
        return Ok(());
    }
    add_near(linking, member, relocs, ranges, &mut found_rows.near)
}

fn sort_rows(rows: &mut Vec<ConflictRow>)
    ensures rows { IsPermutation rows.old.items rows.new.items }
    ensures sorted { IsNonDecreasingBy (λ r. r.address) rows.new.items }
{
    rows.sort_unstable_by_key(|row| row.address);
}

fn own_near(alloc: Global, own: &[Meaning], ranges: &Ranges) -> Result<Vec<Meaning>, AllocError>
    ensures { IfOk result (λ v. v.items ≡ filter (spec.is_near_word ranges.now) own.now) }
{
    let mut near = Vec::new(alloc);
    for meaning in own {
        if is_near_word(ranges, meaning) {
            near.push(*meaning)?;
        }
    }
    Ok(near)
}

/// The words that are held of a member, by the row of the walk.
fn held_at<'t>(walk: &[u32], row_words: &'t [RowWords], member: u32) -> &'t [HeldWord]
    requires member { member < length walk.now }
    requires rows { All (λ r. r < length row_words.now) walk.now }
    ensures { result.now ≡ spec.told_at walk.now row_words.now member }
{
    let row = walk[member as usize];
    row_words[row as usize].held.as_slice()
}

/// The conflict rows of a program by the remaining relocations of its libraries, ascending by address, and the words of the walk that are given in the ranges from which the program copies, in the order of the relocations. `own` is what the program's own relocations give; `row_words` has for the library of each row of the walk its remaining relocations, with the words that its file holds at their places. Else the first relocation of the walk that has no value, or NoMemory. The rows are those that `conflicts` of pl_conflict gives.
pub fn remaining_rows(
    alloc: Global,
    linking: &WalkLinking<'_, '_>,
    walk: &[u32],
    row_words: &[RowWords],
    own: &[Meaning],
) -> Result<RemainingRows, OrdinaryFault>
    requires linking { IsLinking linking.now }
    requires row_words { spec.CanListRows linking.now walk.now row_words.now own.now }
    ensures rows { IfOk result (λ o. spec.AreConflictRows linking.now walk.now row_words.now
        o.rows.items) }
    ensures near { IfOk result (λ o. spec.AreNear linking.now own.now o.near.items) }
    ensures refused { IfErr result (spec.RefusesAll linking.now) }
{
    let ranges = Ranges::of(alloc, own)?;
    let near = own_near(alloc, own, &ranges)?;
    let mut found_rows = RemainingRows {
        rows: Vec::new(alloc),
        near,
    };
    for member in 1..linking.scope.count() {
        let held = held_at(walk, row_words, member);
        add_member(linking, member, held, &ranges, &mut found_rows)?;
    }
    sort_rows(&mut found_rows.rows);
    Ok(found_rows)
}

/// What the relocations of the program give, which is the first of the walk, in their order, by what each finds; or the first that has no value.
pub fn own_meanings(
    alloc: Global,
    linking: &WalkLinking<'_, '_>,
    found: &[Option<Found>],
) -> Result<Rows<Meaning>, OrdinaryFault>
    requires linking { IsLinking linking.now }
    requires some { 0 < length linking.now.scope.now }
    requires found { spec.FindFirst linking.now found.now }
    ensures { spec.GivesFirst linking.now result }
{
    let relocs = linking.scope.object(0).relocations.as_slice();
    let mut all = Rows::from_vec(Vec::with_capacity(alloc, relocs.len())?);
    for index in 0..relocs.len() {
        all.push(meaning_with(linking, 0, &relocs[index], found[index])?)?;
    }
    Ok(all)
}
