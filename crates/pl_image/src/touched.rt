// Patches by the words that they touch.
ghost use Rattle.std.specs.Prelude.{◌≡◌, ℕ, ◌+◌, ◌≤◌, ◌<◌, ◌^◌, ◌==◌, true, false, nat_lt, fold, length, IfOk, OnOk};
ghost use Rattle.std.specs.Bool.{OnTrue};
ghost use Rattle.std.specs.List.{All, AllWithin, list_any};
ghost use Rattle.std.specs.List.Sorted.{IsNonDecreasingBy, IsPartitionPoint};
ghost use Rattle.pl_image.specs.Index as spec;

use crate::Patch;
use crate::lines::WORDS;
use crate::patch::laid;
use pl_base::end;
use std::alloc::{AllocError, Global};

/// A patch touches a word.
#[derive(Clone, Copy, Debug)]
pub struct Touch {
    /// The word's address divided by 8.
    pub number: u64,

    /// The index of the patch.
    pub patch: usize,
}

/// The number of the first word past a patch.
fn words_end(patch: &Patch) -> u64
    ensures { result ≡ spec.words_end patch.now }
{
    ((end(patch.address, patch.bytes().len() as u64) + 7) / 8) as u64
}

/// Adds the words that the patch of an index touches.
fn add_touches(touched: &mut Vec<Touch>, patches: &[Patch], index: usize) -> Result<(), AllocError>
    requires there { index < length patches.now }
    requires before { spec.IsIndexOf patches.now touched.old.items index }
    ensures { OnOk result (spec.IsIndexOf patches.now touched.new.items (index + 1)) }
{
    let patch = &patches[index];
    for number in patch.address / 8..words_end(patch) {
        touched.push(Touch {
            number,
            patch: index,
        })?;
    }
    Ok(())
}

/// The words that patches touch, in the order of the patches.
fn touches(alloc: Global, patches: &[Patch]) -> Result<Vec<Touch>, AllocError>
    ensures { IfOk result (λ touched. spec.IsIndexOf patches.now touched.items
        (length patches.now)) }
{
    let mut touched = Vec::with_capacity(alloc, patches.len())?;
    for index in 0..patches.len() {
        add_touches(&mut touched, patches, index)?;
    }
    Ok(touched)
}

/// The words that patches touch, in ascending order, those of one word in the order of the patches. The time grows as `n log n`.
pub fn index_patches(alloc: Global, patches: &[Patch]) -> Result<Vec<Touch>, AllocError>
    ensures { IfOk result (λ touched. spec.IsIndex patches.now touched.items) }
{
    let mut touched = touches(alloc, patches)?;
    touched.sort_by_key(|touch| touch.number)?;
    Ok(touched)
}

/// How many of the touches, which ascend, are of words before a number.
fn before(touched: &[Touch], number: u64) -> usize
    requires { IsNonDecreasingBy (λ t. t.number) touched.now }
    ensures bound { result ≤ length touched.now }
    ensures point { IsPartitionPoint (λ t. nat_lt t.number number ≡ true)
        (λ t. nat_lt t.number number ≡ false) touched.now result }
{
    touched.partition_point(|touch| touch.number < number)
}

/// Whether the touches before an index, of some that ascend, are of words before a number.
fn all_before(touched: &[Touch], number: u64, index: usize) -> bool
    requires rising { IsNonDecreasingBy (λ t. t.number) touched.now }
    requires bound { index ≤ length touched.now }
    ensures { OnTrue result (AllWithin (λ t. nat_lt t.number number ≡ true) touched.now 0 index) }
{
    if index == 0 {
        true
    } else {
        touched[index - 1].number < number
    }
}

/// Whether the touches from an index on, of some that ascend, are of words from a number on.
fn none_before(touched: &[Touch], number: u64, index: usize) -> bool
    requires rising { IsNonDecreasingBy (λ t. t.number) touched.now }
    requires bound { index ≤ length touched.now }
    ensures { OnTrue result (AllWithin (λ t. nat_lt t.number number ≡ false) touched.now index
        (length touched.now)) }
{
    if index == touched.len() {
        true
    } else {
        number <= touched[index].number
    }
}

/// Whether as many of the touches, which ascend, are of words before a number as an index says.
fn splits(touched: &[Touch], number: u64, index: usize) -> bool
    requires { IsNonDecreasingBy (λ t. t.number) touched.now }
    ensures bound { OnTrue result (index ≤ length touched.now) }
    ensures point { OnTrue result (IsPartitionPoint (λ t. nat_lt t.number number ≡ true)
        (λ t. nat_lt t.number number ≡ false) touched.now index) }
{
    index <= touched.len()
        && all_before(touched, number, index)
        && none_before(touched, number, index)
}

/// How many of the touches, which ascend, are of words before a number. A guess and the next number are tried first.
fn before_by(touched: &[Touch], number: u64, guess: usize) -> usize
    requires { IsNonDecreasingBy (λ t. t.number) touched.now }
    ensures bound { result ≤ length touched.now }
    ensures point { IsPartitionPoint (λ t. nat_lt t.number number ≡ true)
        (λ t. nat_lt t.number number ≡ false) touched.now result }
{
    let next = guess.saturating_add(1);
    if splits(touched, number, guess) {
        guess
    } else if splits(touched, number, next) {
        next
    } else {
        before(touched, number)
    }
}

/// The patches that touch a word. The search begins at a guess of how many touches are of words before it.
pub fn touching<'t>(
    patches: &[Patch],
    touched: &'t [Touch],
    number: u64,
    guess: usize,
) -> &'t [Touch]
    requires index { spec.IsIndex patches.now touched.now }
    requires limit { number < 2 ^ 61 }
    ensures touching { spec.AreTouching patches.now result.now number }
    ensures only { All (λ touch. touch.number ≡ number) result.now }
{
    let first = before_by(touched, number, guess);
    let end = before_by(touched, number + 1, first);
    &touched[first..end]
}

/// The patches that touch a word of so many bytes from an address on.
pub fn near<'t>(patches: &[Patch], touched: &'t [Touch], from: u64, size: u64) -> &'t [Touch]
    requires { spec.IsIndex patches.now touched.now }
    ensures { spec.AreNear patches.now result.now from size }
{
    let first = before(touched, from / 8);
    let end = before(touched, ((end(from, size) + 7) / 8) as u64);
    &touched[first..end]
}

/// The byte at an address with the patches over it, of which those that touch its word are given.
pub fn patched(patches: &[Patch], touching: &[Touch], below: u8, address: u64) -> u8
    requires inside { All (λ t. t.patch < length patches.now) touching.now }
    ensures { result ≡ fold (spec.laid_by patches.now address) below touching.now }
{
    let mut found = below;
    for touch in touching {
        if touch.number == address / 8 {
            found = laid(&patches[touch.patch], found, address);
        }
    }
    found
}

/// The number of the first word from one on that a patch touches, `WORDS` where there is none. The search begins at a guess of how many touches are of words before it, which becomes their number.
pub fn next_touched(touched: &[Touch], from: u64, guess: &mut usize) -> u64
    requires rising { IsNonDecreasingBy (λ t. t.number) touched.now }
    requires limit { from ≤ WORDS }
    ensures within { (from ≤ result) × (result ≤ WORDS) }
    ensures none { (n : ℕ) → from ≤ n → n < result → list_any (λ t. t.number == n) touched.now
        ≡ false }
    ensures found { result < WORDS → list_any (λ t. t.number == result) touched.now ≡ true }
{
    let index = before_by(touched, from, *guess);
    *guess = index;
    if index < touched.len() {
        touched[index].number.min(WORDS)
    } else {
        WORDS
    }
}
