// How many symbols each chain has, by one walk over the symbols of all chains.
ghost use Rattle.std.specs.Prelude.{◌≡◌, ◌<◌, ◌≤◌, ℕ, length, replicate, slice_index};
ghost use Rattle.std.specs.Bool.{OnTrue};
ghost use Rattle.pl_hash.specs.Table.{HasHeader};
ghost use Rattle.pl_hash.specs.Chain.{HasBuckets, chains_end};
ghost use Rattle.pl_hash.specs.Lengths as spec;

use crate::chain::{following, head, is_linked};
use crate::table::{Table, bucket_count};

/// The length of the chain from a symbol on, 0 where it is not known.
pub fn length_at(lengths: &[u32], index: usize) -> u32
    ensures { result ≡ slice_index lengths.now index }
{
    if index < lengths.len() {
        lengths[index]
    } else {
        0
    }
}

/// The sum of two counts, if it is at most the count of symbols.
fn sum_of(table: &Table, passed: u32, known: u32) -> Option<u32>
    requires { passed ≤ table.now.symbols }
    ensures { result ≡ spec.sum_of table.now passed known }
{
    if known <= table.symbols() - passed {
        Some(passed + known)
    } else {
        None
    }
}

/// How many symbols the chain from one on has, if it ends.
fn chain_length(table: &Table, lengths: &[u32], start: Option<u32>) -> Option<u32>
    requires header { HasHeader table.now }
    requires known { spec.AreLengths table.now lengths.now }
    ensures { spec.IsLength table.now start result }
{
    let mut at = start;
    for passed in 0..table.symbols() {
        let Some(index) = at else {
            return Some(passed);
        };
        let known = length_at(lengths, index as usize);
        if known > 0 {
            return sum_of(table, passed, known);
        }
        if !is_linked(table, index) {
            return None;
        }
        at = following(table, index);
    }
    if at.is_some() {
        return None;
    }
    Some(table.symbols())
}

/// Notes the lengths of the chain of so many symbols from one on.
fn note(table: &Table, lengths: &mut [u32], start: Option<u32>, count: u32)
    requires header { HasHeader table.now }
    requires known { spec.AreLengths table.now lengths.old }
    requires ends { spec.EndsAfter table.now start count }
    ensures known { spec.AreLengths table.now lengths.new }
    ensures start { spec.IsKnown lengths.new start }
    ensures more { (index : ℕ) → 0 < slice_index lengths.old index
        → 0 < slice_index lengths.new index }
{
    let mut at = start;
    let mut left = count;
    while let Some(index) = at {
        if length_at(lengths, index as usize) > 0 {
            return;
        }
        lengths[index as usize] = left;
        at = following(table, index);
        left -= 1;
    }
}

/// Notes the lengths of all buckets' chains. Whether each chain stays among the linked symbols, and ends.
pub fn note_all(table: &Table, lengths: &mut [u32]) -> bool
    requires buckets { HasBuckets table.now }
    requires none { lengths.old ≡ replicate table.now.symbols 0 }
    ensures value { result ≡ chains_end table.now }
    ensures len { length lengths.new ≡ length lengths.old }
    ensures known { OnTrue result (spec.HasLengths table.now lengths.new) }
{
    for k in 0..bucket_count(table) {
        let start = head(table, k);
        let Some(count) = chain_length(table, lengths, start) else {
            return false;
        };
        note(table, lengths, start, count);
    }
    true
}
