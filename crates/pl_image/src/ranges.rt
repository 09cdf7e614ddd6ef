// Ranges of addresses.
ghost use Rattle.std.specs.Prelude.{◌≡◌, ℕ, ◌+◌, ◌≤◌, ◌<◌, nat_lt, true, false, length, IfOk};
ghost use Rattle.std.specs.Bool.{OnTrue};
ghost use Rattle.std.specs.List.{All, AllWithin, list_any};
ghost use Rattle.std.specs.List.Sorted.{IsNonDecreasingBy, IsPermutation};
ghost use Rattle.pl_image.specs.Index as spec;
ghost use Rattle.pl_elf.specs.Ranges.{has};

use pl_base::end;
use pl_elf::Range;
use std::alloc::{AllocError, Global};

/// Puts ranges into the order of where they start.
fn sort_ranges(ranges: &mut Vec<Range>)
    ensures same { IsPermutation ranges.old.items ranges.new.items }
    ensures rising { IsNonDecreasingBy (λ r. r.start) ranges.new.items }
{
    ranges.sort_unstable_by_key(|range| range.start);
}

/// Ranges that ascend and do not overlap, with the same addresses. The time grows as `n log n`.
pub fn apart(alloc: Global, mut ranges: Vec<Range>) -> Result<Vec<Range>, AllocError>
    ensures rises { IfOk result (λ v. spec.rises 0 v.items ≡ true) }
    ensures same { IfOk result (λ v. (a : ℕ) → list_any (has a) v.items
        ≡ list_any (has a) ranges.items) }
{
    sort_ranges(&mut ranges);
    let kept = merged(alloc, &ranges)?;
    Ok(kept)
}

/// Ranges that ascend by where they start, each without its addresses before the end of those before it.
#[tactic(auto, unfolding(crate::specs::Index::merged))]
fn merged(alloc: Global, ranges: &[Range]) -> Result<Vec<Range>, AllocError>
    ensures { IfOk result (λ v. v.items ≡ spec.merged 0 ranges.now) }
{
    let mut kept = Vec::new(alloc);
    let mut end = 0;
    for range in ranges {
        if range.start < range.end && end < range.end {
            kept.push(Range {
                start: range.start.max(end),
                end: range.end,
            })?;
            end = range.end;
        }
    }
    Ok(kept)
}

/// Whether a range starts before the end of so many addresses.
fn starts_before(range: &Range, from: u64, size: u64) -> bool
    ensures { result ≡ nat_lt range.now.start (from + size) }
{
    u128::from(range.start) < end(from, size)
}

/// The ranges, of some that rise, that begin before the end of so many addresses and end after their begin.
pub fn near(ranges: &[Range], from: u64, size: u64) -> &[Range]
    requires { spec.rises 0 ranges.now ≡ true }
    ensures same { (a : ℕ) → from ≤ a → a < from + size → list_any (has a) result.now
        ≡ list_any (has a) ranges.now }
    ensures only { All (λ range. (from < range.end) × (range.start < from + size)) result.now }
{
    let first = ranges.partition_point(|range| range.end <= from);
    let rest = &ranges[first..];
    let count = rest.partition_point(|range| starts_before(range, from, size));
    &rest[..count]
}

/// Whether one of the ranges, which rise, has an address.
pub fn any_has(ranges: &[Range], address: u64) -> bool
    requires { spec.rises 0 ranges.now ≡ true }
    ensures { result ≡ list_any (has address) ranges.now }
{
    let after = ranges.partition_point(|range| range.start <= address);
    if after == 0 {
        return false;
    }
    address < ranges[after - 1].end
}

/// Whether the ranges before an index, of some that rise, end at or before an address.
fn all_end_by(ranges: &[Range], address: u64, index: usize) -> bool
    requires rises { spec.rises 0 ranges.now ≡ true }
    requires bound { index ≤ length ranges.now }
    ensures { OnTrue result (AllWithin (λ range. range.end ≤ address) ranges.now 0 index) }
{
    if index == 0 {
        true
    } else {
        ranges[index - 1].end <= address
    }
}

/// Whether the ranges from an index on, of some that rise, start at or after the end of so many addresses.
fn all_start_past(ranges: &[Range], from: u64, size: u64, index: usize) -> bool
    requires rises { spec.rises 0 ranges.now ≡ true }
    requires bound { index ≤ length ranges.now }
    ensures { OnTrue result (AllWithin (λ range. from + size ≤ range.start) ranges.now index
        (length ranges.now)) }
{
    if index == ranges.len() {
        true
    } else {
        !starts_before(&ranges[index], from, size)
    }
}

/// Whether so many addresses lie between the ranges, which rise, before an index and those from it on.
fn is_between(ranges: &[Range], from: u64, size: u64, index: usize) -> bool
    requires { spec.rises 0 ranges.now ≡ true }
    ensures { OnTrue result ((a : ℕ) → from ≤ a → a < from + size
        → list_any (has a) ranges.now ≡ false) }
{
    if index <= ranges.len() && all_end_by(ranges, from, index) {
        all_start_past(ranges, from, size, index)
    } else {
        false
    }
}

/// Whether none of the ranges, which rise, has one of so many addresses. The search begins at a guess of how many ranges start before them.
pub fn is_clear(ranges: &[Range], from: u64, size: u64, guess: usize) -> bool
    requires { spec.rises 0 ranges.now ≡ true }
    ensures { OnTrue result ((a : ℕ) → from ≤ a → a < from + size
        → list_any (has a) ranges.now ≡ false) }
{
    if is_between(ranges, from, size, guess) {
        true
    } else {
        near(ranges, from, size).len() == 0
    }
}

/// Where the range ends that has an address, of ranges that rise; the address itself where none has it. The search begins at a guess of how many ranges start at or before the address, which becomes their number.
pub fn end_at(ranges: &[Range], address: u64, guess: &mut usize) -> u64
    requires { spec.rises 0 ranges.now ≡ true }
    ensures after { address ≤ result }
    ensures inside { (a : ℕ) → address ≤ a → a < result → list_any (has a) ranges.now ≡ true }
{
    if is_between(ranges, address, 8, *guess) {
        return address;
    }
    let after = ranges.partition_point(|range| range.start <= address);
    *guess = after;
    if after == 0 {
        return address;
    }
    ranges[after - 1].end.max(address)
}
