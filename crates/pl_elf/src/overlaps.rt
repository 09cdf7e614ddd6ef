// Whether two PT_LOADs have a byte of the file in common.
ghost use Rattle.std.specs.Prelude.{◌≡◌, ◌+◌, ◌<◌, ◌≤◌, ◌&&◌, drop, length, take};
ghost use Rattle.std.specs.List.{list_any};
ghost use Rattle.std.specs.List.Sorted.{IsNonDecreasingBy, IsPermutation};
ghost use Rattle.pl_base.specs.Windows as windows;
ghost use Rattle.pl_elf.specs.Headers.{HasSegments, is_load, loads, segment_at, segments};
ghost use Rattle.pl_elf.specs.Clauses as spec;
ghost use Rattle.pl_elf.specs.Sweep as walk;

use crate::constants::{PT_LOAD, SEGMENT_SIZE};
use crate::extent::Extent;
use crate::{Header, read_segment};
use pl_base::{word32, word64};

/// The most program headers that are compared in pairs.
const FEW: u16 = 256;

/// The most program headers that a file has, as its header counts them in 16 bits.
const MOST: usize = 65535;

/// Whether the program header at an offset is a PT_LOAD that shares a byte with a window of the file. It reads no other fields, for speed.
#[tactic(auto, unfolding(crate::specs::Headers::segment_at))]
fn load_shares(bytes: &[u8], at: usize, first: &Extent) -> bool
    requires { at + SEGMENT_SIZE ≤ length bytes.now }
    ensures { let other = segment_at bytes.now at in result
        ≡ (is_load other && windows.share first.now (spec.load_window other)) }
{
    word32(bytes, at) == PT_LOAD
        && first.shares(&Extent::new(word64(bytes, at + 8), word64(bytes, at + 32)))
}

/// Whether a window of the file shares a byte with a PT_LOAD after an index.
#[tactic(auto, using(crate::proofs::TableLaws::any_more, crate::proofs::TableLaws::any_done))]
fn shares_later(bytes: &[u8], header: &Header, first: &Extent, index: u16) -> bool
    requires table { HasSegments bytes.now header.now }
    requires within { index < header.now.phnum }
    ensures { result ≡ list_any (windows.share first.now)
        (spec.load_windows (loads (drop (index + 1) (segments bytes.now header.now)))) }
{
    let table = header.phoff as usize;
    let count = header.phnum;
    for later in index + 1..count {
        if load_shares(bytes, table + SEGMENT_SIZE * usize::from(later), first) {
            return true;
        }
    }
    false
}

/// Whether two PT_LOADs have a byte of the file in common: each is compared with each later one.
#[tactic(auto, using(crate::proofs::TableLaws::pair_more, crate::proofs::TableLaws::pair_done), unfolding(crate::specs::Clauses::overlap_in_file))]
fn any_pair_shares(bytes: &[u8], header: &Header) -> bool
    requires { HasSegments bytes.now header.now }
    ensures { result ≡ spec.loads_overlap bytes.now header.now }
{
    for index in 0..header.phnum {
        let first = read_segment(bytes, header, index);
        if first.is_load() && shares_later(bytes, header, &Extent::of(&first), index) {
            return true;
        }
    }
    false
}

/// Puts the windows of the PT_LOADs at the front of a table, and answers how many there are.
#[tactic(auto, using(crate::proofs::TableLaws::row_put, crate::proofs::TableLaws::row_left))]
fn fill(bytes: &[u8], header: &Header, table: &mut [Extent]) -> usize
    requires segments { HasSegments bytes.now header.now }
    requires room { header.now.phnum ≤ length table.old }
    ensures rows { take result table.new ≡ spec.load_windows
        (loads (segments bytes.now header.now)) }
    ensures few { result ≤ length table.new }
{
    let mut count = 0;
    for index in 0..header.phnum {
        let segment = read_segment(bytes, header, index);
        if segment.is_load() {
            table[count] = Extent::of(&segment);
            count += 1;
        }
    }
    count
}

/// Puts windows into the order of where they begin.
fn sort(extents: &mut [Extent])
    ensures same { IsPermutation extents.old extents.new }
    ensures len { length extents.new ≡ length extents.old }
    ensures rising { IsNonDecreasingBy (λ w. w.at) extents.new }
{
    extents.sort_unstable_by_key(|extent| extent.at());
}

fn later(last: Extent, extent: &Extent) -> Extent
    ensures { result ≡ walk.later last extent.now }
{
    if extent.size() == 0 { last } else { *extent }
}

/// Whether a window shares a byte with the last one before it that has some.
#[tactic(auto, using(crate::proofs::SweepLaws::sweep_done))]
fn sweep(extents: &[Extent]) -> bool
    ensures { result ≡ walk.sweep (record { at = 0; size = 0 }) extents.now }
{
    let mut last = Extent::new(0, 0);
    for extent in extents {
        if last.shares(extent) {
            return true;
        }
        last = later(last, extent);
    }
    false
}

/// Whether two PT_LOADs have a byte of the file in common: their windows are sorted once, in a table on the stack, and the time grows as `n log n`.
/// It is kept a call of its own, so that only files with many program headers take the room of that table.
#[inline(never)]
fn any_sorted_shares(bytes: &[u8], header: &Header) -> bool
    requires segments { HasSegments bytes.now header.now }
    requires room { header.now.phnum ≤ MOST }
    ensures { result ≡ spec.loads_overlap bytes.now header.now }
{
    let mut table = [Extent::new(0, 0); MOST];
    let count = fill(bytes, header, &mut table);
    let extents = &mut table[..count];
    sort(extents);
    sweep(extents)
}

/// Whether two PT_LOADs have a byte of the file in common. It takes no memory: few are compared in pairs, and many are sorted in a table of 1 MiB on the stack.
pub fn overlap_in_file(bytes: &[u8], header: &Header) -> bool
    requires { HasSegments bytes.now header.now }
    ensures { result ≡ spec.loads_overlap bytes.now header.now }
{
    if header.phnum <= FEW {
        any_pair_shares(bytes, header)
    } else {
        any_sorted_shares(bytes, header)
    }
}
