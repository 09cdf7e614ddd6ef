// Acceptance clause 6: what the segments of a file have to meet. A test is true where the clause refuses the file.
ghost use Rattle.std.specs.Prelude.{◌≡◌, ◌&&◌};
ghost use Rattle.std.specs.List.{list_any};
ghost use Rattle.pl_elf.specs.Headers.{HasSegments, count_of_kind, is_load, loads, segments};
ghost use Rattle.pl_elf.specs.Clauses as spec;

use crate::constants::{
    ADDRESS_LIMIT, MAX_LOAD_ALIGN, PT_DYNAMIC, PT_INTERP, PT_TLS, SEGMENT_SIZE,
};
use crate::overlaps::overlap_in_file;
use crate::{Header, Segment, read_segment};
use pl_base::end;

#[tactic(auto, unfolding(crate::specs::Clauses::bad_align))]
fn bad_align(align: u64) -> bool
    ensures { result ≡ spec.bad_align align }
{
    align != 0 && !align.is_power_of_two()
}

#[tactic(auto, unfolding(crate::specs::Clauses::not_congruent))]
fn not_congruent(segment: &Segment) -> bool
    ensures { result ≡ spec.not_congruent segment.now }
{
    segment.align != 0 && segment.vaddr % segment.align != segment.offset % segment.align
}

#[tactic(auto, unfolding(crate::specs::Clauses::bad_load))]
fn bad_load(segment: &Segment) -> bool
    ensures { result ≡ spec.bad_load segment.now }
{
    segment.memsz < segment.filesz
        || bad_align(segment.align)
        || segment.align > MAX_LOAD_ALIGN
        || not_congruent(segment)
        || end(segment.vaddr, segment.memsz) > u128::from(ADDRESS_LIMIT)
}

#[tactic(auto, unfolding(crate::specs::Headers::segments))]
fn has_load(bytes: &[u8], header: &Header) -> bool
    requires { HasSegments bytes.now header.now }
    ensures { result ≡ list_any is_load (segments bytes.now header.now) }
{
    (0..header.phnum)
        .map(|index| read_segment(bytes, header, index))
        .any(|segment| segment.is_load())
}

#[tactic(auto, unfolding(crate::specs::Headers::segments))]
fn count_in_table(bytes: &[u8], header: &Header, kind: u32) -> usize
    requires { HasSegments bytes.now header.now }
    ensures { result ≡ count_of_kind kind (segments bytes.now header.now) }
{
    (0..header.phnum)
        .map(|index| read_segment(bytes, header, index))
        .filter(|segment| segment.kind == kind)
        .count()
}

/// Whether there is more than one segment of a kind that may stand once.
#[tactic(auto, unfolding(crate::specs::Clauses::has_second_of_a_kind))]
fn has_second_of_a_kind(bytes: &[u8], header: &Header) -> bool
    requires { HasSegments bytes.now header.now }
    ensures { result ≡ spec.has_second_of_a_kind (segments bytes.now header.now) }
{
    count_in_table(bytes, header, PT_DYNAMIC) > 1
        || count_in_table(bytes, header, PT_TLS) > 1
        || count_in_table(bytes, header, PT_INTERP) > 1
}

#[tactic(auto, unfolding(crate::specs::Headers::segments))]
fn has_bad_load(bytes: &[u8], header: &Header) -> bool
    requires { HasSegments bytes.now header.now }
    ensures { result ≡ list_any (λ s. is_load s && spec.bad_load s)
        (segments bytes.now header.now) }
{
    (0..header.phnum)
        .map(|index| read_segment(bytes, header, index))
        .any(|segment| segment.is_load() && bad_load(&segment))
}

#[tactic(auto, unfolding(crate::specs::Headers::segments))]
fn has_bad_tls(bytes: &[u8], header: &Header) -> bool
    requires { HasSegments bytes.now header.now }
    ensures { result ≡ list_any spec.bad_tls (segments bytes.now header.now) }
{
    (0..header.phnum)
        .map(|index| read_segment(bytes, header, index))
        .any(|segment| segment.kind == PT_TLS && bad_align(segment.align))
}

/// Whether each PT_LOAD begins in memory at or after the end of the one before.
#[tactic(auto, using(crate::proofs::TableLaws::ascend_more, crate::proofs::TableLaws::ascend_done))]
fn ascend(bytes: &[u8], header: &Header) -> bool
    requires { HasSegments bytes.now header.now }
    ensures { result ≡ spec.ascend_from 0 (loads (segments bytes.now header.now)) }
{
    let mut address: u128 = 0;
    for index in 0..header.phnum {
        let segment = read_segment(bytes, header, index);
        if segment.is_load() {
            if u128::from(segment.vaddr) < address {
                return false;
            }
            address = end(segment.vaddr, segment.memsz);
        }
    }
    true
}

/// Acceptance clause 6: whether what `HeaderFault::BadSegment` says is wrong with the program headers.
#[tactic(auto, unfolding(crate::specs::Clauses::bad_segment))]
pub fn bad_segment(bytes: &[u8], header: &Header) -> bool
    requires { HasSegments bytes.now header.now }
    ensures { result ≡ spec.bad_segment header.now (segments bytes.now header.now) }
{
    usize::from(header.phentsize) != SEGMENT_SIZE
        || !has_load(bytes, header)
        || has_second_of_a_kind(bytes, header)
        || has_bad_load(bytes, header)
        || !ascend(bytes, header)
        || overlap_in_file(bytes, header)
        || has_bad_tls(bytes, header)
}
