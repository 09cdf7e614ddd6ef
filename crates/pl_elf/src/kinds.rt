// Segments by their kind, out of a list.
ghost use Rattle.std.specs.Prelude.{◌≡◌, IfOk};
ghost use Rattle.pl_elf.specs.Headers as spec;

use crate::Segment;
use crate::constants::MOVED_SEGMENTS;
use std::alloc::{AllocError, Global};

/// Whether the addresses of a segment of a kind move with the file. Those of PT_GNU_STACK and of kinds that System V and GNU do not list stay.
#[tactic(auto, unfolding(crate::specs::Headers::is_moved_kind))]
pub fn is_moved_kind(kind: u32) -> bool
    ensures { result ≡ spec.is_moved_kind kind }
{
    MOVED_SEGMENTS.contains(&kind)
}

/// The PT_LOADs, in the order of the table.
pub fn loads(alloc: Global, segments: &[Segment]) -> Result<Vec<Segment>, AllocError>
    ensures { IfOk result (λ v. v.items ≡ spec.loads segments.now) }
{
    segments
        .iter()
        .copied()
        .filter(|segment| segment.is_load())
        .collect(alloc)
}

/// How many segments of a kind there are.
pub fn count_of_kind(segments: &[Segment], kind: u32) -> usize
    ensures { result ≡ spec.count_of_kind kind segments.now }
{
    segments
        .iter()
        .filter(|segment| segment.kind == kind)
        .count()
}

/// The first segment of a kind.
pub fn segment_of_kind(segments: &[Segment], kind: u32) -> Option<Segment>
    ensures { result ≡ spec.segment_of_kind kind segments.now }
{
    segments
        .iter()
        .copied()
        .find(|segment| segment.kind == kind)
}
