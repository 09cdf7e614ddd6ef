use pl_base::Rows;
use pl_elf::Range;
use pl_slots::Slot;

/// What a plan is made from, besides the wants.
#[derive(Drop)]
pub struct Asked<'a> {
    /// The rows of the cache.
    pub rows: &'a [Slot],

    /// For each walk the positions of its libraries among the wants.
    pub walks: &'a [Rows<u32>],

    /// The addresses from which slots are given.
    pub region: Range,
}
