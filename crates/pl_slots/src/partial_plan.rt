use crate::Slot;
use pl_base::Rows;
use pl_elf::Range;

/// How far a plan has come: the slots of the wants so far, and what is left of the region for the others.
#[derive(Drop)]
pub struct PartialPlan {
    /// The slots of the wants so far, in their order.
    pub rows: Rows<Slot>,

    /// What is left of the region beside these slots and the rows that other wants keep: holes in ascending order.
    pub holes: Rows<Range>,
}
