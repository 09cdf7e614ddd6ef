use pl_base::Rows;
use pl_slots::Slot;

/// What a cache says.
#[derive(Drop)]
pub struct Cache {
    /// The stamp of the last run that gave one.
    pub last: u32,

    /// The slots, ascending by name.
    pub rows: Rows<Slot>,
}
