use pl_slots::Slot;

/// A slot that a want was given.
#[derive(Drop)]
pub struct Given {
    /// The want's position.
    pub want: usize,

    pub slot: Slot,
}
