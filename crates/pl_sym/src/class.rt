/// What kind of reference looks for a definer.
#[derive(Clone, Copy, Debug, PartialEq, Eq)]
pub enum Class {
    /// A jump slot of the procedure linkage table.
    Jump,

    /// Any other reference.
    Other,
}
