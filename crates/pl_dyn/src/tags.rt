/// An entry of a dynamic table.
#[derive(Clone, Copy, Debug, PartialEq, Eq)]
pub struct Tag {
    /// One of the `DT_` numbers.
    pub number: u64,

    /// An address, a size, an offset, a count or flags, as the number says.
    pub value: u64,
}
