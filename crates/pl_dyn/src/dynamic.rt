use crate::Tag;
use pl_base::Rows;

/// The entries of a dynamic table (System V gABI chapter 5, "Dynamic Section").
#[derive(Drop)]
pub struct Dynamic {
    /// The entries before the first one of tag DT_NULL, in the order of the table.
    pub tags: Rows<Tag>,

    /// How many entries of tag DT_NULL there are, less the one that ends the table.
    pub spare: u32,
}
