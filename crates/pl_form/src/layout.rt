use crate::Spot;
use pl_base::Rows;
use pl_move::Table;
use pl_object::{Object, Window};

/// Where a form changes an original.
#[derive(Drop)]
pub struct Layout {
    /// The dynamic table.
    pub dynamic: Window,

    /// The tables whose words move: the symbols, the relocations and the SYMTAB sections.
    pub tables: Rows<Table>,

    /// The places of the relocations.
    pub spots: Rows<Spot>,

    /// How many entries the dynamic table has before the first of tag DT_NULL.
    pub tags: u64,
}

/// What a form is made from: an accepted original's bytes, the object that it is, where a form changes it, and its SHA-256.
#[derive(Clone, Copy)]
pub struct Source<'o> {
    pub original: &'o [u8],
    pub object: &'o Object,
    pub layout: &'o Layout,
    pub digest: &'o [u8; 32],
}
