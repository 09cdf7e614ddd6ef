use crate::{Mask, Piece};
use pl_base::Rows;

/// An object as it is loaded at a place.
#[derive(Drop)]
pub struct LoadedObject<'a> {
    /// What its PT_LOADs load, in ascending order of addresses.
    pub pieces: Rows<Piece<'a>>,

    /// Where its link tables are loaded.
    pub mask: Mask,
}
