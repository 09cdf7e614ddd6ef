use crate::{Reloc, Window};
use pl_base::Rows;
use pl_hash::Table;

/// What an object's tables hold beside its names, and where its link tables stand in the file.
#[derive(Drop)]
pub struct Layout {
    pub hashes: Rows<Table>,
    pub relocations: Rows<Reloc>,
    pub packed: u32,
    pub windows: Rows<Window>,
}
