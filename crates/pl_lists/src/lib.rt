//! The library list and the conflict rows of a prelinked file, as bytes and as values, both ways.
#![tactic(auto)]

mod conflict_row;
mod conflicts;
mod constants;
mod fault;
mod list_row;
mod read;
mod write;

pub use conflict_row::ConflictRow;
pub use conflicts::{read_conflicts, write_conflicts};
pub use constants::{CONFLICT_INFO, CONFLICT_SIZE, LIST_ROW_SIZE};
pub use fault::ListFault;
pub use list_row::ListRow;
pub use read::read_list;
pub use write::write_list;
