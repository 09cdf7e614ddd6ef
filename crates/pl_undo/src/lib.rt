//! The section `.gnu.prelink_undo` of a prelinked file, in both versions: what brings the original file back.
#![tactic(auto)]

mod constants;
mod fault;
mod read;
mod undo;
mod write;

pub use constants::{DIGEST_AT, DIGEST_SIZE, HEADERS_AT, UNDO_MAGIC, UNDO_MAGIC_2};
pub use fault::UndoFault;
pub use read::read_undo;
pub use undo::Undo;
pub use write::write_undo;
