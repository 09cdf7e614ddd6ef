//! Tables of packed relative relocations (gABI, "Relative Relocation Table": SHT_RELR, DT_RELR): the places that a table names, the table of places, and how a table moves with its object.
#![tactic(auto)]

mod entries;
mod fault;
mod moving;
mod packing;
mod unpacking;

pub use entries::{BITS, ENTRY_SIZE, PLACE_SIZE, PLACES_END, SPAN};
pub use fault::RelrFault;
pub use moving::move_table;
pub use packing::{is_packable, pack};
pub use unpacking::unpack;
