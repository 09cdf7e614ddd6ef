//! Accepted objects: a file taken apart, or the first acceptance clause that refuses it.
#![tactic(auto)]

mod acceptance;
pub mod constants;
mod contents;
mod crossing;
mod file_part;
mod headers;
mod keys;
mod layout;
mod linking;
mod loads;
mod named;
mod names;
mod names_read;
mod object;
mod overlaps;
mod parts;
mod place_clauses;
mod ranges;
mod refusal;
mod reloc;
mod relocations;
mod repeats;
mod symbol_clauses;
mod table_clauses;
pub mod tables;
pub mod tags;
mod twins;
mod version_places;
mod window;

pub use acceptance::accept;
pub use constants::ORIGINAL;
pub use file_part::{file_window, in_file_part, loaded};
pub use named::{
    dynamic_of, jmprel_of, packed_of, range_window, rela_of, strings_of, symbols_of, symtabs_of,
};
pub use names::read_needed;
pub use object::Object;
pub use overlaps::any_share;
pub use place_clauses::{is_in_segment, last_load};
pub use ranges::ranges_of;
pub use refusal::Refusal;
pub use reloc::Reloc;
pub use relocations::{place, places, raw_width, relocs};
pub use twins::version_name;
pub use window::Window;
