//! The dynamic table of an ELF-64 file: its tags, or the first fault of its entries (System V gABI, chapter 5, "Dynamic Section").
#![tactic(auto)]

pub mod constants;
mod dynamic;
mod entries;
mod fault;
mod kinds;
mod lookup;
mod read;
mod tags;

pub use dynamic::Dynamic;
pub use entries::{entry, is_ended, read_tags};
pub use fault::DynFault;
pub use kinds::{is_address_tag, is_listed, is_prelink_tag, is_value_tag};
pub use lookup::{tag, value_of};
pub use read::read_dynamic;
pub use tags::Tag;
