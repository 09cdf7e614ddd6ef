//! The header, the program header table and the section header table of an ELF-64 file (System V gABI, chapters 4 and 5), and the first eight acceptance clauses.
#![tactic(auto)]

mod clauses;
pub mod constants;
mod extent;
mod fault;
mod header;
mod kind;
mod kinds;
mod overlaps;
mod range;
mod read;
mod section;
mod section_table;
mod segment;
mod segments;
mod write;

pub use clauses::{has_dynamic, is_static_file};
pub use fault::HeaderFault;
pub use header::{Header, header_fields};
pub use kind::Kind;
pub use kinds::{count_of_kind, is_moved_kind, loads, segment_of_kind};
pub use range::Range;
pub use read::read_header;
pub use section::{Section, read_section, read_sections};
pub use section_table::section_data;
pub use segment::{Segment, read_segment, read_segments};
pub use write::{write_header, write_section, write_segment};
