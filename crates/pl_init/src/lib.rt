//! The order in which the objects of a walk are initialised, with a certificate: which member reaches which (System V gABI, chapter 5, "Initialization and Termination Functions").
#![tactic(auto)]

mod certificate;
mod flags;
mod graph;
mod laws;
mod names;
mod ordering;
mod orders;
mod reaching;
mod relation;
mod rightness;
mod table;
mod text;

pub use certificate::{reach, right};
pub use laws::{printed_order_is_the_earliest, rows_are_the_relation};
pub use orders::{check, order};
pub use relation::{Reach, ReachRow};
pub use text::{full_text, order_text, short_text};
