//! The set of files that a number draws, made in a folder of its own in memory and prelinked there.
#![tactic(auto)]

mod counting;
mod laws;
mod making;
mod prelinking;
mod set;

pub use counting::Counts;
pub use laws::sets_are_drawn;
pub use set::{DemoFolder, demo_folder};
