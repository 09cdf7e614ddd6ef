//! The cache of a folder: the last stamp that was given, and the slot of each library.
#![tactic(auto)]

mod cache;
pub mod constants;
mod fault;
mod reading;
mod rows;
mod writing;

pub use cache::Cache;
pub use fault::CacheFault;
pub use reading::read_cache;
pub use rows::is_cache;
pub use writing::write_cache;
