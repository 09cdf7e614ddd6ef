//! Scripts of weaves: lines that name loads, runs and the order of their steps, and the first line that is wrong.
#![tactic(auto)]

mod fault;
mod grammar;
mod limits;
mod line;
mod lines;
mod number;
mod script;

pub use fault::ScriptFault;
pub use line::RunLine;
pub use script::{Event, Script, read_script};

/// The most bytes of a script: 1 MiB.
pub const SCRIPT: usize = 1_048_576;

/// The most loaders of a script.
pub const MAX_LOADERS: usize = 64;

/// The most runs of a script.
pub const MAX_RUNS: usize = 16;
