//! The words of a command line, the command that they ask for, and how a command ends, with its exit code.
#![tactic(auto)]

mod command;
mod fault;
mod found;
mod line;
mod numbers;
mod status;
mod table;
mod values;
mod words;

pub use command::{AllOptions, Command, Policy};
pub use fault::WordsFault;
pub use numbers::{decimal, range};
pub use status::Status;
pub use values::{REGION, policy_in};
pub use words::read_words;
