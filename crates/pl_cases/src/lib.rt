//! Cases of tests as text, a line for each: the parts of a line, and numbers and bytes in hexadecimal.
#![tactic(auto)]

mod digits;
mod line;

pub use digits::{bytes_of, number, numbers, numbers32};
pub use line::parts;
