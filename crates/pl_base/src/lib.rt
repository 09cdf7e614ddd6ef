//! The words that several crates speak of, in `specs/`, with their laws; numbers in bytes, numbers as text, the strings of a string table, names of files, and small list types that contracts see as lists.
#![tactic(auto)]

mod digits;
mod list;
mod names;
mod numbers;
mod strings;
mod sums;
mod text;

pub use digits::hex_digit;
pub use list::Rows;
pub use names::{MAX_NAME, SEPARATOR, has_name_length, is_own_name, is_valid_name, valid_text};
pub use numbers::{part, push32, push64, put16, put32, put64, word16, word32, word64};
pub use strings::{Strings, string_at};
pub use sums::{end, is_aligned, round_down, round_up, round_up_wide};
pub use text::Text;
