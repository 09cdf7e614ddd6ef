//! How the words of a file move with the address at which it is loaded, and how they move back.
#![tactic(auto)]

mod kind;
mod object;
mod rows;
mod table;

pub use kind::RowKind;
pub use object::{move_back, move_by, rows_of, tables_lie_in_the_file};
pub use rows::move_rows;
pub use table::{Table, move_table, move_table_back, move_tables, move_tables_back};
