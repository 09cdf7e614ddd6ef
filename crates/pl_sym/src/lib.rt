//! The symbol table of an ELF-64 file (System V gABI, chapter 4, "Symbol Table"), and which symbols define a name for others.
#![tactic(auto)]

mod class;
pub mod constants;
mod definers;
mod fault;
mod name;
mod string_ends;
mod symbol;
mod table;

pub use class::Class;
pub use definers::is_definer;
pub use fault::SymFault;
pub use name::Name;
pub use symbol::Symbol;
pub use table::read_symbols;
