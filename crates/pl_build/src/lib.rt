//! Small ELF files from recipes: a recipe is some lines of text, and `build` gives the program or library that they describe.
#![tactic(auto)]

mod builder;
mod checks;
mod choices;
mod constants;
mod data;
mod dynamic;
mod fault;
mod fields;
mod file;
mod grammar;
mod hash_tables;
mod indexed_plan;
mod kind;
mod layout;
mod layout_plan;
mod line;
mod names;
mod needed;
mod packed;
mod packed_index;
mod recipe;
pub mod recipes;
mod relocation_lines;
mod relocations;
mod roles;
mod sections;
mod segments;
mod string_table;
mod symbol_lines;
mod symbol_table;
mod symbols;
mod text_index;
mod versions;
mod words;

pub use builder::build;
pub use fault::RecipeFault;
