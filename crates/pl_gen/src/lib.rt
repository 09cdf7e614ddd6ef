//! A set of small programs and libraries that a number draws: the recipe of each, under its name.
#![tactic(auto)]

mod draws;
mod lines;
mod recipes;
mod relocation_kind;
mod relocations;
mod set;

pub use set::{DemoFile, demo_set};
