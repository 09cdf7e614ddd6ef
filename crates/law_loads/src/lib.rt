//! Why every load is ordinary, at rest and during runs: over a folder that keeps the rule of prelinked files at the loaded name, the two paths of a load, from prelinked files as they stand and from their originals, linked, are one (Jelínek, "Prelink", on starting a prelinked program); and whatever the events of a weave are, the files that its loaders saw are of one history of runs and edits.
//!
//! Laws alone, each a clause of a function that does nothing. Their parameters are the type of a load's faults, and that of the faults by which the rule is told.
#![tactic(auto)]

mod paths;
mod weaves;

pub use paths::{loads_are_ordinary, loads_over_histories_are_ordinary, paths_are_one};
pub use weaves::{copies_keep, weaves_are_ordinary, woven_have_a_history};
