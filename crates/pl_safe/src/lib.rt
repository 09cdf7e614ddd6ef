//! From a sound folder every run leaves a sound one, wherever it is stopped, and `--load` and the loaders of `--weave` answer as if they linked the originals.
//!
//! Laws, each a clause of a function that does nothing, over the contract of pl_cli's `run`, and that call again with them as its clauses. They are of folders that tell their disk, and what they say of loads, originals and of what is read is of all that tell their files. Those of the texts of `--load` and `--weave` are of all files that keep the rule of prelinked files; the parameter of one is the type of the faults by which the rule is told.
#![tactic(auto)]

mod law;
mod top;

pub use law::{
    answers_are_ordinary, every_run_is_safe, others_keep_originals, runs_keep_stamps_past,
    runs_on_real_disks, runs_prelink_from_scratch, runs_read_as_safe, sound_loads_are_ordinary,
    sound_weaves_are_ordinary, verified_are_sound, weaves_print_ordinary_loads,
};
pub use top::run;
