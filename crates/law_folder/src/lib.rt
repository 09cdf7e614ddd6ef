//! Why no stop of a command leaves an unsound folder, and why what a run that prelinks everything leaves is from scratch.
//!
//! Whatever a crash leaves of a sound folder keeps the rule of prelinked files, whichever rows of its journal are done (Jelínek, "Prelink", on files that are prelinked one by one). The rows of such a run leave the planned files, each name that may be prelinked is prelinked, the rows of every command fit a journal, and BadCache comes of the cache alone.
//!
//! Laws alone, each a clause of a function that does nothing. `C` is the type of a command's causes.
#![tactic(auto)]

mod rows;
mod sound;

pub use rows::{all_gives_next, bad_cache_is_of_the_cache, candidates_are_prelinked, rows_fit};
pub use sound::{
    changes_are_safe, commands_are_steps, commands_stay_sound, images_stay_sound,
    last_stamps_stay_past, originals_stay, others_stay_sound, sound_folders_keep_the_rule,
};
