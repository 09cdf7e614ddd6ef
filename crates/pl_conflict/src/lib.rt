//! What prelinking asks of look-ups: the own words of a library, the conflict rows of a program, and the laws that prelinked files are forms and that these rows over them make the image of the originals (Jelínek, "Prelink").
#![tactic(auto)]

mod file_words;
mod law;
mod own;
mod rows;

pub use file_words::word_held;
pub use law::{
    conflicts_are_complete, fast_images_are_ordinary, fast_is_ordinary, format_is_kept,
    forms_hold_words, prelinked_are_forms,
};
pub use own::{own_words, own_words_by};
pub use rows::conflicts;
