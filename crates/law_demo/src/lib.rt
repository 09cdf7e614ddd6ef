//! Why for every number the set of `--demo` is prelinked and every load of it is fast.
//!
//! Of the files that recipes describe: they are read, accepted and made. Of folders of such files: a run can prelink each name, where the libraries need one another alone. Of the run of `--demo`: it is not refused. Of loads: a program that a run prelinked starts from the prelinked files as they stand, where its libraries' slots are free.
//!
//! Laws alone, each a clause of a function that does nothing. The parameter is the type of the causes by which a walk or the rule of prelinked files is told.
#![tactic(auto)]

mod accepted;
mod bounded;
mod candidates;
mod closed;
mod described;
mod fast;
mod files;
mod folder;
mod forms;
mod gnu;
mod links;
mod recipes;
mod relocs;
mod set_files;
mod tables;

pub use accepted::plain_is_accepted;
pub use bounded::bounded_is_made;
pub use candidates::{files_are_known, names_are_candidates};
pub use closed::roots_walk_within;
pub use described::described_objects_are_settled;
pub use fast::{
    demo_loads_are_fast, demo_text_is_drawn, matched_loads_are_fast, prelinked_loads_are_fast,
};
pub use files::{
    dynamic_is_read, heads_are_read, name_lines_are_read, rel_lines_are_read, roles_stand,
    rows_are_read, symbol_table_is_read, sysv_is_whole, tables_are_loaded, tables_stand,
    texts_are_found, words_are_read,
};
pub use folder::{demos_are_ready, small_folders_are_taken};
pub use forms::{plain_files_are_bare, roomy_objects_have_no_fault};
pub use gnu::gnu_is_whole;
pub use links::settled_scopes_link;
pub use recipes::{set_is_built, set_is_named, set_is_read, set_is_spelled};
pub use relocs::{relocs_are_read, relocs_are_taken};
pub use set_files::sets_are_ready;
pub use tables::tables_are_taken;
