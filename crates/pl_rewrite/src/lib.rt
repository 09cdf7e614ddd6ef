//! What a run that prelinks everything makes of the files of a folder, by the table of the run and its plan (Jelínek, "Prelink"): the outcome of each row, which is the prelinked file that the members of a walk give its first name, in either version of the undo section, or why they give none; from these the rows of the journal, the cache that the run leaves and its report; and whether a file is the prelinked one of given originals.
//!
//! The laws say why a folder stays sound over runs and edits.
#![tactic(auto)]

mod apart;
mod conflict;
mod copies;
mod laws;
mod library;
mod numbers;
mod outcomes;
mod own_words;
mod program;
mod ranges;
mod rewriting;
mod row_words;
mod verifying;

pub use laws::{
    histories_keep_the_rule, mixtures_keep_the_rule, names_stay, next_is_from_scratch,
    originals_stay, rows_make_the_files, runs_are_steps, stamps_name_files, verified_keep_the_rule,
};
pub use pl_cone::{Asked, PlanningFault, Skip, Taken, take_file};
pub use rewriting::{Report, ReportRow, Rewritten, RowState, rewrite};
pub use verifying::{is_verified, verified_original};
