//! All of a list of changes of a folder or, after a crash and a recovery, all or none.
#![tactic(auto)]

mod carrying;
mod change;
mod committing;
pub mod constants;
mod doing;
mod fault;
mod file_name;
mod finishing;
mod laws;
mod names;
mod naming;
mod planning;
mod reading;
mod recovering;
mod row;
mod rows;
mod staging;
mod states;
mod step;
mod taking;
mod typed;
mod writing;

pub use carrying::carry_out;
pub use change::Change;
pub use committing::commit_steps;
pub use doing::do_next;
pub use fault::JournalFault;
pub use file_name::FileName;
pub use finishing::finish_steps;
pub use laws::{
    after_the_start, each_part_stands, never_a_bad_journal, on_a_real_disk,
    runs_beside_a_real_disk, since_the_start,
};
pub use reading::read_journal;
pub use recovering::recover_lent;
pub use row::Row;
pub use rows::are_changes;
pub use staging::stage_changes;
pub use states::{Committed, Settled, Staged, Stopped};
pub use step::Step;
pub use taking::Takes;
pub use typed::recover;
pub use writing::write_journal;
