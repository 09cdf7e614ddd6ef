//! What a command makes of all files of a folder that it prelinks, or of those that it verifies; and each run of changes, all or none.
#![tactic(auto)]

mod all;
mod changes;
mod commands;
mod lending;
mod prelinking;
mod reading;
mod run;
mod verifying;

pub use all::preview_all;
pub use changes::changes_of;
pub use lending::{do_run, prelink_all};
pub use prelinking::Prelinking;
pub use run::Run;
pub use verifying::verify;
