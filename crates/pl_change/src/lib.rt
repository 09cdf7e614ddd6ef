//! What a command makes of single files of a folder: it recovers the folder, stores, removes, undoes, fixes or copies files, and makes the changes by the journal, all or none.
#![tactic(auto)]

mod cache;
mod cause;
mod changes;
mod commands;
mod copying;
mod fault;
mod fixing;
mod laws;
mod lending;
mod lent;
mod looked;
mod order;
mod room;
mod starting;
mod storing;
mod taking;
mod undoing;

pub use cache::{CACHE, cache_file, cache_in};
pub use cause::Cause;
pub use changes::fitting;
pub use copying::copy_files;
pub use fault::BatchFault;
pub use laws::{commands_go_on, stands_for_files};
pub use lending::{fix_file, recover_for, remove, unfix_file};
pub use lent::Lent;
pub use order::ascend;
pub use room::{FILES, FOLDER, are_many};
pub use starting::{start, start_for};
pub use storing::installed;
pub use taking::{list, take};
pub use undoing::{all_undone, undone};
