//! The texts that commands print: why a command is refused, the report of a run, what a load starts from, the cache, and the lines of the commands that write, of weaves and of `--demo`. Each text is a definition, which the function beside it gives; it fails only for want of memory, unless its comment says otherwise.
//!
//! And what needs no run: why a command stops, one file of a folder, and the texts of `--order` and `-p`.
#![tactic(auto)]

mod cache_text;
mod cause;
mod content;
mod demo_text;
mod detail;
mod fixed;
mod head;
mod named_object;
mod ordering;
mod printing;
mod refusals;
mod report;
mod stop;
mod symbol_text;
mod taking;
mod text;
mod text_sink;
mod undone;
mod walk;
mod weave_text;
mod write;
mod write_stop;

pub use cache_text::{no_cache_text, spelled_text};
pub use cause::Cause;
pub use content::Content;
pub use demo_text::{digest_line, push_count};
pub use detail::Detail;
pub use fixed::fixed_line;
pub use ordering::order;
pub use pl_rewrite::Report;
pub use printing::print;
pub use refusals::refusal;
pub use report::report_text;
pub use stop::{Stop, batch_cause};
pub use taking::take;
pub use text::{DIFFERS, USAGE, removed_text, stored_text, unfixed_text};
pub use text_sink::TextSink;
pub use undone::undone_line;
pub use weave_text::{
    add_refusal, add_refused, add_start, done_line, loader_line, renames_line, waits_line,
    wants_line,
};
pub use write::write_start;
pub use write_stop::WriteStop;
