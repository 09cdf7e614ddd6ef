//! The top call: words, a folder, an input and an output.
#![tactic(auto)]

mod all;
mod change;
mod chosen;
mod command;
mod demo;
mod fix;
mod given;
mod laws;
mod load;
mod script;
mod store;
mod top;
mod verify;
mod weave;
mod weave_text;
mod words;

pub use laws::{causes_tell, replacements_tell, reports_tell};
pub use pl_words::Status;
pub use top::run;
