ghost use Rattle.std.specs.Prelude.{◌≡◌, map, string_bytes};
ghost use Rattle.pl_cli.specs.Words as spec;

use crate::command::Command;
use pl_batch::Prelinking;
use pl_texts::{Content, Detail};
use pl_words::{AllOptions, WordsFault};
use std::alloc::Global;

/// A run over all files, or what it would do, at a moment.
fn over_all(options: AllOptions, moment: u32) -> Command
    ensures { result ≡ spec.over_all options moment }
{
    let asked = Prelinking {
        region: options.region,
        share: options.share,
        moment,
    };
    let detail = if options.verbose {
        Detail::Full
    } else {
        Detail::Short
    };
    if options.dry {
        Command::Preview { asked, detail }
    } else {
        Command::All { asked, detail }
    }
}

/// A command at a moment.
fn at_moment(command: pl_words::Command, moment: u32) -> Command
    ensures { result ≡ spec.at_moment moment command }
{
    match command {
        pl_words::Command::Load { name, busy, policy } => Command::Load { name, busy, policy },
        pl_words::Command::All(options) => over_all(options, moment),
        pl_words::Command::UndoAll => Command::UndoAll,
        pl_words::Command::Undo { names } => Command::Undo { names },
        pl_words::Command::Install { name } => Command::Store {
            name,
            content: Content::File,
        },
        pl_words::Command::Make { name } => Command::Store {
            name,
            content: Content::Recipe,
        },
        pl_words::Command::Remove { name } => Command::Remove { name },
        pl_words::Command::Fix { name, policy } => Command::Fix { name, policy },
        pl_words::Command::Unfix { name } => Command::Unfix { name },
        pl_words::Command::Verify { name } => Command::Verify { name },
        pl_words::Command::Print => Command::Print,
        pl_words::Command::Weave => Command::Weave,
        pl_words::Command::Order { name, verbose } => {
            let detail = if verbose { Detail::Full } else { Detail::Short };
            Command::Order { name, detail }
        }
        pl_words::Command::Demo { number } => Command::Demo { number },
    }
}

/// What the words ask for at a moment, in seconds since 1970.
#[tactic(auto, unfolding(crate::specs::Words::command))]
pub fn read_words(alloc: Global, words: &[String], moment: u32) -> Result<Command, WordsFault>
    ensures { spec.Reads (spec.command moment (map string_bytes words.now)) result }
{
    let command = pl_words::read_words(alloc, words)?;
    Ok(at_moment(command, moment))
}
