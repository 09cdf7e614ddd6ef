ghost use Rattle.std.specs.Prelude.{map, string_bytes};
ghost use Rattle.pl_base.specs.Answers.{Answers};
ghost use Rattle.pl_words.specs.Line.{is_memory};
ghost use Rattle.pl_words.specs.Table as spec;

use crate::line::parsed;
use crate::table::command;
use crate::{Command, WordsFault};
use std::alloc::Global;

/// The command that the words of a command line are, without the program's name.
///
/// Usage comes exactly where the words are in no row of the table of commands: where `clap` refuses them, also for a repeated option or a call for help; where they give another set of options, flags and names than a row has; or where a range, a number or a policy is not of its form.
#[tactic(auto, unfolding(crate::specs::Table::read))]
pub fn read_words(alloc: Global, words: &[String]) -> Result<Command, WordsFault>
    ensures { Answers is_memory result (spec.read (map string_bytes words.now)) }
{
    let matches = parsed(alloc, words)?;
    command(alloc, &matches)
}
