// The script of a weave.
ghost use Rattle.std.specs.Prelude.{IfOk};
ghost use Rattle.pl_script.specs.Script.{IsScript};
ghost use Rattle.pl_cli.specs.Came.{HasScript};

use pl_io::{Source, read_all};
use pl_script::{SCRIPT, Script, read_script};
use pl_texts::Stop;
use std::alloc::Global;

/// The script that an input is, or the first cause why it is none.
#[tactic(auto, unfolding(crate::specs::Weave::script_in))]
pub fn script<S: Source>(alloc: Global, input: &mut S) -> Result<Script, Stop>
    ensures script { HasScript result (S.seen input.old) (S.seen input.new) }
    ensures fine { IfOk result IsScript }
{
    let text = read_all(alloc, input, SCRIPT)?;
    Ok(read_script(alloc, &text)?)
}
