// A script and the text that spells it.
ghost use Rattle.std.specs.Prelude.{◌≡◌, ◌++◌, IfOk};
ghost use Rattle.pl_base.specs.Answers.{Answers};
ghost use Rattle.pl_script.specs.Script as spec;

use crate::ScriptFault;
use crate::grammar::copies_of;
use crate::limits::first_wrong;
use crate::line::{Line, RunLine};
use crate::lines::lines;
use pl_base::{Rows, Text};
use std::alloc::{AllocError, Global};

/// A step of a weave.
#[derive(Clone, Copy)]
pub enum Event {
    /// The loader of this number opens the file that it wants.
    Open { loader: u32 },

    /// The run under way does its next rename.
    Rename,
}

/// What a script asks for: the programs of its loaders, numbered from 0, its runs, numbered from 0, and the events.
#[derive(Drop)]
pub struct Script {
    pub loads: Rows<Text>,
    pub runs: Rows<RunLine>,
    pub events: Rows<Event>,
}

fn copy_run(alloc: Global, run: &RunLine) -> Result<RunLine, AllocError>
    ensures { IfOk result (λ copy. copy ≡ run.now) }
{
    match run {
        RunLine::Prelink { now } => Ok(RunLine::Prelink { now: *now }),
        RunLine::UndoAll => Ok(RunLine::UndoAll),
        RunLine::Undo { names } => Ok(RunLine::Undo {
            names: copies_of(alloc, names.as_slice())?,
        }),
        RunLine::Install { name, from } => Ok(RunLine::Install {
            name: Text::copy_of(alloc, name.as_str())?,
            from: Text::copy_of(alloc, from.as_str())?,
        }),
    }
}

/// A script with one line more.
fn add(alloc: Global, script: Script, line: &Line) -> Result<Script, AllocError>
    ensures loads { IfOk result (λ s. s.loads ≡ script.loads ++ spec.loads_of line.now) }
    ensures runs { IfOk result (λ s. s.runs ≡ script.runs ++ spec.runs_of line.now) }
    ensures events { IfOk result (λ s. s.events ≡ script.events ++ spec.events_of line.now) }
{
    let mut script = script;
    match line {
        Line::Wrong => Ok(script),
        Line::Load { name } => {
            script.loads.push(Text::copy_of(alloc, name.as_str())?)?;
            Ok(script)
        }
        Line::Runs(run) => {
            script.runs.push(copy_run(alloc, run)?)?;
            Ok(script)
        }
        Line::Open { loader } => {
            script.events.push(Event::Open { loader: *loader })?;
            Ok(script)
        }
        Line::Rename => {
            script.events.push(Event::Rename)?;
            Ok(script)
        }
    }
}

/// What lines ask for.
#[tactic(auto, unfolding(crate::specs::Script::gathered))]
fn gather(alloc: Global, lines: &[Line]) -> Result<Script, AllocError>
    ensures { IfOk result (λ script. script ≡ spec.gathered lines.now) }
{
    let mut script = Script {
        loads: Rows::new(alloc),
        runs: Rows::new(alloc),
        events: Rows::new(alloc),
    };
    for line in lines {
        script = add(alloc, script, line)?;
    }
    Ok(script)
}

/// What lines ask for, or the first that is wrong.
#[tactic(auto, unfolding(crate::specs::Script::script_of))]
fn script_of(alloc: Global, lines: &[Line]) -> Result<Script, ScriptFault>
    ensures { Answers spec.is_memory result (spec.script_of lines.now) }
{
    if let Some(index) = first_wrong(lines) {
        return Err(ScriptFault::Wrong {
            line: index as u64 + 1,
        });
    }
    Ok(gather(alloc, lines)?)
}

/// The script that a text spells.
///
/// A script is lines of words, each ended by a newline, which the last line may lack; the words are valid names, parted by single spaces. `load NAME` makes a loader, at most `MAX_LOADERS`. `prelink NOW`, `undo`, `undo NAME..` and `install NAME FROM` ask for a run, at most `MAX_RUNS`. `open K` and `rename` are events. NOW and K are decimal numbers below 2^32, with no `0` before another digit.
/// `Wrong` tells the first line that is outside the grammar, past a limit, or names a loader that no line of the script makes; an empty line is outside the grammar.
#[tactic(auto, unfolding(crate::specs::Script::script))]
pub fn read_script(alloc: Global, text: &[u8]) -> Result<Script, ScriptFault>
    ensures answer { Answers spec.is_memory result (spec.script text.now) }
    ensures fine { IfOk result spec.IsScript }
{
    let lines = lines(alloc, text)?;
    script_of(alloc, lines.as_slice())
}
