// The lines of the text of a weave.
ghost use Rattle.std.specs.Prelude.{◌≡◌, ◌++◌, IfOk, OnOk, false, string_bytes};
ghost use Rattle.pl_loader.specs.Faults.{is_memory};
ghost use Rattle.pl_texts.specs.LoadText.{load_text, start_of};
ghost use Rattle.pl_texts.specs.Refusals as refusals;
ghost use Rattle.pl_texts.specs.WeaveText as spec;
ghost use Rattle.pl_texts.specs.declared.cause.Cause.TheVariants as causes;

use crate::cause::Cause;
use crate::refusals::{cause_text, refusal};
use crate::text_sink::TextSink;
use crate::write::write_start;
use pl_io::NoMemory;
use pl_loader::{LoadFault, Started};
use std::alloc::{AllocError, Global};

/// The line before the text of the loader of a number.
#[tactic(auto, unfolding(crate::specs::WeaveText::loader_line))]
pub fn loader_line(alloc: Global, number: u32) -> Result<String, AllocError>
    ensures { IfOk result (λ text. string_bytes text ≡ spec.loader_line number) }
{
    format!(in alloc; "loader {number}\n")
}

/// The line of a loader that waits for the file of a name.
#[tactic(auto, unfolding(crate::specs::WeaveText::wants_line))]
pub fn wants_line(alloc: Global, name: &str) -> Result<String, AllocError>
    ensures { IfOk result (λ text. string_bytes text ≡ spec.wants_line name.now) }
{
    format!(in alloc; "wants {name}\n")
}

/// Adds the text of a start. It fails only for want of memory.
pub fn add_start(alloc: Global, started: &Started<'_>, out: &mut TextSink) -> Result<(), NoMemory>
    ensures { OnOk result (out.new.text.items ≡
        out.old.text.items ++ load_text (start_of started.now)) }
{
    match write_start(alloc, started, out) {
        Ok(()) => Ok(()),
        Err(_) => Err(NoMemory),
    }
}

/// Adds the line of why a load did not start. A want of memory has none.
pub fn add_refusal(alloc: Global, fault: LoadFault, out: &mut TextSink) -> Result<(), NoMemory>
    ensures lacks { OnOk result (is_memory fault ≡ false) }
    ensures line { OnOk result (out.new.text.items ≡
        out.old.text.items ++ refusals.refusal (causes.Load fault)) }
{
    if let LoadFault::NoMemory = fault {
        return Err(NoMemory);
    }
    let line = refusal(alloc, &Cause::Load(fault))?;
    out.text.extend_from_slice(&line)?;
    Ok(())
}

/// The line of the run of a number that has not begun.
#[tactic(auto, unfolding(crate::specs::WeaveText::waits_line))]
pub fn waits_line(alloc: Global, number: usize) -> Result<String, AllocError>
    ensures { IfOk result (λ text. string_bytes text ≡ spec.waits_line number) }
{
    format!(in alloc; "run {number} waits\n")
}

/// The line of the run of a number all of whose rows are done, so many.
#[tactic(auto, unfolding(crate::specs::WeaveText::done_line))]
pub fn done_line(alloc: Global, number: usize, rows: usize) -> Result<String, AllocError>
    ensures { IfOk result (λ text. string_bytes text ≡ spec.done_line number rows) }
{
    format!(in alloc; "run {number} done {rows}\n")
}

/// The line of the run of a number some of whose rows are done, so many of so many.
#[tactic(auto, unfolding(crate::specs::WeaveText::renames_line))]
pub fn renames_line(
    alloc: Global,
    number: usize,
    done: usize,
    rows: usize,
) -> Result<String, AllocError>
    ensures { IfOk result (λ text. string_bytes text ≡ spec.renames_line number done rows) }
{
    format!(in alloc; "run {number} renames {done} of {rows}\n")
}

/// Adds the line of a run that was refused.
#[tactic(auto, unfolding(crate::specs::WeaveText::refused_line))]
pub fn add_refused(
    alloc: Global,
    number: usize,
    cause: &Cause,
    out: &mut Vec<u8>,
) -> Result<(), AllocError>
    ensures { OnOk result (out.new.items ≡ out.old.items ++ spec.refused_line number cause.now) }
{
    let start = format!(in alloc; "run {number} refused ")?;
    let text = cause_text(alloc, cause)?;
    out.extend_from_slice(start.as_bytes())?;
    out.extend_from_slice(&text)?;
    out.extend_from_slice(b"\n")
}
