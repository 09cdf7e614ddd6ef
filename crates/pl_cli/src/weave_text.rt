// The text of a weave.
ghost use Rattle.std.specs.Prelude.{◌≡◌, ◌++◌, IfOk, None, OnOk, length};
ghost use Rattle.pl_place.specs.Policy as policy;
ghost use Rattle.pl_weave.specs.Opening as loaders;
ghost use Rattle.pl_weave.specs.Running.{AreChosen, HavePolicy};
ghost use Rattle.pl_weave.specs.declared.progress.Progress.TheVariants.{Does};
ghost use Rattle.pl_cli.specs.Weave as spec;

use pl_io::NoMemory;
use pl_place::Holes;
use pl_texts::{
    TextSink, add_refusal, add_refused, add_start, batch_cause, done_line, loader_line,
    renames_line, waits_line, wants_line,
};
use pl_weave::{Opening, Progress, Weave, Woven};
use std::alloc::{AllocError, Global};

// ---- loaders

/// Adds what a loader that has finished started from, or why it did not start.
fn add_end<F: Fn(&Holes, u64, u64) -> Option<u64>>(
    alloc: Global,
    loader: &Opening<'_, F>,
    out: &mut TextSink,
) -> Result<(), NoMemory>
    requires may { policy.MayChoose (F.pre loader.now.load.policy) }
    requires chooses { policy.Chooses (F.post loader.now.load.policy) }
    requires finished { loaders.wanted loader.now ≡ None }
    ensures { OnOk result ((choose : policy.Choice) →
        policy.Follows (F.post loader.now.load.policy) choose →
        out.new.text.items ≡ out.old.text.items ++ spec.loader_text choose loader.now) }
{
    match loader.finish(alloc) {
        Ok(started) => add_start(alloc, &started, out),
        Err(fault) => add_refusal(alloc, fault, out),
    }
}

/// Adds the name that a loader wants, or its end.
fn add_loader<F: Fn(&Holes, u64, u64) -> Option<u64>>(
    alloc: Global,
    loader: &Opening<'_, F>,
    out: &mut TextSink,
) -> Result<(), NoMemory>
    requires may { policy.MayChoose (F.pre loader.now.load.policy) }
    requires chooses { policy.Chooses (F.post loader.now.load.policy) }
    ensures { OnOk result ((choose : policy.Choice) →
        policy.Follows (F.post loader.now.load.policy) choose →
        out.new.text.items ≡ out.old.text.items ++ spec.loader_text choose loader.now) }
{
    match loader.wants() {
        Some(name) => {
            let line = wants_line(alloc, name)?;
            out.text.extend_from_slice(line.as_bytes())?;
            Ok(())
        }
        None => add_end(alloc, loader, out),
    }
}

/// Adds all loaders, each with its number.
fn add_loaders<F: Fn(&Holes, u64, u64) -> Option<u64>>(
    alloc: Global,
    weave: &Weave<'_, F>,
    count: u32,
    out: &mut TextSink,
) -> Result<(), NoMemory>
    requires count { length weave.now ≡ count }
    requires chosen { AreChosen F.pre F.post weave.now }
    ensures { OnOk result ((p : F) (choose : policy.Choice) → HavePolicy p weave.now →
        policy.Follows (F.post p) choose →
        out.new.text.items ≡ out.old.text.items ++ spec.loaders_text choose 0 weave.now) }
{
    for number in 0..count {
        let line = loader_line(alloc, number)?;
        out.text.extend_from_slice(line.as_bytes())?;
        add_loader(alloc, weave.loader(number), out)?;
    }
    Ok(())
}

// ---- runs

/// Adds the line of a run some of whose rows are done, or all.
fn add_rows(
    alloc: Global,
    number: usize,
    done: usize,
    rows: usize,
    out: &mut Vec<u8>,
) -> Result<(), AllocError>
    ensures { OnOk result (out.new.items ≡ out.old.items ++ spec.run_line number (Does done rows)) }
{
    let line = if done == rows {
        done_line(alloc, number, rows)?
    } else {
        renames_line(alloc, number, done, rows)?
    };
    out.extend_from_slice(line.as_bytes())
}

/// Adds the line of a run.
fn add_run(alloc: Global, number: usize, run: Progress, out: &mut Vec<u8>) -> Result<(), AllocError>
    ensures { OnOk result (out.new.items ≡ out.old.items ++ spec.run_line number run) }
{
    match run {
        Progress::Waits => {
            let line = waits_line(alloc, number)?;
            out.extend_from_slice(line.as_bytes())
        }
        Progress::Refused(cause) => add_refused(alloc, number, &batch_cause(cause), out),
        Progress::Does { done, rows } => add_rows(alloc, number, done, rows, out),
    }
}

/// Adds the lines of all runs, each with its number.
fn add_runs(alloc: Global, runs: Vec<Progress>, out: &mut Vec<u8>) -> Result<(), AllocError>
    ensures { OnOk result (out.new.items ≡ out.old.items ++ spec.runs_text 0 runs.items) }
{
    let mut number = 0;
    for run in runs {
        add_run(alloc, number, run, out)?;
        number += 1;
    }
    Ok(())
}

// ---- the whole

/// The text of what a weave with so many loaders came to. It fails only for want of memory.
pub fn woven_text<F: Fn(&Holes, u64, u64) -> Option<u64>>(
    alloc: Global,
    woven: Woven<'_, F>,
    count: u32,
) -> Result<Vec<u8>, NoMemory>
    requires count { length woven.weave ≡ count }
    requires chosen { AreChosen F.pre F.post woven.weave }
    ensures { IfOk result (spec.IsWovenText F.post woven.entry.weave woven.entry.runs) }
{
    let Woven { weave, runs } = woven;
    let mut out = TextSink::new(alloc);
    add_loaders(alloc, &weave, count, &mut out)?;
    add_runs(alloc, runs.into_vec(), &mut out.text)?;
    out.text.extend_from_slice(b"weave end\n")?;
    Ok(out.into_text())
}
