//! A weave: loaders that open one file an event, and runs that do one row an event.
ghost use Rattle.std.specs.Prelude.{◌≡◌, ◌<◌, true, length, map, IfOk, OnOk};
ghost use Rattle.std.specs.FinMap.{get};
ghost use Rattle.std.specs.List.{list_all};
ghost use Rattle.pl_base.specs.Files.{Files, files_of};
ghost use Rattle.pl_change.specs.Copied.{IsCopy};
ghost use Rattle.pl_journal.specs.Meaning.{Agree};
ghost use Rattle.pl_place.specs.Policy as policy;
ghost use Rattle.pl_script.specs.Script.{is_of};
ghost use Rattle.pl_loader.specs.Given.{MayPlace};
ghost use Rattle.pl_weave.specs.Running as spec;
ghost use Rattle.pl_weave.specs.Running.{files_in};
ghost use Rattle.pl_weave.specs.Weaving as weaving;

use crate::running::Running;
use crate::{Progress, Weave, WeaveFault};
use pl_base::{Rows, Text};
use pl_batch::Run;
use pl_folder::QuietFolder;
use pl_io::NoMemory;
use pl_place::{Holes, Placer};
use pl_script::Event;
use pl_stage::Held;
use std::alloc::Global;

/// What a weave came to: its loaders, and how far each of its runs came.
#[derive(Drop)]
pub struct Woven<'p, F> {
    pub weave: Weave<'p, F>,
    pub runs: Rows<Progress>,
}

/// A loader opens the one file that it wants, as the folder holds it at this moment. No file is longer than a folder gives.
#[tactic(auto, using(crate::proofs::QuietLemmas::never_broken, crate::proofs::WeavingLemmas::never_large))]
fn open<F: Fn(&Holes, u64, u64) -> Option<u64>>(
    alloc: Global,
    weave: &mut Weave<'_, F>,
    held: &mut Held<QuietFolder>,
    loader: u32,
) -> Result<(), NoMemory>
    requires below { loader < length weave.old }
    requires chosen { spec.AreChosen F.pre F.post weave.old }
    requires stored { spec.AreStored (files_in held.old) }
    ensures opens { OnOk result ((files : Files) (p : F) (choose : policy.Choice) →
        Agree (get (files_in held.old)) (get files) → spec.HavePolicy p weave.old →
        policy.Follows (F.post p) choose →
        map spec.plain weave.new ≡ weaving.opened_at choose files loader
        (map spec.plain weave.old)) }
    ensures same { OnOk result (files_in held.new ≡ files_in held.old) }
    ensures policies { OnOk result (spec.policies weave.new ≡ spec.policies weave.old) }
{
    if weave.loader(loader).wants().is_none() {
        return Ok(());
    }
    match weave.open(alloc, loader, held) {
        Ok(()) => Ok(()),
        Err(WeaveFault::NoMemory) => Err(NoMemory),
        Err(WeaveFault::Failed) => unreachable!(),
        Err(WeaveFault::TooLarge) => unreachable!(),
    }
}

/// One event: a loader opens a file, or the run under way does its next row.
fn step<F: Fn(&Holes, u64, u64) -> Option<u64>>(
    alloc: Global,
    weave: &mut Weave<'_, F>,
    running: &mut Running<'_>,
    event: Event,
) -> Result<(), NoMemory>
    requires of { is_of (length weave.old) event ≡ true }
    requires chosen { spec.AreChosen F.pre F.post weave.old }
    requires goes { spec.GoesOn running.old }
    ensures woven { OnOk result ((w : policy.Choice → weaving.Weaving) (p : F) →
        spec.HavePolicy p weave.old → spec.IsWeaving (F.post p) weave.old running.old w →
        spec.IsWeaving (F.post p) weave.new running.new
        (λ choose. weaving.after choose (w choose) event)) }
    ensures policies { OnOk result (spec.policies weave.new ≡ spec.policies weave.old) }
{
    match event {
        Event::Open { loader } => open(alloc, weave, &mut running.held, loader)?,
        Event::Rename => running.rename(alloc)?,
    }
    Ok(())
}

/// The weave of files, of loaders of these names and of these runs, after these events: each loader with the files that it saw, and how far each run came.
///
/// The files are those of a copy of a folder. Each name has 1 to 255 bytes and one file, at most `pl_folder::STORED` bytes where the name is valid, and none is of the journal's own. Bytes that are installed are at most so many. Each event that opens a file is of one of the loaders. It fails only for want of memory.
pub fn interleave<'p, F: Fn(&Holes, u64, u64) -> Option<u64>>(
    alloc: Global,
    files: &[(String, Vec<u8>)],
    names: &[Text],
    runs: &[Run],
    events: &[Event],
    placer: &'p Placer<F>,
) -> Result<Woven<'p, F>, NoMemory>
    requires copy { IsCopy files.now }
    requires runs { spec.AreRuns runs.now }
    requires events { list_all (is_of (length names.now)) events.now ≡ true }
    requires policy { MayPlace F.pre F.post placer.now }
    // Where the policy follows a function, it is the weave by that function.
    ensures woven { IfOk result (λ w. spec.IsWoven (F.post placer.entry.now) w
        (λ choose. weaving.woven choose (files_of files.now) names.now runs.now events.now)) }
    ensures policies { IfOk result (λ w.
        spec.policies w.weave ≡ map (λ name. placer.entry.now) names.now) }
{
    let folder = QuietFolder::new(alloc, files)?;
    let mut weave = Weave::new(alloc, names, placer)?;
    let mut running = Running::new(alloc, folder, runs)?;
    for event in events {
        step(alloc, &mut weave, &mut running, *event)?;
    }
    let runs = running.progress()?;
    Ok(Woven { weave, runs })
}
