// Loads that open their files during runs, in a copy of the folder.
ghost use Rattle.std.specs.Prelude.{◌≡◌, ◌≤◌, All, IfOk, length};
ghost use Rattle.std.specs.FinMap.{get};
ghost use Rattle.pl_base.specs.Files.{files_of};
ghost use Rattle.pl_batch.specs.Changes.{IsRun};
ghost use Rattle.pl_change.specs.Copied.{IsCopy};
ghost use Rattle.pl_folder.specs.declared.TheConstants.{STORED};
ghost use Rattle.pl_place.specs.Policy as policy;
ghost use Rattle.pl_script.specs.Script.{IsScript};
ghost use Rattle.pl_weave.specs.Running.{AreRuns};
ghost use Rattle.pl_cli.specs.Came.{HasWoven};
ghost use Rattle.pl_texts.specs.Stops.{MeansAlone, items_of};
ghost use Rattle.pl_cli.specs.Weave as spec;

use crate::script::script;
use crate::weave_text::woven_text;
use pl_base::{Rows, Text};
use pl_batch::{Prelinking, Run};
use pl_change::copy_files;
use pl_folder::Folder;
use pl_io::{NoMemory, Source};
use pl_loader::LoadFault;
use pl_place::{Holes, Placer, lowest};
use pl_script::{RunLine, Script};
use pl_texts::Stop;
use pl_weave::interleave;
use pl_words::REGION;
use std::alloc::{AllocError, Global};

/// The file of a name, copied, or that there is none.
fn file_of(alloc: Global, files: &[(String, Vec<u8>)], name: &str) -> Result<Rows<u8>, Stop>
    requires { All (λ file. length file.1.items ≤ STORED) files.now }
    ensures means { MeansAlone (spec.start_file name.now (get (files_of files.now) name.now))
        result }
    ensures size { IfOk result (λ bytes. length bytes ≤ STORED) }
{
    for file in files {
        if file.0.as_str() == name {
            return Ok(Rows::from_vec(Vec::from_slice(alloc, &file.1)?));
        }
    }
    Err(Stop::from(LoadFault::NotThere(Text::copy_of(alloc, name)?)))
}

fn copies_of(alloc: Global, names: &[Text]) -> Result<Rows<Text>, AllocError>
    ensures { IfOk result (λ copies. copies ≡ names.now) }
{
    let mut copies = Rows::new(alloc);
    for name in names {
        copies.push(Text::copy_of(alloc, name.as_str())?)?;
    }
    Ok(copies)
}

/// A run that a script asks for.
fn run_of(alloc: Global, files: &[(String, Vec<u8>)], asked: &RunLine) -> Result<Run, Stop>
    requires { All (λ file. length file.1.items ≤ STORED) files.now }
    ensures means { MeansAlone (spec.run_of (files_of files.now) asked.now) result }
    ensures is { IfOk result IsRun }
{
    match asked {
        RunLine::Prelink { now } => Ok(Run::All(Prelinking {
            region: REGION,
            share: false,
            moment: *now,
        })),
        RunLine::UndoAll => Ok(Run::UndoAll),
        RunLine::Undo { names } => Ok(Run::Undo {
            names: copies_of(alloc, names.as_slice())?,
        }),
        RunLine::Install { name, from } => Ok(Run::Install {
            name: Text::copy_of(alloc, name.as_str())?,
            bytes: file_of(alloc, files, from.as_str())?,
        }),
    }
}

/// The runs that a script asks for, or that a file which is to be installed is not there.
fn runs_of(alloc: Global, files: &[(String, Vec<u8>)], asked: &[RunLine]) -> Result<Rows<Run>, Stop>
    requires { All (λ file. length file.1.items ≤ STORED) files.now }
    ensures means { MeansAlone (spec.runs_of (files_of files.now) asked.now) result }
    ensures are { IfOk result AreRuns }
{
    let mut runs = Rows::new(alloc);
    for run in asked {
        runs.push(run_of(alloc, files, run)?)?;
    }
    Ok(runs)
}

/// The text of the weave of a script and its runs over files, with libraries where a placer says. It fails only for want of memory.
fn weave_placed<F: Fn(&Holes, u64, u64) -> Option<u64>>(
    alloc: Global,
    script: &Script,
    runs: &[Run],
    files: &[(String, Vec<u8>)],
    placer: &Placer<F>,
) -> Result<Vec<u8>, NoMemory>
    requires can { spec.CanWeave script.now runs.now files.now }
    requires may { policy.MayChoose (F.pre placer.now) }
    requires chooses { policy.Chooses (F.post placer.now) }
    ensures { IfOk result (λ text. (choose : policy.Choice) →
        policy.Follows (F.post placer.now) choose →
        text.items ≡ spec.text_by choose script.now runs.now (files_of files.now)) }
{
    let loads = script.loads.as_slice();
    let events = script.events.as_slice();
    let woven = interleave(alloc, files, loads, runs, events, placer)?;
    woven_text(alloc, woven, loads.len() as u32)
}

/// The text of the weave of a script over files, with libraries at the lowest places; or that a file which is to be installed is not there.
fn weave_files(alloc: Global, script: &Script, files: &[(String, Vec<u8>)]) -> Result<Vec<u8>, Stop>
    requires script { IsScript script.now }
    requires files { IsCopy files.now }
    ensures { MeansAlone (spec.weaves_by script.now (files_of files.now)) (items_of result) }
{
    let runs = runs_of(alloc, files, script.runs.as_slice())?;
    let placer = Placer::new(|holes: &Holes, span: u64, align: u64| lowest(holes, span, align));
    Ok(weave_placed(alloc, script, runs.as_slice(), files, &placer)?)
}

/// The text of the weave that the input's script asks for, in a copy of the folder's files, or the first cause why there is none: the input is too large, or has a line that is wrong; TooManyFiles, BadCache, FileTooLarge in the order of the names, FolderTooLarge; NotThere, of a file that is to be installed. The script is read first. The calls of the folder only read, and do not look at a journal. The text is there before a byte of it is written.
#[tactic(auto, unfolding(crate::specs::Weave::weaves))]
pub fn weave<D: Folder, S: Source>(
    alloc: Global,
    folder: &mut D,
    input: &mut S,
) -> Result<Vec<u8>, Stop>
    ensures { HasWoven result (D.seen folder.old) (D.seen folder.new)
        (S.seen input.old) (S.seen input.new) }
{
    let script = script(alloc, input)?;
    let files = copy_files(alloc, folder)?;
    weave_files(alloc, &script, &files)
}
