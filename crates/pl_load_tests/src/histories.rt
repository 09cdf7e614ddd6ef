// Histories of folders: the commands that write, by calls and by words, over prelinked files too; runs that prelink everything, what they change and what they report; and whether files are verified then.
use crate::firm::file_of;
use crate::marked::{LIBA, marked_library};
use crate::running::ran_over;
use pl_base::{Rows, Text, has_name_length};
use pl_batch::{Prelinking, Run, changes_of, do_run, preview_all, verify};
use pl_build::build;
use pl_build::recipes::{EXAMPLES, Example};
use pl_cases::{number, parts};
use pl_change::{BatchFault, Cause, remove};
use pl_cli::Status;
use pl_elf::Range;
use pl_folder::{Folder, MemoryFolder, STORED, are_files};
use pl_journal::Change;
use pl_rewrite::{Report, ReportRow, RowState, Skip};
use std::alloc::Global;
use std::test::Fail;

// Histories are parted by empty lines. The first line has the names that are there, each with its file, or `-`; each other line is a step and what it comes to: `install NAME FILE`, `remove NAME`, `undo NAMES`, all without names, `take NAME FILE`, whether a name has these bytes, `names`, how many there are, `run MOMENT END`, a run that prelinks everything with a region up to this end, `verify NAME FILE`, `$ FILE WORDS`, a run of words with a file as its input. A file is `notes`, which is no object, `form`, a prelinked library, a text behind an `=`, or that of the recipe of an example.

/// The commands that write, and a name that is looked at before a journal.
const COMMANDS: &str = "\
-\n\
install notes notes: 1\n\
install notes notes: 0\n\
take notes notes: yes\n\
remove notes: done\n\
names: 0\n\
remove notes: NotThere\n\
remove a/b: BadName\n\
\n\
.prelink.journal/=abc notes/notes\n\
install a/b =: BadName\n\
install a =: BadJournal\n\
remove notes: BadJournal\n\
undo: BadJournal\n\
take notes notes: yes\n\
names: 2\n\
\n\
-\n\
install liba form: 1\n\
take liba liba: yes\n\
\n\
liba/form libb/form notes/notes\n\
undo libb a: NotThere\n\
take libb form: yes\n\
undo libb notes libb: 1\n\
take libb liba: yes\n\
take liba form: yes\n\
undo: 1\n\
take liba liba: yes\n\
take notes notes: yes\n\
\n\
liba/form libb/form notes/=hello\n\
$ = -u libb notes libb: undone 1|\n\
take libb liba: yes\n\
take liba form: yes\n\
$ form --install libc: installed libc|\n\
take libc liba: yes\n\
$ = --undo --all: undone 1|\n\
take liba liba: yes\n\
$ = --remove liba: removed liba|\n\
names: 3";

/// Runs that prelink everything: of a run the names that it changes, then what it reports of each name; or its cause.
const RUNS: &str = "\
-\n\
run 1000 4000000000:\n\
install liba liba: 1\n\
install p p: 1\n\
verify liba: differs\n\
run 1000 4000000000: .prelink.cache liba p; prelinked liba 3000000000 1000; prelinked p 0;\n\
run 1001 4000000000: ; current liba 3000000000 1000; current p 0;\n\
verify liba liba: original\n\
verify p p: original\n\
install liba libx: 1\n\
verify p: differs\n\
verify liba: differs\n\
\n\
-\n\
install libe libe1: 1\n\
install libx libx: 1\n\
install e e: 1\n\
run 1000 4000000000: .prelink.cache e libe libx; prelinked e 0; prelinked libe 3000000000 1000; prelinked libx 3000101000 1000;\n\
install libe libe2: 1\n\
verify e: differs\n\
run 1000 4000000000: .prelink.cache e libe; prelinked e 0; prelinked libe 3000000000 1001; current libx 3000101000 1000;\n\
verify libe libe2: original\n\
undo: 3\n\
run 900 4000000000: .prelink.cache e libe libx; prelinked e 0; prelinked libe 3000000000 1002; prelinked libx 3000101000 1002;\n\
\n\
-\n\
install liba liba: 1\n\
install libx libx: 1\n\
run 1000 3000201000: NoSlot libx 101000 100000\n\
\n\
-\n\
install liba liba: 1\n\
run 4294967295 4000000000: .prelink.cache liba; prelinked liba 3000000000 4294967295;\n\
install libx libx: 1\n\
run 1000 4000000000: StampsSpent 4294967295\n\
\n\
-\n\
install notes notes: 1\n\
install libsp libsp: 1\n\
run 1000 4000000000: ; skip libsp Form libsp 1; skip notes Refused notes 1;\n\
verify libsp: differs";

/// The recipe of a name among examples.
fn find(examples: &[Example], name: &str) -> Option<&'static str> {
    for (example, recipe) in examples {
        if *example == name {
            return Some(*recipe);
        }
    }
    None
}

/// The file that the recipe of an example builds.
fn built(alloc: Global, example: &str) -> Result<Vec<u8>, Fail> {
    let recipe = find(&EXAMPLES, example).ok_or("an example")?;
    if recipe.len() > 0x1000 {
        return Err("a short recipe".into());
    }
    Ok(build(alloc, recipe.as_bytes())?.into_vec())
}

/// The bytes of a file of a history.
fn bytes_of(alloc: Global, file: &str) -> Result<Vec<u8>, Fail> {
    if let Some(text) = file.strip_prefix('=') {
        return Ok(text.as_bytes().to_vec(alloc)?);
    }
    match file {
        "notes" => Ok(b"hello\n".to_vec(alloc)?),
        "form" => marked_library(alloc, &file_of(alloc, LIBA)?, 0x30_0000_0000, 1001),
        _ => built(alloc, file),
    }
}

/// A folder of names, each with its file.
fn folder_of(alloc: Global, files: &str) -> Result<MemoryFolder, Fail> {
    let mut rows = Vec::new(alloc);
    for file in files.split(' ') {
        if let Some((name, file)) = file.split_once('/') {
            rows.push((String::from_str(alloc, name)?, bytes_of(alloc, file)?))?;
        }
    }
    if !are_files(&rows) {
        return Err("names that differ".into());
    }
    Ok(MemoryFolder::new(alloc, &rows, Vec::new(alloc), 1000)?)
}

/// Stores bytes under a name: how many names change.
fn install(
    alloc: Global,
    folder: &mut MemoryFolder,
    name: &str,
    bytes: Vec<u8>,
) -> Result<usize, BatchFault> {
    if bytes.len() > STORED {
        return Err(BatchFault::NoMemory);
    }
    let run = Run::Install {
        name: Text::copy_of(alloc, name)?,
        bytes: Rows::from_vec(bytes),
    };
    do_run(alloc, folder, &run)
}

/// Gives names their originals, or all where there is none: how many names change.
fn undo(alloc: Global, folder: &mut MemoryFolder, names: &str) -> Result<usize, BatchFault> {
    if names.is_empty() {
        return do_run(alloc, folder, &Run::UndoAll);
    }
    let mut rows = Rows::new(alloc);
    for name in names.split(' ') {
        rows.push(Text::copy_of(alloc, name)?)?;
    }
    let run = Run::Undo { names: rows };
    do_run(alloc, folder, &run)
}

/// Why a run is refused.
fn fault_text(alloc: Global, fault: BatchFault) -> Result<String, Fail> {
    match fault {
        BatchFault::Cause(Cause::NoSlot { name, span, hole }) => {
            Ok(format!(in alloc; "NoSlot {} {span:x} {hole:x}", name.as_str())?)
        }
        BatchFault::Cause(Cause::StampsSpent(stamp)) => {
            Ok(format!(in alloc; "StampsSpent {stamp}")?)
        }
        BatchFault::Cause(Cause::NotThere(_)) => Ok(String::from_str(alloc, "NotThere")?),
        BatchFault::Cause(Cause::BadName) => Ok(String::from_str(alloc, "BadName")?),
        BatchFault::Cause(Cause::BadJournal) => Ok(String::from_str(alloc, "BadJournal")?),
        fault => Err(fault.into()),
    }
}

/// How many names a run changes, or why it is refused.
fn count_text(alloc: Global, count: Result<usize, BatchFault>) -> Result<String, Fail> {
    match count {
        Ok(count) => Ok(format!(in alloc; "{count}")?),
        Err(fault) => fault_text(alloc, fault),
    }
}

/// What the removal of a name comes to.
fn removed(alloc: Global, folder: &mut MemoryFolder, name: &str) -> Result<String, Fail> {
    match remove(alloc, folder, name) {
        Ok(()) => Ok(String::from_str(alloc, "done")?),
        Err(fault) => fault_text(alloc, fault),
    }
}

/// Whether a name has the bytes of a file.
fn taken(alloc: Global, folder: &mut MemoryFolder, name: &str, file: &str) -> Result<String, Fail> {
    if !has_name_length(name.as_bytes()) {
        return Err("a name".into());
    }
    let bytes = folder.take(alloc, name)?;
    let is_file = bytes.as_slice() == bytes_of(alloc, file)?.as_slice();
    Ok(String::from_str(alloc, if is_file { "yes" } else { "no" })?)
}

/// Whether a name is verified, and its original is this file.
fn verified(
    alloc: Global,
    folder: &mut MemoryFolder,
    name: &str,
    file: &str,
) -> Result<String, Fail> {
    let Some(original) = verify(alloc, folder, name)? else {
        return Ok(String::from_str(alloc, "differs")?);
    };
    let is_file = original.as_slice() == built(alloc, file)?.as_slice();
    Ok(String::from_str(alloc, if is_file { "original" } else { "other" })?)
}

fn skip_text(alloc: Global, cause: &Skip) -> Result<String, Fail> {
    Ok(match cause {
        Skip::Form { name, number } => format!(in alloc; "Form {} {number}", name.as_str())?,
        Skip::Refused { name, number, .. } => format!(in alloc;
            "Refused {} {number}",
            name.as_str()
        )?,
        _ => return Err("another cause".into()),
    })
}

/// What a run did with a file.
fn state_text(current: bool) -> &'static str {
    if current { "current" } else { "prelinked" }
}

/// What a run reports of a name.
fn row_text(alloc: Global, row: &ReportRow) -> Result<String, Fail> {
    let name = row.name.as_str();
    Ok(match &row.state {
        RowState::Library {
            current,
            slot,
            stamp,
        } => format!(in alloc; " {} {name} {slot:x} {stamp};", state_text(*current))?,
        RowState::Program { current, conflicts } => {
            format!(in alloc; " {} {name} {conflicts};", state_text(*current))?
        }
        RowState::Skipped(cause) => {
            let cause = skip_text(alloc, cause)?;
            format!(in alloc; " skip {name} {};", cause.as_str())?
        }
    })
}

/// The names that a run changes, then what it reports of each name.
fn run_text(alloc: Global, rows: &[Change], report: &Report) -> Result<String, Fail> {
    let mut text = String::new(alloc);
    for row in rows {
        let Change::Put { name, .. } = row else {
            return Err("a name that is dropped".into());
        };
        if !text.is_empty() {
            text.push_str(" ")?;
        }
        text.push_str(name.as_str())?;
    }
    if !report.rows.is_empty() {
        text.push_str(";")?;
    }
    for row in report.rows.as_slice() {
        text.push_str(row_text(alloc, row)?.as_str())?;
    }
    Ok(text)
}

/// What a run at a moment, with a region up to an end, changes and reports, and then makes; or its cause.
fn prelinked(
    alloc: Global,
    folder: &mut MemoryFolder,
    moment: &str,
    end: &str,
) -> Result<String, Fail> {
    let asked = Prelinking {
        region: Range {
            start: 0x30_0000_0000,
            end: number(end)?,
        },
        share: false,
        moment: moment.parse::<u32>()?,
    };
    let report = match preview_all(alloc, folder, &asked) {
        Ok(report) => report,
        Err(fault) => return fault_text(alloc, fault),
    };
    let run = Run::All(asked);
    let rows = changes_of(alloc, folder, &run)?;
    let text = run_text(alloc, rows.as_slice(), &report)?;
    do_run(alloc, folder, &run)?;
    Ok(text)
}

/// What a run of words writes, with a bar for the end of a line, or how it ends where it is not done.
fn written(
    alloc: Global,
    folder: &mut MemoryFolder,
    input: &str,
    words: &str,
) -> Result<String, Fail> {
    let input = bytes_of(alloc, input)?;
    let (status, bytes) = ran_over(alloc, folder, words, input)?;
    if status != Status::Done {
        return Ok(format!(in alloc; "{status:?}")?);
    }
    Ok(str::from_utf8(&bytes)?.replace(alloc, "\n", "|")?)
}

/// What a step comes to.
fn answer(alloc: Global, folder: &mut MemoryFolder, step: &str) -> Result<String, Fail> {
    let (verb, rest) = step.split_once(' ').unwrap_or((step, ""));
    let (first, second) = rest.split_once(' ').unwrap_or((rest, ""));
    match verb {
        "install" => {
            let bytes = bytes_of(alloc, second)?;
            count_text(alloc, install(alloc, folder, first, bytes))
        }
        "remove" => removed(alloc, folder, first),
        "undo" => count_text(alloc, undo(alloc, folder, rest)),
        "take" => taken(alloc, folder, first, second),
        "names" => {
            let count = folder.names(alloc)?.len();
            Ok(format!(in alloc; "{count}")?)
        }
        "run" => prelinked(alloc, folder, first, second),
        "verify" => verified(alloc, folder, first, second),
        "$" => written(alloc, folder, first, second),
        _ => Err("a step".into()),
    }
}

/// Whether a step of a history comes to what its line says.
fn is_taken(alloc: Global, folder: &mut MemoryFolder, line: &str) -> Result<bool, Fail> {
    let (step, wanted) = parts(line)?;
    Ok(answer(alloc, folder, step)?.as_str() == wanted)
}

/// Fails at the first step of a history that comes to something else.
fn check_history(alloc: Global, history: &str) -> Result<(), Fail> {
    let (files, steps) = history.split_once('\n').ok_or("files and steps")?;
    let mut folder = folder_of(alloc, files)?;
    for line in steps.lines() {
        if !is_taken(alloc, &mut folder, line)? {
            return Err(line.into());
        }
    }
    Ok(())
}

#[test]
fn commands_that_write(rt: HostRuntime) -> Result<(), Fail> {
    for history in COMMANDS.split("\n\n") {
        check_history(rt.alloc(), history)?;
    }
    Ok(())
}

#[test]
fn prelinks_and_verifies(rt: HostRuntime) -> Result<(), Fail> {
    for history in RUNS.split("\n\n") {
        check_history(rt.alloc(), history)?;
    }
    Ok(())
}
