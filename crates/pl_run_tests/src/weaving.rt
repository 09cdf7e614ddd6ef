// Weaves of many scripts: loads that open their files while runs go on.
use crate::running::{Asked, File, asked_of, file_in, files_in, folder_of, run_over, run_two};
use crate::words::words_of;
use pl_cli::Status;
use pl_folder::MemoryFolder;
use rand_core::utils::NextWord;
use rand_pcg::Pcg32;
use std::alloc::Global;
use std::test::Fail;

/// The runs of scripts: the line of each, its moment, and its words as a command of its own. What is installed is the file `libf`.
const RUNS: &str = "\
install libe libf: 1000 --install libe\n\
prelink 2000: 2000 -a\n\
undo: 1000 -u -a\n\
undo libe: 1000 -u libe\n\
prelink 3000: 3000 -a";

/// How many runs there are to choose from.
const KINDS: usize = 5;

/// A step of a script.
#[derive(Clone, Copy)]
enum Turn {
    OpensFirst,
    OpensSecond,
    Renames,
}

/// The step of a word, and its line.
fn turn_of(word: u32) -> (Turn, &'static str) {
    match word % 4 {
        0 => (Turn::OpensFirst, "open 0\n"),
        1 => (Turn::OpensSecond, "open 1\n"),
        _ => (Turn::Renames, "rename\n"),
    }
}

/// How many runs and how many steps a script has.
const FEW: usize = 3;

const STEPS: usize = 12;

/// A weave as the runs of its script show it, each done whole: the folder's files after each run, the files as they stand, how many runs have finished, and the files that two loads of `e` saw.
#[derive(Drop)]
struct Shown {
    after: Vec<Vec<File>>,
    files: Vec<File>,
    finished: usize,
    first: Vec<File>,
    second: Vec<File>,
}

/// A copy of a file.
fn copy_of(alloc: Global, file: &File) -> Result<File, Fail> {
    Ok((
        String::from_str(alloc, file.0.as_str())?,
        file.1.to_vec(alloc)?,
    ))
}

/// The file that a run puts next: the first by name that is not as it is after the run.
fn next_put<'a>(files: &[File], after: &'a [File]) -> Option<&'a File> {
    after.iter().find(|file| {
        !files
            .iter()
            .any(|other| other.0 == file.0 && other.1 == file.1)
    })
}

/// A rename of the run under way.
fn rename(alloc: Global, shown: &mut Shown) -> Result<(), Fail> {
    for run in shown.finished..shown.after.len() {
        let Some(after) = shown.after.get(run) else {
            return Ok(());
        };
        if let Some(file) = next_put(&shown.files, after) {
            let file = copy_of(alloc, file)?;
            shown.files.retain(|other| other.0 != file.0);
            shown.files.push(file)?;
            shown.finished = run;
            return Ok(());
        }
    }
    Ok(())
}

/// A load of `e` opens its next file: `e`, and then `libe`.
fn open(alloc: Global, files: &[File], seen: &mut Vec<File>) -> Result<(), Fail> {
    let name = match seen.len() {
        0 => "e",
        1 => "libe",
        _ => return Ok(()),
    };
    for file in files {
        if file.0.as_str() == name {
            seen.push(copy_of(alloc, file)?)?;
            return Ok(());
        }
    }
    Ok(())
}

/// A step of a script, as it is to be.
fn turn_once(alloc: Global, shown: &mut Shown, turn: Turn) -> Result<(), Fail> {
    match turn {
        Turn::OpensFirst => open(alloc, &shown.files, &mut shown.first),
        Turn::OpensSecond => open(alloc, &shown.files, &mut shown.second),
        Turn::Renames => rename(alloc, shown),
    }
}

/// What a weave tells of a load that saw these files: what the load prints over a folder of exactly these, or the name that it wants.
fn told_of(alloc: Global, seen: &[File]) -> Result<Vec<u8>, Fail> {
    match seen.len() {
        0 => Ok(b"wants e\n".to_vec(alloc)?),
        1 => Ok(b"wants libe\n".to_vec(alloc)?),
        _ => {
            let mut folder = folder_of(alloc, seen, &[])?;
            let ran = run_two(alloc, &mut folder, "--load", "e")?;
            Ok(ran.text)
        }
    }
}

/// The run of a line of the table, with an input, and its line in a script.
fn run_of(alloc: Global, row: &str, input: &[u8]) -> Result<(String, Asked), Fail> {
    let (line, command) = row.split_once(": ").ok_or("a run")?;
    let (moment, words) = command.split_once(' ').ok_or("a command")?;
    let mut asked = asked_of(alloc, words_of(alloc, words)?, moment.parse::<u32>()?);
    asked.input = input.to_vec(alloc)?;
    Ok((format!(in alloc; "{line}\n")?, asked))
}

/// The lines of the runs of a script, and what they leave one after the other.
fn take_runs(
    alloc: Global,
    words: &mut Pcg32,
    script: &mut String,
    folder: &mut MemoryFolder,
    input: &[u8],
) -> Result<Vec<Vec<File>>, Fail> {
    let mut after = Vec::new(alloc);
    for _ in 0..FEW {
        let number = words.next_word() as usize % KINDS;
        let row = RUNS.lines().nth(number).ok_or("a run")?;
        let (line, asked) = run_of(alloc, row, input)?;
        script.push_str(line.as_str())?;
        let ran = run_over(alloc, folder, &asked)?;
        if ran.status != Status::Done {
            return Err("a run that is done".into());
        }
        after.push(files_in(alloc, folder)?)?;
    }
    Ok(after)
}

/// The steps of a script, and their lines.
fn take_turns(
    alloc: Global,
    words: &mut Pcg32,
    script: &mut String,
    shown: &mut Shown,
) -> Result<(), Fail> {
    for _ in 0..STEPS {
        let (turn, line) = turn_of(words.next_word());
        script.push_str(line)?;
        turn_once(alloc, shown, turn)?;
    }
    Ok(())
}

/// What a weave writes of its two loads.
fn wanted(alloc: Global, shown: &Shown) -> Result<Vec<u8>, Fail> {
    let mut text = b"loader 0\n".to_vec(alloc)?;
    text.extend_from_slice(&told_of(alloc, &shown.first)?)?;
    text.extend_from_slice(b"loader 1\n")?;
    text.extend_from_slice(&told_of(alloc, &shown.second)?)?;
    text.extend_from_slice(b"run 0 ")?;
    Ok(text)
}

/// Whether each load of a script that a seed gives prints what it prints over a folder of the files that it saw.
fn weaves_once(alloc: Global, files: &[File], seed: u64) -> Result<bool, Fail> {
    let mut words = Pcg32::new(seed, 17);
    let mut folder = folder_of(alloc, files, &[])?;
    let input = file_in(alloc, &mut folder, "libf")?;
    let mut script = String::from_str(alloc, "load e\nload e\n")?;
    let after = take_runs(alloc, &mut words, &mut script, &mut folder, &input)?;
    let mut folder = folder_of(alloc, files, &[])?;
    let mut shown = Shown {
        after,
        files: files_in(alloc, &mut folder)?,
        finished: 0,
        first: Vec::new(alloc),
        second: Vec::new(alloc),
    };
    take_turns(alloc, &mut words, &mut script, &mut shown)?;
    let mut asked = asked_of(alloc, words_of(alloc, "--weave")?, 1000);
    asked.input = script.into_bytes();
    let ran = run_over(alloc, &mut folder, &asked)?;
    let wanted = wanted(alloc, &shown)?;
    Ok(ran.status == Status::Done && ran.text.starts_with(&wanted))
}

/// Whether so many scripts weave as they are to.
pub fn weaves(alloc: Global, files: &[File], count: u64) -> Result<String, Fail> {
    for seed in 0..count {
        if !weaves_once(alloc, files, seed)? {
            return Ok(format!(in alloc; "script {seed} is not as it is to be\n")?);
        }
    }
    Ok(format!(in alloc; "{count} scripts are as they are to be\n")?)
}
