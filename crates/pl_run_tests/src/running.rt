// Runs of the top call, and the files of a folder.
use pl_base::has_name_length;
use pl_cli::{Status, run};
use pl_folder::{Folder, MemoryFolder, are_files};
use pl_io::{MemorySink, MemorySource};
use std::alloc::{AllocError, Global};
use std::test::Fail;

/// A file's name and its bytes.
pub type File = (String, Vec<u8>);

/// How many calls a folder answers.
const CALLS: u32 = 5000;

/// How many bytes a sink has room for.
const ROOM: usize = 65536;

/// How many bytes a sink takes in a call, where nothing else is said.
pub const MOST: usize = 4096;

/// A run: its words, its input, its moment, the calls of the input and of the output that fail, counted from 0, and how many bytes the output takes in a call.
#[derive(Drop)]
pub struct Asked {
    pub words: Vec<String>,
    pub input: Vec<u8>,
    pub now: u32,
    pub input_fails: Vec<u64>,
    pub output_fails: Vec<u64>,
    pub most: usize,
}

/// A run of words at a moment, without input, of which no call fails.
pub fn asked_of(alloc: Global, words: Vec<String>, now: u32) -> Asked {
    Asked {
        words,
        input: Vec::new(alloc),
        now,
        input_fails: Vec::new(alloc),
        output_fails: Vec::new(alloc),
        most: MOST,
    }
}

/// The words of a run.
pub fn two_words(alloc: Global, first: &str, second: &str) -> Result<Vec<String>, AllocError> {
    let mut words = Vec::new(alloc);
    words.push(String::from_str(alloc, first)?)?;
    words.push(String::from_str(alloc, second)?)?;
    Ok(words)
}

/// How a run ended, and what it wrote.
#[derive(Drop)]
pub struct Ran {
    pub status: Status,
    pub text: Vec<u8>,
}

/// A folder of these files, whose calls of these numbers fail.
pub fn folder_of(alloc: Global, files: &[File], fails: &[u64]) -> Result<MemoryFolder, Fail> {
    if !are_files(files) {
        return Err("names that differ".into());
    }
    Ok(MemoryFolder::new(alloc, files, fails.to_vec(alloc)?, CALLS)?)
}

/// The file of a name.
pub fn file_in(alloc: Global, folder: &mut MemoryFolder, name: &str) -> Result<Vec<u8>, Fail> {
    if !has_name_length(name.as_bytes()) {
        return Err("a name".into());
    }
    Ok(folder.take(alloc, name)?)
}

/// All files of a folder.
pub fn files_in(alloc: Global, folder: &mut MemoryFolder) -> Result<Vec<File>, Fail> {
    let mut files = Vec::new(alloc);
    for name in folder.names(alloc)? {
        let bytes = file_in(alloc, folder, name.as_str())?;
        files.push((name, bytes))?;
    }
    Ok(files)
}

/// A run over a folder.
pub fn run_over(alloc: Global, folder: &mut MemoryFolder, asked: &Asked) -> Result<Ran, Fail> {
    if asked.most == 0 {
        return Err("an output that takes some bytes".into());
    }
    let input_fails = asked.input_fails.to_vec(alloc)?;
    let output_fails = asked.output_fails.to_vec(alloc)?;
    let mut input = MemorySource::new(asked.input.to_vec(alloc)?, input_fails);
    let mut output = MemorySink::new(alloc, ROOM, output_fails, asked.most)?;
    let status = run(
        alloc,
        &asked.words,
        folder,
        &mut input,
        &mut output,
        asked.now,
    );
    let text = output.bytes().to_vec(alloc)?;
    Ok(Ran { status, text })
}

/// A run of two words over a folder.
pub fn run_two(
    alloc: Global,
    folder: &mut MemoryFolder,
    first: &str,
    second: &str,
) -> Result<Ran, Fail> {
    let asked = asked_of(alloc, two_words(alloc, first, second)?, 1000);
    run_over(alloc, folder, &asked)
}
