// Runs of the top call.
use pl_cli::{Status, run};
use pl_folder::MemoryFolder;
use pl_io::{MemorySink, MemorySource};
use std::alloc::{AllocError, Global};
use std::test::Fail;

/// The words of a text, parted by blanks.
fn words_of(alloc: Global, text: &str) -> Result<Vec<String>, AllocError> {
    let mut words = Vec::new(alloc);
    for word in text.split(' ') {
        words.push(String::from_str(alloc, word)?)?;
    }
    Ok(words)
}

/// How a run of words over a folder and an input ends, at the moment 1000, and what it writes.
pub fn ran_over(
    alloc: Global,
    folder: &mut MemoryFolder,
    words: &str,
    input: Vec<u8>,
) -> Result<(Status, Vec<u8>), Fail> {
    let words = words_of(alloc, words)?;
    let mut input = MemorySource::new(input, Vec::new(alloc));
    let mut output = MemorySink::new(alloc, 4096, Vec::new(alloc), 4096)?;
    let status = run(alloc, &words, folder, &mut input, &mut output, 1000);
    Ok((status, output.bytes().to_vec(alloc)?))
}

/// The same of a run without input.
pub fn ran(
    alloc: Global,
    folder: &mut MemoryFolder,
    words: &str,
) -> Result<(Status, Vec<u8>), Fail> {
    ran_over(alloc, folder, words, Vec::new(alloc))
}
