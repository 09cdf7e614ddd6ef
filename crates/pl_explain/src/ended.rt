use pl_hostdir::FirstFault;
use pl_words::Status;
use std::io;

/// How a run ended, and what was seen of the outside.
#[derive(Clone, Copy)]
pub struct Ended<'a> {
    /// How it ended.
    pub status: Status,

    /// The words after the program's name.
    pub words: &'a [String],

    /// The last line that the output got, at most its first 512 bytes, without its newline.
    pub line: &'a [u8],

    /// The first call of the folder that failed.
    pub folder: Option<&'a FirstFault>,

    /// The first error of the input.
    pub input: Option<&'a io::Error>,

    /// The first error of the output.
    pub output: Option<&'a io::Error>,
}
