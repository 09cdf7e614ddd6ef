// A session: the files of a folder, and what the lines of a script come to.
use crate::failing::fails_everywhere;
use crate::recipes::{built, examples, recipe_of};
use crate::running::{Asked, File, Ran, asked_of, files_in, folder_of, run_over};
use crate::stopping::stops;
use crate::weaving::weaves;
use crate::words::{decimal, decimals, lines_of, split, words_of};
use pl_cases::{bytes_of, numbers};
use std::alloc::{AllocError, Global};
use std::test::Fail;

/// The moment of a run that no line names.
const NOW: u32 = 1000;

/// What a script has come to.
#[derive(Drop)]
pub struct Session {
    files: Vec<File>,

    /// The calls of the folder that fail in the next runs, which then leave the files as they were.
    fails: Vec<u64>,

    asked: Asked,

    /// What the last line came to and the script has not said yet.
    left: String,
}

/// Puts a number of so many bytes at an offset of a file, where it fits.
fn put(file: &mut [u8], at: usize, size: usize, number: u64) {
    let bytes = number.to_le_bytes();
    if size <= 8 && at < file.len() && size <= file.len() - at {
        file[at..at + size].copy_from_slice(&bytes[..size]);
    }
}

/// Puts numbers into a file, each behind its offset and its size.
fn put_fields(file: &mut [u8], fields: &[u64]) -> Result<(), Fail> {
    for field in fields.chunks(3) {
        let [at, size, number] = field else {
            return Err("an offset, a size and a number".into());
        };
        put(file, *at as usize, *size as usize, *number);
    }
    Ok(())
}

/// Turns a bit of the byte at an offset.
fn flip(file: &mut [u8], at: u64) {
    if let Some(byte) = file.get_mut(at as usize) {
        *byte ^= 1;
    }
}

/// The first lines of a text, so many.
fn first_lines(alloc: Global, text: &str, count: u64) -> Result<String, AllocError> {
    let mut lines = String::new(alloc);
    for line in text.lines().take(count as usize) {
        lines.push_str(line)?;
        lines.push_str("\n")?;
    }
    Ok(lines)
}

/// What a run wrote. Where its last line has no end, that is said behind it.
fn text_of(alloc: Global, ran: &Ran) -> Result<String, Fail> {
    let mut text = String::from_str(alloc, str::from_utf8(&ran.text)?)?;
    if !text.is_empty() && !text.as_str().ends_with('\n') {
        text.push_str(" (no end)\n")?;
    }
    Ok(text)
}

impl Session {
    /// A session over a folder without files.
    pub fn new(alloc: Global) -> Session {
        Session {
            files: Vec::new(alloc),
            fails: Vec::new(alloc),
            asked: asked_of(alloc, Vec::new(alloc), NOW),
            left: String::new(alloc),
        }
    }

    /// Whether a line of a script is as it is to be: behind a `|` the next line of what the last one came to, behind a `<` what that begins with; or one that is taken, where nothing is left of that.
    pub fn goes_on(&mut self, alloc: Global, line: &str) -> Result<bool, Fail> {
        if let Some(wanted) = line.strip_prefix('|') {
            return match self.next_line(alloc)? {
                Some(next) => Ok(next.as_str() == wanted),
                None => Ok(false),
            };
        }
        if let Some(start) = line.strip_prefix('<') {
            return match self.next_line(alloc)? {
                Some(next) => Ok(next.as_str().starts_with(start)),
                None => Ok(false),
            };
        }
        if !self.is_done() {
            return Ok(false);
        }
        self.left = self.take(alloc, line)?;
        Ok(true)
    }

    /// Whether nothing is left of what the last line came to.
    pub fn is_done(&self) -> bool {
        self.left.is_empty()
    }

    /// The next line of what the last one came to, which then goes.
    fn next_line(&mut self, alloc: Global) -> Result<Option<String>, Fail> {
        let (line, left) = match self.left.as_str().split_once('\n') {
            Some((line, left)) => (
                String::from_str(alloc, line)?,
                String::from_str(alloc, left)?,
            ),
            None => return Ok(None),
        };
        self.left = left;
        Ok(Some(line))
    }

    /// Takes a line: what it comes to, with an end of each line.
    fn take(&mut self, alloc: Global, line: &str) -> Result<String, Fail> {
        let (verb, rest) = split(line);
        match verb {
            "#" => self.begin(alloc),
            "put" | "hex" | "text" => self.arrange(alloc, verb, rest),
            "all" | "many" | "fields" | "length" => self.change(alloc, verb, rest),
            "fails" | "now" | "most" => self.ask(alloc, verb, rest),
            "input" => self.give(alloc, rest),
            "holds" => self.look(alloc, rest),
            "stops" | "every" | "weaves" => self.try_all(alloc, verb, rest),
            _ => self.run(alloc, verb, rest),
        }
    }

    /// A new case, over a folder without files.
    fn begin(&mut self, alloc: Global) -> Result<String, Fail> {
        self.files = Vec::new(alloc);
        self.fails = Vec::new(alloc);
        self.asked = asked_of(alloc, Vec::new(alloc), NOW);
        Ok(String::new(alloc))
    }

    /// A copy of the bytes of a name.
    fn file(&self, alloc: Global, name: &str) -> Result<Vec<u8>, Fail> {
        for (other, bytes) in &self.files {
            if other.as_str() == name {
                return Ok(bytes.clone()?);
            }
        }
        Err("a name that is there".into())
    }

    /// Gives a name bytes.
    fn set(&mut self, alloc: Global, name: &str, bytes: Vec<u8>) -> Result<String, Fail> {
        self.files.retain(|file| file.0.as_str() != name);
        self.files.push((String::from_str(alloc, name)?, bytes))?;
        Ok(String::new(alloc))
    }

    /// A name gets the file of a recipe, bytes, or a text.
    fn arrange(&mut self, alloc: Global, verb: &str, rest: &str) -> Result<String, Fail> {
        let (name, text) = split(rest);
        let bytes = match verb {
            "put" if text.is_empty() => built(alloc, name)?,
            "put" => built(alloc, text)?,
            "hex" => bytes_of(alloc, text)?,
            _ => text.as_bytes().to_vec(alloc)?,
        };
        self.set(alloc, name, bytes)
    }

    /// The file of each example gets its name.
    fn put_all(&mut self, alloc: Global) -> Result<String, Fail> {
        let mut files = Vec::new(alloc);
        for (name, _recipe) in examples() {
            files.push((String::from_str(alloc, name)?, built(alloc, name)?))?;
        }
        self.files = files;
        Ok(String::new(alloc))
    }

    /// So many files more, each of no bytes.
    fn put_many(&mut self, alloc: Global, count: u64) -> Result<String, Fail> {
        for number in 0..count {
            self.files
                .push((format!(in alloc; "f{number}")?, Vec::new(alloc)))?;
        }
        Ok(String::new(alloc))
    }

    /// Files of each example, or of no bytes; or the file of a name gets other numbers or another length.
    fn change(&mut self, alloc: Global, verb: &str, rest: &str) -> Result<String, Fail> {
        if verb == "all" {
            return self.put_all(alloc);
        }
        if verb == "many" {
            return self.put_many(alloc, decimal(rest)?);
        }
        let (name, text) = split(rest);
        let mut bytes = self.file(alloc, name)?;
        match verb {
            "fields" => put_fields(&mut bytes, &numbers(alloc, text)?)?,
            _ => bytes.resize(decimal(text)? as usize, 0)?,
        }
        self.set(alloc, name, bytes)
    }

    /// The calls that fail in the next runs, the moment of these, or how many bytes the output takes in a call.
    fn ask(&mut self, alloc: Global, verb: &str, rest: &str) -> Result<String, Fail> {
        let (place, calls) = split(rest);
        match verb {
            "now" => self.asked.now = u32::try_from(decimal(rest)?)?,
            "most" => self.asked.most = decimal(rest)? as usize,
            _ => match place {
                "folder" => self.fails = decimals(alloc, calls)?,
                "input" => self.asked.input_fails = decimals(alloc, calls)?,
                "output" => self.asked.output_fails = decimals(alloc, calls)?,
                _ => return Err("a place".into()),
            },
        }
        Ok(String::new(alloc))
    }

    /// The input of the next runs: a bit of it is turned; or it is nothing, a text with or without an end of its last line, lines, lines without an end of the last one, a recipe, the file of one, that of a name, or so many letters.
    fn give(&mut self, alloc: Global, rest: &str) -> Result<String, Fail> {
        let (kind, text) = split(rest);
        if kind == "flip" {
            flip(&mut self.asked.input, u64::from_str_radix(text, 16)?);
            return Ok(String::new(alloc));
        }
        self.asked.input = match kind {
            "none" => Vec::new(alloc),
            "text" => format!(in alloc; "{text}\n")?.into_bytes(),
            "bare" => text.as_bytes().to_vec(alloc)?,
            "lines" => lines_of(alloc, text)?.into_bytes(),
            "open" => text.replace(alloc, "|", "\n")?.into_bytes(),
            "recipe" => recipe_of(alloc, text)?.into_bytes(),
            "file" => built(alloc, text)?,
            "copy" => self.file(alloc, text)?,
            "letters" => vec![in alloc; b'a'; decimal(text)? as usize]?,
            _ => return Err("a kind of input".into()),
        };
        Ok(String::new(alloc))
    }
}

/// What a line asks to be shown of a run.
#[derive(Clone, Copy)]
enum Shown<'a> {
    /// All that it writes.
    Whole,

    /// The first lines of it, so many.
    Lines(u64),

    /// Whether it is the file of a recipe.
    File(&'a str),
}

impl Session {
    /// A run over the files, which are then those that it leaves, unless calls of the folder fail: how it ended, and whether the files are other ones.
    fn ran(&mut self, alloc: Global) -> Result<(Ran, bool), Fail> {
        let mut folder = folder_of(alloc, &self.files, &self.fails)?;
        if !self.fails.is_empty() {
            return Ok((run_over(alloc, &mut folder, &self.asked)?, false));
        }
        let before = files_in(alloc, &mut folder)?;
        let ran = run_over(alloc, &mut folder, &self.asked)?;
        self.files = files_in(alloc, &mut folder)?;
        let is_other = self.files.as_slice() != before.as_slice();
        Ok((ran, is_other))
    }

    /// What is shown of what a run wrote.
    fn shown(&self, alloc: Global, ran: &Ran, shown: Shown<'_>) -> Result<String, Fail> {
        match shown {
            Shown::Whole => text_of(alloc, ran),
            Shown::Lines(count) => Ok(first_lines(alloc, text_of(alloc, ran)?.as_str(), count)?),
            Shown::File(recipe) if ran.text == built(alloc, recipe)? => {
                Ok(format!(in alloc; "(the file of {recipe})\n")?)
            }
            Shown::File(_) => Ok(String::from_str(alloc, "(another text)\n")?),
        }
    }

    /// A run of the words of a line: what it wrote, how it ended, and whether it left other files.
    fn run(&mut self, alloc: Global, verb: &str, rest: &str) -> Result<String, Fail> {
        let (first, others) = split(rest);
        let (shown, line) = match verb {
            "$" => (Shown::Whole, rest),
            "lines" => (Shown::Lines(decimal(first)?), others),
            "file" => (Shown::File(first), others),
            _ => return Err("a line of a script".into()),
        };
        self.asked.words = words_of(alloc, line)?;
        let (ran, is_other) = self.ran(alloc)?;
        let text = self.shown(alloc, &ran, shown)?;
        let files = if is_other { ", with other files" } else { "" };
        let status = ran.status;
        Ok(format!(in alloc; "{}{status:?}{files}\n", text.as_str())?)
    }

    /// Whether the file of a name is that of a recipe.
    fn look(&mut self, alloc: Global, rest: &str) -> Result<String, Fail> {
        let (name, recipe) = split(rest);
        let told = if self.file(alloc, name)? == built(alloc, recipe)? {
            "is the file of"
        } else {
            "is not the file of"
        };
        Ok(format!(in alloc; "{name} {told} {recipe}\n")?)
    }

    /// A run that is stopped at each moment, or of which each call fails; or many weaves.
    fn try_all(&mut self, alloc: Global, verb: &str, rest: &str) -> Result<String, Fail> {
        let (first, others) = split(rest);
        match verb {
            "stops" => {
                self.asked.words = words_of(alloc, others)?;
                stops(alloc, &self.files, &self.asked, first)
            }
            "every" => {
                self.asked.words = words_of(alloc, rest)?;
                fails_everywhere(alloc, &self.files, &self.asked)
            }
            _ => weaves(alloc, &self.files, decimal(rest)?),
        }
    }
}
