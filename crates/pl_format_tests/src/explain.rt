// Tests of pl_explain.
use arrayvec::ArrayString;
use pl_explain::{Ended, KeptReader, KeptWriter, LastLine, explain};
use pl_hostdir::{Call, FirstFault, Reason};
use pl_io::{Failed, MemorySink, Sink, Source, StdSink, StdSource, write_all};
use pl_words::Status;
use std::alloc::{AllocError, Global};
use std::io::{self, Read, Write};
use std::test::Fail;

/// An end of which nothing more is known.
fn bare<'a>(status: Status) -> Ended<'a> {
    Ended {
        status,
        words: &[],
        line: b"",
        folder: None,
        input: None,
        output: None,
    }
}

/// What is said of an end.
fn said(alloc: Global, ended: &Ended<'_>) -> io::Result<Vec<u8>> {
    let mut text = Vec::new(alloc);
    explain(&mut text, ended)?;
    Ok(text)
}

/// Whether this is said of an end.
fn says(alloc: Global, ended: &Ended<'_>, wanted: &str) -> io::Result<bool> {
    Ok(said(alloc, ended)?.as_slice() == wanted.as_bytes())
}

/// What is said of a refusal, by its line.
fn said_of(alloc: Global, line: &str) -> io::Result<Vec<u8>> {
    let mut refused = bare(Status::Refused);
    refused.line = line.as_bytes();
    said(alloc, &refused)
}

// ---- the tables

/// The words of all causes.
const CAUSES: &str =
    "BadName NotThere FileTooLarge BadMark Refused Static Form NotProgram NeededIsProgram TooMany TlsTooLarge NoPlace Undefined UndefinedTls TlsMismatch CopyOutside BadJournal BadCache TooManyFiles FolderTooLarge NoSlot StampsSpent NotPie NotFixed InputTooLarge Recipe Script";

/// What is said where the cause is not known.
const NO_CAUSE: &str = "prelink: The command was refused.\n";

/// Whether a word is that of a cause, which has a sentence.
fn is_cause(alloc: Global, word: &str) -> io::Result<bool> {
    let line = format!(in alloc; "refused {word}")?;
    let text = said_of(alloc, line.as_str())?;
    Ok(text.len() > 20 && text.as_slice() != NO_CAUSE.as_bytes())
}

#[test]
fn each_cause_has_its_sentence(rt: HostRuntime) -> Result<(), Fail> {
    for cause in CAUSES.split(' ') {
        if !is_cause(rt.alloc(), cause)? {
            return Err(cause.into());
        }
    }
    assert!(rt; !is_cause(rt.alloc(), "NoMemory")?);
    Ok(())
}

/// Writes what is said of a cause with a number.
fn tell_number(alloc: Global, to: &mut Vec<u8>, cause: &str, number: u32) -> io::Result<()> {
    let line = format!(in alloc; "refused {cause} x {number}")?;
    let mut refused = bare(Status::Refused);
    refused.line = line.as_bytes();
    explain(to, &refused)
}

/// What is said of a cause with each of the first numbers, from 0 on.
fn said_of_numbers(alloc: Global, cause: &str, count: u32) -> io::Result<Vec<u8>> {
    let mut text = Vec::new(alloc);
    for number in 0..count {
        tell_number(alloc, &mut text, cause, number)?;
    }
    Ok(text)
}

/// How many lines with a number a text has: they are those of the numbers from 1 on, in their order, with sentences of which no two are the same.
fn count_numbers(text: &str, before: &str) -> Result<u32, Fail> {
    let mut count = 0u32;
    for line in text.lines() {
        if let Some(row) = line.strip_prefix(before) {
            let (key, sentence) = row.split_once(": ").ok_or("a colon")?;
            count = count.saturating_add(1);
            let is_new = sentence.len() > 10 && text.matches(sentence).count() == 1;
            if key.parse::<u32>()? != count || !is_new {
                return Err(line.into());
            }
        }
    }
    Ok(count)
}

/// Whether a cause has a sentence of its own for each number from 1 to the last, and for no other.
fn tells_numbers(alloc: Global, cause: &str, before: &str, last: u32) -> Result<bool, Fail> {
    let text = said_of_numbers(alloc, cause, last.saturating_add(2))?;
    Ok(count_numbers(str::from_utf8(&text)?, before)? == last)
}

#[test]
fn each_number_has_its_sentence(rt: HostRuntime) -> Result<(), Fail> {
    let alloc = rt.alloc();
    assert!(rt; tells_numbers(alloc, "Refused", "prelink: Acceptance clause ", 31)?);
    assert!(rt; tells_numbers(alloc, "Form", "prelink: Form fault ", 6)?);
    assert!(rt; tells_numbers(alloc, "Recipe", "prelink: Fault ", 5)?);
    Ok(())
}

// ---- what is said

/// Lines of refusals, each with what is said of it, and an empty line between them.
const REFUSALS: &str = "refused Refused ls 24
prelink: ls: The file is no program or library that is accepted. The first number is that of the acceptance clause.
prelink: Acceptance clause 24: A relocation is for bytes that are not in the file and, of a program, not in the memory of its last PT_LOAD.
prelink: A position-independent program can be fixed at an address: prelink --fix NAME.

refused Refused x 10 1879048191
prelink: x: The file is no program or library that is accepted. The first number is that of the acceptance clause.
prelink: Acceptance clause 10: The dynamic table has a tag that is not known. The second number is the tag.

refused BadCache
prelink: The file .prelink.cache is no cache: something else changed it.
prelink: Delete .prelink.cache: the next prelink -a makes a new one.

refused Undefined p f\\x0a
prelink: p: f\\x0a: No file of the walk defines the symbol, and it is not weak.

refused Recipe 7 4
prelink: Line 7: A line of the recipe is wrong. The two numbers are that of the line, from 1 on, and the kind of its fault.
prelink: Fault 4: The line says a second time what may stand once, or defines a symbol of the same name again.

refused StampsSpent 4294967295
prelink: A file is to be prelinked, and the last stamp that there is was given.
prelink: Undo all files (prelink -u -a), delete .prelink.cache, and prelink them anew.

done 0
prelink: The command was refused.";

/// Whether this is said of a refusal, whose line is the first one.
fn is_told(alloc: Global, refusal: &str) -> Result<bool, Fail> {
    let (line, wanted) = refusal.split_once('\n').ok_or("a line")?;
    let text = said_of(alloc, line)?;
    Ok(text.strip_suffix(b"\n") == Some(wanted.as_bytes()))
}

#[test]
fn refusals_are_told(rt: HostRuntime) -> Result<(), Fail> {
    for refusal in REFUSALS.split("\n\n") {
        if !is_told(rt.alloc(), refusal)? {
            return Err(refusal.into());
        }
    }
    Ok(())
}

/// The words as a program gets them, parted by spaces; none of an empty text.
fn texts(alloc: Global, line: &str) -> Result<Vec<String>, AllocError> {
    let mut texts = Vec::new(alloc);
    for word in line.split(' ') {
        if !line.is_empty() {
            texts.push(String::from_str(alloc, word)?)?;
        }
    }
    Ok(texts)
}

/// Words, each line with the first line that is said of them behind a bar.
const WORDS: &str = "|prelink: No command is given.
--help|prelink: \"--help\" is no option.
-aV|prelink: \"-aV\" is no option.
help|prelink: \"help\" is no command.
-a -va|prelink: -a stands twice.
--all=x|prelink: -a has no value.
--load|prelink: --load wants a value, a name.
-y -v|prelink: -y wants a value, a name.
-a --region 1-2|prelink: \"1-2\" is no value of --region, which is two hexadecimal numbers S-E, multiples of 1000, S below E, E at most 800000000000.
--load=p --policy=low|prelink: \"low\" is no value of --policy, which is lowest, highest or seeded:N.
-v|prelink: -v goes with a command, and none is given.
-n -u a|prelink: -n does not go with -u.
-p -a|prelink: -a does not go with -p.
-a ls|prelink: \"ls\" is a name too many.
-u -a -- -x|prelink: \"-x\" is a name too many.
-u|prelink: -u wants -a or the names of files.";

/// What is said of words that are no command.
fn said_of_words(alloc: Global, words: &[String]) -> io::Result<Vec<u8>> {
    let mut ended = bare(Status::Usage);
    ended.words = words;
    said(alloc, &ended)
}

/// Whether a text has this first line, and then the list of the commands.
fn is_usage(text: &[u8], first: &str) -> bool {
    match str::from_utf8(text).unwrap_or("").split_once('\n') {
        Some((line, rest)) => line == first && rest.starts_with("prelink: The commands"),
        None => false,
    }
}

/// Whether what is said of the words of a line is what it says.
fn is_wrong(alloc: Global, line: &str) -> Result<bool, Fail> {
    let (words, first) = line.split_once('|').ok_or("a bar")?;
    let text = said_of_words(alloc, &texts(alloc, words)?)?;
    Ok(is_usage(&text, first))
}

#[test]
fn the_wrong_word_is_told(rt: HostRuntime) -> Result<(), Fail> {
    for line in WORDS.lines() {
        if !is_wrong(rt.alloc(), line)? {
            return Err(line.into());
        }
    }
    Ok(())
}

// ---- the outside

/// Whether this is said of a fault of the folder.
fn is_told_of(
    alloc: Global,
    call: Call,
    name: &str,
    reason: Reason,
    wanted: &str,
) -> io::Result<bool> {
    let name = ArrayString::from(name).unwrap_or(ArrayString::new());
    let fault = FirstFault { call, name, reason };
    let mut ended = bare(Status::DiskFault);
    ended.folder = Some(&fault);
    says(alloc, &ended, wanted)
}

const FULL: &str =
    "prelink: .prelink.new.0: The file could not be written: No space left on device (os error 28)\n";

const BUSY: &str =
    "prelink: Another prelink command writes in this folder. Nothing was done; try again when it has ended.\n";

#[test]
fn faults_are_told(rt: HostRuntime) -> Result<(), Fail> {
    let alloc = rt.alloc();
    let full = Reason::System(io::Error::from_raw_os_error(28));
    assert!(rt; is_told_of(alloc, Call::Append, ".prelink.new.0", full, FULL)?);
    assert!(rt; is_told_of(alloc, Call::Lock, "", Reason::Busy, BUSY)?);
    Ok(())
}

#[test]
fn ends_are_told(rt: HostRuntime) -> Result<(), Fail> {
    let alloc = rt.alloc();
    assert!(rt; says(alloc, &bare(Status::Done), "")?);
    assert!(rt; says(alloc, &bare(Status::Differs), "")?);
    assert!(rt;
        says(
            alloc,
            &bare(Status::NoMemory),
            "prelink: There was no memory.\n"
        )?
    );
    Ok(())
}

/// A reader and writer whose calls fail.
#[derive(Drop)]
struct Broken;

impl Read for Broken {
    fn read(&mut self, _buf: &mut [u8]) -> io::Result<usize> {
        Err(io::Error::other("nothing comes"))
    }
}

impl Write for Broken {
    fn write(&mut self, _buf: &[u8]) -> io::Result<usize> {
        Err(io::Error::other("nothing goes"))
    }

    fn flush(&mut self) -> io::Result<()> {
        Ok(())
    }
}

fn fails_to_read(reader: &mut KeptReader<Broken>) -> bool {
    StdSource::new(reader).read(&mut [0]).is_err()
}

/// Whether the error of an input that fails is told.
fn tells_input(alloc: Global) -> io::Result<bool> {
    let mut reader = KeptReader::new(Broken);
    let failed = fails_to_read(&mut reader);
    let mut ended = bare(Status::ReadFault);
    ended.input = reader.error();
    let wanted = "prelink: The input could not be read: nothing comes\n";
    Ok(failed && says(alloc, &ended, wanted)?)
}

fn fails_to_write(writer: &mut KeptWriter<Broken>) -> bool {
    let mut sink = LastLine::new(StdSink::new(writer));
    sink.write(b"a").is_err() && sink.line().is_empty()
}

/// Whether the error of an output that fails is told.
fn tells_output(alloc: Global) -> io::Result<bool> {
    let mut writer = KeptWriter::new(Broken);
    let failed = fails_to_write(&mut writer);
    let mut ended = bare(Status::WriteFault);
    ended.output = writer.error();
    let wanted = "prelink: The output could not be written: nothing goes\n";
    Ok(failed && says(alloc, &ended, wanted)?)
}

#[test]
fn errors_are_kept(rt: HostRuntime) -> Result<(), Fail> {
    assert!(rt; tells_input(rt.alloc())?);
    assert!(rt; tells_output(rt.alloc())?);
    Ok(())
}

/// Texts, each of them one after the other to one sink, with the last line then behind a bar; `/` is a newline.
const LINES: &str = "a/bc|bc
d/|bcd
e|e
/|e
/|
xyz/w|w";

/// Writes a text to a sink, piece by piece.
fn write_pieces(last: &mut LastLine<MemorySink>, text: &str) -> Result<(), Failed> {
    for piece in text.split_inclusive('/') {
        match piece.strip_suffix("/") {
            Some(body) => {
                write_all(last, body.as_bytes())?;
                write_all(last, b"\n")?;
            }
            None => write_all(last, piece.as_bytes())?,
        }
    }
    Ok(())
}

/// Whether the last line is that of a row, behind its text.
fn is_kept(last: &mut LastLine<MemorySink>, row: &str) -> Result<bool, Fail> {
    let (text, wanted) = row.split_once('|').ok_or("a bar")?;
    write_pieces(last, text)?;
    Ok(last.line() == wanted.as_bytes())
}

#[test]
fn the_last_line_is_kept(rt: HostRuntime) -> Result<(), Fail> {
    let sink = MemorySink::new(rt.alloc(), 4096, Vec::new(rt.alloc()), 3)?;
    let mut last = LastLine::new(sink);
    for row in LINES.lines() {
        if !is_kept(&mut last, row)? {
            return Err(row.into());
        }
    }
    write_all(&mut last, &[b'x'; 600])?;
    assert!(rt; last.line().len() == 512);
    Ok(())
}
