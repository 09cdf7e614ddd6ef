//! The program `prelink`: the top call over the folder that it runs in, its standard input and output, and the clock, and lines for people on standard error.
#![tactic(auto)]

ghost use Rattle.std.specs.Prelude.{◌≡◌, ◌≢◌, ◌≤◌, drop, is_ok, length, true, IfErr, IfOk};
ghost use Rattle.std.specs.IoError.{error_kind};
ghost use Rattle.std.specs.Process.{exit_status};
ghost use Rattle.std.specs.Vec.Iter.{into_iter_items};
ghost use Rattle.std.specs.declared.io.ErrorKind.TheVariants.{OutOfMemory};
ghost use Rattle.pl_words.specs.Statuses.{code_of};
ghost use Rattle.prelink.specs.Words.{after_first};
ghost use Rattle.prelink.specs.declared.TheConstants.{LINE};

use arrayvec::ArrayVec;
use pl_explain::{Ended, KeptReader, KeptWriter, LastLine, explain};
use pl_hostdir::{AfterProgress, HostFolder, Progress};
use pl_io::{StdSink, StdSource};
use pl_safe::run;
use pl_words::Status;
use std::alloc::{AllocError, Global};
use std::env::{self, Args};
use std::io;
use std::process::ExitCode;
use std::rt::Clock;
use std::time::{SystemTime, UNIX_EPOCH};

/// The most bytes of the last line that the output keeps.
const LINE: usize = 512;

/// The words after the program's name, which is the first.
fn after_name(alloc: Global, words: Args) -> Result<Vec<String>, AllocError>
    ensures { IfOk result (λ after. after.items ≡ drop 1 (into_iter_items words)) }
{
    words.skip(1).collect(alloc)
}

/// The words after the program's name, by the system's answer. Words that are not text are no command: the call is then made with no words, which prints the usage line.
fn words_of(alloc: Global, answer: io::Result<Args>) -> Result<Vec<String>, AllocError>
    ensures words { IfOk result (λ words. words.items ≡ after_first answer) }
    ensures no_text { IfErr answer (λ error. error_kind error ≢ OutOfMemory → is_ok result ≡ true) }
{
    match answer {
        Ok(words) => after_name(alloc, words),
        Err(error) if error.kind() == io::ErrorKind::OutOfMemory => Err(AllocError),
        Err(_) => Ok(Vec::new(alloc)),
    }
}

/// The seconds since 1970, at most 4294967295. A clock that cannot be read or stands before 1970 gives 0.
fn seconds(clock: &impl Clock) -> u32 {
    let Ok(now) = SystemTime::now(clock) else {
        return 0;
    };
    match now.duration_since(UNIX_EPOCH) {
        Ok(since) => u32::try_from(since.as_secs()).unwrap_or(u32::MAX),
        Err(_) => 0,
    }
}

/// What the program ends with: the exit code of how the run ended.
fn exit_code(status: Status) -> ExitCode
    ensures { exit_status result ≡ code_of status }
{
    ExitCode::from(status.code())
}

/// A copy of a line of at most `LINE` bytes, and none of a longer one. It borrows nothing of the output, whose writer is asked for its error next.
fn copy_of(line: &[u8]) -> ArrayVec<u8, LINE>
    ensures { length line.now ≤ LINE → result.items ≡ line.now }
{
    let mut copy = ArrayVec::new();
    let _ = copy.try_extend_from_slice(line);
    copy
}

/// Tells people how the run ended, on standard error. That it takes nothing changes nothing.
fn tell(rt: HostRuntime, ended: &Ended<'_>) {
    let mut to = rt.stderr();
    let _ = explain(&mut to, ended);
}

/// What the program ends with where there is no memory for the words or the folder.
fn end_without_memory(rt: HostRuntime) -> ExitCode {
    let ended = Ended {
        status: Status::NoMemory,
        words: &[],
        line: b"",
        folder: None,
        input: None,
        output: None,
    };
    tell(rt, &ended);
    exit_code(Status::NoMemory)
}

fn main(rt: HostRuntime) -> ExitCode {
    let progress = Progress::new(rt.stderr());
    let Ok(words) = words_of(rt.alloc(), env::args(&rt)) else {
        return end_without_memory(rt);
    };
    let Ok(mut folder) = HostFolder::new(&rt, rt.alloc(), ".") else {
        return end_without_memory(rt);
    };
    folder.show(&progress);
    let mut reader = KeptReader::new(rt.reader());
    let mut writer = KeptWriter::new(AfterProgress::new(io::writer(&rt), &progress));
    let mut input = StdSource::new(&mut reader);
    let mut output = LastLine::new(StdSink::new(&mut writer));
    let now = seconds(&rt);
    let status = run(
        rt.alloc(),
        &words,
        &mut folder,
        &mut input,
        &mut output,
        now,
    );
    progress.end();
    let line = copy_of(output.line());
    let ended = Ended {
        status,
        words: &words,
        line: line.as_slice(),
        folder: folder.first_fault(),
        input: reader.error(),
        output: writer.error(),
    };
    tell(rt, &ended);
    exit_code(status)
}
