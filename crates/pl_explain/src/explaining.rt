ghost use Rattle.std.specs.Prelude.{◌≡◌, true, IsOk};
ghost use Rattle.pl_explain.specs.Quiet.{is_quiet};

use crate::commands::tell_commands;
use crate::outside::{tell_folder, tell_input, tell_output};
use crate::refusal::tell_refusal;
use crate::words::wrong;
use crate::wrong::tell_wrong;
use crate::{Ended, faults};
use pl_words::Status;
use std::io::{self, Write};

/// Writes which word is wrong, and the list of the commands.
fn tell_usage<W: Write>(to: &mut W, words: &[String]) -> io::Result<()> {
    tell_wrong(to, wrong(words))?;
    tell_commands(to)
}

/// Writes lines for people about how a run ended, each with `prelink: ` before it: which word is wrong, with the list of the commands; the sentences of the cause of a refusal, and what can be done; which call failed, and why; or that there was no memory. Where the command was done or a file differs it writes nothing, and makes no call of the writer.
///
/// It takes no memory. An error is one of the writer.
pub fn explain<W: Write>(to: &mut W, ended: &Ended<'_>) -> io::Result<()>
    ensures quiet { is_quiet ended.now.status ≡ true → to.new ≡ to.old }
    ensures quiet_ok { is_quiet ended.now.status ≡ true → IsOk result }
{
    match ended.status {
        Status::Done | Status::Differs => Ok(()),
        Status::Usage => tell_usage(to, ended.words),
        Status::Refused => tell_refusal(to, ended.line),
        Status::ReadFault => tell_input(to, ended.input),
        Status::WriteFault => tell_output(to, ended.output),
        Status::DiskFault => tell_folder(to, ended.folder),
        Status::NoMemory => writeln!(to, "prelink: {}", faults::NO_MEMORY),
    }
}
