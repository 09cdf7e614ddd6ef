// What is said of the folder, the input and the output where they failed.
use crate::faults;
use pl_hostdir::{FirstFault, Reason};
use std::io::{self, Write};

/// Writes that something failed, with the system's words where it gave some.
fn tell_error<W: Write>(to: &mut W, what: &str, error: Option<&io::Error>) -> io::Result<()> {
    match error {
        Some(error) => writeln!(to, "prelink: {what}: {error}"),
        None => writeln!(to, "prelink: {what}."),
    }
}

/// Writes that the input failed.
pub fn tell_input<W: Write>(to: &mut W, error: Option<&io::Error>) -> io::Result<()> {
    tell_error(to, faults::INPUT, error)
}

/// Writes that the output failed.
pub fn tell_output<W: Write>(to: &mut W, error: Option<&io::Error>) -> io::Result<()> {
    tell_error(to, faults::OUTPUT, error)
}

/// Writes which call of the folder failed, and why.
fn tell_fault<W: Write>(to: &mut W, fault: &FirstFault) -> io::Result<()> {
    to.write_all(b"prelink: ")?;
    let name = fault.name.as_str();
    if !name.is_empty() {
        write!(to, "{name}: ")?;
    }
    match &fault.reason {
        Reason::System(error) => writeln!(to, "{}: {error}", faults::sentence(fault.call)),
        reason => writeln!(to, "{}", faults::reason(reason).unwrap_or(faults::FOLDER)),
    }
}

/// Writes that the folder failed.
pub fn tell_folder<W: Write>(to: &mut W, fault: Option<&FirstFault>) -> io::Result<()> {
    match fault {
        Some(fault) => tell_fault(to, fault),
        None => writeln!(to, "prelink: {}.", faults::FOLDER),
    }
}
