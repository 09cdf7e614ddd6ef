// The line of a refusal, and what is said of it.
use crate::table::row;
use crate::{causes, clauses, forms, recipes};
use std::io::{self, Write};

/// What is said of a line that is none of a refusal.
const REFUSED: &str = "The command was refused.";

/// What the line of a refusal tells: its cause, and the words behind it.
#[derive(Clone, Copy)]
struct Refusal<'a> {
    cause: &'a str,
    first: Option<&'a str>,
    second: Option<&'a str>,
}

/// What a line tells that begins with `refused`.
fn read_refusal(line: &[u8]) -> Option<Refusal<'_>> {
    let text = str::from_utf8(line).ok()?;
    let (start, rest) = text.split_once(' ')?;
    if start != "refused" {
        return None;
    }
    let mut words = rest.split(' ');
    let cause = words.next()?;
    let first = words.next();
    let second = words.next();
    Some(Refusal {
        cause,
        first,
        second,
    })
}

impl<'a> Refusal<'a> {
    /// Writes the name, the symbol or the line that the cause is about.
    fn tell_about<W: Write>(&self, to: &mut W) -> io::Result<()> {
        match (self.cause, self.first, self.second) {
            ("StampsSpent", _, _) => Ok(()),
            ("Recipe" | "Script", Some(line), _) => write!(to, "Line {line}: "),
            (
                "Undefined" | "UndefinedTls" | "TlsMismatch" | "CopyOutside",
                Some(name),
                Some(symbol),
            ) => { write!(to, "{name}: {symbol}: ") }
            (_, Some(name), _) => write!(to, "{name}: "),
            (_, None, _) => Ok(()),
        }
    }

    /// Writes the sentence of the cause.
    fn tell_cause<W: Write>(&self, to: &mut W) -> io::Result<()> {
        let sentence = row(causes::SENTENCES, self.cause).unwrap_or(REFUSED);
        to.write_all(b"prelink: ")?;
        self.tell_about(to)?;
        writeln!(to, "{sentence}")
    }

    /// Writes the sentence of the number that stands with the cause, and what can be done about it.
    fn tell_number<W: Write>(&self, to: &mut W) -> io::Result<()> {
        let number = self.second.unwrap_or("");
        let (kind, sentence, remedy) = match self.cause {
            "Refused" => (
                "Acceptance clause",
                row(clauses::SENTENCES, number),
                row(clauses::REMEDIES, number),
            ),
            "Form" => (
                "Form fault",
                row(forms::SENTENCES, number),
                row(forms::REMEDIES, number),
            ),
            "Recipe" => ("Fault", row(recipes::SENTENCES, number), None),
            _ => ("", None, None),
        };
        if let Some(sentence) = sentence {
            writeln!(to, "prelink: {kind} {number}: {sentence}")?;
        }
        tell_remedy(to, remedy)
    }
}

/// Writes what can be done, if anything is known.
fn tell_remedy<W: Write>(to: &mut W, remedy: Option<&str>) -> io::Result<()> {
    match remedy {
        Some(remedy) => writeln!(to, "prelink: {remedy}"),
        None => Ok(()),
    }
}

/// Writes why a command was refused, by the line that says so.
pub fn tell_refusal<W: Write>(to: &mut W, line: &[u8]) -> io::Result<()> {
    let Some(refusal) = read_refusal(line) else {
        return writeln!(to, "prelink: {REFUSED}");
    };
    refusal.tell_cause(to)?;
    refusal.tell_number(to)?;
    tell_remedy(to, row(causes::REMEDIES, refusal.cause))
}
