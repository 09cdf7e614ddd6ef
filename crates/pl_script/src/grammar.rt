// A line by its words.
ghost use Rattle.std.specs.Prelude.{◌≡◌, IfOk};
ghost use Rattle.std.specs.Str.{bytes_eq};
ghost use Rattle.pl_script.specs.Grammar as spec;

use crate::line::{Line, RunLine};
use crate::number::number;
use pl_base::{Rows, Text};
use std::alloc::{AllocError, Global};

/// Whether a word is this one.
fn is(text: &str, word: &[u8]) -> bool
    ensures { result ≡ bytes_eq text.now word.now }
{
    text.as_bytes() == word
}

/// Copies of texts.
pub fn copies_of(alloc: Global, texts: &[Text]) -> Result<Rows<Text>, AllocError>
    ensures { IfOk result (λ copies. copies ≡ texts.now) }
{
    let mut copies = Rows::new(alloc);
    for text in texts {
        copies.push(Text::copy_of(alloc, text.as_str())?)?;
    }
    Ok(copies)
}

fn prelink_line(now: Option<u32>) -> Line
    ensures { result ≡ spec.prelink_line now }
{
    match now {
        None => Line::Wrong,
        Some(now) => Line::Runs(RunLine::Prelink { now }),
    }
}

fn open_line(loader: Option<u32>) -> Line
    ensures { result ≡ spec.open_line loader }
{
    match loader {
        None => Line::Wrong,
        Some(loader) => Line::Open { loader },
    }
}

/// A keyword and one word.
#[tactic(auto, unfolding(crate::specs::Grammar::pair))]
fn pair(alloc: Global, keyword: &str, word: &str) -> Result<Line, AllocError>
    ensures { IfOk result (λ line. line ≡ spec.pair keyword.now word.now) }
{
    if is(keyword, b"load") {
        let name = Text::copy_of(alloc, word)?;
        return Ok(Line::Load { name });
    }
    if is(keyword, b"prelink") {
        return Ok(prelink_line(number(word)));
    }
    if is(keyword, b"open") {
        return Ok(open_line(number(word)));
    }
    Ok(Line::Wrong)
}

/// A keyword and two words.
fn install_line(alloc: Global, keyword: &str, name: &str, from: &str) -> Result<Line, AllocError>
    ensures { IfOk result (λ line. line ≡ spec.install_line keyword.now name.now from.now) }
{
    if !is(keyword, b"install") {
        return Ok(Line::Wrong);
    }
    let name = Text::copy_of(alloc, name)?;
    let from = Text::copy_of(alloc, from)?;
    Ok(Line::Runs(RunLine::Install { name, from }))
}

/// The line of the keyword `undo`.
fn undo_line(alloc: Global, names: &[Text]) -> Result<RunLine, AllocError>
    ensures { IfOk result (λ run. run ≡ spec.undo_line names.now) }
{
    if names.is_empty() {
        return Ok(RunLine::UndoAll);
    }
    let names = copies_of(alloc, names)?;
    Ok(RunLine::Undo { names })
}

/// The line of another keyword.
#[tactic(auto, unfolding(crate::specs::Grammar::other_line))]
fn other_line(alloc: Global, keyword: &str, words: &[Text]) -> Result<Line, AllocError>
    ensures { IfOk result (λ line. line ≡ spec.other_line keyword.now words.now) }
{
    match words {
        [] => Ok(if is(keyword, b"rename") {
            Line::Rename
        } else {
            Line::Wrong
        }),
        [word] => pair(alloc, keyword, word.as_str()),
        [name, from] => install_line(alloc, keyword, name.as_str(), from.as_str()),
        _ => Ok(Line::Wrong),
    }
}

#[tactic(auto, unfolding(crate::specs::Grammar::line_by))]
fn line_by(alloc: Global, keyword: &str, words: &[Text]) -> Result<Line, AllocError>
    ensures { IfOk result (λ line. line ≡ spec.line_by keyword.now words.now) }
{
    if is(keyword, b"undo") {
        let run = undo_line(alloc, words)?;
        return Ok(Line::Runs(run));
    }
    other_line(alloc, keyword, words)
}

/// What words say.
#[tactic(auto, unfolding(crate::specs::Grammar::line_of))]
pub fn line_of(alloc: Global, words: &[Text]) -> Result<Line, AllocError>
    ensures { IfOk result (λ line. line ≡ spec.line_of words.now) }
{
    match words {
        [] => Ok(Line::Wrong),
        [keyword, others @ ..] => line_by(alloc, keyword.as_str(), others),
    }
}
