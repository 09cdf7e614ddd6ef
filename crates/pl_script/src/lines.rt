// The lines of a script and the words of a line.
ghost use Rattle.std.specs.Prelude.{◌≡◌, ◌∷◌, [], IfOk, map};
ghost use Rattle.std.specs.Option.{option_map};
ghost use Rattle.pl_script.specs.Grammar as spec;

use crate::grammar::line_of;
use crate::line::Line;
use bstr::ByteSlice;
use pl_base::{Text, valid_text};
use std::alloc::{AllocError, Global};

/// The words of a line, each of which is a valid name; none where one is not.
#[tactic(auto, unfolding(crate::specs::Grammar::valid_words, crate::specs::Grammar::pieces))]
fn valid_words(alloc: Global, line: &[u8]) -> Result<Option<Vec<Text>>, AllocError>
    ensures { IfOk result (λ words. option_map (λ v. v.items) words ≡ spec.valid_words line.now) }
{
    let mut words = Vec::new(alloc);
    for piece in line.split_str(b" ") {
        let Some(word) = valid_text(piece) else {
            return Ok(None);
        };
        words.push(Text::copy_of(alloc, word)?)?;
    }
    Ok(Some(words))
}

/// The line that a text spells.
#[tactic(auto, unfolding(crate::specs::Grammar::line))]
fn line(alloc: Global, text: &[u8]) -> Result<Line, AllocError>
    ensures { IfOk result (λ line. line ≡ spec.line text.now) }
{
    match valid_words(alloc, text)? {
        Some(words) => line_of(alloc, words.as_slice()),
        None => Ok(Line::Wrong),
    }
}

/// A text without the newline that ends it, if one does.
#[tactic(auto, unfolding(crate::specs::Grammar::body))]
fn body(text: &[u8]) -> &[u8]
    ensures { result.now ≡ spec.body text.now }
{
    if text.ends_with(b"\n") {
        &text[..text.len().saturating_sub(1)]
    } else {
        text
    }
}

/// The lines between the newlines of a text.
#[tactic(auto, unfolding(crate::specs::Grammar::pieces))]
fn parted(alloc: Global, text: &[u8]) -> Result<Vec<Line>, AllocError>
    ensures { IfOk result (λ v. v.items ≡ map spec.line (spec.pieces (10 ∷ []) text.now)) }
{
    let mut lines = Vec::new(alloc);
    for piece in text.split_str(b"\n") {
        lines.push(line(alloc, piece)?)?;
    }
    Ok(lines)
}

/// The lines of a script.
#[tactic(auto, unfolding(crate::specs::Grammar::lines_of))]
pub fn lines(alloc: Global, text: &[u8]) -> Result<Vec<Line>, AllocError>
    ensures { IfOk result (λ v. v.items ≡ map spec.line (spec.lines_of text.now)) }
{
    if text.is_empty() {
        return Ok(Vec::new(alloc));
    }
    parted(alloc, body(text))
}
