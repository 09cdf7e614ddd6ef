// A line by its words.
ghost use Rattle.std.specs.Prelude.{◌≡◌, IfOk};
ghost use Rattle.pl_build.specs.Grammar as spec;

use crate::kind::FileKind;
use crate::line::{DataWord, Hashes, Line, TlsBlock};
use crate::names::is;
use crate::relocation_lines::rel_line;
use crate::symbol_lines::{def_line, ref_line};
use crate::words::{copy_of, number, pieces, word};
use pl_base::{Rows, is_valid_name};
use std::alloc::{AllocError, Global};

#[tactic(auto, unfolding(crate::specs::Grammar::bare))]
fn bare(text: &[u8]) -> Line
    ensures { result ≡ spec.bare text.now }
{
    if is(text, b"") {
        Line::Empty
    } else if is(text, b"program") {
        Line::First(FileKind::Program)
    } else if is(text, b"pie") {
        Line::First(FileKind::Pie)
    } else if is(text, b"library") {
        Line::First(FileKind::Library)
    } else if is(text, b"static") {
        Line::First(FileKind::Static)
    } else if is(text, b"usual") {
        Line::Usual
    } else if is(text, b"symbolic") {
        Line::Symbolic
    } else {
        Line::Wrong
    }
}

#[tactic(auto, unfolding(crate::specs::Grammar::number_line))]
fn number_line(keyword: &[u8], number: u64) -> Line
    ensures { result ≡ spec.number_line keyword.now number }
{
    if is(keyword, b"buckets") {
        Line::Buckets(number)
    } else if is(keyword, b"spare") {
        Line::Spare(number)
    } else if is(keyword, b"entry") {
        Line::Entry(number)
    } else if is(keyword, b"data") {
        Line::Data(number)
    } else if is(keyword, b"bss") {
        Line::Bss(number)
    } else {
        Line::Wrong
    }
}

#[tactic(auto, unfolding(crate::specs::Grammar::hash_line))]
fn hash_line(text: &[u8]) -> Line
    ensures { result ≡ spec.hash_line text.now }
{
    if is(text, b"sysv") {
        Line::Hash(Hashes {
            sysv: true,
            gnu: false,
        })
    } else if is(text, b"gnu") {
        Line::Hash(Hashes {
            sysv: false,
            gnu: true,
        })
    } else if is(text, b"both") {
        Line::Hash(Hashes {
            sysv: true,
            gnu: true,
        })
    } else {
        Line::Wrong
    }
}

#[tactic(auto, unfolding(crate::specs::Grammar::number_line_by))]
fn number_line_by(keyword: &[u8], text: &[u8]) -> Line
    ensures { result ≡ spec.number_line_by keyword.now text.now }
{
    match number(text) {
        Some(n) => number_line(keyword, n),
        None => Line::Wrong,
    }
}

#[tactic(auto, unfolding(crate::specs::Grammar::needs_line))]
fn needs_line(alloc: Global, text: &[u8]) -> Result<Line, AllocError>
    ensures { IfOk result (λ line. line ≡ spec.needs_line text.now) }
{
    if !is_valid_name(text) {
        return Ok(Line::Wrong);
    }
    Ok(Line::Needs(copy_of(alloc, text)?))
}

#[tactic(auto, unfolding(crate::specs::Grammar::version_line))]
fn version_line(alloc: Global, text: &[u8]) -> Result<Line, AllocError>
    ensures { IfOk result (λ line. line ≡ spec.version_line text.now) }
{
    if !is_valid_name(text) {
        return Ok(Line::Wrong);
    }
    Ok(Line::Version(copy_of(alloc, text)?))
}

#[tactic(auto, unfolding(crate::specs::Grammar::pair))]
fn pair(alloc: Global, keyword: &[u8], text: &[u8]) -> Result<Line, AllocError>
    ensures { IfOk result (λ line. line ≡ spec.pair keyword.now text.now) }
{
    if is(keyword, b"needs") {
        return needs_line(alloc, text);
    }
    if is(keyword, b"version") {
        return version_line(alloc, text);
    }
    if is(keyword, b"hash") {
        return Ok(hash_line(text));
    }
    Ok(number_line_by(keyword, text))
}

#[tactic(auto, unfolding(crate::specs::Grammar::word_line))]
fn word_line(words: &[Rows<u8>]) -> Line
    ensures { result ≡ spec.word_line words.now }
{
    let Some(offset) = number(word(words, 1)) else {
        return Line::Wrong;
    };
    let Some(value) = number(word(words, 2)) else {
        return Line::Wrong;
    };
    Line::Put(DataWord { offset, value })
}

#[tactic(auto, unfolding(crate::specs::Grammar::tls_line))]
fn tls_line(words: &[Rows<u8>]) -> Line
    ensures { result ≡ spec.tls_line words.now }
{
    let Some(offset) = number(word(words, 1)) else {
        return Line::Wrong;
    };
    let Some(filesz) = number(word(words, 2)) else {
        return Line::Wrong;
    };
    let Some(memsz) = number(word(words, 3)) else {
        return Line::Wrong;
    };
    let Some(align) = number(word(words, 4)) else {
        return Line::Wrong;
    };
    Line::Tls(TlsBlock {
        offset,
        filesz,
        memsz,
        align,
    })
}

#[tactic(auto, unfolding(crate::specs::Grammar::longer))]
fn longer(alloc: Global, words: &[Rows<u8>]) -> Result<Line, AllocError>
    ensures { IfOk result (λ line. line ≡ spec.longer words.now) }
{
    let keyword = word(words, 0);
    if is(keyword, b"word") && words.len() == 3 {
        return Ok(word_line(words));
    }
    if is(keyword, b"tls") && words.len() == 5 {
        return Ok(tls_line(words));
    }
    if is(keyword, b"rel") && words.len() == 5 {
        return rel_line(alloc, words);
    }
    if is(keyword, b"def") {
        return def_line(alloc, words);
    }
    if is(keyword, b"ref") {
        return ref_line(alloc, words);
    }
    Ok(Line::Wrong)
}

#[tactic(auto, unfolding(crate::specs::Grammar::line_of))]
fn line_of(alloc: Global, words: &[Rows<u8>]) -> Result<Line, AllocError>
    ensures { IfOk result (λ line. line ≡ spec.line_of words.now) }
{
    if words.len() == 1 {
        return Ok(bare(word(words, 0)));
    }
    if words.len() == 2 {
        return pair(alloc, word(words, 0), word(words, 1));
    }
    longer(alloc, words)
}

/// The line that a text spells.
#[tactic(auto, unfolding(crate::specs::Grammar::line))]
pub fn line(alloc: Global, text: &[u8]) -> Result<Line, AllocError>
    ensures { IfOk result (λ line. line ≡ spec.line text.now) }
{
    let words = pieces(alloc, text, b" ")?;
    line_of(alloc, words.as_slice())
}
