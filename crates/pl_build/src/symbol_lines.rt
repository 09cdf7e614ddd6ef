// The lines `def` and `ref`.
ghost use Rattle.std.specs.Prelude.{◌≡◌, IfOk};
ghost use Rattle.pl_build.specs.SymbolLines as spec;

use crate::line::{Line, SymbolLine};
use crate::names::is;
use crate::symbols::named_symbol;
use crate::words::{has_version, is_doubled, is_written, name_of, number, rest, version_of, word};
use pl_base::{Rows, is_valid_name};
use pl_sym::constants::{
    STB_GLOBAL, STB_GNU_UNIQUE, STB_WEAK, STT_FUNC, STT_GNU_IFUNC, STT_NOTYPE, STT_OBJECT, STT_TLS,
    STV_DEFAULT, STV_HIDDEN, STV_PROTECTED,
};
use std::alloc::{AllocError, Global};

#[tactic(auto, unfolding(crate::specs::SymbolLines::bind_of))]
fn bind_of(text: &[u8]) -> Option<u8>
    ensures { result ≡ spec.bind_of text.now }
{
    if is(text, b"global") {
        Some(STB_GLOBAL)
    } else if is(text, b"weak") {
        Some(STB_WEAK)
    } else if is(text, b"unique") {
        Some(STB_GNU_UNIQUE)
    } else {
        None
    }
}

#[tactic(auto, unfolding(crate::specs::SymbolLines::symbol_type))]
fn symbol_type(text: &[u8]) -> Option<u8>
    ensures { result ≡ spec.symbol_type text.now }
{
    if is(text, b"object") {
        Some(STT_OBJECT)
    } else if is(text, b"func") {
        Some(STT_FUNC)
    } else if is(text, b"tls") {
        Some(STT_TLS)
    } else if is(text, b"abs") {
        Some(STT_NOTYPE)
    } else if is(text, b"ifunc") {
        Some(STT_GNU_IFUNC)
    } else {
        None
    }
}

#[tactic(auto, unfolding(crate::specs::SymbolLines::visibility_of))]
fn visibility_of(words: &[Rows<u8>]) -> u8
    ensures { result ≡ spec.visibility_of words.now }
{
    if is(word(words, 0), b"protected") {
        STV_PROTECTED
    } else if is(word(words, 0), b"hidden") {
        STV_HIDDEN
    } else {
        STV_DEFAULT
    }
}

#[tactic(auto, unfolding(crate::specs::SymbolLines::after_visibility))]
fn after_visibility(words: &[Rows<u8>]) -> &[Rows<u8>]
    ensures { result.now ≡ spec.after_visibility words.now }
{
    if visibility_of(words) == STV_DEFAULT {
        words
    } else {
        rest(words, 1)
    }
}

#[tactic(auto, unfolding(crate::specs::SymbolLines::has_file))]
fn has_file(words: &[Rows<u8>]) -> bool
    ensures { result ≡ spec.has_file words.now }
{
    is(word(words, 0), b"from")
}

#[tactic(auto, unfolding(crate::specs::SymbolLines::named_file))]
fn named_file(words: &[Rows<u8>]) -> &[u8]
    ensures { result.now ≡ spec.named_file words.now }
{
    if has_file(words) { word(words, 1) } else { &[] }
}

#[tactic(auto, unfolding(crate::specs::SymbolLines::after_file))]
fn after_file(words: &[Rows<u8>]) -> &[Rows<u8>]
    ensures { result.now ≡ spec.after_file words.now }
{
    if has_file(words) {
        rest(words, 2)
    } else {
        words
    }
}

#[tactic(auto, unfolding(crate::specs::SymbolLines::has_place))]
fn has_place(words: &[Rows<u8>]) -> bool
    ensures { result ≡ spec.has_place words.now }
{
    is(word(words, 0), b"at")
}

#[tactic(auto, unfolding(crate::specs::SymbolLines::place_offset))]
fn place_offset(words: &[Rows<u8>]) -> Option<u64>
    ensures { result ≡ spec.place_offset words.now }
{
    if has_place(words) {
        number(word(words, 1))
    } else {
        Some(0)
    }
}

#[tactic(auto, unfolding(crate::specs::SymbolLines::after_place))]
fn after_place(words: &[Rows<u8>]) -> &[Rows<u8>]
    ensures { result.now ≡ spec.after_place words.now }
{
    if has_place(words) {
        rest(words, 2)
    } else {
        words
    }
}

#[tactic(auto, unfolding(crate::specs::SymbolLines::is_def))]
fn is_def(text: &[u8], words: &[Rows<u8>]) -> bool
    ensures { result ≡ spec.is_def text.now words.now }
{
    is_written(text)
        && (!has_file(words) || has_version(text) && is_valid_name(named_file(words)))
        && after_file(words).is_empty()
}

#[tactic(auto, unfolding(crate::specs::SymbolLines::def_named))]
fn def_named(
    alloc: Global,
    text: &[u8],
    bind: u8,
    kind: u8,
    offset: u64,
    size: u64,
    words: &[Rows<u8>],
) -> Result<Line, AllocError>
    ensures { IfOk result (λ line. line ≡ spec.def_named text.now bind kind offset size words.now) }
{
    if !is_def(text, after_visibility(words)) {
        return Ok(Line::Wrong);
    }
    let file = named_file(after_visibility(words));
    let named = named_symbol(alloc, text, name_of(text), version_of(text), file)?;
    Ok(Line::Names(SymbolLine {
        defined: true,
        default_version: is_doubled(text),
        bind,
        kind,
        visibility: visibility_of(words),
        placed: true,
        offset,
        size,
        ..named
    }))
}

/// The line of words that begin with `def`.
#[tactic(auto, unfolding(crate::specs::SymbolLines::def_line))]
pub fn def_line(alloc: Global, words: &[Rows<u8>]) -> Result<Line, AllocError>
    ensures { IfOk result (λ line. line ≡ spec.def_line words.now) }
{
    let Some(bind) = bind_of(word(words, 2)) else {
        return Ok(Line::Wrong);
    };
    let Some(kind) = symbol_type(word(words, 3)) else {
        return Ok(Line::Wrong);
    };
    let Some(offset) = number(word(words, 4)) else {
        return Ok(Line::Wrong);
    };
    let Some(size) = number(word(words, 5)) else {
        return Ok(Line::Wrong);
    };
    def_named(
        alloc,
        word(words, 1),
        bind,
        kind,
        offset,
        size,
        rest(words, 6),
    )
}

#[tactic(auto, unfolding(crate::specs::SymbolLines::has_fitting_version))]
fn has_fitting_version(text: &[u8], words: &[Rows<u8>]) -> bool
    ensures { result ≡ spec.has_fitting_version text.now words.now }
{
    if has_file(words) {
        has_version(text) && is_valid_name(named_file(words))
    } else {
        !has_version(text)
    }
}

#[tactic(auto, unfolding(crate::specs::SymbolLines::is_ref))]
fn is_ref(text: &[u8], words: &[Rows<u8>]) -> bool
    ensures { result ≡ spec.is_ref text.now words.now }
{
    is_written(text)
        && !is_doubled(text)
        && has_fitting_version(text, words)
        && after_place(after_file(words)).is_empty()
}

#[tactic(auto, unfolding(crate::specs::SymbolLines::ref_named))]
fn ref_named(
    alloc: Global,
    text: &[u8],
    bind: u8,
    kind: u8,
    offset: u64,
    words: &[Rows<u8>],
) -> Result<Line, AllocError>
    ensures { IfOk result (λ line. line ≡ spec.ref_named text.now bind kind offset words.now) }
{
    if !is_ref(text, words) {
        return Ok(Line::Wrong);
    }
    let file = named_file(words);
    let named = named_symbol(alloc, text, name_of(text), version_of(text), file)?;
    Ok(Line::Names(SymbolLine {
        bind,
        kind,
        visibility: STV_DEFAULT,
        placed: has_place(after_file(words)),
        offset,
        ..named
    }))
}

/// The line of words that begin with `ref`.
#[tactic(auto, unfolding(crate::specs::SymbolLines::ref_line))]
pub fn ref_line(alloc: Global, words: &[Rows<u8>]) -> Result<Line, AllocError>
    ensures { IfOk result (λ line. line ≡ spec.ref_line words.now) }
{
    let Some(bind) = bind_of(word(words, 2)) else {
        return Ok(Line::Wrong);
    };
    let Some(kind) = symbol_type(word(words, 3)) else {
        return Ok(Line::Wrong);
    };
    let Some(offset) = place_offset(after_file(rest(words, 4))) else {
        return Ok(Line::Wrong);
    };
    ref_named(alloc, word(words, 1), bind, kind, offset, rest(words, 4))
}
