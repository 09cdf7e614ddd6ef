// The words of a line, and the numbers and written names among them.
ghost use Rattle.std.specs.Prelude.{◌≡◌, ◌<◌, ◌+◌, ◌∷◌, ◌++◌, [], IfOk, OnOk, drop, take};
ghost use Rattle.std.specs.List.{list_all};
ghost use Rattle.pl_build.specs.Words as spec;

use bstr::ByteSlice;
use pl_base::{Rows, is_valid_name};
use std::alloc::{AllocError, Global};

/// A copy of some bytes.
pub fn copy_of(alloc: Global, bytes: &[u8]) -> Result<Rows<u8>, AllocError>
    ensures { IfOk result (λ copy. copy ≡ bytes.now) }
{
    let copy = Vec::from_slice(alloc, bytes)?;
    Ok(Rows::from_vec(copy))
}

fn push_piece(alloc: Global, pieces: &mut Vec<Rows<u8>>, piece: &[u8]) -> Result<(), AllocError>
    ensures { OnOk result (pieces.new.items ≡ pieces.old.items ++ piece.now ∷ []) }
{
    pieces.push(copy_of(alloc, piece)?)?;
    Ok(())
}

/// The pieces of a text between a separator's places.
#[tactic(auto, unfolding(crate::specs::Words::pieces))]
pub fn pieces(alloc: Global, text: &[u8], separator: &[u8]) -> Result<Vec<Rows<u8>>, AllocError>
    ensures { IfOk result (λ v. v.items ≡ spec.pieces separator.now text.now) }
{
    let mut pieces = Vec::new(alloc);
    for piece in text.split_str(separator) {
        push_piece(alloc, &mut pieces, piece)?;
    }
    Ok(pieces)
}

/// The word at an index; past the last word an empty one.
pub fn word(words: &[Rows<u8>], index: usize) -> &[u8]
    ensures { result.now ≡ spec.word index words.now }
{
    match words.get(index) {
        Some(word) => word.as_slice(),
        None => &[],
    }
}

/// The items from an index on; past the last one none.
#[tactic(auto, using(std::proofs::lemmas::List::drop_all))]
pub fn rest<T>(items: &[T], index: usize) -> &[T]
    ensures { result.now ≡ drop index items.now }
{
    if index < items.len() {
        &items[index..]
    } else {
        &[]
    }
}

#[tactic(auto, using(std::proofs::lemmas::List::take_all))]
fn bytes_before(bytes: &[u8], index: usize) -> &[u8]
    ensures { result.now ≡ take index bytes.now }
{
    if index < bytes.len() {
        &bytes[..index]
    } else {
        bytes
    }
}

#[tactic(auto, unfolding(crate::specs::Words::is_digit))]
fn is_digit(digit: u8) -> bool
    ensures { result ≡ spec.is_digit digit }
{
    (b'0'..=b'9').contains(&digit) || (b'a'..=b'f').contains(&digit)
}

fn has_digits(text: &[u8]) -> bool
    ensures { result ≡ list_all spec.is_digit text.now }
{
    text.iter().all(|digit| is_digit(*digit))
}

#[tactic(auto, unfolding(crate::specs::Words::is_number))]
fn is_number(text: &[u8]) -> bool
    ensures { result ≡ spec.is_number text.now }
{
    !text.is_empty() && text.len() <= 16 && has_digits(text)
}

#[tactic(auto, unfolding(crate::specs::Words::digit))]
fn digit(digit: u8) -> u8
    ensures { result ≡ spec.digit digit }
{
    if digit >= b'a' {
        digit - b'a' + 10
    } else {
        digit.saturating_sub(b'0')
    }
}

#[tactic(auto, unfolding(crate::specs::Words::digit_more))]
fn digit_more(number: u64, more: u8) -> u64
    ensures { result ≡ spec.digit_more number more }
{
    number.wrapping_mul(16).wrapping_add(u64::from(digit(more)))
}

#[tactic(auto, unfolding(crate::specs::Words::value))]
fn value(text: &[u8]) -> u64
    ensures { result ≡ spec.value text.now }
{
    text.iter()
        .fold(0, |number, digit| digit_more(number, *digit))
}

/// The number that 1 to 16 lower-case hexadecimal digits spell.
#[tactic(auto, unfolding(crate::specs::Words::number))]
pub fn number(text: &[u8]) -> Option<u64>
    ensures { result ≡ spec.number text.now }
{
    if is_number(text) {
        Some(value(text))
    } else {
        None
    }
}

/// Whether an addend has a sign.
#[tactic(auto, unfolding(crate::specs::Words::is_negative))]
pub fn is_negative(text: &[u8]) -> bool
    ensures { result ≡ spec.is_negative text.now }
{
    text.starts_with(b"-")
}

/// The number of an addend, behind its sign.
#[tactic(auto, unfolding(crate::specs::Words::magnitude))]
pub fn magnitude(text: &[u8]) -> Option<u64>
    ensures { result ≡ spec.magnitude text.now }
{
    if is_negative(text) {
        number(rest(text, 1))
    } else {
        number(text)
    }
}

#[tactic(auto, unfolding(crate::specs::Words::cut))]
fn cut(text: &[u8]) -> Option<usize>
    ensures { result ≡ spec.cut text.now }
{
    text.iter().position(|byte| *byte == b'@')
}

/// A written name without its version.
#[tactic(auto, unfolding(crate::specs::Words::name_of))]
pub fn name_of(text: &[u8]) -> &[u8]
    ensures { result.now ≡ spec.name_of text.now }
{
    match cut(text) {
        Some(at) => bytes_before(text, at),
        None => text,
    }
}

/// Whether a written name has a version.
#[tactic(auto, unfolding(crate::specs::Words::has_version))]
pub fn has_version(text: &[u8]) -> bool
    ensures { result ≡ spec.has_version text.now }
{
    cut(text).is_some()
}

fn after_cut(text: &[u8]) -> &[u8]
    ensures { result.now ≡ spec.after_cut text.now (spec.cut text.now) }
{
    match cut(text) {
        Some(at) => rest(rest(text, at), 1),
        None => &[],
    }
}

/// Whether two signs `@` stand before the version of a written name.
#[tactic(auto, unfolding(crate::specs::Words::is_doubled))]
pub fn is_doubled(text: &[u8]) -> bool
    ensures { result ≡ spec.is_doubled text.now }
{
    after_cut(text).starts_with(b"@")
}

/// The version of a written name, empty for none.
#[tactic(auto, unfolding(crate::specs::Words::version_of))]
pub fn version_of(text: &[u8]) -> &[u8]
    ensures { result.now ≡ spec.version_of text.now }
{
    if is_doubled(text) {
        rest(after_cut(text), 1)
    } else {
        after_cut(text)
    }
}

/// Whether the parts of a written name are valid names.
#[tactic(auto, unfolding(crate::specs::Words::is_written))]
pub fn is_written(text: &[u8]) -> bool
    ensures { result ≡ spec.is_written text.now }
{
    is_valid_name(name_of(text)) && (!has_version(text) || is_valid_name(version_of(text)))
}
