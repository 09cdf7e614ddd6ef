// Numbers and ranges in words.
ghost use Rattle.std.specs.Prelude.{◌≡◌, ◌≤◌, true, nat_lt};
ghost use Rattle.std.specs.List.{list_all};
ghost use Rattle.std.specs.Char.{digit_value};
ghost use Rattle.pl_words.specs.Numbers as spec;

use crate::WordsFault;
use pl_base::is_aligned;
use pl_elf::Range;
use pl_elf::constants::{ADDRESS_LIMIT, PAGE};

#[tactic(auto, unfolding(crate::specs::Numbers::is_decimal_digit))]
fn is_decimal_digit(digit: u8) -> bool
    ensures { result ≡ spec.is_decimal_digit digit }
{
    digit.is_ascii_digit()
}

#[tactic(auto, unfolding(crate::specs::Numbers::is_hexadecimal_digit))]
fn is_hexadecimal_digit(digit: u8) -> bool
    ensures { result ≡ spec.is_hexadecimal_digit digit }
{
    is_decimal_digit(digit) || (b'a'..=b'f').contains(&digit)
}

fn has_decimal_digits(text: &[u8]) -> bool
    ensures { result ≡ list_all spec.is_decimal_digit text.now }
{
    text.iter().all(|digit| is_decimal_digit(*digit))
}

fn has_hexadecimal_digits(text: &[u8]) -> bool
    ensures { result ≡ list_all spec.is_hexadecimal_digit text.now }
{
    text.iter().all(|digit| is_hexadecimal_digit(*digit))
}

#[tactic(auto, unfolding(crate::specs::Numbers::is_decimal))]
fn is_decimal(text: &str) -> bool
    ensures { result ≡ spec.is_decimal text.now }
{
    !text.is_empty() && has_decimal_digits(text.as_bytes())
}

#[tactic(auto, unfolding(crate::specs::Numbers::is_hexadecimal))]
fn is_hexadecimal(text: &str) -> bool
    ensures { result ≡ spec.is_hexadecimal text.now }
{
    !text.is_empty() && text.len() <= 16 && has_hexadecimal_digits(text.as_bytes())
}

/// The number that decimal digits alone spell, at least one. Zeros may stand first. It has at most 64 bits. Of another text it is Usage. It takes no memory.
#[tactic(auto, using(crate::proofs::NumberLaws::parsed_decimal), unfolding(crate::specs::Numbers::decimal))]
pub fn decimal(text: &str) -> Result<u64, WordsFault>
    ensures { result ≡ spec.decimal text.now }
{
    if !is_decimal(text) {
        return Err(WordsFault::Usage);
    }
    match text.parse::<u64>() {
        Ok(number) => Ok(number),
        Err(_) => Err(WordsFault::Usage),
    }
}

/// The number that 1 to 16 lower-case hexadecimal digits spell; Usage of another text.
#[tactic(auto, using(crate::proofs::NumberLaws::parsed_hexadecimal), unfolding(crate::specs::Numbers::hexadecimal))]
fn hexadecimal(text: &str) -> Result<u64, WordsFault>
    ensures { result ≡ spec.hexadecimal text.now }
{
    if !is_hexadecimal(text) {
        return Err(WordsFault::Usage);
    }
    match u64::from_str_radix(text, 16) {
        Ok(number) => Ok(number),
        Err(_) => Err(WordsFault::Usage),
    }
}

/// Whether a range is of whole pages, is not empty and ends at or below 2^47.
#[tactic(auto, unfolding(crate::specs::Numbers::is_range))]
fn is_range(range: Range) -> bool
    ensures { result ≡ spec.is_range range }
{
    is_aligned(range.start, PAGE)
        && is_aligned(range.end, PAGE)
        && range.start < range.end
        && range.end <= ADDRESS_LIMIT
}

/// The range of addresses that a text `S-E` spells: two hexadecimal numbers of whole pages, the first below the second, which is at most 2^47. Of another text it is Usage. It takes no memory.
#[tactic(auto, unfolding(crate::specs::Numbers::range))]
pub fn range(text: &str) -> Result<Range, WordsFault>
    ensures { result ≡ spec.range text.now }
{
    let Some((start, end)) = text.split_once('-') else {
        return Err(WordsFault::Usage);
    };
    let range = Range {
        start: hexadecimal(start)?,
        end: hexadecimal(end)?,
    };
    if is_range(range) {
        Ok(range)
    } else {
        Err(WordsFault::Usage)
    }
}
