// Strings of a string table.
ghost use Rattle.std.specs.Prelude.{◌≡◌, ℕ, nat_lt, position};
ghost use Rattle.std.specs.Option.{option_map};
ghost use Rattle.pl_base.specs.Strings as spec;

use std::marker::Model;

/// The strings of a table, each ended by a 0 byte. Contracts see them as their bytes. Whether a string has an end is told in a time that does not grow with the table, but for one walk over it in `new`.
#[derive(Drop)]
pub struct Strings<'a> {
    bytes: &'a [u8],

    /// How many bytes there are up to and with the last 0: exactly a string that begins in these has an end.
    up_to_last_zero: usize,
}

impl<'a> Model for Strings<'a> {
    ghost use Rattle.std.specs.Prelude.{◌≡◌, ℕ, List, nat_lt};
    ghost use Rattle.pl_base.specs.Strings.{has_end};

    ghost Value = { List ℕ };

    ghost view = { λ s. s.bytes.now };

    ghost invariant = { λ s. (at : ℕ) → has_end at s.bytes.now ≡ nat_lt at s.up_to_last_zero };
}

impl<'a> Strings<'a> {
    /// The strings of a table's bytes.
    pub fn new(bytes: &'a [u8]) -> Strings<'a>
        ensures { result ≡ bytes.now }
    {
        Strings {
            bytes,
            up_to_last_zero: up_to_last_zero(bytes),
        }
    }

    /// Whether the string that begins at an offset has an end: a 0 byte follows.
    pub fn has_end(&self, at: u32) -> bool
        ensures { result ≡ spec.has_end at self.now }
    {
        (at as usize) < self.up_to_last_zero
    }

    /// The string that begins at an offset, as `string_at` gives it.
    pub fn string_at(&self, at: u32) -> Option<&'a [u8]>
        ensures { option_map (λ x. x.now) result ≡ spec.string_at at self.now }
    {
        string_at(self.bytes, u64::from(at))
    }
}

#[tactic(auto, using(crate::proofs::StringLaws::end_of_last, crate::proofs::StringLaws::no_zero_from))]
fn up_to_last_zero(bytes: &[u8]) -> usize
    ensures { (at : ℕ) → spec.has_end at bytes.now ≡ nat_lt at result }
{
    let mut size = bytes.len();
    while size > 0 && bytes[size - 1] != 0 {
        size -= 1;
    }
    size
}

fn first_zero(bytes: &[u8]) -> Option<usize>
    ensures { result ≡ position spec.is_zero bytes.now }
{
    bytes.iter().position(|byte| *byte == 0)
}

#[tactic(auto, unfolding(crate::specs::Strings::ended))]
fn ended(bytes: &[u8]) -> Option<&[u8]>
    ensures { option_map (λ x. x.now) result ≡ spec.ended bytes.now }
{
    match first_zero(bytes) {
        None => None,
        Some(size) => Some(&bytes[..size]),
    }
}

/// The string that begins at an offset in bytes of a string table, without the 0 byte that ends it. It is empty where
/// the byte at the offset is 0. None where no 0 byte follows, and so where the offset is at or past the table's end.
/// The time is proportional to the string's length (gABI chapter 4, "String Table").
#[tactic(auto, using(crate::proofs::StringLaws::ended_past), unfolding(crate::specs::Strings::string_at))]
pub fn string_at(strings: &[u8], at: u64) -> Option<&[u8]>
    ensures { option_map (λ x. x.now) result ≡ spec.string_at at strings.now }
{
    if at > strings.len() as u64 {
        return None;
    }
    ended(&strings[at as usize..])
}
