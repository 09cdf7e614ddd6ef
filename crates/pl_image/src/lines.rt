// Lines of words in a buffer of fixed size.
ghost use Rattle.std.specs.Prelude.{◌≡◌, ◌++◌, ◌+◌, ◌*◌, ◌/◌, ◌%◌, ◌^◌, ◌≤◌, ◌<◌};
ghost use Rattle.pl_base.specs.Digits as digits;
ghost use Rattle.arrayvec.specs.ArrayVec.{array_vec_len};
ghost use Rattle.pl_image.specs.Lines as spec;

use arrayvec::ArrayVec;
use pl_base::hex_digit;

/// How many bytes the line of a word has.
pub const LINE: usize = 39;

/// How many bytes of lines are held before they are handed to the sink.
pub const ROOM: usize = 8192;

/// How many words there are: addresses lie below 2^47.
pub const WORDS: u64 = 1 << 44;

/// Lines that were not handed to the sink yet.
pub type Lines = ArrayVec<u8, ROOM>;

/// A hexadecimal digit of a number, counted from the lowest.
fn digit_at(number: u64, index: u32) -> u8
    requires { index < 16 }
    ensures { result ≡ digits.hex_digit (number / 2 ^ (4 * index) % 16) }
{
    hex_digit(((number >> (4 * index)) % 16) as u8)
}

/// The 16 hexadecimal digits of a number, the highest of them first.
#[tactic(auto, unfolding(pl_base::specs::Digits::hex16, pl_base::specs::Digits::hex_digits))]
fn hex_text(number: u64) -> [u8; 16]
    ensures { result ≡ digits.hex16 number }
{
    [
        digit_at(number, 15),
        digit_at(number, 14),
        digit_at(number, 13),
        digit_at(number, 12),
        digit_at(number, 11),
        digit_at(number, 10),
        digit_at(number, 9),
        digit_at(number, 8),
        digit_at(number, 7),
        digit_at(number, 6),
        digit_at(number, 5),
        digit_at(number, 4),
        digit_at(number, 3),
        digit_at(number, 2),
        digit_at(number, 1),
        digit_at(number, 0),
    ]
}

fn push_hex(lines: &mut Lines, number: u64)
    requires { array_vec_len lines.old + 16 ≤ ROOM }
    ensures items { lines.new.items ≡ lines.old.items ++ digits.hex16 number }
    ensures len { array_vec_len lines.new ≡ array_vec_len lines.old + 16 }
{
    let _ = lines.try_extend_from_slice(&hex_text(number));
}

/// Adds the line of a word.
#[tactic(auto, unfolding(crate::specs::Lines::word_text))]
pub fn push_word(lines: &mut Lines, address: u64, word: u64)
    requires { array_vec_len lines.old + LINE ≤ ROOM }
    ensures items { lines.new.items ≡ lines.old.items ++ spec.word_text address word }
{
    lines.push(b'w');
    lines.push(b'o');
    lines.push(b'r');
    lines.push(b'd');
    lines.push(b' ');
    push_hex(lines, address);
    lines.push(b' ');
    push_hex(lines, word);
    lines.push(b'\n');
}
