// The line that says how many files were undone, in a buffer of fixed size.
ghost use Rattle.std.specs.Prelude.{◌≡◌, ◌++◌, ◌+◌, ◌≤◌, length, reverse};
ghost use Rattle.std.specs.Fmt.{decimal};
ghost use Rattle.arrayvec.specs.ArrayVec.{array_vec_len};
ghost use Rattle.pl_texts.specs.DoneText.{undone_text};

use arrayvec::ArrayVec;

/// How many digits a number below 2^64 has at most.
const DIGITS: usize = 20;

/// How many bytes a line has at most: `fixed`, a name of at most 255 bytes, 16 digits, two blanks and the newline.
pub const ROOM: usize = 279;

/// A line that takes no memory.
pub type Line = ArrayVec<u8, ROOM>;

/// The digits of a number, the lowest first.
fn digits(number: u64) -> Line
    ensures items { reverse result.items ≡ decimal number }
    ensures len { length result.items ≤ DIGITS }
{
    let mut line = Line::new();
    let mut left = number;
    let mut room: u32 = 20;
    while left >= 10 {
        line.push(b'0' + (left % 10) as u8);
        left /= 10;
        room -= 1;
    }
    line.push(b'0' + left as u8);
    line
}

/// The digits of a number, the highest first.
fn decimal_digits(number: u64) -> Line
    ensures items { result.items ≡ decimal number }
    ensures len { length result.items ≤ DIGITS }
{
    let mut line = digits(number);
    line.reverse();
    line
}

/// Adds bytes to a line.
pub fn push_all(line: &mut Line, bytes: &[u8])
    requires { array_vec_len line.old + length bytes.now ≤ ROOM }
    ensures { line.new.items ≡ line.old.items ++ bytes.now }
{
    for byte in bytes {
        line.push(*byte);
    }
}

/// The line of so many files.
#[tactic(auto, unfolding(crate::specs::DoneText::undone_text))]
pub fn undone_line(count: usize) -> Line
    ensures { result.items ≡ undone_text count }
{
    let mut line = Line::new();
    push_all(&mut line, b"undone ");
    let digits = decimal_digits(count as u64);
    push_all(&mut line, digits.as_slice());
    push_all(&mut line, b"\n");
    line
}
