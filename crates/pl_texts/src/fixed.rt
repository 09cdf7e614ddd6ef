// The line that says where a program was fixed, in a buffer of fixed size.
ghost use Rattle.std.specs.Prelude.{◌≡◌, ◌++◌, ◌+◌, ◌≤◌};
ghost use Rattle.arrayvec.specs.ArrayVec.{array_vec_len};
ghost use Rattle.pl_base.specs.Digits.{hex16};
ghost use Rattle.pl_base.specs.Names.{IsNameLength};
ghost use Rattle.pl_texts.specs.DoneText.{fixed_text};

use crate::undone::{Line, ROOM, push_all};
use pl_base::hex_digit;

/// Adds the 16 hexadecimal digits of a number to a line.
#[tactic(auto, unfolding(pl_base::specs::Digits::hex16, pl_base::specs::Digits::hex_digits))]
fn push_hex(line: &mut Line, number: u64)
    requires { array_vec_len line.old + 16 ≤ ROOM }
    ensures items { line.new.items ≡ line.old.items ++ hex16 number }
    ensures len { array_vec_len line.new ≡ array_vec_len line.old + 16 }
{
    let mut k: u32 = 16;
    while k > 0 {
        k -= 1;
        line.push(hex_digit(((number >> (4 * k)) % 16) as u8));
    }
}

/// The line of a program that was fixed at an address.
#[tactic(auto, unfolding(crate::specs::DoneText::fixed_text))]
pub fn fixed_line(name: &str, address: u64) -> Line
    requires { IsNameLength name.now }
    ensures { result.items ≡ fixed_text name.now address }
{
    let mut line = Line::new();
    push_all(&mut line, b"fixed ");
    push_all(&mut line, name.as_bytes());
    push_all(&mut line, b" ");
    push_hex(&mut line, address);
    push_all(&mut line, b"\n");
    line
}
