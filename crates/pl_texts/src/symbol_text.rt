// Names of symbols as text.
ghost use Rattle.std.specs.Prelude.{◌≡◌, ◌++◌, OnOk};
ghost use Rattle.std.specs.List.{flat_map};
ghost use Rattle.pl_texts.specs.Refusals as spec;

use pl_base::{Rows, hex_digit};
use std::alloc::AllocError;

/// What begins the text of a byte that does not stand for itself.
pub const BACKSLASH: u8 = 0x5c;

/// Whether a byte stands for itself.
#[tactic(auto, unfolding(crate::specs::Refusals::is_plain))]
fn is_plain(byte: u8) -> bool
    ensures { result ≡ spec.is_plain byte }
{
    byte.is_ascii_graphic() && byte != BACKSLASH
}

/// Adds the text of a byte: the byte, or a backslash, an `x` and two lower-case hexadecimal digits.
#[tactic(auto, unfolding(crate::specs::Refusals::escaped))]
fn push_escaped(out: &mut Vec<u8>, byte: u8) -> Result<(), AllocError>
    ensures { OnOk result (out.new.items ≡ out.old.items ++ spec.escaped byte) }
{
    if is_plain(byte) {
        return out.extend_from_slice(&[byte]);
    }
    out.extend_from_slice(&[BACKSLASH, b'x', hex_digit(byte / 16), hex_digit(byte % 16)])
}

fn push_name(out: &mut Vec<u8>, name: &[u8]) -> Result<(), AllocError>
    ensures { OnOk result (out.new.items ≡ out.old.items ++ flat_map spec.escaped name.now) }
{
    for byte in name {
        push_escaped(out, *byte)?;
    }
    Ok(())
}

/// Adds the name of a symbol, or `-` for symbol 0, which has none. After a want of memory some first bytes of it may have been added.
pub fn push_symbol(out: &mut Vec<u8>, symbol: &Option<Rows<u8>>) -> Result<(), AllocError>
    ensures { OnOk result (out.new.items ≡ out.old.items ++ spec.symbol_text symbol.now) }
{
    match symbol {
        None => out.extend_from_slice(b"-"),
        Some(name) => push_name(out, name.as_slice()),
    }
}
