//! Names of files: what they are made of, and which are valid.
ghost use Rattle.std.specs.Prelude.{◌≡◌, if◌then◌else◌, Some, None};
ghost use Rattle.std.specs.List.{list_all};
ghost use Rattle.std.specs.Option.{option_map};
ghost use Rattle.pl_base.specs.Names as spec;

use std::str;

/// The most bytes of a name of a file.
pub const MAX_NAME: usize = 255;

/// What parts the names of a path. It stands in no valid name.
pub const SEPARATOR: u8 = b'/';

#[tactic(auto, unfolding(crate::specs::Names::is_name_byte))]
fn is_name_byte(byte: u8) -> bool
    ensures { result ≡ spec.is_name_byte byte }
{
    byte.is_ascii_graphic() && byte != SEPARATOR
}

fn has_name_bytes(name: &[u8]) -> bool
    ensures { result ≡ list_all spec.is_name_byte name.now }
{
    name.iter().all(|byte| is_name_byte(*byte))
}

/// Whether the name is one of the program's own: it begins with `.prelink.`.
#[tactic(auto, unfolding(crate::specs::Names::is_own_name))]
pub fn is_own_name(name: &[u8]) -> bool
    ensures { result ≡ spec.is_own_name name.now }
{
    name.starts_with(b".prelink.")
}

#[tactic(auto, unfolding(crate::specs::Names::is_dots))]
fn is_dots(name: &[u8]) -> bool
    ensures { result ≡ spec.is_dots name.now }
{
    name == b".".as_slice() || name == b"..".as_slice()
}

/// Whether a name has 1 to 255 bytes, as the name of each file has.
pub fn has_name_length(name: &[u8]) -> bool
    ensures { result ≡ spec.has_name_length name.now }
{
    !name.is_empty() && name.len() <= MAX_NAME
}

/// Whether a name is valid: 1 to 255 bytes, each from 0x21 to 0x7e and no `/`, that do not begin with `.prelink.` and are neither `.` nor `..`.
#[tactic(auto, unfolding(crate::specs::Names::is_valid_name))]
pub fn is_valid_name(name: &[u8]) -> bool
    ensures { result ≡ spec.is_valid_name name.now }
{
    has_name_length(name) && has_name_bytes(name) && !is_own_name(name) && !is_dots(name)
}

/// The bytes of a valid name as text. None where they are no valid name.
#[tactic(auto, using(crate::proofs::NameLaws::not_text))]
pub fn valid_text(name: &[u8]) -> Option<&str>
    ensures { option_map (λ x. x.now) result ≡ (if spec.is_valid_name name.now then Some name.now
        else None) }
{
    match str::from_utf8(name) {
        Err(_) => None,
        Ok(text) => {
            if is_valid_name(name) {
                Some(text)
            } else {
                None
            }
        }
    }
}
