// Tests of pl_base: names of files, and strings.
use pl_base::{Strings, is_own_name, is_valid_name, string_at, valid_text};
use pl_cases::{number, parts};
use std::test::Fail;

/// Whether a text is a valid name, and the text.
const NAMES: &str = "\
true: libc.so.6\n\
true: a\n\
true: ~\n\
true: ...\n\
true: .prelink\n\
false:\n\
false: .\n\
false: ..\n\
false: a b\n\
false: a/b\n\
false: \u{7f}\n\
false: é\n\
false: .prelink.\n\
false: .prelink.cache";

/// Whether the text of a line is told to be a valid name as the line says.
fn is_told(line: &str) -> Result<bool, Fail> {
    let (valid, name) = parts(line)?;
    let (valid, bytes) = (valid == "true", name.as_bytes());
    let is_own = name.starts_with(".prelink.");
    Ok(
        is_valid_name(bytes) == valid
            && valid_text(bytes).is_some() == valid
            && is_own_name(bytes) == is_own,
    )
}

#[test]
fn knows_valid_names(rt: HostRuntime) -> Result<(), Fail> {
    for line in NAMES.lines() {
        if !is_told(line)? {
            return Err(line.into());
        }
    }
    let long = [b'n'; 256];
    assert!(rt; is_valid_name(&long[1..]) && !is_valid_name(&long));
    Ok(())
}

const STRINGS: &[u8] = b"\0main\0x\0end";

/// Offsets, in hexadecimal, and the string that begins at each.
const BEGINS: &str = "\
0:\n\
1: main\n\
3: in\n\
5:\n\
6: x";

/// Offsets at which no string begins that has an end.
const WITHOUT_END: [u32; 3] = [8, 11, u32::MAX];

/// Whether such a string, or none, begins at an offset.
fn begins(at: u32, string: Option<&[u8]>) -> bool {
    let strings = Strings::new(STRINGS);
    string_at(STRINGS, u64::from(at)) == string
        && strings.string_at(at) == string
        && strings.has_end(at) == string.is_some()
}

#[test]
fn reads_strings(rt: HostRuntime) -> Result<(), Fail> {
    for line in BEGINS.lines() {
        let (at, string) = parts(line)?;
        if !begins(u32::try_from(number(at)?)?, Some(string.as_bytes())) {
            return Err(line.into());
        }
    }
    assert!(rt; string_at(STRINGS, u64::MAX).is_none());
    Ok(())
}

#[test]
fn reads_no_string_without_an_end(rt: HostRuntime) {
    for at in WITHOUT_END {
        assert!(rt; begins(at, None));
    }
}
