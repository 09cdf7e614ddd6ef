// Numbers in hexadecimal, of digits and of letters from `a` to `f` in either case.
ghost use Rattle.std.specs.Prelude.{◌≡◌, IfOk};
ghost use Rattle.std.specs.Str.Parse.{digits_value, without_leading_plus};

use std::alloc::Global;
use std::test::Fail;

/// The number that digits spell. Other texts fail, and so does a number of more than 64 bits.
pub fn number(digits: &str) -> Result<u64, Fail>
    ensures { IfOk result (λ number. number ≡ digits_value 16 (without_leading_plus digits.now)) }
{
    Ok(u64::from_str_radix(digits, 16)?)
}

/// The numbers of a text, parted by blanks. It fails where `number` fails at one of them, or where memory is lacking.
pub fn numbers(alloc: Global, text: &str) -> Result<Vec<u64>, Fail> {
    let mut numbers = Vec::new(alloc);
    for digits in text.split_whitespace() {
        numbers.push(number(digits)?)?;
    }
    Ok(numbers)
}

/// The numbers of at most 32 bits of a text, parted by blanks. It fails where one is no such number, or where memory is lacking.
pub fn numbers32(alloc: Global, text: &str) -> Result<Vec<u32>, Fail> {
    let mut numbers = Vec::new(alloc);
    for digits in text.split_whitespace() {
        numbers.push(u32::from_str_radix(digits, 16)?)?;
    }
    Ok(numbers)
}

/// The bytes of a text, each spelled by such digits and parted from the next by blanks. It fails as `numbers` does.
pub fn bytes_of(alloc: Global, text: &str) -> Result<Vec<u8>, Fail> {
    let mut bytes = Vec::new(alloc);
    for digits in text.split_whitespace() {
        bytes.push(u8::from_str_radix(digits, 16)?)?;
    }
    Ok(bytes)
}
