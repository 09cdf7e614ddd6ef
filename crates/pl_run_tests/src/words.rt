// What the words of a script's line say.
use std::alloc::{AllocError, Global};
use std::test::Fail;

/// The first word of a line, and the rest.
pub fn split(line: &str) -> (&str, &str) {
    line.split_once(' ').unwrap_or((line, ""))
}

/// The words of a line, parted by blanks. A `~` stands for a blank.
pub fn words_of(alloc: Global, line: &str) -> Result<Vec<String>, AllocError> {
    let mut words = Vec::new(alloc);
    for word in line.split_whitespace() {
        words.push(word.replace(alloc, "~", " ")?)?;
    }
    Ok(words)
}

/// A number in decimal.
pub fn decimal(digits: &str) -> Result<u64, Fail> {
    Ok(digits.parse::<u64>()?)
}

/// The numbers of a line, in decimal.
pub fn decimals(alloc: Global, line: &str) -> Result<Vec<u64>, Fail> {
    let mut numbers = Vec::new(alloc);
    for digits in line.split_whitespace() {
        numbers.push(decimal(digits)?)?;
    }
    Ok(numbers)
}

/// Lines that semicolons part, each with its end.
pub fn lines_of(alloc: Global, text: &str) -> Result<String, AllocError> {
    let mut lines = String::new(alloc);
    for line in text.split(';') {
        lines.push_str(line.trim())?;
        lines.push_str("\n")?;
    }
    Ok(lines)
}
