use std::test::Fail;

/// The parts of a line before and behind its first colon, the second without blanks around it. A line without a colon fails.
pub fn parts(line: &str) -> Result<(&str, &str), Fail> {
    let (before, behind) = line.split_once(':').ok_or("a line without a colon")?;
    Ok((before, behind.trim()))
}
