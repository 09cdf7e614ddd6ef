// What is wrong about words that are no command.
use crate::choice::Choice;
use std::io::{self, Write};

/// What is wrong about words that are no command.
#[derive(Clone, Copy)]
pub enum Wrong<'a> {
    /// There are no words.
    Nothing,

    /// No option is written so.
    NoOption(&'a str),

    /// The option stands twice.
    Twice(Choice),

    /// The option has a value, and is to have none.
    Valued(Choice),

    /// The option has no value.
    Unvalued(Choice),

    /// The value of the option is not of its form.
    Value(Choice, &'a str),

    /// The name stands where nothing says what is to be done.
    NoCommand(&'a str),

    /// The option says more of a command, and there is none.
    Alone(Choice),

    /// The first option does not go with the second, which says what is to be done.
    Beside(Choice, Choice),

    /// The name does not go with what is to be done.
    Name(&'a str),

    /// There is neither a name nor `-a` to be undone.
    NoNames,

    /// Something else.
    Other,
}

/// What the value of an option is to be.
fn form(choice: Choice) -> &'static str {
    match choice {
        Choice::Busy | Choice::Region => {
            "two hexadecimal numbers S-E, multiples of 1000, S below E, E at most 800000000000"
        }
        Choice::Policy => "lowest, highest or seeded:N",
        Choice::Demo => "a decimal number, at most 18446744073709551615",
        _ => "a name",
    }
}

/// Writes a sentence about an option, which it begins with.
fn tell_choice<W: Write>(to: &mut W, choice: Choice, text: &str) -> io::Result<()> {
    writeln!(to, "prelink: {} {text}", choice.word())
}

/// Writes a sentence about a word, which it begins with.
fn tell_word<W: Write>(to: &mut W, word: &str, text: &str) -> io::Result<()> {
    writeln!(to, "prelink: {word:?} {text}")
}

/// Writes that an option has no value, and which it is to have.
fn tell_unvalued<W: Write>(to: &mut W, choice: Choice) -> io::Result<()> {
    let (word, form) = (choice.word(), form(choice));
    writeln!(to, "prelink: {word} wants a value, {form}.")
}

/// Writes that a value is not of the form that its option has.
fn tell_value<W: Write>(to: &mut W, choice: Choice, value: &str) -> io::Result<()> {
    let (word, form) = (choice.word(), form(choice));
    writeln!(
        to,
        "prelink: {value:?} is no value of {word}, which is {form}."
    )
}

/// Writes what is wrong, in one line.
pub fn tell_wrong<W: Write>(to: &mut W, wrong: Wrong<'_>) -> io::Result<()> {
    match wrong {
        Wrong::Nothing => to.write_all(b"prelink: No command is given.\n"),
        Wrong::NoOption(word) => tell_word(to, word, "is no option."),
        Wrong::Twice(choice) => tell_choice(to, choice, "stands twice."),
        Wrong::Valued(choice) => tell_choice(to, choice, "has no value."),
        Wrong::Unvalued(choice) => tell_unvalued(to, choice),
        Wrong::Value(choice, value) => tell_value(to, choice, value),
        Wrong::NoCommand(name) => tell_word(to, name, "is no command."),
        Wrong::Alone(choice) => tell_choice(to, choice, "goes with a command, and none is given."),
        Wrong::Beside(choice, mode) => {
            let (word, mode) = (choice.word(), mode.word());
            writeln!(to, "prelink: {word} does not go with {mode}.")
        }
        Wrong::Name(name) => tell_word(to, name, "is a name too many."),
        Wrong::NoNames => to.write_all(b"prelink: -u wants -a or the names of files.\n"),
        Wrong::Other => to.write_all(b"prelink: The words are no command.\n"),
    }
}
