// Which of the words of a command line is wrong: first each word by itself, in their order, and then what does not go together.
ghost use Rattle.std.specs.Prelude.{◌≡◌};
ghost use Rattle.pl_explain.specs.Options as spec;

use crate::choice::Choice;
use crate::wrong::Wrong;
use arrayvec::ArrayVec;
use pl_words::{decimal, policy_in, range};

/// How many options there are.
const OPTIONS: usize = 19;

/// The options that words give, each once, and the first name.
#[derive(Drop)]
struct Given<'a> {
    choices: ArrayVec<Choice, OPTIONS>,
    name: Option<&'a str>,
    /// The option whose value the next word is.
    waiting: Option<Choice>,
    /// All that is left are names.
    only_names: bool,
}

/// Whether the text is of the form of the option's value.
fn is_value(choice: Choice, text: &str) -> bool
    ensures { result ≡ spec.is_value choice text.now }
{
    match choice {
        Choice::Busy | Choice::Region => range(text).is_ok(),
        Choice::Policy => policy_in(text).is_ok(),
        Choice::Demo => decimal(text).is_ok(),
        _ => true,
    }
}

impl<'a> Given<'a> {
    fn has(&self, choice: Choice) -> bool {
        self.choices.iter().any(|other| *other == choice)
    }

    fn add(&mut self, choice: Choice) -> Result<(), Wrong<'a>> {
        if self.has(choice) || self.choices.try_push(choice).is_err() {
            return Err(Wrong::Twice(choice));
        }
        Ok(())
    }

    fn see_value(&mut self, choice: Choice, value: &'a str) -> Result<(), Wrong<'a>> {
        self.waiting = None;
        if is_value(choice, value) {
            Ok(())
        } else {
            Err(Wrong::Value(choice, value))
        }
    }

    /// Sees a word that stands behind an option with a value.
    fn see_next(&mut self, choice: Choice, word: &'a str) -> Result<(), Wrong<'a>> {
        if word.starts_with('-') && word != "-" {
            return Err(Wrong::Unvalued(choice));
        }
        self.see_value(choice, word)
    }

    /// Sees an option by its name, perhaps with its value behind `=`.
    fn see_long(&mut self, word: &'a str, long: &'a str) -> Result<(), Wrong<'a>> {
        let (name, value) = match long.split_once('=') {
            Some((name, value)) => (name, Some(value)),
            None => (long, None),
        };
        let Some(choice) = Choice::by_name(name) else {
            return Err(Wrong::NoOption(word));
        };
        self.add(choice)?;
        match value {
            Some(value) if choice.has_value() => self.see_value(choice, value),
            Some(_) => Err(Wrong::Valued(choice)),
            None => {
                if choice.has_value() {
                    self.waiting = Some(choice);
                }
                Ok(())
            }
        }
    }

    /// Sees options by their letters; what follows one with a value is the value.
    fn see_letters(&mut self, word: &'a str, letters: &[u8]) -> Result<(), Wrong<'a>> {
        let last = letters.len().saturating_sub(1);
        for (at, letter) in letters.iter().enumerate() {
            let Some(choice) = Choice::by_letter(*letter) else {
                return Err(Wrong::NoOption(word));
            };
            self.add(choice)?;
            if choice.has_value() {
                if at == last {
                    self.waiting = Some(choice);
                }
                return Ok(());
            }
        }
        Ok(())
    }

    fn see_name(&mut self, word: &'a str) {
        if self.name.is_none() {
            self.name = Some(word);
        }
    }

    fn see(&mut self, word: &'a str) -> Result<(), Wrong<'a>> {
        if let Some(choice) = self.waiting {
            return self.see_next(choice, word);
        }
        if self.only_names || word == "-" {
            self.see_name(word);
            return Ok(());
        }
        if word == "--" {
            self.only_names = true;
            return Ok(());
        }
        if let Some(long) = word.strip_prefix("--") {
            return self.see_long(word, long);
        }
        if let Some(letters) = word.strip_prefix("-") {
            return self.see_letters(word, letters.as_bytes());
        }
        self.see_name(word);
        Ok(())
    }

    /// The option that says what is to be done: `-u` if it is there, and else the first.
    fn mode(&self) -> Option<Choice> {
        if self.has(Choice::Undo) {
            return Some(Choice::Undo);
        }
        for choice in self.choices.iter() {
            if choice.is_mode() {
                return Some(*choice);
            }
        }
        None
    }

    /// What is wrong where nothing says what is to be done.
    fn without_mode(&self) -> Wrong<'a> {
        match (self.name, self.choices.first()) {
            (Some(name), _) => Wrong::NoCommand(name),
            (None, Some(choice)) => Wrong::Alone(*choice),
            (None, None) => Wrong::Nothing,
        }
    }

    /// The first option that does not go with the mode.
    fn beside(&self, mode: Choice) -> Option<Choice> {
        for choice in self.choices.iter() {
            if *choice != mode && !mode.goes_with(*choice) {
                return Some(*choice);
            }
        }
        None
    }

    /// What is wrong about the names for a mode.
    fn names(&self, mode: Choice) -> Wrong<'a> {
        let takes_names = mode == Choice::Undo && !self.has(Choice::All);
        match self.name {
            Some(name) if !takes_names => Wrong::Name(name),
            None if takes_names => Wrong::NoNames,
            _ => Wrong::Other,
        }
    }

    /// What does not go together.
    fn together(&self) -> Wrong<'a> {
        let Some(mode) = self.mode() else {
            return self.without_mode();
        };
        match self.beside(mode) {
            Some(choice) => Wrong::Beside(choice, mode),
            None => self.names(mode),
        }
    }
}

/// What the words give, or the first word that is wrong by itself.
fn read_given(words: &[String]) -> Result<Given<'_>, Wrong<'_>> {
    let mut given = Given {
        choices: ArrayVec::new(),
        name: None,
        waiting: None,
        only_names: false,
    };
    for word in words {
        given.see(word)?;
    }
    match given.waiting {
        Some(choice) => Err(Wrong::Unvalued(choice)),
        None => Ok(given),
    }
}

/// What is wrong about words that are no command; `Other` where nothing is found.
pub fn wrong(words: &[String]) -> Wrong<'_> {
    match read_given(words) {
        Ok(given) => given.together(),
        Err(wrong) => wrong,
    }
}
