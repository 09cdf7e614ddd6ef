// The values that words give.
ghost use Rattle.std.specs.Prelude.{◌≡◌, IfOk, map};
ghost use Rattle.pl_base.specs.Answers.{Answers, AnswersAs};
ghost use Rattle.clap.specs.Words.{found_of, rows_of};
ghost use Rattle.pl_words.specs.Line.{is_memory};
ghost use Rattle.pl_words.specs.Values as spec;

use crate::found::{value, values};
use crate::numbers::{decimal, range};
use crate::{Policy, WordsFault};
use clap::ArgMatches;
use pl_base::{Rows, Text};
use pl_elf::Range;
use std::alloc::{AllocError, Global};

/// The value of an option that must have one.
#[tactic(auto, unfolding(crate::specs::Values::value))]
fn needed<'a>(matches: &ArgMatches<'a>, option: &str) -> Result<&'a str, WordsFault>
    ensures { AnswersAs (λ s. s.now) is_memory result
        (spec.value (rows_of (found_of matches.now)) option.now) }
{
    match value(matches, option) {
        Some(value) => Ok(value),
        None => Err(WordsFault::Usage),
    }
}

/// The name that is an option's value.
pub fn name_of(alloc: Global, matches: &ArgMatches<'_>, option: &str) -> Result<Text, WordsFault>
    ensures { Answers is_memory result (spec.value (rows_of (found_of matches.now)) option.now) }
{
    let name = needed(matches, option)?;
    Ok(Text::copy_of(alloc, name)?)
}

/// The number that is an option's value.
#[tactic(auto, using(crate::proofs::AnswerLaws::answers_as_meant), unfolding(crate::specs::Values::number_of))]
pub fn number_of(matches: &ArgMatches<'_>, option: &str) -> Result<u64, WordsFault>
    ensures { Answers is_memory result (spec.number_of (rows_of (found_of matches.now))
        option.now) }
{
    decimal(needed(matches, option)?)
}

/// The addresses that no library may get, if any.
#[tactic(auto, using(crate::proofs::AnswerLaws::answers_as_meant), unfolding(crate::specs::Values::busy))]
pub fn busy(matches: &ArgMatches<'_>) -> Result<Option<Range>, WordsFault>
    ensures { Answers is_memory result (spec.busy (rows_of (found_of matches.now))) }
{
    match value(matches, "busy") {
        None => Ok(None),
        Some(text) => Ok(Some(range(text)?)),
    }
}

/// The addresses from which slots are given.
#[tactic(auto, using(crate::proofs::AnswerLaws::answers_as_meant), unfolding(crate::specs::Values::region))]
pub fn region(matches: &ArgMatches<'_>) -> Result<Range, WordsFault>
    ensures { Answers is_memory result (spec.region (rows_of (found_of matches.now))) }
{
    match value(matches, "region") {
        None => Ok(REGION),
        Some(text) => range(text),
    }
}

/// The addresses from which slots are given where the words do not say: 64 GiB.
pub const REGION: Range = Range {
    start: 0x30_0000_0000,
    end: 0x40_0000_0000,
};

/// What stands before the number of a policy.
const SEEDED: &str = "seeded:";

#[tactic(auto, unfolding(crate::specs::Values::seeded))]
fn seeded(text: &str) -> Result<Policy, WordsFault>
    ensures { result ≡ spec.seeded text.now }
{
    match text.strip_prefix(SEEDED) {
        None => Err(WordsFault::Usage),
        Some(number) => Ok(Policy::Seeded(decimal(number)?)),
    }
}

/// The policy that a text spells: `lowest`, `highest` or `seeded:N` with a decimal number N. Of another text it is Usage. It takes no memory.
#[tactic(auto, unfolding(crate::specs::Values::policy_in))]
pub fn policy_in(text: &str) -> Result<Policy, WordsFault>
    ensures { result ≡ spec.policy_in text.now }
{
    match text {
        "lowest" => Ok(Policy::Lowest),
        "highest" => Ok(Policy::Highest),
        _ => seeded(text),
    }
}

/// Which of the addresses that fit a library gets.
#[tactic(auto, using(crate::proofs::AnswerLaws::answers_as_meant), unfolding(crate::specs::Values::policy))]
pub fn policy(matches: &ArgMatches<'_>) -> Result<Policy, WordsFault>
    ensures { Answers is_memory result (spec.policy (rows_of (found_of matches.now))) }
{
    match value(matches, "policy") {
        None => Ok(Policy::Lowest),
        Some(text) => policy_in(text),
    }
}

/// The names, in the order of the words.
#[tactic(auto, unfolding(crate::specs::Values::names))]
pub fn names(alloc: Global, matches: &ArgMatches<'_>) -> Result<Rows<Text>, WordsFault>
    ensures { Answers is_memory result (spec.names (rows_of (found_of matches.now))) }
{
    let Some(names) = values(matches, "names") else {
        return Err(WordsFault::Usage);
    };
    Ok(copies(alloc, names)?)
}

fn copies(alloc: Global, names: &[&str]) -> Result<Rows<Text>, AllocError>
    ensures { IfOk result (λ copies. copies ≡ map (λ s. s.now) names.now) }
{
    let mut copies = Rows::new(alloc);
    for name in names {
        copies.push(Text::copy_of(alloc, name)?)?;
    }
    Ok(copies)
}
