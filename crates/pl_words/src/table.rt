// The table of commands: what each must have, and what it may.
ghost use Rattle.pl_base.specs.Answers.{Answers};
ghost use Rattle.clap.specs.Words.{found_of, rows_of};
ghost use Rattle.pl_words.specs.Line.{is_memory};
ghost use Rattle.pl_words.specs.Table as spec;

use crate::found::{fits, is_given};
use crate::values::{busy, name_of, names, number_of, policy, region};
use crate::{AllOptions, Command, WordsFault};
use clap::ArgMatches;
use std::alloc::Global;

#[tactic(auto, unfolding(crate::specs::Table::load))]
fn load(alloc: Global, matches: &ArgMatches<'_>) -> Result<Command, WordsFault>
    ensures { Answers is_memory result (spec.load (rows_of (found_of matches.now))) }
{
    let name = name_of(alloc, matches, "load")?;
    let busy = busy(matches)?;
    let policy = policy(matches)?;
    Ok(Command::Load { name, busy, policy })
}

#[tactic(auto, unfolding(crate::specs::Table::all))]
fn all(matches: &ArgMatches<'_>) -> Result<Command, WordsFault>
    ensures { Answers is_memory result (spec.all (rows_of (found_of matches.now))) }
{
    let region = region(matches)?;
    Ok(Command::All(AllOptions {
        dry: is_given(matches, "dry-run"),
        verbose: is_given(matches, "verbose"),
        share: is_given(matches, "conserve-memory"),
        region,
    }))
}

#[tactic(auto, unfolding(crate::specs::Table::undo))]
fn undo(alloc: Global, matches: &ArgMatches<'_>) -> Result<Command, WordsFault>
    ensures { Answers is_memory result (spec.undo (rows_of (found_of matches.now))) }
{
    let names = names(alloc, matches)?;
    Ok(Command::Undo { names })
}

#[tactic(auto, unfolding(crate::specs::Table::demo))]
fn demo(matches: &ArgMatches<'_>) -> Result<Command, WordsFault>
    ensures { Answers is_memory result (spec.demo (rows_of (found_of matches.now))) }
{
    let number = number_of(matches, "demo")?;
    Ok(Command::Demo { number })
}

#[tactic(auto, unfolding(crate::specs::Table::fix))]
fn fix(alloc: Global, matches: &ArgMatches<'_>) -> Result<Command, WordsFault>
    ensures { Answers is_memory result (spec.fix (rows_of (found_of matches.now))) }
{
    let name = name_of(alloc, matches, "fix")?;
    let policy = policy(matches)?;
    Ok(Command::Fix { name, policy })
}

#[tactic(auto, unfolding(crate::specs::Table::order))]
fn order(alloc: Global, matches: &ArgMatches<'_>) -> Result<Command, WordsFault>
    ensures { Answers is_memory result (spec.order (rows_of (found_of matches.now))) }
{
    let name = name_of(alloc, matches, "order")?;
    let verbose = is_given(matches, "verbose");
    Ok(Command::Order { name, verbose })
}

/// The commands on one file, with nothing besides its name.
#[tactic(auto, unfolding(crate::specs::Table::forms_on_a_file))]
fn on_a_file(alloc: Global, matches: &ArgMatches<'_>) -> Result<Command, WordsFault>
    ensures { Answers is_memory result (spec.chosen spec.forms_on_a_file
        (rows_of (found_of matches.now))) }
{
    if fits(matches, &["verify"], &[]) {
        let name = name_of(alloc, matches, "verify")?;
        return Ok(Command::Verify { name });
    }
    if fits(matches, &["install"], &[]) {
        let name = name_of(alloc, matches, "install")?;
        return Ok(Command::Install { name });
    }
    if fits(matches, &["remove"], &[]) {
        let name = name_of(alloc, matches, "remove")?;
        return Ok(Command::Remove { name });
    }
    if fits(matches, &["make"], &[]) {
        let name = name_of(alloc, matches, "make")?;
        return Ok(Command::Make { name });
    }
    if fits(matches, &["unfix"], &[]) {
        let name = name_of(alloc, matches, "unfix")?;
        return Ok(Command::Unfix { name });
    }
    Err(WordsFault::Usage)
}

/// The commands in memory, and those on one file.
#[tactic(auto, unfolding(crate::specs::Table::forms_in_memory))]
fn in_memory(alloc: Global, matches: &ArgMatches<'_>) -> Result<Command, WordsFault>
    ensures { Answers is_memory result (spec.chosen spec.forms_in_memory
        (rows_of (found_of matches.now))) }
{
    if fits(matches, &["demo"], &[]) {
        return demo(matches);
    }
    if fits(matches, &["weave"], &[]) {
        return Ok(Command::Weave);
    }
    on_a_file(alloc, matches)
}

/// The command on the cache, and those in memory and on one file.
#[tactic(auto, unfolding(crate::specs::Table::forms_on_the_cache))]
fn on_the_cache(alloc: Global, matches: &ArgMatches<'_>) -> Result<Command, WordsFault>
    ensures { Answers is_memory result (spec.chosen spec.forms_on_the_cache
        (rows_of (found_of matches.now))) }
{
    if fits(matches, &["print-cache"], &[]) {
        return Ok(Command::Print);
    }
    in_memory(alloc, matches)
}

/// The commands on all or some files, and those above.
#[tactic(auto, unfolding(crate::specs::Table::forms_on_files))]
fn on_files(alloc: Global, matches: &ArgMatches<'_>) -> Result<Command, WordsFault>
    ensures { Answers is_memory result (spec.chosen spec.forms_on_files
        (rows_of (found_of matches.now))) }
{
    if fits(
        matches,
        &["all"],
        &["dry-run", "verbose", "conserve-memory", "region"],
    ) {
        return all(matches);
    }
    if fits(matches, &["undo", "all"], &[]) {
        return Ok(Command::UndoAll);
    }
    if fits(matches, &["undo", "names"], &[]) {
        return undo(alloc, matches);
    }
    on_the_cache(alloc, matches)
}

/// The command that the words are.
#[tactic(auto, unfolding(crate::specs::Table::forms))]
pub fn command(alloc: Global, matches: &ArgMatches<'_>) -> Result<Command, WordsFault>
    ensures { Answers is_memory result (spec.chosen spec.forms (rows_of (found_of matches.now))) }
{
    if fits(matches, &["load"], &["busy", "policy"]) {
        return load(alloc, matches);
    }
    if fits(matches, &["fix"], &["policy"]) {
        return fix(alloc, matches);
    }
    if fits(matches, &["order"], &["verbose"]) {
        return order(alloc, matches);
    }
    on_files(alloc, matches)
}
