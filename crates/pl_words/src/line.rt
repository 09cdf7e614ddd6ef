// The command line, as `clap` reads it.
ghost use Rattle.std.specs.Prelude.{◌≡◌, IfOk, map, string_bytes, true};
ghost use Rattle.clap.specs.Words.{app_of, found_of, rule_of, rows_of};
ghost use Rattle.pl_base.specs.Answers.{AnswersAs};
ghost use Rattle.pl_words.specs.Line as spec;

use crate::WordsFault;
use clap::error::ErrorKind;
use clap::{Arg, ArgAction, ArgMatches, Command};
use std::alloc::{AllocError, Global};

/// An option with one value.
#[tactic(auto, unfolding(crate::specs::Line::option))]
fn option<'a>(alloc: Global, name: &'a str) -> Arg<'a>
    ensures { rule_of result ≡ spec.option name.entry.now }
{
    Arg::new(alloc, name).long(name)
}

/// A flag.
#[tactic(auto, unfolding(crate::specs::Line::flag))]
fn flag<'a>(alloc: Global, name: &'a str) -> Arg<'a>
    ensures { rule_of result ≡ spec.flag name.entry.now }
{
    option(alloc, name).action(ArgAction::SetTrue)
}

/// An option or a flag with a letter.
#[tactic(auto, unfolding(crate::specs::Line::lettered))]
fn lettered<'a>(letter: char, arg: Arg<'a>) -> Arg<'a>
    ensures { rule_of result ≡ spec.lettered letter (rule_of arg.entry) }
{
    arg.short(letter)
}

/// The words that are neither option nor flag nor value.
#[tactic(auto, unfolding(crate::specs::Line::positional_names))]
fn positional_names<'a>(alloc: Global) -> Arg<'a>
    ensures { rule_of result ≡ spec.positional_names }
{
    Arg::new(alloc, "names").action(ArgAction::Append)
}

/// What loads.
#[tactic(auto, unfolding(crate::specs::Line::loading))]
fn loading<'a>(alloc: Global) -> Result<Vec<Arg<'a>>, AllocError>
    ensures { IfOk result (λ args. map rule_of args.items ≡ spec.loading) }
{
    let load = option(alloc, "load");
    let busy = option(alloc, "busy");
    let policy = option(alloc, "policy");
    let order = option(alloc, "order");
    Ok(Vec::from_array(alloc, [load, busy, policy, order])?)
}

/// What prelinks and undoes all or some.
#[tactic(auto, unfolding(crate::specs::Line::prelinking))]
fn prelinking<'a>(alloc: Global) -> Result<Vec<Arg<'a>>, AllocError>
    ensures { IfOk result (λ args. map rule_of args.items ≡ spec.prelinking) }
{
    let all = lettered('a', flag(alloc, "all"));
    let dry_run = lettered('n', flag(alloc, "dry-run"));
    let verbose = lettered('v', flag(alloc, "verbose"));
    let conserve_memory = lettered('m', flag(alloc, "conserve-memory"));
    let region = option(alloc, "region");
    let undo = lettered('u', flag(alloc, "undo"));
    Ok(Vec::from_array(
        alloc,
        [all, dry_run, verbose, conserve_memory, region, undo],
    )?)
}

/// What is done to one file.
#[tactic(auto, unfolding(crate::specs::Line::one_file))]
fn one_file<'a>(alloc: Global) -> Result<Vec<Arg<'a>>, AllocError>
    ensures { IfOk result (λ args. map rule_of args.items ≡ spec.one_file) }
{
    let verify = lettered('y', option(alloc, "verify"));
    let install = option(alloc, "install");
    let remove = option(alloc, "remove");
    let make = option(alloc, "make");
    let fix = option(alloc, "fix");
    let unfix = option(alloc, "unfix");
    Ok(Vec::from_array(alloc, [verify, install, remove, make, fix, unfix])?)
}

/// What needs no file, and the names.
#[tactic(auto, unfolding(crate::specs::Line::others))]
fn others<'a>(alloc: Global) -> Result<Vec<Arg<'a>>, AllocError>
    ensures { IfOk result (λ args. map rule_of args.items ≡ spec.others) }
{
    let print_cache = lettered('p', flag(alloc, "print-cache"));
    let demo = option(alloc, "demo");
    let weave = flag(alloc, "weave");
    Ok(Vec::from_array(alloc, [print_cache, demo, weave, positional_names(alloc)])?)
}

/// A command line with more that may stand in it.
#[tactic(auto, using(crate::proofs::LineLaws::grown))]
fn with<'a>(line: Command<'a>, args: Vec<Arg<'a>>) -> Result<Command<'a>, AllocError>
    requires { spec.are_simple (map rule_of args.items) ≡ true }
    ensures { IfOk result (λ new. app_of new ≡ spec.with_rules (app_of line.entry)
        (map rule_of args.entry.items)) }
{
    line.args(args)
}

#[tactic(auto, unfolding(crate::specs::Line::bare))]
fn bare<'a>(alloc: Global) -> Command<'a>
    ensures { app_of result ≡ spec.bare }
{
    Command::new(alloc, "prelink")
        .no_binary_name(true)
        .disable_help_flag(true)
}

#[tactic(auto, using(crate::proofs::LineLaws::simple_loading, crate::proofs::LineLaws::simple_prelinking, crate::proofs::LineLaws::simple_one_file, crate::proofs::LineLaws::simple_others), unfolding(crate::specs::Line::line))]
fn line<'a>(alloc: Global) -> Result<Command<'a>, AllocError>
    ensures { IfOk result (λ line. app_of line ≡ spec.line) }
{
    let line = bare(alloc);
    let line = with(line, loading(alloc)?)?;
    let line = with(line, prelinking(alloc)?)?;
    let line = with(line, one_file(alloc)?)?;
    with(line, others(alloc)?)
}

fn fault_of(kind: ErrorKind) -> WordsFault
    ensures { result ≡ spec.fault_of_kind kind }
{
    match kind {
        ErrorKind::OutOfMemory => WordsFault::NoMemory,
        _ => WordsFault::Usage,
    }
}

/// What the words give, each option, flag and name.
pub fn parsed<'a>(alloc: Global, words: &'a [String]) -> Result<ArgMatches<'a>, WordsFault>
    ensures { AnswersAs (λ m. rows_of (found_of m)) spec.is_memory result
        (spec.parsed (map string_bytes words.entry.now)) }
{
    let line = line(alloc)?;
    match line.try_get_matches_from(words) {
        Ok(matches) => Ok(matches),
        Err(error) => Err(fault_of(error.kind())),
    }
}
