// Which options, flags and names words give.
ghost use Rattle.std.specs.Prelude.{◌≡◌, map, option_map};
ghost use Rattle.std.specs.List.{list_all};
ghost use Rattle.clap.specs.Words.{all_of, first_of, found_of, rows_of};
ghost use Rattle.pl_words.specs.Found as spec;

use clap::ArgMatches;
use clap::parser::ValueSource;

#[tactic(auto, using(crate::proofs::FoundLaws::source_in_rows))]
fn source(matches: &ArgMatches<'_>, name: &str) -> Option<ValueSource>
    ensures { result ≡ spec.source (rows_of (found_of matches.now)) name.now }
{
    matches.value_source(name)
}

/// Whether the words give what has this name.
#[tactic(auto, unfolding(crate::specs::Found::is_given))]
pub fn is_given(matches: &ArgMatches<'_>, name: &str) -> bool
    ensures { result ≡ spec.is_given (rows_of (found_of matches.now)) name.now }
{
    matches!(source(matches, name), Some(ValueSource::CommandLine))
}

fn is_among(names: &[&str], name: &str) -> bool
    ensures { result ≡ spec.is_among (map (λ s. s.now) names.now) name.now }
{
    for other in names {
        if *other == name {
            return true;
        }
    }
    false
}

fn has_all(matches: &ArgMatches<'_>, names: &[&str]) -> bool
    ensures { result ≡ list_all (spec.is_given (rows_of (found_of matches.now)))
        (map (λ s. s.now) names.now) }
{
    for name in names {
        if !is_given(matches, name) {
            return false;
        }
    }
    true
}

fn is_allowed(matches: &ArgMatches<'_>, must: &[&str], may: &[&str], name: &str) -> bool
    ensures { result ≡ spec.is_allowed (map (λ s. s.now) must.now) (map (λ s. s.now) may.now)
        (rows_of (found_of matches.now)) name.now }
{
    !is_given(matches, name) || is_among(must, name) || is_among(may, name)
}

#[tactic(auto, using(crate::proofs::FoundLaws::rows_by_names))]
fn has_no_other(matches: &ArgMatches<'_>, must: &[&str], may: &[&str]) -> bool
    ensures { result ≡ spec.has_no_other (map (λ s. s.now) must.now) (map (λ s. s.now) may.now)
        (rows_of (found_of matches.now)) }
{
    for name in matches.ids() {
        if !is_allowed(matches, must, may, name) {
            return false;
        }
    }
    true
}

/// Whether the words give all that must stand, and besides it nothing but what may.
#[tactic(auto, unfolding(crate::specs::Found::fits))]
pub fn fits(matches: &ArgMatches<'_>, must: &[&str], may: &[&str]) -> bool
    ensures { result ≡ spec.fits (map (λ s. s.now) must.now) (map (λ s. s.now) may.now)
        (rows_of (found_of matches.now)) }
{
    has_all(matches, must) && has_no_other(matches, must, may)
}

/// The first value of an option, if it has one.
#[tactic(auto, using(crate::proofs::FoundLaws::value_in_rows))]
pub fn value<'a>(matches: &ArgMatches<'a>, name: &str) -> Option<&'a str>
    ensures { option_map (λ s. s.now) result ≡ first_of name.now (rows_of (found_of matches.now)) }
{
    matches.get_str(name)
}

/// All values of an option, if it has one.
#[tactic(auto, using(crate::proofs::FoundLaws::values_in_rows))]
pub fn values<'m, 'a>(matches: &'m ArgMatches<'a>, name: &str) -> Option<&'m [&'a str]>
    ensures { option_map (λ all. map (λ s. s.now) all.now) result
        ≡ all_of name.now (rows_of (found_of matches.now)) }
{
    matches.get_strs(name)
}
