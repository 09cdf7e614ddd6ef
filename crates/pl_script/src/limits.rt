// The limits of a script, and its first line that is wrong.
ghost use Rattle.std.specs.Prelude.{◌≡◌, ◌<◌, IfSome, length};
ghost use Rattle.std.specs.List.{count_by};
ghost use Rattle.pl_script.specs.Limits as spec;

use crate::line::Line;
use crate::{MAX_LOADERS, MAX_RUNS};

fn is_load(line: &Line) -> bool
    ensures { result ≡ spec.is_load line.now }
{
    matches!(line, Line::Load { .. })
}

fn is_run(line: &Line) -> bool
    ensures { result ≡ spec.is_run line.now }
{
    matches!(line, Line::Runs(_))
}

fn count_loads(lines: &[Line]) -> usize
    ensures { result ≡ count_by spec.is_load lines.now }
{
    lines.iter().filter(|line| is_load(line)).count()
}

fn count_runs(lines: &[Line]) -> usize
    ensures { result ≡ count_by spec.is_run lines.now }
{
    lines.iter().filter(|line| is_run(line)).count()
}

/// How many loaders lines make, at most `MAX_LOADERS`.
#[tactic(auto, unfolding(crate::specs::Limits::loaders))]
fn loaders(lines: &[Line]) -> usize
    ensures { result ≡ spec.loaders lines.now }
{
    MAX_LOADERS.min(count_loads(lines))
}

/// Whether a line behind others is wrong in a script with so many loaders.
#[tactic(auto, unfolding(crate::specs::Limits::is_wrong))]
fn is_wrong(made: usize, before: &[Line], line: &Line) -> bool
    ensures { result ≡ spec.is_wrong made before.now line.now }
{
    match line {
        Line::Wrong => true,
        Line::Load { .. } => MAX_LOADERS <= count_loads(before),
        Line::Runs(_) => MAX_RUNS <= count_runs(before),
        Line::Open { loader } => made <= *loader as usize,
        Line::Rename => false,
    }
}

/// Whether the line at an index of a script with so many loaders is wrong.
#[tactic(auto, unfolding(crate::specs::Limits::is_wrong_at))]
fn is_wrong_at(made: usize, lines: &[Line], index: usize) -> bool
    ensures { result ≡ spec.is_wrong_at made lines.now index }
{
    match lines.get(index) {
        Some(line) => is_wrong(made, &lines[..index], line),
        None => false,
    }
}

/// The index of the first line that is wrong: it is outside the grammar, past a limit, or names a loader that no line makes.
#[tactic(auto, using(crate::proofs::LimitLaws::found_within), unfolding(crate::specs::Limits::first_wrong))]
pub fn first_wrong(lines: &[Line]) -> Option<usize>
    ensures first { result ≡ spec.first_wrong lines.now }
    ensures within { IfSome result (λ index. index < length lines.now) }
{
    let made = loaders(lines);
    (0..lines.len()).find(|index| is_wrong_at(made, lines, *index))
}
