//! What rows of a journal are to be.
ghost use Rattle.std.specs.Prelude.{◌≡◌};
ghost use Rattle.std.specs.List.{list_all};
ghost use Rattle.pl_journal.specs.Meaning.{row_of, rows_for};
ghost use Rattle.pl_journal.specs.Names as names;
ghost use Rattle.pl_journal.specs.Spelling as spec;

use crate::constants::MAX_ROWS;
use crate::names::{CACHE, is};
use crate::{Change, Row};
use pl_base::is_valid_name;
use pl_stage::Named;

impl Named for Row {
    ghost text = { λ row. spec.name_of row };

    fn text(&self) -> &str {
        match self {
            Row::Put { name } => name.as_str(),
            Row::Drop { name } => name.as_str(),
        }
    }
}

impl Named for Change {
    ghost text = { λ change. spec.name_of (row_of change) };

    fn text(&self) -> &str {
        match self {
            Change::Put { name, bytes: _ } => name.as_str(),
            Change::Drop { name } => name.as_str(),
        }
    }
}

fn is_row<N: Named>(row: &N) -> bool
    ensures { result ≡ names.is_row_name (N.text row.now) }
{
    let name = row.text();
    is_valid_name(name.as_bytes()) || is(name, CACHE)
}

fn has_name<N: Named>(row: &N, name: &str) -> bool
    ensures { result ≡ spec.has_name N.text name.now row.now }
{
    is(name, row.text())
}

fn misses<N: Named>(rows: &[N], name: &str) -> bool
    ensures { result ≡ spec.misses N.text name.now rows.now }
{
    rows.iter().all(|row| !has_name(row, name))
}

fn differ<N: Named>(rows: &[N]) -> bool
    ensures { result ≡ spec.differ N.text rows.now }
{
    let mut left = rows;
    while let [row, others @ ..] = left {
        if !misses(others, row.text()) {
            return false;
        }
        left = others;
    }
    true
}

fn have_names<N: Named>(rows: &[N]) -> bool
    ensures { result ≡ list_all (λ row. names.is_row_name (N.text row)) rows.now }
{
    rows.iter().all(|row| is_row(row))
}

#[tactic(auto, unfolding(crate::specs::Spelling::are_named))]
fn are_named<N: Named>(rows: &[N]) -> bool
    ensures { result ≡ spec.are_named N.text rows.now }
{
    rows.len() <= MAX_ROWS as usize && have_names(rows) && differ(rows)
}

/// Whether these rows are a journal's: at most 1025, each of a valid name or of the cache's, no two of one name.
pub(crate) fn are_rows(rows: &[Row]) -> bool
    ensures { result ≡ spec.are_rows rows.now }
{
    are_named(rows)
}

/// Whether a journal can have these changes: at most 1025, each of a valid name or of the cache's, no two of one name.
#[tactic(auto, using(crate::proofs::GrammarLaws::named_changes))]
pub fn are_changes(changes: &[Change]) -> bool
    ensures { result ≡ spec.are_rows (rows_for changes.now) }
{
    are_named(changes)
}
