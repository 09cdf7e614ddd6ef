// Acceptance clause 18: the indices of records and of symbols.
ghost use Rattle.std.specs.Prelude.{◌≡◌};
ghost use Rattle.std.specs.List.{list_any};
ghost use Rattle.pl_ver.specs.Versions as spec;

use crate::constants::VER_NDX_GLOBAL;
use crate::fields::index_of;
use crate::record::Record;
use crate::records::Records;

/// Whether a record has a reserved index that is not its own: only the base version may have one.
#[tactic(auto, unfolding(crate::specs::Versions::is_misplaced))]
fn is_misplaced(row: &Record) -> bool
    ensures { result ≡ spec.is_misplaced row.now }
{
    row.index <= VER_NDX_GLOBAL && !row.base
}

pub fn any_misplaced(records: &[Record]) -> bool
    ensures { result ≡ list_any spec.is_misplaced records.now }
{
    records.iter().any(|row| is_misplaced(row))
}

/// Whether a symbol has a version of which there is no record.
#[tactic(auto, unfolding(crate::specs::Versions::is_unknown))]
fn is_unknown(records: &Records, word: u16) -> bool
    ensures { result ≡ spec.is_unknown records.now word }
{
    let index = index_of(word);
    index > VER_NDX_GLOBAL && !records.has(index)
}

pub fn any_unknown(records: &Records, words: &[u16]) -> bool
    ensures { result ≡ list_any (spec.is_unknown records.now) words.now }
{
    words.iter().any(|word| is_unknown(records, *word))
}
