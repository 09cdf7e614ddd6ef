ghost use Rattle.std.specs.Prelude.{◌≡◌, ◌<◌, ◌≤◌, ◌^◌, ◌++◌, ◌∷◌, true, length, All, OnOk, IfOk};
ghost use Rattle.std.specs.List.{flat_map};
ghost use Rattle.pl_journal.specs.Meaning.{row_of, rows_for};
ghost use Rattle.pl_journal.specs.Spelling as spec;

use crate::Change;
use crate::constants::{DROP, MAGIC, MAX_ROWS, PUT};
use pl_base::push32;
use pl_io::NoMemory;
use std::alloc::{AllocError, Global};

/// Adds a row: its code, the length of its name, at most 255, in one byte, and the name. It fails only for want of memory.
fn push_named(out: &mut Vec<u8>, kind: u8, name: &str) -> Result<(), AllocError>
    requires { length name.now < 2 ^ 8 }
    ensures { OnOk result (out.new.items ≡ out.old.items ++ (kind ∷ length name.now ∷ name.now)) }
{
    let name = name.as_bytes();
    out.push(kind)?;
    out.push(name.len() as u8)?;
    out.extend_from_slice(name)
}

/// Adds the row of a change. It fails only for want of memory.
fn push_row(out: &mut Vec<u8>, change: &Change) -> Result<(), AllocError>
    requires { length (spec.name_of (row_of change.now)) < 2 ^ 8 }
    ensures { OnOk result (out.new.items ≡ out.old.items ++ spec.row_bytes (row_of change.now)) }
{
    match change {
        Change::Put { name, bytes: _ } => push_named(out, PUT, name.as_str()),
        Change::Drop { name } => push_named(out, DROP, name.as_str()),
    }
}

/// Adds the rows of the changes, in their order. It fails only for want of memory.
fn push_rows(out: &mut Vec<u8>, changes: &[Change]) -> Result<(), AllocError>
    requires { All (λ change. length (spec.name_of (row_of change)) < 2 ^ 8) changes.now }
    ensures { OnOk result (out.new.items ≡ out.old.items ++ flat_map
        (λ change. spec.row_bytes (row_of change)) changes.now) }
{
    for change in changes {
        push_row(out, change)?;
    }
    Ok(())
}

/// How many changes there are, at most `MAX_ROWS`.
fn row_count(changes: &[Change]) -> u32
    requires { length changes.now ≤ MAX_ROWS }
    ensures { result ≡ length changes.now }
{
    changes.len() as u32
}

/// The one spelling of the journal of changes, which has a row a change, in their order. It fails only for want of memory.
#[tactic(auto, using(crate::proofs::GrammarLaws::few_changes, crate::proofs::GrammarLaws::names_short, crate::proofs::GrammarLaws::change_bytes, crate::proofs::GrammarLaws::change_count), unfolding(crate::specs::Spelling::journal_bytes))]
pub fn write_journal(alloc: Global, changes: &[Change]) -> Result<Vec<u8>, NoMemory>
    requires { spec.are_rows (rows_for changes.now) ≡ true }
    ensures { IfOk result (λ bytes. bytes.items ≡ spec.journal_bytes (rows_for changes.now)) }
{
    let mut out = Vec::new(alloc);
    out.extend_from_slice(&MAGIC)?;
    push32(&mut out, row_count(changes))?;
    push_rows(&mut out, changes)?;
    Ok(out)
}
