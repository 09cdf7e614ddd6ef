// Rows of a table, one after the other.
ghost use Rattle.std.specs.Prelude.{◌≡◌, ◌*◌, ◌≤◌, length};
ghost use Rattle.pl_move.specs.Moves as spec;

use crate::RowKind;
use pl_base::{put64, word64};

#[tactic(auto, unfolding(crate::specs::Moves::row_moved, crate::specs::Moves::add8))]
fn move_row(row: &mut [u8], kind: RowKind, more: u64)
    requires { length row.old ≡ spec.row_size kind }
    ensures { row.new ≡ spec.row_moved more kind row.old }
{
    if kind.moves(row) {
        let at = kind.word_offset();
        put64(row, at, word64(row, at).wrapping_add(more));
    }
}

/// Adds a number modulo 2^64 to the word of each of so many rows, from the start of the bytes on, whose word moves. Nothing else changes.
pub fn move_rows(rows: &mut [u8], kind: RowKind, count: usize, more: u64)
    requires { spec.row_size kind * count ≤ length rows.old }
    ensures { rows.new ≡ spec.rows (spec.row_size kind) (spec.row_moved more kind) count rows.old }
{
    let size = kind.row_size();
    for index in 0..count {
        let at = size * index;
        move_row(&mut rows[at..at + size], kind, more);
    }
}
