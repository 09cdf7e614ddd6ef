// Tables of a file, by themselves and all in turn.
ghost use Rattle.std.specs.Prelude.{◌≡◌, ◌-◌, ◌^◌, length};
ghost use Rattle.pl_base.specs.Windows.{AllIn, IsIn};
ghost use Rattle.pl_move.specs.Moves as spec;

use crate::RowKind;
use crate::rows::move_rows;

/// Rows of one kind, one after the other.
#[derive(Clone, Copy, Debug, PartialEq, Eq)]
pub struct Table {
    pub kind: RowKind,

    /// File offset of the first row.
    pub at: u128,

    /// How many rows there are.
    pub count: u64,
}

/// Adds a number modulo 2^64 to the word of each row whose word moves. The table lies in the bytes; nothing else changes.
#[tactic(auto, unfolding(crate::specs::Moves::moved, pl_base::specs::Windows::on, pl_base::specs::Bytes::put))]
pub fn move_table(bytes: &mut [u8], table: &Table, more: u64)
    requires { IsIn (length bytes.old) (spec.table_window table.now) }
    ensures { bytes.new ≡ spec.moved more table.now bytes.old }
{
    let at = table.at as usize;
    let count = table.count as usize;
    let end = at + table.kind.row_size() * count;
    move_rows(&mut bytes[at..end], table.kind, count, more);
}

/// Subtracts a number modulo 2^64 from the word of each row whose word moves.
pub fn move_table_back(bytes: &mut [u8], table: &Table, less: u64)
    requires { IsIn (length bytes.old) (spec.table_window table.now) }
    ensures { bytes.new ≡ spec.moved (2 ^ 64 - less) table.now bytes.old }
{
    move_table(bytes, table, less.wrapping_neg());
}

/// Moves each table in turn.
pub fn move_tables(bytes: &mut [u8], tables: &[Table], more: u64)
    requires { AllIn (length bytes.old) (spec.table_windows tables.now) }
    ensures { bytes.new ≡ spec.all_moved more tables.now bytes.old }
{
    for table in tables {
        move_table(bytes, table, more);
    }
}

/// Moves each table back, the last first. It undoes `move_tables`, also where tables overlap.
pub fn move_tables_back(bytes: &mut [u8], tables: &[Table], less: u64)
    requires { AllIn (length bytes.old) (spec.table_windows tables.now) }
    ensures { bytes.new ≡ spec.all_back less tables.now bytes.old }
{
    for index in (0..tables.len()).rev() {
        move_table_back(bytes, &tables[index], less);
    }
}
