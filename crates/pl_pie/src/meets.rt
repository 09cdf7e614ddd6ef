// Whether what is written where a program is fixed shares a byte with windows.
ghost use Rattle.std.specs.Prelude.{◌≡◌, ◌+◌, ◌≤◌, length};
ghost use Rattle.std.specs.List.{list_any};
ghost use Rattle.pl_base.specs.Windows.{AllIn, IsIn};
ghost use Rattle.pl_object.specs.TableClauses as tables;
ghost use Rattle.pl_move.specs.Moves as moves;
ghost use Rattle.pl_move.specs.Objects as objects;
ghost use Rattle.pl_pie.specs.Words as spec;

use crate::constants::WORD_SIZE;
use pl_elf::Range;
use pl_move::{RowKind, Table, rows_of};
use pl_object::{
    Object, Window, dynamic_of, jmprel_of, packed_of, range_window, rela_of, symbols_of, symtabs_of,
};

/// Whether a window shares a byte with one of the others.
pub fn meets(windows: &[Window], window: Window) -> bool
    ensures { result ≡ tables.meets windows.now window }
{
    windows.iter().any(|other| window.shares(other))
}

/// A word that moves, as a window of the file.
pub fn word_window(at: u128) -> Window
    ensures { result ≡ spec.word_window at }
{
    Window::new(at, WORD_SIZE as u64)
}

#[tactic(auto, unfolding(crate::specs::Words::row_meets))]
fn row_meets(windows: &[Window], bytes: &[u8], table: &Table, index: u64) -> bool
    requires { spec.row_start table.now index + moves.row_size table.now.kind ≤ length bytes.now }
    ensures { result ≡ spec.row_meets windows.now bytes.now table.now index }
{
    let size = table.kind.row_size();
    let start = table.at as usize + size * index as usize;
    let word = start + table.kind.word_offset();
    table.kind.moves(&bytes[start..start + size]) && meets(windows, word_window(word as u128))
}

#[tactic(auto, using(crate::proofs::RowLaws::row_room), unfolding(crate::specs::Words::table_meets))]
fn table_meets(windows: &[Window], bytes: &[u8], table: &Table) -> bool
    requires { IsIn (length bytes.now) (moves.table_window table.now) }
    ensures { result ≡ spec.table_meets windows.now bytes.now table.now }
{
    (0..table.count).any(|index| row_meets(windows, bytes, table, index))
}

/// The tables of an object, those of its SYMTAB sections aside.
#[tactic(auto, unfolding(pl_move::specs::Objects::main_tables))]
fn main_tables(object: &Object) -> [Table; 10]
    ensures { result ≡ objects.main_tables object.now }
{
    let header = &object.header;
    let segments = Table {
        kind: RowKind::SegmentAddress,
        at: u128::from(header.phoff),
        count: u64::from(header.phnum),
    };
    [
        Table {
            kind: RowKind::Entry,
            at: 0,
            count: if object.entry == 0 { 0 } else { 1 },
        },
        segments,
        Table {
            kind: RowKind::PhysicalAddress,
            ..segments
        },
        rows_of(RowKind::TagValue, dynamic_of(object)),
        rows_of(RowKind::SymbolValue, symbols_of(object)),
        rows_of(RowKind::RelocationPlace, rela_of(object)),
        rows_of(RowKind::RelativeAddend, rela_of(object)),
        rows_of(RowKind::RelocationPlace, jmprel_of(object)),
        rows_of(RowKind::RelativeAddend, jmprel_of(object)),
        rows_of(RowKind::PackedAddress, packed_of(object)),
    ]
}

fn any_meets(windows: &[Window], bytes: &[u8], tables: &[Table]) -> bool
    requires { AllIn (length bytes.now) (moves.table_windows tables.now) }
    ensures { result ≡ list_any (spec.table_meets windows.now bytes.now) tables.now }
{
    for table in tables {
        if table_meets(windows, bytes, table) {
            return true;
        }
    }
    false
}

fn symtab_meets(windows: &[Window], bytes: &[u8], range: &Range) -> bool
    requires { IsIn (length bytes.now) (moves.table_window (objects.symbol_rows range.now)) }
    ensures { result ≡ spec.symtab_meets windows.now bytes.now range.now }
{
    let table = rows_of(RowKind::SymbolValue, range_window(range));
    table_meets(windows, bytes, &table)
}

fn any_symtab_meets(windows: &[Window], bytes: &[u8], symtabs: &[Range]) -> bool
    requires { spec.SymtabsLieIn (length bytes.now) symtabs.now }
    ensures { result ≡ list_any (spec.symtab_meets windows.now bytes.now) symtabs.now }
{
    for range in symtabs {
        if symtab_meets(windows, bytes, range) {
            return true;
        }
    }
    false
}

/// Whether a word that moves in a row of a table shares a byte with a window.
#[tactic(auto, unfolding(crate::specs::Words::tables_meet))]
pub fn tables_meet(windows: &[Window], bytes: &[u8], object: &Object) -> bool
    requires { objects.LieIn (length bytes.now) object.now }
    ensures { result ≡ spec.tables_meet windows.now bytes.now object.now }
{
    any_meets(windows, bytes, &main_tables(object))
        || any_symtab_meets(windows, bytes, symtabs_of(object))
}

/// Whether another word that moves shares a byte with a window.
#[tactic(auto, unfolding(crate::specs::Words::others_meet))]
pub fn others_meet(windows: &[Window], words: &[u128]) -> bool
    ensures { result ≡ list_any (λ at. tables.meets windows.now (spec.word_window at)) words.now }
{
    words.iter().any(|&at| meets(windows, word_window(at)))
}
