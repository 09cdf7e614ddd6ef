// An accepted object moved as a whole.
ghost use Rattle.std.specs.Prelude.{◌≡◌, ◌/◌, ◌%◌, length, map};
ghost use Rattle.pl_base.specs.Bytes.{IsBytes};
ghost use Rattle.pl_base.specs.Windows.{AllIn};
ghost use Rattle.pl_move.specs.Moves as moves;
ghost use Rattle.pl_move.specs.Objects as spec;

use crate::{RowKind, Table, move_table, move_table_back, move_tables, move_tables_back};
use pl_elf::Range;
use pl_object::{
    Object, Window, dynamic_of, jmprel_of, packed_of, range_window, rela_of, symbols_of, symtabs_of,
};

/// The whole rows of a window.
pub fn rows_of(kind: RowKind, window: Window) -> Table
    ensures { result ≡ spec.rows_of kind window }
{
    Table {
        kind,
        at: window.at(),
        count: window.size() / kind.row_size() as u64,
    }
}

#[tactic(auto, unfolding(crate::specs::Objects::main_tables))]
fn main_tables(object: &Object) -> [Table; 10]
    ensures { result ≡ spec.main_tables object.now }
{
    let header = &object.header;
    let segments = Table {
        kind: RowKind::SegmentAddress,
        at: u128::from(header.phoff),
        count: u64::from(header.phnum),
    };
    [
        Table {
            kind: RowKind::Entry,
            at: 0,
            count: if object.entry == 0 { 0 } else { 1 },
        },
        segments,
        Table {
            kind: RowKind::PhysicalAddress,
            ..segments
        },
        rows_of(RowKind::TagValue, dynamic_of(object)),
        rows_of(RowKind::SymbolValue, symbols_of(object)),
        rows_of(RowKind::RelocationPlace, rela_of(object)),
        rows_of(RowKind::RelativeAddend, rela_of(object)),
        rows_of(RowKind::RelocationPlace, jmprel_of(object)),
        rows_of(RowKind::RelativeAddend, jmprel_of(object)),
        rows_of(RowKind::PackedAddress, packed_of(object)),
    ]
}

fn move_symtabs(bytes: &mut [u8], symtabs: &[Range], slot: u64)
    requires { AllIn (length bytes.old) (moves.table_windows (map spec.symbol_rows symtabs.now)) }
    ensures { bytes.new ≡ moves.all_moved slot (map spec.symbol_rows symtabs.now) bytes.old }
{
    for range in symtabs {
        let table = rows_of(RowKind::SymbolValue, range_window(range));
        move_table(bytes, &table, slot);
    }
}

fn move_symtabs_back(bytes: &mut [u8], symtabs: &[Range], slot: u64)
    requires { AllIn (length bytes.old) (moves.table_windows (map spec.symbol_rows symtabs.now)) }
    ensures { bytes.new ≡ moves.all_back slot (map spec.symbol_rows symtabs.now) bytes.old }
{
    for index in (0..symtabs.len()).rev() {
        let table = rows_of(RowKind::SymbolValue, range_window(&symtabs[index]));
        move_table_back(bytes, &table, slot);
    }
}

/// Adds a slot modulo 2^64 to all that moves with an object's address: the header's entry where it is not 0, the addresses of segments of the kinds that have some, the values of address tags, those of symbols with a section that are not thread-local, each relocation's place but that of a NONE, the addend of a RELATIVE, and the even words of the packed relocations. Words under relocations stay, and so does all else.
///
/// The object is a program or library that was accepted from these bytes, or from bytes with its tables at the same places.
pub fn move_by(bytes: &mut [u8], object: &Object, slot: u64)
    requires tables { spec.LieIn (length bytes.old) object.now }
    requires even { slot % 2 ≡ 0 }
    ensures moved { bytes.new ≡ moves.all_moved slot (spec.tables_of object.now) bytes.old }
    // `move_back` undoes it
    ensures back { IsBytes bytes.old → moves.all_back slot (spec.tables_of object.now) bytes.new
        ≡ bytes.old }
{
    move_tables(bytes, &main_tables(object), slot);
    move_symtabs(bytes, symtabs_of(object), slot);
}

/// Subtracts a slot modulo 2^64 from all to which `move_by` adds it, the last table first.
pub fn move_back(bytes: &mut [u8], object: &Object, slot: u64)
    requires tables { spec.LieIn (length bytes.old) object.now }
    requires even { slot % 2 ≡ 0 }
    ensures moved { bytes.new ≡ moves.all_back slot (spec.tables_of object.now) bytes.old }
    // `move_by` undoes it
    ensures forth { IsBytes bytes.old → moves.all_moved slot (spec.tables_of object.now) bytes.new
        ≡ bytes.old }
{
    move_symtabs_back(bytes, symtabs_of(object), slot);
    move_tables_back(bytes, &main_tables(object), slot);
}

/// A law: the tables that move lie in the file of an accepted program or library, so that `move_by` and `move_back` may be called.
pub fn tables_lie_in_the_file()
    ensures { spec.TablesLieInTheFile }
{}
