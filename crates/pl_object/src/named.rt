// The link tables of an object by their names.
ghost use Rattle.std.specs.Prelude.{◌≡◌};
ghost use Rattle.pl_object.specs.Named as spec;

use crate::constants::{
    DYNAMIC_TABLE, FIRST_SYMTAB, JMPREL_TABLE, PACKED_TABLE, RELA_TABLE, STRINGS_TABLE,
    SYMBOLS_TABLE,
};
use crate::{Object, Window};
use pl_elf::Range;

/// A link table as a window of the file.
pub fn range_window(range: &Range) -> Window
    ensures { result ≡ spec.range_window range.now }
{
    Window::new(
        u128::from(range.start),
        range.end.saturating_sub(range.start),
    )
}

fn table_at(object: &Object, index: usize) -> Window
    ensures { result ≡ spec.table_at index object.now }
{
    match object.tables.as_slice().get(index) {
        None => Window::new(0, 0),
        Some(range) => range_window(range),
    }
}

/// Where the dynamic table of an object that is no static program stands in its file.
#[tactic(auto, unfolding(crate::specs::Named::dynamic_of))]
pub fn dynamic_of(object: &Object) -> Window
    ensures { result ≡ spec.dynamic_of object.now }
{
    table_at(object, DYNAMIC_TABLE)
}

/// Where the dynamic symbol table of an object that is no static program stands in its file.
#[tactic(auto, unfolding(crate::specs::Named::symbols_of))]
pub fn symbols_of(object: &Object) -> Window
    ensures { result ≡ spec.symbols_of object.now }
{
    table_at(object, SYMBOLS_TABLE)
}

/// Where the strings of an object that is no static program stand in its file.
#[tactic(auto, unfolding(crate::specs::Named::strings_of))]
pub fn strings_of(object: &Object) -> Window
    ensures { result ≡ spec.strings_of object.now }
{
    table_at(object, STRINGS_TABLE)
}

/// Where the relocations of DT_RELA of an object that is no static program stand in its file. It has no bytes where the object has none.
#[tactic(auto, unfolding(crate::specs::Named::rela_of))]
pub fn rela_of(object: &Object) -> Window
    ensures { result ≡ spec.rela_of object.now }
{
    table_at(object, RELA_TABLE)
}

/// Where the relocations of DT_JMPREL of an object that is no static program stand in its file. It has no bytes where the object has none.
#[tactic(auto, unfolding(crate::specs::Named::jmprel_of))]
pub fn jmprel_of(object: &Object) -> Window
    ensures { result ≡ spec.jmprel_of object.now }
{
    table_at(object, JMPREL_TABLE)
}

/// Where the packed relocations of an object that is no static program stand in its file. It has no bytes where the object has none.
#[tactic(auto, unfolding(crate::specs::Named::packed_of))]
pub fn packed_of(object: &Object) -> Window
    ensures { result ≡ spec.packed_of object.now }
{
    table_at(object, PACKED_TABLE)
}

/// Where the SYMTAB sections of an object that is no static program stand in its file, in the order of the section header table.
#[tactic(auto, unfolding(crate::specs::Named::symtabs_of))]
pub fn symtabs_of(object: &Object) -> &[Range]
    ensures { result.now ≡ spec.symtabs_of object.now }
{
    let tables = object.tables.as_slice();
    &tables[FIRST_SYMTAB.min(tables.len())..]
}
