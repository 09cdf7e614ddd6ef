ghost use Rattle.std.specs.Prelude.{◌+◌, ◌≤◌, length};
ghost use Rattle.pl_base.specs.Answers.{Answers};
ghost use Rattle.pl_sym.specs.Table as spec;

use crate::constants::SYMBOL_SIZE;
use crate::string_ends::StringEnds;
use crate::{SymFault, Symbol};
use pl_base::{Rows, word16, word32, word64};
use pl_ver::constants::VER_NDX_GLOBAL;
use std::alloc::Global;

#[tactic(auto, unfolding(crate::specs::Table::symbol_at))]
fn symbol_at(
    alloc: Global,
    table: &[u8],
    strings: &StringEnds,
    at: usize,
) -> Result<Symbol, SymFault>
    requires { at + SYMBOL_SIZE ≤ length table.now }
    ensures { Answers spec.is_memory result (spec.symbol_at table.now strings.now at) }
{
    let info = table[at + 4];
    let other = table[at + 5];
    match strings.name_at(alloc, word32(table, at))? {
        None => Err(SymFault::BadSymbol),
        Some(name) => Ok(Symbol {
            name,
            value: word64(table, at + 8),
            size: word64(table, at + 16),
            bind: info >> 4,
            kind: info & 0xf,
            visibility: other & 3,
            section: word16(table, at + 6),
            version: VER_NDX_GLOBAL,
        }),
    }
}

/// The symbols of a table, one for each whole row of 24 bytes in the table's order. A symbol's name is the string from the offset that its row has up to the first 0 byte; short names are copied, and the long ones share one copy of the strings. No table here holds versions, so each symbol has the version word 1. BadSymbol exactly where a name has no end inside the strings (gABI chapter 4, "Symbol Table"). The time grows as the table and the strings, also where names share the ends of long strings.
pub fn read_symbols(alloc: Global, table: &[u8], strings: &[u8]) -> Result<Rows<Symbol>, SymFault>
    ensures { Answers spec.is_memory result (spec.symbols table.now strings.now) }
{
    let ends = StringEnds::new(alloc, strings)?;
    let mut symbols = Rows::from_vec(Vec::with_capacity(alloc, table.len() / SYMBOL_SIZE)?);
    for index in 0..table.len() / SYMBOL_SIZE {
        symbols.push(symbol_at(alloc, table, &ends, SYMBOL_SIZE * index)?)?;
    }
    Ok(symbols)
}
