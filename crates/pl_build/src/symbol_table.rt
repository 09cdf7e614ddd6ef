// The symbol table.
ghost use Rattle.std.specs.Prelude.{◌≡◌, IfOk};
ghost use Rattle.pl_build.specs.SymbolTable as spec;

use crate::fields::{Field, Row, push_fields};
use crate::indexed_plan::IndexedPlan;
use crate::layout_plan::data_address;
use crate::line::SymbolLine;
use crate::roles::index_of;
use pl_sym::constants::{SHN_ABS, SHN_UNDEF, STT_NOTYPE, STT_TLS};
use std::alloc::{AllocError, Global};

/// A row of the symbol table (System V gABI chapter 4, "Symbol Table").
#[derive(Clone, Copy)]
pub struct SymbolEntry {
    /// Where the name begins in the strings.
    pub name: u64,
    pub bind: u8,
    pub kind: u8,
    pub visibility: u8,
    pub section: u64,
    pub value: u64,
    pub size: u64,
}

impl Row for SymbolEntry {
    ghost bytes = { spec.entry_bytes };

    #[tactic(auto, unfolding(crate::specs::SymbolTable::entry_bytes))]
    fn push_to(&self, out: &mut Vec<u8>) -> Result<(), AllocError> {
        push_fields(
            out,
            &[
                Field::Word(self.name),
                Field::Byte(u64::from(self.bind) * 16 + u64::from(self.kind)),
                Field::Byte(u64::from(self.visibility)),
                Field::Half(self.section),
                Field::Xword(self.value),
                Field::Xword(self.size),
            ],
        )
    }
}

const NULL_ENTRY: SymbolEntry = SymbolEntry {
    name: 0,
    bind: 0,
    kind: 0,
    visibility: 0,
    section: 0,
    value: 0,
    size: 0,
};

fn has_no_address(symbol: &SymbolLine) -> bool
    ensures { result ≡ spec.has_no_address symbol.now }
{
    symbol.defined && (symbol.kind == STT_NOTYPE || symbol.kind == STT_TLS)
}

#[tactic(auto, unfolding(crate::specs::SymbolTable::section_of))]
fn section_of(plan: &IndexedPlan<'_>, symbol: &SymbolLine) -> u64
    ensures { result ≡ spec.section_of plan.now symbol.now }
{
    if !symbol.defined {
        u64::from(SHN_UNDEF)
    } else if symbol.kind == STT_NOTYPE {
        u64::from(SHN_ABS)
    } else if symbol.kind == STT_TLS || symbol.offset < plan.layout().settings.data_size {
        index_of(plan.layout().roles.as_slice(), b".data") as u64
    } else {
        index_of(plan.layout().roles.as_slice(), b".bss") as u64
    }
}

#[tactic(auto, unfolding(crate::specs::SymbolTable::value_of))]
fn value_of(plan: &IndexedPlan<'_>, symbol: &SymbolLine) -> u64
    ensures { result ≡ spec.value_of plan.now symbol.now }
{
    if !symbol.placed {
        0
    } else if has_no_address(symbol) {
        symbol.offset
    } else {
        data_address(&plan.layout().settings).wrapping_add(symbol.offset)
    }
}

#[tactic(auto, unfolding(crate::specs::SymbolTable::entry_of))]
fn entry_of(plan: &IndexedPlan<'_>, symbol: &SymbolLine) -> SymbolEntry
    ensures { result ≡ spec.entry_of plan.now symbol.now }
{
    SymbolEntry {
        name: plan.text_at(symbol.name.as_slice()),
        bind: symbol.bind,
        kind: symbol.kind,
        visibility: symbol.visibility,
        section: section_of(plan, symbol),
        value: value_of(plan, symbol),
        size: symbol.size,
    }
}

/// The bytes of the symbol table: the null symbol, then all others.
#[tactic(auto, unfolding(crate::specs::SymbolTable::symbol_table))]
pub fn symbol_table(alloc: Global, plan: &IndexedPlan<'_>) -> Result<Vec<u8>, AllocError>
    ensures { IfOk result (λ v. v.items ≡ spec.symbol_table plan.now) }
{
    let mut out = Vec::new(alloc);
    NULL_ENTRY.push_to(&mut out)?;
    let symbols = plan.layout().symbols.as_slice();
    for symbol in symbols {
        entry_of(plan, symbol).push_to(&mut out)?;
    }
    Ok(out)
}
