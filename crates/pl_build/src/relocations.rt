// The tables of relocations.
ghost use Rattle.std.specs.Prelude.{◌≡◌, IfOk};
ghost use Rattle.pl_build.specs.Relocations as spec;

use crate::fields::{Field, Row, push_fields};
use crate::indexed_plan::IndexedPlan;
use crate::layout_plan::{data_address, is_jump_slot, is_other};
use crate::line::Relocation;
use crate::packed::addend_of;
use crate::relocation_lines::is_no_symbol;
use pl_elf::constants::R_X86_64_RELATIVE;
use std::alloc::{AllocError, Global};

/// A row of a table of relocations (System V gABI chapter 4, "Relocation").
#[derive(Clone, Copy)]
pub struct Rela {
    /// The address of the word.
    pub offset: u64,

    /// One of the `R_X86_64_` numbers.
    pub kind: u32,

    /// The symbol's number, 0 for none.
    pub symbol: u64,
    pub addend: u64,
}

impl Row for Rela {
    ghost bytes = { spec.rela_bytes };

    #[tactic(auto, unfolding(crate::specs::Relocations::rela_bytes))]
    fn push_to(&self, out: &mut Vec<u8>) -> Result<(), AllocError> {
        push_fields(
            out,
            &[
                Field::Xword(self.offset),
                Field::Word(u64::from(self.kind)),
                Field::Word(self.symbol),
                Field::Xword(self.addend),
            ],
        )
    }
}

#[tactic(auto, unfolding(crate::specs::Relocations::symbol_number))]
fn symbol_number(plan: &IndexedPlan<'_>, name: &[u8]) -> u64
    ensures { result ≡ spec.symbol_number plan.now name.now }
{
    if is_no_symbol(name) {
        return 0;
    }
    match plan.symbol_position(name) {
        Some(index) => (index as u64).wrapping_add(1),
        None => 0,
    }
}

#[tactic(auto, unfolding(crate::specs::Relocations::moved_addend))]
fn moved_addend(plan: &IndexedPlan<'_>, relocation: &Relocation) -> u64
    ensures { result ≡ spec.moved_addend plan.now relocation.now }
{
    if relocation.kind == R_X86_64_RELATIVE {
        data_address(&plan.layout().settings).wrapping_add(addend_of(relocation.addend))
    } else {
        addend_of(relocation.addend)
    }
}

#[tactic(auto, unfolding(crate::specs::Relocations::rela_of))]
fn rela_of(plan: &IndexedPlan<'_>, relocation: &Relocation) -> Rela
    ensures { result ≡ spec.rela_of plan.now relocation.now }
{
    Rela {
        offset: data_address(&plan.layout().settings).wrapping_add(relocation.offset),
        kind: relocation.kind,
        symbol: symbol_number(plan, relocation.name.as_slice()),
        addend: moved_addend(plan, relocation),
    }
}

/// The bytes of `.rela.plt`: the relocations of jump slots.
#[tactic(auto, unfolding(crate::specs::Relocations::jump_slots))]
pub fn jump_slots(alloc: Global, plan: &IndexedPlan<'_>) -> Result<Vec<u8>, AllocError>
    ensures { IfOk result (λ v. v.items ≡ spec.jump_slots plan.now) }
{
    let mut out = Vec::new(alloc);
    let relocations = plan.layout().relocations.as_slice();
    for relocation in relocations {
        if is_jump_slot(relocation) {
            rela_of(plan, relocation).push_to(&mut out)?;
        }
    }
    Ok(out)
}

/// The bytes of `.rela.dyn`: all other relocations.
#[tactic(auto, unfolding(crate::specs::Relocations::others))]
pub fn others(alloc: Global, plan: &IndexedPlan<'_>) -> Result<Vec<u8>, AllocError>
    ensures { IfOk result (λ v. v.items ≡ spec.others plan.now) }
{
    let mut out = Vec::new(alloc);
    let relocations = plan.layout().relocations.as_slice();
    for relocation in relocations {
        if is_other(relocation) {
            rela_of(plan, relocation).push_to(&mut out)?;
        }
    }
    Ok(out)
}
