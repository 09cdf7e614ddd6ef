ghost use Rattle.std.specs.Prelude.{◌≡◌, ◌+◌, ◌<◌, ◌^◌, IfOk};
ghost use Rattle.pl_slots.specs.Plan as spec;

use pl_base::Text;
use pl_elf::Range;
use std::alloc::{AllocError, Global};

/// What a library wants: addresses for a slot, or for a place without one.
#[derive(Drop)]
pub struct Want {
    /// The name of its file.
    pub name: Text,

    /// How many bytes of addresses it takes.
    pub span: u64,

    /// What its first address is to be a multiple of, above 0.
    pub align: u64,
}

/// The address range that a library has.
#[derive(Drop)]
pub struct Slot {
    /// The name of its file.
    pub name: Text,

    /// The first address.
    pub start: u64,

    /// How many bytes of addresses there are.
    pub span: u64,
}

impl Slot {
    /// A copy of the slot. It fails only for want of memory.
    pub fn copy(&self, alloc: Global) -> Result<Slot, AllocError>
        ensures { IfOk result (λ slot. slot ≡ self.now) }
    {
        let name = Text::copy_of(alloc, self.name.as_str())?;
        Ok(Slot {
            name,
            start: self.start,
            span: self.span,
        })
    }

    /// The addresses of the slot.
    pub fn range(&self) -> Range
        requires { self.now.start + self.now.span < 2 ^ 64 }
        ensures { result ≡ spec.slot_range self.now }
    {
        Range::from_size(self.start, self.span)
    }
}
