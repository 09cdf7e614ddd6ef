// Where packed words stand first among lines, by a map of their offsets.
ghost use Rattle.std.specs.Prelude.{◌≡◌, ◌==◌, OnOk};
ghost use Rattle.pl_build.specs.PackedIndex as spec;

use std::alloc::{AllocError, Global};
use std::collections::BTreeMap;

/// For each offset of a packed word, the place of the first line that has it. A look-up takes the logarithm of their number.
#[derive(Drop)]
pub struct PackedIndex {
    pub places: BTreeMap<u64, usize, Global>,
}

impl PackedIndex {
    /// The index of no lines. It takes no memory.
    pub fn new(alloc: Global) -> PackedIndex
        ensures { spec.IsEmpty result }
    {
        PackedIndex {
            places: BTreeMap::new(alloc),
        }
    }

    /// Where an offset stands first. None exactly where it stands nowhere.
    pub fn first(&self, offset: u64) -> Option<usize>
        ensures { result ≡ spec.offset_place self.now offset }
    {
        self.places.get(&offset).copied()
    }

    /// Notes an offset at a place, where it stands nowhere before.
    fn note_offset(&mut self, offset: u64, place: usize) -> Result<(), AllocError>
        ensures { OnOk result (spec.IsNotedBy (λ other. offset == other) self.old place self.new) }
    {
        if self.first(offset).is_some() {
            return Ok(());
        }
        self.places.insert(offset, place)?;
        Ok(())
    }

    /// Notes the offset of a line at a place, if the line has one, and where that offset stands nowhere before. It fails only for want of memory.
    pub fn note(&mut self, offset: Option<u64>, place: usize) -> Result<(), AllocError>
        ensures { OnOk result (spec.IsNotedBy (λ other. spec.is_offset other offset) self.old place
            self.new) }
    {
        match offset {
            None => Ok(()),
            Some(own) => self.note_offset(own, place),
        }
    }
}
