// The places where searches of a sorted list begin.
use std::alloc::{AllocError, Global};

/// So many entries are in a range of the table on average.
const OF_A_RANGE: usize = 4;

/// The places where searches of a list begin that is in the order of its keys: for each of so many equal ranges of the keys' upper 32 bits the place of the first entry that is not before the range. A place decides the time of a search alone, so nothing is claimed of it. The table takes a byte an entry.
#[derive(Drop)]
pub struct Starts {
    places: Vec<u32>,

    /// So many ranges there are.
    ranges: usize,
}

impl Starts {
    /// A table for so many entries, none of which is noted yet. It fails only for want of memory.
    pub fn with_room(alloc: Global, entries: usize) -> Result<Starts, AllocError> {
        let ranges = entries / OF_A_RANGE + 1;
        let places = Vec::with_capacity(alloc, ranges)?;
        Ok(Starts { places, ranges })
    }

    /// The number of the range of the upper 32 bits of a key.
    fn range_of(&self, upper: u32) -> usize {
        (u64::from(upper).wrapping_mul(self.ranges as u64) / 0x1_0000_0000) as usize
    }

    /// Notes the place of the next entry, by the upper 32 bits of its key: the ranges up to its own that have no place yet get this one. It fails only for want of memory.
    pub fn note(&mut self, upper: u32, place: usize) -> Result<(), AllocError> {
        let end = self.range_of(upper).saturating_add(1);
        for _ in self.places.len()..end {
            self.places.push((place % 0x1_0000_0000) as u32)?;
        }
        Ok(())
    }

    /// Where a search begins, by the upper 32 bits of its key: at the beginning where no entry is in its range or a later one.
    pub fn place_of(&self, upper: u32) -> u32 {
        match self.places.as_slice().get(self.range_of(upper)) {
            None => 0,
            Some(place) => *place,
        }
    }
}
