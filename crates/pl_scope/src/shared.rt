// The hashes that may have more entries than one.
ghost use Rattle.std.specs.Prelude.{◌≡◌, ◌<◌, ℕ, false, ◌||◌, length, slice_index_or, IfOk};
ghost use Rattle.pl_scope.specs.Index.{IsInOrder};
ghost use Rattle.pl_scope.specs.Shared as spec;

use crate::index::Entry;
use crate::short_index::mixed;
use std::alloc::{AllocError, Global};

/// How many flags there are.
const FLAGS: usize = 32_768;

/// How many hashes share a flag. All hashes, 2^32, are FLAGS times as many.
const OF_A_FLAG: u32 = 131_072;

/// Which hashes may have more entries than one: for each hash a flag, which others share. Most names are defined once, and of these a flag tells it without a search: all flags together stay in the processor's cache.
#[derive(Drop)]
pub struct Shared {
    pub flags: Vec<bool>,
}

/// The number of the flag of a hash.
fn flag_of(hash: u32) -> usize
    ensures { result ≡ spec.flag_of hash }
{
    (mixed(hash) / OF_A_FLAG) as usize
}

/// Sets the flag of an entry's hash, where the entry before has the same hash.
fn note(flags: &mut [bool], before: u32, hash: u32)
    requires { length flags.old ≡ 32768 }
    ensures long { length flags.new ≡ length flags.old }
    ensures each { (j : ℕ) → j < length flags.old → slice_index_or flags.new j false
        ≡ (slice_index_or flags.old j false || spec.is_of_twins before hash j) }
{
    if before == hash {
        flags[flag_of(hash)] = true;
    }
}

/// Sets the flag of each hash that two entries have which follow one another.
fn note_all(flags: &mut [bool], entries: &[Entry])
    requires { length flags.old ≡ 32768 }
    ensures long { length flags.new ≡ length flags.old }
    ensures noted { spec.AreNoted entries.now (length entries.now) flags.new }
{
    for place in 1..entries.len() {
        note(flags, entries[place - 1].hash, entries[place].hash);
    }
}

impl Shared {
    /// Which hashes may have more entries than one, of entries in the order of their mixed hashes. It fails only for want of memory.
    pub fn of(alloc: Global, entries: &[Entry]) -> Result<Shared, AllocError>
        requires { IsInOrder entries.now }
        ensures { IfOk result (λ shared. spec.AreShared entries.now shared.flags.items) }
    {
        let mut flags = vec![in alloc; false; FLAGS]?;
        note_all(&mut flags, entries);
        Ok(Shared { flags })
    }

    /// Whether a hash may have more entries than one; where it is false it has one at most.
    pub fn may_repeat(&self, hash: u32) -> bool
        requires { length self.now.flags.items ≡ 32768 }
        ensures { result ≡ spec.is_flagged self.now.flags.items hash }
    {
        self.flags[flag_of(hash)]
    }
}
