// The entries of a table, as they stand in its bytes.
ghost use Rattle.std.specs.Prelude.{◌≡◌, ◌*◌, ◌/◌, ◌<◌, length};
ghost use Rattle.pl_base.specs.Bytes.{IsBytes};
ghost use Rattle.pl_relr.specs.Entries as spec;

use pl_base::word64;

/// The size of an entry, in bytes.
pub const ENTRY_SIZE: usize = 8;

/// The size of a place, in bytes.
pub const PLACE_SIZE: u64 = 8;

/// The address that ends the places of user space, 2^47: each place that can be packed lies below it.
pub const PLACES_END: u64 = 0x8000_0000_0000;

/// How many places an odd entry has bits for.
pub const BITS: u64 = 63;

/// How far the next place of one odd entry lies before that of the following one, in bytes.
pub const SPAN: u64 = 504;

/// The entry at an index, from 0.
pub fn entry(table: &[u8], index: usize) -> u64
    requires { index < spec.entry_count table.now }
    ensures { result ≡ spec.entry table.now index }
{
    word64(table, ENTRY_SIZE * index)
}

/// How many whole entries a table has.
pub fn entry_count(table: &[u8]) -> usize
    ensures value { result ≡ spec.entry_count table.now }
    ensures bytes { IsBytes table.now }
{
    table.len() / ENTRY_SIZE
}

/// Whether an entry is even, so that it names a place.
pub fn is_even(entry: u64) -> bool
    ensures { result ≡ spec.is_even entry }
{
    entry % 2 == 0
}
