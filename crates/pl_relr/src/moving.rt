// A table as it moves with its object.
ghost use Rattle.std.specs.Prelude.{◌≡◌, ◌-◌, ◌%◌, ◌<◌, ◌^◌, ℕ, false, map};
ghost use Rattle.pl_base.specs.Sums.{plus};
ghost use Rattle.pl_relr.specs.Entries.{entry, entries, entry_count};
ghost use Rattle.pl_relr.specs.Places.{begins_odd, places};
ghost use Rattle.pl_relr.specs.Moved as spec;

use crate::entries::{ENTRY_SIZE, entry, entry_count, is_even};
use pl_base::put64;

/// An entry with a number added, modulo 2^64, where it is even.
#[tactic(auto, unfolding(crate::specs::Moved::moved_entry))]
fn moved_entry(entry: u64, more: u64) -> u64
    ensures { result ≡ spec.moved_entry more entry }
{
    if is_even(entry) {
        entry.wrapping_add(more)
    } else {
        entry
    }
}

/// Adds the slot, modulo 2^64, to the even entries of a table of packed relative relocations (gABI, "Relative Relocation Table"), which are addresses. Odd entries, and bytes after the last whole entry, stay. So the table names each place moved by the slot, and moving it by 2^64 minus the slot gives it back.
pub fn move_table(table: &mut [u8], slot: u64)
    requires { slot % 2 ≡ 0 }
    ensures moved { table.new ≡ spec.moved slot table.old }

    // Each even entry has the slot added, each odd one stays.
    ensures each { (i : ℕ) → i < entry_count table.old → entry table.new i
        ≡ spec.moved_entry slot (entry table.old i) }
    ensures undo { spec.moved (2 ^ 64 - slot) table.new ≡ table.old }
    ensures places { begins_odd (entries table.old) ≡ false → places table.new
        ≡ map (λ place. plus place slot) (places table.old) }
{
    for index in 0..entry_count(table) {
        let entry = entry(table, index);
        put64(table, ENTRY_SIZE * index, moved_entry(entry, slot));
    }
}
