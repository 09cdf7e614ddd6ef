// Numbers under keys, in the order of the keys.
ghost use Rattle.std.specs.Prelude.{◌≡◌, ◌≤◌, true, false, nat_lt, length};
ghost use Rattle.std.specs.List.Sorted.{IsNonDecreasingBy, IsPartitionPoint, IsPermutation};
ghost use Rattle.pl_scope.specs.Entries as spec;

/// A number that stands under a key.
#[derive(Clone, Copy)]
pub struct Entry {
    pub key: u64,
    pub value: u32,
}

/// Puts entries into the order of their keys.
pub fn sort_entries(entries: &mut Vec<Entry>)
    ensures same { IsPermutation entries.old.items entries.new.items }
    ensures rising { IsNonDecreasingBy (λ e. e.key) entries.new.items }
{
    entries.sort_unstable_by_key(|entry| entry.key);
}

/// How many of the entries, which rise, have lower keys than a number.
pub fn first_at(entries: &[Entry], key: u128) -> usize
    requires { IsNonDecreasingBy (λ e. e.key) entries.now }
    ensures bound { result ≤ length entries.now }
    ensures point { IsPartitionPoint (λ e. nat_lt e.key key ≡ true)
        (λ e. nat_lt e.key key ≡ false) entries.now result }
{
    entries.partition_point(|entry| u128::from(entry.key) < key)
}

/// The entries under keys from one on, and before another. The time grows as the logarithm of their number.
pub fn between(entries: &[Entry], first: u128, end: u128) -> &[Entry]
    requires rising { IsNonDecreasingBy (λ e. e.key) entries.now }
    requires range { first ≤ end }
    ensures { spec.AreBetween entries.now first end result.now }
{
    let from = first_at(entries, first);
    let to = first_at(entries, end);
    &entries[from..to]
}

/// The entries under a key. The time grows as the logarithm of their number.
pub fn under(entries: &[Entry], key: u64) -> &[Entry]
    requires { IsNonDecreasingBy (λ e. e.key) entries.now }
    ensures { spec.AreUnder entries.now key result.now }
{
    let key = u128::from(key);
    between(entries, key, key + 1)
}
