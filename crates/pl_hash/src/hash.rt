// The two hash functions.
ghost use Rattle.std.specs.Prelude.{◌≡◌};
ghost use Rattle.pl_hash.specs.Hash as spec;

/// The four highest bits of a System V hash, which each step folds down.
pub const SYSV_TOP: u32 = 0xf0000000;

/// The GNU hash of a name without bytes, from which each byte goes on.
pub const GNU_START: u32 = 5381;

/// One byte more in a System V hash.
#[tactic(auto, unfolding(crate::specs::Hash::sysv_step))]
fn sysv_step(hash: u32, byte: u8) -> u32
    ensures { result ≡ spec.sysv_step hash byte }
{
    let hash = hash.wrapping_mul(16).wrapping_add(u32::from(byte));
    let top = hash & SYSV_TOP;
    (hash ^ (top >> 24)) & !top
}

/// One byte more in a GNU hash.
#[tactic(auto, unfolding(crate::specs::Hash::gnu_step))]
fn gnu_step(hash: u32, byte: u8) -> u32
    ensures { result ≡ spec.gnu_step hash byte }
{
    hash.wrapping_mul(33).wrapping_add(u32::from(byte))
}

/// The hash of a symbol's name in the System V table (System V gABI chapter 5, "Hash Table"), modulo 2^32.
#[tactic(auto, unfolding(crate::specs::Hash::sysv))]
pub fn sysv_hash(name: &[u8]) -> u32
    ensures { result ≡ spec.sysv name.now }
{
    name.iter().fold(0, |hash, byte| sysv_step(hash, *byte))
}

/// The hash of a symbol's name in the GNU table (GNU hash table), modulo 2^32.
#[tactic(auto, unfolding(crate::specs::Hash::gnu))]
pub fn gnu_hash(name: &[u8]) -> u32
    ensures { result ≡ spec.gnu name.now }
{
    name.iter()
        .fold(GNU_START, |hash, byte| gnu_step(hash, *byte))
}
