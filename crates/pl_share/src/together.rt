// Which wants are loaded together with one.
ghost use Rattle.std.specs.Prelude.{◌≡◌, ◌<◌, ℕ, false, ◌||◌, ◌&&◌, length, slice_index_or, IfOk};
ghost use Rattle.pl_share.specs.Together as spec;

use pl_base::Rows;
use std::alloc::{AllocError, Global};

fn has(walk: &[u32], want: usize) -> bool
    ensures { result ≡ spec.walk_has walk.now want }
{
    walk.iter().any(|other| *other as usize == want)
}

/// Flags the wants that a walk holds.
fn flag_all(flags: &mut [bool], walk: &[u32])
    ensures long { length flags.new ≡ length flags.old }
    ensures each { (j : ℕ) → j < length flags.old → slice_index_or flags.new j false
        ≡ (slice_index_or flags.old j false || spec.walk_has walk.now j) }
{
    for want in walk {
        if (*want as usize) < flags.len() {
            flags[*want as usize] = true;
        }
    }
}

/// Flags the wants that a walk holds, where it holds this one.
fn flag_with(flags: &mut [bool], walk: &[u32], want: usize)
    ensures long { length flags.new ≡ length flags.old }
    ensures each { (j : ℕ) → j < length flags.old → slice_index_or flags.new j false
        ≡ (slice_index_or flags.old j false ||
        (spec.walk_has walk.now want && spec.walk_has walk.now j)) }
{
    if has(walk, want) {
        flag_all(flags, walk);
    }
}

/// Flags the wants that some walk holds together with one.
fn flag_together(flags: &mut [bool], walks: &[Rows<u32>], want: usize)
    ensures long { length flags.new ≡ length flags.old }
    ensures each { (j : ℕ) → j < length flags.old → slice_index_or flags.new j false
        ≡ (slice_index_or flags.old j false || spec.are_together walks.now want j) }
{
    for walk in walks {
        flag_with(flags, walk.as_slice(), want);
    }
}

/// The flags of the wants that some walk holds together with one.
pub fn flags_of(
    alloc: Global,
    walks: &[Rows<u32>],
    count: usize,
    want: usize,
) -> Result<Vec<bool>, AllocError>
    ensures { IfOk result (λ flags. spec.AreFlags flags.items walks.now want count) }
{
    let mut flags = vec![in alloc; false; count]?;
    flag_together(&mut flags, walks, want);
    Ok(flags)
}
