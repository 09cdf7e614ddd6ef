// Keys that stand twice.
ghost use Rattle.std.specs.Prelude.{◌≡◌, IfOk};
ghost use Rattle.std.specs.Str.{bytes_eq};
ghost use Rattle.pl_base.specs.Pairs.{any_pair};
ghost use Rattle.pl_object.specs.Keys as spec;

use pl_base::Rows;
use std::alloc::{AllocError, Global};
use std::collections::BTreeMap;

/// Whether two of the keys are the same. The time grows as `n log n`.
pub fn has_repeat(alloc: Global, keys: &[Rows<u8>]) -> Result<bool, AllocError>
    ensures { IfOk result (λ b. b ≡ any_pair bytes_eq keys.now) }
{
    let mut seen: BTreeMap<&[u8], (), Global> = BTreeMap::new(alloc);
    for key in keys {
        if seen.insert(key.as_slice(), ())?.is_some() {
            return Ok(true);
        }
    }
    Ok(false)
}

/// A version's name and a symbol's as one.
pub fn joined(alloc: Global, version: &[u8], name: &[u8]) -> Result<Rows<u8>, AllocError>
    ensures { IfOk result (λ key. key ≡ spec.joined version.now name.now) }
{
    let mut key = Vec::new(alloc);
    for byte in version {
        key.push(1)?;
        key.push(*byte)?;
    }
    key.push(0)?;
    key.extend_from_slice(name)?;
    Ok(Rows::from_vec(key))
}
