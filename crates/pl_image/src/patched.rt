// Memory with patches over it, which is read at many places.
ghost use Rattle.std.specs.Prelude.{◌≡◌, ◌+◌, ◌<◌, ◌==◌, Some, None, fold, length, IfOk, if◌then◌else◌};
ghost use Rattle.std.specs.List.{All};
ghost use Rattle.std.specs.Option.{unwrap_or};
ghost use Rattle.pl_base.specs.Memory as memory;
ghost use Rattle.pl_image.specs.Image as spec;
ghost use Rattle.pl_image.specs.Index.{AreLaid, laid, laid_by, laid_in};

use crate::image::loaded_byte;
use crate::touched::{Touch, index_patches, near};
use crate::{LoadedObject, Patch};
use std::alloc::{AllocError, Global};
use std::marker::Model;

/// Patches, one after the other, of which a later one wins; memory under them is read without a look at those that touch none of the words that are read.
///
/// Contracts see them as the patches.
#[derive(Drop)]
pub struct Patches {
    patches: Vec<Patch>,

    /// The words that they touch.
    touched: Vec<Touch>,
}

impl Model for Patches {
    ghost use Rattle.std.specs.Prelude.{List};
    ghost use Rattle.pl_base.specs.Memory.{Fill};
    ghost use Rattle.pl_image.specs.Index.{IsIndex};

    ghost Value = { List Fill };

    ghost view = { λ p. p.patches.items };

    ghost invariant = { λ p. IsIndex p.patches.items p.touched.items };
}

impl Patches {
    /// These patches. It fails only for want of memory. The time grows as `n log n`.
    pub fn new(alloc: Global, patches: Vec<Patch>) -> Result<Patches, AllocError>
        ensures { IfOk result (λ p. p ≡ patches.items) }
    {
        let touched = index_patches(alloc, &patches)?;
        Ok(Patches { patches, touched })
    }

    /// The bytes from an address on of what objects load, with the patches over it; 0 where there is none. The time grows as the number of the bytes times that of the objects, and as the number of patches that touch their words.
    pub fn read(
        &self,
        alloc: Global,
        objects: &[LoadedObject<'_>],
        from: u64,
        size: u64,
    ) -> Result<Vec<u8>, AllocError>
        requires { spec.AreLoaded objects.now }
        ensures { IfOk result (λ v. v.items ≡ memory.read
            (memory.filled (memory.layered (spec.all_pieces objects.now)) self.now) from size) }
    {
        let mut bytes = read_loaded(alloc, objects, from, size)?;
        let near = near(&self.patches, &self.touched, from, size);
        lay_all(&self.patches, near, from, &mut bytes);
        Ok(bytes)
    }

    /// The patches alone. It takes no memory.
    pub fn into_patches(self) -> Vec<Patch>
        ensures { result.items ≡ self }
    {
        let Patches {
            patches,
            touched: _,
        } = self;
        patches
    }
}

/// What objects load, in scope order, and patches over it, one after the other; a later patch wins. Nothing is masked.
///
/// Contracts see it as the objects and the patches.
#[derive(Drop)]
pub struct Patched<'l, 'a> {
    objects: &'l [LoadedObject<'a>],
    patches: Patches,
}

impl<'l, 'a> Model for Patched<'l, 'a> {
    ghost use Rattle.pl_image.specs.Image as words;

    ghost Value = { words.Image };

    ghost view = { λ p. record { objects = p.objects.now; patches = p.patches } };

    ghost invariant = { λ p. words.AreLoaded p.objects.now };
}

impl<'l, 'a> Patched<'l, 'a> {
    /// What objects load, with patches over it. It fails only for want of memory.
    pub fn new(
        alloc: Global,
        objects: &'l [LoadedObject<'a>],
        patches: Vec<Patch>,
    ) -> Result<Patched<'l, 'a>, AllocError>
        requires { spec.AreLoaded objects.now }
        ensures { IfOk result (λ p. p ≡ record
            { objects = objects.now; patches = patches.items }) }
    {
        let indexed = Patches::new(alloc, patches)?;
        Ok(Patched {
            objects,
            patches: indexed,
        })
    }

    /// The bytes from an address on, 0 where there is none. It takes as long as `read` of the patches.
    pub fn read(&self, alloc: Global, from: u64, size: u64) -> Result<Vec<u8>, AllocError>
        ensures { IfOk result (λ v. v.items ≡ memory.read (spec.patched self.now) from size) }
    {
        self.patches.read(alloc, self.objects, from, size)
    }

    /// The patches alone. It takes no memory.
    pub fn into_patches(self) -> Vec<Patch>
        ensures { result.items ≡ self.entry.patches }
    {
        let Patched {
            objects: _,
            patches,
        } = self;
        patches.into_patches()
    }
}

/// The byte that objects load at so many addresses after one, 0 where there is none.
#[tactic(auto, using(crate::proofs::LoadedLaws::none_above))]
fn byte_after(loaded: &[LoadedObject<'_>], from: u64, distance: u64) -> u8
    requires { spec.AreLoaded loaded.now }
    ensures { result ≡ unwrap_or (memory.layered (spec.all_pieces loaded.now) (from + distance)) 0 }
{
    match from.checked_add(distance) {
        None => 0,
        Some(address) => loaded_byte(loaded, address).unwrap_or(0),
    }
}

/// The bytes that objects load from an address on, 0 where there is none. The time grows as the number of the bytes times that of the objects.
#[tactic(auto, unfolding(pl_base::specs::Memory::read))]
pub fn read_loaded(
    alloc: Global,
    loaded: &[LoadedObject<'_>],
    from: u64,
    size: u64,
) -> Result<Vec<u8>, AllocError>
    requires { spec.AreLoaded loaded.now }
    ensures { IfOk result (λ v. v.items
        ≡ memory.read (memory.layered (spec.all_pieces loaded.now)) from size) }
{
    (0..size)
        .map(|distance| byte_after(loaded, from, distance))
        .collect(alloc)
}

/// The byte that a patch has for an address.
fn covering_byte(patch: &Patch, address: u128) -> Option<u8>
    ensures { result ≡ (if memory.covers address patch.now
        then Some (memory.fill_byte address patch.now) else None) }
{
    let distance = address.checked_sub(u128::from(patch.address))?;
    let bytes = patch.bytes();
    if distance < bytes.len() as u128 {
        Some(bytes[distance as usize])
    } else {
        None
    }
}

/// Writes the byte that a patch has for an address over that of bytes from an address on, where both have one.
fn lay_byte(patch: &Patch, address: u128, from: u64, bytes: &mut [u8])
    ensures { AreLaid (λ a found. if a == address then laid a found patch.now else found) from
        bytes.old bytes.new }
{
    let Some(index) = address.checked_sub(u128::from(from)) else {
        return;
    };
    if index >= bytes.len() as u128 {
        return;
    }
    if let Some(byte) = covering_byte(patch, address) {
        bytes[index as usize] = byte;
    }
}

/// Writes what a patch has for a word over bytes from an address on.
fn lay_word(patch: &Patch, number: u64, from: u64, bytes: &mut [u8])
    ensures { AreLaid (laid_in patch.now number) from bytes.old bytes.new }
{
    let first = 8 * u128::from(number);
    for offset in 0..8u64 {
        lay_byte(patch, first + u128::from(offset), from, bytes);
    }
}

/// Writes the words that patches touch over bytes from an address on, one after the other.
fn lay_all(patches: &[Patch], touches: &[Touch], from: u64, bytes: &mut [u8])
    requires inside { All (λ t. t.patch < length patches.now) touches.now }
    ensures { AreLaid (λ a found. fold (laid_by patches.now a) found touches.now) from bytes.old
        bytes.new }
{
    for touch in touches {
        lay_word(&patches[touch.patch], touch.number, from, bytes);
    }
}
