ghost use Rattle.std.specs.Prelude.{◌≡◌, ◌+◌, ◌-◌, ◌≤◌, length, IfSome};
ghost use Rattle.pl_base.specs.Bytes.{bytes64, word64};
ghost use Rattle.pl_image.specs.Index as spec;

use pl_base::word64;
use std::marker::Model;

/// Where the bytes of a patch stand.
#[derive(Drop)]
enum PatchBytes {
    /// The bytes of a word, in the patch itself.
    Word([u8; 8]),

    /// In memory of their own.
    Own(Vec<u8>),
}

/// Bytes for a place in memory, over what was there. Contracts see it as a fill. Most are words, and take no memory besides the patch's.
#[derive(Drop)]
pub struct Patch {
    pub address: u64,
    place: PatchBytes,
}

impl Model for Patch {
    ghost use Rattle.pl_base.specs.Memory.{Fill};
    ghost use Rattle.pl_image.specs.Patch.{bytes_at};

    ghost Value = { Fill };

    ghost view = { λ p. record { start = p.address; bytes = bytes_at p.place } };
}

impl Patch {
    /// These bytes for an address.
    pub fn new(address: u64, bytes: Vec<u8>) -> Patch
        ensures { result ≡ record { start = address; bytes = bytes.items } }
    {
        Patch {
            address,
            place: PatchBytes::Own(bytes),
        }
    }

    /// The eight bytes of a word, the least significant first, for an address.
    #[tactic(auto, using(pl_base::proofs::WordLaws::bytes64_std))]
    pub fn word(address: u64, word: u64) -> Patch
        ensures { result ≡ record { start = address; bytes = bytes64 word } }
    {
        Patch {
            address,
            place: PatchBytes::Word(word.to_le_bytes()),
        }
    }

    /// The bytes, lent.
    pub fn bytes(&self) -> &[u8]
        ensures { result.now ≡ self.now.bytes }
    {
        match &self.place {
            PatchBytes::Word(bytes) => bytes.as_slice(),
            PatchBytes::Own(bytes) => bytes.as_slice(),
        }
    }
}

/// The byte at an address with a patch over it.
pub fn laid(patch: &Patch, found: u8, address: u64) -> u8
    ensures { result ≡ spec.laid address found patch.now }
{
    let bytes = patch.bytes();
    if patch.address <= address && address - patch.address < bytes.len() as u64 {
        bytes[(address - patch.address) as usize]
    } else {
        found
    }
}

/// The word at an address, where a patch has all its bytes.
pub fn patch_word(patch: &Patch, address: u64) -> Option<u64>
    ensures whole { IfSome result (λ word. (patch.now.start ≤ address)
        × (address + 8 ≤ patch.now.start + length patch.now.bytes)) }
    ensures value { IfSome result (λ word. word
        ≡ word64 (address - patch.now.start) patch.now.bytes) }
{
    if address < patch.address {
        return None;
    }
    let at = address - patch.address;
    let bytes = patch.bytes();
    let size = bytes.len() as u64;
    if at < size && 8 <= size - at {
        Some(word64(bytes, at as usize))
    } else {
        None
    }
}
