// Little-endian numbers: at an offset in bytes, and at the end of them.
ghost use Rattle.std.specs.Prelude.{◌≡◌, ◌+◌, ◌++◌, ◌≤◌, length, OnOk, OnErr};
ghost use Rattle.pl_base.specs.Bytes as spec;

use byteorder::{ByteOrder, LittleEndian};
use std::alloc::AllocError;

/// The 16-bit number at an offset in bytes.
#[tactic(auto, using(std::proofs::lemmas::List::take_rest), unfolding(crate::specs::Bytes::word16))]
pub fn word16(bytes: &[u8], at: usize) -> u16
    requires { at + 2 ≤ length bytes.now }
    ensures { result ≡ spec.word16 at bytes.now }
{
    LittleEndian::read_u16(&bytes[at..])
}

/// The 32-bit number at an offset in bytes.
#[tactic(auto, using(std::proofs::lemmas::List::take_rest), unfolding(crate::specs::Bytes::word32))]
pub fn word32(bytes: &[u8], at: usize) -> u32
    requires { at + 4 ≤ length bytes.now }
    ensures { result ≡ spec.word32 at bytes.now }
{
    LittleEndian::read_u32(&bytes[at..])
}

/// The 64-bit number at an offset in bytes.
#[tactic(auto, using(std::proofs::lemmas::List::take_rest), unfolding(crate::specs::Bytes::word64))]
pub fn word64(bytes: &[u8], at: usize) -> u64
    requires { at + 8 ≤ length bytes.now }
    ensures { result ≡ spec.word64 at bytes.now }
{
    LittleEndian::read_u64(&bytes[at..])
}

/// Writes a 16-bit number at an offset in bytes.
#[tactic(auto, unfolding(crate::specs::Bytes::bytes16, crate::specs::Bytes::put))]
pub fn put16(bytes: &mut [u8], at: usize, number: u16)
    requires { at + 2 ≤ length bytes.old }
    ensures { bytes.new ≡ spec.put at (spec.bytes16 number) bytes.old }
{
    LittleEndian::write_u16(&mut bytes[at..], number);
}

/// Writes a 32-bit number at an offset in bytes.
#[tactic(auto, unfolding(crate::specs::Bytes::bytes32, crate::specs::Bytes::put))]
pub fn put32(bytes: &mut [u8], at: usize, number: u32)
    requires { at + 4 ≤ length bytes.old }
    ensures { bytes.new ≡ spec.put at (spec.bytes32 number) bytes.old }
{
    LittleEndian::write_u32(&mut bytes[at..], number);
}

/// Writes a 64-bit number at an offset in bytes.
#[tactic(auto, unfolding(crate::specs::Bytes::bytes64, crate::specs::Bytes::put))]
pub fn put64(bytes: &mut [u8], at: usize, number: u64)
    requires { at + 8 ≤ length bytes.old }
    ensures { bytes.new ≡ spec.put at (spec.bytes64 number) bytes.old }
{
    LittleEndian::write_u64(&mut bytes[at..], number);
}

/// Adds the four bytes of a 32-bit number at the end, the lowest first. It fails only for want of memory, and then the bytes are as before.
#[tactic(auto, unfolding(crate::specs::Bytes::bytes32))]
pub fn push32(bytes: &mut Vec<u8>, number: u32) -> Result<(), AllocError>
    ensures ok { OnOk result (bytes.new.items ≡ bytes.old.items ++ spec.bytes32 number) }
    ensures err { OnErr result (bytes.new.items ≡ bytes.old.items) }
{
    bytes.extend_from_slice(&number.to_le_bytes())
}

/// Adds the eight bytes of a 64-bit number at the end, the lowest first. It fails only for want of memory, and then the bytes are as before.
#[tactic(auto, unfolding(crate::specs::Bytes::bytes64))]
pub fn push64(bytes: &mut Vec<u8>, number: u64) -> Result<(), AllocError>
    ensures ok { OnOk result (bytes.new.items ≡ bytes.old.items ++ spec.bytes64 number) }
    ensures err { OnErr result (bytes.new.items ≡ bytes.old.items) }
{
    bytes.extend_from_slice(&number.to_le_bytes())
}

/// The bytes from an offset on, as many as size, as far as there are any.
pub fn part(bytes: &[u8], at: u128, size: u64) -> &[u8]
    ensures bytes { result.now ≡ spec.part at size bytes.now }
    ensures within { length result.now ≤ length bytes.now }
{
    if at >= bytes.len() as u128 {
        return &bytes[bytes.len()..];
    }
    let rest = &bytes[at as usize..];
    if size >= rest.len() as u64 {
        return rest;
    }
    &rest[..size as usize]
}
