ghost use Rattle.std.specs.Prelude.{◌≡◌, ℕ, ◌+◌, ◌-◌, ◌*◌, ◌/◌, ◌≤◌, ◌<◌, true, false, nat_le, nat_lt, IfSome};
ghost use Rattle.std.specs.Bool.{OnTrue};
ghost use Rattle.std.specs.List.{find, list_any};
ghost use Rattle.std.specs.Option.{option_copied};
ghost use Rattle.pl_base.specs.Bytes.{word64};
ghost use Rattle.pl_base.specs.Memory as memory;
ghost use Rattle.pl_elf.specs.declared.constants.TheConstants.{ADDRESS_LIMIT};
ghost use Rattle.pl_image.specs.Image.{ascends};
ghost use Rattle.pl_image.specs.Image as spec;

use crate::lines::WORDS;
use pl_base::word64;
use std::marker::Model;

/// Bytes of a file from an address on, then zeros up to the size. Contracts see it as a piece of memory.
#[derive(Drop)]
pub struct Piece<'a> {
    /// The address of its first byte.
    pub start: u64,

    /// How many addresses it has. Bytes past it are not loaded.
    pub size: u64,
    pub bytes: &'a [u8],
}

impl<'a> Model for Piece<'a> {
    ghost use Rattle.pl_base.specs.Memory as words;

    ghost Value = { words.Piece };

    ghost view = { λ p. record { start = p.start; size = p.size; bytes = p.bytes.now } };
}

/// The byte of a piece at an address that it has.
pub fn byte_at(piece: &Piece<'_>, address: u64) -> u8
    ensures { result ≡ memory.byte_at address piece.now }
{
    let at = address.saturating_sub(piece.start);
    if at < piece.bytes.len() as u64 {
        piece.bytes[at as usize]
    } else {
        0
    }
}

/// Whether the piece has the address.
fn lies(address: u64, piece: &Piece<'_>) -> bool
    ensures { result ≡ memory.lies address piece.now }
{
    piece.start <= address && address - piece.start < piece.size
}

/// Whether the piece has the eight addresses from one on.
pub fn has_word(piece: &Piece<'_>, address: u64) -> bool
    ensures { OnTrue result ((piece.now.start ≤ address)
        × (address + 8 ≤ piece.now.start + piece.now.size)) }
{
    piece.start <= address && 8 <= piece.size && address - piece.start <= piece.size - 8
}

/// The piece that has an address, of pieces that ascend.
pub fn piece_at<'p, 'a>(pieces: &'p [Piece<'a>], address: u64) -> Option<&'p Piece<'a>>
    requires { ascends 0 pieces.now ≡ true }
    ensures { option_copied result ≡ find (memory.lies address) pieces.now }
{
    let after = pieces.partition_point(|piece| piece.start <= address);
    if after == 0 {
        return None;
    }
    let piece = &pieces[after - 1];
    if lies(address, piece) {
        Some(piece)
    } else {
        None
    }
}

/// How many bytes of a piece's file are loaded.
fn stored(piece: &Piece<'_>) -> u64
    ensures { result ≡ spec.stored piece.now }
{
    piece.size.min(piece.bytes.len() as u64)
}

/// The word at an address, where the piece's file has all its bytes.
pub fn stored_word(piece: &Piece<'_>, address: u64) -> Option<u64>
    ensures whole { IfSome result (λ word. (piece.now.start ≤ address)
        × (address + 8 ≤ piece.now.start + spec.stored piece.now)) }
    ensures value { IfSome result (λ word. word
        ≡ word64 (address - piece.now.start) piece.now.bytes) }
{
    if address < piece.start {
        return None;
    }
    let at = address - piece.start;
    let size = stored(piece);
    if at < size && 8 <= size - at {
        Some(word64(piece.bytes, at as usize))
    } else {
        None
    }
}

/// Whether the bytes of a piece's file end at or before an address.
fn ends_by(piece: &Piece<'_>, address: u64) -> bool
    ensures { result ≡ nat_le (piece.now.start + spec.stored piece.now) address }
{
    piece.start <= address && stored(piece) <= address - piece.start
}

/// The first piece that has a byte of a file.
fn first_stored<'p, 'a>(pieces: &'p [Piece<'a>]) -> Option<&'p Piece<'a>>
    ensures { option_copied result ≡ find (λ p. nat_lt 0 (spec.stored p)) pieces.now }
{
    pieces.iter().find(|piece| stored(piece) != 0)
}

/// The number of the word in which a piece begins.
fn first_word(piece: &Piece<'_>) -> u64
    ensures { result ≡ piece.now.start / 8 }
{
    piece.start / 8
}

/// The number of the first word from one on that has a byte of a file, `WORDS` where there is none, of pieces that ascend.
pub fn next_stored(pieces: &[Piece<'_>], from: u64) -> u64
    requires ascending { ascends 0 pieces.now ≡ true }
    requires limit { from ≤ WORDS }
    ensures within { (from ≤ result) × (result ≤ WORDS) }
    ensures none { (address : ℕ) → 8 * from ≤ address → address < 8 * result
        → list_any (spec.stores address) pieces.now ≡ false }
    ensures found { result < WORDS → list_any (spec.stores_in result) pieces.now ≡ true }
{
    let address = 8 * from;
    let index = pieces.partition_point(|piece| ends_by(piece, address));
    match first_stored(&pieces[index..]) {
        Some(piece) => from.max(first_word(piece)),
        None => WORDS,
    }
}

/// Where a piece ends.
fn end(piece: &Piece<'_>) -> u64
    requires { piece.now.start + piece.now.size ≤ ADDRESS_LIMIT }
    ensures value { result ≡ piece.now.start + piece.now.size }
    ensures limit { result ≤ ADDRESS_LIMIT }
{
    piece.start + piece.size
}

/// The number of the word in which the first of some pieces begins that ascend; 0 where there is none.
pub fn pieces_begin(pieces: &[Piece<'_>]) -> u64
    requires { ascends 0 pieces.now ≡ true }
    ensures limit { result ≤ WORDS }
    ensures before { (address : ℕ) → address < 8 * result
        → list_any (memory.lies address) pieces.now ≡ false }
{
    if pieces.is_empty() {
        return 0;
    }
    first_word(&pieces[0])
}

/// The number of the first word past pieces that ascend.
pub fn pieces_end(pieces: &[Piece<'_>]) -> u64
    requires { ascends 0 pieces.now ≡ true }
    ensures limit { result ≤ WORDS }
    ensures past { (address : ℕ) → 8 * result ≤ address → list_any (memory.lies address) pieces.now
        ≡ false }
{
    if pieces.is_empty() {
        return 0;
    }
    (end(&pieces[pieces.len() - 1]) + 7) / 8
}
