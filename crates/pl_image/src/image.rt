ghost use Rattle.std.specs.Prelude.{◌≡◌, ℕ, ◌+◌, ◌*◌, ◌/◌, ◌≤◌, ◌<◌, ◌++◌, ◌||◌, fold, true, false, IfOk, IfSome, if◌then◌else◌};
ghost use Rattle.std.specs.List.{All, list_any};
ghost use Rattle.pl_base.specs.Memory.{layered};
ghost use Rattle.pl_image.specs.Image as spec;
ghost use Rattle.pl_image.specs.Image.{IsOwnWord};
ghost use Rattle.pl_image.specs.Index.{AreTouching, is_touched, laid};
ghost use Rattle.pl_image.specs.Lines.{HasPassed, IsClear, byte_in, word_in, word_lines};
ghost use Rattle.pl_io.specs.Seen.{HasWrittenAll};

use crate::image_text::{add_word, flush};
use crate::lines::{Lines, WORDS};
use crate::masked::masked_ranges;
use crate::patch::patch_word;
use crate::piece::{
    byte_at, has_word, next_stored, piece_at, pieces_begin, pieces_end, stored_word,
};
use crate::place::Place;
use crate::ranges::{any_has, end_at, is_clear};
use crate::touched::{Touch, index_patches, next_touched, patched, touching};
use crate::{LoadedObject, Patch, Piece};
use pl_base::word64;
use pl_elf::Range;
use pl_io::{Failed, Sink};
use std::alloc::{AllocError, Global};
use std::marker::Model;

/// What is in memory at the start: what objects load, in scope order, and patches over it. A later patch wins. A byte of a link table that is loaded is 0.
///
/// Contracts see it as the objects and the patches, and `byte_of` of these as a map from addresses to bytes.
#[derive(Drop)]
pub struct Image<'a> {
    objects: Vec<LoadedObject<'a>>,
    patches: Vec<Patch>,

    /// The words that patches touch.
    touched: Vec<Touch>,

    /// The masked addresses.
    masked: Vec<Range>,
}

impl<'a> Model for Image<'a> {
    ghost use Rattle.pl_image.specs.Image as words;
    ghost use Rattle.pl_image.specs.Index.{IsIndexedImage};

    ghost Value = { words.Image };

    ghost view = { λ i. record { objects = i.objects.items; patches = i.patches.items } };

    ghost invariant = { λ i. IsIndexedImage i.objects.items i.patches.items i.touched.items i.masked.items };
}

impl<'a> Image<'a> {
    /// The image of objects in scope order, and of patches over them, one after the other. It fails only for want of memory.
    pub fn new(
        alloc: Global,
        objects: Vec<LoadedObject<'a>>,
        patches: Vec<Patch>,
    ) -> Result<Image<'a>, AllocError>
        requires { spec.AreLoaded objects.items }
        ensures { IfOk result (λ i. i ≡ record
            { objects = objects.entry.items; patches = patches.items }) }
    {
        let touched = index_patches(alloc, &patches)?;
        let masked = masked_ranges(alloc, &objects)?;
        Ok(Image {
            objects,
            patches,
            touched,
            masked,
        })
    }

    /// The byte at an address, None exactly outside the PT_LOADs of the objects.
    pub fn byte(&self, address: u64) -> Option<u8>
        ensures { result ≡ spec.byte_of self.now address }
    {
        let below = loaded_byte(&self.objects, address)?;
        let touching = touching(&self.patches, &self.touched, address / 8, 0);
        Some(self.shown(touching, below, address))
    }

    /// The byte that is shown at an address that an object loads.
    fn shown(&self, touching: &[Touch], below: u8, address: u64) -> u8
        requires { AreTouching self.now.patches touching.now (address / 8) }
        ensures { result ≡ (if spec.any_masked self.now.objects address then 0 else fold
            (laid address) below self.now.patches) }
    {
        if any_has(&self.masked, address) {
            0
        } else {
            patched(&self.patches, touching, below, address)
        }
    }

    /// The byte at an address of an object with these pieces, 0 where it has none.
    fn own_byte(&self, pieces: &[Piece<'_>], touching: &[Touch], address: u64) -> u8
        requires own { spec.AreOwn self.now pieces.now }
        requires touching { AreTouching self.now.patches touching.now (address / 8) }
        ensures { result ≡ byte_in (spec.own_memory self.now pieces.now) address }
    {
        match piece_at(pieces, address) {
            None => 0,
            Some(piece) => self.shown(touching, byte_at(piece, address), address),
        }
    }

    /// Where the masked addresses end that begin with one, which is the address itself where it is not masked.
    fn masked_end(&self, address: u64, place: &mut Place) -> u64
        ensures after { address ≤ result }
        ensures masked { (a : ℕ) → address ≤ a → a < result → spec.any_masked self.now.objects a
            ≡ true }
    {
        end_at(&self.masked, address, &mut place.masked)
    }

    /// Whether no byte of the word of a number is masked.
    fn is_shown(&self, number: u64, place: Place) -> bool
        requires { number < WORDS }
        ensures { result ≡ true → (a : ℕ) → 8 * number ≤ a → a < 8 * number + 8
            → spec.any_masked self.now.objects a ≡ false }
    {
        is_clear(&self.masked, 8 * number, 8, place.masked)
    }

    /// The word of a number of an object with these pieces, where it is one of a file as it stands: no patch touches it, and none of its bytes is masked.
    fn plain_word(
        &self,
        pieces: &[Piece<'_>],
        touching: &[Touch],
        number: u64,
        place: Place,
    ) -> Option<u64>
        requires own { spec.AreOwn self.now pieces.now }
        requires touching { AreTouching self.now.patches touching.now number }
        requires limit { number < WORDS }
        ensures { IfSome result (IsOwnWord self.now pieces.now number) }
    {
        if touching.len() > 0 || !self.is_shown(number, place) {
            return None;
        }
        match piece_at(pieces, 8 * number) {
            None => None,
            Some(piece) => stored_word(piece, 8 * number),
        }
    }

    /// The word of a number of an object with these pieces, where the last patch that touches it has all its bytes: one piece has their addresses, and none of them is masked.
    fn patched_word(
        &self,
        pieces: &[Piece<'_>],
        touching: &[Touch],
        number: u64,
        place: Place,
    ) -> Option<u64>
        requires own { spec.AreOwn self.now pieces.now }
        requires touching { AreTouching self.now.patches touching.now number }
        requires only { All (λ touch. touch.number ≡ number) touching.now }
        requires limit { number < WORDS }
        ensures { IfSome result (IsOwnWord self.now pieces.now number) }
    {
        if touching.len() == 0 || !self.is_shown(number, place) {
            return None;
        }
        let last = &touching[touching.len() - 1];
        match piece_at(pieces, 8 * number) {
            Some(piece) if has_word(piece, 8 * number) => {
                patch_word(&self.patches[last.patch], 8 * number)
            }
            _ => None,
        }
    }

    /// The word of a number of an object with these pieces, where it is one of a file or one of a patch.
    fn whole_word(
        &self,
        pieces: &[Piece<'_>],
        touching: &[Touch],
        number: u64,
        place: Place,
    ) -> Option<u64>
        requires own { spec.AreOwn self.now pieces.now }
        requires touching { AreTouching self.now.patches touching.now number }
        requires only { All (λ touch. touch.number ≡ number) touching.now }
        requires limit { number < WORDS }
        ensures { IfSome result (IsOwnWord self.now pieces.now number) }
    {
        if touching.len() == 0 {
            self.plain_word(pieces, touching, number, place)
        } else {
            self.patched_word(pieces, touching, number, place)
        }
    }

    /// The word of a number of an object with these pieces, byte by byte.
    #[tactic(auto, unfolding(crate::specs::Lines::word_in, pl_base::specs::Memory::read))]
    fn mixed_word(&self, pieces: &[Piece<'_>], touching: &[Touch], number: u64) -> u64
        requires own { spec.AreOwn self.now pieces.now }
        requires touching { AreTouching self.now.patches touching.now number }
        requires limit { number < WORDS }
        ensures { result ≡ word_in (spec.own_memory self.now pieces.now) (8 * number) }
    {
        let address = 8 * number;
        let bytes = [
            self.own_byte(pieces, touching, address),
            self.own_byte(pieces, touching, address + 1),
            self.own_byte(pieces, touching, address + 2),
            self.own_byte(pieces, touching, address + 3),
            self.own_byte(pieces, touching, address + 4),
            self.own_byte(pieces, touching, address + 5),
            self.own_byte(pieces, touching, address + 6),
            self.own_byte(pieces, touching, address + 7),
        ];
        word64(&bytes, 0)
    }

    /// The word of a number of an object with these pieces.
    fn word(&self, pieces: &[Piece<'_>], number: u64, place: Place) -> u64
        requires own { spec.AreOwn self.now pieces.now }
        requires limit { number < WORDS }
        ensures { result ≡ word_in (spec.own_memory self.now pieces.now) (8 * number) }
    {
        let touching = touching(&self.patches, &self.touched, number, place.touched);
        match self.whole_word(pieces, touching, number, place) {
            Some(word) => word,
            None => self.mixed_word(pieces, touching, number),
        }
    }

    /// The number of the first word from one on with a byte of a file or of a patch, `WORDS` where there is none.
    fn next_content(&self, pieces: &[Piece<'_>], from: u64, place: &mut Place) -> u64
        requires own { spec.AreOwn self.now pieces.now }
        requires limit { from ≤ WORDS }
        ensures within { (from ≤ result) × (result ≤ WORDS) }
        ensures clear { IsClear (spec.own_memory self.now pieces.now) (8 * from) (8 * result) }
        ensures found { result < WORDS → (list_any (spec.stores_in result) pieces.now || is_touched
            self.now.patches result) ≡ true }
    {
        let touched = next_touched(&self.touched, from, &mut place.touched);
        if touched == from {
            from
        } else {
            next_stored(pieces, from).min(touched)
        }
    }

    /// A number from one on, up to which the words of an object with these pieces are 0. Words that are masked whole are passed over.
    fn next_word(&self, pieces: &[Piece<'_>], from: u64, place: &mut Place) -> u64
        requires own { spec.AreOwn self.now pieces.now }
        requires limit { from ≤ WORDS }
        ensures within { (from ≤ result) × (result ≤ WORDS) }
        ensures clear { IsClear (spec.own_memory self.now pieces.now) (8 * from) (8 * result) }
        ensures found { result < WORDS → (list_any (spec.stores_in result) pieces.now || is_touched
            self.now.patches result) ≡ true }
    {
        let number = self.next_content(pieces, from, place);
        let shown = (self.masked_end(8 * number, place) / 8).min(WORDS);
        if number < shown {
            self.next_content(pieces, shown, place)
        } else {
            number
        }
    }

    /// Adds the lines of an object with these pieces.
    fn add_object<K: Sink>(
        &self,
        pieces: &[Piece<'_>],
        lines: &mut Lines,
        sink: &mut K,
    ) -> Result<(), Failed>
        requires { spec.AreOwn self.now pieces.now }
        ensures { let text = word_lines (spec.own_memory self.now pieces.now) in
            HasPassed result text (lines.old.items ++ text)
            lines.old.items lines.new.items (K.seen sink.old) (K.seen sink.new) }
    {
        let end = pieces_end(pieces);
        let mut place = Place {
            touched: 0,
            masked: 0,
        };
        let mut number = self.next_word(pieces, pieces_begin(pieces), &mut place);
        while number < end {
            add_word(lines, sink, 8 * number, self.word(pieces, number, place))?;
            number = self.next_word(pieces, number + 1, &mut place);
        }
        Ok(())
    }

    /// Adds the lines of all objects.
    fn add_objects<K: Sink>(&self, lines: &mut Lines, sink: &mut K) -> Result<(), Failed>
        ensures { HasPassed result (spec.text_of self.now)
            (lines.old.items ++ spec.text_of self.now)
            lines.old.items lines.new.items (K.seen sink.old) (K.seen sink.new) }
    {
        for object in &self.objects {
            self.add_object(object.pieces.as_slice(), lines, sink)?;
        }
        Ok(())
    }

    /// Writes the lines of the image's words, many at a time: object by object in scope order, and of each, in ascending order, the words at whose addresses it loads a byte that is shown as other than 0. It takes no memory. After a fault some first bytes were written.
    pub fn write_text<K: Sink>(&self, sink: &mut K) -> Result<(), Failed>
        ensures { HasWrittenAll result (spec.text_of self.now) (K.seen sink.old) (K.seen sink.new) }
    {
        let mut lines = Lines::new();
        self.add_objects(&mut lines, sink)?;
        flush(&mut lines, sink)
    }
}

/// The byte that objects load at an address, also of a link table; None where none of them loads one. Of several over it the first counts.
pub fn loaded_byte(objects: &[LoadedObject<'_>], address: u64) -> Option<u8>
    requires { spec.AreLoaded objects.now }
    ensures { result ≡ layered (spec.all_pieces objects.now) address }
{
    for object in objects {
        if let Some(piece) = piece_at(object.pieces.as_slice(), address) {
            return Some(byte_at(piece, address));
        }
    }
    None
}
