// Where texts stand first among rows, by a map of their bytes.
ghost use Rattle.std.specs.Prelude.{◌≡◌, OnOk};
ghost use Rattle.std.specs.Option.{option_map};
ghost use Rattle.std.specs.Str.{bytes_eq};
ghost use Rattle.pl_build.specs.TextIndex as spec;

use std::alloc::{AllocError, Global};
use std::collections::BTreeMap;

/// For each text of some rows, the place of the first of them. A look-up takes the logarithm of their number.
#[derive(Drop)]
pub struct TextIndex<'a> {
    pub places: BTreeMap<&'a [u8], usize, Global>,
}

impl<'a> TextIndex<'a> {
    /// The index of no rows. It takes no memory.
    pub fn new(alloc: Global) -> TextIndex<'a>
        ensures { spec.IsEmpty result }
    {
        TextIndex {
            places: BTreeMap::new(alloc),
        }
    }

    /// Where a text stands first. None exactly where it stands nowhere.
    pub fn first(&self, text: &[u8]) -> Option<usize>
        ensures { result ≡ spec.place_of self.now text.now }
    {
        self.places.get(text).copied()
    }

    /// Notes a text at a place, where it stands nowhere before.
    fn note_text(&mut self, text: &'a [u8], place: usize) -> Result<(), AllocError>
        ensures { OnOk result (spec.IsNoted (λ other own. bytes_eq own other) self.old text.now
            place self.new) }
    {
        if self.first(text).is_some() {
            return Ok(());
        }
        self.places.insert(text, place)?;
        Ok(())
    }

    /// Notes the text of a row at a place, if the row has one, and where that text stands nowhere before. It fails only for want of memory.
    pub fn note(&mut self, text: Option<&'a [u8]>, place: usize) -> Result<(), AllocError>
        ensures { OnOk result (spec.IsNoted spec.is_text self.old
            (option_map (λ own. own.now) text.entry) place self.new) }
    {
        match text {
            None => Ok(()),
            Some(text) => self.note_text(text, place),
        }
    }
}
