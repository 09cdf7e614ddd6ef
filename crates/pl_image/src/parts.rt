ghost use Rattle.std.specs.Prelude.{◌≡◌, ◌∷◌, ◌++◌, [], map, OnOk, OnErr};

use pl_io::NoMemory;
use std::alloc::Global;
use std::marker::Model;

/// The bytes of files, lent. Contracts see it as the list of the byte lists that were added.
#[derive(Drop)]
pub struct Parts<'a> {
    rows: Vec<&'a [u8]>,
}

impl<'a> Model for Parts<'a> {
    ghost use Rattle.std.specs.Prelude.{List, ℕ, map};

    ghost Value = { List (List ℕ) };

    ghost view = { λ p. map (λ bytes. bytes.now) p.rows.items };
}

impl<'a> Parts<'a> {
    /// No parts.
    pub fn new(alloc: Global) -> Parts<'a>
        ensures { result ≡ [] }
    {
        Parts {
            rows: Vec::new(alloc),
        }
    }

    /// Adds one at the end. After a want of memory the parts are as before.
    pub fn add(&mut self, bytes: &'a [u8]) -> Result<(), NoMemory>
        ensures ok { OnOk result (self.new ≡ self.old ++ bytes.now ∷ []) }
        ensures err { OnErr result (self.new ≡ self.old) }
    {
        self.rows.push(bytes)?;
        Ok(())
    }

    /// The parts, lent.
    pub fn as_slice(&self) -> &[&'a [u8]]
        ensures { map (λ bytes. bytes.now) result.now ≡ self.now }
    {
        self.rows.as_slice()
    }
}
