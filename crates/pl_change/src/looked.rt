//! What undoing makes of the names that were looked at, by name.
ghost use Rattle.std.specs.Prelude.{◌≡◌, OnOk, None, Some, is_some};
ghost use Rattle.pl_change.specs.Looked as spec;

use pl_journal::Change;
use std::alloc::{AllocError, Global};
use std::collections::BTreeMap;

/// Under each name that was looked at, the row that undoing gives it, if any. A look-up takes the logarithm of their number.
#[derive(Drop)]
pub(crate) struct Looked<'a> {
    pub rows: BTreeMap<&'a [u8], Option<Change>, Global>,
}

impl<'a> Looked<'a> {
    /// No name was looked at. It takes no memory.
    pub fn new(alloc: Global) -> Looked<'a>
        ensures { spec.IsUnlooked result }
    {
        Looked {
            rows: BTreeMap::new(alloc),
        }
    }

    /// Whether a name was looked at.
    pub fn has(&self, name: &str) -> bool
        ensures { result ≡ is_some (spec.found_at self.now name.now) }
    {
        self.rows.contains_key(name.as_bytes())
    }

    /// Keeps what was found under a name.
    pub fn put(&mut self, name: &'a str, row: Option<Change>) -> Result<(), AllocError>
        ensures { OnOk result (spec.IsPut self.old name.now (Some row) self.new) }
    {
        self.rows.insert(name.as_bytes(), row)?;
        Ok(())
    }

    /// Takes the row of a name away, if it has one.
    pub fn take(&mut self, name: &str) -> Option<Change>
        ensures row { result ≡ spec.row_at self.old name.now }
        ensures gone { spec.IsPut self.old name.now None self.new }
    {
        self.rows.remove(name.as_bytes()).flatten()
    }
}
