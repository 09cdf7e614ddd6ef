ghost use Rattle.std.specs.Prelude.{◌≡◌, ◌∷◌, ◌++◌, ◌↔◌, [], List, length, IsTrue, OnOk, OnErr};
ghost use Rattle.std.specs.List.{cons_option};

use std::alloc::{AllocError, Global};
use std::marker::Model;

/// A list of rows. Contracts see it as the list, so that a struct that holds one can be compared with a definition's value.
#[derive(Drop)]
pub struct Rows<T> {
    rows: Vec<T>,
}

impl<T> Model for Rows<T> {
    ghost Value = { List T };

    ghost view = { λ s. s.rows.items };
}

impl<T> Rows<T> {
    /// No rows. It takes no memory.
    pub fn new(alloc: Global) -> Rows<T>
        ensures { result ≡ [] }
    {
        Rows {
            rows: Vec::new(alloc),
        }
    }

    /// The rows of a vector, which it takes over. It takes no memory.
    pub fn from_vec(rows: Vec<T>) -> Rows<T>
        ensures { result ≡ rows.items }
    {
        Rows { rows }
    }

    /// The rows as a vector. It takes no memory.
    pub fn into_vec(self) -> Vec<T>
        ensures { result.items ≡ self }
    {
        let Rows { rows } = self;
        rows
    }

    /// The rows, lent.
    pub fn as_slice(&self) -> &[T]
        ensures { result.now ≡ self.now }
    {
        self.rows.as_slice()
    }

    /// How many rows there are.
    pub fn len(&self) -> usize
        ensures { result ≡ length self.now }
    {
        self.rows.len()
    }

    /// Whether there are no rows.
    pub fn is_empty(&self) -> bool
        ensures { IsTrue result ↔ (self.now ≡ []) }
    {
        self.rows.is_empty()
    }
}

impl<T: Drop> Rows<T> {
    /// Adds a row at the end. After a want of memory the rows are as before.
    pub fn push(&mut self, row: T) -> Result<(), AllocError>
        ensures ok { OnOk result (self.new ≡ self.old ++ row ∷ []) }
        ensures err { OnErr result (self.new ≡ self.old) }
    {
        self.rows.push(row)?;
        Ok(())
    }

    /// Adds a row at the end, where there is one. After a want of memory the rows are as before.
    pub fn push_some(&mut self, row: Option<T>) -> Result<(), AllocError>
        ensures ok { OnOk result (self.new ≡ self.old ++ cons_option row []) }
        ensures err { OnErr result (self.new ≡ self.old) }
    {
        match row {
            None => Ok(()),
            Some(row) => self.push(row),
        }
    }
}
