ghost use Rattle.std.specs.Prelude.{◌≡◌};

use pl_base::Rows;
use std::marker::Model;

/// Where the objects of a scope are loaded: an address for each member, in their order. An object as linked moves by its address; a program's is 0. Contracts see it as the list of the addresses.
#[derive(Drop)]
pub struct Places {
    rows: Rows<u64>,
}

impl Model for Places {
    ghost use Rattle.std.specs.Prelude.{List, ℕ};

    ghost Value = { List ℕ };

    ghost view = { λ p. p.rows };
}

impl Places {
    /// The addresses of the members in their order. It takes no memory.
    pub fn new(rows: Rows<u64>) -> Places
        ensures { result ≡ rows }
    {
        Places { rows }
    }

    /// The addresses, lent.
    pub fn as_slice(&self) -> &[u64]
        ensures { result.now ≡ self.now }
    {
        self.rows.as_slice()
    }
}
