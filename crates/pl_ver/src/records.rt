ghost use Rattle.std.specs.Prelude.{◌≡◌, [], IfOk};
ghost use Rattle.pl_base.specs.Answers.{Answers};
ghost use Rattle.pl_ver.specs.Versions as spec;
ghost use Rattle.pl_ver.specs.Collecting.{add};

use crate::fault::VerFault;
use crate::record::Record;
use std::alloc::{AllocError, Global};
use std::marker::Model;

/// How many indices there are.
const INDICES: usize = 0x1_0000;

/// Records of which no two have the same index. Contracts see them as their list.
#[derive(Drop)]
pub struct Records {
    rows: Vec<Record>,

    /// For each index, whether a record has it.
    taken: Vec<bool>,
}

impl Model for Records {
    ghost use Rattle.std.specs.Prelude.{List};
    ghost use Rattle.pl_ver.specs.declared.record.Record.{Record};
    ghost use Rattle.pl_ver.specs.Taken.{IsTaken};

    ghost Value = { List Record };

    ghost view = { λ s. s.rows.items };

    ghost invariant = { λ s. IsTaken s.rows.items s.taken.items };
}

impl Records {
    pub fn new(alloc: Global) -> Result<Records, AllocError>
        ensures { IfOk result (λ records. records ≡ []) }
    {
        Ok(Records {
            rows: Vec::new(alloc),
            taken: Vec::from_elem(alloc, false, INDICES)?,
        })
    }

    /// Whether a record has an index.
    pub fn has(&self, index: u16) -> bool
        ensures { result ≡ spec.any_has index self.now }
    {
        self.taken[usize::from(index)]
    }

    pub fn as_slice(&self) -> &[Record]
        ensures { result.now ≡ self.now }
    {
        self.rows.as_slice()
    }

    /// These records and one more, or `BadIndex` where one of them has its index.
    pub fn with(self, row: Record) -> Result<Records, VerFault>
        ensures { Answers spec.is_memory result (add self row) }
    {
        if self.has(row.index) {
            return Err(VerFault::BadIndex);
        }
        let Records {
            mut rows,
            mut taken,
        } = self;
        rows.push(row)?;
        taken[usize::from(row.index)] = true;
        Ok(Records { rows, taken })
    }
}
