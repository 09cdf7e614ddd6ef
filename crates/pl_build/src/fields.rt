// Tables as lists of fields.
ghost use Rattle.std.specs.Prelude.{◌≡◌, ◌++◌, List, ℕ, OnOk};
ghost use Rattle.std.specs.List.{flat_map};
ghost use Rattle.pl_build.specs.Fields as spec;

use std::alloc::AllocError;

/// A number of 1, 2, 4 or 8 bytes (gABI chapter 4, "Data Representation"): the lowest of its bytes are written.
#[derive(Clone, Copy)]
pub enum Field {
    Byte(u64),
    Half(u64),
    Word(u64),
    Xword(u64),
}

/// A row of a table.
pub trait Row {
    /// Its bytes.
    ghost bytes: { Self → List ℕ };

    /// Adds its bytes at the end.
    fn push_to(&self, out: &mut Vec<u8>) -> Result<(), AllocError>
        ensures { OnOk result (out.new.items ≡ out.old.items ++ Self.bytes self.now) };
}

/// Adds the bytes of rows, one after the other.
pub fn push_rows<R: Row>(out: &mut Vec<u8>, rows: &[R]) -> Result<(), AllocError>
    ensures { OnOk result (out.new.items ≡ out.old.items ++ flat_map R.bytes rows.now) }
{
    for row in rows {
        row.push_to(out)?;
    }
    Ok(())
}

impl Row for Field {
    ghost bytes = { spec.field_bytes };

    fn push_to(&self, out: &mut Vec<u8>) -> Result<(), AllocError> {
        match self {
            Field::Byte(number) => out.extend_from_slice(&number.to_le_bytes()[..1]),
            Field::Half(number) => out.extend_from_slice(&number.to_le_bytes()[..2]),
            Field::Word(number) => out.extend_from_slice(&number.to_le_bytes()[..4]),
            Field::Xword(number) => out.extend_from_slice(&number.to_le_bytes()),
        }
    }
}

/// Adds fields, one after the other.
#[tactic(auto, unfolding(crate::specs::Fields::fields))]
pub fn push_fields(out: &mut Vec<u8>, fields: &[Field]) -> Result<(), AllocError>
    ensures { OnOk result (out.new.items ≡ out.old.items ++ spec.fields fields.now) }
{
    push_rows(out, fields)
}
