// The parts of a form, and its plan.
ghost use Rattle.std.specs.Prelude.{◌≡◌};
ghost use Rattle.pl_form.specs.Tables.{plan_of};

use pl_base::Rows;
use pl_elf::{Section, Segment};

/// The place of a relocation in a file.
#[derive(Clone, Copy, Debug, PartialEq, Eq)]
pub struct Spot {
    /// File offset of its bytes.
    pub at: u128,

    /// How many of its bytes stand in the file.
    pub size: u64,

    /// How many follow in the zeros of the last PT_LOAD.
    pub hidden: u64,

    /// From which of these zeros on.
    pub behind: u128,
}

/// What the kind of the original decides of its form.
#[derive(Drop)]
pub struct FormPlan {
    /// By how much the original is moved.
    pub slot: u64,

    /// File offset in the original from which bytes are inserted.
    pub cut: usize,

    /// The bytes that are inserted there.
    pub more: Rows<u8>,

    /// The new program header table.
    pub segments: Rows<Segment>,

    /// The new dynamic table.
    pub dynamic: Rows<u8>,

    /// What stands between the original's bytes and the undo section.
    pub parts: Rows<Rows<u8>>,

    /// The new section header table up to the section of the list or of the conflicts.
    pub sections: Rows<Section>,

    /// The names of the sections that are new in it, each with a 0.
    pub names: Rows<u8>,
}

/// The tables of a form, and the names of the sections that are new in it.
#[derive(Drop)]
pub struct FormTables {
    /// The new program header table.
    pub segments: Rows<Segment>,

    /// The new dynamic table.
    pub dynamic: Rows<u8>,

    /// The new section header table up to the section of the list or of the conflicts.
    pub sections: Rows<Section>,

    /// The names of the sections that are new in it, each with a 0.
    pub names: Rows<u8>,
}

/// A plan by its tables.
pub fn plan_of(
    slot: u64,
    cut: usize,
    more: Rows<u8>,
    tables: FormTables,
    parts: Rows<Rows<u8>>,
) -> FormPlan
    ensures { result ≡ plan_of slot cut more tables parts }
{
    let FormTables {
        segments,
        dynamic,
        sections,
        names,
    } = tables;
    FormPlan {
        slot,
        cut,
        more,
        segments,
        dynamic,
        parts,
        sections,
        names,
    }
}

/// What is written of a library list.
#[derive(Drop)]
pub struct Listed {
    /// The strings of its names.
    pub strings: Rows<u8>,

    /// Its table.
    pub rows: Rows<u8>,
}

/// What a program's form has behind the memory of its last PT_LOAD.
#[derive(Drop)]
pub struct Extension {
    /// The dynamic strings, and behind them the names of the library list.
    pub strings: Rows<u8>,

    /// The table of the library list.
    pub rows: Rows<u8>,

    /// The table of the conflicts.
    pub conflicts: Rows<u8>,
}
