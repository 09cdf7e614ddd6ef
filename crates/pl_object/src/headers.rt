use pl_base::Rows;
use pl_elf::{Header, Section, Segment};

/// What acceptance clauses 1 to 8 read of a file.
#[derive(Drop)]
pub struct Headers {
    pub header: Header,
    pub segments: Rows<Segment>,
    pub sections: Rows<Section>,
}
