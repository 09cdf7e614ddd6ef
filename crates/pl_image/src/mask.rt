use pl_base::Rows;
use pl_elf::Range;

/// Where bytes of a file are loaded.
#[derive(Clone, Copy, Debug)]
pub struct Load {
    /// The address of the first of them.
    pub start: u64,

    /// The file offset of the first of them.
    pub offset: u64,

    /// How many bytes.
    pub size: u64,
}

/// Which addresses of an object are masked: those at which a byte of a link table is loaded.
#[derive(Drop)]
pub struct Mask {
    pub loads: Rows<Load>,

    /// Where the link tables stand in the file. They may overlap.
    pub tables: Rows<Range>,
}
