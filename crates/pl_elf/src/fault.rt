use thiserror::Error;

/// Why a file's headers are refused: the first of acceptance clauses 1 to 8 that refuses it.
#[derive(Clone, Copy, Debug, PartialEq, Eq, Error)]
pub enum HeaderFault {
    /// Acceptance clause 1: shorter than a header, or without the first four bytes of ELF.
    #[error("not an ELF file")]
    NotElf,

    /// Acceptance clause 2: not 64 bits, not little-endian, or not version 1.
    #[error("not ELF-64, little-endian, version 1")]
    Class,

    /// Acceptance clause 3: not for x86-64.
    #[error("not for x86-64")]
    Machine,

    /// Acceptance clause 4: neither ET_EXEC nor ET_DYN with PT_DYNAMIC.
    #[error("neither a program nor a library")]
    Kind,

    /// Acceptance clause 5: a table, a segment or a section passes the end of the file.
    #[error("cut short")]
    Truncated,

    /// Acceptance clause 6: program headers of another size than 56 bytes, no PT_LOAD, or more than one PT_DYNAMIC, PT_TLS or PT_INTERP; a PT_LOAD with more bytes in the file than in memory, whose alignment is neither 0 nor a power of two or is above 2 MiB, whose address and file offset are not congruent modulo the alignment, or that ends above 2^47; PT_LOADs that do not ascend in memory, each at or after the end of the one before, or that have a byte of the file in common; or a PT_TLS whose alignment is neither 0 nor a power of two.
    #[error("a bad segment")]
    BadSegment,

    /// Acceptance clause 7, of a file that has section headers: they are of another size than 64 bytes or more than 65000, the index of the section of section names is none of theirs, or a section's name has no 0 byte that ends it there.
    #[error("a bad section")]
    BadSection,

    /// Acceptance clause 8: no section headers.
    #[error("no sections")]
    NoSections,
}
