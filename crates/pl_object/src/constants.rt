//! The sizes and the kinds of relocations that acceptance goes by.

use pl_elf::constants::{
    R_X86_64_64, R_X86_64_COPY, R_X86_64_DTPMOD64, R_X86_64_DTPOFF64, R_X86_64_GLOB_DAT,
    R_X86_64_JUMP_SLOT, R_X86_64_NONE, R_X86_64_RELATIVE, R_X86_64_TPOFF64,
};

/// The greatest size in bytes of a file that is accepted.
pub const ORIGINAL: usize = 67_108_864;

/// The index of the dynamic table among the link tables of an object that has one.
pub const DYNAMIC_TABLE: usize = 2;

/// The index of the dynamic symbol table among them.
pub const SYMBOLS_TABLE: usize = 3;

/// The index of the strings among them.
pub const STRINGS_TABLE: usize = 4;

/// The index of the relocations of DT_RELA among them.
pub const RELA_TABLE: usize = 5;

/// The index of the relocations of DT_JMPREL among them.
pub const JMPREL_TABLE: usize = 6;

/// The index of the packed relocations among them.
pub const PACKED_TABLE: usize = 12;

/// The index of the first SYMTAB section among them.
pub const FIRST_SYMTAB: usize = 13;

/// The kinds of relocations that an accepted object may have.
pub const RELOC_KINDS: [u32; 9] = [
    R_X86_64_NONE,
    R_X86_64_64,
    R_X86_64_COPY,
    R_X86_64_GLOB_DAT,
    R_X86_64_JUMP_SLOT,
    R_X86_64_RELATIVE,
    R_X86_64_DTPMOD64,
    R_X86_64_DTPOFF64,
    R_X86_64_TPOFF64,
];
