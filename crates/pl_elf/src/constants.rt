//! The numbers of ELF under the standard's names (System V gABI, chapters 4 and 5; x86-64 psABI; GNU extensions), and the limits of the acceptance clauses.

/// Bytes of the ELF header.
pub const HEADER_SIZE: usize = 64;

/// Bytes of a program header.
pub const SEGMENT_SIZE: usize = 56;

/// Bytes of a section header.
pub const SECTION_SIZE: usize = 64;

/// Bytes of the identification that begins the header.
pub const EI_NIDENT: usize = 16;

/// Index of the first of the four magic bytes in the identification.
pub const EI_MAG0: usize = 0;

/// Index of the second magic byte.
pub const EI_MAG1: usize = 1;

/// Index of the third magic byte.
pub const EI_MAG2: usize = 2;

/// Index of the last magic byte.
pub const EI_MAG3: usize = 3;

/// The first magic byte.
pub const ELFMAG0: u8 = 0x7f;

/// The second magic byte, `E`.
pub const ELFMAG1: u8 = 0x45;

/// The third magic byte, `L`.
pub const ELFMAG2: u8 = 0x4c;

/// The last magic byte, `F`.
pub const ELFMAG3: u8 = 0x46;

/// Index of the class in the identification.
pub const EI_CLASS: usize = 4;

/// Index of the byte order in the identification.
pub const EI_DATA: usize = 5;

/// Index of the format's version in the identification.
pub const EI_VERSION: usize = 6;

/// Class: addresses of 64 bits.
pub const ELFCLASS64: u8 = 2;

/// Byte order: little-endian.
pub const ELFDATA2LSB: u8 = 1;

/// The format's only version.
pub const EV_CURRENT: u8 = 1;

/// Header type: a program at fixed addresses.
pub const ET_EXEC: u16 = 2;

/// Header type: a library, or a position-independent program.
pub const ET_DYN: u16 = 3;

/// Machine: x86-64.
pub const EM_X86_64: u16 = 62;

/// Segment kind: bytes to be loaded.
pub const PT_LOAD: u32 = 1;

/// Segment kind: the dynamic table.
pub const PT_DYNAMIC: u32 = 2;

/// Segment kind: the path of the program's interpreter.
pub const PT_INTERP: u32 = 3;

/// Segment kind: notes.
pub const PT_NOTE: u32 = 4;

/// Segment kind: the program header table itself.
pub const PT_PHDR: u32 = 6;

/// Segment kind: the initial image of thread-local storage.
pub const PT_TLS: u32 = 7;

/// Segment kind: the frames of exception handling.
pub const PT_GNU_EH_FRAME: u32 = 0x6474_e550;

/// Segment kind: permissions of the stack. It has no addresses.
pub const PT_GNU_STACK: u32 = 0x6474_e551;

/// Segment kind: what is read-only after relocation.
pub const PT_GNU_RELRO: u32 = 0x6474_e552;

/// Segment kind: properties of the program.
pub const PT_GNU_PROPERTY: u32 = 0x6474_e553;

/// The kinds of segments whose addresses move with the file.
pub const MOVED_SEGMENTS: [u32; 9] = [
    PT_LOAD,
    PT_DYNAMIC,
    PT_INTERP,
    PT_NOTE,
    PT_PHDR,
    PT_TLS,
    PT_GNU_EH_FRAME,
    PT_GNU_RELRO,
    PT_GNU_PROPERTY,
];

/// Section kind: no section.
pub const SHT_NULL: u32 = 0;

/// Section kind: bytes whose meaning is the program's.
pub const SHT_PROGBITS: u32 = 1;

/// Section kind: the symbols of the link editor.
pub const SHT_SYMTAB: u32 = 2;

/// Section kind: strings, each ended by a 0 byte.
pub const SHT_STRTAB: u32 = 3;

/// Section kind: relocations with addends.
pub const SHT_RELA: u32 = 4;

/// Section kind: a SysV hash table.
pub const SHT_HASH: u32 = 5;

/// Section kind: the dynamic table.
pub const SHT_DYNAMIC: u32 = 6;

/// Section kind: zeros in memory and no bytes in the file.
pub const SHT_NOBITS: u32 = 8;

/// Section kind: the symbols of the dynamic linker.
pub const SHT_DYNSYM: u32 = 11;

/// Section kind: packed relative relocations.
pub const SHT_RELR: u32 = 19;

/// Section kind: a GNU hash table.
pub const SHT_GNU_HASH: u32 = 0x6fff_fff6;

/// Section kind: the libraries by which a file was prelinked.
pub const SHT_GNU_LIBLIST: u32 = 0x6fff_fff7;

/// Section kind: versions that are defined.
pub const SHT_GNU_VERDEF: u32 = 0x6fff_fffd;

/// Section kind: versions that are needed.
pub const SHT_GNU_VERNEED: u32 = 0x6fff_fffe;

/// Section kind: the version index of each symbol.
pub const SHT_GNU_VERSYM: u32 = 0x6fff_ffff;

/// Segment flag: writable.
pub const PF_W: u32 = 0x2;

/// Segment flag: readable.
pub const PF_R: u32 = 0x4;

/// Section flag: writable in memory.
pub const SHF_WRITE: u64 = 0x1;

/// Section flag: has addresses in memory.
pub const SHF_ALLOC: u64 = 0x2;

/// Section flag: the initial image of thread-local storage.
pub const SHF_TLS: u64 = 0x400;

/// Bytes of a 64-bit word, which most relocations change (x86-64 psABI, "Relocation Types", word64).
pub const WORD64_SIZE: u64 = 8;

/// Bytes of a relocation with addend (gABI chapter 4, "Relocation").
pub const RELA_SIZE: usize = 24;

/// Bytes of an entry of packed relative relocations (gABI chapter 4, "Relative Relocation Table").
pub const RELR_SIZE: usize = 8;

/// Relocation type (x86-64 psABI, "Relocation Types"): nothing is done.
pub const R_X86_64_NONE: u32 = 0;

/// Relocation type: the symbol's address and the addend.
pub const R_X86_64_64: u32 = 1;

/// Relocation type: the symbol's bytes are copied.
pub const R_X86_64_COPY: u32 = 5;

/// Relocation type: the symbol's address, in the global offset table.
pub const R_X86_64_GLOB_DAT: u32 = 6;

/// Relocation type: the symbol's address, for a jump slot.
pub const R_X86_64_JUMP_SLOT: u32 = 7;

/// Relocation type: the load address and the addend.
pub const R_X86_64_RELATIVE: u32 = 8;

/// Relocation type: the number of the symbol's module of thread-local storage.
pub const R_X86_64_DTPMOD64: u32 = 16;

/// Relocation type: the symbol's offset in its module's block.
pub const R_X86_64_DTPOFF64: u32 = 17;

/// Relocation type: the symbol's offset from the thread pointer.
pub const R_X86_64_TPOFF64: u32 = 18;

/// Relocation type: a descriptor of a thread-local symbol.
pub const R_X86_64_TLSDESC: u32 = 36;

/// Relocation type: the address that a function answers when it is called at the start.
pub const R_X86_64_IRELATIVE: u32 = 37;

/// Bytes of a page of memory (x86-64 psABI, "Program Loading").
pub const PAGE: u64 = 0x1000;

/// The greatest alignment of a PT_LOAD in bytes, 2 MiB.
pub const MAX_LOAD_ALIGN: u64 = 0x20_0000;

/// No PT_LOAD ends above this address, 2^47.
pub const ADDRESS_LIMIT: u64 = 0x8000_0000_0000;

/// The most sections.
pub const MAX_SECTIONS: u16 = 65000;
