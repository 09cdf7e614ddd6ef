//! The numbers of the dynamic table under the standard's names (System V gABI, chapter 5, "Dynamic Section"; GNU extensions), and the lists of those that a table may have.

/// Bytes of an entry: the tag's number and its value, 64 bits each.
pub const ENTRY_SIZE: usize = 16;

/// The end of the table.
pub const DT_NULL: u64 = 0;

/// Value tag: the name of a needed library, as an offset into the strings. The only one that may stand more than once.
pub const DT_NEEDED: u64 = 1;

/// Value tag: bytes of the relocations of jump slots.
pub const DT_PLTRELSZ: u64 = 2;

/// Address tag: the procedure linkage table's part of the global offset table.
pub const DT_PLTGOT: u64 = 3;

/// Address tag: the SysV hash table.
pub const DT_HASH: u64 = 4;

/// Address tag: the strings.
pub const DT_STRTAB: u64 = 5;

/// Address tag: the symbol table.
pub const DT_SYMTAB: u64 = 6;

/// Address tag: the relocations with addends. Also the value that DT_PLTREL has.
pub const DT_RELA: u64 = 7;

/// Value tag: bytes of the relocations with addends.
pub const DT_RELASZ: u64 = 8;

/// Value tag: bytes of one relocation with addend.
pub const DT_RELAENT: u64 = 9;

/// Value tag: bytes of the strings.
pub const DT_STRSZ: u64 = 10;

/// Value tag: bytes of one symbol.
pub const DT_SYMENT: u64 = 11;

/// Address tag: the function that runs at the start.
pub const DT_INIT: u64 = 12;

/// Address tag: the function that runs at the end.
pub const DT_FINI: u64 = 13;

/// Value tag: the library's own name, as an offset into the strings.
pub const DT_SONAME: u64 = 14;

/// Value tag: a search path, as an offset into the strings.
pub const DT_RPATH: u64 = 15;

/// Value tag: the library's own symbols are found first.
pub const DT_SYMBOLIC: u64 = 16;

/// Value tag: the kind of the relocations of jump slots.
pub const DT_PLTREL: u64 = 20;

/// Value tag: a word for debuggers.
pub const DT_DEBUG: u64 = 21;

/// Value tag: relocations may change read-only memory.
pub const DT_TEXTREL: u64 = 22;

/// Address tag: the relocations of jump slots.
pub const DT_JMPREL: u64 = 23;

/// Value tag: all relocations are made before the start.
pub const DT_BIND_NOW: u64 = 24;

/// Address tag: the functions that run at the start.
pub const DT_INIT_ARRAY: u64 = 25;

/// Address tag: the functions that run at the end.
pub const DT_FINI_ARRAY: u64 = 26;

/// Value tag: bytes of DT_INIT_ARRAY.
pub const DT_INIT_ARRAYSZ: u64 = 27;

/// Value tag: bytes of DT_FINI_ARRAY.
pub const DT_FINI_ARRAYSZ: u64 = 28;

/// Value tag: a search path, as an offset into the strings.
pub const DT_RUNPATH: u64 = 29;

/// Value tag: flags, as DF_SYMBOLIC.
pub const DT_FLAGS: u64 = 30;

/// Address tag: the functions that run before all others.
pub const DT_PREINIT_ARRAY: u64 = 32;

/// Value tag: bytes of DT_PREINIT_ARRAY.
pub const DT_PREINIT_ARRAYSZ: u64 = 33;

/// Value tag: bytes of the packed relative relocations.
pub const DT_RELRSZ: u64 = 35;

/// Address tag: the packed relative relocations.
pub const DT_RELR: u64 = 36;

/// Value tag: bytes of one entry of the packed relative relocations.
pub const DT_RELRENT: u64 = 37;

/// The first of the tags that GNU leaves to values.
pub const DT_VALRNGLO: u64 = 0x6fff_fd00;

/// Prelink tag: when the library was prelinked.
pub const DT_GNU_PRELINKED: u64 = 0x6fff_fdf5;

/// Prelink tag: bytes of the conflicts.
pub const DT_GNU_CONFLICTSZ: u64 = 0x6fff_fdf6;

/// Prelink tag: bytes of the library list.
pub const DT_GNU_LIBLISTSZ: u64 = 0x6fff_fdf7;

/// Prelink tag: the checksum of the library.
pub const DT_CHECKSUM: u64 = 0x6fff_fdf8;

/// The last of the tags that GNU leaves to values.
pub const DT_VALRNGHI: u64 = 0x6fff_fdff;

/// The first of the tags that GNU leaves to addresses.
pub const DT_ADDRRNGLO: u64 = 0x6fff_fe00;

/// Address tag: the GNU hash table.
pub const DT_GNU_HASH: u64 = 0x6fff_fef5;

/// Prelink tag: the conflicts.
pub const DT_GNU_CONFLICT: u64 = 0x6fff_fef8;

/// Prelink tag: the library list.
pub const DT_GNU_LIBLIST: u64 = 0x6fff_fef9;

/// The last of the tags that GNU leaves to addresses.
pub const DT_ADDRRNGHI: u64 = 0x6fff_feff;

/// Address tag: the version index of each symbol.
pub const DT_VERSYM: u64 = 0x6fff_fff0;

/// Value tag: how many relocations are relative and stand first.
pub const DT_RELACOUNT: u64 = 0x6fff_fff9;

/// Value tag: more flags, as DF_1_PIE.
pub const DT_FLAGS_1: u64 = 0x6fff_fffb;

/// Address tag: the versions that are defined.
pub const DT_VERDEF: u64 = 0x6fff_fffc;

/// Value tag: how many versions are defined.
pub const DT_VERDEFNUM: u64 = 0x6fff_fffd;

/// Address tag: the versions that are needed.
pub const DT_VERNEED: u64 = 0x6fff_fffe;

/// Value tag: how many libraries have versions that are needed.
pub const DT_VERNEEDNUM: u64 = 0x6fff_ffff;

/// Flag of DT_FLAGS: the library's own symbols are found first.
pub const DF_SYMBOLIC: u64 = 0x2;

/// Flag of DT_FLAGS: all relocations are made before the start.
pub const DF_BIND_NOW: u64 = 0x8;

/// Flag of DT_FLAGS_1: all relocations are made before the start.
pub const DF_1_NOW: u64 = 0x1;

/// Flag of DT_FLAGS_1: a position-independent program.
pub const DF_1_PIE: u64 = 0x800_0000;

/// The tags whose values are addresses.
pub const ADDRESS_TAGS: [u64; 16] = [
    DT_PLTGOT,
    DT_HASH,
    DT_STRTAB,
    DT_SYMTAB,
    DT_RELA,
    DT_INIT,
    DT_FINI,
    DT_JMPREL,
    DT_INIT_ARRAY,
    DT_FINI_ARRAY,
    DT_PREINIT_ARRAY,
    DT_RELR,
    DT_GNU_HASH,
    DT_VERSYM,
    DT_VERDEF,
    DT_VERNEED,
];

/// The tags whose values are no addresses, beside those from DT_VALRNGLO to DT_VALRNGHI.
pub const VALUE_TAGS: [u64; 24] = [
    DT_NEEDED,
    DT_PLTRELSZ,
    DT_RELASZ,
    DT_RELAENT,
    DT_STRSZ,
    DT_SYMENT,
    DT_SONAME,
    DT_RPATH,
    DT_SYMBOLIC,
    DT_PLTREL,
    DT_DEBUG,
    DT_TEXTREL,
    DT_BIND_NOW,
    DT_INIT_ARRAYSZ,
    DT_FINI_ARRAYSZ,
    DT_RUNPATH,
    DT_FLAGS,
    DT_PREINIT_ARRAYSZ,
    DT_RELRSZ,
    DT_RELRENT,
    DT_RELACOUNT,
    DT_FLAGS_1,
    DT_VERDEFNUM,
    DT_VERNEEDNUM,
];

/// The tags of a prelinked file.
pub const PRELINK_TAGS: [u64; 6] = [
    DT_GNU_PRELINKED,
    DT_GNU_CONFLICTSZ,
    DT_GNU_LIBLISTSZ,
    DT_CHECKSUM,
    DT_GNU_CONFLICT,
    DT_GNU_LIBLIST,
];
