//! The numbers of a symbol table under the standard's names (System V gABI, chapter 4, "Symbol Table"; GNU extensions).

/// Bytes of a row of the symbol table.
pub const SYMBOL_SIZE: usize = 24;

/// Section index: the symbol is undefined.
pub const SHN_UNDEF: u16 = 0;

/// The first of the section indices that stand for no section.
pub const SHN_LORESERVE: u16 = 0xff00;

/// Section index: the value is absolute, and no load changes it.
pub const SHN_ABS: u16 = 0xfff1;

/// The last of the section indices that stand for no section.
pub const SHN_HIRESERVE: u16 = 0xffff;

/// Binding: known in its own object alone.
pub const STB_LOCAL: u8 = 0;

/// Binding: known to all objects.
pub const STB_GLOBAL: u8 = 1;

/// Binding: known to all objects, and a reference may stay without a definer.
pub const STB_WEAK: u8 = 2;

/// Binding: known to all objects, one for the whole process (GNU).
pub const STB_GNU_UNIQUE: u8 = 10;

/// Type: none is said.
pub const STT_NOTYPE: u8 = 0;

/// Type: data.
pub const STT_OBJECT: u8 = 1;

/// Type: a function or other code.
pub const STT_FUNC: u8 = 2;

/// Type: a section.
pub const STT_SECTION: u8 = 3;

/// Type: the name of a source file.
pub const STT_FILE: u8 = 4;

/// Type: data that the link editor placed.
pub const STT_COMMON: u8 = 5;

/// Type: thread-local data. The value is an offset in the object's TLS block.
pub const STT_TLS: u8 = 6;

/// Type: a function that answers the address of the function to be called (GNU).
pub const STT_GNU_IFUNC: u8 = 10;

/// Visibility: as the binding says.
pub const STV_DEFAULT: u8 = 0;

/// Visibility: hidden, with a meaning of its own to a processor.
pub const STV_INTERNAL: u8 = 1;

/// Visibility: other objects do not see the symbol.
pub const STV_HIDDEN: u8 = 2;

/// Visibility: other objects see the symbol, and references of its own object bind to it.
pub const STV_PROTECTED: u8 = 3;
