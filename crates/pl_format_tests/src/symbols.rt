// Tests of pl_sym.
use pl_cases::{numbers, parts};
use pl_sym::constants::{
    SHN_ABS, SHN_HIRESERVE, SHN_LORESERVE, SHN_UNDEF, STB_GLOBAL, STB_GNU_UNIQUE, STB_LOCAL,
    STB_WEAK, STT_FILE, STT_FUNC, STT_GNU_IFUNC, STT_NOTYPE, STT_OBJECT, STT_SECTION, STT_TLS,
    STV_DEFAULT, STV_HIDDEN, STV_INTERNAL, STV_PROTECTED,
};
use pl_sym::{Class, Name, SymFault, Symbol, is_definer, read_symbols};
use pl_ver::constants::VER_NDX_GLOBAL;
use std::alloc::{AllocError, Global};
use std::test::Fail;

/// Value, binding, type, visibility and section.
type Fields = (u64, u8, u8, u8, u16);

/// Whether a symbol without a version is that of a line: its name, and in hexadecimal its size, value, binding, type, visibility and section.
fn is_symbol(alloc: Global, symbol: &Symbol, line: &str) -> Result<bool, Fail> {
    let (name, wanted) = parts(line)?;
    let found = [
        symbol.size,
        symbol.value,
        u64::from(symbol.bind),
        u64::from(symbol.kind),
        u64::from(symbol.visibility),
        u64::from(symbol.section),
    ];
    let named = symbol.name.as_slice() == name.as_bytes() && symbol.version == VER_NDX_GLOBAL;
    Ok(named && numbers(alloc, wanted)?.as_slice() == found.as_slice())
}

/// Whether the symbols are those of lines.
fn has_rows(alloc: Global, symbols: &[Symbol], lines: &str) -> Result<bool, Fail> {
    let mut count = 0usize;
    for line in lines.lines() {
        let Some(symbol) = symbols.get(count) else {
            return Ok(false);
        };
        if !is_symbol(alloc, symbol, line)? {
            return Ok(false);
        }
        count = count.saturating_add(1);
    }
    Ok(count == symbols.len())
}

/// The `.dynsym` of a library that gcc and GNU ld 2.40 made (`gcc -shared -nostdlib -Wl,--hash-style=both`, with a version script and a library that it needs).
const LIBRARY_SYMBOLS: [u8; 288] = [
    0, 0, 0, 0, 0, 0, 0, 0, 0, 0, 0, 0, 0, 0, 0, 0, 0, 0, 0, 0, 0, 0, 0, 0, 6, 0, 0, 0, 18, 0, 0,
    0, 0, 0, 0, 0, 0, 0, 0, 0, 0, 0, 0, 0, 0, 0, 0, 0, 47, 0, 0, 0, 16, 0, 0, 0, 0, 0, 0, 0, 0, 0,
    0, 0, 0, 0, 0, 0, 0, 0, 0, 0, 68, 0, 0, 0, 18, 0, 11, 0, 106, 16, 0, 0, 0, 0, 0, 0, 6, 0, 0, 0,
    0, 0, 0, 0, 23, 0, 0, 0, 18, 0, 11, 0, 75, 16, 0, 0, 0, 0, 0, 0, 25, 0, 0, 0, 0, 0, 0, 0, 86,
    0, 0, 0, 17, 0, 241, 255, 0, 0, 0, 0, 0, 0, 0, 0, 0, 0, 0, 0, 0, 0, 0, 0, 62, 0, 0, 0, 17, 0,
    20, 0, 32, 64, 0, 0, 0, 0, 0, 0, 24, 0, 0, 0, 0, 0, 0, 0, 35, 0, 0, 0, 22, 0, 14, 0, 0, 0, 0,
    0, 0, 0, 0, 0, 4, 0, 0, 0, 0, 0, 0, 0, 41, 0, 0, 0, 17, 0, 19, 0, 16, 64, 0, 0, 0, 0, 0, 0, 4,
    0, 0, 0, 0, 0, 0, 0, 1, 0, 0, 0, 18, 0, 11, 0, 48, 16, 0, 0, 0, 0, 0, 0, 21, 0, 0, 0, 0, 0, 0,
    0, 14, 0, 0, 0, 34, 0, 11, 0, 69, 16, 0, 0, 0, 0, 0, 0, 6, 0, 0, 0, 0, 0, 0, 0, 89, 0, 0, 0,
    17, 0, 241, 255, 0, 0, 0, 0, 0, 0, 0, 0, 0, 0, 0, 0, 0, 0, 0, 0,
];

/// Its `.dynstr`.
const LIBRARY_STRINGS: &[u8] =
    b"\0call\0outside\0weak_one\0local_place\0local_count\0__tls_get_addr\0table\0f\0libb.so\0liba.so\0V1\0V2\0";

/// Its symbols as `readelf --dyn-syms` tells them.
const LIBRARY: &str = "\
: 0 0 0 0 0 0\n\
outside: 0 0 1 2 0 0\n\
__tls_get_addr: 0 0 1 0 0 0\n\
f: 6 106a 1 2 0 b\n\
local_place: 19 104b 1 2 0 b\n\
V1: 0 0 1 1 0 fff1\n\
table: 18 4020 1 1 0 14\n\
local_count: 4 0 1 6 0 e\n\
count: 4 4010 1 1 0 13\n\
call: 15 1030 1 2 0 b\n\
weak_one: 6 1045 2 2 0 b\n\
V2: 0 0 1 1 0 fff1";

const STRINGS: &[u8] = b"\0main\0x\0end";

/// A protected global function in section 7, with other bits in the field `other`, an absolute unique symbol without type, and part of a row.
const SYMBOLS: &[u8] = b"\x01\0\0\0\x12\xfb\x07\0\x10\x20\x40\0\0\0\0\x80\x2a\0\0\0\0\0\0\x01\
    \x06\0\0\0\xa0\0\xf1\xff\x05\0\0\0\0\0\0\0\0\0\0\0\0\0\0\0\
    \x01\0\0\0\x12\xfb\x07\0\x10\x20\x40\0\0\0\0\x80\x2a\0\0\0\0\0\0";

const ROWS: &str = "\
main: 10000000000002a 8000000000402010 1 2 3 7\n\
x: 0 5 a 0 0 fff1";

#[test]
fn reads_symbols(rt: HostRuntime) -> Result<(), Fail> {
    let alloc = rt.alloc();
    let symbols = read_symbols(alloc, SYMBOLS, STRINGS)?;
    assert!(rt; has_rows(alloc, symbols.as_slice(), ROWS)?);
    let symbols = read_symbols(alloc, &LIBRARY_SYMBOLS, LIBRARY_STRINGS)?;
    assert!(rt; has_rows(alloc, symbols.as_slice(), LIBRARY)?);
    Ok(())
}

/// Longer than the names that stand in a symbol.
const LONG: &[u8] = b"a_name_of_more_than_14_bytes";

#[test]
fn keeps_names_of_each_length(rt: HostRuntime) -> Result<(), Fail> {
    for size in 0..=LONG.len() {
        let name = Name::copy_of(rt.alloc(), &LONG[..size])?;
        if name.as_slice() != &LONG[..size] {
            return Err(size.into());
        }
    }
    Ok(())
}

/// How many bytes long names have: the most that the symbol itself counts, and more.
const LONG_SIZES: [usize; 3] = [65_535, 65_536, 70_000];

#[test]
fn keeps_long_names(rt: HostRuntime) -> Result<(), Fail> {
    for size in &LONG_SIZES {
        let bytes = Vec::from_elem(rt.alloc(), b'n', *size)?;
        let name = Name::copy_of(rt.alloc(), &bytes)?;
        if name.as_slice() != bytes.as_slice() {
            return Err((*size).into());
        }
    }
    Ok(())
}

/// Where the name of a symbol begins in the strings, and whether it has an end.
const NAMES: [(u8, bool); 6] = [
    (7, true),
    (8, false),
    (10, false),
    (11, false),
    (12, false),
    (0xff, false),
];

#[test]
fn refuses_names_without_end(rt: HostRuntime) -> Result<(), Fail> {
    for (at, has_end) in &NAMES {
        let mut row = [0u8; 24];
        row[0] = *at;
        let fault = read_symbols(rt.alloc(), &row, STRINGS).err();
        let wanted = if *has_end {
            None
        } else {
            Some(SymFault::BadSymbol)
        };
        if fault != wanted {
            return Err((*at).into());
        }
    }
    Ok(())
}

fn symbol(alloc: Global, fields: Fields) -> Result<Symbol, AllocError> {
    let (value, bind, kind, visibility, section) = fields;
    Ok(Symbol {
        name: Name::copy_of(alloc, &[])?,
        value,
        size: 8,
        bind,
        kind,
        visibility,
        section,
        version: VER_NDX_GLOBAL,
    })
}

/// Whether it is a definer for jump slots and for other references, in a library, then in a program.
fn answers(symbol: &Symbol) -> [bool; 4] {
    [
        is_definer(symbol, Class::Jump, false),
        is_definer(symbol, Class::Other, false),
        is_definer(symbol, Class::Jump, true),
        is_definer(symbol, Class::Other, true),
    ]
}

fn expect_answers(alloc: Global, symbols: &[Fields], wanted: [bool; 4]) -> Result<(), Fail> {
    for fields in symbols {
        let symbol = symbol(alloc, *fields)?;
        if answers(&symbol) != wanted {
            return Err((*fields).into());
        }
    }
    Ok(())
}

/// Definers for each reference. Type 5 is a common block.
const ALWAYS: [Fields; 13] = [
    (0x4000, STB_GLOBAL, STT_FUNC, STV_DEFAULT, 7),
    (0x4000, STB_WEAK, STT_FUNC, STV_DEFAULT, 7),
    (0x4000, STB_GNU_UNIQUE, STT_FUNC, STV_DEFAULT, 7),
    (0x4000, STB_GLOBAL, STT_NOTYPE, STV_DEFAULT, 7),
    (0x4000, STB_GLOBAL, STT_OBJECT, STV_DEFAULT, 7),
    (0x4000, STB_GLOBAL, 5, STV_DEFAULT, 7),
    (0x4000, STB_GLOBAL, STT_TLS, STV_DEFAULT, 7),
    (0x4000, STB_GLOBAL, STT_FUNC, STV_PROTECTED, 7),
    (0x4000, STB_GLOBAL, STT_FUNC, STV_DEFAULT, 1),
    (0x4000, STB_GLOBAL, STT_FUNC, STV_DEFAULT, 0xfeff),
    (0x4000, STB_GLOBAL, STT_FUNC, STV_DEFAULT, SHN_ABS),
    (0, STB_GLOBAL, STT_NOTYPE, STV_DEFAULT, SHN_ABS),
    (0, STB_GLOBAL, STT_TLS, STV_DEFAULT, 7),
];

/// Definers for none.
const NEVER: [Fields; 13] = [
    (0x4000, STB_LOCAL, STT_FUNC, STV_DEFAULT, 7),
    (0x4000, 3, STT_FUNC, STV_DEFAULT, 7),
    (0x4000, STB_GLOBAL, STT_SECTION, STV_DEFAULT, 7),
    (0x4000, STB_GLOBAL, STT_FILE, STV_DEFAULT, 7),
    (0x4000, STB_GLOBAL, STT_GNU_IFUNC, STV_DEFAULT, 7),
    (0x4000, STB_GLOBAL, STT_FUNC, STV_HIDDEN, 7),
    (0x4000, STB_GLOBAL, STT_FUNC, STV_INTERNAL, 7),
    (0x4000, STB_GLOBAL, STT_FUNC, STV_DEFAULT, SHN_LORESERVE),
    (0x4000, STB_GLOBAL, STT_FUNC, STV_DEFAULT, SHN_HIRESERVE),
    (0, STB_GLOBAL, STT_FUNC, STV_DEFAULT, 7),
    (0x4000, STB_LOCAL, STT_FUNC, STV_DEFAULT, SHN_UNDEF),
    (0, STB_GLOBAL, STT_FUNC, STV_DEFAULT, SHN_UNDEF),
    (0, STB_GLOBAL, STT_TLS, STV_DEFAULT, SHN_UNDEF),
];

/// Canonical addresses of functions: definers for other references than jump slots, in a program.
const CANONICAL: [Fields; 3] = [
    (0x40_1000, STB_GLOBAL, STT_FUNC, STV_DEFAULT, SHN_UNDEF),
    (0x40_1000, STB_WEAK, STT_NOTYPE, STV_DEFAULT, SHN_UNDEF),
    (0x40_1000, 3, STT_GNU_IFUNC, STV_HIDDEN, SHN_UNDEF),
];

#[test]
fn knows_definers(rt: HostRuntime) -> Result<(), Fail> {
    expect_answers(rt.alloc(), &ALWAYS, [true; 4])?;
    expect_answers(rt.alloc(), &NEVER, [false; 4])?;
    expect_answers(rt.alloc(), &CANONICAL, [false, false, false, true])
}

/// Sections, in hexadecimal, and where a symbol is that has one: undefined, absolute, in a section, or none of these.
const SECTIONS: &str = "\
0: undefined\n\
1: in a section\n\
feff: in a section\n\
ff00:\n\
fff1: absolute\n\
ffff:";

/// Whether a local symbol for thread-local storage is where the text says, and nowhere else.
fn is_where(symbol: &Symbol, text: &str) -> bool {
    symbol.is_undefined() == (text == "undefined")
        && symbol.is_absolute() == (text == "absolute")
        && symbol.is_in_section() == (text == "in a section")
        && symbol.is_local()
        && symbol.is_tls()
}

/// Whether a symbol with the section of a line is where it says.
fn is_told(alloc: Global, line: &str) -> Result<bool, Fail> {
    let (section, text) = parts(line)?;
    let section = u16::from_str_radix(section, 16)?;
    let symbol = symbol(alloc, (0, STB_LOCAL, STT_TLS, STV_DEFAULT, section))?;
    Ok(is_where(&symbol, text))
}

#[test]
fn knows_sections(rt: HostRuntime) -> Result<(), Fail> {
    for line in SECTIONS.lines() {
        if !is_told(rt.alloc(), line)? {
            return Err(line.into());
        }
    }
    Ok(())
}
