// The acceptance clauses. The manual page has the same table.

/// Each clause, by its number, with its sentence: where a file is refused.
pub const SENTENCES: &str =
    "1 The file has fewer than 64 bytes, or does not begin with the four bytes of ELF.
2 The file is not of class 64, not little-endian, or not of version 1.
3 The machine is not x86-64.
4 The type is neither ET_EXEC nor ET_DYN, or it is ET_DYN and there is no PT_DYNAMIC.
5 A header table, a segment or a section passes the end of the file.
6 The program headers are wrong: their entry size is not 56, there is no PT_LOAD, a PT_DYNAMIC, PT_TLS or PT_INTERP stands twice, a PT_LOAD or PT_TLS has a wrong size, alignment or address, or two PT_LOADs are out of order or share bytes.
7 The section headers are wrong: their entry size is not 64, there are more than 65000, or the names of sections are missing or have no end.
8 There are no section headers.
9 The dynamic table is not in the file, is no whole number of entries, or does not end with entries of tag DT_NULL alone.
10 The dynamic table has a tag that is not known. The second number is the tag.
11 A tag of the dynamic table other than DT_NEEDED stands twice. The second number is the tag.
12 A table that is needed or named by the dynamic table is missing, is not in the file, is not that of its section, or shares bytes with another one.
13 Of the tags of a relocation table some are missing, or its relocations are not those with addends (RELA), 24 bytes each.
14 Of the tags of the packed relocations (RELR) some are missing, or their table is not in the file, shares bytes with another table, begins with an odd entry or names too many places.
15 The name of a needed library has no end in the strings, or is not valid.
16 The name of a symbol has no end in the strings.
17 The version records are wrong: a tag is missing, a record passes its section, a chain is longer or shorter than its count, or a name has no end.
18 The version indexes are wrong: two records have the same one, a symbol's has no record, one that is reserved has another record than the base, or there is not one for each symbol.
19 No clause has this number.
20 The first PT_LOAD of the library does not begin in page 0.
21 There is no hash table for the symbols that are defined, or one is wrong or lacks such a symbol.
22 Two defined symbols have the same name and the same version.
23 A relocation is of a type that is not linked, or by a symbol that is not there. The second number is its type.
24 A relocation is for bytes that are not in the file and, of a program, not in the memory of its last PT_LOAD.
25 Two relocations are for the same byte.
26 A relocation is for a byte of a table by which the file is linked, or of the section headers.
27 A relocation of type GLOB_DAT, JUMP_SLOT or COPY has an addend other than 0.
28 A symbol that is defined has the type STT_GNU_IFUNC.
29 A COPY relocation stands in a library, or is by no symbol.
30 The file is longer than 64 MiB.
31 The file is a position-independent program.";

/// What can be done about a file that a clause refuses, if anything is known.
pub const REMEDIES: &str = "8 Take the file as it was before its section headers were stripped.
24 A position-independent program can be fixed at an address: prelink --fix NAME.
29 A position-independent program can be fixed at an address: prelink --fix NAME.
31 A position-independent program can be fixed at an address: prelink --fix NAME.";
