ghost use Rattle.law_demo.specs.Numbers.{NumbersAreRead};
ghost use Rattle.law_demo.specs.Rows.{EntriesAreRead, RelocsAreRead, SymbolsAreRead};
ghost use Rattle.law_demo.specs.Hashes.{SysvIsWhole};
ghost use Rattle.law_demo.specs.Files.{FilesAreHeaded, FilesHoldTables, HeadsAreRead, RolesStand, TablesStand};
ghost use Rattle.law_demo.specs.Loaded.{TablesAreLoaded};
ghost use Rattle.law_demo.specs.Spelled.{AbsolutesAreRead, CopiesAreRead, FunctionsAreRead, GlobDatsAreRead, JumpSlotsAreRead, NeedsAreRead, ObjectsAreRead, RefsAreRead, RelativesAreRead};
ghost use Rattle.law_demo.specs.Split.{PiecesAreSplit};
ghost use Rattle.law_demo.specs.Symbols.{SymbolTableIsRead};
ghost use Rattle.law_demo.specs.Tags.{DynamicIsRead};
ghost use Rattle.law_demo.specs.Texts.{TextsAreFound};

/// A law: the tables of a file stand one after the other from their offset on, each at a multiple of their alignment and at its address, and at its place are its bytes.
pub fn tables_stand()
    ensures stand { TablesStand }
    ensures files { FilesHoldTables }
{}

/// A law: a text that was added to a table of strings, and has no byte 0, is the string at the offset that the table has for it.
pub fn texts_are_found()
    ensures { TextsAreFound }
{}

/// A law: each table of a plain recipe's file is loaded at its address from its place in the file, by the segments that its program header table is to have.
pub fn tables_are_loaded()
    ensures { TablesAreLoaded }
{}

/// A law: of a plain recipe, a table stands for each section that has one, in the order of the sections.
pub fn roles_stand()
    ensures { RolesStand }
{}

/// A law: the dynamic table of a plan is read as its tags, with as many spare entries as the recipe has, and acceptance clauses 9 to 11 refuse none.
pub fn dynamic_is_read()
    ensures { DynamicIsRead }
{}

/// A law: the symbol table of a plain recipe is read as the null symbol and the recipe's, each under its name, in the order of the plan.
pub fn symbol_table_is_read()
    ensures { SymbolTableIsRead }
{}

/// A law: the header, the program header table and the section header table of a plain recipe's file are read as the recipe's plan says, and acceptance clauses 1 to 8 take the file.
pub fn heads_are_read()
    ensures read { HeadsAreRead }
    ensures taken { FilesAreHeaded }
{}

/// A law: rows of a dynamic table, of a table of relocations and of a symbol table are read as they were written, a symbol under the name that stands in the strings where its row says.
pub fn rows_are_read()
    ensures entries { EntriesAreRead }
    ensures relocs { RelocsAreRead }
    ensures symbols { SymbolsAreRead }
{}

/// A law: the lines of a recipe and the words of a line are its pieces byte by byte, and a number of 64 bits in hexadecimal digits is read as itself.
pub fn words_are_read()
    ensures pieces { PiecesAreSplit }
    ensures numbers { NumbersAreRead }
{}

/// A law: the System V hash table of a plan is well formed, and leads to each symbol of the plan by the hash of its name.
pub fn sysv_is_whole()
    ensures { SysvIsWhole }
{}

/// A law: the lines `needs`, `def` and `ref`, without a version, are read as what they spell.
pub fn name_lines_are_read()
    ensures needs { NeedsAreRead }
    ensures functions { FunctionsAreRead }
    ensures objects { ObjectsAreRead }
    ensures refs { RefsAreRead }
{}

/// A law: the lines `rel` of five kinds are read as what they spell.
pub fn rel_lines_are_read()
    ensures copies { CopiesAreRead }
    ensures relatives { RelativesAreRead }
    ensures absolutes { AbsolutesAreRead }
    ensures globdats { GlobDatsAreRead }
    ensures jumpslots { JumpSlotsAreRead }
{}
