// A table of strings.
ghost use Rattle.std.specs.Prelude.{◌≡◌, IfOk, find};
ghost use Rattle.std.specs.List.{list_any};
ghost use Rattle.std.specs.Option.{option_copied};
ghost use Rattle.pl_build.specs.TextIndex.{IsIndexOf};
ghost use Rattle.pl_build.specs.StringTable as spec;

use crate::line::SymbolLine;
use crate::names::is;
use crate::needed::{Need, is_of};
use crate::roles::{Role, section_name};
use crate::text_index::TextIndex;
use crate::words::copy_of;
use pl_base::Rows;
use std::alloc::{AllocError, Global};
use std::marker::Model;

/// A text of the table, and where it begins.
#[derive(Drop)]
pub struct Entry {
    pub text: Rows<u8>,
    pub at: u64,
}

/// The table: its bytes, and its texts in their order.
#[derive(Drop)]
pub struct StringTable {
    pub bytes: Rows<u8>,
    pub entries: Rows<Entry>,
}

/// A table that is being made, with where its texts stand. Contracts see it as the table so far.
#[derive(Drop)]
pub struct TableMaker<'a> {
    table: StringTable,
    index: TextIndex<'a>,
}

impl<'a> Model for TableMaker<'a> {
    ghost use Rattle.pl_build.specs.StringTable.{has_text};
    ghost use Rattle.pl_build.specs.TextIndex.{IsIndexOf};
    ghost use Rattle.pl_build.specs.declared.string_table.StringTable.{StringTable};

    ghost Value = { StringTable };

    ghost view = { λ m. m.table };

    ghost invariant = { λ m. IsIndexOf has_text m.table.entries m.index };
}

impl<'a> TableMaker<'a> {
    fn has(&self, text: &[u8]) -> bool
        ensures { result ≡ list_any (spec.has_text text.now) self.now.entries }
    {
        self.index.first(text).is_some()
    }

    /// The table. It takes no memory.
    pub fn into_table(self) -> StringTable
        ensures { result ≡ self.entry }
    {
        let TableMaker { table, index: _ } = self;
        table
    }
}

/// The table of no text.
pub fn start<'a>(alloc: Global) -> Result<TableMaker<'a>, AllocError>
    ensures { IfOk result (λ s. s ≡ spec.start) }
{
    let bytes = copy_of(alloc, b"\0")?;
    let entries = Rows::new(alloc);
    let index = TextIndex::new(alloc);
    Ok(TableMaker {
        table: StringTable { bytes, entries },
        index,
    })
}

fn with_text(bytes: Rows<u8>, text: &[u8]) -> Result<Rows<u8>, AllocError>
    ensures { IfOk result (λ v. v ≡ spec.ended bytes text.now) }
{
    let mut bytes = bytes.into_vec();
    bytes.extend_from_slice(text)?;
    bytes.push(0)?;
    Ok(Rows::from_vec(bytes))
}

/// A text behind the others.
fn with_entry(alloc: Global, table: StringTable, text: &[u8]) -> Result<StringTable, AllocError>
    ensures { IfOk result (λ t. t ≡ spec.text_behind table text.now) }
{
    let StringTable { bytes, entries } = table;
    let mut entries = entries;
    entries.push(Entry {
        text: copy_of(alloc, text)?,
        at: bytes.len() as u64,
    })?;
    Ok(StringTable {
        bytes: with_text(bytes, text)?,
        entries,
    })
}

/// One text more, unless it is empty or there already.
#[tactic(auto, unfolding(crate::specs::StringTable::text_added))]
pub fn add_text<'a>(
    alloc: Global,
    strings: TableMaker<'a>,
    text: &'a [u8],
) -> Result<TableMaker<'a>, AllocError>
    ensures { IfOk result (λ s. s ≡ spec.text_added strings.entry text.now) }
{
    if text.is_empty() || strings.has(text) {
        return Ok(strings);
    }
    let TableMaker { table, index } = strings;
    let mut index = index;
    index.note(Some(text), table.entries.len())?;
    let table = with_entry(alloc, table, text)?;
    Ok(TableMaker { table, index })
}

/// Where a text of few begins. The empty one begins at 0.
#[tactic(auto, unfolding(crate::specs::StringTable::text_at))]
pub fn text_at(strings: &StringTable, text: &[u8]) -> u64
    ensures { result ≡ spec.text_at strings.now text.now }
{
    let entries = strings.entries.as_slice();
    for entry in entries {
        if is(entry.text.as_slice(), text) {
            return entry.at;
        }
    }
    0
}

/// Texts more.
#[tactic(auto, unfolding(crate::specs::StringTable::texts_added))]
pub fn add_texts<'a>(
    alloc: Global,
    strings: TableMaker<'a>,
    texts: &'a [Rows<u8>],
) -> Result<TableMaker<'a>, AllocError>
    ensures { IfOk result (λ s. s ≡ spec.texts_added strings.entry texts.now) }
{
    let mut strings = strings;
    for text in texts {
        strings = add_text(alloc, strings, text.as_slice())?;
    }
    Ok(strings)
}

/// The names of symbols.
#[tactic(auto, unfolding(crate::specs::StringTable::symbols_added))]
pub fn add_symbols<'a>(
    alloc: Global,
    strings: TableMaker<'a>,
    symbols: &'a [SymbolLine],
) -> Result<TableMaker<'a>, AllocError>
    ensures { IfOk result (λ s. s ≡ spec.symbols_added strings.entry symbols.now) }
{
    let mut strings = strings;
    for symbol in symbols {
        strings = add_text(alloc, strings, symbol.name.as_slice())?;
    }
    Ok(strings)
}

/// The versions of a recipe, behind the name of their base.
#[tactic(auto, unfolding(crate::specs::StringTable::versions_added))]
pub fn add_versions<'a>(
    alloc: Global,
    strings: TableMaker<'a>,
    versions: &'a [Rows<u8>],
) -> Result<TableMaker<'a>, AllocError>
    ensures { IfOk result (λ s. s ≡ spec.versions_added strings.entry versions.now) }
{
    if versions.len() == 0 {
        return Ok(strings);
    }
    let strings = add_text(alloc, strings, b"base")?;
    add_texts(alloc, strings, versions)
}

fn add_need<'a>(
    alloc: Global,
    strings: TableMaker<'a>,
    file: &[u8],
    need: &'a Need,
) -> Result<TableMaker<'a>, AllocError>
    ensures { IfOk result (λ s. s ≡ spec.need_text_added file.now strings.entry need.now) }
{
    if is_of(file, need) {
        add_text(alloc, strings, need.version.as_slice())
    } else {
        Ok(strings)
    }
}

#[tactic(auto, unfolding(crate::specs::StringTable::file_texts_added))]
fn add_file<'a>(
    alloc: Global,
    strings: TableMaker<'a>,
    needs: &'a [Need],
    file: &'a [u8],
) -> Result<TableMaker<'a>, AllocError>
    ensures { IfOk result (λ s. s ≡ spec.file_texts_added needs.now strings.entry file.now) }
{
    let mut strings = add_text(alloc, strings, file)?;
    for need in needs {
        strings = add_need(alloc, strings, file, need)?;
    }
    Ok(strings)
}

/// The names of files, each before the versions that are needed of it.
#[tactic(auto, unfolding(crate::specs::StringTable::files_added))]
pub fn add_files<'a>(
    alloc: Global,
    strings: TableMaker<'a>,
    needs: &'a [Need],
    files: &'a [Rows<u8>],
) -> Result<TableMaker<'a>, AllocError>
    ensures { IfOk result (λ s. s ≡ spec.files_added needs.now strings.entry files.now) }
{
    let mut strings = strings;
    for file in files {
        strings = add_file(alloc, strings, needs, file.as_slice())?;
    }
    Ok(strings)
}

/// The names of sections.
#[tactic(auto, unfolding(crate::specs::StringTable::section_names))]
pub fn section_names(alloc: Global, roles: &[Role]) -> Result<StringTable, AllocError>
    ensures { IfOk result (λ s. s ≡ spec.section_names roles.now) }
{
    let mut strings = start(alloc)?;
    for role in roles {
        strings = add_text(alloc, strings, section_name(*role))?;
    }
    Ok(strings.into_table())
}
