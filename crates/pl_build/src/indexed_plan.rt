// What is to be laid out, with where its symbols, versions and strings stand.
ghost use Rattle.std.specs.Prelude.{◌≡◌, position, slice_get, IfOk};
ghost use Rattle.std.specs.Option.{option_and_then};
ghost use Rattle.pl_build.specs.IndexedPlan.{is_version};
ghost use Rattle.pl_build.specs.Relocations.{is_written_as};
ghost use Rattle.pl_build.specs.StringTable as strings;
ghost use Rattle.pl_build.specs.TextIndex.{IsIndexOf};

use crate::layout_plan::LayoutPlan;
use crate::line::SymbolLine;
use crate::string_table::Entry;
use crate::text_index::TextIndex;
use pl_base::Rows;
use std::alloc::{AllocError, Global};
use std::marker::Model;

/// What is to be laid out, with where its symbols, versions and strings stand, each of which is found in the logarithm of their number. Contracts see it as what is to be laid out.
#[derive(Drop)]
pub struct IndexedPlan<'a> {
    plan: &'a LayoutPlan,
    symbols: TextIndex<'a>,
    versions: TextIndex<'a>,
    strings: TextIndex<'a>,
}

impl<'a> Model for IndexedPlan<'a> {
    ghost use Rattle.pl_build.specs.IndexedPlan.{IsIndexedPlan};
    ghost use Rattle.pl_build.specs.declared.layout_plan.LayoutPlan.{LayoutPlan};

    ghost Value = { LayoutPlan };

    ghost view = { λ p. p.plan.now };

    ghost invariant = { λ p. IsIndexedPlan p.plan.now p.symbols p.versions p.strings };
}

/// Where symbols are named first, as they are written.
fn symbol_index<'a>(alloc: Global, symbols: &'a [SymbolLine]) -> Result<TextIndex<'a>, AllocError>
    ensures { IfOk result (λ index. IsIndexOf is_written_as symbols.now index) }
{
    let mut index = TextIndex::new(alloc);
    for place in 0..symbols.len() {
        index.note(Some(symbols[place].written.as_slice()), place)?;
    }
    Ok(index)
}

/// Where versions stand first.
fn version_index<'a>(alloc: Global, versions: &'a [Rows<u8>]) -> Result<TextIndex<'a>, AllocError>
    ensures { IfOk result (λ index. IsIndexOf is_version versions.now index) }
{
    let mut index = TextIndex::new(alloc);
    for place in 0..versions.len() {
        index.note(Some(versions[place].as_slice()), place)?;
    }
    Ok(index)
}

/// Where entries of a table have their texts first.
fn string_index<'a>(alloc: Global, entries: &'a [Entry]) -> Result<TextIndex<'a>, AllocError>
    ensures { IfOk result (λ index. IsIndexOf strings.has_text entries.now index) }
{
    let mut index = TextIndex::new(alloc);
    for place in 0..entries.len() {
        index.note(Some(entries[place].text.as_slice()), place)?;
    }
    Ok(index)
}

/// Where the text of the entry at a place begins; 0 where there is none.
fn at_place(entries: &[Entry], place: Option<usize>) -> u64
    ensures { result ≡ strings.at_of (option_and_then (λ i. slice_get entries.now i) place) }
{
    let Some(place) = place else {
        return 0;
    };
    match entries.get(place) {
        Some(entry) => entry.at,
        None => 0,
    }
}

impl<'a> IndexedPlan<'a> {
    /// What is to be laid out, with where its symbols, versions and strings stand. The time grows as `n log n`. It fails only for want of memory.
    pub fn of(alloc: Global, plan: &'a LayoutPlan) -> Result<IndexedPlan<'a>, AllocError>
        ensures { IfOk result (λ indexed. indexed ≡ plan.now) }
    {
        let symbols = symbol_index(alloc, plan.symbols.as_slice())?;
        let versions = version_index(alloc, plan.versions.as_slice())?;
        let strings = string_index(alloc, plan.strings.entries.as_slice())?;
        Ok(IndexedPlan {
            plan,
            symbols,
            versions,
            strings,
        })
    }

    /// What is to be laid out.
    pub fn layout(&self) -> &'a LayoutPlan
        ensures { result.now ≡ self.now }
    {
        self.plan
    }

    /// The first symbol that is written as a name, from 0.
    pub fn symbol_position(&self, name: &[u8]) -> Option<usize>
        ensures { result ≡ position (is_written_as name.now) self.now.symbols }
    {
        self.symbols.first(name)
    }

    /// The first version of a name, from 0.
    pub fn version_position(&self, name: &[u8]) -> Option<usize>
        ensures { result ≡ position (is_version name.now) self.now.versions }
    {
        self.versions.first(name)
    }

    /// Where a text begins in the table of strings. The empty one begins at 0.
    pub fn text_at(&self, text: &[u8]) -> u64
        ensures { result ≡ strings.text_at self.now.strings text.now }
    {
        at_place(
            self.plan.strings.entries.as_slice(),
            self.strings.first(text),
        )
    }
}
