// Acceptance clauses 15 to 18: the names of needed libraries, of symbols and of versions.
ghost use Rattle.std.specs.Prelude.{◌≡◌, ◌<◌, ◌≤◌, ◌^◌, length, IfOk, OnOk};
ghost use Rattle.pl_base.specs.Answers.{Answers};
ghost use Rattle.pl_dyn.specs.Read.{has_number};
ghost use Rattle.pl_object.specs.NamesRead.{AreRead};
ghost use Rattle.pl_object.specs.Refusals.{is_memory};
ghost use Rattle.pl_object.specs.Names as spec;

use crate::Refusal;
use crate::file_part::loaded;
use crate::names_read::NamesRead;
use crate::tags::{has_tag, section_memory, strings_memory, symbols_memory, value};
use pl_base::{Rows, Text, string_at, valid_text};
use pl_dyn::constants::{DT_NEEDED, DT_VERDEF, DT_VERDEFNUM, DT_VERNEED, DT_VERNEEDNUM, DT_VERSYM};
use pl_dyn::{Dynamic, Tag};
use pl_elf::{Section, Segment};
use pl_sym::{Symbol, read_symbols};
use pl_ver::constants::VERSYM_SIZE;
use pl_ver::{Versions, read_versions};
use std::alloc::{AllocError, Global};

#[tactic(auto, unfolding(crate::specs::Names::needed_name))]
fn needed_name(alloc: Global, strings: &[u8], tag: &Tag) -> Result<Text, Refusal>
    ensures { spec.GivesNeeded strings.now tag.now result }
{
    let Some(bytes) = string_at(strings, tag.value) else {
        return Err(Refusal::clause(15));
    };
    match valid_text(bytes) {
        None => Err(Refusal::clause(15)),
        Some(name) => Ok(Text::to_share(alloc, name)?),
    }
}

/// Reads the name of a tag's library, and keeps it.
fn read_name(
    alloc: Global,
    read: &mut NamesRead,
    strings: &[u8],
    tag: &Tag,
) -> Result<Text, Refusal>
    requires { AreRead strings.now read.old }
    ensures name { spec.GivesNeeded strings.now tag.now result }
    ensures read { OnOk result (AreRead strings.now read.new) }
{
    let name = needed_name(alloc, strings, tag)?;
    read.keep(alloc, tag.value, &name)?;
    Ok(name)
}

/// The name of a tag's library. One that was read at its offset before is not read again.
fn name_at(alloc: Global, read: &mut NamesRead, strings: &[u8], tag: &Tag) -> Result<Text, Refusal>
    requires { AreRead strings.now read.old }
    ensures name { spec.GivesNeeded strings.now tag.now result }
    ensures read { OnOk result (AreRead strings.now read.new) }
{
    match read.again(alloc, tag.value)? {
        Some(name) => Ok(name),
        None => read_name(alloc, read, strings, tag),
    }
}

fn is_needed(tag: &Tag) -> bool
    ensures { result ≡ has_number DT_NEEDED tag.now }
{
    tag.number == DT_NEEDED
}

/// How many tags are those of needed libraries.
fn needed_count(tags: &[Tag]) -> usize {
    tags.iter().filter(|tag| is_needed(tag)).count()
}

/// The names of the needed libraries, in the order of their tags. Names that begin at one offset share their memory.
#[tactic(auto, unfolding(crate::specs::Names::needed))]
fn needed_names(alloc: Global, tags: &[Tag], strings: &[u8]) -> Result<Rows<Text>, Refusal>
    ensures { Answers is_memory result (spec.needed tags.now strings.now) }
{
    let mut names = Rows::from_vec(Vec::with_capacity(alloc, needed_count(tags))?);
    let mut read = NamesRead::new(alloc);
    for tag in tags {
        if is_needed(tag) {
            let name = name_at(alloc, &mut read, strings, tag)?;
            names.push(name)?;
        }
    }
    Ok(names)
}

/// The names of the needed libraries, in the order of their tags (gABI chapter 5, "Dynamic Section"): acceptance clause 15 where one has no end inside the strings or is no valid name.
pub fn read_needed(alloc: Global, dynamic: &Dynamic, strings: &[u8]) -> Result<Rows<Text>, Refusal>
    ensures { Answers is_memory result (spec.needed dynamic.now.tags strings.now) }
{
    needed_names(alloc, dynamic.tags.as_slice(), strings)
}

/// The strings that symbols, needed libraries and versions are named by.
#[tactic(auto, unfolding(crate::specs::Names::strings))]
pub fn strings<'a>(bytes: &'a [u8], segments: &[Segment], tags: &[Tag]) -> &'a [u8]
    ensures { result.now ≡ spec.strings bytes.now segments.now tags.now }
{
    loaded(bytes, segments, strings_memory(tags))
}

/// The symbols, not yet with their versions: clause 16.
#[tactic(auto, using(crate::proofs::NameLaws::symbols_fit), unfolding(crate::specs::Names::symbols))]
pub fn symbols(
    alloc: Global,
    bytes: &[u8],
    segments: &[Segment],
    sections: &[Section],
    tags: &[Tag],
) -> Result<Rows<Symbol>, Refusal>
    ensures exact { Answers is_memory result (spec.symbols bytes.now segments.now sections.now
        tags.now) }
    ensures few { IfOk result (λ symbols. length symbols ≤ length bytes.now) }
{
    let table = loaded(bytes, segments, symbols_memory(tags, sections));
    let symbols = read_symbols(alloc, table, strings(bytes, segments, tags))?;
    Ok(symbols)
}

#[tactic(auto, unfolding(crate::specs::Names::bad_version_tags))]
fn bad_version_tags(tags: &[Tag]) -> bool
    ensures { result ≡ spec.bad_version_tags tags.now }
{
    has_tag(tags, DT_VERDEF) && !(has_tag(tags, DT_VERDEFNUM) && has_tag(tags, DT_VERSYM))
        || has_tag(tags, DT_VERNEED) && !(has_tag(tags, DT_VERNEEDNUM) && has_tag(tags, DT_VERSYM))
}

fn record_count(tags: &[Tag], address: u64, count: u64) -> u64
    ensures { result ≡ spec.record_count address count tags.now }
{
    if has_tag(tags, address) {
        value(tags, count)
    } else {
        0
    }
}

#[tactic(auto, unfolding(crate::specs::Names::miscounted))]
fn miscounted(versym: &[u8], symbols: &[Symbol]) -> bool
    requires { length symbols.now < 2 ^ 32 }
    ensures { result ≡ spec.miscounted versym.now symbols.now }
{
    versym.len() != VERSYM_SIZE * symbols.len()
}

#[tactic(auto, unfolding(crate::specs::Names::table_versions))]
fn table_versions(
    alloc: Global,
    bytes: &[u8],
    segments: &[Segment],
    sections: &[Section],
    tags: &[Tag],
) -> Result<Versions, Refusal>
    ensures { Answers is_memory result (spec.table_versions bytes.now segments.now sections.now
        tags.now) }
{
    let versions = read_versions(
        alloc,
        loaded(bytes, segments, section_memory(tags, sections, DT_VERSYM)),
        loaded(bytes, segments, section_memory(tags, sections, DT_VERDEF)),
        record_count(tags, DT_VERDEF, DT_VERDEFNUM),
        loaded(bytes, segments, section_memory(tags, sections, DT_VERNEED)),
        record_count(tags, DT_VERNEED, DT_VERNEEDNUM),
        strings(bytes, segments, tags),
    )?;
    Ok(versions)
}

#[tactic(auto, unfolding(crate::specs::Names::counted))]
fn counted(
    versym: &[u8],
    symbols: &[Symbol],
    versions: Versions,
) -> Result<Option<Versions>, Refusal>
    requires { length symbols.now < 2 ^ 32 }
    ensures { result ≡ spec.counted versym.now symbols.now versions }
{
    if miscounted(versym, symbols) {
        return Err(Refusal::clause(18));
    }
    Ok(Some(versions))
}

#[tactic(auto, unfolding(crate::specs::Names::known_versions))]
fn known_versions(
    alloc: Global,
    bytes: &[u8],
    segments: &[Segment],
    sections: &[Section],
    tags: &[Tag],
    symbols: &[Symbol],
) -> Result<Option<Versions>, Refusal>
    requires { length symbols.now < 2 ^ 32 }
    ensures { Answers is_memory result (spec.known_versions bytes.now segments.now sections.now
        tags.now symbols.now) }
{
    if !has_tag(tags, DT_VERSYM) {
        return Ok(None);
    }
    let versions = table_versions(alloc, bytes, segments, sections, tags)?;
    counted(
        loaded(bytes, segments, section_memory(tags, sections, DT_VERSYM)),
        symbols,
        versions,
    )
}

/// The versions, where there is a table of version words: clauses 17 and 18.
#[tactic(auto, unfolding(crate::specs::Names::versions))]
pub fn versions(
    alloc: Global,
    bytes: &[u8],
    segments: &[Segment],
    sections: &[Section],
    tags: &[Tag],
    symbols: &[Symbol],
) -> Result<Option<Versions>, Refusal>
    requires { length symbols.now < 2 ^ 32 }
    ensures { Answers is_memory result (spec.versions bytes.now segments.now sections.now tags.now
        symbols.now) }
{
    if bad_version_tags(tags) {
        return Err(Refusal::clause(17));
    }
    known_versions(alloc, bytes, segments, sections, tags, symbols)
}

/// Gives each symbol its version word.
fn set_versions(symbols: &mut [Symbol], words: &[u16])
    ensures { symbols.new ≡ spec.with_versions symbols.old words.now }
{
    let mut index = 0;
    while index < symbols.len() && index < words.len() {
        symbols[index].version = words[index];
        index += 1;
    }
}

/// The symbols with their version words.
pub fn versioned(symbols: Rows<Symbol>, versions: &Option<Versions>) -> Rows<Symbol>
    ensures value { result ≡ spec.versioned symbols versions.now }
    ensures few { length result ≡ length symbols }
{
    match versions {
        None => symbols,
        Some(versions) => {
            let mut symbols = symbols.into_vec();
            set_versions(&mut symbols, versions.index.as_slice());
            Rows::from_vec(symbols)
        }
    }
}
