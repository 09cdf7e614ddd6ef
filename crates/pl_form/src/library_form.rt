// A library's form, by its list and the words at its places.
ghost use Rattle.std.specs.Prelude.{◌≡◌, ◌+◌, ◌++◌, ◌<◌, ◌≤◌, ◌^◌, ◌%◌, ◌-◌, length, take, IfOk, OnOk, Ok};
ghost use Rattle.pl_base.specs.Bytes.{bytes64, part};
ghost use Rattle.pl_base.specs.Windows.{AllIn};
ghost use Rattle.pl_lists.specs.Lists as lists;
ghost use Rattle.pl_object.specs.Accepted.{HasHead};
ghost use Rattle.pl_form.specs.Back as back;
ghost use Rattle.pl_form.specs.PartLaws.{IsDigest};
ghost use Rattle.pl_form.specs.Found.{ps_of};
ghost use Rattle.pl_form.specs.Library as spec;
ghost use Rattle.pl_form.specs.Words as words_spec;
ghost use Rattle.pl_form.specs.Originals.{IsLayoutOf};
ghost use Rattle.sha2.specs.Sha256.{sha256};

use crate::bytes::split;
use crate::found::{dynamic_in, moved_tables, spots_in};
use crate::library::library_plan;
use crate::places::{push_memory, push_zeros};
use crate::write::write_planned;
use crate::{Layout, Listed, Mark, Source, Spot, Version};
use pl_base::{Rows, part, word32};
use pl_dyn::read_tags;
use pl_io::NoMemory;
use pl_lists::{ListRow, write_list};
use pl_object::Object;
use sha2::{Digest, Sha256};
use std::alloc::{AllocError, Global};

/// Where a form changes an accepted original.
pub fn layout_of(alloc: Global, bytes: &[u8], object: &Object) -> Result<Layout, AllocError>
    requires head { HasHead bytes.now object.now }
    requires few { length bytes.now < 2 ^ 32 }
    ensures { IfOk result (IsLayoutOf bytes.now) }
{
    let segments = object.segments.as_slice();
    let sections = object.sections.as_slice();
    let dynamic = dynamic_in(segments);
    let tags = read_tags(alloc, part(bytes, dynamic.at(), dynamic.size()))?;
    let spots = spots_in(alloc, segments, sections, &tags, bytes)?;
    let tables = moved_tables(alloc, segments, sections, &tags)?;
    Ok(Layout {
        dynamic,
        tables,
        spots,
        tags: tags.len() as u64,
    })
}

/// The strings and the table of a list.
fn listed(alloc: Global, list: &[ListRow]) -> Result<Listed, NoMemory>
    requires { length (lists.list_strings list.now) + 1 < 2 ^ 32 }
    ensures { IfOk result (λ l. l ≡ words_spec.listed list.now) }
{
    let mut strings = Vec::from_array(alloc, [0])?;
    let rows = write_list(alloc, list, &mut strings)?;
    Ok(Listed {
        strings: Rows::from_vec(strings),
        rows: Rows::from_vec(rows),
    })
}

/// Adds so many of the first bytes of a word.
#[tactic(auto, unfolding(pl_base::specs::Bytes::bytes64))]
fn push_word(out: &mut Vec<u8>, size: u64, word: u64) -> Result<(), AllocError>
    ensures { OnOk result (out.new.items ≡ out.old.items ++ take size (bytes64 word)) }
{
    let bytes = word.to_le_bytes();
    out.extend_from_slice(split(&bytes, size).0)
}

/// Adds the original's bytes at a place behind a word.
fn push_behind(out: &mut Vec<u8>, bytes: &[u8], spot: &Spot) -> Result<(), AllocError>
    requires { spot.now.at + spot.now.size ≤ length bytes.now }
    ensures { OnOk result (out.new.items ≡ out.old.items
        ++ part (spot.now.at + 8) (spot.now.size - 8) bytes.now) }
{
    let size = spot.size.saturating_sub(8);
    out.extend_from_slice(part(bytes, spot.at + 8, size))
}

/// Adds the bytes at a place: the original's, or those of a word.
fn push_filled(
    out: &mut Vec<u8>,
    bytes: &[u8],
    spot: &Spot,
    word: Option<u64>,
) -> Result<(), AllocError>
    requires { spot.now.at + spot.now.size ≤ length bytes.now }
    ensures { OnOk result (out.new.items ≡ out.old.items
        ++ words_spec.filled bytes.now spot.now word) }
{
    let Some(word) = word else {
        return push_memory(out, bytes, spot);
    };
    push_word(out, spot.size, word)?;
    push_behind(out, bytes, spot)?;
    push_zeros(out, spot.hidden)?;
    Ok(())
}

/// The word at an index, as far as there are any.
fn word_at(words: &[Option<u64>], index: usize) -> Option<u64>
    ensures { result ≡ words_spec.word_at words.now index }
{
    words.get(index).copied().flatten()
}

/// The bytes at all places, by a word for each of the first of them.
fn all_filled(
    alloc: Global,
    bytes: &[u8],
    spots: &[Spot],
    words: &[Option<u64>],
) -> Result<Vec<u8>, AllocError>
    requires { AllIn (length bytes.now) (back.spot_windows spots.now) }
    ensures { IfOk result (λ v. v.items ≡ words_spec.all_filled bytes.now spots.now words.now) }
{
    let mut out = Vec::new(alloc);
    for index in 0..spots.len() {
        let word = word_at(words, index);
        push_filled(&mut out, bytes, &spots[index], word)?;
    }
    Ok(out)
}

/// The SHA-256 of a file.
pub fn digest_of(bytes: &[u8]) -> [u8; 32]
    ensures value { result ≡ sha256 bytes.now }
    ensures size { length result ≡ 32 }
{
    let mut hasher = Sha256::new();
    hasher.update(bytes);
    hasher.finalize()
}

/// What a version of the undo section keeps of the original's digest.
pub fn kept_digest(version: Version, digest: [u8; 32]) -> Option<[u8; 32]>
    ensures value { result ≡ words_spec.kept_digest version digest }
    ensures size { IsDigest result }
{
    match version {
        Version::One => None,
        Version::Two => Some(digest),
    }
}

/// How many bytes the list of a library's form may have, 1 GiB.
const MOST_LIST: usize = 1_073_741_824;

/// NoMemory where the parts of a list have too many bytes.
fn check_list(listed: &Listed) -> Result<(), NoMemory>
    ensures { OnOk result (spec.IsShortList listed.now) }
{
    if listed.strings.len() > MOST_LIST {
        return Err(NoMemory);
    }
    if listed.rows.len() > MOST_LIST {
        return Err(NoMemory);
    }
    Ok(())
}

/// The form of an accepted library by what it bears, with these bytes at its places.
fn moved(
    alloc: Global,
    source: &Source<'_>,
    mark: &Mark,
    listed: Listed,
    flat: &[u8],
    version: Version,
) -> Result<Vec<u8>, NoMemory>
    requires source { spec.IsLibrarySource source.now }
    requires slot { spec.IsEven mark.now.slot }
    requires list { spec.IsShortList listed }
    requires flat { length flat.now ≡ back.wanted (ps_of source.now.original.now) }
    ensures { IfOk result (λ v. v.items ≡ spec.moved source.now.original.now
        mark.now.slot mark.now.stamp mark.now.checksum listed flat.now version) }
{
    let plan = library_plan(
        alloc,
        source.original,
        source.object,
        source.layout,
        mark,
        listed,
    )?;
    let kept = kept_digest(version, *source.digest);
    write_planned(alloc, source.original, source.layout, &plan, flat, kept)
}

/// The form of an accepted library with these bytes at its places, one place after the other in the order of the relocations.
pub fn library_with(
    alloc: Global,
    source: &Source<'_>,
    slot: u64,
    stamp: u32,
    list: &[ListRow],
    flat: &[u8],
    version: Version,
) -> Result<Vec<u8>, NoMemory>
    requires source { spec.IsLibrarySource source.now }
    requires even { slot % 2 ≡ 0 }
    requires list { spec.IsListing list.now }
    requires flat { length flat.now ≡ back.wanted (ps_of source.now.original.now) }
    ensures form { IfOk result (λ v. v.items ≡ spec.library_with source.now.original.now slot stamp
        list.now flat.now version) }
    ensures size { IfOk result (spec.IsShortForm source.now.original.now list.now) }
{
    let digest = source.digest;
    let checksum = word32(digest, 0);
    let mark = Mark {
        slot,
        stamp,
        checksum,
    };
    let lists = listed(alloc, list)?;
    check_list(&lists)?;
    let form = moved(alloc, source, &mark, lists, flat, version)?;
    Ok(form)
}

/// The form that `form_library` gives, where the caller has the SHA-256 of the original.
pub fn form_library_with(
    alloc: Global,
    original: &[u8],
    object: &Object,
    slot: u64,
    stamp: u32,
    list: &[ListRow],
    words: &[Option<u64>],
    version: Version,
    digest: &[u8; 32],
) -> Result<Vec<u8>, NoMemory>
    requires firm { spec.IsFirmLibrary original.now object.now }
    requires even { slot % 2 ≡ 0 }
    requires list { spec.IsListing list.now }
    requires words { length words.now ≡ length object.now.relocations }
    requires digest { digest.now ≡ sha256 original.now }
    ensures form { IfOk result (λ v. v.items ≡ spec.library_form original.now slot stamp list.now
        words.now version) }
    ensures size { IfOk result (spec.IsShortForm original.now list.now) }
{
    let layout = layout_of(alloc, original, object)?;
    let flat = all_filled(alloc, original, layout.spots.as_slice(), words)?;
    let source = Source {
        original,
        object,
        layout: &layout,
        digest,
    };
    library_with(alloc, &source, slot, stamp, list, &flat, version)
}

/// The form of an accepted library: its bytes moved by a slot, with a word or the original's bytes at each place, its stamp and its checksum in the dynamic table, and behind them the library list, the undo section, the section names and the section headers.
///
/// The library was accepted from these bytes and has no form fault. The slot is even, and the list's names have together fewer than 2^30 bytes. There is one word, or none, for each relocation, in their order. A list whose table has more than 1 GiB counts as a want of memory.
pub fn form_library(
    alloc: Global,
    original: &[u8],
    object: &Object,
    slot: u64,
    stamp: u32,
    list: &[ListRow],
    words: &[Option<u64>],
    version: Version,
) -> Result<Vec<u8>, NoMemory>
    requires firm { spec.IsFirmLibrary original.now object.now }
    requires even { slot % 2 ≡ 0 }
    requires list { spec.IsListing list.now }
    requires words { length words.now ≡ length object.now.relocations }
    ensures form { IfOk result (λ v. v.items ≡ spec.library_form original.now slot stamp list.now
        words.now version) }
    ensures size { IfOk result (spec.IsShortForm original.now list.now) }
{
    let digest = digest_of(original);
    form_library_with(
        alloc, original, object, slot, stamp, list, words, version, &digest,
    )
}
