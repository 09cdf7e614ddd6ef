// Versions by their indexes, without a search for each symbol.
ghost use Rattle.std.specs.Prelude.{◌≡◌, ℕ, None, find, length, slice_index_or, IfOk};
ghost use Rattle.std.specs.Option.{option_map};
ghost use Rattle.pl_ver.specs.Fields as fields;
ghost use Rattle.pl_ver.specs.Versions.{version_of};
ghost use Rattle.pl_object.specs.Keys as spec;

use pl_ver::constants::VERSYM_HIDDEN;
use pl_ver::{VersionName, Versions, index_of};
use std::alloc::{AllocError, Global};

/// Notes a place under an index that has none yet.
fn note(places: &mut [Option<usize>], index: usize, place: usize)
    ensures { places.new ≡ spec.noted index place places.old }
{
    if index < places.len() && places[index].is_none() {
        places[index] = Some(place);
    }
}

fn note_places(rows: &[VersionName], places: &mut [Option<usize>])
    requires len { length places.old ≡ VERSYM_HIDDEN }
    requires none { (index : ℕ) → slice_index_or places.old index None ≡ None }
    ensures len { length places.new ≡ length places.old }
    ensures exact { spec.ArePlaces rows.now places.new }
{
    for place in 0..rows.len() {
        note(places, usize::from(rows[place].index), place);
    }
}

#[tactic(auto, using(crate::proofs::PlaceLaws::none_pushed))]
fn no_places(alloc: Global, count: usize) -> Result<Vec<Option<usize>>, AllocError>
    ensures len { IfOk result (λ v. length v.items ≡ count) }
    ensures none { IfOk result (λ v. (index : ℕ) → slice_index_or v.items index None ≡ None) }
{
    let mut places = Vec::new(alloc);
    for _index in 0..count {
        places.push(None)?;
    }
    Ok(places)
}

/// For each index that a symbol's version word may have, the place of the first row of that index.
pub fn first_places(alloc: Global, rows: &[VersionName]) -> Result<Vec<Option<usize>>, AllocError>
    ensures { IfOk result (λ v. spec.ArePlaces rows.now v.items) }
{
    let mut places = no_places(alloc, usize::from(VERSYM_HIDDEN))?;
    note_places(rows, &mut places);
    Ok(places)
}

fn row_at(rows: &[VersionName], place: Option<usize>) -> Option<&VersionName>
    ensures { option_map (λ row. row.now) result ≡ spec.row_at rows.now place }
{
    match place {
        None => None,
        Some(place) => rows.get(place),
    }
}

fn row_of<'a>(
    versions: &'a Versions,
    places: &[Option<usize>],
    word: u16,
) -> Option<&'a VersionName>
    requires { spec.ArePlaces versions.now.names places.now }
    ensures { option_map (λ row. row.now) result
        ≡ find (spec.has_index (fields.index_of word)) versions.now.names }
{
    row_at(
        versions.names.as_slice(),
        places[usize::from(index_of(word))],
    )
}

/// The name of the version that a version word stands for, by the places of the indexes.
#[tactic(auto, unfolding(pl_ver::specs::Versions::version_of))]
pub fn name_of<'a>(versions: &'a Versions, places: &[Option<usize>], word: u16) -> Option<&'a [u8]>
    requires { spec.ArePlaces versions.now.names places.now }
    ensures { option_map (λ name. name.now) result ≡ version_of versions.now word }
{
    match row_of(versions, places, word) {
        None => None,
        Some(row) => Some(row.name.as_slice()),
    }
}
