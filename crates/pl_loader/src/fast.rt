// Whether a program starts from the prelinked files as they stand.
ghost use Rattle.std.specs.Prelude.{◌≡◌};
ghost use Rattle.pl_loader.specs.Fast as spec;

use crate::{Mark, ObjectFile};
use pl_lists::ListRow;

/// Whether a row has the name of a prelinked file, its stamp and the checksum of its original.
fn is_row_of(row: &ListRow, library: &ObjectFile) -> bool
    ensures { result ≡ spec.is_row_of row.now library.now.name library.now.mark }
{
    match &library.mark {
        None => false,
        Some(mark) => {
            row.name.as_str() == library.name.as_str()
                && row.stamp == mark.stamp
                && row.checksum == mark.checksum
        }
    }
}

/// Whether each row is that of its library.
#[tactic(auto, unfolding(crate::specs::Fast::are_rows_of))]
fn are_rows_of(list: &[ListRow], libraries: &[ObjectFile]) -> bool
    ensures { result ≡ spec.are_rows_of list.now libraries.now }
{
    list.iter()
        .zip(libraries)
        .all(|(row, library)| is_row_of(row, library))
}

/// Whether rows are those of libraries, each a prelinked file, in order.
fn lists_libraries(list: &[ListRow], libraries: &[ObjectFile]) -> bool
    ensures { result ≡ spec.lists_libraries list.now libraries.now }
{
    list.len() == libraries.len() && are_rows_of(list, libraries)
}

/// Whether a library is a prelinked file, and this is its slot.
fn is_at_slot(library: &ObjectFile, place: u64) -> bool
    ensures { result ≡ spec.is_slot_of library.now.mark place }
{
    match &library.mark {
        None => false,
        Some(mark) => mark.slot == place,
    }
}

/// Whether each library is a prelinked file, and placed at its slot.
#[tactic(auto, unfolding(crate::specs::Fast::are_at_slots))]
fn are_at_slots(libraries: &[ObjectFile], places: &[u64]) -> bool
    ensures { result ≡ spec.are_at_slots libraries.now places.now }
{
    libraries
        .iter()
        .zip(places)
        .all(|(library, place)| is_at_slot(library, *place))
}

/// Whether a program of this mark starts from its file and its libraries' files as they stand.
fn is_fast_by(mark: &Option<Mark>, libraries: &[ObjectFile], places: &[u64]) -> bool
    ensures { result ≡ spec.is_fast_by mark.now libraries.now places.now }
{
    match mark {
        None => false,
        Some(mark) => lists_libraries(mark.list.as_slice(), libraries)
            && are_at_slots(libraries, places),
    }
}

/// Whether a program, which stands first, starts from the prelinked files as they stand: it is one, its list tells the libraries of its walk, and each of them is placed at its slot.
#[tactic(auto, unfolding(crate::specs::Fast::is_fast))]
pub fn is_fast(files: &[ObjectFile], places: &[u64]) -> bool
    ensures { result ≡ spec.is_fast files.now places.now }
{
    let [program, libraries @ ..] = files else {
        return false;
    };
    let [_, others @ ..] = places else {
        return is_fast_by(&program.mark, libraries, &[]);
    };
    is_fast_by(&program.mark, libraries, others)
}
