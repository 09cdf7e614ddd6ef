//! How much a folder may have: whether it has too many files, and whether it has room for one more.
ghost use Rattle.std.specs.Prelude.{◌≡◌, count_by, map, string_bytes};
ghost use Rattle.std.specs.List.{list_any};
ghost use Rattle.std.specs.Str.{bytes_eq};
ghost use Rattle.pl_base.specs.Names.{is_valid_name};
ghost use Rattle.pl_change.specs.Names as spec;

use pl_base::is_valid_name;

/// How many files with valid names a folder has at most.
pub const FILES: usize = 1024;

/// How many bytes the originals of a folder have together at most, for a run that prelinks everything: 1 GiB.
pub const FOLDER: usize = 1_073_741_824;

fn has_file(names: &[String], name: &str) -> bool
    ensures { result ≡ list_any (λ other. bytes_eq name.now (string_bytes other)) names.now }
{
    names.iter().any(|other| name == other.as_str())
}

/// Whether a name is one of these.
pub(crate) fn has_name(names: &[String], name: &str) -> bool
    ensures { result ≡ spec.has_name name.now (map string_bytes names.now) }
{
    has_file(names, name)
}

#[tactic(auto, using(crate::proofs::RoomLemmas::count_valid_map))]
fn count_valid(names: &[String]) -> usize
    ensures { result ≡ count_by is_valid_name (map string_bytes names.now) }
{
    names
        .iter()
        .filter(|name| is_valid_name(name.as_str().as_bytes()))
        .count()
}

/// Whether a folder with files of these names has too many: more than `FILES` of the names are valid.
#[tactic(auto, unfolding(crate::specs::Names::are_many))]
pub fn are_many(names: &[String]) -> bool
    ensures { result ≡ spec.are_many (map string_bytes names.now) }
{
    count_valid(names) > FILES
}

/// Whether a folder with files of these names has no room for one of that name.
#[tactic(auto, unfolding(crate::specs::Names::is_full))]
pub(crate) fn is_full(names: &[String], name: &str) -> bool
    ensures { result ≡ spec.is_full (map string_bytes names.now) name.now }
{
    !has_name(names, name) && count_valid(names) >= FILES
}
