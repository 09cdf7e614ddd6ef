ghost use Rattle.std.specs.Prelude.{◌≡◌, ◌==◌, Option, find};
ghost use Rattle.std.specs.Option.{option_map};
ghost use Rattle.pl_ver.specs.Versions as spec;

use crate::fields::index_of;
use crate::versions::{VersionName, Versions};

fn first_of_index(names: &[VersionName], index: u16) -> Option<&VersionName>
    ensures { option_map (λ row. row.now) result ≡ find (λ row. row.index == index) names.now }
{
    names.iter().find(|row| row.index == index)
}

/// The name of the version that a version word stands for (GNU symbol versioning): the name of the first row of `versions.names` with the word's index, which is all of it but bit 15. None exactly where no row has that index.
#[tactic(auto, unfolding(crate::specs::Versions::version_of))]
pub fn version_of(versions: &Versions, index: u16) -> Option<&[u8]>
    ensures { option_map (λ name. name.now) result ≡ spec.version_of versions.now index }
{
    match first_of_index(versions.names.as_slice(), index_of(index)) {
        None => None,
        Some(row) => Some(row.name.as_slice()),
    }
}
