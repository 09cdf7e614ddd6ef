// The versions of an object by their indexes.
ghost use Rattle.std.specs.Prelude.{◌≡◌, IfOk, OnOk};
ghost use Rattle.std.specs.Option.{option_map};
ghost use Rattle.pl_scope.specs.VersionIndex as spec;

use pl_ver::{VersionName, Versions, index_of};
use std::alloc::{AllocError, Global};
use std::collections::BTreeMap;

/// For each index of a version the name of the first version that has it. A look-up takes the logarithm of their number.
#[derive(Drop)]
pub struct VersionIndex<'a> {
    pub names: BTreeMap<u16, &'a [u8], Global>,
}

impl<'a> VersionIndex<'a> {
    /// No versions. It takes no memory.
    fn new(alloc: Global) -> VersionIndex<'a>
        ensures { spec.IsUnnamed result }
    {
        VersionIndex {
            names: BTreeMap::new(alloc),
        }
    }

    /// Notes a version, where none before it has its index. It fails only for want of memory, and no clause says what is kept then.
    fn note(&mut self, row: &'a VersionName) -> Result<(), AllocError>
        ensures { OnOk result (spec.IsVersionNoted self.old row.now self.new) }
    {
        if self.names.contains_key(&row.index) {
            return Ok(());
        }
        self.names.insert(row.index, row.name.as_slice())?;
        Ok(())
    }

    /// The name of the version that a version word stands for. None exactly where no version has its index.
    pub fn name_of(&self, word: u16) -> Option<&'a [u8]>
        ensures { option_map (λ x. x.now) result ≡ spec.name_by_word self.now word }
    {
        let index = index_of(word);
        self.names.get(&index).copied()
    }
}

/// The versions of an object; none where it has no version words.
pub fn names_in(versions: &Option<Versions>) -> &[VersionName]
    ensures { result.now ≡ spec.names_in versions.now }
{
    match versions {
        None => &[],
        Some(versions) => versions.names.as_slice(),
    }
}

/// The versions of an object by their indexes. The time grows as `n log n`. It fails only for want of memory.
pub fn versions_of<'a>(
    alloc: Global,
    versions: &'a Option<Versions>,
) -> Result<VersionIndex<'a>, AllocError>
    ensures { IfOk result (λ index. spec.IsVersionIndex versions.now index) }
{
    let mut index = VersionIndex::new(alloc);
    for row in names_in(versions) {
        index.note(row)?;
    }
    Ok(index)
}
