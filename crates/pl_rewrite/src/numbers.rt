// The files of a run by their rows: walks, index, slots, stamps and digests; and the walk that is worked on.
ghost use Rattle.std.specs.Prelude.{◌≡◌, IfOk};
ghost use Rattle.pl_rewrite.specs.Rows as spec;

use pl_base::Rows;
use pl_cone::{Taken, WalkScope};
use pl_scope::Index;
use pl_value::Places;
use std::alloc::{AllocError, Global};

/// The files of a table with the slots and stamps that they have or get. The columns have one row for each file.
#[derive(Clone, Copy)]
pub struct Numbered<'t> {
    pub files: &'t [Taken],

    /// The rows of the members of each name's walk, its own first; none where the walk is refused.
    pub walks: &'t [Rows<u32>],

    /// The rows of the objects that define a name, by its hash.
    pub index: &'t Index,

    /// The address at which each file's library is loaded; 0 for a program.
    pub places: &'t [u64],

    /// When each file's library was prelinked; 0 for a program.
    pub stamps: &'t [u32],

    /// The SHA-256 of originals, where they are asked for; each is made once.
    pub digests: &'t [Option<[u8; 32]>],
}

/// The walk of a file that is worked on.
#[derive(Drop)]
pub struct PlacedWalk<'f> {
    pub walk: WalkScope<'f>,
    pub places: Places,
}

fn places_of(alloc: Global, places: &[u64], walk: &[u32]) -> Result<Places, AllocError>
    requires { spec.AreInColumn places.now walk.now }
    ensures { IfOk result (λ v. v ≡ spec.places_of places.now walk.now) }
{
    let mut rows = Rows::new(alloc);
    for row in walk {
        rows.push(places[*row as usize])?;
    }
    Ok(Places::new(rows))
}

impl<'t> Numbered<'t> {
    /// The rows of the walk of a row; none where that is refused.
    pub fn walk(&self, row: usize) -> &'t [u32]
        ensures { result.now ≡ spec.walk_of self.now row }
    {
        match self.walks.get(row) {
            None => &[],
            Some(walk) => walk.as_slice(),
        }
    }

    /// The scope of the walk of a row, with the places of its members. It is made again, as it was when the name was linked: the scopes of all names would have as many names as all walks have members.
    pub fn placed(&self, alloc: Global, row: usize) -> Result<PlacedWalk<'t>, AllocError>
        requires { spec.IsNumbered self.now }
        ensures { IfOk result (spec.IsPlacedWalk self.now row) }
    {
        let rows = self.walk(row);
        let walk = WalkScope::of(alloc, self.files, rows)?;
        let places = places_of(alloc, self.places, rows)?;
        Ok(PlacedWalk { walk, places })
    }
}
