ghost use Rattle.std.specs.Prelude.{◌≡◌};
ghost use Rattle.std.specs.Option.{option_map};
ghost use Rattle.pl_folder.specs.Disk.{same};
ghost use Rattle.pl_folder.specs.Entries.{name_bytes};
ghost use Rattle.pl_folder.specs.Replaying.{bound_after, bound_name, change_of};

use crate::name::Name;

/// One change of the names of a folder: a name is bound to a file, a file is moved to another name, or a name is unbound. Files are numbered.
#[derive(Drop)]
pub(crate) enum DirectoryChange {
    Bind { name: Name, file: usize },
    Move { from: Name, to: Name, file: usize },
    Unbind { name: Name },
}

impl DirectoryChange {
    pub(crate) fn copy(&self) -> DirectoryChange
        ensures { change_of result ≡ change_of self.now }
    {
        match self {
            DirectoryChange::Bind { name, file } => DirectoryChange::Bind {
                name: name.copy(),
                file: *file,
            },
            DirectoryChange::Move { from, to, file } => DirectoryChange::Move {
                from: from.copy(),
                to: to.copy(),
                file: *file,
            },
            DirectoryChange::Unbind { name } => DirectoryChange::Unbind { name: name.copy() },
        }
    }

    /// The file of a name after the change, by what it was before.
    pub(crate) fn bound(&self, name: &str, file: Option<usize>) -> Option<usize>
        ensures { result ≡ bound_after (change_of self.now) name.now file }
    {
        match self {
            DirectoryChange::Bind {
                name: bound,
                file: new,
            } => {
                if is_same(name, bound.as_str()) {
                    Some(*new)
                } else {
                    file
                }
            }
            DirectoryChange::Move {
                from,
                to,
                file: moved,
            } => {
                if is_same(name, to.as_str()) {
                    Some(*moved)
                } else if is_same(name, from.as_str()) {
                    None
                } else {
                    file
                }
            }
            DirectoryChange::Unbind { name: unbound } => {
                if is_same(name, unbound.as_str()) {
                    None
                } else {
                    file
                }
            }
        }
    }

    /// The name that the change binds.
    pub(crate) fn bound_name(&self) -> Option<&Name>
        ensures { option_map (λ name. name_bytes name.now) result
            ≡ bound_name (change_of self.now) }
    {
        match self {
            DirectoryChange::Bind { name, file: _ } => Some(name),
            DirectoryChange::Move {
                from: _,
                to,
                file: _,
            } => Some(to),
            DirectoryChange::Unbind { name: _ } => None,
        }
    }
}

fn is_same(one: &str, other: &str) -> bool
    ensures { result ≡ same one.now other.now }
{
    one == other
}
