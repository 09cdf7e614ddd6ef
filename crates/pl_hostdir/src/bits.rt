//! Owner, group and permission bits of a file that takes the place of another.
ghost use Rattle.std.specs.Prelude.{◌≡◌};
ghost use Rattle.pl_hostdir.specs.Bits as spec;

use crate::HostFile;
use std::fs::{Metadata, OpenFile, Permissions};
use std::io;
use std::os::unix::fs::{MetadataExt, PermissionsExt};

// The set-user-id, set-group-id and sticky bits, and those of the owner, the group and the others.
const ALL: u32 = 0o7777;

/// A file with these bits is its owner's alone.
pub(crate) const PRIVATE: u32 = 0o600;

/// What a file has of the one whose place it takes.
#[derive(Clone, Copy)]
pub(crate) struct Kept {
    pub(crate) owner: bool,
    pub(crate) group: bool,
}

/// The permission bits of a file.
pub(crate) fn bits_of(file: &Metadata) -> u32 {
    file.permissions().mode() & ALL
}

// The bits without those that give whoever starts the file the rights of its owner or group.
fn without_set_ids(bits: u32) -> u32
    ensures { result ≡ spec.without_set_ids bits }
{
    bits & 0o1777
}

// The bits with no more for the group than for the others.
fn with_group_as_others(bits: u32) -> u32
    ensures { result ≡ spec.with_group_as_others bits }
{
    bits & (0o7707 | (bits & 0o007) << 3)
}

// The bits of a file that takes the place of one with these bits.
fn kept_bits(bits: u32, kept: Kept) -> u32
    ensures { result ≡ spec.kept_bits bits kept }
{
    match kept {
        Kept {
            owner: true,
            group: true,
        } => bits,
        Kept {
            owner: false,
            group: true,
        } => without_set_ids(bits),
        Kept {
            owner: _,
            group: false,
        } => with_group_as_others(without_set_ids(bits)),
    }
}

/// Gives an open file these permission bits, and syncs it, so that they are on disk before it gets another name.
pub(crate) fn set_bits<F: OpenFile>(file: &F, bits: u32) -> io::Result<()> {
    file.set_permissions(Permissions::from_mode(bits))?;
    file.sync_all()
}

/// Gives an open file the owner and the group of another one, where the system lets it, then that one's permission bits, and syncs it.
///
/// Where the owner or the group is not that one's, the file gets neither of the bits of set-user-id and set-group-id, and where the group is not, its group may do no more than the others. Which owner and group it has is looked at after the tries: their errors tell nothing more.
pub(crate) fn take_over<F: OpenFile + HostFile>(file: &F, old: &Metadata) -> io::Result<()> {
    let made = file.metadata()?;
    if made.gid() != old.gid() {
        let _ = file.give(None, Some(old.gid()));
    }
    if made.uid() != old.uid() {
        let _ = file.give(Some(old.uid()), None);
    }
    let now = file.metadata()?;
    let kept = Kept {
        owner: now.uid() == old.uid(),
        group: now.gid() == old.gid(),
    };
    set_bits(file, kept_bits(bits_of(old), kept))
}
