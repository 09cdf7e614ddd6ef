//! A name of the folder, and what has it.
ghost use Rattle.std.specs.Prelude.{◌≡◌, ◌≢◌, ◌++◌, codes, IfErr, IfOk};
ghost use Rattle.std.specs.IoError.{error_kind};
ghost use Rattle.std.specs.declared.io.ErrorKind.TheVariants.{InvalidInput, NotFound};

use crate::Reason;
use crate::owner::require_trusted;
use arrayvec::{ArrayString, CapacityError};
use pl_base::{is_own_name, is_valid_name};
use std::fs::{self, Files, Metadata, OpenFile, OpenOptions};
use std::io;
use std::os::unix::fs::MetadataExt;

// The most bytes of a path, as the system's PATH_MAX without the ending zero.
const MAX_PATH: usize = 4095;

/// A name of a folder: its path, which takes no memory.
#[derive(Drop)]
pub(crate) struct Entry {
    path: ArrayString<MAX_PATH>,
}

// The error of a path that is too long.
fn too_long(_text: CapacityError<&str>) -> io::Error
    ensures { error_kind result ≡ InvalidInput }
{
    io::Error::from(io::ErrorKind::InvalidInput)
}

// What an error of the system means where a name may have nothing: that it has nothing is no error.
fn none_if_missing<T>(error: io::Error) -> io::Result<Option<T>>
    ensures { IfErr result (λ error. error_kind error ≢ NotFound) }
{
    match error.kind() {
        io::ErrorKind::NotFound => Ok(None),
        _ => Err(error),
    }
}

// What has a path, itself and not what it leads to, if anything.
fn look_at(rt: &impl Files, path: &str) -> io::Result<Option<Metadata>>
    ensures { IfErr result (λ error. error_kind error ≢ NotFound) }
{
    match fs::symlink_metadata(rt, path) {
        Ok(metadata) => Ok(Some(metadata)),
        Err(error) => none_if_missing(error),
    }
}

// Whether two are the same regular file.
fn is_same_file(one: &Metadata, other: &Metadata) -> bool {
    one.is_file() && other.is_file() && one.dev() == other.dev() && one.ino() == other.ino()
}

// An open file, where it is the one that was looked at.
fn if_same<F: OpenFile + Drop>(file: F, looked: &Metadata) -> io::Result<Option<F>> {
    let opened = file.metadata()?;
    if is_same_file(looked, &opened) {
        Ok(Some(file))
    } else {
        Ok(None)
    }
}

impl Entry {
    /// A name of a folder. It fails only where the path is too long.
    pub(crate) fn new(folder: &str, name: &str) -> io::Result<Entry>
        ensures path { IfOk result (λ entry. entry.path.bytes ≡ (folder.now ++ codes "/")
            ++ name.now) }
        ensures fault { IfErr result (λ error. error_kind error ≡ InvalidInput) }
    {
        let mut path = ArrayString::from(folder).map_err(too_long)?;
        path.try_push_str("/").map_err(too_long)?;
        path.try_push_str(name).map_err(too_long)?;
        Ok(Entry { path })
    }

    /// Its path.
    pub(crate) fn path(&self) -> &str
        ensures { result.now ≡ self.now.path.bytes }
    {
        self.path.as_str()
    }

    // The path of the folder.
    fn folder(&self) -> &str {
        match self.path().rsplit_once('/') {
            Some((folder, _)) => folder,
            None => self.path(),
        }
    }

    // The name.
    fn name(&self) -> &str {
        match self.path().rsplit_once('/') {
            Some((_, name)) => name,
            None => self.path(),
        }
    }

    /// Whether the name is one of the program's own.
    pub(crate) fn has_own_name(&self) -> bool {
        is_own_name(self.name().as_bytes())
    }

    /// What has the name, if anything. An own name of a file that is `Foreign` is an error.
    pub(crate) fn look(&self, rt: &impl Files) -> Result<Option<Metadata>, Reason> {
        let there = look_at(rt, self.path())?;
        if self.has_own_name() {
            if let Some(metadata) = &there {
                require_trusted(rt, self.folder(), metadata)?;
            }
        }
        Ok(there)
    }

    /// The regular file that has the name. Nothing, a symbolic link under a valid name included, is `NotFound`, and anything else `NotAFile`.
    pub(crate) fn file(&self, rt: &impl Files) -> Result<Metadata, Reason> {
        match self.look(rt)? {
            Some(metadata) if metadata.is_file() => Ok(metadata),
            Some(metadata) if self.blocks(&metadata) => Err(Reason::NotAFile),
            _ => Err(Reason::System(io::Error::from(io::ErrorKind::NotFound))),
        }
    }

    /// Whether what has the name is in the way of a file: a valid name's directory, socket, fifo or device. What has an own name, and a symbolic link, count as not there.
    pub(crate) fn blocks(&self, there: &Metadata) -> bool {
        is_valid_name(self.name().as_bytes()) && !there.is_file() && !there.is_symlink()
    }

    /// Removes what has the name, whatever it is: a directory only where it is empty. What is in the way of a file is an error, and stays.
    pub(crate) fn clear(&self, rt: &impl Files) -> Result<(), Reason> {
        let Some(there) = self.look(rt)? else {
            return Ok(());
        };
        if self.blocks(&there) {
            return Err(Reason::NotAFile);
        }
        if there.is_dir() {
            fs::remove_dir(rt, self.path())?;
        } else {
            fs::remove_file(rt, self.path())?;
        }
        Ok(())
    }

    /// Removes what has the name, where that is no regular file. A directory that is not empty is an error.
    pub(crate) fn clear_other(&self, rt: &impl Files) -> Result<(), Reason> {
        match self.look(rt)? {
            Some(there) if !there.is_file() => self.clear(rt),
            _ => Ok(()),
        }
    }

    /// The regular file that a rename to the name takes the place of, if there is one. A symbolic link, and whatever has an own name, give way to the rename, a directory only where it is empty. What is in the way of a file is an error.
    pub(crate) fn replaced(&self, rt: &impl Files) -> Result<Option<Metadata>, Reason> {
        let Some(there) = self.look(rt)? else {
            return Ok(None);
        };
        if there.is_file() {
            return Ok(Some(there));
        }
        if self.blocks(&there) {
            return Err(Reason::NotAFile);
        }
        if there.is_dir() {
            fs::remove_dir(rt, self.path())?;
        }
        Ok(None)
    }

    /// Opens the regular file that was looked at. There is none where the name has got another file meanwhile, or is gone.
    pub(crate) fn open_looked<R: Files>(
        &self,
        rt: &R,
        how: &OpenOptions,
        looked: &Metadata,
    ) -> io::Result<Option<R::File>> {
        match how.open(rt, self.path()) {
            Ok(file) => if_same(file, looked),
            Err(error) => none_if_missing(error),
        }
    }

    /// Opens the regular file that has the name. That the name gets another file meanwhile is an error.
    pub(crate) fn open<R: Files>(&self, rt: &R, how: &OpenOptions) -> Result<R::File, Reason> {
        let looked = self.file(rt)?;
        match self.open_looked(rt, how, &looked)? {
            Some(file) => Ok(file),
            None => Err(Reason::System(changed())),
        }
    }
}

/// The error of a name that gets other files while it is looked at.
pub(crate) fn changed() -> io::Error {
    io::Error::from(io::ErrorKind::ResourceBusy)
}
