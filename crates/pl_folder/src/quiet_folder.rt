ghost use Rattle.std.specs.Prelude.{◌≡◌, ◌≢◌, false, true, is_ok, IfErr, IfOk};
ghost use Rattle.std.specs.FinMap.{contains_key};
ghost use Rattle.pl_base.specs.Files.{files_of};
ghost use Rattle.pl_base.specs.Names.{IsNameLength};
ghost use Rattle.pl_folder.specs.Calls.{Calls, GivesNames, IsPlain, Takes};
ghost use Rattle.pl_folder.specs.Effects.{Appends, Does, DoesOrNot, creates, firms, removes, renames, settles};
ghost use Rattle.pl_folder.specs.FileLists.{are_files};
ghost use Rattle.pl_folder.specs.InMemory.{quiet, quiet_files, quiet_seen};
ghost use Rattle.pl_folder.specs.Seen.{ending, ends};
ghost use Rattle.std.proofs.Common.{refl};
ghost use Rattle.std.proofs.lemmas.Bool.{false≢true};

use crate::file_table::FileTable;
use crate::{Folder, FolderFault};
use pl_io::{Failed, NoMemory};
use std::alloc::Global;

/// A folder in memory, no call of which fails. It tells its files alone, and records nothing.
#[derive(Drop)]
pub struct QuietFolder {
    files: FileTable,
}

impl QuietFolder {
    /// A folder of these files.
    ///
    /// Each name has 1 to 255 bytes, and no two files have one name, as `are_files` tells.
    pub fn new(alloc: Global, files: &[(String, Vec<u8>)]) -> Result<QuietFolder, NoMemory>
        requires { are_files files.now ≡ true }
        ensures { IfOk result (λ folder. ⟦<QuietFolder as Folder>⟧.seen folder
            ≡ quiet (files_of files.now)) }
    {
        Ok(QuietFolder {
            files: FileTable::copies_of(alloc, files)?,
        })
    }
}

/// No call fails. Want of memory leaves the files as they were.
impl Folder for QuietFolder {
    ghost seen = { quiet_seen };

    ghost is_folder = { λ folder. record { tells = λ told. refl; reads = λ told. absurd (false≢true told); whole = λ told. absurd (false≢true told) } };

    fn names(&mut self, alloc: Global) -> Result<Vec<String>, FolderFault>
        ensures names { GivesNames result (quiet_seen self.old) (quiet_seen self.new) }
        ensures never_fails { IfErr result (λ fault. fault ≢ FolderFault.Failed) }
    {
        Ok(self.files.names(alloc)?)
    }

    fn take(&mut self, alloc: Global, name: &str) -> Result<Vec<u8>, FolderFault>
        ensures takes { Takes name.now result (quiet_seen self.old) (quiet_seen self.new) }
        ensures never_fails { IfErr result (λ fault. fault ≢ FolderFault.Failed) }
    {
        self.files.take(alloc, name)
    }

    fn create(&mut self, alloc: Global, name: &str) -> Result<(), FolderFault>
        requires { IsNameLength name.now }
        ensures calls { Calls (ending result) (Does (creates name.now)) (quiet_seen self.old)
            (quiet_seen self.new) }
        ensures plain { IfErr result IsPlain }
        ensures never_fails { IfErr result (λ fault. fault ≢ FolderFault.Failed) }
    {
        Ok(self.files.create(alloc, name)?)
    }

    fn append(&mut self, _alloc: Global, name: &str, bytes: &[u8]) -> Result<(), FolderFault>
        requires { contains_key (quiet_files self.old) name.now ≡ true }
        ensures calls { Calls (ending result) (Appends name.now bytes.now) (quiet_seen self.old)
            (quiet_seen self.new) }
        ensures plain { IfErr result IsPlain }
        ensures never_fails { IfErr result (λ fault. fault ≢ FolderFault.Failed) }
    {
        Ok(self.files.append(name, bytes)?)
    }

    fn firm(&mut self, name: &str) -> Result<(), Failed>
        ensures calls { Calls (ends result) (DoesOrNot (firms name.now)) (quiet_seen self.old)
            (quiet_seen self.new) }
        ensures never_fails { is_ok result ≡ true }
    {
        Ok(())
    }

    fn rename(&mut self, from: &str, to: &str) -> Result<(), Failed>
        requires there { contains_key (quiet_files self.old) from.now ≡ true }
        requires to_length { IsNameLength to.now }
        ensures calls { Calls (ends result) (Does (renames from.now to.now)) (quiet_seen self.old)
            (quiet_seen self.new) }
        ensures never_fails { is_ok result ≡ true }
    {
        self.files.rename(from, to);
        Ok(())
    }

    fn remove(&mut self, name: &str) -> Result<(), Failed>
        ensures calls { Calls (ends result) (Does (removes name.now)) (quiet_seen self.old)
            (quiet_seen self.new) }
        ensures never_fails { is_ok result ≡ true }
    {
        self.files.remove(name);
        Ok(())
    }

    fn settle(&mut self) -> Result<(), Failed>
        ensures calls { Calls (ends result) (DoesOrNot settles) (quiet_seen self.old)
            (quiet_seen self.new) }
        ensures never_fails { is_ok result ≡ true }
    {
        Ok(())
    }
}
