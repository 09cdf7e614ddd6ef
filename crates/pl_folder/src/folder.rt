ghost use Rattle.std.specs.Prelude.{IfErr};
ghost use Rattle.pl_base.specs.Names.{IsNameLength};
ghost use Rattle.pl_folder.specs.Calls.{Calls, GivesNames, IsPlain, IsThere, Takes};
ghost use Rattle.pl_folder.specs.Effects.{Appends, Does, DoesOrNot, creates, firms, removes, renames, settles};
ghost use Rattle.pl_folder.specs.Seen.{IsFolder, Seen, ending, ends};

use crate::FolderFault;
use pl_io::Failed;
use std::alloc::Global;

/// A flat folder of files. Whether it tells its files, and its disk, is the same before and after each call.
///
/// Each name that a call is given has 1 to 255 bytes. `Failed` comes only where the count of faults rose, and at every other answer the count stays as it is. Want of memory leaves the folder as it was. Each other call is a moment of the disk, but a failed one that the folder could not record.
pub trait Folder {
    /// What contracts see of it: whether it tells its files, and its disk; the files by their names; the disk with its past; how many calls have failed; and where a reference points, which no call changes. The count never falls, rises only where a call answers `Failed`, and stands still at 2^64 - 1.
    ghost seen: { Self → Seen };

    /// All names, ascending by bytes, each once. From every folder, each has 1 to 255 bytes. The files stay as they are.
    fn names(&mut self, alloc: Global) -> Result<Vec<String>, FolderFault>
        ensures { GivesNames result (seen self.old) (seen self.new) };

    /// The whole file, in one snapshot, at most `STORED` bytes from every folder. The name has 1 to 255 bytes.
    ///
    /// `NotThere` comes where the name is not there, `TooLarge` where the file is longer than `STORED` bytes, and `Failed` only where the count of faults rose. The files stay as they are.
    fn take(&mut self, alloc: Global, name: &str) -> Result<Vec<u8>, FolderFault>
        requires { IsNameLength name.now }
        ensures { Takes name.now result (seen self.old) (seen self.new) };

    /// Gives the name an empty file, in place of one that is there. After `Failed` the files are as before or as changed.
    fn create(&mut self, alloc: Global, name: &str) -> Result<(), FolderFault>
        requires { IsNameLength name.now }
        ensures calls { Calls (ending result) (Does (creates name.now)) (seen self.old)
            (seen self.new) }
        ensures plain { IfErr result IsPlain };

    /// Adds bytes at the end of a file that is there. After `Failed` it has some first bytes of them, perhaps none or all.
    fn append(&mut self, alloc: Global, name: &str, bytes: &[u8]) -> Result<(), FolderFault>
        requires length { IsNameLength name.now }
        requires there { IsThere (seen self.old) name.now }
        ensures calls { Calls (ending result) (Appends name.now bytes.now) (seen self.old)
            (seen self.new) }
        ensures plain { IfErr result IsPlain };

    /// Makes the bytes of a file that is there firm: they outlast a crash, until more are added. The files stay as they are.
    fn firm(&mut self, name: &str) -> Result<(), Failed>
        requires length { IsNameLength name.now }
        requires there { IsThere (seen self.old) name.now }
        ensures { Calls (ends result) (DoesOrNot (firms name.now)) (seen self.old)
            (seen self.new) };

    /// Gives the file of one name, which is there, another name, in place of a file that has it. After a fault the files are as before or as changed.
    fn rename(&mut self, from: &str, to: &str) -> Result<(), Failed>
        requires length { IsNameLength from.now }
        requires to_length { IsNameLength to.now }
        requires there { IsThere (seen self.old) from.now }
        ensures { Calls (ends result) (Does (renames from.now to.now)) (seen self.old)
            (seen self.new) };

    /// Removes the file of a name, where it is there. After a fault the files are as before or as changed.
    fn remove(&mut self, name: &str) -> Result<(), Failed>
        requires { IsNameLength name.now }
        ensures { Calls (ends result) (Does (removes name.now)) (seen self.old) (seen self.new) };

    /// Makes the names firm: after a crash all stands as it is read now. The files stay as they are. After a fault nothing is settled.
    fn settle(&mut self) -> Result<(), Failed>
        ensures { Calls (ends result) (DoesOrNot settles) (seen self.old) (seen self.new) };

    /// What holds of every folder.
    ghost is_folder: { (x : Self) → IsFolder (seen x) };
}

impl<D: Folder> Folder for &mut D {
    ghost seen = { λ folder. record (D.seen folder.now) { referent = folder.ghost_name } };

    ghost is_folder = { λ folder. record { tells = (D.is_folder folder.now).tells; reads = (D.is_folder folder.now).reads; whole = (D.is_folder folder.now).whole } };

    fn names(&mut self, alloc: Global) -> Result<Vec<String>, FolderFault> {
        (**self).names(alloc)
    }

    fn take(&mut self, alloc: Global, name: &str) -> Result<Vec<u8>, FolderFault> {
        (**self).take(alloc, name)
    }

    fn create(&mut self, alloc: Global, name: &str) -> Result<(), FolderFault> {
        (**self).create(alloc, name)
    }

    fn append(&mut self, alloc: Global, name: &str, bytes: &[u8]) -> Result<(), FolderFault> {
        (**self).append(alloc, name, bytes)
    }

    fn firm(&mut self, name: &str) -> Result<(), Failed> {
        (**self).firm(name)
    }

    fn rename(&mut self, from: &str, to: &str) -> Result<(), Failed> {
        (**self).rename(from, to)
    }

    fn remove(&mut self, name: &str) -> Result<(), Failed> {
        (**self).remove(name)
    }

    fn settle(&mut self) -> Result<(), Failed> {
        (**self).settle()
    }
}
