//! The journal's own names, and names of files as they are held.
ghost use Rattle.std.specs.Prelude.{◌≡◌, IfOk};
ghost use Rattle.pl_base.specs.Names.{IsNameLength};
ghost use Rattle.pl_folder.specs.Disk.{same};
ghost use Rattle.pl_journal.specs.FileNames.{name_text};
ghost use Rattle.pl_journal.specs.Names as spec;

use crate::FileName;
use pl_base::Text;
use pl_io::NoMemory;
use std::alloc::Global;

/// The journal's name.
pub const JOURNAL: &str = ".prelink.journal";

/// The journal's name while it is written.
pub const JOURNAL_NEW: &str = ".prelink.journal.new";

/// The first bytes of the name beside of a row: its number follows in decimal.
pub const BESIDE: &str = ".prelink.new.";

/// The name of the cache, which a row may have beside the valid names.
pub const CACHE: &str = ".prelink.cache";

impl FileName {
    /// A copy of a name. It fails only for want of memory.
    pub fn copy_of(alloc: Global, name: &str) -> Result<FileName, NoMemory>
        requires { IsNameLength name.now }
        ensures { IfOk result (λ copy. name_text copy ≡ name.now) }
    {
        Ok(FileName {
            text: Text::copy_of(alloc, name)?,
        })
    }

    /// The name, lent.
    pub fn as_str(&self) -> &str
        ensures value { result.now ≡ name_text self.now }
        ensures length { IsNameLength result.now }
    {
        self.text.as_str()
    }
}

/// Whether two names are the same.
#[tactic(auto, using(crate::proofs::NameLemmas::compared))]
pub(crate) fn is(name: &str, other: &str) -> bool
    ensures { result ≡ same name.now other.now }
{
    name == other
}

/// Whether a name is one of the journal's own: its name, the one while it is written, or one beside of a row.
pub(crate) fn is_journal_name(name: &str) -> bool
    ensures { result ≡ spec.is_journal_name name.now }
{
    is(name, JOURNAL) || is(name, JOURNAL_NEW) || name.as_bytes().starts_with(BESIDE.as_bytes())
}

/// The name beside of a row, by its number. It fails only for want of memory.
#[tactic(auto, using(crate::proofs::Done::beside_length))]
pub(crate) fn beside(alloc: Global, row: usize) -> Result<FileName, NoMemory>
    ensures { IfOk result (λ name. name_text name ≡ spec.beside row) }
{
    let name = format!(in alloc; "{BESIDE}{row}")?;
    FileName::copy_of(alloc, &name)
}
