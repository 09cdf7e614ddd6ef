ghost use Rattle.pl_base.specs.Names.{IsNameLength};
ghost use Rattle.pl_folder.specs.Calls.{Calls, IsThere};
ghost use Rattle.pl_folder.specs.Seen.{ends};
ghost use Rattle.pl_journal.specs.Parts.{NamesFile};

use pl_folder::Folder;
use pl_io::Failed;
use pl_stage::{Held, firm_there};

/// Makes a file that is there firm, and gives it another name.
pub(crate) fn name_firm<D: Folder>(held: &mut Held<D>, from: &str, to: &str) -> Result<(), Failed>
    requires length { IsNameLength from.now }
    requires to_length { IsNameLength to.now }
    requires there { IsThere (D.seen held.old.folder) from.now }
    ensures { Calls (ends result) (NamesFile from.now to.now) (D.seen held.old.folder)
        (D.seen held.new.folder) }
{
    match firm_there(held, from) {
        Ok(file) => file.name_as(to),
        Err(fault) => Err(fault),
    }
}
