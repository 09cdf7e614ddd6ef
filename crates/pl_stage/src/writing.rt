ghost use Rattle.std.specs.Prelude.{◌≡◌, IfErr, IfOk};
ghost use Rattle.std.specs.Borrow.{sem, RestsIfErr};
ghost use Rattle.pl_base.specs.Names.{IsNameLength};
ghost use Rattle.pl_folder.specs.Calls.{Calls, IsPlain};
ghost use Rattle.pl_folder.specs.Effects.{Appends, Does, DoesOrNot, creates, firms, renames};
ghost use Rattle.pl_folder.specs.Seen.{Done, ending, ends};
ghost use Rattle.pl_stage.specs.Files.{Has, HasFirm, IsFile, IsFirmFile};
ghost use Rattle.pl_stage.specs.Loans.{HoldsLoan};
ghost use Rattle.pl_stage.specs.contracts.held.Held.{the_row};

use crate::states::{Firm, Fresh};
use crate::{Held, Named};
use pl_folder::{Folder, FolderFault};
use pl_io::Failed;
use std::alloc::Global;

/// Gives the name an empty file, by one `create`. Where that gives no answer the loan ends; the fault is `Failed` or `NoMemory`.
#[tactic(auto, using(pl_folder::proofs::FolderLaws::there))]
pub fn fresh<'a, D: Folder, N: Named + Copy>(
    held: &'a mut Held<D>,
    alloc: Global,
    name: N,
) -> Result<Fresh<'a, D, N>, FolderFault>
    requires { IsNameLength (N.text name) }
    ensures* rests { sem 𝓛 (RestsIfErr (the_row D.row) held.entry (λ it. it.held.ghost_name) result
        (λ n. Calls (ending result) (Does (creates (N.text name))) (D.seen held.old.folder)
        (D.seen n.folder))) }
    ensures same_reference { HoldsLoan result (λ it. it.held) held.entry }
    ensures calls { IfOk result (λ it. Calls Done (Does (creates (N.text name)))
        (D.seen held.old.folder) (D.seen it.held.now.folder)) }
    ensures file { IfOk result (λ it. Has (D.seen it.held.now.folder) (N.text name)
        (N.text it.name)) }
    ensures plain { IfErr result IsPlain }
{
    held.folder.create(alloc, name.text())?;
    Ok(Fresh { held, name })
}

/// Makes the file of a name that is there firm, by one `firm`. Where that fails the loan ends.
#[tactic(auto, using(crate::proofs::FirmLaws::firm_done))]
pub fn firm_there<'a, D: Folder, N: Named + Copy>(
    held: &'a mut Held<D>,
    name: N,
) -> Result<Firm<'a, D, N>, Failed>
    requires { IsFile (D.seen held.old.folder) (N.text name) }
    ensures* rests { sem 𝓛 (RestsIfErr (the_row D.row) held.entry (λ it. it.held.ghost_name) result
        (λ n. Calls (ends result) (DoesOrNot (firms (N.text name))) (D.seen held.old.folder)
        (D.seen n.folder))) }
    ensures same_reference { HoldsLoan result (λ it. it.held) held.entry }
    ensures calls { IfOk result (λ it. Calls Done (DoesOrNot (firms (N.text name)))
        (D.seen held.old.folder) (D.seen it.held.now.folder)) }
    ensures firm { IfOk result (λ it. HasFirm (D.seen it.held.now.folder) (N.text name)
        (N.text it.name)) }
{
    let text = name.text();
    held.folder.firm(text)?;
    Ok(Firm { held, name })
}

impl<'a, D: Folder, N: Named + Copy> Fresh<'a, D, N> {
    /// Adds bytes at the end of the file, by one `append`. Where that gives no answer the file is spent and the loan ends; the fault is `Failed` or `NoMemory`.
    #[tactic(auto, using(pl_folder::proofs::FolderLaws::there))]
    pub fn write(self, alloc: Global, bytes: &[u8]) -> Result<Fresh<'a, D, N>, FolderFault>
        requires { IsFile (D.seen self.held.now.folder) (N.text self.name) }
        ensures* rests { sem 𝓛 (RestsIfErr (the_row D.row) self.entry.held
            (λ it. it.held.ghost_name) result
            (λ n. Calls (ending result) (Appends (N.text self.entry.name) bytes.now)
            (D.seen self.entry.held.now.folder) (D.seen n.folder))) }
        ensures same_reference { HoldsLoan result (λ it. it.held) self.entry.held }
        ensures calls { IfOk result (λ it. Calls Done (Appends (N.text self.entry.name) bytes.now)
            (D.seen self.entry.held.now.folder) (D.seen it.held.now.folder)) }
        ensures file { IfOk result (λ it. Has (D.seen it.held.now.folder) (N.text self.entry.name)
            (N.text it.name)) }
        ensures plain { IfErr result IsPlain }
    {
        let Fresh { held, name } = self;
        held.folder.append(alloc, name.text(), bytes)?;
        Ok(Fresh { held, name })
    }

    /// Makes the file firm, by one `firm`. Where that fails the file is spent and the loan ends.
    #[tactic(auto, using(crate::proofs::FirmLaws::firm_done))]
    pub fn firm(self) -> Result<Firm<'a, D, N>, Failed>
        requires { IsFile (D.seen self.held.now.folder) (N.text self.name) }
        ensures* rests { sem 𝓛 (RestsIfErr (the_row D.row) self.entry.held
            (λ it. it.held.ghost_name) result
            (λ n. Calls (ends result) (DoesOrNot (firms (N.text self.entry.name)))
            (D.seen self.entry.held.now.folder) (D.seen n.folder))) }
        ensures same_reference { HoldsLoan result (λ it. it.held) self.entry.held }
        ensures calls { IfOk result (λ it. Calls Done (DoesOrNot (firms (N.text self.entry.name)))
            (D.seen self.entry.held.now.folder) (D.seen it.held.now.folder)) }
        ensures firm { IfOk result (λ it. HasFirm (D.seen it.held.now.folder)
            (N.text self.entry.name) (N.text it.name)) }
    {
        let Fresh { held, name } = self;
        held.folder.firm(name.text())?;
        Ok(Firm { held, name })
    }
}

impl<'a, D: Folder, N: Named + Copy> Firm<'a, D, N> {
    /// Gives the file, which is firm, another name, in place of a file that has it, by one `rename`, and ends the loan.
    pub fn name_as(self, to: &str) -> Result<(), Failed>
        requires firm { IsFirmFile (D.seen self.held.now.folder) (N.text self.name) }
        requires length { IsNameLength to.now }
        ensures { Calls (ends result) (Does (renames (N.text self.entry.name) to.now))
            (D.seen self.entry.held.now.folder) (D.seen self.exit.0.now.folder) }
    {
        let Firm { held, name } = self;
        held.folder.rename(name.text(), to)
    }

    /// Ends the loan.
    pub fn leave(self)
        ensures { self.exit.0.now ≡ self.entry.held.now }
    {
        let Firm { held: _, name: _ } = self;
    }
}
