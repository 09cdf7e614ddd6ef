// The scope of a walk that is worked on, and what is asked of its members: their thread-local storage, what their references find, and whether their relocations have values.
ghost use Rattle.std.specs.Prelude.{◌≡◌, ◌<◌, ◌≤◌, IfOk, None, length, map, replicate};
ghost use Rattle.pl_base.specs.Answers.{Answers};
ghost use Rattle.pl_cone.specs.Candidates as candidates;
ghost use Rattle.pl_cone.specs.Links as spec;
ghost use Rattle.pl_cone.specs.Table as table;
ghost use Rattle.pl_cone.specs.Taken.{WereTaken};
ghost use Rattle.pl_scope.specs.Folder.{IsIndexAmong};
ghost use Rattle.pl_scope.specs.Scope.{objects, AreReferences, IsSymbol};
ghost use Rattle.pl_tls.specs.Layout.{is_memory, offsets};
ghost use Rattle.pl_value.specs.Definers.{IsSought};
ghost use Rattle.pl_value.specs.Meanings as value;
ghost use Rattle.pl_value.specs.Values.{reference};

use crate::{Link, Skip, Taken};
use pl_base::{Rows, Text};
use pl_object::Reloc;
use pl_scope::{Among, Found, Index, Member, Reference, Scope, find_among};
use pl_tls::{Module, TlsFault, offsets};
use pl_value::{LinkFault, Places, named_fault, reference_of, word_of};
use std::alloc::{AllocError, Global};

/// The scope of a walk, with where the rows of the folder stand in it.
#[derive(Drop)]
pub struct WalkScope<'f> {
    /// The members of the walk.
    pub scope: Scope<'f>,

    /// For each row of the folder the member that it is, if it is one.
    pub positions: Vec<Option<u32>>,
}

fn scope_of<'f>(alloc: Global, files: &'f [Taken], rows: &[u32]) -> Result<Scope<'f>, AllocError>
    requires files { WereTaken files.now }
    requires rows { table.AreRows files.now rows.now }
    ensures { IfOk result (λ scope. scope ≡ table.walked_by files.now rows.now) }
{
    let mut members = Vec::new(alloc);
    for row in rows {
        let taken = &files[*row as usize];
        if let Some(object) = taken.object() {
            let name = Text::copy_of(alloc, taken.name.as_str())?;
            members.push(Member { name, object })?;
        }
    }
    Ok(Scope::new(members))
}

fn positions_of(alloc: Global, count: usize, rows: &[u32]) -> Result<Vec<Option<u32>>, AllocError>
    requires within { table.AreBelow count rows.now }
    requires few { length rows.now ≤ 256 }
    ensures { IfOk result (λ v. v.items ≡ table.positions_of count rows.now) }
{
    let mut positions = vec![in alloc; None; count]?;
    for member in 0..rows.len() {
        positions[rows[member] as usize] = Some(member as u32);
    }
    Ok(positions)
}

impl<'f> WalkScope<'f> {
    /// The scope of a walk of a folder, by the rows of its members. It fails only for want of memory.
    pub fn of(alloc: Global, files: &'f [Taken], rows: &[u32]) -> Result<WalkScope<'f>, AllocError>
        requires files { WereTaken files.now }
        requires rows { table.AreRows files.now rows.now }
        ensures { IfOk result (table.IsWalkScope files.now rows.now) }
    {
        let scope = scope_of(alloc, files, rows)?;
        let positions = positions_of(alloc, files.len(), rows)?;
        Ok(WalkScope { scope, positions })
    }

    /// The index of the folder with where its rows stand here.
    pub fn among<'i>(&'i self, index: &'i Index) -> Among<'i>
        ensures index { result.index.now ≡ index.now }
        ensures positions { result.positions.now ≡ self.now.positions.items }
    {
        Among {
            index,
            positions: self.positions.as_slice(),
        }
    }

    /// A place for each member, all at 0: no link refusal asks where a member is loaded. It fails only for want of memory.
    pub fn zeros(&self, alloc: Global) -> Result<Places, AllocError>
        ensures { IfOk result (λ places. places ≡ candidates.zeros self.now.scope) }
    {
        let rows = vec![in alloc; 0; self.scope.count() as usize]?;
        Ok(Places::new(Rows::from_vec(rows)))
    }
}

/// The modules of thread-local storage of the members, or that an offset is too great, or a want of memory.
pub fn modules_of(alloc: Global, scope: &Scope<'_>) -> Result<Rows<Module>, TlsFault>
    ensures { Answers is_memory result (offsets (candidates.blocks scope.now)) }
{
    let members = scope.members();
    let mut blocks = Rows::new(alloc);
    for member in members {
        blocks.push(member.object.tls)?;
    }
    offsets(alloc, blocks.as_slice())
}

/// What the symbol of a reference finds, by the index of the folder. Symbol 0 is no reference.
pub fn sought(scope: &Scope<'_>, reference: Reference, among: &Among<'_>) -> Option<Found>
    requires reference { IsSymbol (objects scope.now) reference.member reference.symbol }
    requires index { IsIndexAmong (objects scope.now) among.now }
    ensures { IsSought (objects scope.now) reference result }
{
    if reference.symbol == 0 {
        return None;
    }
    find_among(scope, reference, among)
}

/// A program's walk that is linked: its scope, the places of its members, their modules of thread-local storage, and the index of the folder.
#[derive(Clone, Copy)]
pub struct WalkLinking<'s, 'f> {
    pub scope: &'s Scope<'f>,
    pub places: &'s Places,
    pub modules: &'s [Module],
    pub among: Among<'s>,
}

impl WalkLinking<'_, '_> {
    fn refused(&self, alloc: Global, fault: LinkFault) -> Result<Skip, AllocError>
        ensures { IfOk result (λ skip. skip ≡ candidates.of_link self.now.scope.now fault) }
    {
        let named = named_fault(alloc, self.scope.members(), fault)?;
        Ok(Skip::Link(named))
    }

    #[tactic(auto, unfolding(pl_value::specs::Meanings::meaning))]
    fn valued(&self, member: u32, reloc: &Reloc) -> Result<Option<Found>, LinkFault>
        requires linking { spec.IsLinking self.now }
        requires reference { IsSymbol (spec.objects_of self.now) member reloc.now.symbol }
        ensures value { spec.done result ≡ spec.row_has_in self.now (value.row member reloc.now) }
        ensures found { IfOk result (IsSought (spec.objects_of self.now)
            (reference member reloc.now)) }
    {
        let found = sought(self.scope, reference_of(member, reloc), &self.among);
        word_of(self.scope, self.places, self.modules, member, reloc, found)?;
        Ok(found)
    }

    fn first_found(&self, alloc: Global) -> Result<Rows<Option<Found>>, Skip>
        requires linking { spec.IsLinking self.now }
        requires some { 0 < length self.now.scope.now }
        ensures { spec.FindsOwn self.now result }
    {
        let relocs = self.scope.object(0).relocations.as_slice();
        let mut all = Rows::new(alloc);
        for reloc in relocs {
            match self.valued(0, reloc) {
                Ok(found) => all.push(found)?,
                Err(fault) => return Err(self.refused(alloc, fault)?),
            }
        }
        Ok(all)
    }

    /// The first of the remaining relocations of a member without a value; those that do not remain have one.
    fn member_has_values(
        &self,
        member: u32,
        relocs: &[Reloc],
        remaining: &[u32],
    ) -> Result<(), LinkFault>
        requires linking { spec.IsLinking self.now }
        requires references { AreReferences self.now.scope.now member relocs.now }
        requires remaining { spec.TellsOf self.now member relocs.now remaining.now }
        ensures { result ≡ spec.rows_have_in self.now (map (value.row member) relocs.now) }
    {
        for index in remaining {
            if let Some(reloc) = relocs.get(*index as usize) {
                self.valued(member, reloc)?;
            }
        }
        Ok(())
    }

    /// The first relocation of the members after the first without a value. `links` has the remaining ones of the file of each row of the walk.
    fn others_have_values(&self, walk: &[u32], links: &[Link]) -> Result<(), LinkFault>
        requires linking { spec.IsLinking self.now }
        requires walk { spec.HaveLinks self.now.scope.now walk.now links.now }
        requires links { spec.TellOfOthers self.now walk.now links.now }
        ensures { result ≡ spec.others_have self.now }
    {
        for member in 1..self.scope.count() {
            let relocs = self.scope.object(member).relocations.as_slice();
            let remaining = links[walk[member as usize] as usize].remaining.as_slice();
            self.member_has_values(member, relocs, remaining)?;
        }
        Ok(())
    }

    /// What the relocations of the first member find, a program that is linked at 0; or the first of the walk that has no value. A program has no remaining ones.
    pub(crate) fn linked(&self, alloc: Global, walk: &[u32], links: &[Link]) -> Result<Link, Skip>
        requires linking { spec.IsLinkingAtZero self.now }
        requires links { spec.MayLink self.now.scope.now walk.now links.now }
        ensures { spec.LinksProgram self.now.scope.now result }
    {
        let found = self.first_found(alloc)?;
        let remaining = Rows::new(alloc);
        match self.others_have_values(walk, links) {
            Ok(()) => Ok(Link { found, remaining }),
            Err(fault) => Err(self.refused(alloc, fault)?),
        }
    }
}
