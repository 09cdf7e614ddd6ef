// Which names may be prelinked, what their relocations find, and which of a library's give the same in every walk.
ghost use Rattle.std.specs.Prelude.{◌≡◌, ◌<◌, [], Some, true, false, IfOk, OnOk, length};
ghost use Rattle.std.specs.Bool.{OnTrue};
ghost use Rattle.pl_base.specs.Answers.{Answers};
ghost use Rattle.pl_scope.specs.Finds.{finds};
ghost use Rattle.pl_scope.specs.Scope.{objects, IsSymbol};
ghost use Rattle.pl_value.specs.Definers.{IsSought};
ghost use Rattle.pl_value.specs.Values as value;
ghost use Rattle.pl_cone.specs.Candidates as candidates;
ghost use Rattle.pl_cone.specs.Linking as spec;
ghost use Rattle.pl_cone.specs.Links as by_walk;
ghost use Rattle.pl_cone.specs.OneWord as one_word;
ghost use Rattle.pl_cone.specs.OneSymbol as one_symbol;
ghost use Rattle.pl_cone.specs.Skips.{skip_is_memory};
ghost use Rattle.pl_cone.specs.Table as table;
ghost use Rattle.pl_cone.specs.Taken.{WereTaken};

use crate::scopes::{WalkLinking, modules_of, sought};
use crate::skip::unless_memory;
use crate::{Skip, Taken, WalkScope};
use pl_base::{Rows, Text};
use pl_elf::constants::{
    R_X86_64_64, R_X86_64_GLOB_DAT, R_X86_64_JUMP_SLOT, R_X86_64_NONE, R_X86_64_RELATIVE,
};
use pl_io::NoMemory;
use pl_object::Reloc;
use pl_scope::{Found, Index, Reference, Scope, own_symbol};
use pl_value::reference_of;
use std::alloc::Global;

/// What the own relocations of a file's object find by the walk of its name.
#[derive(Drop)]
pub struct Link {
    /// For each of them, in their order, the symbol that it finds among the members of the walk, if it finds one.
    pub found: Rows<Option<Found>>,

    /// Of a library the indexes, ascending, of those that are not known to give the same in every walk which holds the library. A program has none.
    pub remaining: Rows<u32>,
}

impl Link {
    /// Of no relocations.
    pub fn none(alloc: Global) -> Link
        ensures found { result.found ≡ [] }
        ensures remaining { result.remaining ≡ [] }
    {
        let found = Rows::new(alloc);
        let remaining = Rows::new(alloc);
        Link { found, remaining }
    }
}

/// The files of a folder with their walks, and the index of what they define.
#[derive(Clone, Copy)]
pub struct WalkedFiles<'t> {
    pub files: &'t [Taken],
    pub walks: &'t [Rows<u32>],
    pub index: &'t Index,
}

/// What the relocations of files find, and why some may not be prelinked.
#[derive(Drop)]
pub struct Linked {
    /// For each file, in their order, what its own relocations find; of no relocations where it may not be prelinked.
    pub links: Vec<Link>,

    /// For each file the first cause why it may not be prelinked, if there is one.
    pub causes: Vec<Option<Skip>>,
}

fn is_static(taken: &Taken) -> bool
    ensures { result ≡ spec.is_static_entry taken.now.entry }
{
    match taken.object() {
        None => false,
        Some(object) => object.kind.is_static(),
    }
}

fn all_formed(alloc: Global, files: &[Taken], walk: &[u32]) -> Result<(), Skip>
    requires files { WereTaken files.now }
    requires walk { table.AreRows files.now walk.now }
    ensures { Answers skip_is_memory result (candidates.all_formed (table.faults_of files.now)
        (table.names_by files.now walk.now)) }
{
    for row in walk {
        let taken = &files[*row as usize];
        if let Some(number) = taken.fault {
            let name = Text::copy_of(alloc, taken.name.as_str())?;
            return Err(Skip::Form { name, number });
        }
    }
    Ok(())
}

#[tactic(auto, unfolding(crate::specs::OneWord::is_of_address))]
fn is_of_address(kind: u32) -> bool
    ensures { result ≡ one_word.is_of_address kind }
{
    kind == R_X86_64_64 || kind == R_X86_64_GLOB_DAT || kind == R_X86_64_JUMP_SLOT
}

#[tactic(auto, unfolding(crate::specs::OneWord::is_without_symbol))]
fn is_without_symbol(kind: u32) -> bool
    ensures { result ≡ one_word.is_without_symbol kind }
{
    kind == R_X86_64_RELATIVE || kind == R_X86_64_NONE
}

/// Whether a reference of the first member finds a symbol with an address, and no second symbol of the folder is defined under the hash of its name.
fn is_settled(index: &Index, own: &Scope<'_>, reference: Reference, found: Found) -> bool
    requires reference { IsSymbol (objects own.now) reference.member reference.symbol }
    requires found { finds (objects own.now) reference ≡ Some found }
    ensures { OnTrue result (one_symbol.FindsOneSymbolBy index.now (objects own.now) reference) }
{
    let object = own.object(found.member);
    let symbol = &object.symbols.as_slice()[found.symbol as usize];
    if symbol.is_tls() {
        return false;
    }
    let name = own_symbol(own, reference).name.as_slice();
    !index.may_share(name)
}

/// Whether a relocation of a library, the first member of its own walk, is known to give the same in every walk of the folder that holds the library: it refers to no symbol, or it gives the address of a symbol that it finds in the own walk, that is not thread-local, and that alone of the folder is defined under the hash of its name. `found` is what it finds there.
fn gives_one_word(index: &Index, own: &Scope<'_>, reloc: &Reloc, found: Option<Found>) -> bool
    requires reference { IsSymbol (objects own.now) 0 reloc.now.symbol }
    requires found { IsSought (objects own.now) (value.reference 0 reloc.now) found }
    ensures { OnTrue result (one_word.GivesOneWordBy index.now (objects own.now) reloc.now) }
{
    if is_without_symbol(reloc.kind) {
        return true;
    }
    if !is_of_address(reloc.kind) {
        return false;
    }
    if reloc.symbol == 0 {
        return true;
    }
    match found {
        None => false,
        Some(found) => is_settled(index, own, reference_of(0, reloc), found),
    }
}

/// What the relocations of the first member of a walk find there, and which of them remain: which are not known to give the same in every walk. It fails only for want of memory, as which 2^32 relocations count too.
pub fn library_link(alloc: Global, own: &WalkScope<'_>, index: &Index) -> Result<Link, NoMemory>
    requires some { 0 < length own.now.scope }
    requires index { table.IsIndexOfScope own.now index.now }
    ensures { IfOk result (by_walk.IsLinkOf index.now own.now.scope) }
{
    let among = own.among(index);
    let relocs = own.scope.object(0).relocations.as_slice();
    if relocs.len() > u32::MAX as usize {
        return Err(NoMemory);
    }
    let mut found = Rows::new(alloc);
    let mut remaining = Rows::new(alloc);
    for number in 0..relocs.len() {
        let reloc = &relocs[number];
        let symbol = sought(&own.scope, reference_of(0, reloc), &among);
        if !gives_one_word(index, &own.scope, reloc, symbol) {
            remaining.push(number as u32)?;
        }
        found.push(symbol)?;
    }
    Ok(Link { found, remaining })
}

/// What the relocations of a program, the first member of its walk, find there; or the first of the walk that has no value, or that thread-local storage is too large.
fn program_link(
    alloc: Global,
    index: &Index,
    links: &[Link],
    walk: &[u32],
    own: &WalkScope<'_>,
) -> Result<Link, Skip>
    requires index { table.IsIndexOfScope own.now index.now }
    requires links { by_walk.MayLink own.now.scope walk.now links.now }
    ensures { by_walk.LinksProgram own.now.scope result }
{
    let modules = modules_of(alloc, &own.scope)?;
    let places = own.zeros(alloc)?;
    let linking = WalkLinking {
        scope: &own.scope,
        places: &places,
        modules: modules.as_slice(),
        among: own.among(index),
    };
    linking.linked(alloc, walk, links)
}

fn put_cause(cause: &mut Option<Skip>, skip: Skip) -> Result<(), NoMemory>
    ensures put { OnOk result (cause.new ≡ Some skip) }
    ensures told { OnOk result (skip_is_memory skip ≡ false) }
{
    drop(cause.replace(unless_memory(skip)?));
    Ok(())
}

impl WalkedFiles<'_> {
    /// What the own relocations of a row's file find; or the first cause why its name may not be prelinked. For a program `links` has those of all libraries that may be prelinked.
    fn link_of(&self, alloc: Global, links: &[Link], row: usize) -> Result<Link, Skip>
        requires { spec.MayLinkRow self.now row links.now }
        ensures { spec.LinksRow self.now row result }
    {
        let taken = &self.files[row];
        let walk = self.walks[row].as_slice();
        if is_static(taken) {
            return Err(Skip::Static(Text::copy_of(alloc, taken.name.as_str())?));
        }
        all_formed(alloc, self.files, walk)?;
        let own = WalkScope::of(alloc, self.files, walk)?;
        if taken.is_library() {
            Ok(library_link(alloc, &own, self.index)?)
        } else {
            program_link(alloc, self.index, links, walk, &own)
        }
    }

    fn link_row(&self, alloc: Global, linked: &mut Linked, row: usize) -> Result<(), NoMemory>
        requires { spec.IsNextRow self.now row linked.old }
        ensures { OnOk result (spec.IsPut self.now linked.old linked.new row) }
    {
        if linked.causes[row].is_some() {
            return Ok(());
        }
        match self.link_of(alloc, &linked.links, row) {
            Ok(link) => linked.links[row] = link,
            Err(skip) => put_cause(&mut linked.causes[row], skip)?,
        }
        Ok(())
    }

    /// Links the libraries, or all other files, whose walks are not refused.
    fn link_rows(&self, alloc: Global, linked: &mut Linked, libraries: bool) -> Result<(), NoMemory>
        requires walked { spec.IsWalked self.now }
        requires linked { spec.HaveLinked libraries self.now 0 linked.old }
        ensures { OnOk result (spec.HaveLinked libraries self.now (length self.now.files.now)
            linked.new) }
    {
        for row in 0..self.files.len() {
            if self.files[row].is_library() == libraries {
                self.link_row(alloc, linked, row)?;
            }
        }
        Ok(())
    }

    /// For each file what its own relocations find by its walk, and the first cause why its name may not be prelinked, as `prelinkable` has it; `causes` tells it of those whose walks are refused. Each own relocation is looked up once, and each remaining one of a library once for each program whose walk has it. It fails only for want of memory.
    pub fn links_of(&self, alloc: Global, causes: Rows<Option<Skip>>) -> Result<Linked, NoMemory>
        requires walked { spec.IsWalked self.now }
        requires causes { causes ≡ table.refusals_in self.now.files.now }
        ensures { IfOk result (spec.AreLinked self.now) }
    {
        let mut links = Vec::new(alloc);
        for _row in 0..self.files.len() {
            links.push(Link::none(alloc))?;
        }
        let causes = causes.into_vec();
        let mut linked = Linked { links, causes };
        self.link_rows(alloc, &mut linked, true)?;
        self.link_rows(alloc, &mut linked, false)?;
        Ok(linked)
    }
}
