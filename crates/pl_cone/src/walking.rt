// The walks of all names, by the numbers of their rows.
ghost use Rattle.std.specs.Prelude.{◌≡◌, ◌<◌, ◌+◌, Some, Ok, Err, IfOk, IfErr, OnOk, length};
ghost use Rattle.pl_base.specs.Answers.{Answers, AnswersAs};
ghost use Rattle.pl_base.specs.Each.{run};
ghost use Rattle.pl_cone.specs.Skips.{skip_is_memory};
ghost use Rattle.pl_cone.specs.Table as table;
ghost use Rattle.pl_cone.specs.Needs as spec;
ghost use Rattle.pl_cone.specs.Taken.{WereTaken};

use crate::needs::{Needs, needs_of};
use crate::skip::unless_memory;
use crate::{Skip, Taken};
use pl_base::{Rows, Text};
use pl_form::{Entry, File};
use pl_io::NoMemory;
use pl_object::Object;
use pl_scope::MAX_MEMBERS;
use std::alloc::{AllocError, Global};

/// The walks of the names of all files, and why some are refused.
#[derive(Drop)]
pub struct FolderWalks {
    /// For each file, in their order, the rows of the members of its name's walk, in the order of the walk, its own first; none where the walk is refused.
    pub walks: Rows<Rows<u32>>,

    /// For each file the first cause why its walk is refused, if there is one. It is no want of memory.
    pub causes: Rows<Option<Skip>>,
}

/// A walk that is under way, one of several over the same names.
#[derive(Drop)]
pub struct NumberWalk {
    /// The numbers of the names so far, in their order.
    pub numbers: Vec<u32>,

    /// For each number of a name the last walk that had it, 0 where none did.
    pub last: Vec<u32>,

    /// Which walk it is, from 1 on.
    pub walk: u32,
}

fn object_of<'f>(alloc: Global, needs: &Needs<'f>, number: u32) -> Result<&'f Object, Skip>
    ensures ok { IfOk result (λ object. spec.object_by_number needs.now number ≡ Ok object.now) }
    ensures err { IfErr result (λ skip. Answers skip_is_memory (Err skip)
        (spec.object_by_number needs.now number)) }
{
    let Some(taken) = needs.files.get(number as usize) else {
        return Err(Skip::NotThere(needs.name(alloc, number)?));
    };
    match &taken.entry {
        Entry::There(File::Plain(object)) => Ok(object),
        Entry::There(File::Marked(marked)) => Ok(&marked.object),
        Entry::BadMark => Err(Skip::BadMark(Text::copy_of(alloc, taken.name.as_str())?)),
        Entry::Refused { number, argument } => Err(Skip::Refused {
            name: Text::copy_of(alloc, taken.name.as_str())?,
            number: *number,
            argument: *argument,
        }),
    }
}

fn is_program_row(needs: &Needs<'_>, row: u32) -> bool
    ensures { result ≡ spec.is_program_row needs.now (Some row) }
{
    match needs.files.get(row as usize) {
        None => false,
        Some(taken) => match taken.object() {
            None => false,
            Some(object) => object.kind.is_program(),
        },
    }
}

impl NumberWalk {
    /// Begins the walk of a row. It takes no time for the names of walks before it.
    fn begin(&mut self, needs: &Needs<'_>, row: u32) -> Result<(), AllocError>
        requires needs { spec.AreNeeds needs.now }
        requires walking { spec.MayBeginNext needs.now row self.old }
        requires row { row < length (spec.all_names needs.now) }
        ensures ready { spec.MayBeginNext needs.now (row + 1) self.new }
        ensures begun { OnOk result (spec.HasBegun needs.now row self.new) }
    {
        self.walk = row + 1;
        self.numbers.clear();
        self.numbers.push(row)?;
        self.last[row as usize] = self.walk;
        Ok(())
    }

    /// Adds a name at the end, where it is new. `TooMany` comes where it would be one too many; the walk is then as before.
    fn add(&mut self, alloc: Global, needs: &Needs<'_>, number: u32) -> Result<(), Skip>
        requires walking { spec.IsUnderWay needs.now self.old }
        requires number { number < length (spec.all_names needs.now) }
        ensures walking { spec.IsNumberWalk needs.now self.new }
        ensures more { spec.IsMore self.old self.new }
        ensures names { AnswersAs (λ _. spec.walk_names needs.now self.new) skip_is_memory result
            (spec.added needs.now (spec.walk_names needs.now self.old) number) }
    {
        if self.last[number as usize] == self.walk {
            return Ok(());
        }
        if self.numbers.len() >= MAX_MEMBERS {
            return Err(Skip::TooMany(needs.name(alloc, number)?));
        }
        self.numbers.push(number)?;
        self.last[number as usize] = self.walk;
        Ok(())
    }

    fn append(&mut self, alloc: Global, needs: &Needs<'_>, needed: &[u32]) -> Result<(), Skip>
        requires walking { spec.IsUnderWay needs.now self.old }
        requires needed { spec.AreNameNumbers needs.now needed.now }
        ensures walking { spec.IsNumberWalk needs.now self.new }
        ensures more { spec.IsMore self.old self.new }
        ensures names { AnswersAs (λ _. spec.walk_names needs.now self.new) skip_is_memory result
            (run (spec.added needs.now) (spec.walk_names needs.now self.old) needed.now) }
    {
        for number in needed {
            self.add(alloc, needs, *number)?;
        }
        Ok(())
    }

    /// Refuses the object of a number after the first that is no library, or that needs the first, which is a program.
    fn check(
        &self,
        alloc: Global,
        needs: &Needs<'_>,
        index: usize,
        object: &Object,
    ) -> Result<(), Skip>
        requires walking { spec.IsUnderWay needs.now self.now }
        requires index { index < length self.now.numbers.items }
        requires object { spec.IsObjectAt needs.now index self.now object.now }
        ensures { Answers skip_is_memory result (spec.checked needs.now index self.now object.now) }
    {
        if index == 0 {
            return Ok(());
        }
        let number = self.numbers[index];
        if !object.kind.is_library() {
            return Err(Skip::NeededIsProgram(needs.name(alloc, number)?));
        }
        let first = self.numbers[0];
        if is_program_row(needs, first) && needs.of_row(number).contains(&first) {
            return Err(Skip::NeededIsProgram(needs.name(alloc, first)?));
        }
        Ok(())
    }

    /// Gives the name of an index, if there is one, its object: the names that it needs are appended.
    fn enter(&mut self, alloc: Global, needs: &Needs<'_>, index: usize) -> Result<(), Skip>
        requires { spec.IsUnderWay needs.now self.old }
        ensures walking { spec.IsNumberWalk needs.now self.new }
        ensures more { spec.IsMore self.old self.new }
        ensures state { AnswersAs (λ _. spec.state_after needs.now index self.new) skip_is_memory
            result (spec.entered needs.now index self.old) }
    {
        if index >= self.numbers.len() {
            return Ok(());
        }
        let number = self.numbers[index];
        let object = object_of(alloc, needs, number)?;
        self.check(alloc, needs, index, object)?;
        self.append(alloc, needs, needs.of_row(number))
    }

    fn walk_of(&mut self, alloc: Global, needs: &Needs<'_>, row: u32) -> Result<Rows<u32>, Skip>
        requires folder { spec.AreNumberedFiles needs.now }
        requires walking { spec.MayBeginNext needs.now row self.old }
        requires row { row < length needs.now.files.now }
        ensures walking { spec.MayBeginNext needs.now (row + 1) self.new }
        ensures ok { IfOk result (table.IsWalkAt needs.now.files.now row) }
        ensures err { IfErr result (λ skip. Answers skip_is_memory (Err skip)
            (table.walk_at needs.now.files.now row)) }
    {
        self.begin(needs, row)?;
        for index in 0..MAX_MEMBERS {
            self.enter(alloc, needs, index)?;
        }
        let rows = Vec::from_slice(alloc, &self.numbers)?;
        Ok(Rows::from_vec(rows))
    }
}

fn add_walk(
    alloc: Global,
    walks: &mut FolderWalks,
    walk: Result<Rows<u32>, Skip>,
) -> Result<(), NoMemory>
    ensures { spec.AddsWalk walk walks.old walks.new result }
{
    let (rows, cause) = match walk {
        Ok(rows) => (rows, None),
        Err(skip) => (Rows::new(alloc), Some(unless_memory(skip)?)),
    };
    walks.causes.push(cause)?;
    walks.walks.push(rows)?;
    Ok(())
}

/// The walk of the name of each file, by the rows of its members, or the first refusal, as `walk` of pl_scope has it over the originals. Each walk is made once. It fails only for want of memory.
///
/// No name stands twice in `files`.
pub fn walks_of(alloc: Global, files: &[Taken]) -> Result<FolderWalks, NoMemory>
    requires { WereTaken files.now }
    ensures { IfOk result (table.AreWalks files.now) }
{
    let needs = needs_of(alloc, files)?;
    let mut walking = NumberWalk {
        numbers: Vec::new(alloc),
        last: Vec::from_elem(alloc, 0, needs.names.len())?,
        walk: 0,
    };
    let mut walks = FolderWalks {
        walks: Rows::new(alloc),
        causes: Rows::new(alloc),
    };
    for row in 0..files.len() {
        let walk = walking.walk_of(alloc, &needs, row as u32);
        add_walk(alloc, &mut walks, walk)?;
    }
    Ok(walks)
}
