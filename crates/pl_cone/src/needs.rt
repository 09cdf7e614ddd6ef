// The names that the files of a folder need, by numbers.
ghost use Rattle.std.specs.Prelude.{◌≡◌, [], IfOk, OnOk};
ghost use Rattle.pl_cone.specs.Needs as spec;
ghost use Rattle.pl_cone.specs.Taken.{WereTaken, names_of};

use crate::Taken;
use pl_base::Text;
use pl_io::NoMemory;
use std::alloc::{AllocError, Global};
use std::collections::BTreeMap;

/// The names that the files of a folder have and need, each once, by numbers: a file's own name has the number of its row, and the names without files follow.
#[derive(Drop)]
pub struct Needs<'f> {
    pub files: &'f [Taken],

    /// The names in the order of their numbers.
    pub names: Vec<&'f str>,

    /// For each file, in their order, the numbers of the names that its object needs, in their order; none where it has no object.
    pub needed: Vec<Vec<u32>>,
}

/// Names with their numbers, under way.
#[derive(Drop)]
struct Numbering<'f> {
    numbers: BTreeMap<&'f str, u32>,

    /// The names in the order of their numbers.
    names: Vec<&'f str>,
}

impl<'f> Numbering<'f> {
    /// The number of a name, the next one where it has none yet. There are fewer than 2^32 - 1 numbers: want of memory comes before that.
    fn number(&mut self, name: &'f str) -> Result<u32, NoMemory>
        requires { spec.IsNumbering self.old }
        ensures number { IfOk result (spec.HasNumber self.new name.now) }
        ensures goes_on { OnOk result (spec.GoesOn self.old self.new) }
        ensures adds { OnOk result (spec.AddsName name.now self.old self.new) }
    {
        if let Some(number) = self.numbers.get(name) {
            return Ok(*number);
        }
        if self.names.len() >= 4_294_967_295 {
            return Err(NoMemory);
        }
        let number = self.names.len() as u32;
        self.numbers.insert(name, number)?;
        self.names.push(name)?;
        Ok(number)
    }

    fn number_files(&mut self, files: &'f [Taken]) -> Result<(), NoMemory>
        requires files { WereTaken files.now }
        requires numbers { spec.AreNumbers self.old.numbers [] }
        requires names { self.old.names.items ≡ [] }
        ensures numbering { OnOk result (spec.IsNumbering self.new) }
        ensures names { OnOk result (spec.words_in self.new ≡ names_of files.now) }
    {
        for taken in files {
            self.number(taken.name.as_str())?;
        }
        Ok(())
    }

    fn numbers_of(&mut self, alloc: Global, needed: &'f [Text]) -> Result<Vec<u32>, NoMemory>
        requires { spec.IsNumbering self.old }
        ensures told { IfOk result (λ v. spec.Tell (spec.words_in self.new) needed.now v.items) }
        ensures goes_on { OnOk result (spec.GoesOn self.old self.new) }
    {
        let mut told = Vec::new(alloc);
        for name in needed {
            told.push(self.number(name.as_str())?)?;
        }
        Ok(told)
    }

    fn all_needed(&mut self, alloc: Global, files: &'f [Taken]) -> Result<Vec<Vec<u32>>, NoMemory>
        requires { spec.IsNumbering self.old }
        ensures told { IfOk result (λ v. spec.TellAll files.now (spec.words_in self.new)
            (spec.items_of v.items)) }
        ensures goes_on { OnOk result (spec.GoesOn self.old self.new) }
    {
        let mut needed = Vec::new(alloc);
        for taken in files {
            needed.push(self.numbers_of(alloc, needed_by(taken))?)?;
        }
        Ok(needed)
    }
}

fn needed_by(taken: &Taken) -> &[Text]
    ensures { result.now ≡ spec.needed_by taken.now }
{
    match taken.object() {
        None => &[],
        Some(object) => object.needed.as_slice(),
    }
}

/// The numbers of all names that the files of a folder have and need. No name stands twice in `files`. The time grows as `n log n` with the names. It fails only for want of memory.
pub fn needs_of<'f>(alloc: Global, files: &'f [Taken]) -> Result<Needs<'f>, NoMemory>
    requires { WereTaken files.now }
    ensures files { IfOk result (λ needs. needs.files.now ≡ files.now) }
    ensures needs { IfOk result spec.AreNeeds }
{
    let numbers = BTreeMap::new(alloc);
    let names = Vec::new(alloc);
    let mut numbering = Numbering { numbers, names };
    numbering.number_files(files)?;
    let needed = numbering.all_needed(alloc, files)?;
    let Numbering { names, .. } = numbering;
    Ok(Needs {
        files,
        names,
        needed,
    })
}

impl<'f> Needs<'f> {
    /// A copy of the name of a number.
    pub fn name(&self, alloc: Global, number: u32) -> Result<Text, AllocError>
        ensures { IfOk result (λ name. name ≡ spec.name_of self.now number) }
    {
        match self.names.get(number as usize) {
            None => Text::copy_of(alloc, ""),
            Some(name) => Text::copy_of(alloc, name),
        }
    }

    /// The numbers of the names that the object of a row needs.
    pub fn of_row(&self, row: u32) -> &[u32]
        ensures { result.now ≡ spec.needed_at self.now row }
    {
        match self.needed.get(row as usize) {
            None => &[],
            Some(needed) => needed.as_slice(),
        }
    }
}
