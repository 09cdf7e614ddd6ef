ghost use Rattle.std.specs.Prelude.{◌≡◌, ◌<◌, ◌^◌, length, None, Ok, Err, IsSome, IfOk, IfErr, OnOk, OnErr};
ghost use Rattle.std.specs.Option.{option_map, ForSome};
ghost use Rattle.pl_base.specs.Answers.{Answers};
ghost use Rattle.pl_place.specs.Policy as policy;
ghost use Rattle.pl_scope.specs.Walking.{wants};
ghost use Rattle.pl_loader.specs.Faults.{is_memory};
ghost use Rattle.pl_loader.specs.Loading.{IsLoading};
ghost use Rattle.pl_loader.specs.Started as start;
ghost use Rattle.pl_loader.specs.Walk as spec;

use crate::starting::started;
use crate::walk_files::WalkFiles;
use crate::{GivenFile, LoadFault, ObjectFile, Started};
use pl_elf::Range;
use pl_io::NoMemory;
use pl_place::{Holes, Placer};
use std::alloc::Global;
use std::marker::Model;

/// A load that is under way: it tells whose file it wants next, and is given one file after the other, in the order of the walk of the program's name (gABI chapter 5, "Shared Object Dependencies"). Contracts see it as the walk with the files that were given, the addresses that no library may get, and the policy.
#[derive(Drop)]
pub struct Loader<'p, F> {
    walk: WalkFiles,
    busy: Option<Range>,
    placer: &'p Placer<F>,
}

impl<'p, F> Model for Loader<'p, F> {
    ghost use Rattle.pl_loader.specs.Loading.{Load};

    ghost Value = { Load F };

    ghost view = { λ l. record { walk = l.walk; busy = l.busy; policy = l.placer.now } };
}

impl<'p, F> Loader<'p, F> {
    /// The load of a name to which no file was given yet. No library gets an address that is busy; the placer says which of the others. It fails only for want of memory.
    pub fn new(
        alloc: Global,
        name: &str,
        busy: Option<Range>,
        placer: &'p Placer<F>,
    ) -> Result<Loader<'p, F>, NoMemory>
        ensures begun { IfOk result (λ loader. loader
            ≡ record { walk = spec.begun name.now; busy = busy; policy = placer.entry.now }) }
        // all files of the walk of the name are still to come
        ensures begins { IfOk result (λ loader. spec.BeginsEveryLoad name.now loader.walk) }
        // a law over definitions: the whole load means no want of memory where what is told of its
        // files does not
        ensures never_memory { start.LoadsWithoutMemoryFault busy name.now }
    {
        Ok(Loader {
            walk: WalkFiles::new(alloc, name)?,
            busy,
            placer,
        })
    }

    /// The name whose file comes next. None exactly where every name of the walk was given its file.
    pub fn wants(&self) -> Option<&str>
        ensures name { option_map (λ name. name.now) result ≡ wants self.now.walk.order }
        ensures loading { IsLoading self.now.walk }
    {
        self.walk.wants()
    }

    /// Gives the wanted name its file, fewer than 2^32 bytes, or tells that there is none. The names that its object needs are wanted in their order, each once.
    ///
    /// The first cause counts, in this order: `NotThere` where there is no file; `BadMark` where it bears a mark and is no prelinked file; `Refused` where it bears none, and an acceptance clause refuses it; `NotProgram` where it is the first file, and a library; `NeededIsProgram` where it is a later file, and no library, or needs the first, which is a program; `TooMany` where a name would be wanted after `MAX_MEMBERS` names. After a fault the loader is unchanged.
    pub fn give(&mut self, alloc: Global, file: Option<GivenFile>) -> Result<(), LoadFault>
        requires wanted { IsSome (wants self.old.walk.order) }
        requires size { ForSome file (λ bytes. length bytes < 2 ^ 32) }
        ensures ok { OnOk result (spec.give self.old.walk file ≡ Ok self.new.walk) }
        ensures err { IfErr result (λ fault. Answers is_memory (Err fault)
            (spec.give self.old.walk file)) }
        ensures same { self.new ≡ record self.old { walk = self.new.walk } }
        ensures unchanged { OnErr result (self.new ≡ self.old) }
        // where the file is the one that the name has, the load goes on with one file more,
        ensures goes_on { OnOk result (spec.ContinuesEveryLoad self.old.walk file self.new.walk) }
        // or the fault is what the whole load means
        ensures stops { IfErr result (start.EndsEveryLoad self.old.walk file) }
    {
        self.walk.give(alloc, file)
    }

    /// The files that were given, lent.
    fn files(&self) -> &[ObjectFile]
        ensures files { result.now ≡ self.now.walk.files }
        ensures loading { IsLoading self.now.walk }
    {
        self.walk.files()
    }

    /// The addresses that no library may get.
    fn busy(&self) -> Option<Range>
        ensures { result ≡ self.now.busy }
    {
        self.busy
    }

    /// The policy, by which libraries are placed that are not at their slots.
    pub fn placer(&self) -> &Placer<F>
        ensures { result.now ≡ self.now.policy }
    {
        self.placer
    }
}

impl<'p, F: Fn(&Holes, u64, u64) -> Option<u64>> Loader<'p, F> {
    /// What the program starts from, where no name is wanted any more.
    ///
    /// The first cause counts, in this order: `TlsTooLarge` where an offset of thread-local storage is too great; `NoPlace` at the first library for which nothing fits in what is left of the region; and `Link` for the first relocation without a value, in their order. The objects are placed so: the program where it was linked; each prelinked library in scope order at its slot, where that is free of the PT_LOADs of the program's file as it stands, of the busy addresses and of the libraries before it; and each other library in turn where the policy says, in what all these leave of the region.
    ///
    /// The program starts `fast` exactly where it is a prelinked file, its list has the names, stamps and checksums of the libraries of its walk, each a prelinked file, in their order, and each of them is placed at its slot. Then the memory is the files' segments as they stand, with the program's conflict rows over them, and no link is looked for. Else it is that of the originals, linked.
    pub fn start(&self, alloc: Global) -> Result<Started<'_>, LoadFault>
        requires may { policy.MayChoose (F.pre self.now.policy) }
        requires chooses { policy.Chooses (F.post self.now.policy) }
        requires given { wants self.now.walk.order ≡ None }
        // by any policy, each library is where it answered
        ensures ok { IfOk result (start.StartsBy (F.post self.now.policy) self.now.busy
            self.now.walk.files) }
        ensures err { IfErr result (start.FailsBy (F.post self.now.policy) self.now.busy
            self.now.walk.files) }
        // where the policy is a function, this is what the files start from,
        ensures exact { IfOk result (start.StartsByChoice (F.post self.now.policy) self.now.busy
            self.now.walk.files) }
        ensures exact_fault { IfErr result (start.FailsByChoice (F.post self.now.policy)
            self.now.busy self.now.walk.files) }
        // and where all files are those that the names have, this is what the name starts from
        ensures whole { IfOk result (start.StartsEveryLoad (F.post self.now.policy) self.now.busy
            self.now.walk) }
        ensures fails { IfErr result (start.FailsEveryLoad (F.post self.now.policy) self.now.busy
            self.now.walk) }
    {
        started(alloc, self.placer(), self.busy(), self.files())
    }
}
