// A loader of a weave.
ghost use Rattle.std.specs.Prelude.{◌≡◌, ◌<◌, ◌^◌, false, None, Some, IfErr, IfOk, OnErr, OnOk, length};
ghost use Rattle.std.specs.Option.{ForSome, option_map};
ghost use Rattle.pl_folder.specs.Calls.{Calls};
ghost use Rattle.pl_folder.specs.Effects.{Asks};
ghost use Rattle.pl_loader.specs.Faults.{is_memory};
ghost use Rattle.pl_place.specs.Policy as policy;
ghost use Rattle.pl_loader.specs.Given.{MayPlace};
ghost use Rattle.pl_weave.specs.Opening as spec;
ghost use Rattle.pl_weave.specs.Taking.{ending};

use crate::copying::{copy_fault, copy_file};
use crate::taking::take;
use crate::{Seen, WeaveFault};
use pl_base::Text;
use pl_io::NoMemory;
use pl_journal::Takes;
use pl_loader::{LoadFault, Loader, Started, given_if_there};
use pl_place::{Holes, Placer};
use std::alloc::Global;
use std::marker::Model;

/// A load that opens one file at a time, in the order of its walk, and keeps what it saw. Contracts see it as the load, the files that it saw, and why it was refused, if it was.
#[derive(Drop)]
pub struct Opening<'p, F> {
    name: Text,
    loader: Loader<'p, F>,
    seen: Vec<Seen>,
    fault: Option<LoadFault>,
}

impl<'p, F> Model for Opening<'p, F> {
    ghost use Rattle.std.specs.Prelude.{◌≡◌};
    ghost use Rattle.pl_weave.specs.Opening.{Opened};

    ghost Value = { Opened F };

    ghost view = { λ o. record { load = o.loader; seen = o.seen.items; fault = o.fault } };

    ghost invariant = { λ o. o.name ≡ o.loader.walk.name };
}

impl<'p, F> Opening<'p, F> {
    /// The load of a name that saw no file yet. The placer says where libraries go that are not at their slots. It fails only for want of memory.
    pub fn new(alloc: Global, name: &str, placer: &'p Placer<F>) -> Result<Opening<'p, F>, NoMemory>
        ensures opened { IfOk result (λ o. o ≡ spec.opened placer.entry.now name.now) }
        ensures led { IfOk result (spec.IsAlwaysLed name.now) }
    {
        let loader = Loader::new(alloc, name, None, placer)?;
        Ok(Opening {
            name: Text::copy_of(alloc, name)?,
            loader,
            seen: Vec::new(alloc),
            fault: None,
        })
    }

    /// The name whose file it opens next. None exactly where it has finished: it was refused, or has the files of its whole walk.
    pub fn wants(&self) -> Option<&str>
        ensures { option_map (λ name. name.now) result ≡ spec.wanted self.now }
    {
        if self.fault.is_some() {
            return None;
        }
        self.loader.wants()
    }

    /// The files that it saw, in the order in which it opened them.
    pub fn seen(&self) -> &[Seen]
        ensures { result.now ≡ self.now.seen }
    {
        self.seen.as_slice()
    }

    /// It is refused for a fault, after a file that it saw; for want of memory the file is forgotten.
    fn refuse(&mut self, fault: LoadFault) -> Result<(), WeaveFault>
        ensures refused { OnOk result (self.new ≡ record self.old { fault = Some fault }) }
        ensures kept { OnOk result (is_memory fault ≡ false) }
        ensures forgotten { OnErr result (self.new ≡ spec.without_last self.old) }
        ensures lacks { IfErr result (λ why. why ≡ WeaveFault.NoMemory) }
    {
        if let LoadFault::NoMemory = fault {
            self.seen.pop();
            return Err(WeaveFault::NoMemory);
        }
        self.fault = Some(fault);
        Ok(())
    }
}

impl<'p, F: Fn(&Holes, u64, u64) -> Option<u64>> Opening<'p, F> {
    /// It sees a file of the name that it wants, fewer than 2^32 bytes, or that there is none.
    fn see(&mut self, alloc: Global, name: Text, file: Option<Vec<u8>>) -> Result<(), WeaveFault>
        requires policy { MayPlace F.pre F.post self.old.load.policy }
        requires wanted { spec.wanted self.old ≡ Some name }
        requires size { ForSome file (λ bytes. length bytes.items < 2 ^ 32) }
        ensures ok { OnOk result (spec.Sees F.post name
            (option_map (λ bytes. bytes.items) file) self.old self.new) }
        ensures unchanged { OnErr result (self.new ≡ self.old) }
        ensures lacks { IfErr result (λ fault. fault ≡ WeaveFault.NoMemory) }
    {
        let copy = copy_file(alloc, &file)?;
        let placer = self.loader.placer();
        let given = given_if_there(alloc, placer, self.name.as_str(), name.as_str(), file);
        self.seen.push(Seen { name, file: copy })?;
        match given {
            Ok(file) => match self.loader.give(alloc, file) {
                Ok(()) => Ok(()),
                Err(fault) => self.refuse(fault),
            },
            Err(fault) => self.refuse(fault),
        }
    }

    /// Opens the one file that it wants, as the folder holds it at this moment: with one call of the folder, or none where the name is not valid. Where it has finished nothing is done. What it saw is that file; of a position-independent program's own file it loads the program that this becomes where the policy places it.
    ///
    /// `Failed` comes only where the folder failed, `TooLarge` where the file is longer than a folder gives. After a fault the load is unchanged.
    pub fn open<T: Takes>(&mut self, alloc: Global, held: &mut T) -> Result<(), WeaveFault>
        requires { MayPlace F.pre F.post self.old.load.policy }
        ensures opens { spec.Opens F.post result self.old self.new (T.seen held.old) }
        ensures calls { Calls (ending result) (Asks (spec.asks self.old))
            (T.seen held.old) (T.seen held.new) }
        ensures referent { T.referent held.new ≡ T.referent held.old }
        ensures rows { T.rows held.new ≡ T.rows held.old }
        ensures unchanged { OnErr result (self.new ≡ self.old) }
    {
        let Some(wanted) = self.wants() else {
            return Ok(());
        };
        let name = Text::copy_of(alloc, wanted)?;
        let file = take(alloc, held, name.as_str())?;
        self.see(alloc, name, file)
    }

    /// What the files that it saw start from, or the first cause why they do not. It has finished.
    pub fn finish(&self, alloc: Global) -> Result<Started<'_>, LoadFault>
        requires may { policy.MayChoose (F.pre self.now.load.policy) }
        requires chooses { policy.Chooses (F.post self.now.load.policy) }
        requires finished { spec.wanted self.now ≡ None }
        ensures ok { IfOk result (spec.EndsStarted (F.post self.now.load.policy) self.now) }
        ensures err { IfErr result (spec.EndsRefused (F.post self.now.load.policy) self.now) }
    {
        match &self.fault {
            Some(fault) => Err(copy_fault(alloc, fault)?),
            None => self.loader.start(alloc),
        }
    }
}
