// The loaders of a weave.
ghost use Rattle.std.specs.Prelude.{◌≡◌, ◌<◌, IfOk, OnErr, Some, length, map, slice_get};
ghost use Rattle.pl_folder.specs.Calls.{Calls};
ghost use Rattle.pl_folder.specs.Effects.{Asks};
ghost use Rattle.pl_weave.specs.Opening as spec;
ghost use Rattle.pl_weave.specs.Running.{AreChosen};
ghost use Rattle.pl_weave.specs.Taking.{ending};

use crate::{Opening, WeaveFault};
use pl_base::Text;
use pl_io::NoMemory;
use pl_journal::Takes;
use pl_place::{Holes, Placer};
use std::alloc::Global;
use std::marker::Model;

/// Loaders, numbered from 0, that open their files in any order. Contracts see them as a list.
#[derive(Drop)]
pub struct Weave<'p, F> {
    loaders: Vec<Opening<'p, F>>,
}

impl<'p, F> Model for Weave<'p, F> {
    ghost use Rattle.std.specs.Prelude.{List};
    ghost use Rattle.pl_weave.specs.Opening.{Opened};

    ghost Value = { List (Opened F) };

    ghost view = { λ w. w.loaders.items };
}

impl<'p, F> Weave<'p, F> {
    /// Loaders of these names, none of which saw a file yet. It fails only for want of memory.
    pub fn new(
        alloc: Global,
        names: &[Text],
        placer: &'p Placer<F>,
    ) -> Result<Weave<'p, F>, NoMemory>
        ensures { IfOk result (λ w. w ≡ map (spec.opened placer.entry.now) names.now) }
    {
        let mut loaders = Vec::new(alloc);
        for name in names {
            loaders.push(Opening::new(alloc, name.as_str(), placer)?)?;
        }
        Ok(Weave { loaders })
    }

    /// The loader of a number, lent.
    pub fn loader(&self, loader: u32) -> &Opening<'p, F>
        requires { loader < length self.now }
        ensures { slice_get self.now loader ≡ Some result.now }
    {
        &self.loaders[loader as usize]
    }
}

impl<'p, F: Fn(&Holes, u64, u64) -> Option<u64>> Weave<'p, F> {
    /// A loader opens the one file that it wants, as the folder holds it at this moment, or does nothing where it has finished. All other loaders stay as they are.
    ///
    /// `Failed` comes only where the folder failed, `TooLarge` where the file is longer than a folder gives. After a fault the weave is unchanged.
    pub fn open<T: Takes>(
        &mut self,
        alloc: Global,
        loader: u32,
        held: &mut T,
    ) -> Result<(), WeaveFault>
        requires below { loader < length self.old }
        requires chosen { AreChosen F.pre F.post self.old }
        ensures opens { spec.OpensAt F.post result loader self.old self.new (T.seen held.old) }
        ensures calls { Calls (ending result) (Asks (spec.asks_at self.old loader))
            (T.seen held.old) (T.seen held.new) }
        ensures referent { T.referent held.new ≡ T.referent held.old }
        ensures rows { T.rows held.new ≡ T.rows held.old }
        ensures unchanged { OnErr result (self.new ≡ self.old) }
    {
        self.loaders[loader as usize].open(alloc, held)
    }
}
