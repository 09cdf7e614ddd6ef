// The names of needed libraries that were read.
ghost use Rattle.std.specs.Prelude.{◌≡◌, IfOk, OnOk};
ghost use Rattle.pl_object.specs.NamesRead as spec;

use pl_base::Text;
use std::alloc::{AllocError, Global};
use std::collections::BTreeMap;

/// The names of needed libraries that were read, by the offsets of their strings. A look-up takes the logarithm of their number.
#[derive(Drop)]
pub struct NamesRead {
    pub texts: BTreeMap<u64, Text, Global>,
}

impl NamesRead {
    /// No name was read. It takes no memory.
    pub fn new(alloc: Global) -> NamesRead
        ensures { spec.IsUnread result }
    {
        NamesRead {
            texts: BTreeMap::new(alloc),
        }
    }

    /// The name that was read at an offset, if one was. It fails only for want of memory.
    pub fn again(&self, alloc: Global, at: u64) -> Result<Option<Text>, AllocError>
        ensures { IfOk result (λ name. name ≡ spec.name_read self.now at) }
    {
        match self.texts.get(&at) {
            None => Ok(None),
            Some(name) => Ok(Some(name.again(alloc)?)),
        }
    }

    /// Keeps the name that was read at an offset. It fails only for want of memory, and no clause says what is kept then.
    pub fn keep(&mut self, alloc: Global, at: u64, name: &Text) -> Result<(), AllocError>
        ensures { OnOk result (spec.IsNameKept self.old at name.now self.new) }
    {
        let name = name.again(alloc)?;
        self.texts.insert(at, name)?;
        Ok(())
    }
}
