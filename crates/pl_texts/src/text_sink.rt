ghost use Rattle.std.specs.Prelude.{◌≡◌, Some, []};
ghost use Rattle.pl_io.specs.Seen.{HasWritten};
ghost use Rattle.pl_texts.specs.TextSink as spec;

use pl_io::{Failed, Sink};
use std::alloc::Global;

/// A sink that keeps all that it gets, and takes the memory for it. A call fails only for want of memory.
#[derive(Drop)]
pub struct TextSink {
    pub text: Vec<u8>,
    faults: u64,
}

impl TextSink {
    /// A sink that has got nothing. It takes no memory.
    pub fn new(alloc: Global) -> TextSink
        ensures { spec.sink_seen result ≡ record { got = Some []; faults = 0 } }
    {
        TextSink {
            text: Vec::new(alloc),
            faults: 0,
        }
    }

    /// All that the sink has got.
    pub fn into_text(self) -> Vec<u8>
        ensures { (spec.sink_seen self).got ≡ Some result.items }
    {
        let TextSink { text, faults: _ } = self;
        text
    }
}

impl Sink for TextSink {
    ghost seen = { spec.sink_seen };

    #[tactic(auto, using(std::proofs::lemmas::List::take_all))]
    fn write(&mut self, from: &[u8]) -> Result<usize, Failed>
        ensures { HasWritten result from.now (spec.sink_seen self.old) (spec.sink_seen self.new) }
    {
        match self.text.extend_from_slice(from) {
            Ok(()) => Ok(from.len()),
            Err(_) => {
                self.faults = self.faults.saturating_add(1);
                Err(Failed)
            }
        }
    }
}
