ghost use Rattle.std.specs.Prelude.{◌≡◌};

use crate::line::Line;
use pl_io::{Failed, Sink};

/// A sink that keeps the first 512 bytes of the last line that it was handed, over another sink, whose contract it has.
#[derive(Drop)]
pub struct LastLine<K: Sink> {
    sink: K,
    line: Line,
}

impl<K: Sink> LastLine<K> {
    /// A sink over another one, before any call.
    pub fn new(sink: K) -> LastLine<K>
        ensures { ⟦<LastLine<K> as Sink>⟧.seen result ≡ K.seen sink }
    {
        LastLine {
            sink,
            line: Line::new(),
        }
    }

    /// The last line that the other sink got, at most its first 512 bytes, without its newline; no bytes before the first call.
    pub fn line(&self) -> &[u8] {
        self.line.as_slice()
    }
}

impl<K: Sink> Sink for LastLine<K> {
    ghost seen = { λ last. K.seen last.sink };

    fn write(&mut self, from: &[u8]) -> Result<usize, Failed> {
        let n = self.sink.write(from)?;
        self.line.see(&from[..n]);
        Ok(n)
    }
}
