ghost use Rattle.std.specs.Prelude.{◌≡◌};

use std::io::{self, Write};

/// A writer that keeps its first error, over another one, whose contract it has.
#[derive(Drop)]
pub struct KeptWriter<W: Write> {
    writer: W,
    error: Option<io::Error>,
}

impl<W: Write> KeptWriter<W> {
    /// A writer over another one, before any call.
    pub fn new(writer: W) -> KeptWriter<W>
        ensures { ⟦<KeptWriter<W> as Write>⟧.contents result ≡ W.contents writer }
    {
        KeptWriter {
            writer,
            error: None,
        }
    }

    /// The first error of a call, if any failed.
    pub fn error(&self) -> Option<&io::Error> {
        self.error.as_ref()
    }
}

impl<W: Write> Write for KeptWriter<W> {
    ghost contents = { λ kept. W.contents kept.writer };

    fn write(&mut self, buf: &[u8]) -> io::Result<usize> {
        match self.writer.write(buf) {
            Ok(n) => Ok(n),
            Err(error) => {
                if self.error.is_none() {
                    self.error = Some(error);
                }
                Err(error)
            }
        }
    }

    fn flush(&mut self) -> io::Result<()> {
        match self.writer.flush() {
            Ok(()) => Ok(()),
            Err(error) => {
                if self.error.is_none() {
                    self.error = Some(error);
                }
                Err(error)
            }
        }
    }
}
