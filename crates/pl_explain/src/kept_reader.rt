ghost use Rattle.std.specs.Prelude.{◌≡◌};

use std::io::{self, Read};

/// A reader that keeps its first error, over another one, whose contract it has.
#[derive(Drop)]
pub struct KeptReader<R: Read> {
    reader: R,
    error: Option<io::Error>,
}

impl<R: Read> KeptReader<R> {
    /// A reader over another one, before any call.
    pub fn new(reader: R) -> KeptReader<R>
        ensures { ⟦<KeptReader<R> as Read>⟧.remaining result ≡ R.remaining reader }
    {
        KeptReader {
            reader,
            error: None,
        }
    }

    /// The first error of a call, if any failed.
    pub fn error(&self) -> Option<&io::Error> {
        self.error.as_ref()
    }
}

impl<R: Read> Read for KeptReader<R> {
    ghost remaining = { λ kept. R.remaining kept.reader };

    fn read(&mut self, buf: &mut [u8]) -> io::Result<usize> {
        match self.reader.read(buf) {
            Ok(n) => Ok(n),
            Err(error) => {
                if self.error.is_none() {
                    self.error = Some(error);
                }
                Err(error)
            }
        }
    }
}
