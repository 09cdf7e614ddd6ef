// The text of a start, written piece by piece.
ghost use Rattle.pl_texts.specs.LoadText.{load_text, start_of};
ghost use Rattle.pl_texts.specs.Written.{HasWrittenStart};

use crate::head::head_text;
use crate::write_stop::WriteStop;
use pl_io::{Sink, write_all};
use pl_loader::Started;
use std::alloc::Global;

/// Writes the text of a start: what stands before the words in one piece, the lines of the words many at a time, and the end. After a fault some first bytes were written; after a want of memory, none.
pub fn write_start<K: Sink>(
    alloc: Global,
    started: &Started<'_>,
    output: &mut K,
) -> Result<(), WriteStop>
    ensures { HasWrittenStart (load_text (start_of started.now)) result
        (K.seen output.old) (K.seen output.new) }
{
    let head = head_text(alloc, started)?;
    write_all(output, &head)?;
    started.image.write_text(output)?;
    write_all(output, b"end\n")?;
    Ok(())
}
