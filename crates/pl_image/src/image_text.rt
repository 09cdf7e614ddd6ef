// Lines of words on their way through a buffer to a sink.
ghost use Rattle.std.specs.Prelude.{◌≡◌, [], OnOk};
ghost use Rattle.pl_image.specs.Lines.{HasPassed, unless_zero};
ghost use Rattle.pl_io.specs.Seen.{HasWrittenAll};

use crate::lines::{LINE, Lines, push_word};
use pl_io::{Failed, Sink, write_all};

/// Hands the lines to the sink.
pub fn flush<K: Sink>(lines: &mut Lines, sink: &mut K) -> Result<(), Failed>
    ensures wrote { HasWrittenAll result lines.old.items (K.seen sink.old) (K.seen sink.new) }
    ensures empty { OnOk result (lines.new.items ≡ []) }
{
    write_all(sink, lines.as_slice())?;
    lines.clear();
    Ok(())
}

/// Adds the line of a word that is not 0. Where the buffer has no room for it, the sink gets the lines before.
#[tactic(auto, using(crate::proofs::PassLemmas::passes_none, crate::proofs::PassLemmas::passes_held, crate::proofs::PassLemmas::passes_flushed))]
pub fn add_word<K: Sink>(
    lines: &mut Lines,
    sink: &mut K,
    address: u64,
    word: u64,
) -> Result<(), Failed>
    ensures { HasPassed result (unless_zero address word) lines.old.items
        lines.old.items lines.new.items (K.seen sink.old) (K.seen sink.new) }
{
    if word == 0 {
        return Ok(());
    }
    if lines.remaining_capacity() < LINE {
        flush(lines, sink)?;
    }
    push_word(lines, address, word);
    Ok(())
}
