// The top call, with what it leaves of a sound folder.
ghost use Rattle.std.specs.Prelude.{◌≡◌, false, map, string_bytes};
ghost use Rattle.pl_cli.specs.Outside.{outside};
ghost use Rattle.pl_cli.specs.Ran.{Ran};
ghost use Rattle.pl_cli.specs.Words.{asks_folder, command, reads_input};
ghost use Rattle.pl_safe.specs.Safe.{StaysSafe};

use pl_cli::Status;
use pl_folder::Folder;
use pl_io::{Sink, Source};
use std::alloc::Global;

/// Does what the words after the program's name ask for: the call of that name of pl_cli, whose clauses it has.
///
/// Of a folder that tells its files and reads as a sound one, it says besides: what is read of it afterwards is sound, and stands for the files before the run or for those after it. After `-a` each valid name has what prelinking everything from scratch gives, and the cache is the planned one. At most the original of the one name that is stored, removed, fixed or loosened is not the one before. The answer to `--load` is the one that links the originals; so is the text of each loader of `--weave` that has finished, of the originals of the files that it saw, where no stamp is past the last one of the folder's cache, which every command keeps.
///
/// Of a folder that tells its disk, and each image of which is sound at the start: each image since then is sound, and each one of a moment after the start stands for the files before the run or for those after it, unless the run only looked. After a command that writes, is done or refused, the files after it are the only image; after `-a` those from scratch. No image stands for files with a stamp past the last one of their cache, where none did at the start.
///
/// On a disk whose `settle` makes names last and no file's bytes, as real ones are, the run from the same start goes on alike, moment for moment, but for the firmness of files that were loose, that is not firm, at the start and that it left alone; where it is done or refused each file that it made is firm.
pub fn run<D: Folder, S: Source, K: Sink>(
    alloc: Global,
    words: &[String],
    folder: &mut D,
    input: &mut S,
    output: &mut K,
    now: u32,
) -> Status
    ensures ran { Ran (command now (map string_bytes words.now))
        (outside (D.seen folder.old) (S.seen input.old) (K.seen output.old))
        (outside (D.seen folder.new) (S.seen input.new) (K.seen output.new)) result }
    // No call is made of a folder that is not to be asked, nor of an input that is not to be read.
    ensures unasked { asks_folder (command now (map string_bytes words.now)) ≡ false →
        folder.new ≡ folder.old }
    ensures unread { reads_input (command now (map string_bytes words.now)) ≡ false →
        input.new ≡ input.old }
    ensures safe { StaysSafe (command now (map string_bytes words.now))
        (outside (D.seen folder.old) (S.seen input.old) (K.seen output.old))
        (outside (D.seen folder.new) (S.seen input.new) (K.seen output.new)) result }
{
    pl_cli::run(alloc, words, folder, input, output, now)
}
