// The list of the commands. The synopsis of the manual page has the same forms.
use std::io::{self, Write};

/// The words of each command, and behind a colon what it does.
const COMMANDS: &str =
    "-a [-n] [-v] [-m] [--region S-E]: Prelink all files of this folder; -n: only say so; -v: a line for each; -m: let slots overlap.
-u -a: Give all prelinked files their originals.
-u NAME...: Give these files their originals.
-y NAME: Compare a prelinked file with what it should be, and print its original.
-p: Print the last stamp and the slots.
--load NAME [--busy S-E] [--policy P]: Print the memory image from which the program starts.
--order NAME [-v]: Print in which order the files that it needs are initialised.
--fix NAME [--policy P]: Fix the position-independent program at an address.
--unfix NAME: Make the fixed program position-independent again.
--install NAME: Store the input as NAME.
--make NAME: Store the file of the recipe in the input as NAME.
--remove NAME: Remove the file.
--demo N: Prelink and load, in memory, the set of files that N draws.
--weave: Load during runs, in memory, by the script in the input.";

/// Writes the list of the commands.
pub fn tell_commands<W: Write>(to: &mut W) -> io::Result<()> {
    writeln!(
        to,
        "prelink: The commands, each on the files of the folder in which it is started:"
    )?;
    for line in COMMANDS.split('\n') {
        writeln!(to, "prelink:   {line}")?;
    }
    writeln!(
        to,
        "prelink: S-E are two hexadecimal numbers, multiples of 1000; P is lowest, highest or seeded:N; N is a decimal number."
    )
}
