// The causes why a command is refused or a file is not prelinked. The manual page has the same table.

/// Each cause, by its word in a line `refused CAUSE` or `skip NAME CAUSE`, with its sentence.
pub const SENTENCES: &str =
    "BadName The name is not valid: it is empty, longer than 255 bytes, . or .., begins with .prelink. or has a slash or a byte that is not from 0x21 to 0x7e.
NotThere The folder has no regular file of this name.
FileTooLarge The file is longer than 256 MiB.
BadMark The file bears the mark of a prelinked file, and is not one as prelink makes it: something else made or changed it.
Refused The file is no program or library that is accepted. The first number is that of the acceptance clause.
Static The program is static and needs no library.
Form The file is accepted and cannot be prelinked. The number is that of the form fault.
NotProgram The file is a library, and only a program can be loaded.
NeededIsProgram A file of the walk needs this one, and it is a program.
TooMany The walk has more than 256 files, and this is the first one too many.
TlsTooLarge The blocks of thread-local storage of the walk are too large: an offset is greater than 1 GiB.
NoPlace Nothing that is left of the region holds the file.
Undefined No file of the walk defines the symbol, and it is not weak.
UndefinedTls No file of the walk defines the thread-local symbol.
TlsMismatch A relocation for thread-local storage finds a symbol of another type or a file without PT_TLS, or another relocation finds a thread-local symbol.
CopyOutside The bytes that a COPY relocation is to copy are not all in one PT_LOAD of the file that defines the symbol.
BadJournal The file .prelink.journal is no journal: something else changed it.
BadCache The file .prelink.cache is no cache: something else changed it.
TooManyFiles The folder has more than 1024 files with valid names, or would get one more.
FolderTooLarge The originals of the files have together more than 1 GiB.
NoSlot No hole that is left of the region holds the library. The two numbers are the bytes that it wants and those of the greatest hole.
StampsSpent A file is to be prelinked, and the last stamp that there is was given.
NotPie The original of the file is no position-independent program that can be fixed.
NotFixed The original of the file is no program that --fix made.
InputTooLarge The input is too long: a file has at most 256 MiB, a recipe or a script 1 MiB.
Recipe A line of the recipe is wrong. The two numbers are that of the line, from 1 on, and the kind of its fault.
Script This line of the script is wrong: it is not in the grammar, it is a load too many (64) or a run too many (16), or it opens a load that is not there.";

/// What can be done where a command is refused for a cause, if anything is known.
pub const REMEDIES: &str =
    "NotThere Each library that a program needs has to stand in the same folder: no path is searched.
BadMark Put the file of before in its place. Undo prelinked files (prelink -u NAME) before strip, patchelf and the like change them.
NoPlace With fewer addresses of --busy more is left.
BadJournal Nothing was changed. Delete .prelink.journal; what the interrupted command did not do stays undone.
BadCache Delete .prelink.cache: the next prelink -a makes a new one.
TooManyFiles Keep fewer files in the folder.
FolderTooLarge Keep fewer or smaller files in the folder.
NoSlot Give a larger --region, or -m.
StampsSpent Undo all files (prelink -u -a), delete .prelink.cache, and prelink them anew.";
