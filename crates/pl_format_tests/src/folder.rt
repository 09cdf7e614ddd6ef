// Tests of pl_folder. Files are spelled as text: each name with its bytes, parted by blanks.
use pl_base::has_name_length;
use pl_cases::{number, numbers, parts};
use pl_folder::{Folder, FolderFault, MemoryFolder, QuietFolder, STORED, are_files};
use std::alloc::{AllocError, Global};
use std::test::Fail;

/// The files that a text spells.
fn files_of(alloc: Global, text: &str) -> Result<Vec<(String, Vec<u8>)>, AllocError> {
    let mut files = Vec::new(alloc);
    for file in text.split_whitespace() {
        let (name, bytes) = file.split_once('=').unwrap_or((file, ""));
        files.push((
            String::from_str(alloc, name)?,
            bytes.as_bytes().to_vec(alloc)?,
        ))?;
    }
    Ok(files)
}

/// Files, and whether they are those of a folder.
const LISTS: &str = "\
true:\n\
true: a=old b=old\n\
false: a=old b=old a=old\n\
false: =old";

/// Whether the files of a line are told to be a folder's as the line says.
fn is_told(alloc: Global, line: &str) -> Result<bool, Fail> {
    let (fine, files) = parts(line)?;
    Ok(are_files(&files_of(alloc, files)?) == (fine == "true"))
}

#[test]
fn knows_files(rt: HostRuntime) -> Result<(), Fail> {
    for line in LISTS.lines() {
        if !is_told(rt.alloc(), line)? {
            return Err(line.into());
        }
    }
    Ok(())
}

// The clauses name the limit, so its number stands here once more.
#[test]
fn knows_the_most_bytes(rt: HostRuntime) {
    assert!(rt; STORED == 268_435_456);
}

/// Whether a name of so many bytes is told to be a folder's.
fn is_name_of(alloc: Global, len: usize) -> Result<bool, AllocError> {
    let name = "n".repeat(alloc, len)?;
    Ok(are_files(&files_of(alloc, name.as_str())?))
}

#[test]
fn knows_the_longest_name(rt: HostRuntime) -> Result<(), AllocError> {
    assert!(rt; is_name_of(rt.alloc(), 255)?);
    assert!(rt; !is_name_of(rt.alloc(), 256)?);
    Ok(())
}

/// A folder of files, which answers so many calls but those that fail.
pub(crate) fn folder_of(
    alloc: Global,
    files: &str,
    fails: Vec<u64>,
    calls: u32,
) -> Result<MemoryFolder, FolderFault> {
    let files = files_of(alloc, files)?;
    if !are_files(&files) {
        return Err(FolderFault::NotThere);
    }
    match MemoryFolder::new(alloc, &files, fails, calls) {
        Ok(folder) => Ok(folder),
        Err(_) => Err(FolderFault::NoMemory),
    }
}

/// A name of the program's own.
const NEW_FILE: &str = ".prelink.new.0";

/// The two files of a folder.
const FILES: &str = ".prelink.new.0=old q=old";

/// A folder of two files, which answers so many calls but one that fails.
pub(crate) fn folder(alloc: Global, fails: u64, calls: u32) -> Result<MemoryFolder, FolderFault> {
    folder_of(alloc, FILES, vec![in alloc; fails; 1]?, calls)
}

/// The files of a folder.
fn text_of(alloc: Global, folder: &mut MemoryFolder) -> Result<Vec<u8>, FolderFault> {
    let mut text = Vec::new(alloc);
    for name in &folder.names(alloc)? {
        if !text.is_empty() {
            text.extend_from_slice(b" ")?;
        }
        text.extend_from_slice(name.as_bytes())?;
        text.extend_from_slice(b"=")?;
        text.extend_from_slice(folder.take(alloc, name.as_str())?.as_slice())?;
    }
    Ok(text)
}

/// Whether the folder has exactly these files.
pub(crate) fn has(
    alloc: Global,
    folder: &mut MemoryFolder,
    files: &str,
) -> Result<bool, FolderFault> {
    Ok(text_of(alloc, folder)?.as_slice() == files.as_bytes())
}

/// How the cases spell a fault.
pub(crate) fn word_of(fault: FolderFault) -> &'static str {
    match fault {
        FolderFault::Failed => "Failed",
        FolderFault::NotThere => "NotThere",
        FolderFault::TooLarge => "TooLarge",
        FolderFault::NoMemory => "NoMemory",
    }
}

/// Whether `take` gives the bytes of a text, or the fault that it spells.
pub(crate) fn takes<D: Folder>(alloc: Global, folder: &mut D, name: &str, text: &str) -> bool {
    if !has_name_length(name.as_bytes()) {
        return false;
    }
    match folder.take(alloc, name) {
        Ok(bytes) => bytes.as_slice() == text.as_bytes(),
        Err(fault) => word_of(fault) == text,
    }
}

/// Names that are taken one after the other, and the answers of a folder whose call 1 fails and that answers 5 calls.
const TAKES: &str = "\
q: old\n\
q: Failed\n\
libb: NotThere\n\
.prelink.new.0: old\n\
q: old\n\
q: Failed";

/// Takes the files of lines. It fails at the first line with another answer.
fn take_each(alloc: Global, folder: &mut MemoryFolder, lines: &str) -> Result<(), Fail> {
    for line in lines.lines() {
        let (name, answer) = parts(line)?;
        if !takes(alloc, folder, name, answer) {
            return Err(line.into());
        }
    }
    Ok(())
}

#[test]
fn takes_files_by_its_script(rt: HostRuntime) -> Result<(), Fail> {
    let mut folder = folder(rt.alloc(), 1, 5)?;
    take_each(rt.alloc(), &mut folder, TAKES)
}

/// Writes a file in two pieces.
#[tactic(auto, using(pl_folder::proofs::FolderLaws::there))]
fn write_pieces(alloc: Global, folder: &mut MemoryFolder) -> Result<(), FolderFault> {
    folder.create(alloc, "a")?;
    folder.append(alloc, "a", b"two ")?;
    folder.append(alloc, "a", b"pieces")
}

/// Removes a file, and once more.
fn remove_twice(folder: &mut MemoryFolder) -> Result<(), FolderFault> {
    folder.remove("q")?;
    folder.remove("q")?;
    Ok(())
}

#[test]
fn changes_files(rt: HostRuntime) -> Result<(), FolderFault> {
    let alloc = rt.alloc();
    let mut folder = folder(alloc, 100, 100)?;
    write_pieces(alloc, &mut folder)?;
    assert!(rt; has(alloc, &mut folder, ".prelink.new.0=old a=two pieces q=old")?);
    remove_twice(&mut folder)?;
    assert!(rt; has(alloc, &mut folder, ".prelink.new.0=old a=two pieces")?);
    Ok(())
}

/// Seven calls, up to the first that fails.
#[tactic(auto, using(pl_folder::proofs::FolderLaws::there))]
fn change(alloc: Global, folder: &mut MemoryFolder) -> Result<(), FolderFault> {
    folder.create(alloc, "a")?;
    folder.append(alloc, "a", b"ab")?;
    folder.firm("a")?;
    folder.rename("a", "q")?;
    folder.append(alloc, "q", b"c")?;
    folder.remove(NEW_FILE)?;
    folder.settle()?;
    Ok(())
}

/// What a read gives after so many of the calls.
const READS: &str = "\
0: .prelink.new.0=old q=old\n\
1: .prelink.new.0=old a= q=old\n\
2: .prelink.new.0=old a=ab q=old\n\
3: .prelink.new.0=old a=ab q=old\n\
4: .prelink.new.0=old q=ab\n\
5: .prelink.new.0=old q=abc\n\
6: q=abc";

/// What it gives after all of them.
const READ: &str = "7: q=abc";

/// Moments and choices, in hexadecimal, and what a crash then leaves: bit 0 keeps the creation of `a` and the bytes of its file while it is not firm, bit 1 keeps the rename, bit 2 the removal.
const IMAGES: &str = "\
0 0: .prelink.new.0=old q=old\n\
1 0: .prelink.new.0=old q=old\n\
1 ffffffffffffffff: .prelink.new.0=old a= q=old\n\
2 1: .prelink.new.0=old a=ab q=old\n\
2 2: .prelink.new.0=old q=old\n\
3 1: .prelink.new.0=old a=ab q=old\n\
3 0: .prelink.new.0=old q=old\n\
4 0: .prelink.new.0=old q=old\n\
4 1: .prelink.new.0=old a=ab q=old\n\
4 2: .prelink.new.0=old q=ab\n\
4 3: .prelink.new.0=old q=ab\n\
5 0: .prelink.new.0=old q=old\n\
5 1: .prelink.new.0=old a=abc q=old\n\
5 2: .prelink.new.0=old q=\n\
5 ffffffffffffffff: .prelink.new.0=old q=abc\n\
6 4: q=old\n\
6 5555555555555555: a=abc q=old\n\
6 aaaaaaaaaaaaaaaa: .prelink.new.0=old q=\n\
7 0: q=abc";

/// What a crash after so many calls leaves.
pub(crate) fn image(
    alloc: Global,
    folder: &MemoryFolder,
    moment: u64,
    choice: u64,
) -> Result<MemoryFolder, FolderFault> {
    if folder.moments() < moment {
        return Err(FolderFault::NotThere);
    }
    match folder.image(alloc, moment, choice) {
        Ok(image) => Ok(image),
        Err(_) => Err(FolderFault::NoMemory),
    }
}

/// Whether a crash after so many calls leaves exactly these files.
fn leaves(
    alloc: Global,
    folder: &MemoryFolder,
    moment: u64,
    choice: u64,
    files: &str,
) -> Result<bool, FolderFault> {
    let mut image = image(alloc, folder, moment, choice)?;
    has(alloc, &mut image, files)
}

/// A moment and a choice. With a moment alone nothing is lost.
fn chosen(alloc: Global, text: &str) -> Result<(u64, u64), Fail> {
    match numbers(alloc, text)?.as_slice() {
        [moment] => Ok((*moment, u64::MAX)),
        [moment, choice] => Ok((*moment, *choice)),
        _ => Err("one or two numbers".into()),
    }
}

/// Fails at the first line whose crash leaves other files than it says.
fn leaves_each(alloc: Global, folder: &MemoryFolder, lines: &str) -> Result<(), Fail> {
    for line in lines.lines() {
        let (text, files) = parts(line)?;
        let (moment, choice) = chosen(alloc, text)?;
        if !leaves(alloc, folder, moment, choice, files)? {
            return Err(line.into());
        }
    }
    Ok(())
}

/// A folder of two files after the seven calls.
fn changed(alloc: Global) -> Result<MemoryFolder, FolderFault> {
    let mut folder = folder(alloc, 100, 100)?;
    change(alloc, &mut folder)?;
    Ok(folder)
}

#[test]
fn leaves_what_is_chosen(rt: HostRuntime) -> Result<(), Fail> {
    let folder = changed(rt.alloc())?;
    leaves_each(rt.alloc(), &folder, IMAGES)
}

#[test]
fn leaves_what_a_read_gives(rt: HostRuntime) -> Result<(), Fail> {
    let folder = changed(rt.alloc())?;
    leaves_each(rt.alloc(), &folder, READS)?;
    leaves_each(rt.alloc(), &folder, READ)
}

/// How many moments the seven calls are.
fn count_moments(alloc: Global) -> Result<u64, FolderFault> {
    Ok(changed(alloc)?.moments())
}

#[test]
fn counts_its_calls(rt: HostRuntime) -> Result<(), FolderFault> {
    assert!(rt; count_moments(rt.alloc())? == 7);
    Ok(())
}

/// Whether a folder whose call of that number fails is left as a line says.
fn fails_at(alloc: Global, line: &str) -> Result<bool, Fail> {
    let (fails, files) = parts(line)?;
    let fails = number(fails)?;
    let mut folder = folder(alloc, fails, 100)?;
    let failed = change(alloc, &mut folder) == Err(FolderFault::Failed);
    let counted = folder.moments() == fails.wrapping_add(1);
    Ok(failed && counted && has(alloc, &mut folder, files)?)
}

#[test]
fn fails_at_each_call(rt: HostRuntime) -> Result<(), Fail> {
    for line in READS.lines() {
        if !fails_at(rt.alloc(), line)? {
            return Err(line.into());
        }
    }
    Ok(())
}

/// Changes a folder in which no call fails.
#[tactic(auto, using(pl_folder::proofs::FolderLaws::there))]
fn change_quietly(alloc: Global, folder: &mut QuietFolder) -> Result<(), FolderFault> {
    folder.create(alloc, "a")?;
    folder.append(alloc, "a", b"ab")?;
    folder.firm("a")?;
    folder.rename("a", "q")?;
    folder.remove(NEW_FILE)?;
    folder.settle()?;
    Ok(())
}

/// A folder in which no call fails.
fn quiet_folder(alloc: Global) -> Result<QuietFolder, FolderFault> {
    let files = files_of(alloc, FILES)?;
    if !are_files(&files) {
        return Err(FolderFault::NotThere);
    }
    match QuietFolder::new(alloc, &files) {
        Ok(folder) => Ok(folder),
        Err(_) => Err(FolderFault::NoMemory),
    }
}

#[test]
fn changes_files_quietly(rt: HostRuntime) -> Result<(), FolderFault> {
    let alloc = rt.alloc();
    let mut folder = quiet_folder(alloc)?;
    change_quietly(alloc, &mut folder)?;
    assert!(rt; folder.names(alloc)?.len() == 1);
    assert!(rt; folder.take(alloc, "q")?.as_slice() == b"ab".as_slice());
    Ok(())
}
