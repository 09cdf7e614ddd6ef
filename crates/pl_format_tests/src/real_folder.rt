// Tests of pl_hostdir, in directories of the system. A script is followed there: lines of calls, each with its answer.
ghost use Rattle.pl_base.specs.Names.{IsNameLength};

use crate::folder::{takes, word_of};
use pl_base::has_name_length;
use pl_cases::parts;
use pl_folder::{Folder, FolderFault};
use pl_hostdir::{FirstFault, HostFolder, Reason};
use pl_io::Failed;
use std::alloc::{AllocError, Global};
use std::fs::{self, Files, OpenFile, Permissions};
use std::io;
use std::os::unix::fs::PermissionsExt;
use std::test::Fail;

/// A call: its word, the name that it is about, what stands behind that, and its answer.
#[derive(Clone, Copy)]
struct Step<'a> {
    word: &'a str,
    name: &'a str,
    text: &'a str,
    answer: &'a str,
}

/// The call that a line spells.
fn step_of(line: &str) -> Result<Step<'_>, Fail> {
    let (call, answer) = parts(line)?;
    let (word, rest) = call.split_once(' ').unwrap_or((call, ""));
    let (name, text) = rest.split_once(' ').unwrap_or((rest, ""));
    Ok(Step {
        word,
        name,
        text,
        answer,
    })
}

// ---- what others do, and see, in the directory

/// The number that octal digits spell.
fn octal(digits: &str) -> u32 {
    u32::from_str_radix(digits, 8).unwrap_or(0)
}

/// The permission bits of what has a path.
fn bits_at(rt: HostRuntime, path: &str) -> io::Result<u32> {
    Ok(fs::symlink_metadata(&rt, path)?.permissions().mode() & 0o7777)
}

/// Makes a file of so many bytes.
fn extend(rt: HostRuntime, path: &str, size: &str) -> io::Result<()> {
    let size = size.parse::<u64>().unwrap_or(0);
    fs::File::create(&rt, path)?.set_len(size)
}

/// Makes, changes or removes what has a path.
fn change(rt: HostRuntime, path: &str, step: Step<'_>) -> io::Result<()> {
    match step.word {
        "write" => fs::write(&rt, path, step.text),
        "extend" => extend(rt, path, step.text),
        "symlink" => rt.symlink(step.text, path),
        "mkdir" => rt.create_dir(path),
        "chmod" => fs::set_permissions(&rt, path, Permissions::from_mode(octal(step.text))),
        _ => fs::remove_file(&rt, path),
    }
}

/// Whether others see the answer of a step at a path.
fn is_seen(rt: HostRuntime, path: &str, step: Step<'_>) -> io::Result<bool> {
    match step.word {
        "bits" => Ok(bits_at(rt, path)? == octal(step.answer)),
        "is" => {
            let is_there = fs::symlink_metadata(&rt, path).is_ok();
            Ok(is_there == (step.answer == "there"))
        }
        _ => {
            change(rt, path, step)?;
            Ok(step.answer == "done")
        }
    }
}

/// Whether a step of others has its answer in a directory.
fn is_done(rt: HostRuntime, directory: &str, step: Step<'_>) -> Result<bool, Fail> {
    let name = step.name;
    let path = format!(in rt.alloc(); "{directory}/{name}")?;
    Ok(is_seen(rt, path.as_str(), step)?)
}

// ---- what the folder answers

/// The folder of a directory.
type Real<'r> = HostFolder<'r, &'r HostRuntime>;

/// How the scripts spell the answer of a call that changes files.
fn word_of_change(answer: Result<(), FolderFault>) -> &'static str {
    match answer {
        Ok(()) => "done",
        Err(fault) => word_of(fault),
    }
}

/// Whether names are those of a text.
fn are_names(names: &[String], text: &str) -> bool {
    let mut rest = text.split_whitespace();
    for name in names {
        if rest.next() != Some(name.as_str()) {
            return false;
        }
    }
    rest.next().is_none()
}

/// Whether `names` gives the names of a text, or its fault.
fn lists(alloc: Global, folder: &mut Real<'_>, text: &str) -> bool {
    match folder.names(alloc) {
        Ok(names) => are_names(&names, text),
        Err(fault) => word_of(fault) == text,
    }
}

/// The call, the name and the reason of a fault.
fn text_of(alloc: Global, fault: &FirstFault) -> Result<String, AllocError> {
    let (call, name) = (fault.call, fault.name.as_str());
    match fault.reason {
        Reason::System(error) => format!(in alloc; "{call:?} {name} {:?}", error.kind()),
        reason => format!(in alloc; "{call:?} {name} {reason:?}"),
    }
}

/// Whether the first fault of a folder is that of a text.
fn failed_first(alloc: Global, folder: &Real<'_>, text: &str) -> Result<bool, AllocError> {
    match folder.first_fault() {
        Some(fault) => Ok(text_of(alloc, fault)?.as_str() == text),
        None => Ok(text == "none"),
    }
}

/// A call about a name that takes no memory.
fn rename_or_remove(folder: &mut Real<'_>, name: &str, step: Step<'_>) -> Result<(), Failed>
    requires { IsNameLength name.now }
{
    match step.word {
        "firm" => folder.firm(name),
        "rename" if has_name_length(step.text.as_bytes()) => folder.rename(name, step.text),
        _ => folder.remove(name),
    }
}

/// A call about a name that changes files.
fn make_or_rename(
    alloc: Global,
    folder: &mut Real<'_>,
    name: &str,
    step: Step<'_>,
) -> Result<(), FolderFault>
    requires { IsNameLength name.now }
{
    match step.word {
        "create" => folder.create(alloc, name),
        "append" => folder.append(alloc, name, step.text.as_bytes()),
        _ => Ok(rename_or_remove(folder, name, step)?),
    }
}

/// A call that changes files.
fn changed(alloc: Global, folder: &mut Real<'_>, step: Step<'_>) -> Result<(), FolderFault> {
    if step.word == "settle" {
        return Ok(folder.settle()?);
    }
    if !has_name_length(step.name.as_bytes()) {
        return Err(FolderFault::NotThere);
    }
    make_or_rename(alloc, folder, step.name, step)
}

/// Whether a step of the folder has its answer.
fn is_answered(alloc: Global, folder: &mut Real<'_>, step: Step<'_>) -> Result<bool, AllocError> {
    match step.word {
        "names" => Ok(lists(alloc, folder, step.answer)),
        "take" => Ok(takes(alloc, folder, step.name, step.answer)),
        "fault" => failed_first(alloc, folder, step.answer),
        _ => Ok(word_of_change(changed(alloc, folder, step)) == step.answer),
    }
}

// ---- scripts

/// The words of what others do.
const OTHERS: &str = "write extend symlink mkdir chmod unlink bits is";

/// Whether a line has its answer in a directory.
fn holds(
    rt: HostRuntime,
    directory: &str,
    folder: &mut Real<'_>,
    line: &str,
) -> Result<bool, Fail> {
    let step = step_of(line)?;
    if OTHERS.contains(step.word) {
        is_done(rt, directory, step)
    } else {
        Ok(is_answered(rt.alloc(), folder, step)?)
    }
}

/// Follows a script. It fails at the first line that has another answer.
fn follow(
    rt: HostRuntime,
    directory: &str,
    folder: &mut Real<'_>,
    script: &str,
) -> Result<(), Fail> {
    for line in script.lines() {
        if !holds(rt, directory, folder, line)? {
            return Err(line.into());
        }
    }
    Ok(())
}

/// Follows a script in a directory.
fn follow_in(rt: HostRuntime, directory: &str, script: &str) -> Result<(), Fail> {
    let mut folder = HostFolder::new(&rt, rt.alloc(), directory)?;
    follow(rt, directory, &mut folder, script)
}

/// Follows a script in a new directory, which is then removed.
fn follow_anew(rt: HostRuntime, directory: &str, script: &str) -> Result<(), Fail> {
    rt.create_dir(directory)?;
    follow_in(rt, directory, script)?;
    rt.remove_dir_all(rt.alloc(), directory)?;
    Ok(())
}

/// Names with a regular file, and with other things.
const TAKEN: &str = "\
write file its bytes: done\n\
symlink link file: done\n\
symlink .prelink.link nowhere: done\n\
mkdir directory: done\n\
mkdir .prelink.directory: done\n\
extend large 268435457: done\n\
take file: its bytes\n\
names: file large\n\
take link: NotThere\n\
take missing: NotThere\n\
take .: NotThere\n\
take .prelink.link: NotThere\n\
take .prelink.directory: NotThere\n\
take large: TooLarge\n\
fault: none\n\
take directory: Failed\n\
fault: Take directory NotAFile\n\
take \0: Failed\n\
fault: Take directory NotAFile";

#[test]
fn takes_regular_files_alone(rt: HostRuntime) -> Result<(), Fail> {
    follow_anew(rt, "taken", TAKEN)
}

#[test]
fn devices_are_in_the_way(rt: HostRuntime) -> Result<(), Fail> {
    follow_in(rt, "/dev", "take null: Failed\nfault: Take null NotAFile")
}

/// A file of a name, with permission bits.
const OLD: &str = "\
write NAME old bytes: done\n\
chmod NAME BITS: done";

/// A new file for a name, which is written over one that is left over, and the name removed, twice.
const NEW: &str = "\
create .prelink.new.0: done\n\
append .prelink.new.0 left over, longer: done\n\
create .prelink.new.0: done\n\
append .prelink.new.0 new : done\n\
append .prelink.new.0 bytes: done\n\
firm .prelink.new.0: done\n\
bits .prelink.new.0: 600\n\
rename .prelink.new.0 NAME: done\n\
settle: done\n\
take NAME: new bytes\n\
bits NAME: BITS\n\
remove NAME: done\n\
remove NAME: done\n\
take NAME: NotThere";

/// The script for a name and permission bits.
fn script_for(alloc: Global, script: &str, name: &str, bits: &str) -> Result<String, AllocError> {
    let script = script.replace(alloc, "NAME", name)?;
    script.replace(alloc, "BITS", bits)
}

/// Follows a script for a name and permission bits.
fn follow_for(
    rt: HostRuntime,
    directory: &str,
    folder: &mut Real<'_>,
    script: &str,
    (name, bits): (&str, &str),
) -> Result<(), Fail> {
    let script = script_for(rt.alloc(), script, name, bits)?;
    follow(rt, directory, folder, script.as_str())
}

/// Names, and the permission bits of their files.
const KEPT: &str = "program 4750\nlibrary 644\nsecret 600\n.prelink.cache 640";

/// Replaces the file of a line, which has the bits of that line.
fn replace_old(rt: HostRuntime, folder: &mut Real<'_>, line: &str) -> Result<(), Fail> {
    let file = line.split_once(' ').ok_or("a blank")?;
    follow_for(rt, "kept", folder, OLD, file)?;
    follow_for(rt, "kept", folder, NEW, file)
}

/// Replaces the files of all lines, in one folder.
fn replace_all(rt: HostRuntime) -> Result<(), Fail> {
    let mut folder = HostFolder::new(&rt, rt.alloc(), "kept")?;
    for line in KEPT.lines() {
        replace_old(rt, &mut folder, line)?;
    }
    Ok(())
}

#[test]
fn a_new_file_keeps_the_bits_of_the_old_one(rt: HostRuntime) -> Result<(), Fail> {
    rt.create_dir("kept")?;
    replace_all(rt)?;
    rt.remove_dir_all(rt.alloc(), "kept")?;
    Ok(())
}

/// A file with the bits of each new file, a link to it, and a directory.
const USUAL: &str = "\
write usual: done\n\
symlink link usual: done\n\
mkdir .prelink.directory: done";

/// The file is as it was, and what has no file is not synced.
const AS_USUAL: &str = "\
take usual:\n\
firm .prelink.new.0: Failed\n\
fault: Sync .prelink.new.0 NotFound\n\
unlink usual: done";

/// Gives a name that has no regular file a new one, with the bits of each new file.
fn make_new(rt: HostRuntime, folder: &mut Real<'_>, name: &str) -> Result<(), Fail> {
    let bits = bits_at(rt, "usual/usual")?;
    let bits = format!(in rt.alloc(); "{bits:o}")?;
    follow_for(rt, "usual", folder, NEW, (name, bits.as_str()))
}

/// Gives each name that has no regular file a new one, in one folder.
fn make_each_new(rt: HostRuntime) -> Result<(), Fail> {
    let mut folder = HostFolder::new(&rt, rt.alloc(), "usual")?;
    follow(rt, "usual", &mut folder, USUAL)?;
    for name in "link new .prelink.directory".split(' ') {
        make_new(rt, &mut folder, name)?;
    }
    follow(rt, "usual", &mut folder, AS_USUAL)
}

#[test]
fn a_new_name_gets_the_usual_bits(rt: HostRuntime) -> Result<(), Fail> {
    rt.create_dir("usual")?;
    make_each_new(rt)?;
    rt.remove_dir_all(rt.alloc(), "usual")?;
    Ok(())
}

/// What a second folder of a directory answers while a first one has its lock.
const HELD: &str = "\
names: file\n\
create .prelink.new.0: Failed\n\
append file bytes: Failed\n\
rename file other: Failed\n\
remove file: Failed\n\
settle: Failed\n\
take file:\n\
names: file\n\
fault: Lock  Busy";

/// What it answers when the lock is free.
const FREE: &str = "\
settle: done\n\
remove file: done\n\
take file: NotThere";

/// Has a first folder take the lock, and a second one be refused.
fn be_held(rt: HostRuntime, second: &mut Real<'_>) -> Result<(), Fail> {
    let mut first = HostFolder::new(&rt, rt.alloc(), "locked")?;
    follow(rt, "locked", &mut first, "write file: done\nsettle: done")?;
    follow(rt, "locked", second, HELD)
}

/// Has a second folder be refused while there is a first one, and then not.
fn be_held_and_free(rt: HostRuntime) -> Result<(), Fail> {
    let mut second = HostFolder::new(&rt, rt.alloc(), "locked")?;
    be_held(rt, &mut second)?;
    follow(rt, "locked", &mut second, FREE)
}

#[test]
fn one_writes_at_a_time(rt: HostRuntime) -> Result<(), Fail> {
    rt.create_dir("locked")?;
    be_held_and_free(rt)?;
    rt.remove_dir_all(rt.alloc(), "locked")?;
    Ok(())
}

/// Own names that no regular file has: `names` leaves them until the folder is locked, and then clears them away.
const CLEARED: &str = "\
write .prelink.file: done\n\
symlink .prelink.link nowhere: done\n\
mkdir .prelink.directory: done\n\
names: .prelink.file\n\
is .prelink.link: there\n\
settle: done\n\
names: .prelink.file\n\
is .prelink.link: gone\n\
is .prelink.directory: gone\n\
mkdir .prelink.full: done\n\
write .prelink.full/file: done\n\
names: Failed\n\
create .prelink.full: Failed\n\
fault: Remove .prelink.full DirectoryNotEmpty\n\
unlink .prelink.full/file: done\n\
create .prelink.full: done\n\
remove .prelink.full: done\n\
remove .prelink.file: done";

#[test]
fn own_names_are_cleared(rt: HostRuntime) -> Result<(), Fail> {
    follow_anew(rt, "cleared", CLEARED)
}
