// Tests of pl_stage, over a folder in memory.
ghost use Rattle.std.specs.Prelude.{OnOk};
ghost use Rattle.pl_base.specs.Names.{IsNameLength};
ghost use Rattle.pl_folder.specs.Calls.{IsThere};

use crate::folder::{folder, has};
use pl_cases::{number, parts};
use pl_folder::{Folder, FolderFault, MemoryFolder};
use pl_stage::{Held, firm_there, fresh};
use std::alloc::Global;
use std::test::Fail;

/// Writes a file in two pieces, makes it firm, and gives it another name.
fn name_new(alloc: Global, folder: &mut MemoryFolder) -> Result<(), FolderFault> {
    let mut held = Held { folder };
    let file = match fresh(&mut held, alloc, "a") {
        Ok(file) => file,
        Err(fault) => return Err(fault),
    };
    let file = match file.write(alloc, b"two ") {
        Ok(file) => file,
        Err(fault) => return Err(fault),
    };
    let file = match file.write(alloc, b"pieces") {
        Ok(file) => file,
        Err(fault) => return Err(fault),
    };
    match file.firm() {
        Ok(file) => file.name_as("q")?,
        Err(fault) => return Err(FolderFault::from(fault)),
    }
    Ok(())
}

/// What a read gives after so many of the calls.
const NAMED: &str = "\
0: .prelink.new.0=old q=old\n\
1: .prelink.new.0=old a= q=old\n\
2: .prelink.new.0=old a=two  q=old\n\
3: .prelink.new.0=old a=two pieces q=old\n\
4: .prelink.new.0=old a=two pieces q=old";

/// What it gives after all of them.
const ALL_NAMED: &str = ".prelink.new.0=old q=two pieces";

#[test]
fn names_a_file_that_is_firm(rt: HostRuntime) -> Result<(), FolderFault> {
    let alloc = rt.alloc();
    let mut folder = folder(alloc, 100, 100)?;
    name_new(alloc, &mut folder)?;
    assert!(rt; folder.moments() == 5);
    assert!(rt; has(alloc, &mut folder, ALL_NAMED)?);
    Ok(())
}

/// Whether a folder whose call of that number fails is left as a line says.
fn fails_at(alloc: Global, line: &str) -> Result<bool, Fail> {
    let (fails, files) = parts(line)?;
    let fails = number(fails)?;
    let mut folder = folder(alloc, fails, 100)?;
    let failed = name_new(alloc, &mut folder) == Err(FolderFault::Failed);
    let counted = folder.moments() == fails.wrapping_add(1);
    Ok(failed && counted && has(alloc, &mut folder, files)?)
}

#[test]
fn fails_at_each_call(rt: HostRuntime) -> Result<(), Fail> {
    for line in NAMED.lines() {
        if !fails_at(rt.alloc(), line)? {
            return Err(line.into());
        }
    }
    Ok(())
}

/// Makes a new file firm, and leaves it so.
fn leave_firm<D: Folder>(held: &mut Held<D>, alloc: Global, name: &str) -> Result<(), FolderFault>
    requires { IsNameLength name.now }
    ensures { OnOk result (IsThere (D.seen held.new.folder) name.now) }
{
    let file = match fresh(held, alloc, name) {
        Ok(file) => file,
        Err(fault) => return Err(fault),
    };
    match file.firm() {
        Ok(file) => {
            file.leave();
            Ok(())
        }
        Err(fault) => Err(FolderFault::from(fault)),
    }
}

/// Makes a new file firm and leaves it, makes it firm again, and gives it another name.
fn name_there(alloc: Global, folder: &mut MemoryFolder) -> Result<(), FolderFault> {
    let mut held = Held { folder };
    leave_firm(&mut held, alloc, "a")?;
    match firm_there(&mut held, "a") {
        Ok(file) => file.name_as("q")?,
        Err(fault) => return Err(FolderFault::from(fault)),
    }
    Ok(())
}

/// What a read gives after so many of the calls.
const THERE: &str = "\
0: .prelink.new.0=old q=old\n\
1: .prelink.new.0=old a= q=old\n\
2: .prelink.new.0=old a= q=old\n\
3: .prelink.new.0=old a= q=old";

/// What it gives after all of them.
const ALL_THERE: &str = ".prelink.new.0=old q=";

/// Whether a folder whose call of that number fails is left as a line says.
fn fails_there(alloc: Global, line: &str) -> Result<bool, Fail> {
    let (fails, files) = parts(line)?;
    let mut folder = folder(alloc, number(fails)?, 100)?;
    let failed = name_there(alloc, &mut folder) == Err(FolderFault::Failed);
    Ok(failed && has(alloc, &mut folder, files)?)
}

#[test]
fn names_a_file_that_is_there(rt: HostRuntime) -> Result<(), Fail> {
    let alloc = rt.alloc();
    let mut whole = folder(alloc, 100, 100)?;
    name_there(alloc, &mut whole)?;
    assert!(rt; has(alloc, &mut whole, ALL_THERE)?);
    for line in THERE.lines() {
        if !fails_there(alloc, line)? {
            return Err(line.into());
        }
    }
    Ok(())
}
