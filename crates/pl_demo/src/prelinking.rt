// The run that prelinks the set.
ghost use Rattle.std.specs.Prelude.{◌≡◌, ◌≢◌, OnOk, true};
ghost use Rattle.pl_folder.specs.InMemory.{quiet_files};
ghost use Rattle.pl_demo.specs.Prelinked as spec;

use pl_batch::{Prelinking, Run, do_run};
use pl_change::BatchFault;
use pl_elf::Range;
use pl_folder::QuietFolder;
use pl_io::NoMemory;
use std::alloc::Global;

/// The addresses from which slots are given, those of `-a` without `--region`: 64 GiB.
pub const REGION: Range = Range {
    start: 0x30_0000_0000,
    end: 0x40_0000_0000,
};

/// What the run is asked: no slots that overlap, and the moment 1.
pub const ASKED: Prelinking = Prelinking {
    region: REGION,
    share: false,
    moment: 1,
};

/// A run that is refused is done. A folder in memory never fails, so what else stops one over it is want of memory.
fn unless_refused(fault: &BatchFault) -> Result<(), NoMemory>
    requires { fault.now ≢ BatchFault.DiskFailed }
    ensures { OnOk result (spec.is_refused fault.now ≡ true) }
{
    match fault {
        BatchFault::Cause(_) => Ok(()),
        BatchFault::DiskFailed => unreachable!(),
        BatchFault::NoMemory => Err(NoMemory),
    }
}

/// Prelinks the files of a folder, as `-a` does; where that is refused they stay as they are.
pub fn prelink(alloc: Global, folder: &mut QuietFolder) -> Result<(), NoMemory>
    ensures { OnOk result (quiet_files folder.new ≡ spec.prelinked (quiet_files folder.old)) }
{
    match do_run(alloc, folder, &Run::All(ASKED)) {
        Ok(_) => Ok(()),
        Err(fault) => unless_refused(&fault),
    }
}
