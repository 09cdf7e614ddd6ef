// A run of `--demo`.
use crate::running::ran;
use pl_folder::MemoryFolder;
use std::test::Fail;

// The text of a run for the number 1, by another generator, builder and loader: 50 libraries and 4 programs.
const OF_ONE: &[u8] =
    b"files 54\nrelocations 6660\nconflicts 10045\nfast 4\ndigest 0f08e496a142b929cdfed2bf7b87022986d3ee2d41d5073df1245e7e4b0f2c83\n";

// No call of the folder is made: its first one would fail.
#[test]
fn set_of_one(rt: HostRuntime) -> Result<(), Fail> {
    let alloc = rt.alloc();
    let mut folder = MemoryFolder::new(alloc, &[], Vec::from_slice(alloc, &[0])?, 1)?;
    assert!(rt; ran(alloc, &mut folder, "--demo 1")?.1.as_slice() == OF_ONE);
    assert!(rt; ran(alloc, &mut folder, "--demo 1")?.1.as_slice() == OF_ONE);
    Ok(())
}
