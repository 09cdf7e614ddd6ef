// Collects the records of the versions that an object defines and needs.
ghost use Rattle.std.specs.Prelude.{◌+◌, ◌++◌, ◌≤◌, length};
ghost use Rattle.pl_base.specs.Answers.{Answers};
ghost use Rattle.pl_ver.specs.Chains.{defined, needed, needed_at};
ghost use Rattle.pl_ver.specs.Versions as spec;
ghost use Rattle.pl_ver.specs.Collecting.{AreVerdefs, AreVerneeds, IsVerneed, add_all, distinct};

use crate::constants::{VERDEF_SIZE, VERNAUX_SIZE, VERNEED_SIZE};
use crate::fault::VerFault;
use crate::fields::{following, verdef_at, vernaux_at, verneed_count, verneed_versions};
use crate::records::Records;
use std::alloc::Global;

/// Adds the Verdefs of a section.
fn with_defined(records: Records, verdef: &[u8], defs: u64) -> Result<Records, VerFault>
    requires { AreVerdefs verdef.now defs }
    ensures { Answers spec.is_memory result (add_all records (defined verdef.now defs)) }
{
    let mut records = records;
    let mut at = 0;
    let mut more = defs;
    while more > 0 {
        more -= 1;
        records = records.with(verdef_at(verdef, at))?;
        at = following(verdef, VERDEF_SIZE, at);
    }
    Ok(records)
}

/// Adds the versions that are needed of a Verneed's file.
fn with_needed_at(records: Records, verneed: &[u8], verneed_at: usize) -> Result<Records, VerFault>
    requires record { verneed_at + VERNEED_SIZE ≤ length verneed.now }
    requires chain { IsVerneed verneed.now verneed_at }
    ensures { Answers spec.is_memory result (add_all records (needed_at verneed.now verneed_at)) }
{
    let mut records = records;
    let mut at = verneed_versions(verneed, verneed_at);
    let mut more = verneed_count(verneed, verneed_at);
    while more > 0 {
        more -= 1;
        records = records.with(vernaux_at(verneed, at))?;
        at = following(verneed, VERNAUX_SIZE, at);
    }
    Ok(records)
}

/// Adds the versions that are needed of the files of a section's Verneeds.
fn with_needed(records: Records, verneed: &[u8], needs: u64) -> Result<Records, VerFault>
    requires { AreVerneeds verneed.now needs }
    ensures { Answers spec.is_memory result (add_all records (needed verneed.now needs)) }
{
    let mut records = records;
    let mut at = 0;
    let mut more = needs;
    while more > 0 {
        more -= 1;
        records = with_needed_at(records, verneed, at)?;
        at = following(verneed, VERNEED_SIZE, at);
    }
    Ok(records)
}

/// The records of both sections, or `BadIndex` where two of them have the same index.
pub fn collect(
    alloc: Global,
    verdef: &[u8],
    defs: u64,
    verneed: &[u8],
    needs: u64,
) -> Result<Records, VerFault>
    requires verdefs { AreVerdefs verdef.now defs }
    requires verneeds { AreVerneeds verneed.now needs }
    ensures { Answers spec.is_memory result (distinct
        (defined verdef.now defs ++ needed verneed.now needs)) }
{
    let records = with_defined(Records::new(alloc)?, verdef, defs)?;
    with_needed(records, verneed, needs)
}
