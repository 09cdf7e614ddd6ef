ghost use Rattle.std.specs.Prelude.{◌≡◌, map, IfOk};
ghost use Rattle.pl_base.specs.Answers.{Answers};
ghost use Rattle.pl_ver.specs.Chains.{defined};
ghost use Rattle.pl_ver.specs.Versions as spec;

use crate::chains::{are_verdefs, are_verneeds};
use crate::collecting::collect;
use crate::demand::Demand;
use crate::fault::VerFault;
use crate::fields::words;
use crate::indices::{any_misplaced, any_unknown};
use crate::record::Record;
use crate::versions::{VersionName, Versions};
use pl_base::{Rows, Strings};
use std::alloc::{AllocError, Global};

/// The string that begins at an offset, empty where it has no end.
#[tactic(auto, unfolding(crate::specs::Versions::name_at))]
fn name_at<'a>(strings: &Strings<'a>, at: u32) -> &'a [u8]
    ensures { result.now ≡ spec.name_at strings.now at }
{
    match strings.string_at(at) {
        None => &[],
        Some(name) => name,
    }
}

#[tactic(auto, unfolding(crate::specs::Versions::named))]
fn named(alloc: Global, strings: &Strings<'_>, row: &Record) -> Result<VersionName, AllocError>
    ensures { IfOk result (λ name. name ≡ spec.named strings.now row.now) }
{
    Ok(VersionName {
        index: row.index,
        name: Rows::from_vec(Vec::from_slice(alloc, name_at(strings, row.name))?),
        defined: row.defined,
    })
}

/// Asks for the bytes of all names, before any is copied.
fn ask_for_names(alloc: Global, strings: &[u8], records: &[Record]) -> Result<(), AllocError> {
    let mut demand = Demand::new(strings);
    for row in records {
        demand.add(alloc, row.name)?;
    }
    demand.ask(alloc)
}

fn names(
    alloc: Global,
    strings: &Strings<'_>,
    records: &[Record],
) -> Result<Rows<VersionName>, AllocError>
    ensures { IfOk result (λ names. names ≡ map (spec.named strings.now) records.now) }
{
    let mut names = Rows::new(alloc);
    for row in records {
        names.push(named(alloc, strings, row)?)?;
    }
    Ok(names)
}

/// The versions of an object's symbols, from the bytes of its sections `.gnu.version`, `.gnu.version_d` and `.gnu.version_r` and of its strings (GNU symbol versioning). `defs` and `needs` are the counts of Verdef and Verneed records, which begin their sections; where a count is 0, nothing of its section counts. `index` is the whole words of `versym`, and `names` has first a row for each Verdef, with its first name, then one for each Vernaux.
///
/// `BadChain` is acceptance clause 17: a record passes its section, a chain is longer or shorter than its count (`next` is 0 in the last record alone), a Verdef has no name, or a name has no end in the strings. Else `BadIndex` is clause 18: two records have the same index, an index of 0 or 1 has a record other than a Verdef with flag `VER_FLG_BASE`, or a word's index of 2 or more, bit 15 aside, has no record. That the sections belong together, and that there is a word for each symbol, is the caller's to test. Versions, hashes and revisions of records are not looked at.
#[tactic(auto, unfolding(crate::specs::Versions::versions, crate::specs::Versions::checked, crate::specs::Versions::bad_index, crate::specs::Collecting::distinct))]
pub fn read_versions(
    alloc: Global,
    versym: &[u8],
    verdef: &[u8],
    defs: u64,
    verneed: &[u8],
    needs: u64,
    strings: &[u8],
) -> Result<Versions, VerFault>
    ensures { Answers spec.is_memory result (spec.versions versym.now verdef.now defs verneed.now
        needs strings.now) }
{
    let table = Strings::new(strings);
    if !(are_verdefs(alloc, &table, verdef, defs)?
        && are_verneeds(alloc, &table, verneed, needs)?)
    {
        return Err(VerFault::BadChain);
    }
    let records = collect(alloc, verdef, defs, verneed, needs)?;
    let index = words(alloc, versym)?;
    if any_misplaced(records.as_slice()) || any_unknown(&records, &index) {
        return Err(VerFault::BadIndex);
    }
    ask_for_names(alloc, strings, records.as_slice())?;
    Ok(Versions {
        index: Rows::from_vec(index),
        names: names(alloc, &table, records.as_slice())?,
    })
}
