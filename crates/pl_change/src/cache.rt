//! The cache of a folder.
ghost use Rattle.std.specs.Prelude.{◌≡◌, IfOk};
ghost use Rattle.pl_cache.specs.Spelling.{cache_bytes};
ghost use Rattle.pl_change.specs.Answers.{Finds, BatchMeansAlone};
ghost use Rattle.pl_change.specs.Folder as spec;

use crate::{BatchFault, Cause};
use pl_base::Rows;
use pl_cache::{Cache, CacheFault, read_cache, write_cache};
use pl_folder::{Folder, FolderFault};
use pl_io::NoMemory;
use std::alloc::Global;

/// The name of the cache.
pub const CACHE: &str = ".prelink.cache";

/// The bytes of a cache without slots, whose last stamp is 0.
fn no_cache(alloc: Global) -> Result<Vec<u8>, NoMemory>
    ensures { IfOk result (λ bytes. bytes.items ≡ cache_bytes spec.no_cache) }
{
    let cache = Cache {
        last: 0,
        rows: Rows::new(alloc),
    };
    write_cache(alloc, &cache)
}

/// The bytes of the folder's cache; where there is no file of its name, those of an empty one. The one cause is BadCache: the file is longer than a folder gives.
///
/// `DiskFailed` comes only where the folder failed. No call writes to the folder.
pub fn cache_file<D: Folder>(alloc: Global, folder: &mut D) -> Result<Vec<u8>, BatchFault>
    ensures { Finds (spec.cache_file (D.seen folder.old).files) (λ bytes. bytes.items) result
        (D.seen folder.old) (D.seen folder.new) }
{
    match folder.take(alloc, CACHE) {
        Ok(bytes) => Ok(bytes),
        Err(FolderFault::NotThere) => Ok(no_cache(alloc)?),
        Err(FolderFault::TooLarge) => Err(BatchFault::Cause(Cause::BadCache)),
        Err(FolderFault::Failed) => Err(BatchFault::DiskFailed),
        Err(FolderFault::NoMemory) => Err(BatchFault::NoMemory),
    }
}

/// What bytes say as a cache. The one cause is BadCache: they are outside its grammar.
#[tactic(auto, unfolding(crate::specs::Folder::cache_in))]
pub fn cache_in(alloc: Global, bytes: &[u8]) -> Result<Cache, BatchFault>
    ensures { BatchMeansAlone (spec.cache_in bytes.now) result }
{
    match read_cache(alloc, bytes) {
        Ok(cache) => Ok(cache),
        Err(CacheFault::BadCache) => Err(BatchFault::Cause(Cause::BadCache)),
        Err(CacheFault::NoMemory) => Err(BatchFault::NoMemory),
    }
}
