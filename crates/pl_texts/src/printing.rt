// The text of the cache.
ghost use Rattle.pl_texts.specs.Finds.{HasPrinted};

use crate::cache_text::{no_cache_text, spelled_text};
use crate::cause::Cause;
use crate::stop::Stop;
use pl_folder::{Folder, FolderFault};
use std::alloc::Global;

/// The name of the cache's file.
pub const CACHE: &str = ".prelink.cache";

/// The text of the folder's cache, or why there is none. The folder is asked for one file.
pub fn print<D: Folder>(alloc: Global, folder: &mut D) -> Result<Vec<u8>, Stop>
    ensures { HasPrinted result (D.seen folder.old) (D.seen folder.new) }
{
    match folder.take(alloc, CACHE) {
        Ok(bytes) => Ok(spelled_text(alloc, &bytes)?),
        Err(FolderFault::NotThere) => Ok(no_cache_text(alloc)?),
        Err(FolderFault::TooLarge) => Err(Stop::Cause(Cause::BadCache)),
        Err(FolderFault::Failed) => Err(Stop::Failed),
        Err(FolderFault::NoMemory) => Err(Stop::NoMemory),
    }
}
