// Runs that are stopped at each moment: what the folder that a crash leaves is worth, and what the same run makes of it.
use crate::running::{Asked, File, Ran, files_in, folder_of, run_over, run_two};
use pl_base::is_own_name;
use pl_folder::MemoryFolder;
use std::alloc::Global;
use std::test::Fail;

// Which changes since the last settle outlast the crash: none, all, every second.
const CHOICES: [u64; 3] = [0, u64::MAX, 0x5555_5555_5555_5555];

/// A run as it is to be: the first time, and where it was done before; and the files that it leaves.
#[derive(Drop)]
struct Whole {
    first: Ran,
    again: Ran,
    files: Vec<File>,
}

/// What a load prints outside its first line, which names the path.
fn outside_path(text: &[u8]) -> &[u8] {
    if text.len() >= 5 && (text.starts_with(b"fast\n") || text.starts_with(b"slow\n")) {
        &text[5..]
    } else {
        text
    }
}

/// The files under valid names.
fn named_files(alloc: Global, files: &[File]) -> Result<Vec<File>, Fail> {
    let mut named = Vec::new(alloc);
    for (name, bytes) in files {
        if !is_own_name(name.as_bytes()) {
            named.push((name.clone()?, bytes.clone()?))?;
        }
    }
    Ok(named)
}

/// What loading a program prints where none of the folder's files is prelinked.
fn plain_load(alloc: Global, folder: &mut MemoryFolder, program: &str) -> Result<Ran, Fail> {
    let files = files_in(alloc, folder)?;
    let mut plain = folder_of(alloc, &named_files(alloc, &files)?, &[])?;
    let _undone = run_two(alloc, &mut plain, "-u", "-a")?;
    run_two(alloc, &mut plain, "--load", program)
}

/// Whether a program of an image starts from what plain linking gives.
fn loads_as_ever(alloc: Global, image: &mut MemoryFolder, program: &str) -> Result<bool, Fail> {
    let plain = plain_load(alloc, image, program)?;
    let loaded = run_two(alloc, image, "--load", program)?;
    Ok(outside_path(&loaded.text) == outside_path(&plain.text) && loaded.status == plain.status)
}

/// Whether a run is another one over again.
fn is_again(ran: &Ran, other: &Ran) -> bool {
    ran.status == other.status && ran.text.as_slice() == other.text.as_slice()
}

/// Whether the run over an image, where it may have been done, leaves its files.
fn ends_as_ever(
    alloc: Global,
    image: &mut MemoryFolder,
    asked: &Asked,
    whole: &Whole,
) -> Result<bool, Fail> {
    let ran = run_over(alloc, image, asked)?;
    let is_one = is_again(&ran, &whole.first) || is_again(&ran, &whole.again);
    Ok(is_one && files_in(alloc, image)?.as_slice() == whole.files.as_slice())
}

/// Whether what a crash at a moment leaves is worth a folder, whatever outlasts it.
fn images_are_sound(
    alloc: Global,
    folder: &MemoryFolder,
    moment: u64,
    asked: &Asked,
    program: &str,
    whole: &Whole,
) -> Result<bool, Fail> {
    if moment > folder.moments() {
        return Ok(false);
    }
    for choice in CHOICES {
        let mut image = folder.image(alloc, moment, choice)?;
        if !loads_as_ever(alloc, &mut image, program)? {
            return Ok(false);
        }
        if !ends_as_ever(alloc, &mut image, asked, whole)? {
            return Ok(false);
        }
    }
    Ok(true)
}

/// The first moment at which a stopped run leaves what it should not.
fn first_bad(
    alloc: Global,
    folder: &MemoryFolder,
    last: u64,
    asked: &Asked,
    program: &str,
    whole: &Whole,
) -> Result<Option<u64>, Fail> {
    for moment in 0..=last {
        if !images_are_sound(alloc, folder, moment, asked, program, whole)? {
            return Ok(Some(moment));
        }
    }
    Ok(None)
}

/// What is written of a run that is stopped at each moment.
fn told(alloc: Global, whole: &Whole, bad: Option<u64>) -> Result<String, Fail> {
    let first = str::from_utf8(&whole.first.text)?;
    let again = str::from_utf8(&whole.again.text)?;
    let first_status = whole.first.status;
    let again_status = whole.again.status;
    Ok(match bad {
        None => format!(in alloc;
            "first: {first}{first_status:?}\nagain: {again}{again_status:?}\nstopped anywhere: before or after\n"
        )?,
        Some(moment) => format!(in alloc; "stopped at {moment}: neither\n")?,
    })
}

/// A run, the same run once more, and whether what is left where it is stopped at any moment is worth a folder: a program of it starts from what plain linking gives, and the run over it leaves the files that it is to leave.
pub fn stops(alloc: Global, files: &[File], asked: &Asked, program: &str) -> Result<String, Fail> {
    let mut folder = folder_of(alloc, files, &[])?;
    let first = run_over(alloc, &mut folder, asked)?;
    let last = folder.moments();
    let after = files_in(alloc, &mut folder)?;
    let mut next = folder_of(alloc, &after, &[])?;
    let again = run_over(alloc, &mut next, asked)?;
    let whole = Whole {
        first,
        again,
        files: after,
    };
    let bad = first_bad(alloc, &folder, last, asked, program, &whole)?;
    told(alloc, &whole, bad)
}
