// Runs of which each call of the folder, the input or the output fails in turn.
use crate::running::{Asked, File, Ran, files_in, folder_of, run_over, run_two};
use pl_cli::Status;
use std::alloc::Global;
use std::test::Fail;

/// The object of which a call fails.
#[derive(Clone, Copy)]
enum Place {
    Folder,
    Input,
    Output,
}

// An output that takes few bytes has many calls.
const FEW: usize = 8;

/// A run as it is to be: what it writes, and the files before it and after it.
#[derive(Drop)]
struct Whole {
    text: Vec<u8>,
    before: Vec<File>,
    after: Vec<File>,
}

/// A run, and the files of the folder once it is recovered.
#[derive(Drop)]
struct Failed {
    ran: Ran,
    files: Vec<File>,
}

/// The run of which the call of this number fails at this place, if it is not the folder.
fn failing(alloc: Global, asked: &Asked, place: Place, call: u64) -> Result<Asked, Fail> {
    let mut input_fails = Vec::new(alloc);
    let mut output_fails = Vec::new(alloc);
    match place {
        Place::Folder => {}
        Place::Input => input_fails.push(call)?,
        Place::Output => output_fails.push(call)?,
    }
    Ok(Asked {
        words: asked.words.clone()?,
        input: asked.input.clone()?,
        now: asked.now,
        input_fails,
        output_fails,
        most: FEW,
    })
}

/// A run over these files of which the call of this number fails at this place.
fn run_failing(
    alloc: Global,
    files: &[File],
    asked: &Asked,
    place: Place,
    call: u64,
) -> Result<Failed, Fail> {
    let mut fails = Vec::new(alloc);
    if matches!(place, Place::Folder) {
        fails.push(call)?;
    }
    let failing = failing(alloc, asked, place, call)?;
    let mut folder = folder_of(alloc, files, &fails)?;
    let ran = run_over(alloc, &mut folder, &failing)?;
    let _recovered = run_two(alloc, &mut folder, "--remove", "nothing")?;
    let files = files_in(alloc, &mut folder)?;
    Ok(Failed { ran, files })
}

/// Whether a run that failed ended so, wrote no more than its text, and left the files before or after.
fn is_whole(failed: &Failed, place: Place, whole: &Whole) -> bool {
    let files = failed.files.as_slice();
    let text = failed.ran.text.as_slice();
    let is_before = files == whole.before.as_slice();
    let is_after = files == whole.after.as_slice();
    match place {
        Place::Folder => {
            failed.ran.status == Status::DiskFault && text.is_empty() && (is_before || is_after)
        }
        Place::Input => { failed.ran.status == Status::ReadFault && text.is_empty() && is_before }
        Place::Output => {
            failed.ran.status == Status::WriteFault && whole.text.starts_with(text) && is_after
        }
    }
}

/// How many calls of a place there are, each of which fails in turn until a run makes no call of that number; none where a run that failed is not as it is to be, or leaves the files before after an earlier call left those after, or where the last call of a folder leaves those before.
fn calls(alloc: Global, asked: &Asked, place: Place, whole: &Whole) -> Result<Option<u64>, Fail> {
    let mut was_after = false;
    for call in 0..1000_u64 {
        let failed = run_failing(alloc, &whole.before, asked, place, call)?;
        if failed.ran.status == Status::Done {
            let is_last_kept = was_after || !matches!(place, Place::Folder);
            return Ok(is_last_kept.then_some(call));
        }
        let is_after = failed.files.as_slice() == whole.after.as_slice();
        if !is_whole(&failed, place, whole) || (was_after && !is_after) {
            return Ok(None);
        }
        was_after = is_after;
    }
    Ok(None)
}

/// Whether each call of the folder, of the input and of the output fails as it is to. The folder has so many calls; the input has some exactly where it is read.
pub fn fails_everywhere(alloc: Global, files: &[File], asked: &Asked) -> Result<String, Fail> {
    let mut folder = folder_of(alloc, files, &[])?;
    let before = files_in(alloc, &mut folder)?;
    let mut folder = folder_of(alloc, files, &[])?;
    let ran = run_over(alloc, &mut folder, asked)?;
    let moments = folder.moments();
    let whole = Whole {
        text: ran.text,
        before,
        after: files_in(alloc, &mut folder)?,
    };
    let of_folder = calls(alloc, asked, Place::Folder, &whole)? == Some(moments);
    let of_input = match calls(alloc, asked, Place::Input, &whole)? {
        Some(count) => (count == 0) == asked.input.is_empty(),
        None => false,
    };
    let of_output = matches!(calls(alloc, asked, Place::Output, &whole)?, Some(1..));
    Ok(format!(in alloc;
        "each call fails: folder {of_folder}, input {of_input}, output {of_output}\n"
    )?)
}
