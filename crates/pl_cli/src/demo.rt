// The set of a number, prelinked in a folder of its own, and the loads of its programs.
ghost use Rattle.std.specs.Prelude.{◌≡◌, IfOk, OnOk};
ghost use Rattle.pl_folder.specs.InMemory.{quiet_files};
ghost use Rattle.pl_cli.specs.Came.{HasDemo};
ghost use Rattle.pl_cli.specs.Demo as spec;

use crate::top::load_and_write;
use pl_base::Text;
use pl_demo::{Counts, DemoFolder, demo_folder};
use pl_folder::QuietFolder;
use pl_io::NoMemory;
use pl_texts::{Stop, TextSink, digest_line, push_count};
use pl_words::{Policy, Status};
use std::alloc::{AllocError, Global};

/// What the load of a program comes to.
#[derive(Drop)]
struct Load {
    /// Its text.
    text: Vec<u8>,

    /// Whether it starts from the prelinked files as they stand.
    fast: bool,
}

/// What the loads of some programs come to.
#[derive(Drop)]
struct Loads {
    /// Their texts, one after the other.
    texts: Vec<u8>,

    /// How many start from the prelinked files as they stand.
    fast: usize,
}

/// The text of the load of a name over a folder in memory. Neither the folder nor the sink fails but for want of memory.
fn text_of(alloc: Global, folder: &mut QuietFolder, name: &str) -> Result<Vec<u8>, NoMemory>
    ensures text { IfOk result (λ text.
        text.items ≡ spec.text_of (spec.load (quiet_files folder.old) name.now)) }
    ensures same { OnOk result (quiet_files folder.new ≡ quiet_files folder.old) }
{
    let mut output = TextSink::new(alloc);
    match load_and_write(alloc, folder, &mut output, name, None, Policy::Lowest) {
        Status::Done => Ok(output.into_text()),
        Status::Refused => Ok(output.into_text()),
        Status::WriteFault => Err(NoMemory),
        Status::NoMemory => Err(NoMemory),
        Status::Differs => unreachable!(),
        Status::Usage => unreachable!(),
        Status::ReadFault => unreachable!(),
        Status::DiskFault => unreachable!(),
    }
}

/// Whether a text is that of a start from the prelinked files as they stand.
fn begins_fast(text: &[u8]) -> bool
    ensures { result ≡ spec.begins_fast text.now }
{
    text.starts_with(b"fast\n")
}

/// The load of a name over a folder in memory.
fn load_of(alloc: Global, folder: &mut QuietFolder, name: &str) -> Result<Load, NoMemory>
    ensures text { IfOk result (λ load.
        load.text.items ≡ spec.text_of (spec.load (quiet_files folder.old) name.now)) }
    ensures fast { IfOk result (λ load.
        load.fast ≡ spec.is_fast (spec.load (quiet_files folder.old) name.now)) }
    ensures same { OnOk result (quiet_files folder.new ≡ quiet_files folder.old) }
{
    let text = text_of(alloc, folder, name)?;
    let fast = begins_fast(&text);
    Ok(Load { text, fast })
}

/// The loads of names, one after the other.
#[tactic(auto, unfolding(crate::specs::Demo::load_texts, crate::specs::Demo::fast_loads))]
fn loads_of(alloc: Global, folder: &mut QuietFolder, names: &[Text]) -> Result<Loads, NoMemory>
    ensures texts { IfOk result (λ loads.
        loads.texts.items ≡ spec.load_texts (quiet_files folder.old) names.now) }
    ensures fast { IfOk result (λ loads.
        loads.fast ≡ spec.fast_loads (quiet_files folder.old) names.now) }
{
    let mut texts = Vec::new(alloc);
    let mut fast = 0;
    for name in names {
        let load = load_of(alloc, folder, name.as_str())?;
        texts.extend_from_slice(&load.text)?;
        if load.fast {
            fast += 1;
        }
    }
    Ok(Loads { texts, fast })
}

/// The five lines.
#[tactic(auto, unfolding(crate::specs::Demo::lines))]
fn lines(alloc: Global, size: usize, counts: Counts, loads: &Loads) -> Result<Vec<u8>, AllocError>
    ensures { IfOk result (λ text.
        text.items ≡ spec.lines size counts loads.now.fast loads.now.texts.items) }
{
    let mut text = Vec::new(alloc);
    push_count(alloc, &mut text, "files", size)?;
    push_count(alloc, &mut text, "relocations", counts.relocations)?;
    push_count(alloc, &mut text, "conflicts", counts.conflicts)?;
    push_count(alloc, &mut text, "fast", loads.fast)?;
    let digest = digest_line(alloc, &loads.texts)?;
    text.extend_from_slice(digest.as_bytes())?;
    Ok(text)
}

/// The five lines of a set that was made and prelinked.
fn shown(alloc: Global, made: DemoFolder) -> Result<Vec<u8>, NoMemory>
    ensures { IfOk result (λ text. text.items ≡ spec.lines made.size made.counts
        (spec.fast_loads (quiet_files made.folder) made.programs)
        (spec.load_texts (quiet_files made.folder) made.programs)) }
{
    let DemoFolder {
        mut folder,
        size,
        counts,
        programs,
    } = made;
    let loads = loads_of(alloc, &mut folder, programs.as_slice())?;
    Ok(lines(alloc, size, counts, &loads)?)
}

/// What the set of a number has, prelinked in a folder of its own in memory, and what the loads of its programs come to, in five lines. It stops only for want of memory.
pub fn demo(alloc: Global, number: u64) -> Result<Vec<u8>, Stop>
    ensures { HasDemo number result }
{
    let made = demo_folder(alloc, number)?;
    Ok(shown(alloc, made)?)
}
