// Where bytes of memory stand in the file.
ghost use Rattle.std.specs.Prelude.{◌≡◌, ◌+◌, ◌≤◌, length, true, Some};
ghost use Rattle.pl_object.specs.FilePart as spec;

use crate::Window;
use pl_base::{end, part};
use pl_elf::Segment;

#[tactic(auto, unfolding(crate::specs::FilePart::loads_byte))]
pub fn loads_byte(address: u128, segment: &Segment) -> bool
    ensures { result ≡ spec.loads_byte address segment.now }
{
    segment.is_load()
        && u128::from(segment.vaddr) <= address
        && address < end(segment.vaddr, segment.filesz)
}

fn loader(segments: &[Segment], address: u128) -> Option<Segment>
    ensures { result ≡ spec.loader segments.now address }
{
    segments
        .iter()
        .copied()
        .find(|segment| loads_byte(address, segment))
}

/// The file bytes of a window of memory whose first byte a PT_LOAD loads.
#[tactic(auto, using(crate::proofs::FilePartLaws::byte_below, crate::proofs::FilePartLaws::byte_above))]
pub fn loaded_by(memory: Window, segment: &Segment) -> Window
    requires { spec.loads_byte memory.at segment.now ≡ true }
    ensures { result ≡ spec.loaded_by memory (Some segment.now) }
{
    let rest = end(segment.vaddr, segment.filesz) - memory.at();
    let size = u128::from(memory.size()).min(rest) as u64;
    let at = u128::from(segment.offset) + (memory.at() - u128::from(segment.vaddr));
    Window::new(at, size)
}

/// The file bytes of a window of memory: those from its first byte on that the first PT_LOAD with that byte among its file bytes loads (gABI chapter 5, "Program Header"). None of its bytes are where no PT_LOAD loads the first from the file.
#[tactic(auto, using(crate::proofs::FilePartLaws::loader_loads_byte), unfolding(crate::specs::FilePart::file_window))]
pub fn file_window(segments: &[Segment], memory: Window) -> Window
    ensures { result ≡ spec.file_window segments.now memory }
{
    match loader(segments, memory.at()) {
        None => Window::new(0, 0),
        Some(segment) => loaded_by(memory, &segment),
    }
}

/// Whether a window of memory is in the file part: inside the file bytes of one PT_LOAD. A window of no bytes is, wherever it lies.
#[tactic(auto, unfolding(crate::specs::FilePart::in_file_part))]
pub fn in_file_part(segments: &[Segment], memory: Window) -> bool
    ensures { result ≡ spec.in_file_part segments.now memory }
{
    file_window(segments, memory).size() == memory.size()
}

/// The bytes of the file that are loaded at a window of memory, as far as one PT_LOAD loads them.
#[tactic(auto, unfolding(crate::specs::FilePart::loaded))]
pub fn loaded<'a>(bytes: &'a [u8], segments: &[Segment], memory: Window) -> &'a [u8]
    ensures bytes { result.now ≡ spec.loaded bytes.now segments.now memory }
    ensures within { length result.now ≤ length bytes.now }
{
    let window = file_window(segments, memory);
    part(bytes, window.at(), window.size())
}
