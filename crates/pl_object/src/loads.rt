// PT_LOADs, found by the bytes that they load.
ghost use Rattle.std.specs.Prelude.{◌≡◌, nat_le, IfOk};
ghost use Rattle.pl_elf.specs.Clauses.{AreLoads};
ghost use Rattle.pl_elf.specs.Headers as headers;
ghost use Rattle.pl_object.specs.FilePart as spec;

use crate::Window;
use crate::file_part::{loaded_by, loads_byte};
use pl_base::part;
use pl_elf::{Segment, loads};
use std::alloc::{AllocError, Global};
use std::marker::Model;

/// A program header table whose PT_LOADs ascend in memory, with these by themselves: the one that loads a byte is found in `log n` steps. Contracts see it as the table.
#[derive(Drop)]
pub struct Loads {
    segments: Vec<Segment>,
    rows: Vec<Segment>,
}

impl Model for Loads {
    ghost use Rattle.std.specs.Prelude.{◌≡◌, List};
    ghost use Rattle.pl_elf.specs.Headers.{loads};
    ghost use Rattle.pl_elf.specs.Clauses.{AreLoads};
    ghost use Rattle.pl_elf.specs.declared.segment.Segment.{Segment};

    ghost Value = { List Segment };

    ghost view = { λ l. l.segments.items };

    ghost invariant = { λ l. (l.rows.items ≡ loads l.segments.items) × AreLoads l.rows.items };
}

impl Loads {
    /// A copy of the table.
    pub fn new(alloc: Global, segments: &[Segment]) -> Result<Loads, AllocError>
        requires { AreLoads (headers.loads segments.now) }
        ensures { IfOk result (λ l. l ≡ segments.now) }
    {
        let rows = loads(alloc, segments)?;
        let segments = Vec::from_slice(alloc, segments)?;
        Ok(Loads { segments, rows })
    }

    /// The table, lent.
    pub fn segments(&self) -> &[Segment]
        ensures { result.now ≡ self.now }
    {
        &self.segments
    }

    #[tactic(auto, using(crate::proofs::LoaderLaws::loader_loads))]
    fn loader(&self, address: u128) -> Option<Segment>
        ensures { result ≡ spec.loader self.now address }
    {
        loader_of(&self.rows, address)
    }

    /// The file bytes of a window of memory, as `file_window` has them.
    #[tactic(auto, using(crate::proofs::FilePartLaws::loader_loads_byte), unfolding(crate::specs::FilePart::file_window))]
    pub fn file_window(&self, memory: Window) -> Window
        ensures { result ≡ spec.file_window self.now memory }
    {
        match self.loader(memory.at()) {
            None => Window::new(0, 0),
            Some(segment) => loaded_by(memory, &segment),
        }
    }

    /// Whether a window of memory is in the file part.
    #[tactic(auto, unfolding(crate::specs::FilePart::in_file_part))]
    pub fn in_file_part(&self, memory: Window) -> bool
        ensures { result ≡ spec.in_file_part self.now memory }
    {
        self.file_window(memory).size() == memory.size()
    }

    /// The bytes of the file that are loaded at a window of memory.
    #[tactic(auto, unfolding(crate::specs::FilePart::loaded))]
    pub fn loaded<'a>(&self, bytes: &'a [u8], memory: Window) -> &'a [u8]
        ensures { result.now ≡ spec.loaded bytes.now self.now memory }
    {
        let window = self.file_window(memory);
        part(bytes, window.at(), window.size())
    }
}

fn begins_by(load: &Segment, address: u128) -> bool
    ensures { result ≡ nat_le load.now.vaddr address }
{
    u128::from(load.vaddr) <= address
}

fn loader_of(loads: &[Segment], address: u128) -> Option<Segment>
    requires { AreLoads loads.now }
    ensures { result ≡ spec.loader loads.now address }
{
    let after = loads.partition_point(|load| begins_by(load, address));
    if after == 0 {
        return None;
    }
    let load = loads[after - 1];
    if loads_byte(address, &load) {
        Some(load)
    } else {
        None
    }
}
