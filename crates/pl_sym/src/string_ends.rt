// Where the strings of a table end.
ghost use Rattle.std.specs.Prelude.{◌≡◌, ◌+◌, ◌/◌, ◌≤◌, ℕ, None, length, position, slice_index_or, IfOk};
ghost use Rattle.pl_base.specs.Strings.{is_zero, string_at};
ghost use Rattle.pl_sym.specs.StringEnds as spec;
ghost use Rattle.pl_sym.specs.declared.string_ends.TheConstants.{BLOCK};

use crate::Name;
use crate::name::{first, rest};
use pl_base::Rows;
use std::alloc::{AllocError, Global};
use std::marker::Model;
use std::rc::RcSlice;

/// How many bytes a block of the strings has.
pub const BLOCK: usize = 256;

/// The strings of a table, each ended by a 0 byte. Contracts see them as their bytes. For each block of 256 bytes the size of the string that begins where the block does is kept, so that no more than a block is read to find where a string ends, however long it is.
#[derive(Drop)]
pub struct StringEnds {
    strings: RcSlice<u8>,

    /// None for a string without an end.
    sizes: Rows<Option<usize>>,
}

impl Model for StringEnds {
    ghost use Rattle.std.specs.Prelude.{ℕ, List};
    ghost use Rattle.std.specs.Rc.{rc_slice_items};
    ghost use Rattle.pl_sym.specs.StringEnds.{AreSizes};

    ghost Value = { List ℕ };

    ghost view = { λ s. rc_slice_items s.strings };

    ghost invariant = { λ s. AreSizes (rc_slice_items s.strings) s.sizes };
}

fn first_zero(bytes: &[u8]) -> Option<usize>
    ensures { result ≡ position is_zero bytes.now }
{
    bytes.iter().position(|byte| *byte == 0)
}

/// The size of the string that begins at an offset, by that of the string that begins at a later one. The bytes between the two are read at most.
#[tactic(auto, using(crate::proofs::EndLaws::size_here, crate::proofs::EndLaws::size_later, crate::proofs::EndLaws::size_none))]
fn size_from(bytes: &[u8], from: usize, to: usize, later: Option<usize>) -> Option<usize>
    requires order { from ≤ to }
    requires later { later ≡ spec.string_size to bytes.now }
    ensures { result ≡ spec.string_size from bytes.now }
{
    match first_zero(first(rest(bytes, from), to - from)) {
        Some(size) => Some(size),
        None => match later {
            None => None,
            Some(size) => Some(to - from + size),
        },
    }
}

fn size_of_block(sizes: &[Option<usize>], block: usize) -> Option<usize>
    ensures { result ≡ slice_index_or sizes.now block None }
{
    if block < sizes.len() {
        sizes[block]
    } else {
        None
    }
}

/// Notes the sizes of the strings that begin where blocks do, from the last block on.
fn note_sizes(bytes: &[u8], sizes: &mut [Option<usize>])
    requires len { length sizes.old ≡ length bytes.now / BLOCK + 1 }
    requires none { (block : ℕ) → slice_index_or sizes.old block None ≡ None }
    ensures { spec.AreSizes bytes.now sizes.new }
{
    let mut block = sizes.len();
    while block > 0 {
        let later = size_of_block(sizes, block);
        block -= 1;
        sizes[block] = size_from(bytes, BLOCK * block, BLOCK * (block + 1), later);
    }
}

fn block_sizes(alloc: Global, bytes: &[u8]) -> Result<Vec<Option<usize>>, AllocError>
    ensures { IfOk result (λ v. spec.AreSizes bytes.now v.items) }
{
    let mut sizes = Vec::from_elem(alloc, None, bytes.len() / BLOCK + 1)?;
    note_sizes(bytes, &mut sizes);
    Ok(sizes)
}

impl StringEnds {
    /// The strings of a table's bytes, which are copied. It fails only for want of memory.
    pub fn new(alloc: Global, bytes: &[u8]) -> Result<StringEnds, AllocError>
        ensures { IfOk result (λ own. own ≡ bytes.now) }
    {
        let strings = RcSlice::from_slice(alloc, bytes)?;
        let sizes = block_sizes(alloc, bytes)?;
        Ok(StringEnds {
            strings,
            sizes: Rows::from_vec(sizes),
        })
    }

    fn size_at(&self, at: u32) -> Option<usize>
        ensures { result ≡ spec.string_size at self.now }
    {
        let at = at as usize;
        let block = at / BLOCK + 1;
        let later = size_of_block(self.sizes.as_slice(), block);
        size_from(self.strings.as_slice(), at, BLOCK * block, later)
    }

    /// The string that begins at an offset, as `string_at` gives it: none where it has no end. A long one shares the strings. It fails only for want of memory.
    #[tactic(auto, unfolding(crate::specs::StringEnds::string_size, pl_base::specs::Strings::string_at, pl_base::specs::Strings::ended))]
    pub fn name_at(&self, alloc: Global, at: u32) -> Result<Option<Name>, AllocError>
        ensures { IfOk result (λ name. name ≡ string_at at self.now) }
    {
        match self.size_at(at) {
            None => Ok(None),
            Some(size) => Ok(Some(Name::within(alloc, &self.strings, at as usize, size)?)),
        }
    }
}
