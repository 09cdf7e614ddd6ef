// The name of a symbol.
ghost use Rattle.std.specs.Prelude.{◌≡◌, ◌≤◌, length, take, drop, IfOk};
ghost use Rattle.std.specs.Rc.{rc_slice_items};
ghost use Rattle.pl_sym.specs.Name as spec;
ghost use Rattle.pl_sym.specs.declared.name.TheConstants.{SHORT};

use std::alloc::{AllocError, Global};
use std::marker::Model;
use std::rc::RcSlice;

/// How many bytes of a name stand in the symbol itself: with their count and the kind of the place as many as two words have.
const SHORT: usize = 14;

/// Where the bytes of a name stand.
#[derive(Drop)]
enum NameBytes {
    /// In the symbol: so many of these.
    Here {
        size: u8,
        bytes: [u8; SHORT],
    },

    /// In strings that names share: so many from a place on.
    Shared {
        size: u16,
        start: u32,
        strings: RcSlice<u8>,
    },

    /// In such strings, where one of the numbers has more bits.
    Far(Box<Far>),
}

/// Where a name stands in strings that names share: so many bytes from a place on.
#[derive(Drop)]
struct Far {
    strings: RcSlice<u8>,
    start: usize,
    size: usize,
}

/// The bytes of a symbol's name. Contracts see it as their list. Most names are short, and take no memory besides the symbol's; the long ones of a table share its strings.
#[derive(Drop)]
pub struct Name {
    place: NameBytes,
}

impl Model for Name {
    ghost use Rattle.std.specs.Prelude.{List, ℕ};
    ghost use Rattle.pl_sym.specs.Name.{bytes_at};

    ghost Value = { List ℕ };

    ghost view = { λ s. bytes_at s.place };
}

/// The first of some bytes, or all of them.
#[tactic(auto, using(std::proofs::lemmas::List::take_all))]
pub fn first(bytes: &[u8], size: usize) -> &[u8]
    ensures { result.now ≡ take size bytes.now }
{
    if size < bytes.len() {
        &bytes[..size]
    } else {
        bytes
    }
}

/// The bytes from a place on; past the last one none.
#[tactic(auto, using(std::proofs::lemmas::List::drop_all))]
pub fn rest(bytes: &[u8], start: usize) -> &[u8]
    ensures { result.now ≡ drop start bytes.now }
{
    if start < bytes.len() {
        &bytes[start..]
    } else {
        &[]
    }
}

/// So few bytes that they stand in the symbol.
fn here(bytes: &[u8]) -> NameBytes
    requires { length bytes.now ≤ SHORT }
    ensures { spec.bytes_at result ≡ bytes.now }
{
    let mut room = [0; SHORT];
    room[..bytes.len()].copy_from_slice(bytes);
    NameBytes::Here {
        size: bytes.len() as u8,
        bytes: room,
    }
}

/// The place of bytes that strings share. Numbers of more bits than the symbol has for them stand in a block of their own, of a few words.
fn shared(
    alloc: Global,
    strings: &RcSlice<u8>,
    start: usize,
    size: usize,
) -> Result<NameBytes, AllocError>
    ensures { IfOk result (λ p. spec.bytes_at p
        ≡ take size (drop start (rc_slice_items strings.now))) }
{
    let strings = strings.clone()?;
    if start > u32::MAX as usize || size > usize::from(u16::MAX) {
        let far = Far {
            strings,
            start,
            size,
        };
        return Ok(NameBytes::Far(Box::new(alloc, far)?));
    }
    Ok(NameBytes::Shared {
        size: size as u16,
        start: start as u32,
        strings,
    })
}

fn place_of(
    alloc: Global,
    strings: &RcSlice<u8>,
    start: usize,
    size: usize,
) -> Result<NameBytes, AllocError>
    ensures { IfOk result (λ p. spec.bytes_at p
        ≡ take size (drop start (rc_slice_items strings.now))) }
{
    let bytes = first(rest(strings.as_slice(), start), size);
    if bytes.len() <= SHORT {
        Ok(here(bytes))
    } else {
        shared(alloc, strings, start, size)
    }
}

impl Name {
    /// So many bytes of strings from a place on, as far as they reach. It fails only for want of memory.
    pub fn within(
        alloc: Global,
        strings: &RcSlice<u8>,
        start: usize,
        size: usize,
    ) -> Result<Name, AllocError>
        ensures { IfOk result (λ name. name
            ≡ take size (drop start (rc_slice_items strings.now))) }
    {
        let place = place_of(alloc, strings, start, size)?;
        Ok(Name { place })
    }

    /// A copy of bytes. It fails only for want of memory.
    #[tactic(auto, using(std::proofs::lemmas::List::take_all))]
    pub fn copy_of(alloc: Global, bytes: &[u8]) -> Result<Name, AllocError>
        ensures { IfOk result (λ name. name ≡ bytes.now) }
    {
        let strings = RcSlice::from_slice(alloc, bytes)?;
        Name::within(alloc, &strings, 0, bytes.len())
    }

    /// The bytes, lent.
    pub fn as_slice(&self) -> &[u8]
        ensures { result.now ≡ self.now }
    {
        match &self.place {
            NameBytes::Here { size, bytes } => first(bytes.as_slice(), usize::from(*size)),
            NameBytes::Shared {
                size,
                start,
                strings,
            } => first(
                rest(strings.as_slice(), *start as usize),
                usize::from(*size),
            ),
            NameBytes::Far(far) => first(rest(far.strings.as_slice(), far.start), far.size),
        }
    }
}
