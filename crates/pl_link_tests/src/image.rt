// The image of a static program with patches.
ghost use Rattle.std.specs.Prelude.{◌≡◌, ◌+◌, ◌≤◌, true};
ghost use Rattle.std.specs.List.{All};
ghost use Rattle.pl_elf.specs.declared.constants.TheConstants.{ADDRESS_LIMIT};
ghost use Rattle.pl_image.specs.Image.{ascends};
ghost use Rattle.pl_image.specs.Loads.{IsPlaced};

use crate::samples::file_of;
use pl_cases::{bytes_of, number, parts};
use pl_image::{Image, LoadedObject, Patch, load_object};
use pl_io::MemorySink;
use pl_object::{ORIGINAL, Object, accept};
use std::alloc::{AllocError, Global};
use std::test::Fail;

// Two words and 0x15 zeros behind them, from 0x500000 on.
const RECIPE: &str = "static; data 10; bss 15; word 0 8877000000332211; word 8 99";

// The patches of lines, each an address and the bytes from there on.
fn patches_of(alloc: Global, lines: &str) -> Result<Vec<Patch>, Fail> {
    let mut patches = Vec::new(alloc);
    for line in lines.lines() {
        let (address, bytes) = parts(line)?;
        let bytes = bytes_of(alloc, bytes)?;
        patches.push(Patch::new(number(address)?, bytes))?;
    }
    Ok(patches)
}

// Whether an image has at the address of a line the byte that it says, or none where it says none.
fn has_byte(image: &Image<'_>, line: &str) -> Result<bool, Fail> {
    let (address, wanted) = parts(line)?;
    let byte = image.byte(number(address)?);
    if wanted.is_empty() {
        return Ok(byte.is_none());
    }
    Ok(byte == Some(u8::from_str_radix(wanted, 16)?))
}

// Compares an image's text, and its bytes at the addresses of lines.
fn check(alloc: Global, image: &Image<'_>, text: &[u8], lines: &str) -> Result<(), Fail> {
    let mut sink = MemorySink::new(alloc, 4096, Vec::new(alloc), 10)?;
    image.write_text(&mut sink)?;
    if sink.bytes() != text {
        return Err("the image's text".into());
    }
    for line in lines.lines() {
        if !has_byte(image, line)? {
            return Err(line.into());
        }
    }
    Ok(())
}

#[tactic(auto, using(pl_image::proofs::PlacedLaws::alone))]
fn image_of_one(
    alloc: Global,
    object: LoadedObject<'_>,
    patches: Vec<Patch>,
) -> Result<Image<'_>, AllocError>
    requires ascends { ascends 0 object.pieces ≡ true }
    requires fits { All (λ l. l.start + l.size ≤ ADDRESS_LIMIT) object.mask.loads }
{
    let objects = vec![in alloc; object]?;
    Image::new(alloc, objects, patches)
}

fn image_of<'a>(
    alloc: Global,
    file: &'a [u8],
    object: &Object,
    patches: Vec<Patch>,
) -> Result<Image<'a>, AllocError>
    requires { IsPlaced 0 object.now }
{
    let loaded = load_object(alloc, object, file, 0)?;
    image_of_one(alloc, loaded, patches)
}

#[tactic(auto, using(pl_image::proofs::PlacedLaws::placed_at_0))]
fn expect(alloc: Global, patches: &str, text: &[u8], lines: &str) -> Result<(), Fail> {
    let file = file_of(alloc, RECIPE)?;
    if file.len() > ORIGINAL {
        return Err("a short file".into());
    }
    let object = accept(alloc, &file)?;
    let patches = patches_of(alloc, patches)?;
    let image = image_of(alloc, &file, &object, patches)?;
    check(alloc, &image, text, lines)
}

const PLAIN: &[u8] = b"word 0000000000500000 8877000000332211
word 0000000000500008 0000000000000099
";

// Over the mask, over words, over zeros, over an earlier patch, and over the last byte and past it.
const PATCHES: &str = "\
400040: 5 5\n\
500006: aa bb cc\n\
500010: 1 2 3 4 5 6 7 8\n\
500014: ff\n\
500024: dd 5 5";

const PATCHED: &[u8] = b"word 0000000000500000 bbaa000000332211
word 0000000000500008 00000000000000cc
word 0000000000500010 080706ff04030201
word 0000000000500020 000000dd00000000
";

// A byte of the program headers, which is masked; one between the segments; two of data; two zeros at the end, and the address after them.
const PLAIN_BYTES: &str = "\
400040: 0\n\
402000:\n\
500006: 77\n\
500008: 99\n\
500014: 0\n\
500024: 0\n\
500025:";

const PATCHED_BYTES: &str = "\
400040: 0\n\
402000:\n\
500006: aa\n\
500008: cc\n\
500014: ff\n\
500024: dd\n\
500025:";

#[test]
fn shows_patches(rt: HostRuntime) -> Result<(), Fail> {
    expect(rt.alloc(), "", PLAIN, PLAIN_BYTES)?;
    expect(rt.alloc(), PATCHES, PATCHED, PATCHED_BYTES)
}
