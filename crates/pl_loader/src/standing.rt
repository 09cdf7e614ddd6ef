// Prelinked files as they are loaded where they stand.
ghost use Rattle.std.specs.Prelude.{◌≡◌, ◌+◌, ◌≤◌, [], ◌∷◌, ◌++◌, if◌then◌else◌, length, map, true, IfOk, IfErr, OnOk};
ghost use Rattle.std.specs.List.{All};
ghost use Rattle.pl_elf.specs.Headers.{is_load};
ghost use Rattle.pl_elf.specs.declared.constants.TheConstants.{ADDRESS_LIMIT};
ghost use Rattle.pl_image.specs.Image.{ascends, AreLoaded};
ghost use Rattle.pl_image.specs.Loads.{EndsInLimit, IsPlaced};
ghost use Rattle.pl_form.specs.Loads as parts;
ghost use Rattle.pl_conflict.specs.Fast as patch_spec;
ghost use Rattle.pl_conflict.specs.Standing.{standing, standing_at};
ghost use Rattle.pl_loader.specs.Fast as spec;
ghost use Rattle.pl_loader.specs.Loading.{AreFiles, ArePlacedFiles, IsRead, objects_of};
ghost use Rattle.pl_loader.specs.declared.fault.LoadFault.TheVariants as faults;

use crate::{LoadFault, ObjectFile};
use pl_base::{Rows, part};
use pl_elf::{Segment, header_fields, read_segments};
use pl_image::{Image, LoadedObject, Patch, Piece, load_mask};
use pl_lists::ConflictRow;
use std::alloc::{AllocError, Global};

/// All of a file, as it stands.
fn stored(file: &ObjectFile) -> &[u8]
    ensures { result.now ≡ spec.stored file.now }
{
    match &file.mark {
        None => file.bytes.as_slice(),
        Some(mark) => mark.file.as_slice(),
    }
}

/// A segment as a file bears it, at the address and of the size of the original's.
fn piece<'a>(bytes: &'a [u8], segment: &Segment, borne: &Segment, place: u64) -> Piece<'a>
    requires { EndsInLimit place segment.now }
    ensures { result ≡ parts.stands place bytes.now segment.now borne.now }
{
    Piece {
        start: place + segment.vaddr,
        size: segment.memsz,
        bytes: part(bytes, u128::from(borne.offset), borne.filesz),
    }
}

/// Adds what a segment loads, where it is a PT_LOAD.
fn add_piece<'a>(
    pieces: &mut Rows<Piece<'a>>,
    bytes: &'a [u8],
    segment: &Segment,
    borne: &Segment,
    place: u64,
) -> Result<(), AllocError>
    requires { is_load segment.now ≡ true → EndsInLimit place segment.now }
    ensures { OnOk result (pieces.new ≡ pieces.old
        ++ (if is_load segment.now then parts.stands place bytes.now segment.now borne.now
        ∷ [] else [])) }
{
    if segment.is_load() {
        pieces.push(piece(bytes, segment, borne, place))?;
    }
    Ok(())
}

/// What the segments of a file load, as it bears them, at the addresses of its original's PT_LOADs alone.
fn pieces<'a>(
    alloc: Global,
    bytes: &'a [u8],
    segments: &[Segment],
    headers: &[Segment],
    place: u64,
) -> Result<Rows<Piece<'a>>, AllocError>
    requires { All (λ s. is_load s ≡ true → place + (s.vaddr + s.memsz) ≤ ADDRESS_LIMIT)
        segments.now }
    ensures { IfOk result (λ pieces. pieces ≡ parts.pieces_of place bytes.now segments.now
        headers.now) }
{
    let mut pieces = Rows::new(alloc);
    for (segment, borne) in segments.iter().zip(headers) {
        add_piece(&mut pieces, bytes, segment, borne, place)?;
    }
    Ok(pieces)
}

/// A file as it is loaded at a place where it stands. The link tables are its original's.
fn standing_file<'a>(
    alloc: Global,
    file: &'a ObjectFile,
    place: u64,
) -> Result<LoadedObject<'a>, AllocError>
    requires read { IsRead file.now }
    requires marked { spec.IsMarked file.now }
    requires placed { IsPlaced place file.now.object }
    ensures value { IfOk result (λ loaded. loaded
        ≡ standing_at place (spec.stored file.now) file.now.object) }
    ensures ascends { IfOk result (λ loaded. ascends 0 loaded.pieces ≡ true) }
    ensures fits { IfOk result (λ loaded. All (λ l. l.start + l.size ≤ ADDRESS_LIMIT)
        loaded.mask.loads) }
{
    let bytes = stored(file);
    let headers = read_segments(alloc, bytes, &header_fields(bytes))?;
    let pieces = pieces(
        alloc,
        bytes,
        file.object.segments.as_slice(),
        &headers,
        place,
    )?;
    let mask = load_mask(alloc, &file.object, place)?;
    Ok(LoadedObject { pieces, mask })
}

/// All files as they are loaded at their places where they stand.
fn standing_files<'a>(
    alloc: Global,
    files: &'a [ObjectFile],
    places: &[u64],
) -> Result<Vec<LoadedObject<'a>>, AllocError>
    requires files { AreFiles files.now }
    requires marked { All spec.IsMarked files.now }
    requires one_each { length places.now ≡ length files.now }
    requires placed { ArePlacedFiles places.now files.now }
    ensures value { IfOk result (λ v. v.items ≡ standing places.now (map spec.stored files.now)
        (objects_of files.now)) }
    ensures loaded { IfOk result (λ v. AreLoaded v.items) }
{
    let mut loaded = Vec::new(alloc);
    for (file, place) in files.iter().zip(places) {
        let whole = standing_file(alloc, file, *place)?;
        loaded.push(whole)?;
    }
    Ok(loaded)
}

/// A conflict row as a patch: its eight bytes for its address.
fn patch_of(row: &ConflictRow) -> Patch
    ensures { result ≡ patch_spec.patch_of row.now }
{
    Patch::word(row.address, row.word)
}

fn patches(alloc: Global, rows: &[ConflictRow]) -> Result<Vec<Patch>, AllocError>
    ensures { IfOk result (λ v. v.items ≡ patch_spec.patches rows.now) }
{
    let mut patches = Vec::new(alloc);
    for row in rows {
        patches.push(patch_of(row))?;
    }
    Ok(patches)
}

/// The conflict rows of the program, which stands first.
#[tactic(auto, unfolding(crate::specs::Fast::conflicts_of))]
fn conflicts_of(files: &[ObjectFile]) -> &[ConflictRow]
    ensures { result.now ≡ spec.conflicts_of files.now }
{
    match files {
        [] => &[],
        [program, ..] => match &program.mark {
            None => &[],
            Some(mark) => mark.conflicts.as_slice(),
        },
    }
}

/// The memory from which a program starts on the fast path: the files' segments as they stand, with the program's conflict rows as patches in their order, and nothing else. It fails only for want of memory.
pub fn standing<'a>(
    alloc: Global,
    files: &'a [ObjectFile],
    places: &[u64],
) -> Result<Image<'a>, LoadFault>
    requires files { AreFiles files.now }
    requires fast { spec.is_fast files.now places.now ≡ true }
    requires one_each { length places.now ≡ length files.now }
    requires placed { ArePlacedFiles places.now files.now }
    ensures exact { IfOk result (λ image. image ≡ spec.fast_image files.now places.now) }
    ensures err { IfErr result (λ fault. fault ≡ faults.NoMemory) }
{
    let loaded = standing_files(alloc, files, places)?;
    let patches = patches(alloc, conflicts_of(files))?;
    Ok(Image::new(alloc, loaded, patches)?)
}
