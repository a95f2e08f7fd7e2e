// The bytes of an object up to the first that isn't present, read from its parts; nothing is changed.
ghost use Rattle.std.specs.Prelude.{◌≡◌, ◌≤◌, ◌<◌, ◌+◌, IfOk, IsTrue, None, length, take};
ghost use Rattle.std.specs.Int.{cast_unsigned, w64};
ghost use Rattle.std.specs.Option.{ForSome};
ghost use Rattle.spec_image.specs.Told.{ReadsOnly, ForTold};
ghost use Rattle.blk_model.specs.Sizes.{largest_offset, longest_key, part_count, part_size, signatures};
ghost use Rattle.spec_format.specs.Address.{blocks_256, kind_of};
ghost use Rattle.spec_format.specs.Names.{longest_name};
ghost use Rattle.blk_io.specs.Faults.{IfDamaged, IfDevice, UndamagedWhere};
ghost use Rattle.blk_disk.specs.Open.{IsOpen};
ghost use Rattle.blk_disk.specs.Tables.{Agrees, stands_among};
ghost use Rattle.blk_object.specs.FailedChecks.{IsFailedCheck};
ghost use Rattle.blk_sparse.specs.Clauses.{ForEachOfName, ForEachOfParent, HasPartBytes, HasSparseBytes, ReadsPart, Undamaged};
ghost use Rattle.blk_sparse.specs.Changing.{LoadsAsPart};
ghost use Rattle.blk_sparse.specs.Reading.{ForEachPartRead};

use crate::changing::read_map;
use crate::children::{Parent, read_key};
use crate::parts::{ParentName, find_part};
use blk_addr::Addr;
use blk_disk::BlockFiles;
use blk_io::{Fault, Folder};
use blk_ranges::{DATA, LONGEST_KEY, PART_SIZE, child_of};
use blk_stream::read;

/// Reads the bytes of an object from an offset on up to the first that is not present, at most as many as `out` has. How
/// many were read is given.
///
/// Nothing is changed, and no part is accessed. The key is read from the parent's record into the front of `name`, and the
/// names of the parts are made after the longest key.
pub fn read_present<F: Folder>(
    folder: &mut F,
    files: &BlockFiles,
    parent: &Parent,
    name: &mut [u8],
    offset: u64,
    out: &mut [u8],
) -> Result<usize, Fault>
    requires kind { kind_of parent.now.entry ≡ blocks_256 }
    requires stands { IsTrue (stands_among files.now parent.now.entry) }
    requires signature { cast_unsigned w64 parent.now.signature < signatures }
    requires name { longest_key + longest_name ≤ length name.old }
    requires few { length out.old ≤ part_size }
    requires inside { offset + length out.old ≤ largest_offset }
    requires is_open { ForSome (F.told folder.old).files (IsOpen files.now) }

    // These are the bytes of each object that a kept state has with this parent.
    ensures bytes { IfOk result (λ n. ForTold (F.told folder.old) (ForEachOfParent parent.now) (HasSparseBytes (take n out.new) offset (length out.old))) }
    ensures within { IfOk result (λ n. n ≤ length out.old) }
    ensures long { length out.new ≡ length out.old }

    ensures reads { ReadsOnly F.told F.faults folder.old folder.new (IfDevice result) }
    ensures name { length name.new ≡ length name.old }

    // Corruption is a check that fails on what is read here; nothing is written after it.
    ensures damaged { IfDamaged result (IsFailedCheck files.now (F.told folder.new)) }

    // An observable folder, with such an object, reports no corruption.
    ensures untold { ForTold (F.told folder.old) (ForEachOfParent parent.now) (Undamaged result (F.told folder.old)) }
{
    let len = read_key(folder, files, parent.entry, name)?;
    let (key, buffer) = name.split_at_mut(LONGEST_KEY as usize);
    let parent = ParentName {
        key: &key[..len],
        signature: parent.signature,
    };
    bytes_covered(folder, files, parent, buffer, offset, out)
}

// Reads the bytes of an object with a key.
fn bytes_covered<F: Folder>(
    folder: &mut F,
    files: &BlockFiles,
    parent: ParentName,
    buffer: &mut [u8],
    offset: u64,
    out: &mut [u8],
) -> Result<usize, Fault>
    requires some { 1 ≤ length parent.key.now }
    requires short { length parent.key.now ≤ longest_key }
    requires signature { cast_unsigned w64 parent.signature < signatures }
    requires buffer { longest_name ≤ length buffer.old }
    requires few { length out.old ≤ part_size }
    requires inside { offset + length out.old ≤ largest_offset }
    requires is_open { ForSome (F.told folder.old).files (IsOpen files.now) }
    ensures bytes { IfOk result (λ n. ForTold (F.told folder.old) (ForEachOfName parent.entry) (HasSparseBytes (take n out.new) offset (length out.old))) }
    ensures within { IfOk result (λ n. n ≤ length out.old) }
    ensures long { length out.new ≡ length out.old }
    ensures buffer { length buffer.new ≡ length buffer.old }
    ensures reads { ReadsOnly F.told F.faults folder.old folder.new (IfDevice result) }
    ensures damaged { IfDamaged result (IsFailedCheck files.now (F.told folder.new)) }
    ensures untold { ForTold (F.told folder.old) (ForEachOfName parent.entry) (Undamaged result (F.told folder.old)) }
{
    if out.is_empty() {
        return Ok(0);
    }
    let (first, place) = child_of(offset);
    let cut = ((PART_SIZE - place) as usize).min(out.len());
    let (front, behind) = out.split_at_mut(cut);
    let len = bytes_of_part(folder, files, parent, first, buffer, place, front)?;
    if len < cut || behind.is_empty() {
        return Ok(len);
    }
    let more = bytes_of_part(folder, files, parent, first + 1, buffer, 0, behind)?;
    Ok(len + more)
}

// Reads the bytes of a part of an object from a position on, up to the first that isn't present.
fn bytes_of_part<F: Folder>(
    folder: &mut F,
    files: &BlockFiles,
    parent: ParentName,
    number: u32,
    buffer: &mut [u8],
    place: u32,
    out: &mut [u8],
) -> Result<usize, Fault>
    requires some { 1 ≤ length parent.key.now }
    requires short { length parent.key.now ≤ longest_key }
    requires signature { cast_unsigned w64 parent.signature < signatures }
    requires number { number < part_count }
    requires buffer { longest_name ≤ length buffer.old }
    requires inside { place + length out.old ≤ part_size }
    requires is_open { ForSome (F.told folder.old).files (IsOpen files.now) }
    ensures bytes { IfOk result (λ n. ForTold (F.told folder.old) (ForEachOfName parent.entry) (HasPartBytes (take n out.new) number place (length out.old))) }
    ensures within { IfOk result (λ n. n ≤ length out.old) }
    ensures long { length out.new ≡ length out.old }
    ensures buffer { length buffer.new ≡ length buffer.old }
    ensures reads { ReadsOnly F.told F.faults folder.old folder.new (IfDevice result) }
    ensures damaged { IfDamaged result (IsFailedCheck files.now (F.told folder.new)) }
    ensures untold { ForTold (F.told folder.old) (ForEachOfName parent.entry) (Undamaged result (F.told folder.old)) }
{
    match find_part(folder, files, parent, number, buffer)? {
        Some(part) => bytes_there(folder, files, part, place, out),
        None => Ok(0),
    }
}

// Reads the bytes of a part that exists.
fn bytes_there<F: Folder>(
    folder: &mut F,
    files: &BlockFiles,
    part: Addr,
    place: u32,
    out: &mut [u8],
) -> Result<usize, Fault>
    requires kind { kind_of part ≡ blocks_256 }
    requires stands { IsTrue (stands_among files.now part) }
    requires inside { place + length out.old ≤ part_size }
    ensures bytes { IfOk result (λ n. ForTold (F.told folder.old) (ForEachPartRead part) (ReadsPart (take n out.new) place (length out.old))) }
    ensures within { IfOk result (λ n. n ≤ length out.old) }
    ensures long { length out.new ≡ length out.old }
    ensures reads { ReadsOnly F.told F.faults folder.old folder.new (IfDevice result) }
    ensures damaged { IfDamaged result (IsFailedCheck files.now (F.told folder.new)) }
    ensures untold { ForSome (F.told folder.old).files (Agrees files.now) → UndamagedWhere result (F.told folder.old) (LoadsAsPart part) }
{
    let map = read_map(folder, files, part)?;
    let (start, len) = map.present_run(place, place + out.len() as u32);
    if start != place {
        return Ok(0);
    }
    let piece = &mut out[..len as usize];
    read(folder, files, part, DATA, u64::from(place), piece)
}
