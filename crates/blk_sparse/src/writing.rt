// Bytes are written to an object with parts.
ghost use Rattle.std.specs.Prelude.{◌≡◌, ◌≤◌, ◌<◌, ◌+◌, IsTrue, OnOk, length};
ghost use Rattle.std.specs.Int.{cast_unsigned, w64};
ghost use Rattle.std.specs.Option.{ForSome};
ghost use Rattle.spec_image.specs.Told.{MayWrite, ForTold};
ghost use Rattle.blk_model.specs.Sizes.{largest_offset, longest_key, part_count, part_size, signatures};
ghost use Rattle.spec_format.specs.Address.{blocks_256, kind_of};
ghost use Rattle.spec_format.specs.Names.{longest_name};
ghost use Rattle.blk_io.specs.Faults.{IfDamaged, IfDevice};
ghost use Rattle.blk_disk.specs.Open.{IsOpen};
ghost use Rattle.blk_disk.specs.Tables.{stands_among};
ghost use Rattle.blk_alloc.specs.Extending.{KeepsStanding};
ghost use Rattle.blk_object.specs.FailedChecks.{IsFailedCheck};
ghost use Rattle.blk_sparse.specs.Clauses.{Durable, DurableAtNode, ForBytesOfKey, ForEachCovered, ForEachCoveredOfKey, ForEachPieceOfKey, ForPieceOfKey, ForWriteOf, OrdersBytes, OrdersBytesAtNode, OrdersPiece, Undamaged, UndamagedAtNode, WritesBytes, WritesBytesAtNode, WritesPiece};

use crate::changing::change_part;
use crate::children::{Parent, read_key};
use crate::new_part::{PartName, make_part};
use crate::parts::{ParentName, find_part};
use blk_disk::BlockFiles;
use blk_io::{Fault, Folder};
use blk_ranges::{ChildName, LONGEST_KEY, PART_SIZE, child_name, child_of};

/// Bytes of an object with parts.
#[derive(Clone, Copy, Debug)]
pub struct SparseBytes<'a> {
    /// The offset of the first of them in the object.
    pub offset: u64,
    /// The bytes, one after another.
    pub bytes: &'a [u8],
}

/// Bytes of one part.
#[derive(Clone, Copy)]
pub(crate) struct PartBytes<'a> {
    /// The number of the part.
    pub(crate) number: u32,
    /// The place of the first of them in the part.
    pub(crate) place: u32,
    /// The bytes, one after another.
    pub(crate) bytes: &'a [u8],
}

// Writes a piece to a part of an object with a key: to the part that there is, or to one that is made.
pub(crate) fn write_piece<F: Folder>(
    folder: &mut F,
    files: &mut BlockFiles,
    parent: &Parent,
    key: &[u8],
    buffer: &mut [u8],
    piece: PartBytes,
    moment: u64,
) -> Result<(), Fault>
    requires kind { kind_of parent.now.entry ≡ blocks_256 }
    requires stands { IsTrue (stands_among files.old parent.now.entry) }
    requires signature { cast_unsigned w64 parent.now.signature < signatures }
    requires some_key { 1 ≤ length key.now }
    requires short_key { length key.now ≤ longest_key }
    requires buffer { longest_name ≤ length buffer.old }
    requires number { piece.number < part_count }
    requires some { 1 ≤ length piece.bytes.now }
    requires inside { piece.place + length piece.bytes.now ≤ part_size }
    requires is_open { ForSome (F.told folder.old).files (IsOpen files.old) }

    // Each state that was kept, with such an object, is kept with the piece written and the part in front, but for the counters.
    ensures written { OnOk result (ForPieceOfKey (F.told folder.old) key.now parent.now piece.entry (WritesPiece (F.told folder.new))) }

    // At each word the old durable contents are recovered: a dirty object isn't durable.
    ensures stops { ForTold (F.told folder.old) (ForEachPieceOfKey key.now parent.now piece.entry) (DurableAtNode (F.told folder.old) (F.told folder.new)) }

    // Of a part that there is the data comes before its map, and one that is made is whole before its parent's bit is set.
    ensures ordered { OnOk result (ForPieceOfKey (F.told folder.old) key.now parent.now piece.entry (OrdersPiece files.new (F.told folder.new))) }

    ensures buffer { length buffer.new ≡ length buffer.old }
    ensures keeps { KeepsStanding files.old files.new }
    ensures is_open { OnOk result (ForSome (F.told folder.new).files (IsOpen files.new)) }

    // Corruption is a check that fails on what is read here; nothing is written after it.
    ensures damaged { IfDamaged result (IsFailedCheck files.new (F.told folder.new)) }

    // An observable folder, with such an object, reports no corruption.
    ensures untold { ForTold (F.told folder.old) (ForEachPieceOfKey key.now parent.now piece.entry) (UndamagedAtNode result (F.told folder.old)) }

    ensures writes { MayWrite F.told F.faults folder.old folder.new (IfDevice result) }
{
    let named = ParentName {
        key,
        signature: parent.signature,
    };
    if let Some(part) = find_part(folder, files, named, piece.number, buffer)? {
        return change_part(folder, files, part, piece.place, piece.bytes, moment);
    }
    let len = child_name(key, parent.signature, piece.number, buffer);
    let child = ChildName {
        key_len: key.len(),
        signature: parent.signature,
        part: piece.number,
    };
    let name = PartName {
        child,
        bytes: &buffer[..len],
    };
    make_part(
        folder,
        files,
        parent.entry,
        name,
        piece.place,
        piece.bytes,
        moment,
    )
}

// Writes bytes to an object with a key from an offset on: to one part, or to two.
fn write_covered<F: Folder>(
    folder: &mut F,
    files: &mut BlockFiles,
    parent: &Parent,
    key: &[u8],
    buffer: &mut [u8],
    data: SparseBytes,
    moment: u64,
) -> Result<(), Fault>
    requires kind { kind_of parent.now.entry ≡ blocks_256 }
    requires stands { IsTrue (stands_among files.old parent.now.entry) }
    requires signature { cast_unsigned w64 parent.now.signature < signatures }
    requires some_key { 1 ≤ length key.now }
    requires short_key { length key.now ≤ longest_key }
    requires buffer { longest_name ≤ length buffer.old }
    requires some { 1 ≤ length data.bytes.now }
    requires few { length data.bytes.now ≤ part_size }
    requires inside { data.offset + length data.bytes.now ≤ largest_offset }
    requires is_open { ForSome (F.told folder.old).files (IsOpen files.old) }
    ensures written { OnOk result (ForBytesOfKey (F.told folder.old) key.now parent.now data.entry (WritesBytesAtNode (F.told folder.new))) }
    ensures stops { ForTold (F.told folder.old) (ForEachCoveredOfKey key.now parent.now data.entry) (DurableAtNode (F.told folder.old) (F.told folder.new)) }
    ensures ordered { OnOk result (ForBytesOfKey (F.told folder.old) key.now parent.now data.entry (OrdersBytesAtNode (F.told folder.new))) }
    ensures keeps { KeepsStanding files.old files.new }
    ensures is_open { OnOk result (ForSome (F.told folder.new).files (IsOpen files.new)) }
    ensures damaged { IfDamaged result (IsFailedCheck files.new (F.told folder.new)) }
    ensures untold { ForTold (F.told folder.old) (ForEachCoveredOfKey key.now parent.now data.entry) (UndamagedAtNode result (F.told folder.old)) }
    ensures writes { MayWrite F.told F.faults folder.old folder.new (IfDevice result) }
{
    let SparseBytes { offset, bytes } = data;
    let (number, place) = child_of(offset);
    let left = (PART_SIZE - place) as usize;
    if bytes.len() <= left {
        let piece = PartBytes {
            number,
            place,
            bytes,
        };
        return write_piece(folder, files, parent, key, buffer, piece, moment);
    }
    let (front, back) = bytes.split_at(left);
    let front = PartBytes {
        number,
        place,
        bytes: front,
    };
    write_piece(folder, files, parent, key, buffer, front, moment)?;
    let back = PartBytes {
        number: number + 1,
        place: 0,
        bytes: back,
    };
    write_piece(folder, files, parent, key, buffer, back, moment)
}

/// Writes bytes to an object with parts, which is dirty, from an offset on. Each part in range gets its
/// piece, in rising number: one that there is is changed, and one that there isn't is made. It is then in front of the
/// LRU list. The counters of the index stay, and so does the object's main item. Of no bytes nothing is done.
///
/// The key is read from the parent's record into the front of `name`, and the names of the parts are made after the
/// longest key.
pub fn write<F: Folder>(
    f: &mut F,
    files: &mut BlockFiles,
    parent: &Parent,
    name: &mut [u8],
    data: SparseBytes,
    moment: u64,
) -> Result<(), Fault>
    requires kind { kind_of parent.now.entry ≡ blocks_256 }
    requires stands { IsTrue (stands_among files.old parent.now.entry) }
    requires signature { cast_unsigned w64 parent.now.signature < signatures }
    requires name { longest_key + longest_name ≤ length name.old }
    requires few { length data.bytes.now ≤ part_size }
    requires inside { data.offset + length data.bytes.now ≤ largest_offset }
    requires is_open { ForSome (F.told f.old).files (IsOpen files.old) }

    // Each state that was kept, with such an object, is kept with the bytes written and the parts in range in front, but for the counters.
    ensures written { OnOk result (ForWriteOf (F.told f.old) parent.now data.entry (WritesBytes (F.told f.new))) }

    // At each word the old durable contents are recovered: a dirty object isn't durable.
    ensures stops { ForTold (F.told f.old) (ForEachCovered parent.now data.entry) (Durable (F.told f.old) (F.told f.new)) }

    // The pieces come one after another: of a part that there is the data before its map, and one that is made is whole before its parent's bit is set.
    ensures ordered { OnOk result (ForWriteOf (F.told f.old) parent.now data.entry (OrdersBytes (F.told f.new))) }

    // What was valid still is.
    ensures keeps { KeepsStanding files.old files.new }
    ensures is_open { OnOk result (ForSome (F.told f.new).files (IsOpen files.new)) }

    // Corruption is a check that fails on what is read here; nothing is written after it.
    ensures damaged { IfDamaged result (IsFailedCheck files.new (F.told f.new)) }

    // An observable folder, with such an object, reports no corruption.
    ensures untold { ForTold (F.told f.old) (ForEachCovered parent.now data.entry) (Undamaged result (F.told f.old)) }

    ensures writes { MayWrite F.told F.faults f.old f.new (IfDevice result) }
{
    if data.bytes.is_empty() {
        return Ok(());
    }
    let len = read_key(f, files, parent.entry, name)?;
    let (key, buffer) = name.split_at_mut(LONGEST_KEY as usize);
    write_covered(f, files, parent, &key[..len], buffer, data, moment)
}
