// What a write adds to an object with parts, measured before it is made.
ghost use Rattle.std.specs.Prelude.{◌≡◌, ◌≤◌, ◌<◌, ◌+◌, ◌^◌, IfOk, IsTrue, None, length};
ghost use Rattle.std.specs.Int.{cast_unsigned, w64};
ghost use Rattle.std.specs.Option.{ForSome};
ghost use Rattle.spec_image.specs.Told.{ReadsOnly, ForTold};
ghost use Rattle.blk_model.specs.Sizes.{blocks_index_charge, largest_offset, longest_key, part_count, part_size, signatures};
ghost use Rattle.spec_format.specs.Address.{blocks_256, kind_of};
ghost use Rattle.spec_format.specs.Names.{child_name, longest_name};
ghost use Rattle.blk_io.specs.Faults.{IfDamaged, IfDevice, OpaqueIfDamaged};
ghost use Rattle.blk_disk.specs.Open.{IsOpen};
ghost use Rattle.blk_disk.specs.Tables.{stands_among};
ghost use Rattle.blk_object.specs.FailedChecks.{IsFailedCheck};
ghost use Rattle.blk_sparse.specs.Clauses.{ForEachKeyed, ForEachMeasured, ForEachPartless, HasMeasure, HasPieceMeasure, Measures, MeasuresPart, MeasuresPlain, Undamaged};
ghost use Rattle.blk_sparse.specs.Measuring.{ForEachPartMeasured, ForEachPlainMeasured, IsMeasured};

use crate::children::{Parent, read_key};
use crate::measured_sums::{measured_one, measured_two};
use crate::parts::{ParentName, find_part};
use blk_addr::Addr;
use blk_disk::BlockFiles;
use blk_entry::{node_of, read_head};
use blk_io::{Fault, Folder};
use blk_object::charge_of_head;
use blk_ranges::{LONGEST_KEY, PART_SIZE, child_name, child_of};

// What the index of a part adds to its cost.
const BLOCKS_INDEX: u64 = 192;

// The stream of a part that has its data.
const DATA: usize = blk_ranges::DATA as usize;

/// What a write adds to a sparse object, and which of the parts in its range exist.
#[derive(Clone, Copy, Debug)]
pub struct Measured {
    /// The nodes of those that exist, two at most.
    pub first: Option<Addr>,
    pub second: Option<Addr>,
    /// The sum of their costs.
    pub charged: u64,
    /// By how much the cost of the parts in range rises, and how many of them are made.
    pub bytes: u64,
    pub items: u64,
}

// A part in range: its node and its cost, if it exists, and by how much its cost rises with the write.
#[derive(Clone, Copy)]
pub(crate) struct Piece {
    pub(crate) node: Option<Addr>,
    pub(crate) charged: u64,
    pub(crate) bytes: u64,
}

/// Measures what a write of some bytes adds to an object with parts. Nothing is written.
///
/// The key is read from the parent's record into the front of `name`, and the names of the parts are made after the
/// longest key. Each part in range is searched, and two folder calls read one that exists.
pub fn measure<F: Folder>(
    folder: &mut F,
    files: &BlockFiles,
    parent: &Parent,
    name: &mut [u8],
    offset: u64,
    count: u64,
) -> Result<Measured, Fault>
    requires kind { kind_of parent.now.entry ≡ blocks_256 }
    requires stands { IsTrue (stands_among files.now parent.now.entry) }
    requires signature { cast_unsigned w64 parent.now.signature < signatures }
    requires name { longest_key + longest_name ≤ length name.old }
    requires some { 1 ≤ count }
    requires few { count ≤ part_size }
    requires inside { offset + count ≤ largest_offset }
    requires is_open { ForSome (F.told folder.old).files (IsOpen files.now) }
    ensures measured { IfOk result (λ found. ForTold (F.told folder.old) (ForEachMeasured parent.now) (Measures parent.now.signature offset count found)) }
    ensures light { IfOk result (λ found. found.bytes < 2 ^ 36) }
    ensures reads { ReadsOnly F.told F.faults folder.old folder.new (IfDevice result) }

    // Corruption is a check that fails on what is read here. An observable folder, with such an object, gives none.
    ensures damaged { IfDamaged result (IsFailedCheck files.now (F.told folder.new)) }
    ensures untold { ForTold (F.told folder.old) (ForEachMeasured parent.now) (λ _ _ _. OpaqueIfDamaged result (F.told folder.old)) }
{
    let len = read_key(folder, files, parent.entry, name)?;
    let (key, buffer) = name.split_at_mut(LONGEST_KEY as usize);
    measure_covered(
        folder,
        files,
        &key[..len],
        parent.signature,
        buffer,
        offset,
        count,
    )
}

// Measures the parts of an object with a key that are in range of a write.
fn measure_covered<F: Folder>(
    folder: &mut F,
    files: &BlockFiles,
    key: &[u8],
    signature: i64,
    buffer: &mut [u8],
    offset: u64,
    count: u64,
) -> Result<Measured, Fault>
    requires some_key { 1 ≤ length key.now }
    requires short_key { length key.now ≤ longest_key }
    requires signature { cast_unsigned w64 signature < signatures }
    requires buffer { longest_name ≤ length buffer.old }
    requires some { 1 ≤ count }
    requires few { count ≤ part_size }
    requires inside { offset + count ≤ largest_offset }
    requires is_open { ForSome (F.told folder.old).files (IsOpen files.now) }
    ensures measured { IfOk result (λ found. ForTold (F.told folder.old) (ForEachKeyed key.now signature) (HasMeasure signature offset count found)) }
    ensures light { IfOk result (λ found. found.bytes < 2 ^ 36) }
    ensures buffer { length buffer.new ≡ length buffer.old }
    ensures reads { ReadsOnly F.told F.faults folder.old folder.new (IfDevice result) }
    ensures damaged { IfDamaged result (IsFailedCheck files.now (F.told folder.new)) }
    ensures untold { ForTold (F.told folder.old) (ForEachKeyed key.now signature) (Undamaged result (F.told folder.old)) }
{
    let (number, place) = child_of(offset);
    let end = u64::from(place) + count;
    let size = u64::from(PART_SIZE);
    if end <= size {
        let piece = measure_piece(folder, files, key, signature, number, buffer, end)?;
        return Ok(measured_one(&piece));
    }
    let front = measure_piece(folder, files, key, signature, number, buffer, size)?;
    let back = measure_piece(
        folder,
        files,
        key,
        signature,
        number + 1,
        buffer,
        end - size,
    )?;
    Ok(measured_two(&front, &back))
}

// Measures one part, for data up to an end.
fn measure_piece<F: Folder>(
    folder: &mut F,
    files: &BlockFiles,
    key: &[u8],
    signature: i64,
    number: u32,
    buffer: &mut [u8],
    end: u64,
) -> Result<Piece, Fault>
    requires some { 1 ≤ length key.now }
    requires short { length key.now ≤ longest_key }
    requires signature { cast_unsigned w64 signature < signatures }
    requires number { number < part_count }
    requires buffer { longest_name ≤ length buffer.old }
    requires end { end ≤ part_size }
    requires is_open { ForSome (F.told folder.old).files (IsOpen files.now) }
    ensures measured { IfOk result (λ piece. ForTold (F.told folder.old) (ForEachKeyed key.now signature) (HasPieceMeasure signature number end piece)) }
    ensures light { IfOk result (λ piece. piece.charged + piece.bytes < 2 ^ 35) }
    ensures buffer { length buffer.new ≡ length buffer.old }
    ensures reads { ReadsOnly F.told F.faults folder.old folder.new (IfDevice result) }
    ensures damaged { IfDamaged result (IsFailedCheck files.now (F.told folder.new)) }
    ensures untold { ForTold (F.told folder.old) (ForEachKeyed key.now signature) (Undamaged result (F.told folder.old)) }
{
    let parent = ParentName { key, signature };
    match find_part(folder, files, parent, number, buffer)? {
        Some(part) => measure_there(folder, files, part, end),
        None => Ok(measure_new(key, signature, number, buffer, end)),
    }
}

// Measures a part that exists, by its record.
fn measure_there<F: Folder>(
    folder: &mut F,
    files: &BlockFiles,
    part: Addr,
    end: u64,
) -> Result<Piece, Fault>
    requires kind { kind_of part ≡ blocks_256 }
    requires stands { IsTrue (stands_among files.now part) }
    requires end { end ≤ part_size }
    requires is_open { ForSome (F.told folder.old).files (IsOpen files.now) }
    ensures measured { IfOk result (λ piece. ForTold (F.told folder.old) (ForEachPartMeasured part) (MeasuresPart end piece)) }
    ensures light { IfOk result (λ piece. piece.charged + piece.bytes < 2 ^ 35) }
    ensures reads { ReadsOnly F.told F.faults folder.old folder.new (IfDevice result) }
    ensures damaged { IfDamaged result (IsFailedCheck files.now (F.told folder.new)) }
    ensures untold { ForTold (F.told folder.old) (ForEachPartMeasured part) (λ _ _ _ _ _. OpaqueIfDamaged result (F.told folder.old)) }
{
    let node = node_of(folder, files, part)?;
    let head = read_head(folder, files, part)?;
    Ok(Piece {
        node: Some(node),
        charged: charge_of_head(&head),
        bytes: end.saturating_sub(u64::from(head.sizes[DATA])),
    })
}

// Measures a part that is made: its name, its data up to the end, and the index of its blocks.
fn measure_new(key: &[u8], signature: i64, number: u32, buffer: &mut [u8], end: u64) -> Piece
    requires some { 1 ≤ length key.now }
    requires short { length key.now ≤ longest_key }
    requires signature { cast_unsigned w64 signature < signatures }
    requires number { number < part_count }
    requires buffer { longest_name ≤ length buffer.old }
    requires end { end ≤ part_size }
    ensures node { result.node ≡ None }
    ensures charged { result.charged ≡ 0 }
    ensures bytes { result.bytes ≡ length (child_name key.now (cast_unsigned w64 signature) number) + end + blocks_index_charge }
    ensures light { result.bytes < 2 ^ 35 }
    ensures buffer { length buffer.new ≡ length buffer.old }
{
    let len = child_name(key, signature, number, buffer);
    Piece {
        node: None,
        charged: 0,
        bytes: len as u64 + end + BLOCKS_INDEX,
    }
}

/// Measures what a write of some bytes adds to a plain object that becomes sparse with a generation, but for the index of its parts: each part in range is
/// made. Nothing is written, and two folder calls read the key into the front of `name`.
pub fn measure_plain<F: Folder>(
    folder: &mut F,
    files: &BlockFiles,
    entry: Addr,
    signature: i64,
    name: &mut [u8],
    offset: u64,
    count: u64,
) -> Result<Measured, Fault>
    requires kind { kind_of entry ≡ blocks_256 }
    requires stands { IsTrue (stands_among files.now entry) }
    requires signature { cast_unsigned w64 signature < signatures }
    requires name { longest_key + longest_name ≤ length name.old }
    requires some { 1 ≤ count }
    requires few { count ≤ part_size }
    requires inside { offset + count ≤ largest_offset }
    requires is_open { ForSome (F.told folder.old).files (IsOpen files.now) }
    ensures measured { IfOk result (λ found. ForTold (F.told folder.old) (ForEachPlainMeasured entry) (MeasuresPlain signature offset count found)) }
    ensures light { IfOk result (λ found. found.bytes < 2 ^ 36) }
    ensures reads { ReadsOnly F.told F.faults folder.old folder.new (IfDevice result) }

    // Corruption is a check that fails on what is read here. An observable folder, with such an object, gives none.
    ensures damaged { IfDamaged result (IsFailedCheck files.now (F.told folder.new)) }
    ensures untold { ForTold (F.told folder.old) (ForEachPlainMeasured entry) (λ _ _ _. OpaqueIfDamaged result (F.told folder.old)) }
{
    let len = read_key(folder, files, entry, name)?;
    let (key, buffer) = name.split_at_mut(LONGEST_KEY as usize);
    Ok(measure_made(&key[..len], signature, buffer, offset, count))
}

// Measures the parts in range of a write, for an object with a key that has no parts yet.
fn measure_made(key: &[u8], signature: i64, buffer: &mut [u8], offset: u64, count: u64) -> Measured
    requires some_key { 1 ≤ length key.now }
    requires short_key { length key.now ≤ longest_key }
    requires signature { cast_unsigned w64 signature < signatures }
    requires buffer { longest_name ≤ length buffer.old }
    requires some { 1 ≤ count }
    requires few { count ≤ part_size }
    requires inside { offset + count ≤ largest_offset }
    ensures measured { ForEachPartless key.now (λ layout object. IsMeasured layout object (cast_unsigned w64 signature) offset count result) }
    ensures light { result.bytes < 2 ^ 36 }
    ensures buffer { length buffer.new ≡ length buffer.old }
{
    let (number, place) = child_of(offset);
    let end = u64::from(place) + count;
    let size = u64::from(PART_SIZE);
    if end <= size {
        let piece = measure_new(key, signature, number, buffer, end);
        return measured_one(&piece);
    }
    let front = measure_new(key, signature, number, buffer, size);
    let back = measure_new(key, signature, number + 1, buffer, end - size);
    measured_two(&front, &back)
}
