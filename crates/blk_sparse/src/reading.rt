// Sparse data is read, and the parts in range are accessed.
ghost use Rattle.std.specs.Prelude.{◌≡◌, ◌≤◌, ◌<◌, ◌+◌, IfOk, IsTrue, None, OnOk, length, take};
ghost use Rattle.std.specs.Int.{cast_unsigned, w64};
ghost use Rattle.std.specs.Option.{ForSome};
ghost use Rattle.spec_image.specs.Told.{MayWrite, ForTold};
ghost use Rattle.blk_model.specs.Sizes.{largest_offset, longest_key, part_count, part_size, signatures};
ghost use Rattle.spec_format.specs.Address.{blocks_256, kind_of};
ghost use Rattle.spec_format.specs.Names.{longest_name};
ghost use Rattle.blk_io.specs.Faults.{IfDamaged, IfDevice};
ghost use Rattle.blk_disk.specs.Open.{IsOpen};
ghost use Rattle.blk_disk.specs.Tables.{stands_among};
ghost use Rattle.blk_object.specs.FailedChecks.{IsFailedCheck};
ghost use Rattle.blk_sparse.specs.Clauses.{ForEachAt, ForEachOfName, ForEachOfParent, HasRun, HasSparseBytes, Undamaged, Used, UsedAt, Using, part_if_any, parts_within};

use crate::children::{Parent, read_key};
use crate::parts::{ParentName, find_part, use_entry};
use crate::present::read_present;
use crate::runs::find_run;
use blk_disk::BlockFiles;
use blk_io::{Fault, Folder};
use blk_ranges::{LONGEST_KEY, child_of};

/// Accesses the parts of an object that are in range and exist, in rising number: the node of each comes to the
/// front of the LRU list, and gets a moment as its times.
///
/// The key is read from the parent's record into the front of `name`, and the names of the parts are made after the
/// longest key. For each part in range there are the calls of `find`, and where there is the part one more and those of
/// `touch`.
pub fn use_parts<F: Folder>(
    folder: &mut F,
    files: &BlockFiles,
    parent: &Parent,
    name: &mut [u8],
    offset: u64,
    count: u64,
    moment: u64,
) -> Result<(), Fault>
    requires kind { kind_of parent.now.entry ≡ blocks_256 }
    requires stands { IsTrue (stands_among files.now parent.now.entry) }
    requires signature { cast_unsigned w64 parent.now.signature < signatures }
    requires name { longest_key + longest_name ≤ length name.old }
    requires few { count ≤ part_size }
    requires inside { offset + count ≤ largest_offset }
    requires is_open { ForSome (F.told folder.old).files (IsOpen files.now) }

    // Each state that was kept, with such an object, is kept with these parts in front in the end, by the same layout.
    ensures used { OnOk result (ForTold (F.told folder.old) (ForEachOfParent parent.now) (Used (F.told folder.new) parent.now (parts_within offset count))) }

    // At each word the durable contents with a prefix of these accesses made are recovered.
    ensures stops { ForTold (F.told folder.old) (ForEachOfParent parent.now) (Using (F.told folder.old) (F.told folder.new) (parts_within offset count)) }

    ensures is_open { ForSome (F.told folder.new).files (IsOpen files.now) }

    // Corruption is a check that fails on what is read here; nothing is written after it.
    ensures damaged { IfDamaged result (IsFailedCheck files.now (F.told folder.new)) }

    // An observable folder, with such an object, reports no corruption.
    ensures untold { ForTold (F.told folder.old) (ForEachOfParent parent.now) (Undamaged result (F.told folder.old)) }

    ensures writes { MayWrite F.told F.faults folder.old folder.new (IfDevice result) }
{
    let len = read_key(folder, files, parent.entry, name)?;
    let (key, buffer) = name.split_at_mut(LONGEST_KEY as usize);
    let parent = ParentName {
        key: &key[..len],
        signature: parent.signature,
    };
    use_covered(folder, files, parent, buffer, offset, count, moment)
}

// Accesses those parts in range that an object with a key has.
fn use_covered<F: Folder>(
    folder: &mut F,
    files: &BlockFiles,
    parent: ParentName,
    buffer: &mut [u8],
    offset: u64,
    count: u64,
    moment: u64,
) -> Result<(), Fault>
    requires some { 1 ≤ length parent.key.now }
    requires short { length parent.key.now ≤ longest_key }
    requires signature { cast_unsigned w64 parent.signature < signatures }
    requires buffer { longest_name ≤ length buffer.old }
    requires few { count ≤ part_size }
    requires inside { offset + count ≤ largest_offset }
    requires is_open { ForSome (F.told folder.old).files (IsOpen files.now) }
    ensures used { OnOk result (ForTold (F.told folder.old) (ForEachAt parent.entry) (UsedAt (F.told folder.new) parent.entry (parts_within offset count))) }
    ensures stops { ForTold (F.told folder.old) (ForEachOfName parent.entry) (Using (F.told folder.old) (F.told folder.new) (parts_within offset count)) }
    ensures is_open { ForSome (F.told folder.new).files (IsOpen files.now) }
    ensures damaged { IfDamaged result (IsFailedCheck files.now (F.told folder.new)) }
    ensures untold { ForTold (F.told folder.old) (ForEachOfName parent.entry) (Undamaged result (F.told folder.old)) }
    ensures writes { MayWrite F.told F.faults folder.old folder.new (IfDevice result) }
{
    if count == 0 {
        return Ok(());
    }
    let (first, _) = child_of(offset);
    let (last, _) = child_of(offset + count - 1);
    use_part(folder, files, parent, first, buffer, moment)?;
    if last == first {
        return Ok(());
    }
    use_part(folder, files, parent, last, buffer, moment)
}

// Accesses a part of an object with a key, if it exists.
fn use_part<F: Folder>(
    folder: &mut F,
    files: &BlockFiles,
    parent: ParentName,
    number: u32,
    buffer: &mut [u8],
    moment: u64,
) -> Result<(), Fault>
    requires some { 1 ≤ length parent.key.now }
    requires short { length parent.key.now ≤ longest_key }
    requires signature { cast_unsigned w64 parent.signature < signatures }
    requires number { number < part_count }
    requires buffer { longest_name ≤ length buffer.old }
    requires is_open { ForSome (F.told folder.old).files (IsOpen files.now) }
    ensures used { OnOk result (ForTold (F.told folder.old) (ForEachAt parent.entry) (UsedAt (F.told folder.new) parent.entry (part_if_any number))) }
    ensures stops { ForTold (F.told folder.old) (ForEachOfName parent.entry) (Using (F.told folder.old) (F.told folder.new) (part_if_any number)) }
    ensures buffer { length buffer.new ≡ length buffer.old }
    ensures is_open { ForSome (F.told folder.new).files (IsOpen files.now) }
    ensures damaged { IfDamaged result (IsFailedCheck files.now (F.told folder.new)) }
    ensures untold { ForTold (F.told folder.old) (ForEachOfName parent.entry) (Undamaged result (F.told folder.old)) }
    ensures writes { MayWrite F.told F.faults folder.old folder.new (IfDevice result) }
{
    match find_part(folder, files, parent, number, buffer)? {
        Some(part) => use_entry(folder, files, part, moment),
        None => Ok(()),
    }
}

/// Reads the bytes of an object from an offset on up to the first that is not present, at most as many as `out` has, and
/// accesses the parts that are in range and exist, also after the first absent byte. How many were read is
/// given.
///
/// The key is read from the parent's record into the front of `name`, and the names of the parts are made after the
/// longest key. The calls are those of `read_present` and of `use_parts`.
pub fn read<F: Folder>(
    f: &mut F,
    files: &BlockFiles,
    parent: &Parent,
    name: &mut [u8],
    offset: u64,
    out: &mut [u8],
    moment: u64,
) -> Result<usize, Fault>
    requires kind { kind_of parent.now.entry ≡ blocks_256 }
    requires stands { IsTrue (stands_among files.now parent.now.entry) }
    requires signature { cast_unsigned w64 parent.now.signature < signatures }
    requires name { longest_key + longest_name ≤ length name.old }
    requires few { length out.old ≤ part_size }
    requires inside { offset + length out.old ≤ largest_offset }
    requires is_open { ForSome (F.told f.old).files (IsOpen files.now) }

    // These are the bytes of each object that a kept state has with this parent.
    ensures bytes { IfOk result (λ n. ForTold (F.told f.old) (ForEachOfParent parent.now) (HasSparseBytes (take n out.new) offset (length out.old))) }
    ensures within { IfOk result (λ n. n ≤ length out.old) }
    ensures long { length out.new ≡ length out.old }

    // Each state that was kept, with such an object, is kept with these parts in front in the end, by the same layout.
    ensures used { OnOk result (ForTold (F.told f.old) (ForEachOfParent parent.now) (Used (F.told f.new) parent.now (parts_within offset (length out.old)))) }

    // At each word the durable contents with a prefix of these accesses made are recovered.
    ensures stops { ForTold (F.told f.old) (ForEachOfParent parent.now) (Using (F.told f.old) (F.told f.new) (parts_within offset (length out.old))) }

    ensures is_open { ForSome (F.told f.new).files (IsOpen files.now) }

    // Corruption is a check that fails on what is read here; nothing is written after it.
    ensures damaged { IfDamaged result (IsFailedCheck files.now (F.told f.new)) }

    // An observable folder, with such an object, reports no corruption.
    ensures untold { ForTold (F.told f.old) (ForEachOfParent parent.now) (Undamaged result (F.told f.old)) }

    ensures writes { MayWrite F.told F.faults f.old f.new (IfDevice result) }
{
    let len = read_present(f, files, parent, name, offset, out)?;
    use_parts(f, files, parent, name, offset, out.len() as u64, moment)?;
    Ok(len)
}

/// The first run of present bytes of an object among `count` from an offset on, as its offset and its length; the offset
/// and 0 where none is. The parts that are in range and exist are accessed.
///
/// The key is read from the parent's record into the front of `name`, and the names of the parts are made after the
/// longest key. The calls are those of `find_run` and of `use_parts`.
pub fn range<F: Folder>(
    f: &mut F,
    files: &BlockFiles,
    parent: &Parent,
    name: &mut [u8],
    offset: u64,
    count: u64,
    moment: u64,
) -> Result<(u64, u64), Fault>
    requires kind { kind_of parent.now.entry ≡ blocks_256 }
    requires stands { IsTrue (stands_among files.now parent.now.entry) }
    requires signature { cast_unsigned w64 parent.now.signature < signatures }
    requires name { longest_key + longest_name ≤ length name.old }
    requires few { count ≤ part_size }
    requires inside { offset + count ≤ largest_offset }
    requires is_open { ForSome (F.told f.old).files (IsOpen files.now) }

    // This is the run of each object that a kept state has with this parent.
    ensures run { IfOk result (λ run. ForTold (F.told f.old) (ForEachOfParent parent.now) (HasRun (run.0, run.1) offset count)) }

    // Each state that was kept, with such an object, is kept with these parts in front in the end, by the same layout.
    ensures used { OnOk result (ForTold (F.told f.old) (ForEachOfParent parent.now) (Used (F.told f.new) parent.now (parts_within offset count))) }

    // At each word the durable contents with a prefix of these accesses made are recovered.
    ensures stops { ForTold (F.told f.old) (ForEachOfParent parent.now) (Using (F.told f.old) (F.told f.new) (parts_within offset count)) }

    ensures is_open { ForSome (F.told f.new).files (IsOpen files.now) }

    // Corruption is a check that fails on what is read here; nothing is written after it.
    ensures damaged { IfDamaged result (IsFailedCheck files.now (F.told f.new)) }

    // An observable folder, with such an object, reports no corruption.
    ensures untold { ForTold (F.told f.old) (ForEachOfParent parent.now) (Undamaged result (F.told f.old)) }

    ensures writes { MayWrite F.told F.faults f.old f.new (IfDevice result) }
{
    let run = find_run(f, files, parent, name, offset, count)?;
    use_parts(f, files, parent, name, offset, count, moment)?;
    Ok((run.start, run.length))
}
