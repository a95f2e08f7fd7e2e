// The present bytes of an object, read from its parts; nothing is changed.
ghost use Rattle.std.specs.Prelude.{◌≡◌, ◌≤◌, ◌<◌, ◌+◌, IfOk, IsTrue, None, length};
ghost use Rattle.std.specs.Int.{cast_unsigned, w64};
ghost use Rattle.std.specs.Option.{ForSome};
ghost use Rattle.spec_image.specs.Told.{ReadsOnly, ForTold};
ghost use Rattle.blk_model.specs.Sizes.{largest_offset, longest_key, part_count, part_size, signatures};
ghost use Rattle.blk_model.specs.Sparse.{present_run};
ghost use Rattle.spec_format.specs.Address.{blocks_256, kind_of};
ghost use Rattle.spec_format.specs.Names.{longest_name};
ghost use Rattle.blk_io.specs.Faults.{IfDamaged, IfDevice};
ghost use Rattle.blk_disk.specs.Open.{IsOpen};
ghost use Rattle.blk_disk.specs.Tables.{stands_among};
ghost use Rattle.blk_object.specs.FailedChecks.{IsFailedCheck};
ghost use Rattle.blk_sparse.specs.Clauses.{ForEachOfName, ForEachOfParent, HasPartRun, HasRun, Undamaged};
ghost use Rattle.blk_sparse.specs.Reading.{joined_runs};

use crate::changing::read_map;
use crate::children::{Parent, read_key};
use crate::parts::{ParentName, find_part};
use blk_disk::BlockFiles;
use blk_io::{Fault, Folder};
use blk_ranges::{LONGEST_KEY, PART_SIZE, child_of};

/// A run of bytes: its place, and how many they are.
#[derive(Clone, Copy, Debug, PartialEq, Eq)]
pub struct Run {
    pub start: u64,
    pub length: u64,
}

/// The first run of present bytes of an object among `count` from an offset on; the offset and 0 where none is.
///
/// Nothing is changed, and no part is accessed. The key is read from the parent's record into the front of `name`, and the
/// names of the parts are made after the longest key. For each part in range there are the calls of `find`, and where
/// there is the part two more.
pub fn find_run<F: Folder>(
    folder: &mut F,
    files: &BlockFiles,
    parent: &Parent,
    name: &mut [u8],
    offset: u64,
    count: u64,
) -> Result<Run, Fault>
    requires kind { kind_of parent.now.entry ≡ blocks_256 }
    requires stands { IsTrue (stands_among files.now parent.now.entry) }
    requires signature { cast_unsigned w64 parent.now.signature < signatures }
    requires name { longest_key + longest_name ≤ length name.old }
    requires few { count ≤ part_size }
    requires inside { offset + count ≤ largest_offset }
    requires is_open { ForSome (F.told folder.old).files (IsOpen files.now) }

    // This is the run of each object that a kept state has with this parent.
    ensures run { IfOk result (λ run. ForTold (F.told folder.old) (ForEachOfParent parent.now) (HasRun (run.start, run.length) offset count)) }

    ensures reads { ReadsOnly F.told F.faults folder.old folder.new (IfDevice result) }
    ensures name { length name.new ≡ length name.old }

    // Corruption is a check that fails on what is read here; nothing is written after it.
    ensures damaged { IfDamaged result (IsFailedCheck files.now (F.told folder.new)) }

    // An observable folder, with such an object, reports no corruption.
    ensures untold { ForTold (F.told folder.old) (ForEachOfParent parent.now) (Undamaged result (F.told folder.old)) }
{
    let len = read_key(folder, files, parent.entry, name)?;
    let (key, buffer) = name.split_at_mut(LONGEST_KEY as usize);
    let parent = ParentName {
        key: &key[..len],
        signature: parent.signature,
    };
    run_covered(folder, files, parent, buffer, offset, count)
}

// The first run of an object with a key.
fn run_covered<F: Folder>(
    folder: &mut F,
    files: &BlockFiles,
    parent: ParentName,
    buffer: &mut [u8],
    offset: u64,
    count: u64,
) -> Result<Run, Fault>
    requires some { 1 ≤ length parent.key.now }
    requires short { length parent.key.now ≤ longest_key }
    requires signature { cast_unsigned w64 parent.signature < signatures }
    requires buffer { longest_name ≤ length buffer.old }
    requires few { count ≤ part_size }
    requires inside { offset + count ≤ largest_offset }
    requires is_open { ForSome (F.told folder.old).files (IsOpen files.now) }
    ensures run { IfOk result (λ run. ForTold (F.told folder.old) (ForEachOfName parent.entry) (HasRun (run.start, run.length) offset count)) }
    ensures buffer { length buffer.new ≡ length buffer.old }
    ensures reads { ReadsOnly F.told F.faults folder.old folder.new (IfDevice result) }
    ensures damaged { IfDamaged result (IsFailedCheck files.now (F.told folder.new)) }
    ensures untold { ForTold (F.told folder.old) (ForEachOfName parent.entry) (Undamaged result (F.told folder.old)) }
{
    if count == 0 {
        return Ok(Run {
            start: offset,
            length: 0,
        });
    }
    let (first, place) = child_of(offset);
    let cut = (PART_SIZE - place).min(count as u32);
    let one = run_of_part(folder, files, parent, first, buffer, place, cut)?;
    let one = Run {
        start: offset - u64::from(place) + one.start,
        length: one.length,
    };
    if u64::from(cut) == count {
        return Ok(one);
    }
    let behind = count as u32 - cut;
    let two = run_of_part(folder, files, parent, first + 1, buffer, 0, behind)?;
    let border = offset + u64::from(cut);
    let two = Run {
        start: border + two.start,
        length: two.length,
    };
    Ok(joined(offset, border, one, two))
}

// The first run in two ranges, one after the other.
fn joined(asked: u64, border: u64, one: Run, two: Run) -> Run
    requires one { one.start + one.length ≤ border }
    requires few { one.length ≤ part_size }
    requires behind { two.length ≤ part_size }
    requires inside { border ≤ largest_offset }
    ensures { (result.start, result.length) ≡ joined_runs asked border (one.start, one.length) (two.start, two.length) }
{
    if one.length == 0 {
        if two.length == 0 {
            return Run {
                start: asked,
                length: 0,
            };
        }
        return two;
    }
    if one.start + one.length == border && two.start == border {
        return Run {
            start: one.start,
            length: one.length + two.length,
        };
    }
    one
}

// The first run of a part of an object among `count` bytes from a place on; the place and 0 where there is none.
fn run_of_part<F: Folder>(
    folder: &mut F,
    files: &BlockFiles,
    parent: ParentName,
    number: u32,
    buffer: &mut [u8],
    place: u32,
    count: u32,
) -> Result<Run, Fault>
    requires some { 1 ≤ length parent.key.now }
    requires short { length parent.key.now ≤ longest_key }
    requires signature { cast_unsigned w64 parent.signature < signatures }
    requires number { number < part_count }
    requires buffer { longest_name ≤ length buffer.old }
    requires inside { place + count ≤ part_size }
    requires is_open { ForSome (F.told folder.old).files (IsOpen files.now) }
    ensures run { IfOk result (λ run. ForTold (F.told folder.old) (ForEachOfName parent.entry) (HasPartRun (run.start, run.length) number place count)) }
    ensures from { IfOk result (λ run. place ≤ run.start) }
    ensures within { IfOk result (λ run. run.start + run.length ≤ place + count) }
    ensures buffer { length buffer.new ≡ length buffer.old }
    ensures reads { ReadsOnly F.told F.faults folder.old folder.new (IfDevice result) }
    ensures damaged { IfDamaged result (IsFailedCheck files.now (F.told folder.new)) }
    ensures untold { ForTold (F.told folder.old) (ForEachOfName parent.entry) (Undamaged result (F.told folder.old)) }
{
    match find_part(folder, files, parent, number, buffer)? {
        Some(part) => {
            let map = read_map(folder, files, part)?;
            let (start, length) = map.present_run(place, place + count);
            Ok(Run {
                start: u64::from(start),
                length: u64::from(length),
            })
        }
        None => Ok(Run {
            start: u64::from(place),
            length: 0,
        }),
    }
}
