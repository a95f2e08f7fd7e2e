// The search for the parts of an object in a range, by their names.
ghost use Rattle.std.specs.Prelude.{◌≡◌, ◌≤◌, ◌<◌, ◌+◌, IfOk, IfSome, IsTrue, None, length};
ghost use Rattle.std.specs.Int.{cast_unsigned, w64};
ghost use Rattle.std.specs.Option.{ForSome};
ghost use Rattle.spec_image.specs.Told.{ReadsOnly, ForTold};
ghost use Rattle.blk_model.specs.Sizes.{largest_offset, longest_key, part_size, signatures};
ghost use Rattle.spec_format.specs.Address.{blocks_256, kind_of};
ghost use Rattle.spec_format.specs.Names.{longest_name};
ghost use Rattle.blk_io.specs.Faults.{IfDamaged, IfDevice};
ghost use Rattle.blk_disk.specs.Open.{IsOpen};
ghost use Rattle.blk_disk.specs.Tables.{stands_among};
ghost use Rattle.blk_object.specs.FailedChecks.{IsFailedCheck};
ghost use Rattle.blk_sparse.specs.Clauses.{ForEachOfName, ForEachOfParent, HasPartsIn, Undamaged};

use crate::children::{Parent, read_key};
use crate::parts::{ParentName, find_part};
use blk_addr::Addr;
use blk_disk::BlockFiles;
use blk_io::{Fault, Folder};
use blk_ranges::{LONGEST_KEY, PART_SIZE, child_of};

/// The records of the parts in a range, two at most: `None` for a part that doesn't exist.
#[derive(Clone, Copy, Debug, PartialEq, Eq)]
pub struct PartRecords {
    pub first: Option<Addr>,
    pub second: Option<Addr>,
}

/// The parts of an object that are in the range of `count` bytes from an offset on, one or two; nothing is changed.
///
/// The key is read from the parent's record into the front of `name`, and the names of the parts are made after the
/// longest key. For each part in range there are the calls of `find`.
pub fn find_parts<F: Folder>(
    folder: &mut F,
    files: &BlockFiles,
    parent: &Parent,
    name: &mut [u8],
    offset: u64,
    count: u64,
) -> Result<PartRecords, Fault>
    requires kind { kind_of parent.now.entry ≡ blocks_256 }
    requires stands { IsTrue (stands_among files.now parent.now.entry) }
    requires signature { cast_unsigned w64 parent.now.signature < signatures }
    requires name { longest_key + longest_name ≤ length name.old }
    requires some { 1 ≤ count }
    requires few { count ≤ part_size }
    requires inside { offset + count ≤ largest_offset }
    requires is_open { ForSome (F.told folder.old).files (IsOpen files.now) }

    // These are the records of the parts of each object that a kept state has with this parent.
    ensures parts { IfOk result (λ found. ForTold (F.told folder.old) (ForEachOfParent parent.now) (HasPartsIn offset count found)) }

    // On every folder the records that are found are valid.
    ensures first_kind { IfOk result (λ found. IfSome found.first (λ entry. kind_of entry ≡ blocks_256)) }
    ensures first_stands { IfOk result (λ found. IfSome found.first (λ entry. IsTrue (stands_among files.now entry))) }
    ensures second_kind { IfOk result (λ found. IfSome found.second (λ entry. kind_of entry ≡ blocks_256)) }
    ensures second_stands { IfOk result (λ found. IfSome found.second (λ entry. IsTrue (stands_among files.now entry))) }

    ensures reads { ReadsOnly F.told F.faults folder.old folder.new (IfDevice result) }

    // Corruption is a check that fails on what is read here. An observable folder, with such an object, gives none.
    ensures damaged { IfDamaged result (IsFailedCheck files.now (F.told folder.new)) }
    ensures untold { ForTold (F.told folder.old) (ForEachOfParent parent.now) (Undamaged result (F.told folder.old)) }
{
    let len = read_key(folder, files, parent.entry, name)?;
    let (key, buffer) = name.split_at_mut(LONGEST_KEY as usize);
    let parent = ParentName {
        key: &key[..len],
        signature: parent.signature,
    };
    find_covered(folder, files, parent, buffer, offset, count)
}

// Finds the parts of an object with a key that are in range.
fn find_covered<F: Folder>(
    folder: &mut F,
    files: &BlockFiles,
    parent: ParentName,
    buffer: &mut [u8],
    offset: u64,
    count: u64,
) -> Result<PartRecords, Fault>
    requires some_key { 1 ≤ length parent.key.now }
    requires short { length parent.key.now ≤ longest_key }
    requires signature { cast_unsigned w64 parent.signature < signatures }
    requires buffer { longest_name ≤ length buffer.old }
    requires some { 1 ≤ count }
    requires few { count ≤ part_size }
    requires inside { offset + count ≤ largest_offset }
    requires is_open { ForSome (F.told folder.old).files (IsOpen files.now) }
    ensures parts { IfOk result (λ found. ForTold (F.told folder.old) (ForEachOfName parent.entry) (HasPartsIn offset count found)) }
    ensures first_kind { IfOk result (λ found. IfSome found.first (λ entry. kind_of entry ≡ blocks_256)) }
    ensures first_stands { IfOk result (λ found. IfSome found.first (λ entry. IsTrue (stands_among files.now entry))) }
    ensures second_kind { IfOk result (λ found. IfSome found.second (λ entry. kind_of entry ≡ blocks_256)) }
    ensures second_stands { IfOk result (λ found. IfSome found.second (λ entry. IsTrue (stands_among files.now entry))) }
    ensures reads { ReadsOnly F.told F.faults folder.old folder.new (IfDevice result) }
    ensures damaged { IfDamaged result (IsFailedCheck files.now (F.told folder.new)) }
    ensures untold { ForTold (F.told folder.old) (ForEachOfName parent.entry) (Undamaged result (F.told folder.old)) }
{
    let (number, place) = child_of(offset);
    let first = find_part(folder, files, parent, number, buffer)?;
    if count <= u64::from(PART_SIZE - place) {
        return Ok(PartRecords {
            first,
            second: None,
        });
    }
    let second = find_part(folder, files, parent, number + 1, buffer)?;
    Ok(PartRecords { first, second })
}
