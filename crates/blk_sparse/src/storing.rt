// Sparse data is written to an open object: it is accessed, becomes sparse where it is plain, gets the bytes, and is counted.
ghost use Rattle.std.specs.Prelude.{◌≡◌, ◌≤◌, ◌<◌, ◌+◌, [], IsTrue, None, OnOk, length};
ghost use Rattle.std.specs.Int.{cast_unsigned, w64};
ghost use Rattle.std.specs.Option.{ForSome};
ghost use Rattle.spec_image.specs.Told.{Passes, MayWrite, ForTold};
ghost use Rattle.blk_model.specs.Sizes.{largest_offset, longest_key, part_size, signatures};
ghost use Rattle.spec_format.specs.Address.{blocks_256, kind_of};
ghost use Rattle.spec_format.specs.Names.{longest_name};
ghost use Rattle.blk_io.specs.Faults.{IfDamaged, IfDevice, OpaqueIfDamaged};
ghost use Rattle.blk_disk.specs.Open.{IsOpen};
ghost use Rattle.blk_disk.specs.Tables.{stands_among};
ghost use Rattle.blk_alloc.specs.Extending.{KeepsStanding};
ghost use Rattle.law_state.specs.Changes.{KeepsWith};
ghost use Rattle.blk_object.specs.FailedChecks.{IsFailedCheck};
ghost use Rattle.blk_sparse.specs.Clauses.{BeginsTarget, CountsBytes, Durable, DurableStore, ForEachCovered, ForStore, ForWriteOf, StoresBytes, Undamaged, WhereStore};
ghost use Rattle.blk_sparse.specs.SparseWrites.{AreItemsCounted, ForEachTarget, signature_to};

use crate::beginning::begin;
use crate::children::Parent;
use crate::parts::use_entry;
use crate::writing::{SparseBytes, write};
use blk_disk::BlockFiles;
use blk_io::{Fault, Folder};
use blk_object::{count_more, count_rise};

/// An object to which sparse data are written: its record, its node and the generation of its parts, which a plain one
/// gets; and whether it is plain.
#[derive(Clone, Copy, Debug)]
pub struct Target {
    pub parent: Parent,
    pub plain: bool,
}

/// What a write adds to the counters of the index.
#[derive(Clone, Copy, Debug)]
pub struct Counted {
    /// How many items.
    pub entries: u64,
    /// The cost of these, and the bytes by which the costs of items that grow rise.
    pub charge: u64,
}

/// Writes sparse data to a dirty live object: its main item is accessed, it becomes sparse where it is plain, the bytes are written, and the counters of the
/// index are raised by that many items and that cost.
///
/// The key is read from the record into the front of `name`, and the names of the parts are made after the longest key.
pub fn store_sparse<F: Folder>(
    folder: &mut F,
    files: &mut BlockFiles,
    target: &Target,
    name: &mut [u8],
    data: SparseBytes,
    more: Counted,
    moment: u64,
) -> Result<(), Fault>
    requires kind { kind_of target.now.parent.entry ≡ blocks_256 }
    requires stands { IsTrue (stands_among files.old target.now.parent.entry) }
    requires signature { signature_to target.now < signatures }
    requires name { longest_key + longest_name ≤ length name.old }
    requires few { length data.bytes.now ≤ part_size }
    requires inside { data.offset + length data.bytes.now ≤ largest_offset }
    requires is_open { ForSome (F.told folder.old).files (IsOpen files.old) }

    // Each state that was kept, with such an object, is kept with the bytes, and with its items in front.
    ensures stored { OnOk result (ForStore (F.told folder.old) target.now data.entry more (StoresBytes (F.told folder.new))) }

    // At each word the old durable contents are recovered: a dirty object isn't durable.
    ensures stops { ForStore (F.told folder.old) target.now data.entry more (DurableStore (F.told folder.new)) }

    // What was valid still is.
    ensures keeps { KeepsStanding files.old files.new }
    ensures is_open { OnOk result (ForSome (F.told folder.new).files (IsOpen files.new)) }

    // Corruption is a check that fails on what is read here; nothing is written after it.
    ensures damaged { IfDamaged result (IsFailedCheck files.new (F.told folder.new)) }

    // An observable folder, with such an object, reports no corruption.
    ensures untold { WhereStore (F.told folder.old) target.now data.entry more (OpaqueIfDamaged result (F.told folder.old)) }

    ensures writes { MayWrite F.told F.faults folder.old folder.new (IfDevice result) }
{
    use_and_begin(folder, files, target, moment)?;
    write_and_count(folder, files, &target.parent, name, data, more, moment)
}

// Accesses the main item of an object, which becomes sparse where it is plain.
fn use_and_begin<F: Folder>(
    folder: &mut F,
    files: &mut BlockFiles,
    target: &Target,
    moment: u64,
) -> Result<(), Fault>
    requires kind { kind_of target.now.parent.entry ≡ blocks_256 }
    requires stands { IsTrue (stands_among files.old target.now.parent.entry) }
    requires signature { signature_to target.now < signatures }
    requires is_open { ForSome (F.told folder.old).files (IsOpen files.old) }
    ensures begun { OnOk result (ForTold (F.told folder.old) (ForEachTarget [] target.now) (BeginsTarget (F.told folder.new) target.now)) }
    ensures stops { ForTold (F.told folder.old) (ForEachTarget [] target.now) (Durable (F.told folder.old) (F.told folder.new)) }
    ensures keeps { KeepsStanding files.old files.new }
    ensures is_open { OnOk result (ForSome (F.told folder.new).files (IsOpen files.new)) }
    ensures damaged { IfDamaged result (IsFailedCheck files.new (F.told folder.new)) }
    ensures untold { ForTold (F.told folder.old) (ForEachTarget [] target.now) (Undamaged result (F.told folder.old)) }
    ensures writes { MayWrite F.told F.faults folder.old folder.new (IfDevice result) }
{
    use_entry(folder, files, target.parent.entry, moment)?;
    if target.plain {
        return begin(folder, files, target.parent.entry, target.parent.signature);
    }
    Ok(())
}

// Writes bytes to an object with parts, and raises the counters of the index by a number of items and a cost.
fn write_and_count<F: Folder>(
    folder: &mut F,
    files: &mut BlockFiles,
    parent: &Parent,
    name: &mut [u8],
    data: SparseBytes,
    more: Counted,
    moment: u64,
) -> Result<(), Fault>
    requires kind { kind_of parent.now.entry ≡ blocks_256 }
    requires stands { IsTrue (stands_among files.old parent.now.entry) }
    requires signature { cast_unsigned w64 parent.now.signature < signatures }
    requires name { longest_key + longest_name ≤ length name.old }
    requires few { length data.bytes.now ≤ part_size }
    requires inside { data.offset + length data.bytes.now ≤ largest_offset }
    requires is_open { ForSome (F.told folder.old).files (IsOpen files.old) }
    ensures counted { OnOk result (ForWriteOf (F.told folder.old) parent.now data.entry (CountsBytes more.entries more.charge (F.told folder.new))) }
    ensures stops { ForTold (F.told folder.old) (ForEachCovered parent.now data.entry) (Durable (F.told folder.old) (F.told folder.new)) }
    ensures keeps { KeepsStanding files.old files.new }
    ensures is_open { OnOk result (ForSome (F.told folder.new).files (IsOpen files.new)) }
    ensures damaged { IfDamaged result (IsFailedCheck files.new (F.told folder.new)) }
    ensures untold { ForTold (F.told folder.old) (ForEachCovered parent.now data.entry) (Undamaged result (F.told folder.old)) }
    ensures writes { MayWrite F.told F.faults folder.old folder.new (IfDevice result) }
{
    write(folder, files, parent, name, data, moment)?;
    count_items(folder, files, more.entries, more.charge)
}

// Raises the counters of the index by a number of items and a cost: where no item is new only the counter of bytes, by two folder calls, and else all by six.
fn count_items<F: Folder>(
    folder: &mut F,
    files: &BlockFiles,
    entries: u64,
    charge: u64,
) -> Result<(), Fault>
    requires is_open { ForSome (F.told folder.old).files (IsOpen files.now) }
    ensures counted { OnOk result (ForSome (F.told folder.old).files (λ from. ForSome (F.told folder.new).files (AreItemsCounted entries charge from))) }
    ensures stops { ForSome (F.told folder.old).files (λ from. Passes (F.told folder.old) (F.told folder.new) (KeepsWith [] [] from)) }
    ensures is_open { ForSome (F.told folder.new).files (IsOpen files.now) }
    ensures damaged { IfDamaged result (IsFailedCheck files.now (F.told folder.new)) }
    ensures untold { IfDamaged result (λ _. (F.told folder.old).files ≡ None) }
    ensures writes { MayWrite F.told F.faults folder.old folder.new (IfDevice result) }
{
    if entries == 0 {
        count_rise(folder, files, 0, charge)
    } else {
        count_more(folder, files, entries, charge)
    }
}
