// The parts of a parent are removed, by the key in its record.
ghost use Rattle.std.specs.Prelude.{◌≡◌, ◌+◌, ◌≤◌, ◌<◌, ℕ, IfOk, IsTrue, List, OnOk, false, length, take};
ghost use Rattle.std.specs.Int.{cast_unsigned, w64};
ghost use Rattle.std.specs.List.{FoldsTo};
ghost use Rattle.std.specs.Option.{ForSome};
ghost use Rattle.spec_image.specs.Told.{MayWrite, ReadsOnly, ForTold};
ghost use Rattle.blk_model.specs.Sizes.{longest_key, signatures};
ghost use Rattle.spec_format.specs.Address.{blocks_256, kind_of};
ghost use Rattle.spec_format.specs.Names.{longest_name};
ghost use Rattle.blk_io.specs.Faults.{IfDamaged, IfDevice, UndamagedWhere};
ghost use Rattle.blk_disk.specs.Open.{IsOpen};
ghost use Rattle.blk_disk.specs.Tables.{Agrees, stands_among};
ghost use Rattle.blk_object.specs.FailedChecks.{IsFailedCheck};
ghost use Rattle.blk_sparse.specs.Clauses.{AllOutOfIt, BeginsLeftOfIt, CallsLeftOfIt, CountsLeftOfIt, DoomedLeft, ForEachPartlyOut, ForParentIndex, HasSomeKey, IsKeyAt, SessionStaysLeft, UndamagedLeft, UndamagedParent, UnlinkedStay};
ghost use Rattle.blk_sparse.specs.Children.{HasParentKey};
ghost use Rattle.blk_sparse.specs.Dropping.{HasNoBit};

use crate::dropping::{IndexedParts, drop_indexed_with};
use crate::parents::read_index;
use blk_addr::Addr;
use blk_disk::BlockFiles;
use blk_entry::{LONGEST_NAME, key_piece, record_damage};
use blk_io::{Fault, Folder};
use blk_ranges::LONGEST_KEY;
use blk_record::EntryView;

/// The main item of an object with parts: its record, the node that it has, or had before it was taken out of the list
/// and of its chain, and the generation of its index.
#[derive(Clone, Copy, Debug, PartialEq, Eq)]
pub struct Parent {
    pub entry: Addr,
    pub node: Addr,
    pub signature: i64,
}

/// Removes the parts of a parent, as `drop_children_with` does, without a call for each.
pub fn drop_children<F: Folder>(
    f: &mut F,
    files: &BlockFiles,
    parent: &Parent,
    name: &mut [u8],
) -> Result<u64, Fault>
    requires kind { kind_of parent.now.entry ≡ blocks_256 }
    requires stands { IsTrue (stands_among files.now parent.now.entry) }
    requires signature { cast_unsigned w64 parent.now.signature < signatures }
    requires name { longest_key + longest_name ≤ length name.old }
    requires is_open { ForSome (F.told f.old).files (IsOpen files.now) }

    // Where the parent of an object is out, and perhaps parts of it, and what is left is counted, all its items are out in the end, in the same session. How
    // many parts were removed is the answer.
    ensures out { OnOk result (ForTold (F.told f.old) (ForEachPartlyOut parent.now) (AllOutOfIt (F.told f.new))) }
    ensures count { IfOk result (λ count. ForTold (F.told f.old) (ForEachPartlyOut parent.now) (CountsLeftOfIt count)) }
    ensures session { OnOk result (ForTold (F.told f.old) (ForEachPartlyOut parent.now) (SessionStaysLeft (F.told f.new))) }

    // What lies in places that were unlinked at first, as those of the parent, lies there still.
    ensures keeps { OnOk result (ForTold (F.told f.old) (ForEachPartlyOut parent.now) (UnlinkedStay (F.told f.new))) }

    // No more parts are removed than a list has nodes.
    ensures few { IfOk result (λ count. count ≤ 131072) }

    // At each word the durable contents with the object doomed are recovered.
    ensures stops { ForTold (F.told f.old) (ForEachPartlyOut parent.now) (DoomedLeft (F.told f.old) (F.told f.new)) }

    ensures is_open { ForSome (F.told f.new).files (IsOpen files.now) }

    // Corruption is a check that fails on what is read here; nothing is written after it.
    ensures damaged { IfDamaged result (IsFailedCheck files.now (F.told f.new)) }

    // An observable folder, with such a parent, reports no corruption.
    ensures untold { ForTold (F.told f.old) (ForEachPartlyOut parent.now) (UndamagedLeft result (F.told f.old)) }

    ensures writes { MayWrite F.told F.faults f.old f.new (IfDevice result) }
{
    drop_children_with(f, files, parent, name, &mut |_| ())
}

/// Removes the parts of a parent after its main item: each is taken out of list and chain, its places are freed, and it is counted no longer; and then `each`
/// is called with its number. That is in the order of the LRU list, in one walk over it; where no bit of the parent's index is set, no list is walked. How many
/// parts were removed is given.
///
/// The key is read from the parent's record into the front of `name`, and the names of the parts are made after the
/// longest key. This takes four folder calls, and those of `drop_parts_with` where a bit is set. A failed check is one of
/// those that `key_piece`, `read_signature` and `drop_parts_with` give, or a key that has no byte or is longer than a
/// parent's, of the length in its record.
pub fn drop_children_with<F: Folder, E: FnMut(u32)>(
    folder: &mut F,
    files: &BlockFiles,
    parent: &Parent,
    name: &mut [u8],
    each: &mut E,
) -> Result<u64, Fault>
    requires kind { kind_of parent.now.entry ≡ blocks_256 }
    requires stands { IsTrue (stands_among files.now parent.now.entry) }
    requires signature { cast_unsigned w64 parent.now.signature < signatures }
    requires name { longest_key + longest_name ≤ length name.old }
    requires callable { E.IsAlwaysCallable each.old }
    requires is_open { ForSome (F.told folder.old).files (IsOpen files.now) }

    // Where the parent of an object is out, and perhaps parts of it, and what is left is counted, all its items are out in the end, in the same session. How
    // many parts were removed is the answer.
    ensures out { OnOk result (ForTold (F.told folder.old) (ForEachPartlyOut parent.now) (AllOutOfIt (F.told folder.new))) }
    ensures count { IfOk result (λ count. ForTold (F.told folder.old) (ForEachPartlyOut parent.now) (CountsLeftOfIt count)) }
    ensures session { OnOk result (ForTold (F.told folder.old) (ForEachPartlyOut parent.now) (SessionStaysLeft (F.told folder.new))) }

    // What lies in places that were unlinked at first, as those of the parent, lies there still.
    ensures keeps { OnOk result (ForTold (F.told folder.old) (ForEachPartlyOut parent.now) (UnlinkedStay (F.told folder.new))) }

    // No more parts are removed than a list has nodes.
    ensures few { IfOk result (λ count. count ≤ 131072) }

    // `each` was called with the numbers of the parts that were left, in the order of the list, once each; or with a prefix of
    // them.
    ensures each { OnOk result (ForTold (F.told folder.old) (ForEachPartlyOut parent.now) (CallsLeftOfIt (λ p x q. E.step p x tt q) each.old each.new)) }
    ensures front { ForTold (F.told folder.old) (ForEachPartlyOut parent.now) (BeginsLeftOfIt E (λ p x q. E.step p x tt q) each.old each.new) }

    // On every folder it was called with some numbers.
    ensures calls { (numbers : List ℕ) × FoldsTo (λ p x q. E.step p x tt q) each.old numbers each.new }

    // At each word the durable contents with the object doomed are recovered.
    ensures stops { ForTold (F.told folder.old) (ForEachPartlyOut parent.now) (DoomedLeft (F.told folder.old) (F.told folder.new)) }

    ensures is_open { ForSome (F.told folder.new).files (IsOpen files.now) }

    // Corruption is a check that fails on what is read here; nothing is written after it.
    ensures damaged { IfDamaged result (IsFailedCheck files.now (F.told folder.new)) }

    // An observable folder, with such a parent, reports no corruption.
    ensures untold { ForTold (F.told folder.old) (ForEachPartlyOut parent.now) (UndamagedLeft result (F.told folder.old)) }

    ensures writes { MayWrite F.told F.faults folder.old folder.new (IfDevice result) }
{
    let (len, any) = read_parent(folder, files, parent.entry, name)?;
    let (key, buffer) = name.split_at_mut(LONGEST_KEY as usize);
    let indexed = IndexedParts {
        signature: parent.signature,
        any,
    };
    let gone = drop_indexed_with(folder, files, &key[..len], indexed, buffer, each)?;
    Ok(gone.items)
}

// Reads the key of a parent into the front of `name`, and whether a bit of its index is set, by four folder calls. The
// length of the key is given.
fn read_parent<F: Folder>(
    folder: &mut F,
    files: &BlockFiles,
    entry: Addr,
    name: &mut [u8],
) -> Result<(usize, bool), Fault>
    requires kind { kind_of entry ≡ blocks_256 }
    requires stands { IsTrue (stands_among files.now entry) }
    requires name { longest_name ≤ length name.old }
    ensures some { IfOk result (λ read. 1 ≤ read.0) }
    ensures short { IfOk result (λ read. read.0 ≤ longest_key) }
    ensures key { IfOk result (λ read. ForSome (F.told folder.old).files (IsKeyAt entry (take read.0 name.new))) }
    ensures none { IfOk result (λ read. ForSome (F.told folder.old).files (ForParentIndex entry (λ index. read.1 ≡ false → HasNoBit index))) }
    ensures reads { ReadsOnly F.told F.faults folder.old folder.new (IfDevice result) }
    ensures damaged { IfDamaged result (IsFailedCheck files.now (F.told folder.new)) }
    ensures untold { UndamagedParent result (F.told folder.old) files.now entry }
{
    let len = read_key(folder, files, entry, name)?;
    let indexed = read_index(folder, files, entry)?;
    Ok((len, indexed.any))
}

// Reads the key of a parent into the front of `name`, by two folder calls. Its length is given.
pub(crate) fn read_key<F: Folder>(
    folder: &mut F,
    files: &BlockFiles,
    entry: Addr,
    name: &mut [u8],
) -> Result<usize, Fault>
    requires kind { kind_of entry ≡ blocks_256 }
    requires stands { IsTrue (stands_among files.now entry) }
    requires name { longest_name ≤ length name.old }
    ensures some { IfOk result (λ len. 1 ≤ len) }
    ensures short { IfOk result (λ len. len ≤ longest_key) }
    ensures key { IfOk result (λ len. ForSome (F.told folder.old).files (λ image. (key : List ℕ) → HasParentKey entry key image → take len name.new ≡ key)) }
    ensures reads { ReadsOnly F.told F.faults folder.old folder.new (IfDevice result) }
    ensures damaged { IfDamaged result (IsFailedCheck files.now (F.told folder.new)) }
    ensures untold { ForSome (F.told folder.old).files (Agrees files.now) → UndamagedWhere result (F.told folder.old) (HasSomeKey entry) }
{
    let len = key_piece(folder, files, entry, 0, name)?;
    if len == 0 || len > LONGEST_KEY as usize {
        let found = len.min(LONGEST_NAME as usize) as u32;
        return Err(record_damage(entry, EntryView::KEY_LEN, found));
    }
    Ok(len)
}
