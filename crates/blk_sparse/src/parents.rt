// An object with an index is removed with its parts, or doomed.
ghost use Rattle.std.specs.Prelude.{◌≡◌, ◌≤◌, ◌<◌, ◌==◌, ◌^◌, ℕ, All, IfOk, IfSome, IsTrue, List, None, OnOk, Some, false, length, map, not};
ghost use Rattle.std.specs.Int.{cast_unsigned, w64};
ghost use Rattle.std.specs.List.{FoldsTo, list_any};
ghost use Rattle.std.specs.Option.{ForSome};
ghost use Rattle.spec_image.specs.Told.{MayWrite, ReadsOnly, ForTold};
ghost use Rattle.blk_model.specs.Effects.{doomed};
ghost use Rattle.blk_model.specs.Sizes.{longest_key, signatures};
ghost use Rattle.spec_format.specs.Address.{blocks_256, kind_of};
ghost use Rattle.spec_format.specs.Names.{longest_name};
ghost use Rattle.blk_io.specs.Faults.{IfDamaged, IfDevice, UndamagedWhere};
ghost use Rattle.blk_disk.specs.Open.{IsOpen};
ghost use Rattle.blk_disk.specs.Tables.{Agrees, is_node_among, stands_among};
ghost use Rattle.blk_object.specs.FailedChecks.{IsFailedCheck};
ghost use Rattle.blk_object.specs.Freeing.{IsPlaceAmong};
ghost use Rattle.blk_sparse.specs.Clauses.{AllOut, Began, BeginsLeft, Calls, CallsLeft, DoomedLeft, DoomsWhole, ForEachInUse, ForOwner, ForParentIndex, ForRemoval, GoesWhole, GroupGone, IsGenerationAt, LeftGoneBeside, MaybeDoomed, PartsGone, SessionStays, SessionStaysLeft, Undamaged, UndamagedLeft};
ghost use Rattle.blk_sparse.specs.Dropping.{HasNoBit};
ghost use Rattle.blk_sparse.specs.Parents.{LoadsAsParent};

use crate::dropping::{Gone, IndexedParts, drop_indexed_with};
use blk_addr::Addr;
use blk_chain::Found;
use blk_disk::BlockFiles;
use blk_entry::record_damage;
use blk_io::{Fault, Folder};
use blk_object::{Owned, doom_record, free_owned, take_main};
use blk_ranges::{INDEX, ParentHead, ParentMap};
use blk_record::{EntryView, PARENT, SparseHead};
use blk_stream::read;

/// Removes an object with an index, a parent, which no handle names, with its parts: its main item is taken out and
/// counted no longer, then each part is removed, as `drop_parts_with` says, and the main item's own places are freed last.
/// Where no bit of its index is set, no list is walked. How many items were removed is given, the main one
/// too, and the sum of their costs.
///
/// Its places and its cost were read before, as `read_owned` gives them. Its record is in its chain after the record
/// before, or is the first; and it names this node. The index is read into `buffer`, and then the names of parts are made
/// there. This takes as many folder calls as `take_main` and `drop_parts_with`, two more, and seven for each place of the
/// main item.
pub fn remove_parent_with<F: Folder, E: FnMut(u32)>(
    folder: &mut F,
    files: &BlockFiles,
    found: &Found,
    node: Addr,
    key: &[u8],
    owned: &Owned,
    buffer: &mut [u8],
    each: &mut E,
) -> Result<Gone, Fault>
    requires node { IsTrue (is_node_among files.now node) }
    requires kind { kind_of found.now.entry ≡ blocks_256 }
    requires stands { IsTrue (stands_among files.now found.now.entry) }
    requires kind_before { IfSome found.now.before (λ before. kind_of before ≡ blocks_256) }
    requires stands_before { IfSome found.now.before (λ before. IsTrue (stands_among files.now before)) }
    requires some { 1 ≤ length key.now }
    requires short { length key.now ≤ longest_key }
    requires buffer { longest_name ≤ length buffer.old }
    requires places { All (IsPlaceAmong files.now) owned.now.places }
    requires light { owned.now.charge < 2 ^ 34 }
    requires callable { E.IsAlwaysCallable each.old }
    requires is_open { ForSome (F.told folder.old).files (IsOpen files.now) }

    // Where these are its places and its cost, and there is such an object in a state that is kept, the state with it doomed is kept in the end, in the same
    // session. The answer has how many items were removed, and the sum of their costs.
    ensures removed { OnOk result (ForRemoval (F.told folder.old) key.now node found.now owned.now (GoesWhole (F.told folder.new))) }
    ensures gone { IfOk result (λ gone. ForRemoval (F.told folder.old) key.now node found.now owned.now (GroupGone key.now gone)) }
    ensures session { OnOk result (ForRemoval (F.told folder.old) key.now node found.now owned.now (SessionStays (F.told folder.new))) }

    // `each` was called with the numbers of its parts, in the order of the LRU list, once each; or with a prefix of
    // them.
    ensures each { OnOk result (ForRemoval (F.told folder.old) key.now node found.now owned.now (Calls (λ p x q. E.step p x tt q) key.now each.old each.new)) }
    ensures front { ForRemoval (F.told folder.old) key.now node found.now owned.now (Began E (λ p x q. E.step p x tt q) key.now each.old each.new) }

    // On every folder it was called with some numbers.
    ensures calls { (numbers : List ℕ) × FoldsTo (λ p x q. E.step p x tt q) each.old numbers each.new }

    // At each word the old durable contents are recovered, or those with the object doomed.
    ensures stops { ForRemoval (F.told folder.old) key.now node found.now owned.now (MaybeDoomed (F.told folder.old) (F.told folder.new)) }

    ensures is_open { ForSome (F.told folder.new).files (IsOpen files.now) }

    // Corruption is a check that fails on what is read here; nothing is written after it.
    ensures damaged { IfDamaged result (IsFailedCheck files.now (F.told folder.new)) }

    // An observable folder, with such an object, reports no corruption.
    ensures untold { ForRemoval (F.told folder.old) key.now node found.now owned.now (Undamaged result (F.told folder.old)) }

    ensures writes { MayWrite F.told F.faults folder.old folder.new (IfDevice result) }
{
    let indexed = read_index(folder, files, found.entry)?;
    take_main(folder, files, found, node, owned.charge)?;
    drop_and_free(folder, files, key, indexed, owned, buffer, each)
}

/// Dooms an object with an index, a parent, which a handle names: its main item is taken out, and counted no longer, nor
/// is its cost; then each part is removed, as `drop_parts_with` says; and its record gets the state of a doomed object last.
/// Where no bit of its index is set, no list is walked. Nothing of the main item is freed: its places stay its own until
/// the last handle is closed. It answers how many parts were removed, and the sum of their costs.
///
/// Its record is in its chain after the record before, or is the first; and it names this node. The index is read into
/// `buffer`, and then the names of parts are made there. This takes as many folder calls as `take_main` and
/// `drop_parts_with`, two more, and four for the record.
pub fn doom_parent<F: Folder>(
    folder: &mut F,
    files: &BlockFiles,
    found: &Found,
    node: Addr,
    key: &[u8],
    charge: u64,
    buffer: &mut [u8],
) -> Result<Gone, Fault>
    requires node { IsTrue (is_node_among files.now node) }
    requires kind { kind_of found.now.entry ≡ blocks_256 }
    requires stands { IsTrue (stands_among files.now found.now.entry) }
    requires kind_before { IfSome found.now.before (λ before. kind_of before ≡ blocks_256) }
    requires stands_before { IfSome found.now.before (λ before. IsTrue (stands_among files.now before)) }
    requires some { 1 ≤ length key.now }
    requires short { length key.now ≤ longest_key }
    requires buffer { longest_name ≤ length buffer.old }
    requires is_open { ForSome (F.told folder.old).files (IsOpen files.now) }

    // Where there is such an object in a state that is kept, and `charge` is the cost of its main item, the state with it doomed is kept in the end, in the
    // same session. The answer has how many parts were removed, and the sum of their costs.
    ensures doomed { OnOk result (ForTold (F.told folder.old) (ForEachInUse key.now node found.now charge) (DoomsWhole (F.told folder.new))) }
    ensures gone { IfOk result (λ gone. ForTold (F.told folder.old) (ForEachInUse key.now node found.now charge) (PartsGone key.now gone)) }
    ensures session { OnOk result (ForTold (F.told folder.old) (ForEachInUse key.now node found.now charge) (SessionStays (F.told folder.new))) }

    // At each word the old durable contents are recovered, or those with the object doomed.
    ensures stops { ForTold (F.told folder.old) (ForEachInUse key.now node found.now charge) (MaybeDoomed (F.told folder.old) (F.told folder.new)) }

    ensures is_open { ForSome (F.told folder.new).files (IsOpen files.now) }

    // Corruption is a check that fails on what is read here; nothing is written after it.
    ensures damaged { IfDamaged result (IsFailedCheck files.now (F.told folder.new)) }

    // An observable folder, with such an object, reports no corruption.
    ensures untold { ForTold (F.told folder.old) (ForEachInUse key.now node found.now charge) (Undamaged result (F.told folder.old)) }

    ensures writes { MayWrite F.told F.faults folder.old folder.new (IfDevice result) }
{
    let indexed = read_index(folder, files, found.entry)?;
    take_main(folder, files, found, node, charge)?;
    let parts = drop_indexed_with(folder, files, key, indexed, buffer, &mut |_| ())?;
    doom_record(folder, files, found.entry)?;
    Ok(parts)
}

/// Reads the generation of the index of a parent, by two folder calls.
///
/// A failed check is one of `read`, or a third stream that begins otherwise than an index.
pub fn read_signature<F: Folder>(
    folder: &mut F,
    files: &BlockFiles,
    entry: Addr,
) -> Result<i64, Fault>
    requires kind { kind_of entry ≡ blocks_256 }
    requires stands { IsTrue (stands_among files.now entry) }

    // This is the generation of the parent that is loaded with this record.
    ensures signature { IfOk result (λ signature. ForSome (F.told folder.old).files (IsGenerationAt entry signature)) }
    ensures small { IfOk result (λ signature. cast_unsigned w64 signature < signatures) }
    ensures reads { ReadsOnly F.told F.faults folder.old folder.new (IfDevice result) }

    // Corruption is a check that fails on what is read here. An observable folder gives none where this is a parent's record.
    ensures damaged { IfDamaged result (IsFailedCheck files.now (F.told folder.new)) }
    ensures untold { ForSome (F.told folder.old).files (Agrees files.now) → UndamagedWhere result (F.told folder.old) (LoadsAsParent entry) }
{
    let indexed = read_index(folder, files, entry)?;
    Ok(indexed.signature)
}

// Reads what the index of a parent says of its parts, by two folder calls.
pub(crate) fn read_index<F: Folder>(
    folder: &mut F,
    files: &BlockFiles,
    entry: Addr,
) -> Result<IndexedParts, Fault>
    requires kind { kind_of entry ≡ blocks_256 }
    requires stands { IsTrue (stands_among files.now entry) }
    ensures signature { IfOk result (λ indexed. ForSome (F.told folder.old).files (IsGenerationAt entry indexed.signature)) }
    ensures small { IfOk result (λ indexed. cast_unsigned w64 indexed.signature < signatures) }
    ensures none { IfOk result (λ indexed. ForSome (F.told folder.old).files (ForParentIndex entry (λ index. indexed.any ≡ false → HasNoBit index))) }
    ensures reads { ReadsOnly F.told F.faults folder.old folder.new (IfDevice result) }
    ensures damaged { IfDamaged result (IsFailedCheck files.now (F.told folder.new)) }
    ensures untold { ForSome (F.told folder.old).files (Agrees files.now) → UndamagedWhere result (F.told folder.old) (LoadsAsParent entry) }
{
    let mut bytes = [0u8; ParentMap::LEN];
    let len = read(folder, files, entry, INDEX, 0, &mut bytes)?;
    match ParentHead::read(&bytes[..len]) {
        Some(head) => Ok(IndexedParts {
            signature: head.signature,
            any: has_bits(&bytes[SparseHead::LEN..]),
        }),
        None => Err(record_damage(entry, EntryView::FLAGS, PARENT)),
    }
}

// Whether a byte of a map isn't 0.
fn has_bits(map: &[u8]) -> bool
    ensures { result ≡ list_any (λ byte. not (byte == 0)) map.now }
{
    map.iter().any(|byte| *byte != 0)
}

// Removes the parts of an object whose main item is out, and then frees the main item's places. How many items were removed, the main one included, and the sum
// of their costs are given.
fn drop_and_free<F: Folder, E: FnMut(u32)>(
    folder: &mut F,
    files: &BlockFiles,
    key: &[u8],
    indexed: IndexedParts,
    owned: &Owned,
    buffer: &mut [u8],
    each: &mut E,
) -> Result<Gone, Fault>
    requires some { 1 ≤ length key.now }
    requires short { length key.now ≤ longest_key }
    requires signature { cast_unsigned w64 indexed.signature < signatures }
    requires places { All (IsPlaceAmong files.now) owned.now.places }
    requires light { owned.now.charge < 2 ^ 34 }
    requires buffer { longest_name ≤ length buffer.old }
    requires callable { E.IsAlwaysCallable each.old }
    requires is_open { ForSome (F.told folder.old).files (IsOpen files.now) }
    ensures out { OnOk result (ForOwner (F.told folder.old) owned.now key.now indexed (AllOut (F.told folder.new) key.now)) }
    ensures gone { IfOk result (λ gone. ForOwner (F.told folder.old) owned.now key.now indexed (LeftGoneBeside key.now owned.now.charge gone)) }
    ensures session { OnOk result (ForOwner (F.told folder.old) owned.now key.now indexed (SessionStaysLeft (F.told folder.new))) }
    ensures each { OnOk result (ForOwner (F.told folder.old) owned.now key.now indexed (CallsLeft (λ p x q. E.step p x tt q) key.now each.old each.new)) }
    ensures front { ForOwner (F.told folder.old) owned.now key.now indexed (BeginsLeft E (λ p x q. E.step p x tt q) key.now each.old each.new) }
    ensures calls { (numbers : List ℕ) × FoldsTo (λ p x q. E.step p x tt q) each.old numbers each.new }
    ensures stops { ForOwner (F.told folder.old) owned.now key.now indexed (DoomedLeft (F.told folder.old) (F.told folder.new)) }
    ensures is_open { ForSome (F.told folder.new).files (IsOpen files.now) }
    ensures damaged { IfDamaged result (IsFailedCheck files.now (F.told folder.new)) }
    ensures untold { ForOwner (F.told folder.old) owned.now key.now indexed (UndamagedLeft result (F.told folder.old)) }
    ensures writes { MayWrite F.told F.faults folder.old folder.new (IfDevice result) }
{
    let parts = drop_indexed_with(folder, files, key, indexed, buffer, each)?;
    free_owned(folder, files, owned)?;
    Ok(Gone {
        items: parts.items + 1,
        bytes: parts.bytes + owned.charge,
    })
}
