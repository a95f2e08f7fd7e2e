// The parts of a key are removed.
ghost use Rattle.std.specs.Prelude.{◌≡◌, ◌≤◌, ◌<◌, ◌^◌, ℕ, IfOk, IfSome, IsTrue, List, None, OnOk, Some, length};
ghost use Rattle.std.specs.Int.{cast_unsigned, w64};
ghost use Rattle.std.specs.List.{FoldsTo};
ghost use Rattle.std.specs.Option.{ForSome};
ghost use Rattle.spec_image.specs.Told.{MayWrite, ForTold};
ghost use Rattle.blk_model.specs.Items.{part};
ghost use Rattle.blk_model.specs.Sizes.{longest_key, part_count, signatures};
ghost use Rattle.spec_format.specs.Address.{blocks_256, kind_of};
ghost use Rattle.spec_format.specs.Names.{longest_name};
ghost use Rattle.blk_io.specs.Faults.{IfDamaged, IfDevice};
ghost use Rattle.blk_disk.specs.Open.{IsOpen};
ghost use Rattle.blk_disk.specs.Tables.{is_node_among, stands_among};
ghost use Rattle.blk_object.specs.FailedChecks.{IsFailedCheck};
ghost use Rattle.blk_sparse.specs.Clauses.{AllOut, BeginsLeft, CallsLeft, DoomedLeft, DropsNext, ForEachBehindOf, ForEachPartOf, ForKeyLeft, IsCostOfPart, LeftGone, NamesListed, PartOut, SessionStaysLeft, UndamagedLeft, UnlinkedStay};
ghost use Rattle.blk_sparse.specs.Dropping.{ForEachIndexed};

use blk_addr::Addr;
use blk_chain::find;
use blk_disk::BlockFiles;
use blk_entry::record_damage;
use blk_io::{Fault, Folder};
use blk_lru::{MOST_NODES, before};
use blk_object::{ListedPart, next_part, remove_part};
use blk_ranges::child_name;
use blk_record::EntryView;

/// How many items were removed, and the sum of their costs.
#[derive(Clone, Copy, Debug, PartialEq, Eq)]
pub struct Gone {
    pub items: u64,
    pub bytes: u64,
}

// What the index of an object says of its parts: the generation in their names, and whether any bit is set.
#[derive(Clone, Copy)]
pub(crate) struct IndexedParts {
    pub signature: i64,
    pub any: bool,
}

// A part that was removed: its number, its cost, and the node that was before its own in the list, if there was one.
#[derive(Clone, Copy)]
struct Dropped {
    number: u32,
    charge: u64,
    behind: Option<Addr>,
}

/// Removes the parts of a key after its main item: each is taken out of list and chain, its places are freed, and it is counted no longer; and then `each` is
/// called with its number. That is in the order of the LRU list, in one walk over it.
///
/// The generation is that of the index of the key's main item, and the names of the parts are made in `buffer`. This takes three
/// folder calls for each item of the list, two more for a part of any key, and those of `find` and `remove_part` for each
/// part that is removed. A part that its name doesn't find is corruption, of the hash of its record. No more parts are
/// removed than a list has nodes.
pub fn drop_parts_with<F: Folder, E: FnMut(u32)>(
    folder: &mut F,
    files: &BlockFiles,
    key: &[u8],
    signature: i64,
    buffer: &mut [u8],
    each: &mut E,
) -> Result<Gone, Fault>
    requires some { 1 ≤ length key.now }
    requires short { length key.now ≤ longest_key }
    requires signature { cast_unsigned w64 signature < signatures }
    requires buffer { longest_name ≤ length buffer.old }
    requires callable { E.IsAlwaysCallable each.old }
    requires is_open { ForSome (F.told folder.old).files (IsOpen files.now) }

    // Where the main item of an object is out, and perhaps parts of it, and what is left is counted, all its items are out in the end, in the same session.
    // It answers how many parts were removed, and the sum of their costs.
    ensures out { OnOk result (ForTold (F.told folder.old) (ForKeyLeft key.now signature) (AllOut (F.told folder.new) key.now)) }
    ensures gone { IfOk result (λ gone. ForTold (F.told folder.old) (ForKeyLeft key.now signature) (LeftGone key.now gone)) }
    ensures session { OnOk result (ForTold (F.told folder.old) (ForKeyLeft key.now signature) (SessionStaysLeft (F.told folder.new))) }

    // Places that were unlinked at the start, as those of the main item, keep their bytes.
    ensures keeps { OnOk result (ForTold (F.told folder.old) (ForKeyLeft key.now signature) (UnlinkedStay (F.told folder.new))) }

    // No more parts are removed than a list has nodes, and each costs less than 2^34 bytes.
    ensures few { IfOk result (λ gone. gone.items ≤ 131072) }
    ensures light { IfOk result (λ gone. gone.bytes ≤ 2 ^ 51) }

    // `each` was called with the numbers of the parts that were left, in the order of the list, once each; or with a prefix of
    // them.
    ensures each { OnOk result (ForTold (F.told folder.old) (ForKeyLeft key.now signature) (CallsLeft (λ p x q. E.step p x tt q) key.now each.old each.new)) }
    ensures front { ForTold (F.told folder.old) (ForKeyLeft key.now signature) (BeginsLeft E (λ p x q. E.step p x tt q) key.now each.old each.new) }

    // On every folder it was called with some numbers.
    ensures calls { (numbers : List ℕ) × FoldsTo (λ p x q. E.step p x tt q) each.old numbers each.new }

    // At each word the durable contents with the object doomed are recovered.
    ensures stops { ForTold (F.told folder.old) (ForKeyLeft key.now signature) (DoomedLeft (F.told folder.old) (F.told folder.new)) }

    ensures is_open { ForSome (F.told folder.new).files (IsOpen files.now) }

    // Corruption is a check that fails on what is read here; nothing is written after it.
    ensures damaged { IfDamaged result (IsFailedCheck files.now (F.told folder.new)) }

    // An observable folder, in which parts are left so, reports no corruption.
    ensures untold { ForTold (F.told folder.old) (ForKeyLeft key.now signature) (UndamagedLeft result (F.told folder.old)) }

    ensures writes { MayWrite F.told F.faults folder.old folder.new (IfDevice result) }
{
    let mut gone = Gone { items: 0, bytes: 0 };
    let mut behind = None;
    for _ in 0..MOST_NODES {
        let Some(dropped) = drop_next(folder, files, key, signature, behind, buffer)? else {
            return Ok(gone);
        };
        gone.items += 1;
        gone.bytes += dropped.charge;
        behind = dropped.behind;
        each(dropped.number);
    }
    Ok(gone)
}

// Removes the parts of a key after its main item, as `drop_parts_with` does; where its index says that there are none, no list is walked.
pub(crate) fn drop_indexed_with<F: Folder, E: FnMut(u32)>(
    folder: &mut F,
    files: &BlockFiles,
    key: &[u8],
    indexed: IndexedParts,
    buffer: &mut [u8],
    each: &mut E,
) -> Result<Gone, Fault>
    requires some { 1 ≤ length key.now }
    requires short { length key.now ≤ longest_key }
    requires signature { cast_unsigned w64 indexed.signature < signatures }
    requires buffer { longest_name ≤ length buffer.old }
    requires callable { E.IsAlwaysCallable each.old }
    requires is_open { ForSome (F.told folder.old).files (IsOpen files.now) }
    ensures out { OnOk result (ForTold (F.told folder.old) (ForEachIndexed key.now indexed) (AllOut (F.told folder.new) key.now)) }
    ensures gone { IfOk result (λ gone. ForTold (F.told folder.old) (ForEachIndexed key.now indexed) (LeftGone key.now gone)) }
    ensures session { OnOk result (ForTold (F.told folder.old) (ForEachIndexed key.now indexed) (SessionStaysLeft (F.told folder.new))) }
    ensures keeps { OnOk result (ForTold (F.told folder.old) (ForEachIndexed key.now indexed) (UnlinkedStay (F.told folder.new))) }
    ensures few { IfOk result (λ gone. gone.items ≤ 131072) }
    ensures light { IfOk result (λ gone. gone.bytes ≤ 2 ^ 51) }
    ensures each { OnOk result (ForTold (F.told folder.old) (ForEachIndexed key.now indexed) (CallsLeft (λ p x q. E.step p x tt q) key.now each.old each.new)) }
    ensures front { ForTold (F.told folder.old) (ForEachIndexed key.now indexed) (BeginsLeft E (λ p x q. E.step p x tt q) key.now each.old each.new) }
    ensures calls { (numbers : List ℕ) × FoldsTo (λ p x q. E.step p x tt q) each.old numbers each.new }
    ensures stops { ForTold (F.told folder.old) (ForEachIndexed key.now indexed) (DoomedLeft (F.told folder.old) (F.told folder.new)) }
    ensures is_open { ForSome (F.told folder.new).files (IsOpen files.now) }
    ensures damaged { IfDamaged result (IsFailedCheck files.now (F.told folder.new)) }
    ensures untold { ForTold (F.told folder.old) (ForEachIndexed key.now indexed) (UndamagedLeft result (F.told folder.old)) }
    ensures writes { MayWrite F.told F.faults folder.old folder.new (IfDevice result) }
{
    if !indexed.any {
        return Ok(Gone { items: 0, bytes: 0 });
    }
    drop_parts_with(folder, files, key, indexed.signature, buffer, each)
}

// Removes the first part of a key after a node of the list, or from the front of the list on, if there is one.
fn drop_next<F: Folder>(
    folder: &mut F,
    files: &BlockFiles,
    key: &[u8],
    signature: i64,
    from: Option<Addr>,
    buffer: &mut [u8],
) -> Result<Option<Dropped>, Fault>
    requires some { 1 ≤ length key.now }
    requires short { length key.now ≤ longest_key }
    requires signature { cast_unsigned w64 signature < signatures }
    requires from { IfSome from (λ node. IsTrue (is_node_among files.now node)) }
    requires buffer { longest_name ≤ length buffer.old }
    requires is_open { ForSome (F.told folder.old).files (IsOpen files.now) }
    ensures next { IfOk result (λ next. DropsNext (F.told folder.old) (F.told folder.new) key.now signature from next) }
    ensures small { IfOk result (λ next. IfSome next (λ dropped. dropped.charge < 2 ^ 34)) }
    ensures stands { IfOk result (λ next. IfSome next (λ dropped. IfSome dropped.behind (λ node. IsTrue (is_node_among files.now node)))) }
    ensures session { OnOk result (ForTold (F.told folder.old) (ForEachBehindOf key.now signature from) (SessionStaysLeft (F.told folder.new))) }
    ensures keeps { OnOk result (ForTold (F.told folder.old) (ForEachBehindOf key.now signature from) (UnlinkedStay (F.told folder.new))) }
    ensures stops { ForTold (F.told folder.old) (ForEachBehindOf key.now signature from) (DoomedLeft (F.told folder.old) (F.told folder.new)) }
    ensures is_open { ForSome (F.told folder.new).files (IsOpen files.now) }
    ensures damaged { IfDamaged result (IsFailedCheck files.now (F.told folder.new)) }
    ensures untold { ForTold (F.told folder.old) (ForEachBehindOf key.now signature from) (UndamagedLeft result (F.told folder.old)) }
    ensures writes { MayWrite F.told F.faults folder.old folder.new (IfDevice result) }
{
    let Some(part) = next_part(folder, files, key, from, buffer)? else {
        return Ok(None);
    };
    let behind = before(folder, files, part.node)?;
    let charge = drop_part(folder, files, key, signature, &part, buffer)?;
    Ok(Some(Dropped {
        number: part.number,
        charge,
        behind,
    }))
}

// Removes a part, whose record is found by its name. Its cost is given.
fn drop_part<F: Folder>(
    folder: &mut F,
    files: &BlockFiles,
    key: &[u8],
    signature: i64,
    part: &ListedPart,
    buffer: &mut [u8],
) -> Result<u64, Fault>
    requires some { 1 ≤ length key.now }
    requires short { length key.now ≤ longest_key }
    requires signature { cast_unsigned w64 signature < signatures }
    requires number { part.now.number < part_count }
    requires node { IsTrue (is_node_among files.now part.now.node) }
    requires kind { kind_of part.now.entry ≡ blocks_256 }
    requires stands { IsTrue (stands_among files.now part.now.entry) }
    requires buffer { longest_name ≤ length buffer.old }
    requires is_open { ForSome (F.told folder.old).files (IsOpen files.now) }
    ensures out { OnOk result (ForTold (F.told folder.old) (ForEachPartOf key.now signature part.now) (PartOut (F.told folder.new) key.now part.now.number)) }
    ensures charge { IfOk result (λ charge. IsCostOfPart (F.told folder.old) key.now signature part.now charge) }
    ensures small { IfOk result (λ charge. charge < 2 ^ 34) }
    ensures session { OnOk result (ForTold (F.told folder.old) (ForEachPartOf key.now signature part.now) (SessionStaysLeft (F.told folder.new))) }
    ensures keeps { OnOk result (ForTold (F.told folder.old) (ForEachPartOf key.now signature part.now) (UnlinkedStay (F.told folder.new))) }
    ensures stops { ForTold (F.told folder.old) (ForEachPartOf key.now signature part.now) (DoomedLeft (F.told folder.old) (F.told folder.new)) }
    ensures is_open { ForSome (F.told folder.new).files (IsOpen files.now) }
    ensures damaged { ForSome (F.told folder.old).files (NamesListed key.now part.now) → IfDamaged result (IsFailedCheck files.now (F.told folder.new)) }
    ensures untold { ForTold (F.told folder.old) (ForEachPartOf key.now signature part.now) (UndamagedLeft result (F.told folder.old)) }
    ensures writes { MayWrite F.told F.faults folder.old folder.new (IfDevice result) }
{
    let len = child_name(key, signature, part.number, buffer);
    let Some(found) = find(folder, files, &buffer[..len], true)? else {
        return Err(record_damage(part.entry, EntryView::HASH, 0));
    };
    remove_part(folder, files, &found, part.node)
}
