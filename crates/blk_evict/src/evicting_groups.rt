// An eviction unit is removed from a folder, and printed.
ghost use Rattle.std.specs.Prelude.{◌≡◌, ◌≤◌, ◌<◌, ◌^◌, ◌+◌, All, IfOk, IfSome, IsTrue, OnOk, length, true};
ghost use Rattle.std.specs.Option.{ForSome};
ghost use Rattle.spec_image.specs.Told.{MayWrite, ReadsOnly, EndsIn};
ghost use Rattle.blk_io.specs.Faults.{IfDamaged, IfDevice, OpaqueIfDamaged};
ghost use Rattle.blk_io.specs.Streams.{Appends, GoesOn};
ghost use Rattle.blk_model.specs.Refusals.{no_key};
ghost use Rattle.blk_model.specs.Sizes.{longest_key};
ghost use Rattle.spec_format.specs.Address.{blocks_256, kind_of};
ghost use Rattle.spec_format.specs.Names.{IsName, longest_name};
ghost use Rattle.blk_ranges.specs.ChildNames.{name_within};
ghost use Rattle.blk_disk.specs.Open.{IsOpen};
ghost use Rattle.blk_disk.specs.Tables.{is_node_among, is_record_among, stands_among};
ghost use Rattle.law_state.specs.Changes.{SameSession};
ghost use Rattle.blk_object.specs.FailedChecks.{IsFailedCheck};
ghost use Rattle.blk_object.specs.Freeing.{IsPlaceAmong};
ghost use Rattle.blk_object.specs.Removing.{LiesBehind};
ghost use Rattle.blk_evict.specs.EvictingGroups.{IsItemName, alone_kind};
ghost use Rattle.blk_evict.specs.NameBuffer.{name_buffer_len};
ghost use Rattle.blk_evict.specs.RoomPrinting.{FailsWhereItRose};
ghost use Rattle.blk_evict.specs.EvictionCalls.{ForGoing, ForGoingLines, ForLines, ForParentLines, ForPartLines, ForOwned, HasReadKey, WhereOwned, ForOwnedParent, TakesGroup, SaysLines, StopsGroup, ForParentAt, WhereParentAt, TakesParent, CountsParent, StopsParent, ForListed, WhereListed};

use crate::item_names::{EntryKind, read_name};
use crate::list_places::Unpinned;
use crate::read_parent::ReadParent;
use crate::room_printing::{say_evicted, say_evicted_part};
use blk_addr::Addr;
use blk_chain::{Found, find};
use blk_disk::BlockFiles;
use blk_entry::record_damage;
use blk_io::{Fault, Folder, Sink};
use blk_object::{Owned, remove_read};
use blk_ranges::{ChildName, KEY_OF_NAME, LONGEST_KEY, read_child_name};
use blk_record::{CHILD, EntryView};
use blk_sparse::{Gone, remove_parent_with};

/// Removes the eviction unit of an item that isn't pinned, and prints its items: a main item with its parts, or a part alone. How
/// many items were evicted is given, and the sum of their costs.
///
/// Its key or name is read into `name`. A failed check is one of the reading, a key that is none, or one of the
/// removal.
pub fn evict_group<F: Folder, K: Sink>(
    folder: &mut F,
    files: &BlockFiles,
    name: &mut [u8],
    out: &mut K,
    failed: &mut bool,
    found: &Unpinned,
) -> Result<Gone, Fault>
    requires buffer { length name.old ≡ name_buffer_len }
    requires node { IsTrue (is_node_among files.now found.now.node) }
    requires record_stands { IsTrue (is_record_among files.now found.now.entry) }
    requires is_open { ForSome (F.told folder.old).files (IsOpen files.now) }
    ensures out { IfOk result (λ gone. ForGoing (F.told folder.old) found.now (TakesGroup (F.told folder.new) gone)) }
    ensures prints { OnOk result (ForGoingLines (F.told folder.old) found.now (SaysLines failed.old failed.new K.written out.old out.new)) }
    ensures stops { ForGoing (F.told folder.old) found.now (StopsGroup (F.told folder.old) (F.told folder.new)) }
    ensures front { ForGoingLines (F.told folder.old) found.now (Appends (K.written out.old) (K.written out.new)) }
    ensures quiet { failed.old ≡ true → (failed.new ≡ true) × (K.written out.new ≡ K.written out.old) }
    ensures fails { FailsWhereItRose failed.old failed.new (K.faults out.old) (K.faults out.new) }
    ensures is_open { ForSome (F.told folder.new).files (IsOpen files.now) }
    ensures damaged { IfDamaged result (IsFailedCheck files.now (F.told folder.new)) }
    ensures untold { ForGoing (F.told folder.old) found.now (λ from state layout group. OpaqueIfDamaged result (F.told folder.old)) }
    ensures writes { MayWrite F.told F.faults folder.old folder.new (IfDevice result) }
    ensures sink_later { GoesOn K.is K.faults out.old out.new }
{
    let named = read_name(folder, files, found.entry, name)?;
    match named.kind {
        EntryKind::Plain => {
            let key = &name[..named.len];
            evict_plain(folder, files, key, &named.owned, out, failed, found)
        }
        EntryKind::Part => {
            let name = &name[..named.len];
            evict_part(folder, files, name, &named.owned, out, failed, found)
        }
        EntryKind::Parent => {
            let (key, buffer) = name.split_at_mut(named.len);
            let read = ReadParent {
                found,
                key,
                owned: &named.owned,
            };
            evict_parent(folder, files, read, buffer, out, failed)
        }
    }
}

// Evicts an object without an index, which has no parts.
fn evict_plain<F: Folder, K: Sink>(
    folder: &mut F,
    files: &BlockFiles,
    key: &[u8],
    owned: &Owned,
    out: &mut K,
    failed: &mut bool,
    found: &Unpinned,
) -> Result<Gone, Fault>
    requires node { IsTrue (is_node_among files.now found.now.node) }
    requires record_stands { IsTrue (is_record_among files.now found.now.entry) }
    requires places { All (IsPlaceAmong files.now) owned.now.places }
    requires is_open { ForSome (F.told folder.old).files (IsOpen files.now) }
    ensures out { IfOk result (λ gone. ForOwned (F.told folder.old) found.now owned.now EntryKind.Plain key.now (TakesGroup (F.told folder.new) gone)) }
    ensures prints { OnOk result (ForLines (F.told folder.old) found.now EntryKind.Plain key.now (SaysLines failed.old failed.new K.written out.old out.new)) }
    ensures stops { ForOwned (F.told folder.old) found.now owned.now EntryKind.Plain key.now (StopsGroup (F.told folder.old) (F.told folder.new)) }
    ensures front { ForLines (F.told folder.old) found.now EntryKind.Plain key.now (Appends (K.written out.old) (K.written out.new)) }
    ensures quiet { failed.old ≡ true → (failed.new ≡ true) × (K.written out.new ≡ K.written out.old) }
    ensures fails { FailsWhereItRose failed.old failed.new (K.faults out.old) (K.faults out.new) }
    ensures is_open { ForSome (F.told folder.new).files (IsOpen files.now) }
    ensures damaged { ForSome (F.told folder.old).files (IsItemName found.now.entry key.now) → IfDamaged result (IsFailedCheck files.now (F.told folder.new)) }
    ensures untold { WhereOwned (F.told folder.old) found.now owned.now EntryKind.Plain key.now (λ from. OpaqueIfDamaged result (F.told folder.old)) }
    ensures writes { MayWrite F.told F.faults folder.old folder.new (IfDevice result) }
    ensures sink_later { GoesOn K.is K.faults out.old out.new }
{
    say_evicted(out, failed, key);
    remove_alone(folder, files, key, false, owned, found)
}

// Evicts a part, without its main item.
fn evict_part<F: Folder, K: Sink>(
    folder: &mut F,
    files: &BlockFiles,
    name: &[u8],
    owned: &Owned,
    out: &mut K,
    failed: &mut bool,
    found: &Unpinned,
) -> Result<Gone, Fault>
    requires node { IsTrue (is_node_among files.now found.now.node) }
    requires record_stands { IsTrue (is_record_among files.now found.now.entry) }
    requires places { All (IsPlaceAmong files.now) owned.now.places }
    requires is_open { ForSome (F.told folder.old).files (IsOpen files.now) }
    ensures out { IfOk result (λ gone. ForOwned (F.told folder.old) found.now owned.now EntryKind.Part name.now (TakesGroup (F.told folder.new) gone)) }
    ensures prints { OnOk result (ForLines (F.told folder.old) found.now EntryKind.Part name.now (SaysLines failed.old failed.new K.written out.old out.new)) }
    ensures stops { ForOwned (F.told folder.old) found.now owned.now EntryKind.Part name.now (StopsGroup (F.told folder.old) (F.told folder.new)) }
    ensures front { ForLines (F.told folder.old) found.now EntryKind.Part name.now (Appends (K.written out.old) (K.written out.new)) }
    ensures quiet { failed.old ≡ true → (failed.new ≡ true) × (K.written out.new ≡ K.written out.old) }
    ensures fails { FailsWhereItRose failed.old failed.new (K.faults out.old) (K.faults out.new) }
    ensures is_open { ForSome (F.told folder.new).files (IsOpen files.now) }
    ensures damaged { ForSome (F.told folder.old).files (IsItemName found.now.entry name.now) → IfDamaged result (IsFailedCheck files.now (F.told folder.new)) }
    ensures untold { WhereOwned (F.told folder.old) found.now owned.now EntryKind.Part name.now (λ from. OpaqueIfDamaged result (F.told folder.old)) }
    ensures writes { MayWrite F.told F.faults folder.old folder.new (IfDevice result) }
    ensures sink_later { GoesOn K.is K.faults out.old out.new }
{
    let Some(child) = read_child_name(name) else {
        return Err(record_damage(found.entry, EntryView::FLAGS, CHILD));
    };
    say_evicted_part(out, failed, parent_key(name, &child), u64::from(child.part));
    remove_alone(folder, files, name, true, owned, found)
}

// Evicts an object with an index, by what was read of its record, and then its parts, whose names are made in `buffer`.
fn evict_parent<F: Folder, K: Sink>(
    folder: &mut F,
    files: &BlockFiles,
    read: ReadParent,
    buffer: &mut [u8],
    out: &mut K,
    failed: &mut bool,
) -> Result<Gone, Fault>
    requires buffer { name_buffer_len ≤ length read.key.now + length buffer.old }
    requires few { length read.key.now ≤ name_buffer_len }
    requires node { IsTrue (is_node_among files.now read.found.now.node) }
    requires record_stands { IsTrue (is_record_among files.now read.found.now.entry) }
    requires places { All (IsPlaceAmong files.now) read.owned.now.places }
    requires light { read.owned.now.charge < 2 ^ 34 }
    requires is_open { ForSome (F.told folder.old).files (IsOpen files.now) }
    ensures out { IfOk result (λ gone. ForOwnedParent (F.told folder.old) read.entry (TakesGroup (F.told folder.new) gone)) }
    ensures prints { OnOk result (ForParentLines (F.told folder.old) read.entry (SaysLines failed.old failed.new K.written out.old out.new)) }
    ensures stops { ForOwnedParent (F.told folder.old) read.entry (StopsGroup (F.told folder.old) (F.told folder.new)) }
    ensures front { ForParentLines (F.told folder.old) read.entry (Appends (K.written out.old) (K.written out.new)) }
    ensures quiet { failed.old ≡ true → (failed.new ≡ true) × (K.written out.new ≡ K.written out.old) }
    ensures fails { FailsWhereItRose failed.old failed.new (K.faults out.old) (K.faults out.new) }
    ensures is_open { ForSome (F.told folder.new).files (IsOpen files.now) }
    ensures damaged { ForSome (F.told folder.old).files (HasReadKey read.entry) → IfDamaged result (IsFailedCheck files.now (F.told folder.new)) }
    ensures untold { ForOwnedParent (F.told folder.old) read.entry (λ from state layout group. OpaqueIfDamaged result (F.told folder.old)) }
    ensures writes { MayWrite F.told F.faults folder.old folder.new (IfDevice result) }
    ensures sink_later { GoesOn K.is K.faults out.old out.new }
{
    if is_no_key(read.key) {
        let len = read.key.len() as u32;
        return Err(record_damage(read.found.entry, EntryView::KEY_LEN, len));
    }
    say_evicted(out, failed, read.key);
    let at = find_listed(folder, files, read.key, false, read.found.entry)?;
    remove_parent(folder, files, &at, read, buffer, out, failed)
}

/// Whether bytes are no key: none, or too many.
pub fn is_no_key(key: &[u8]) -> bool
    ensures { result ≡ no_key key.now }
{
    key.is_empty() || key.len() > LONGEST_KEY as usize
}

// Removes an object with an index, by what was read of its record, and then its parts, and prints each of these.
fn remove_parent<F: Folder, K: Sink>(
    folder: &mut F,
    files: &BlockFiles,
    at: &Found,
    read: ReadParent,
    buffer: &mut [u8],
    out: &mut K,
    failed: &mut bool,
) -> Result<Gone, Fault>
    requires node { IsTrue (is_node_among files.now read.found.now.node) }
    requires kind { kind_of at.now.entry ≡ blocks_256 }
    requires stands { IsTrue (stands_among files.now at.now.entry) }
    requires kind_before { IfSome at.now.before (λ before. kind_of before ≡ blocks_256) }
    requires stands_before { IfSome at.now.before (λ before. IsTrue (stands_among files.now before)) }
    requires some { 1 ≤ length read.key.now }
    requires short { length read.key.now ≤ longest_key }
    requires buffer { longest_name ≤ length buffer.old }
    requires places { All (IsPlaceAmong files.now) read.owned.now.places }
    requires light { read.owned.now.charge < 2 ^ 34 }
    requires is_open { ForSome (F.told folder.old).files (IsOpen files.now) }
    ensures removed { OnOk result (ForParentAt (F.told folder.old) at.now read.entry (TakesParent (F.told folder.new))) }
    ensures gone { IfOk result (λ gone. ForParentAt (F.told folder.old) at.now read.entry (CountsParent gone)) }
    ensures session { OnOk result (WhereParentAt (F.told folder.old) at.now read.entry (EndsIn (F.told folder.new) SameSession)) }
    ensures prints { OnOk result (ForPartLines (F.told folder.old) at.now read.entry (SaysLines failed.old failed.new K.written out.old out.new)) }
    ensures front { ForPartLines (F.told folder.old) at.now read.entry (Appends (K.written out.old) (K.written out.new)) }
    ensures quiet { failed.old ≡ true → (failed.new ≡ true) × (K.written out.new ≡ K.written out.old) }
    ensures fails { FailsWhereItRose failed.old failed.new (K.faults out.old) (K.faults out.new) }
    ensures stops { ForParentAt (F.told folder.old) at.now read.entry (StopsParent (F.told folder.old) (F.told folder.new)) }
    ensures is_open { ForSome (F.told folder.new).files (IsOpen files.now) }
    ensures damaged { IfDamaged result (IsFailedCheck files.now (F.told folder.new)) }
    ensures untold { WhereParentAt (F.told folder.old) at.now read.entry (λ from. OpaqueIfDamaged result (F.told folder.old)) }
    ensures writes { MayWrite F.told F.faults folder.old folder.new (IfDevice result) }
    ensures sink_later { GoesOn K.is K.faults out.old out.new }
{
    let key = read.key;
    let mut say = |number: u32| say_evicted_part(out, failed, key, u64::from(number));
    let node = read.found.node;
    remove_parent_with(folder, files, at, node, key, read.owned, buffer, &mut say)
}

/// The key of the parent in the name of a part.
pub fn parent_key<'a>(name: &'a [u8], child: &ChildName) -> &'a [u8]
    requires named { IsName name.now (name_within name.now child.now) }
    ensures { result.now ≡ (name_within name.now child.now).key }
{
    let behind = &name[KEY_OF_NAME..];
    &behind[..child.key_len]
}

// Removes a single item, of an object without an index or a part, by its key or name, and by what was read of its record.
fn remove_alone<F: Folder>(
    folder: &mut F,
    files: &BlockFiles,
    name: &[u8],
    is_child: bool,
    owned: &Owned,
    found: &Unpinned,
) -> Result<Gone, Fault>
    requires node { IsTrue (is_node_among files.now found.now.node) }
    requires record_stands { IsTrue (is_record_among files.now found.now.entry) }
    requires places { All (IsPlaceAmong files.now) owned.now.places }
    requires is_open { ForSome (F.told folder.old).files (IsOpen files.now) }
    ensures out { IfOk result (λ gone. ForOwned (F.told folder.old) found.now owned.now (alone_kind is_child) name.now (TakesGroup (F.told folder.new) gone)) }
    ensures stops { ForOwned (F.told folder.old) found.now owned.now (alone_kind is_child) name.now (StopsGroup (F.told folder.old) (F.told folder.new)) }
    ensures is_open { ForSome (F.told folder.new).files (IsOpen files.now) }
    ensures damaged { ForSome (F.told folder.old).files (IsItemName found.now.entry name.now) → IfDamaged result (IsFailedCheck files.now (F.told folder.new)) }
    ensures untold { WhereOwned (F.told folder.old) found.now owned.now (alone_kind is_child) name.now (λ from. OpaqueIfDamaged result (F.told folder.old)) }
    ensures writes { MayWrite F.told F.faults folder.old folder.new (IfDevice result) }
{
    let at = find_listed(folder, files, name, is_child, found.entry)?;
    remove_read(folder, files, &at, found.node, owned)?;
    Ok(Gone {
        items: 1,
        bytes: owned.charge,
    })
}

/// Finds the record of a listed item by its key or its name, and the record before it in its chain. If it isn't found, that is a failed check of the hash in
/// its record.
pub fn find_listed<F: Folder>(
    folder: &mut F,
    files: &BlockFiles,
    name: &[u8],
    is_child: bool,
    entry: Addr,
) -> Result<Found, Fault>
    requires record_stands { IsTrue (is_record_among files.now entry) }
    ensures lies { IfOk result (λ at. ForListed (F.told folder.old) name.now is_child (λ state layout item was. was.contents ≡ at.entry)) }
    ensures behind { IfOk result (λ at. ForListed (F.told folder.old) name.now is_child (λ state layout item was. LiesBehind state layout item was at.before)) }
    ensures kind { IfOk result (λ at. kind_of at.entry ≡ blocks_256) }
    ensures stands { IfOk result (λ at. IsTrue (stands_among files.now at.entry)) }
    ensures kind_before { IfOk result (λ at. IfSome at.before (λ before. kind_of before ≡ blocks_256)) }
    ensures stands_before { IfOk result (λ at. IfSome at.before (λ before. IsTrue (stands_among files.now before))) }
    ensures reads { ReadsOnly F.told F.faults folder.old folder.new (IfDevice result) }
    ensures damaged { ForSome (F.told folder.old).files (IsItemName entry name.now) → IfDamaged result (IsFailedCheck files.now (F.told folder.new)) }
    ensures untold { WhereListed (F.told folder.old) files.now name.now is_child (OpaqueIfDamaged result (F.told folder.old)) }
{
    match find(folder, files, name, is_child)? {
        Some(at) => Ok(at),
        None => Err(record_damage(entry, EntryView::HASH, 0)),
    }
}
