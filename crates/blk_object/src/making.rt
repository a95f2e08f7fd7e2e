// A new object is made.
ghost use Rattle.std.specs.Prelude.{◌≤◌, IfOk, IsTrue, OnOk, length};
ghost use Rattle.std.specs.Option.{ForSome};
ghost use Rattle.spec_image.specs.Told.{Passes, MayWrite, LeavesWhere, StopsWhere};
ghost use Rattle.blk_model.specs.Sizes.{longest_key};
ghost use Rattle.blk_io.specs.Faults.{IfDamaged, IfDevice, OpaqueIfDamaged, UndamagedWhere};
ghost use Rattle.blk_disk.specs.Open.{IsOpen};
ghost use Rattle.blk_disk.specs.Tables.{is_node_among, is_record_among};
ghost use Rattle.blk_entry.specs.Writing.{FitsKey, HoldsLongKey, LiesApart};
ghost use Rattle.blk_alloc.specs.Extending.{KeepsStanding};
ghost use Rattle.law_state.specs.Changes.{SameCounters, StillFinds};
ghost use Rattle.blk_object.specs.FailedChecks.{IsFailedCheck};
ghost use Rattle.blk_object.specs.Making.{CanBeListed, CreatesCanHaveNew, FindsUntilListed, FindsWhileMade, HasNewObjects, HasRoomForNew, HasTimes, IsEntryOfKept, IsEntryListed, KeepsTimes, new_entry, words_of_places, IsOfSession};

use crate::counters::{count_entry, read_counters};
use crate::making_places::{Places, take_places};
use blk_addr::Addr;
use blk_chain::link_front;
use blk_disk::BlockFiles;
use blk_entry::{NewEntry, write_entry};
use blk_index::bucket;
use blk_io::{Fault, Folder};
use blk_lru::insert_front;
use blk_record::{IndexHead, super_fast_hash};

/// After the evictions of a Create that isn't refused, there is space for the object in the state, if it has fewer items than a cache may have.
pub fn creates_can_have_new()
    ensures { CreatesCanHaveNew }
{}

/// Where a new object lies.
#[derive(Clone, Copy, Debug)]
pub struct Made {
    /// Its record.
    pub entry: Addr,
    /// Its rankings node.
    pub node: Addr,
}

/// Makes a new object without streams, with a key that no other has.
///
/// Its places are allocated first, and its entry is written there, with the number of the session as its dirty flag. Then its
/// node comes in front of the LRU list, its record in front of its chain, and the index counts it. A failed check is
/// one that the calls below find, an index that hasn't its length, or blocks that were given twice. A key that lies in
/// its record takes at most 71 folder calls where no file grows.
pub fn make_entry<F: Folder>(
    folder: &mut F,
    files: &mut BlockFiles,
    key: &[u8],
    mark: u32,
    moment: u64,
) -> Result<Made, Fault>
    requires some { 1 ≤ length key.now }
    requires most { length key.now ≤ longest_key }
    requires is_open { ForSome (F.told folder.old).files (IsOpen files.old) }

    // Each state that was kept, that can have the object, in a session of this number, is kept with it in the end.
    ensures made { IfOk result (λ made. LeavesWhere (F.told folder.old) (F.told folder.new) (IsOfSession mark) (HasNewObjects key.now made)) }

    // The object was made, accessed and changed at the moment.
    ensures times { IfOk result (λ made. ForSome (F.told folder.new).files (HasTimes made.entry made.node moment)) }

    // At each word the old durable contents are recovered: the new object is dirty, and so it isn't durable.
    ensures stops { StopsWhere (F.told folder.old) (F.told folder.new) (HasRoomForNew key.now mark) (FindsWhileMade key.now) }

    // What was valid still is, and so are the record and the node.
    ensures keeps { KeepsStanding files.old files.new }
    ensures stands { IfOk result (λ made. IsTrue (is_record_among files.new made.entry) × IsTrue (is_node_among files.new made.node)) }
    ensures is_open { OnOk result (ForSome (F.told folder.new).files (IsOpen files.new)) }

    // Corruption is a check that fails on what is read here; nothing is written after it.
    ensures damaged { IfDamaged result (IsFailedCheck files.new (F.told folder.new)) }

    // An observable folder that keeps such a state reports no corruption.
    ensures untold { UndamagedWhere result (F.told folder.old) (HasRoomForNew key.now mark) }
    ensures writes { MayWrite F.told F.faults folder.old folder.new (IfDevice result) }
{
    let counters = read_counters(folder)?;
    let places = take_places(folder, files, key.len() as u32)?;
    write_new(folder, files, &places, key, mark, moment)?;
    list_entry(folder, files, places.entry, places.node)?;
    count_entry(folder, files, &counters, key.len() as u64)?;
    Ok(Made {
        entry: places.entry,
        node: places.node,
    })
}

// Writes the entry of a new object at its places, in front of the chain of its key.
fn write_new<F: Folder>(
    folder: &mut F,
    files: &BlockFiles,
    places: &Places,
    key: &[u8],
    mark: u32,
    moment: u64,
) -> Result<(), Fault>
    requires fits { FitsKey files.now (new_entry places.now mark 0) key.now }
    requires holds { ForSome (F.told folder.old).files (HoldsLongKey places.now.long_key (length key.now)) }
    requires apart { LiesApart places.now.entry places.now.long_key }
    requires is_open { ForSome (F.told folder.old).files (IsOpen files.now) }
    ensures written { OnOk result (ForSome (F.told folder.old).files (λ from. ForSome (F.told folder.new).files (IsEntryOfKept places.now mark key.now from))) }
    ensures counters { OnOk result (ForSome (F.told folder.old).files (λ from. ForSome (F.told folder.new).files (SameCounters from))) }
    ensures times { OnOk result (ForSome (F.told folder.new).files (HasTimes places.now.entry places.now.node moment)) }
    ensures stops { ForSome (F.told folder.old).files (λ from. Passes (F.told folder.old) (F.told folder.new) (StillFinds (words_of_places places.now) from)) }
    ensures is_open { ForSome (F.told folder.new).files (IsOpen files.now) }
    ensures damaged { IfDamaged result (IsFailedCheck files.now (F.told folder.new)) }
    ensures untold { OpaqueIfDamaged result (F.told folder.old) }
    ensures writes { MayWrite F.told F.faults folder.old folder.new (IfDevice result) }
{
    let hash = super_fast_hash(key);
    let next = bucket(folder, (hash % IndexHead::BUCKETS) as u16)?;
    let new = NewEntry {
        entry: places.entry,
        node: places.node,
        long_key: places.long_key,
        child: false,
        dirty: mark,
        next,
    };
    write_entry(folder, files, &new, key, moment)
}

// Puts the node of an entry that is written in front of the LRU list, and then its record in front of its chain.
fn list_entry<F: Folder>(
    folder: &mut F,
    files: &BlockFiles,
    entry: Addr,
    node: Addr,
) -> Result<(), Fault>
    requires stands { IsTrue (is_record_among files.now entry) }
    requires node { IsTrue (is_node_among files.now node) }
    requires is_open { ForSome (F.told folder.old).files (IsOpen files.now) }
    ensures listed { OnOk result (ForSome (F.told folder.old).files (λ from. ForSome (F.told folder.new).files (IsEntryListed entry node from))) }
    ensures counters { OnOk result (LeavesWhere (F.told folder.old) (F.told folder.new) (CanBeListed entry node) SameCounters) }
    ensures times { OnOk result (ForSome (F.told folder.old).files (λ from. ForSome (F.told folder.new).files (KeepsTimes entry node from))) }
    ensures stops { StopsWhere (F.told folder.old) (F.told folder.new) (CanBeListed entry node) (FindsUntilListed entry node) }
    ensures is_open { ForSome (F.told folder.new).files (IsOpen files.now) }
    ensures damaged { IfDamaged result (IsFailedCheck files.now (F.told folder.new)) }
    ensures untold { UndamagedWhere result (F.told folder.old) (CanBeListed entry node) }
    ensures writes { MayWrite F.told F.faults folder.old folder.new (IfDevice result) }
{
    insert_front(folder, files, node)?;
    link_front(folder, files, entry)
}
