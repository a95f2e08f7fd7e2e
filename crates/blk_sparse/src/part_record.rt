// The record of a part that doesn't exist yet, with its two streams.
ghost use Rattle.std.specs.Prelude.{◌≡◌, ◌^◌, ◌<◌, IsTrue, None, OnOk, length};
ghost use Rattle.std.specs.Option.{ForSome};
ghost use Rattle.spec_image.specs.Told.{Passes, MayWrite, LeavesFrom};
ghost use Rattle.spec_format.specs.Address.{blocks_256, is_address, kind_of};
ghost use Rattle.spec_format.specs.Sealed.{RecordChecks};
ghost use Rattle.blk_io.specs.Faults.{IfDamaged, IfDevice, UndamagedWhere};
ghost use Rattle.blk_disk.specs.Open.{IsOpen};
ghost use Rattle.blk_disk.specs.Tables.{stands_among};
ghost use Rattle.blk_entry.specs.Writing.{FitsKey, HoldsLongKey, LiesApart};
ghost use Rattle.law_state.specs.Changes.{StillFinds};
ghost use Rattle.blk_object.specs.FailedChecks.{IsFailedCheck};
ghost use Rattle.blk_object.specs.Making.{words_of_places};
ghost use Rattle.blk_sparse.specs.Clauses.{NamesStreams, OnlyRecordPasses, WritesStreams};
ghost use Rattle.blk_sparse.specs.NewParts.{IsChildWritten, child_entry, words_of_part};

use crate::new_part::PartPlaces;
use blk_addr::Addr;
use blk_disk::BlockFiles;
use blk_entry::{NewEntry, write_entry};
use blk_index::bucket;
use blk_io::{Fault, Folder};
use blk_object::Places;
use blk_ranges::PartMap;
use blk_record::{EntryView, IndexHead, super_fast_hash};

// Writes the entry of a new part at its places, in front of the chain of its name, without streams yet.
fn write_child<F: Folder>(
    folder: &mut F,
    files: &BlockFiles,
    places: &Places,
    name: &[u8],
    moment: u64,
) -> Result<(), Fault>
    requires fits { FitsKey files.now (child_entry places.now 0) name.now }
    requires holds { ForSome (F.told folder.old).files (HoldsLongKey places.now.long_key (length name.now)) }
    requires apart { LiesApart places.now.entry places.now.long_key }
    requires is_open { ForSome (F.told folder.old).files (IsOpen files.now) }
    ensures written { OnOk result (LeavesFrom (F.told folder.old) (F.told folder.new) (IsChildWritten places.now name.now moment)) }
    ensures stops { ForSome (F.told folder.old).files (λ from. Passes (F.told folder.old) (F.told folder.new) (StillFinds (words_of_places places.now) from)) }
    ensures checks { OnOk result (ForSome (F.told folder.new).files (RecordChecks places.now.entry)) }
    ensures is_open { ForSome (F.told folder.new).files (IsOpen files.now) }
    ensures damaged { IfDamaged result (IsFailedCheck files.now (F.told folder.new)) }
    ensures untold { IfDamaged result (λ _. (F.told folder.old).files ≡ None) }
    ensures writes { MayWrite F.told F.faults folder.old folder.new (IfDevice result) }
{
    let hash = super_fast_hash(name);
    let next = bucket(folder, (hash % IndexHead::BUCKETS) as u16)?;
    let new = NewEntry {
        entry: places.entry,
        node: places.node,
        long_key: places.long_key,
        child: true,
        dirty: 0,
        next,
    };
    write_entry(folder, files, &new, name, moment)
}

// Gives the record of a new part the sizes and the places of its data and of its index.
fn name_streams<F: Folder>(
    folder: &mut F,
    files: &BlockFiles,
    entry: Addr,
    size: u32,
    stored: Addr,
    index: Addr,
) -> Result<(), Fault>
    requires kind { kind_of entry ≡ blocks_256 }
    requires stands { IsTrue (stands_among files.now entry) }
    requires is_open { ForSome (F.told folder.old).files (IsOpen files.now) }

    // Where the addresses store streams of these lengths, the record has these streams in the end.
    ensures named { OnOk result (LeavesFrom (F.told folder.old) (F.told folder.new) (NamesStreams entry size stored index)) }

    // At each word of the update of a record whose checksum matches or is absent, nothing else has changed.
    ensures stops { ForSome (F.told folder.old).files (OnlyRecordPasses entry (F.told folder.old) (F.told folder.new)) }
    ensures is_open { ForSome (F.told folder.old).files (RecordChecks entry) → ForSome (F.told folder.new).files (IsOpen files.now) }
    ensures damaged { IfDamaged result (IsFailedCheck files.now (F.told folder.new)) }
    ensures untold { UndamagedWhere result (F.told folder.old) (RecordChecks entry) }

    // The addresses are words, whatever the answer.
    ensures words { (stored < 2 ^ 32) × (index < 2 ^ 32) }

    ensures writes { MayWrite F.told F.faults folder.old folder.new (IfDevice result) }
{
    let changes = [
        (EntryView::DATA_SIZE + 4, size),
        (EntryView::DATA_SIZE + 8, PartMap::LEN as u32),
        (EntryView::DATA_ADDR + 4, stored.word()),
        (EntryView::DATA_ADDR + 8, index.word()),
    ];
    files.update_sealed(folder, entry, &changes)
}

// Writes the record of a new part, whose streams are stored, with its two streams.
pub(crate) fn write_part<F: Folder>(
    folder: &mut F,
    files: &BlockFiles,
    places: &PartPlaces,
    name: &[u8],
    size: u32,
    moment: u64,
) -> Result<(), Fault>
    requires fits { FitsKey files.now (child_entry places.now.places 0) name.now }
    requires holds { ForSome (F.told folder.old).files (HoldsLongKey places.now.places.long_key (length name.now)) }
    requires apart { LiesApart places.now.places.entry places.now.places.long_key }
    requires streams { IsTrue (is_address places.now.stored) × IsTrue (is_address places.now.index) }
    requires is_open { ForSome (F.told folder.old).files (IsOpen files.now) }

    // Where the stored streams are those of a part of this name, each state that was kept with the part's words unlinked is kept so, and the part is there.
    ensures written { OnOk result (LeavesFrom (F.told folder.old) (F.told folder.new) (WritesStreams places.now name.now size)) }

    // At each word the old durable contents are recovered.
    ensures stops { ForSome (F.told folder.old).files (λ from. Passes (F.told folder.old) (F.told folder.new) (StillFinds (words_of_part places.now) from)) }
    ensures is_open { ForSome (F.told folder.new).files (IsOpen files.now) }
    ensures damaged { IfDamaged result (IsFailedCheck files.now (F.told folder.new)) }
    ensures untold { IfDamaged result (λ _. (F.told folder.old).files ≡ None) }
    ensures writes { MayWrite F.told F.faults folder.old folder.new (IfDevice result) }
{
    write_child(folder, files, &places.places, name, moment)?;
    name_streams(
        folder,
        files,
        places.places.entry,
        size,
        places.stored,
        places.index,
    )
}
