// What an item is, by its record: its kind, and its key or name.
ghost use Rattle.std.specs.Prelude.{◌≡◌, ◌≤◌, ◌<◌, ◌^◌, All, IfOk, IsTrue, length, take};
ghost use Rattle.std.specs.Option.{ForSome};
ghost use Rattle.spec_image.specs.Told.{ReadsOnly};
ghost use Rattle.blk_io.specs.Faults.{IfDamaged, IfDevice, OpaqueIfDamaged};
ghost use Rattle.blk_disk.specs.Tables.{is_record_among};
ghost use Rattle.blk_entry.specs.Keys.{most_key};
ghost use Rattle.blk_object.specs.FailedChecks.{IsFailedCheck};
ghost use Rattle.blk_object.specs.Freeing.{IsPlaceAmong};
ghost use Rattle.blk_object.specs.Owning.{ForLoaded};
ghost use Rattle.blk_object.specs.RemovingObjects.{IsOwnedBy};
ghost use Rattle.blk_evict.specs.EvictingGroups.{IsItemName, IsNamedAs, kind_said};
ghost use Rattle.blk_evict.specs.Looking.{WhereLoads};

use blk_addr::Addr;
use blk_disk::BlockFiles;
use blk_entry::key_piece;
use blk_io::{Fault, Folder};
use blk_object::{Owned, read_owned};
use blk_record::{CHILD, PARENT};

/// What kind of entry an item is.
#[derive(Clone, Copy, Debug, PartialEq, Eq)]
pub enum EntryKind {
    /// An entry without an index.
    Plain,
    /// An entry with an index of parts.
    Parent,
    /// A part.
    Part,
}

/// What the record of an item says: the kind of its entry, the length of its key or name, and its addresses with its cost.
#[derive(Clone, Copy)]
pub struct Named {
    pub kind: EntryKind,
    pub len: usize,
    pub owned: Owned,
}

/// Reads what the record of an item says, and its key or name into the front of `buffer`: three folder calls.
///
/// A failed check is one of `read_owned` or `key_piece`.
pub fn read_name<F: Folder>(
    folder: &mut F,
    files: &BlockFiles,
    entry: Addr,
    buffer: &mut [u8],
) -> Result<Named, Fault>
    requires stands { IsTrue (is_record_among files.now entry) }
    requires buffer { most_key ≤ length buffer.old }
    ensures named { IfOk result (λ named. ForLoaded (F.told folder.old) entry (λ loaded. IsNamedAs loaded named buffer.new)) }
    ensures read { IfOk result (λ named. ForSome (F.told folder.old).files (IsItemName entry (take named.len buffer.new))) }
    ensures owned { IfOk result (λ named. ForSome (F.told folder.old).files (IsOwnedBy entry named.owned)) }
    ensures places { IfOk result (λ named. All (IsPlaceAmong files.now) named.owned.places) }
    ensures light { IfOk result (λ named. named.owned.charge < 2 ^ 34) }
    ensures within { IfOk result (λ named. named.len ≤ length buffer.old) }
    ensures reads { ReadsOnly F.told F.faults folder.old folder.new (IfDevice result) }
    ensures damaged { IfDamaged result (IsFailedCheck files.now (F.told folder.new)) }
    ensures untold { WhereLoads (F.told folder.old) files.now entry (OpaqueIfDamaged result (F.told folder.old)) }
{
    let owned = read_owned(folder, files, entry)?;
    let len = key_piece(folder, files, entry, 0, buffer)?;
    Ok(Named {
        kind: kind_said(owned.flags),
        len,
        owned,
    })
}

/// What kind of entry the flags of a record say.
pub fn kind_said(flags: u32) -> EntryKind
    ensures { result ≡ kind_said flags }
{
    if flags == PARENT {
        EntryKind::Parent
    } else if flags == CHILD {
        EntryKind::Part
    } else {
        EntryKind::Plain
    }
}
