// The live object of a key, as it is found in the folder.
ghost use Rattle.std.specs.Prelude.{◌≡◌, IfOk, IfSome, IsTrue};
ghost use Rattle.std.specs.Option.{ForSome};
ghost use Rattle.spec_image.specs.Told.{ReadsOnly};
ghost use Rattle.spec_format.specs.Address.{blocks_256, kind_of};
ghost use Rattle.blk_io.specs.Faults.{IfDamaged, IfDevice, OpaqueIfDamaged, UndamagedWhere};
ghost use Rattle.spec_folder.specs.View.{entry_at};
ghost use Rattle.blk_disk.specs.Open.{IsOpen};
ghost use Rattle.blk_disk.specs.Tables.{is_node_among, is_record_among, stands_among};
ghost use Rattle.blk_entry.specs.Keys.{IsHeadDamage};
ghost use Rattle.blk_evict.specs.EvictingGroups.{kind_said};
ghost use Rattle.blk_evict.specs.Looking.{IsEntryDamage, IsLookUpDamage, KeepsSomeState, charge_at, IsLiveOfKept, WhereLoads, NamesNode};

use crate::item_names::{EntryKind, kind_said};
use blk_addr::Addr;
use blk_chain::find;
use blk_disk::BlockFiles;
use blk_entry::{read_head, record_damage};
use blk_io::{Fault, Folder};
use blk_object::charge_of_head;
use blk_record::EntryView;

/// A live object by its record and its node, and the cost of its main item.
#[derive(Clone, Copy, Debug)]
pub struct Live {
    pub entry: Addr,
    pub node: Addr,
    pub charge: u64,
}

/// What the record of an object says: its node, the kind of its entry, and the cost of its main item.
#[derive(Clone, Copy)]
pub struct Said {
    pub node: Addr,
    pub kind: EntryKind,
    pub charge: u64,
}

/// Finds the live object with a key, by one folder call more than `find`. Nothing is written.
///
/// A failed check is one of `find`, or of the record that is found.
pub fn find_live<F: Folder>(
    folder: &mut F,
    files: &BlockFiles,
    key: &[u8],
) -> Result<Option<Live>, Fault>
    ensures live { IfOk result (λ answer. ForSome (F.told folder.old).files (IsLiveOfKept key.now answer)) }
    ensures names { IfOk result (λ answer. IfSome answer (λ live. IsTrue (is_record_among files.now live.entry))) }
    ensures stands { IfOk result (λ answer. IfSome answer (λ live. IsTrue (is_node_among files.now live.node))) }
    ensures reads { ReadsOnly F.told F.faults folder.old folder.new (IfDevice result) }
    ensures damaged { IfDamaged result (IsLookUpDamage files.now (F.told folder.old) key.now) }
    ensures untold { ForSome (F.told folder.old).files (IsOpen files.now) → UndamagedWhere result (F.told folder.old) KeepsSomeState }
{
    let Some(found) = find(folder, files, key, false)? else {
        return Ok(None);
    };
    let said = read_said(folder, files, found.entry)?;
    Ok(Some(Live {
        entry: found.entry,
        node: said.node,
        charge: said.charge,
    }))
}

/// Reads what the record of an object says, by one folder call.
pub fn read_said<F: Folder>(folder: &mut F, files: &BlockFiles, entry: Addr) -> Result<Said, Fault>
    requires kind { kind_of entry ≡ blocks_256 }
    requires stands { IsTrue (stands_among files.now entry) }
    ensures node { IfOk result (λ said. ForSome (F.told folder.old).files (λ image. said.node ≡ (entry_at image entry).rankings_node)) }
    ensures kind { IfOk result (λ said. ForSome (F.told folder.old).files (λ image. said.kind ≡ kind_said (entry_at image entry).flags)) }
    ensures charge { IfOk result (λ said. ForSome (F.told folder.old).files (λ image. said.charge ≡ charge_at image entry)) }
    ensures stands { IfOk result (λ said. IsTrue (is_node_among files.now said.node)) }
    ensures reads { ReadsOnly F.told F.faults folder.old folder.new (IfDevice result) }
    ensures damaged { IfDamaged result (IsEntryDamage files.now (F.told folder.old) entry) }
    ensures untold { WhereLoads (F.told folder.old) files.now entry (UndamagedWhere result (F.told folder.old) (NamesNode files.now entry)) }
{
    let head = read_head(folder, files, entry)?;
    let Some(node) = files.node(head.node) else {
        return Err(record_damage(entry, EntryView::NODE, head.node));
    };
    Ok(Said {
        node,
        kind: kind_said(head.flags),
        charge: charge_of_head(&head),
    })
}

/// Reads the record of an object for the cost of its main item, by one folder call.
///
/// A failed check is one of `read_head`.
pub fn read_charge<F: Folder>(folder: &mut F, files: &BlockFiles, entry: Addr) -> Result<u64, Fault>
    requires names { IsTrue (is_record_among files.now entry) }
    ensures charge { IfOk result (λ charge. ForSome (F.told folder.old).files (λ image. charge ≡ charge_at image entry)) }
    ensures reads { ReadsOnly F.told F.faults folder.old folder.new (IfDevice result) }
    ensures damaged { IfDamaged result (IsHeadDamage (F.told folder.old) entry) }
    ensures untold { WhereLoads (F.told folder.old) files.now entry (OpaqueIfDamaged result (F.told folder.old)) }
{
    let head = read_head(folder, files, entry)?;
    Ok(charge_of_head(&head))
}
