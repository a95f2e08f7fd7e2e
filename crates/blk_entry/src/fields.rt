// The words of entry records.
ghost use Rattle.std.specs.Prelude.{◌≡◌, ◌+◌, IfOk, IsTrue, None, OnOk};
ghost use Rattle.std.specs.Option.{ForSome};
ghost use Rattle.spec_image.specs.Image.{Block as block, HasRange, word};
ghost use Rattle.spec_image.specs.Told.{ReadsOnly};
ghost use Rattle.spec_format.specs.Address.{blocks_256, file_selector, kind_of, place, rankings};
ghost use Rattle.spec_format.specs.Records.{entry_size};
ghost use Rattle.spec_folder.specs.View.{entry_at};
ghost use Rattle.blk_entry.specs.EntryClauses.{HasNodeThere};
ghost use Rattle.blk_entry.specs.Keys.{node_place};
ghost use Rattle.blk_record.specs.Fields.{IsField};
ghost use Rattle.blk_io.specs.declared.folder.FileId.TheVariants as FileId;
ghost use Rattle.blk_io.specs.Faults.{IfDamaged, IfDevice, IsShort, UndamagedWhereBoth};
ghost use Rattle.blk_disk.specs.Tables.{Agrees, stands_among};
ghost use Rattle.blk_disk.specs.Damages.{IsNodeWordDamage};

use crate::keys::record_damage;
use blk_addr::Addr;
use blk_disk::BlockFiles;
use blk_io::{Fault, Folder};
use blk_record::EntryView;

/// The word of an entry record at an offset in bytes from its start, a multiple of 4 below 96.
///
/// One folder call reads it. Too few bytes are corruption.
pub fn field<F: Folder>(f: &mut F, files: &BlockFiles, entry: Addr, at: u32) -> Result<u32, Fault>
    requires kind { kind_of entry ≡ blocks_256 }
    requires stands { IsTrue (stands_among files.now entry) }
    requires place { IsField entry_size at }
    ensures value { IfOk result (λ v. ForSome (F.told f.old).files (λ image. v ≡ word image (block (file_selector entry)) (place entry + at))) }
    ensures checked { OnOk result (ForSome (F.told f.old).files (λ image. HasRange image (block (file_selector entry)) (place entry + at) 4)) }
    ensures reads { ReadsOnly F.told F.faults f.old f.new (IfDevice result) }

    // Too few bytes, which an observable folder gives only where the block files don't agree with it.
    ensures short { IfDamaged result (IsShort (F.told f.old) (FileId.Block (file_selector entry)) (place entry + at) 4) }
    ensures untold { ForSome (F.told f.old).files (Agrees files.now) → IfDamaged result (λ _. (F.told f.old).files ≡ None) }
{
    let mut word = [0u8; 4];
    files.read_block(f, entry, at, &mut word)?;
    Ok(u32::from_le_bytes(word))
}

/// The rankings node that an entry record names.
///
/// One folder call reads its word. A failed check is a read that gave too few bytes, or a word that is no address of a
/// node which is there.
pub fn node_of<F: Folder>(folder: &mut F, files: &BlockFiles, entry: Addr) -> Result<Addr, Fault>
    requires kind { kind_of entry ≡ blocks_256 }
    requires stands { IsTrue (stands_among files.now entry) }
    ensures node { IfOk result (λ node. ForSome (F.told folder.old).files (λ image. node ≡ (entry_at image entry).rankings_node)) }
    ensures kind { IfOk result (λ node. kind_of node ≡ rankings) }
    ensures stands { IfOk result (λ node. IsTrue (stands_among files.now node)) }
    ensures checked { OnOk result (ForSome (F.told folder.old).files (λ image. HasRange image (block (file_selector entry)) (place entry + node_place) 4)) }
    ensures reads { ReadsOnly F.told F.faults folder.old folder.new (IfDevice result) }

    // An observable folder reports corruption only where the word is of no node that is there.
    ensures damaged { IfDamaged result (IsNodeWordDamage files.now (F.told folder.old) (FileId.Block (file_selector entry)) (place entry + node_place)) }
    ensures untold { UndamagedWhereBoth result (F.told folder.old) (Agrees files.now) (HasNodeThere files.now entry) }
{
    let word = field(folder, files, entry, EntryView::NODE)?;
    match files.node(word) {
        Some(node) => Ok(node),
        None => Err(record_damage(entry, EntryView::NODE, word)),
    }
}
