// The bits of a parent's index.
ghost use Rattle.std.specs.Prelude.{◌≡◌, ◌<◌, IfOk, None, true};
ghost use Rattle.std.specs.Option.{ForSome};
ghost use Rattle.spec_image.specs.Told.{ReadsOnly};
ghost use Rattle.blk_model.specs.Sizes.{part_count};
ghost use Rattle.spec_format.specs.SparseIndex.{parent_index_length};
ghost use Rattle.blk_io.specs.Faults.{IfDamaged, IfDevice};
ghost use Rattle.blk_disk.specs.Tables.{Agrees};
ghost use Rattle.blk_entry.specs.Keys.{stores};
ghost use Rattle.blk_verdict.specs.Reads.{IsCutRead};
ghost use Rattle.blk_verdict.specs.VerdictClauses.{HasPartBit};

use blk_addr::Addr;
use blk_disk::BlockFiles;
use blk_entry::read_data;
use blk_io::{Fault, Folder};
use blk_ranges::{has_part_bit, place_of_part};

/// Whether the index of a parent has a part, where `word` is the word of the storage of the index.
///
/// One folder call reads the byte with the bit. A failed check is a read that gave too few bytes; a folder whose files
/// are those of `files` gives none.
pub fn has_part<F: Folder>(
    folder: &mut F,
    files: &BlockFiles,
    word: u32,
    part: u32,
) -> Result<bool, Fault>
    requires stored { stores files.now parent_index_length word ≡ true }
    requires part { part < part_count }
    ensures bit { IfOk result (λ has. ForSome (F.told folder.old).files (HasPartBit word part has)) }
    ensures reads { ReadsOnly F.told F.faults folder.old folder.new (IfDevice result) }
    ensures short { IfDamaged result (IsCutRead files.now (F.told folder.old)) }
    ensures untold { ForSome (F.told folder.old).files (Agrees files.now) → IfDamaged result (λ _. (F.told folder.old).files ≡ None) }
{
    let Some(addr) = Addr::from_word(word) else {
        unreachable!();
    };
    let mut byte = [0u8; 1];
    read_data(folder, files, addr, place_of_part(part), &mut byte)?;
    Ok(has_part_bit(byte[0], part))
}
