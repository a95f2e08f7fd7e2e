// The words of a map.
ghost use Rattle.std.specs.Prelude.{◌≡◌, ◌<◌, ◌+◌, ◌*◌, IsTrue, None, IfOk, OnOk, length};
ghost use Rattle.std.specs.Option.{ForSome};
ghost use Rattle.spec_image.specs.Bytes.{range_at, word_bytes};
ghost use Rattle.spec_image.specs.Image.{Block as block, HasRange, byte};
ghost use Rattle.spec_image.specs.Told.{ReadsOnly};
ghost use Rattle.spec_format.specs.BlockFiles.{is_among};
ghost use Rattle.spec_format.specs.Maps.{map_place};
ghost use Rattle.blk_io.specs.Faults.{IfDamaged, IfDevice, IsShort};
ghost use Rattle.blk_disk.specs.Tables.{Agrees, all_files, blocks_of};

use crate::counting::Steps;
use crate::tables::BlockFiles;
use blk_io::{Fault, FileId, Folder, read_exact};
use blk_record::BlockHead;
use std::sync::ledger::Ledger;

impl BlockFiles {
    /// Reads a word of the map of a linked file, which has the marks of 32 blocks, its low byte first, and counts one step.
    ///
    /// Too few bytes are corruption: the error has the place of the word, and, as its word, how many bytes there were. `Device`
    /// comes only where the folder failed in this call.
    pub fn map_word<F: Folder, L: Ledger>(
        &self,
        f: &mut F,
        file: u8,
        number: u32,
        steps: &mut Steps<L>,
    ) -> Result<u32, Fault>
        requires linked { IsTrue (is_among (all_files self.now) file) }
        requires below { 32 * number < blocks_of self.now file }
        ensures word { IfOk result (λ w. ForSome (F.told f.old).files (λ image. word_bytes w ≡ range_at (byte image (block file)) (map_place + 4 * number) 4)) }
        ensures inside { OnOk result (ForSome (F.told f.old).files (λ image. HasRange image (block file) (map_place + 4 * number) 4)) }
        ensures counts { steps.new ≡ steps.old + 1 }
        ensures reads { ReadsOnly F.told F.faults f.old f.new (IfDevice result) }

        // Too few bytes, which an observable folder gives only where the block files don't agree with it.
        ensures short { IfDamaged result (IsShort (F.told f.old) (FileId.Block file) (map_place + 4 * number) 4) }
        ensures untold { ForSome (F.told f.old).files (Agrees self.now) → IfDamaged result (λ _. (F.told f.old).files ≡ None) }
    {
        steps.tick();
        let at = BlockHead::MAP + 4 * u64::from(number);
        let mut word = [0u8; 4];
        read_exact(f, FileId::Block(file), at, &mut word)?;
        Ok(word_of(&word))
    }
}

// The word of four bytes, the low byte first.
fn word_of(bytes: &[u8]) -> u32
    requires { length bytes.now ≡ 4 }
    ensures { word_bytes result ≡ bytes.now }
{
    let mut word = [0u8; 4];
    word.copy_from_slice(bytes);
    u32::from_le_bytes(word)
}
