// A block file gets more blocks.
ghost use Rattle.std.specs.Prelude.{◌≡◌, ◌+◌, ◌*◌, ◌<◌, ◌≤◌, IsTrue, max, None, OnOk, OnErr};
ghost use Rattle.std.specs.Option.{ForSome};
ghost use Rattle.spec_image.specs.Image.{HasRange, Block as block};
ghost use Rattle.spec_image.specs.Told.{Applies, AppliesPrefix, MakesPartOf, Rises, Stays, StopsFrom, MakesSteps};
ghost use Rattle.spec_format.specs.Address.{header_size};
ghost use Rattle.spec_format.specs.BlockFiles.{is_among, most_blocks, kind_among};
ghost use Rattle.blk_disk.specs.Tables.{Agrees, all_files, blocks_of, files_of};
ghost use Rattle.spec_format.specs.Growth.{StaysWholeOutside};
ghost use Rattle.blk_disk.specs.Growth as growth;
ghost use Rattle.blk_disk.specs.Growth.{grow_steps, growth_of, lengthen_steps, raise_steps, size_as, GrowsFile};

use crate::heads::{GROWTH, block_size};
use crate::tables::BlockFiles;
use blk_addr::GROUP;
use blk_io::{Failed, FileId, Folder, write_words};
use blk_record::BlockHead;

// The place of the counter of empty groups, the last of the four.
const EMPTY_GROUPS: u64 = BlockHead::EMPTY + 12;

impl BlockFiles {
    /// Gives a linked file of fewer than 64896 blocks 1024 more, or 384 for the last time.
    ///
    /// First the file gets as long as they need, where it is shorter. Then the counter of groups that are wholly empty rises by the number of new ones, modulo
    /// 2^32, and at last the number of blocks is written. `Failed` comes only where the folder failed in this call; a prefix of the steps was then made, and
    /// the table is as before.
    pub fn grow<F: Folder>(&mut self, f: &mut F, file: u8) -> Result<(), Failed>
        requires linked { IsTrue (is_among (all_files self.old) file) }
        requires below { blocks_of self.old file < most_blocks }
        requires agrees { ForSome (F.told f.old).files (Agrees self.old) }
        ensures steps { OnOk result (MakesSteps (F.told f.old) (F.told f.new) (λ image. grow_steps self.old file image)) }
        ensures prefix { MakesPartOf (F.told f.old) (F.told f.new) (λ image. grow_steps self.old file image) }
        ensures kept { OnOk result (GrowsFile self.old self.new file) }
        ensures same { OnErr result (self.new ≡ self.old) }
        ensures agrees { OnOk result (ForSome (F.told f.new).files (Agrees self.new)) }

        // At each word nothing else has changed, the files have grown at most, and the
        // headers are kept.
        ensures stops { StopsFrom (F.told f.old) (F.told f.new) (StaysWholeOutside (growth_of file)) }

        ensures later { F.faults f.old ≤ F.faults f.new }
        ensures failed { OnErr result (Rises (F.faults f.old) (F.faults f.new)) }
    {
        let old = self.blocks(file);
        let blocks = (old + GROWTH).min(BlockHead::MOST_BLOCKS);
        let size = self.length_with(file, blocks);
        self.lengthen(f, file, size)?;
        raise(f, file, (blocks - old) / GROUP, blocks)?;
        let size = self.length(file).max(size);
        self.enlarge(file, blocks, size);
        Ok(())
    }

    // The length of a file with so many blocks.
    pub(crate) fn length_with(&self, file: u8, blocks: u32) -> u64
        ensures { result ≡ header_size + blocks * size_as (kind_among (files_of self.now) file) }
    {
        let size = match self.linked_as(file) {
            Some(kind) => block_size(kind),
            None => 0,
        };
        BlockHead::HEADER_LEN + u64::from(blocks) * u64::from(size)
    }

    // Makes a file as long as this, where it is shorter.
    fn lengthen<F: Folder>(&self, folder: &mut F, file: u8, size: u64) -> Result<(), Failed>
        ensures steps { OnOk result (Applies (F.told folder.old) (F.told folder.new) (lengthen_steps self.now file size)) }
        ensures undone { OnErr result (Stays (F.told folder.old) (F.told folder.new)) }
        ensures later { F.faults folder.old ≤ F.faults folder.new }
        ensures failed { OnErr result (Rises (F.faults folder.old) (F.faults folder.new)) }
    {
        if self.length(file) < size {
            folder.set_len(FileId::Block(file), size)?;
        }
        Ok(())
    }
}

// Increases the counter of empty groups of a file, and then writes its number of blocks.
//
// Bytes of the counter that the folder doesn't give count as 0.
fn raise<F: Folder>(folder: &mut F, file: u8, groups: u32, blocks: u32) -> Result<(), Failed>
    requires { ForSome (F.told folder.old).files (λ image. HasRange image (block file) 0 40) }
    ensures steps { OnOk result (MakesSteps (F.told folder.old) (F.told folder.new) (λ image. raise_steps image file groups blocks)) }
    ensures prefix { ForSome (F.told folder.old).files (λ image. AppliesPrefix (F.told folder.old) (F.told folder.new) (raise_steps image file groups blocks)) }
    ensures untold { (F.told folder.old).files ≡ None → (F.told folder.new).files ≡ None }
    ensures later { F.faults folder.old ≤ F.faults folder.new }
    ensures failed { OnErr result (Rises (F.faults folder.old) (F.faults folder.new)) }
{
    let mut empty = [0u8; 4];
    folder.read_at(FileId::Block(file), EMPTY_GROUPS, &mut empty)?;
    let raised = u32::from_le_bytes(empty).wrapping_add(groups);
    let words = [(EMPTY_GROUPS, raised), (BlockHead::MAX_ENTRIES, blocks)];
    write_words(folder, FileId::Block(file), &words)
}
