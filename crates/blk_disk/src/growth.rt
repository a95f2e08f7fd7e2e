// Block files get longer.
ghost use Rattle.std.specs.Prelude.{◌≡◌, ◌≤◌, IsTrue, max, OnOk, OnErr};
ghost use Rattle.std.specs.Option.{ForSome};
ghost use Rattle.spec_image.specs.Image.{Block as block};
ghost use Rattle.spec_image.specs.Footprint.{size_of};
ghost use Rattle.spec_image.specs.Told.{Applies, Passes, Rises, Stays};
ghost use Rattle.spec_format.specs.BlockFiles.{is_among};
ghost use Rattle.blk_disk.specs.Tables.{Agrees, all_files, length_in, Resizes};
ghost use Rattle.spec_format.specs.Growth.{StaysWholeOutside};
ghost use Rattle.blk_disk.specs.Growth as growth;
ghost use Rattle.blk_disk.specs.Growth.{fit_steps};

use crate::tables::BlockFiles;
use blk_io::{Failed, FileId, Folder};

impl BlockFiles {
    /// Lengthens a linked file to its header and all its blocks, where it is shorter.
    ///
    /// `Failed` comes only where the folder failed in this call; nothing has then changed.
    pub fn fit<F: Folder>(&mut self, f: &mut F, file: u8) -> Result<(), Failed>
        requires linked { IsTrue (is_among (all_files self.old) file) }
        requires agrees { ForSome (F.told f.old).files (Agrees self.old) }
        ensures fitted { OnOk result (Applies (F.told f.old) (F.told f.new) (fit_steps self.old file)) }
        ensures undone { OnErr result (Stays (F.told f.old) (F.told f.new)) }
        ensures kept { OnOk result (Resizes self.old self.new file (max (length_in self.old file) (growth.whole_length self.old file))) }
        ensures same { OnErr result (self.new ≡ self.old) }
        ensures agrees { ForSome (F.told f.new).files (Agrees self.new) }

        // At each word nothing but the length has changed, the files have grown at most, and the
        // headers are kept.
        ensures stops { ForSome (F.told f.old).files (λ from. Passes (F.told f.old) (F.told f.new) (StaysWholeOutside (size_of (block file)) from)) }

        ensures later { F.faults f.old ≤ F.faults f.new }
        ensures failed { OnErr result (Rises (F.faults f.old) (F.faults f.new)) }
    {
        let wanted = self.whole_length(file);
        if wanted <= self.length(file) {
            return Ok(());
        }
        f.set_len(FileId::Block(file), wanted)?;
        self.set_length(file, wanted);
        Ok(())
    }

    // The length of a file with all its blocks.
    #[tactic(auto, unfolding(crate::specs::Growth::whole_length))]
    fn whole_length(&self, file: u8) -> u64
        ensures { result ≡ growth.whole_length self.now file }
    {
        self.length_with(file, self.blocks(file))
    }
}
