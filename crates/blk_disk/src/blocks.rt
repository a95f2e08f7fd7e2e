// The bytes of blocks.
ghost use Rattle.std.specs.Prelude.{◌+◌, ◌≤◌, IsTrue, length, OnOk, OnErr};
ghost use Rattle.std.specs.Option.{ForSome};
ghost use Rattle.spec_image.specs.Image.{Block as block};
ghost use Rattle.spec_image.specs.Steps.{words};
ghost use Rattle.spec_image.specs.Footprint.{SameOutside};
ghost use Rattle.spec_image.specs.Told.{Applies, AppliesPrefix, Rises, ReadsOnly, StopsFrom};
ghost use Rattle.spec_format.specs.Address.{file_selector, place, byte_size};
ghost use Rattle.blk_io.specs.Faults.{IfDamaged, IfDevice, IsShort, UndamagedWhere};
ghost use Rattle.blk_disk.specs.Tables.{Agrees, stands_among};
ghost use Rattle.blk_disk.specs.Clauses.{AreBlockBytes, HasBlockBytes, blocks_range};

use crate::names::file_of;
use crate::standing::place_of;
use crate::tables::BlockFiles;
use blk_addr::Addr;
use blk_io::{Failed, Fault, FileId, Folder, read_exact};

impl BlockFiles {
    /// Reads bytes of the blocks of an address, from a place among them on.
    ///
    /// Too few bytes are corruption: the error has the place of the read, and, as its word, how many bytes there were. `Device`
    /// comes only where the folder failed in this call.
    pub fn read_block<F: Folder>(
        &self,
        f: &mut F,
        addr: Addr,
        at: u32,
        out: &mut [u8],
    ) -> Result<(), Fault>
        requires stands { IsTrue (stands_among self.now addr) }
        requires inside { at + length out.old ≤ byte_size addr }
        ensures bytes { OnOk result (ForSome (F.told f.old).files (AreBlockBytes addr at out.new (length out.old))) }
        ensures checked { OnOk result (ForSome (F.told f.old).files (HasBlockBytes addr at (length out.old))) }
        ensures reads { ReadsOnly F.told F.faults f.old f.new (IfDevice result) }

        // Too few bytes, which an observable folder gives only where the block files don't agree with it.
        ensures short { IfDamaged result (IsShort (F.told f.old) (FileId.Block (file_selector addr)) (place addr + at) (length out.old)) }
        ensures untold { UndamagedWhere result (F.told f.old) (Agrees self.now) }
    {
        read_exact(f, file_of(addr), place_of(addr) + u64::from(at), out)
    }

    /// Writes bytes over the blocks of an address, from a place among them on, one word after another.
    ///
    /// `Failed` comes only where the folder failed in this call; a prefix of the words was then written.
    pub fn write_block<F: Folder>(
        &self,
        f: &mut F,
        addr: Addr,
        at: u32,
        bytes: &[u8],
    ) -> Result<(), Failed>
        requires stands { IsTrue (stands_among self.now addr) }
        requires inside { at + length bytes.now ≤ byte_size addr }
        requires agrees { ForSome (F.told f.old).files (Agrees self.now) }
        ensures steps { OnOk result (Applies (F.told f.old) (F.told f.new) (words (block (file_selector addr)) (place addr + at) bytes.now)) }
        ensures prefix { AppliesPrefix (F.told f.old) (F.told f.new) (words (block (file_selector addr)) (place addr + at) bytes.now) }

        // At each word nothing else has changed.
        ensures outside { StopsFrom (F.told f.old) (F.told f.new) (SameOutside (blocks_range addr at (length bytes.now))) }
        ensures agrees { ForSome (F.told f.new).files (Agrees self.now) }

        ensures later { F.faults f.old ≤ F.faults f.new }
        ensures failed { OnErr result (Rises (F.faults f.old) (F.faults f.new)) }
    {
        f.write_at(file_of(addr), place_of(addr) + u64::from(at), bytes)
    }
}
