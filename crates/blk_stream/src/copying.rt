// Data is copied from one address to another.
ghost use Rattle.std.specs.Prelude.{◌≡◌, ◌+◌, ◌≤◌, ◌<◌, OnOk, length};
ghost use Rattle.std.specs.Option.{ForSome};
ghost use Rattle.spec_image.specs.Footprint.{SameOutside};
ghost use Rattle.spec_image.specs.Told.{LeavesWhere, MakesPartOf, MayWrite, Rises, StopsFrom, MakesSteps};
ghost use Rattle.blk_io.specs.Faults.{IfDamaged, IfDevice, UndamagedWhere};
ghost use Rattle.blk_disk.specs.Tables.{Agrees};
ghost use Rattle.blk_entry.specs.Keys.{IsCut, IsInFile, IsInside, data_at};
ghost use Rattle.blk_entry.specs.Steps.{data_steps};
ghost use Rattle.blk_stream.specs.StreamClauses.{AreOldBytesOf, HasOldApart};
ghost use Rattle.blk_stream.specs.Copying.{HasOldPlace, IsCopied, IsCutOld, IsCutPrefix, IsOldThere, ShareNoData, old_spans, span_of};

use crate::places::Stored;
use blk_addr::Addr;
use blk_disk::BlockFiles;
use blk_entry::{read_data, write_data};
use blk_io::{Fault, Folder};

// How many bytes are copied at a time.
const PIECE: u32 = 4096;

// Copies data from one place on and before another to the same places of another address, in pieces of at most 4096 bytes.
pub(crate) fn copy<F: Folder>(
    folder: &mut F,
    files: &BlockFiles,
    from: Addr,
    to: Addr,
    start: u32,
    end: u32,
) -> Result<(), Fault>
    requires from_inside { IsInside files.now from 0 end }
    requires to_inside { IsInside files.now to 0 end }
    requires agrees { ForSome (F.told folder.old).files (Agrees files.now) }
    requires to_there { ForSome (F.told folder.old).files (IsInFile to 0 end) }
    ensures copied { OnOk result (LeavesWhere (F.told folder.old) (F.told folder.new) (λ old. ShareNoData from to) (IsCopied from to start end)) }
    ensures stops { StopsFrom (F.told folder.old) (F.told folder.new) (SameOutside (span_of to start end)) }
    ensures writes { MayWrite F.told F.faults folder.old folder.new (IfDevice result) }
    ensures agrees { ForSome (F.told folder.new).files (Agrees files.now) }
    ensures damaged { IfDamaged result (IsCutPrefix (F.told folder.new) from end) }
    ensures untold { UndamagedWhere result (F.told folder.old) (IsInFile from 0 end) }
{
    let mut buffer = [0u8; PIECE as usize];
    let mut at = start;
    while at < end {
        let n = (end - at).min(PIECE);
        copy_piece(folder, files, from, to, at, &mut buffer[..n as usize])?;
        at += n;
    }
    Ok(())
}

// Copies a piece of data, by one read and one write.
fn copy_piece<F: Folder>(
    folder: &mut F,
    files: &BlockFiles,
    from: Addr,
    to: Addr,
    at: u32,
    piece: &mut [u8],
) -> Result<(), Fault>
    requires from_inside { IsInside files.now from at (length piece.old) }
    requires to_inside { IsInside files.now to at (length piece.old) }
    requires agrees { ForSome (F.told folder.old).files (Agrees files.now) }
    requires to_there { ForSome (F.told folder.old).files (IsInFile to at (length piece.old)) }
    ensures steps { OnOk result (MakesSteps (F.told folder.old) (F.told folder.new) (λ old. data_steps to at (data_at old from at (length piece.old)))) }
    ensures prefix { MakesPartOf (F.told folder.old) (F.told folder.new) (λ old. data_steps to at (data_at old from at (length piece.old))) }
    ensures agrees { ForSome (F.told folder.new).files (Agrees files.now) }
    ensures damaged { IfDamaged result (IsCut (F.told folder.new) from at (length piece.old)) }
    ensures untold { UndamagedWhere result (F.told folder.old) (IsInFile from at (length piece.old)) }
    ensures later { F.faults folder.old ≤ F.faults folder.new }
    ensures device { IfDevice result (Rises (F.faults folder.old) (F.faults folder.new)) }
    ensures long { length piece.new ≡ length piece.old }
{
    read_data(folder, files, from, at, piece)?;
    write_data(folder, files, to, at, piece)?;
    Ok(())
}

// Copies of the old bytes of a stream what stays to a new place of data of a size: those before the bytes that are written, and those after them.
pub(crate) fn copy_old<F: Folder>(
    folder: &mut F,
    files: &BlockFiles,
    old: Stored,
    to: Addr,
    size: u32,
    offset: u32,
    count: u32,
) -> Result<(), Fault>
    requires old { HasOldPlace files.now old }
    requires inside { IsInside files.now to 0 size }
    requires few { offset + count ≤ size }
    requires agrees { ForSome (F.told folder.old).files (Agrees files.now) }
    requires there { ForSome (F.told folder.old).files (IsInFile to 0 size) }
    ensures copied { OnOk result (LeavesWhere (F.told folder.old) (F.told folder.new) (HasOldApart old to) (AreOldBytesOf old to size offset count)) }
    ensures stops { StopsFrom (F.told folder.old) (F.told folder.new) (SameOutside (old_spans to old.size size offset count)) }
    ensures writes { MayWrite F.told F.faults folder.old folder.new (IfDevice result) }
    ensures agrees { ForSome (F.told folder.new).files (Agrees files.now) }
    ensures damaged { IfDamaged result (IsCutOld (F.told folder.new) old) }
    ensures untold { UndamagedWhere result (F.told folder.old) (IsOldThere old) }
{
    let Some(from) = old.addr else {
        return Ok(());
    };
    copy(folder, files, from, to, 0, offset.min(old.size))?;
    copy(folder, files, from, to, offset + count, size.min(old.size))
}
