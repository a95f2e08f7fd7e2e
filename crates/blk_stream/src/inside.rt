// A stream is written inside its place.
ghost use Rattle.std.specs.Prelude.{◌≡◌, ◌≢◌, ◌+◌, ◌≤◌, ◌<◌, IsTrue, OnErr, OnOk, length};
ghost use Rattle.std.specs.Option.{ForSome};
ghost use Rattle.spec_image.specs.Told.{Applies, AppliesPrefix, Rises, ReadsOnly};
ghost use Rattle.spec_format.specs.Address.{blocks_256, byte_size, external, kind_of};
ghost use Rattle.spec_format.specs.Records.{entry_size};
ghost use Rattle.blk_disk.specs.Tables.{Agrees, stands_among};
ghost use Rattle.blk_entry.specs.Keys.{IsInFile, IsInside};
ghost use Rattle.blk_entry.specs.Steps.{data_steps};
ghost use Rattle.blk_stream.specs.Stages.{KeepsSeal, WritesKeepingFiles};
ghost use Rattle.blk_stream.specs.Inside.{WritesInProgress, external_length_steps, gap_steps, here_steps, room_steps, size_steps};
ghost use Rattle.blk_stream.specs.WriteClauses.{LeavesInside, LeavesWrittenInside, StopsInside, StopsInsideFile, steps_over_place};

use crate::places::{StreamWrite, is_of, size_at};
use blk_addr::{Addr, Kind};
use blk_disk::{BlockFiles, room_of};
use blk_entry::write_data;
use blk_io::{Failed, Folder};

// The most bytes of data in blocks.
const MOST_IN_BLOCKS: usize = 16384;

// Writes bytes of a stream from an offset on; the stream stays in its place and gets a new size: the bytes, and then the size in the record, whose bytes were
// read.
pub(crate) fn write_inside<F: Folder>(
    folder: &mut F,
    files: &BlockFiles,
    write: StreamWrite,
    record_bytes: &mut [u8],
    addr: Addr,
    old: u32,
    size: u32,
) -> Result<(), Failed>
    requires stream { write.stream < 3 }
    requires kind { kind_of write.entry ≡ blocks_256 }
    requires stands { IsTrue (stands_among files.now write.entry) }
    requires record_size { length record_bytes.old ≡ entry_size }
    requires inside { IsInside files.now addr 0 size }
    requires few { write.offset + length write.bytes.now ≤ size }
    requires agrees { ForSome (F.told folder.old).files (Agrees files.now) }
    requires external { ForSome (F.told folder.old).files (IsInFile addr 0 old) }
    ensures steps { OnOk result (Applies (F.told folder.old) (F.told folder.new) (steps_over_place record_bytes.old write.entry addr old size)) }
    ensures prefix { AppliesPrefix (F.told folder.old) (F.told folder.new) (steps_over_place record_bytes.old write.entry addr old size) }
    ensures written { OnOk result (LeavesWrittenInside (F.told folder.old) (F.told folder.new) record_bytes.old write.entry addr old size) }
    ensures stops { StopsInside (F.told folder.old) (F.told folder.new) record_bytes.old write.entry addr WritesInProgress }
    ensures stages { StopsInsideFile (F.told folder.old) (F.told folder.new) record_bytes.old write.entry addr WritesKeepingFiles }
    ensures sealed { OnOk result (LeavesInside (F.told folder.old) (F.told folder.new) record_bytes.old write.entry.entry addr (KeepsSeal write.entry.entry)) }
    ensures agrees { ForSome (F.told folder.new).files (Agrees files.now) }
    ensures later { F.faults folder.old ≤ F.faults folder.new }
    ensures failed { OnErr result (Rises (F.faults folder.old) (F.faults folder.new)) }
{
    let StreamWrite {
        entry,
        stream,
        offset,
        bytes,
        ..
    } = write;
    write_here(folder, files, addr, old, size, offset, bytes)?;
    write_size(folder, files, entry, stream, record_bytes, old, size)
}

// Writes bytes of data from an offset on; the data stay in their place and get a new size: zeros before them, where they begin past the old end.
fn write_here<F: Folder>(
    folder: &mut F,
    files: &BlockFiles,
    addr: Addr,
    old: u32,
    size: u32,
    offset: u32,
    bytes: &[u8],
) -> Result<(), Failed>
    requires inside { IsInside files.now addr 0 size }
    requires few { offset + length bytes.now ≤ size }
    requires agrees { ForSome (F.told folder.old).files (Agrees files.now) }
    requires external { ForSome (F.told folder.old).files (IsInFile addr 0 old) }
    ensures steps { OnOk result (Applies (F.told folder.old) (F.told folder.new) (here_steps addr old size offset bytes.now)) }
    ensures prefix { AppliesPrefix (F.told folder.old) (F.told folder.new) (here_steps addr old size offset bytes.now) }
    ensures agrees { ForSome (F.told folder.new).files (Agrees files.now) }
    ensures later { F.faults folder.old ≤ F.faults folder.new }
    ensures failed { OnErr result (Rises (F.faults folder.old) (F.faults folder.new)) }
{
    extend_data(folder, files, addr, old, size, offset)?;
    write_some(folder, files, addr, offset, bytes)?;
    erase_end(folder, files, addr, old, size)
}

// Writes zeros into the rest of its blocks where data is cut, in a folder that erases. Nothing is done in an observable folder.
fn erase_end<F: Folder>(
    folder: &mut F,
    files: &BlockFiles,
    addr: Addr,
    old: u32,
    size: u32,
) -> Result<(), Failed>
    requires inside { IsInside files.now addr 0 size }
    requires agrees { ForSome (F.told folder.old).files (Agrees files.now) }
    ensures reads { ReadsOnly F.told F.faults folder.old folder.new (OnErr result) }
{
    if size >= old || is_of(addr, Kind::External) || !folder.erases() {
        return Ok(());
    }
    write_gap(folder, files, addr, size, room_of(addr) as u32)
}

// Gives data the space for bytes at an offset: an external file its new length, and blocks zeros between their old end and the
// offset.
pub(crate) fn extend_data<F: Folder>(
    folder: &mut F,
    files: &BlockFiles,
    addr: Addr,
    old: u32,
    size: u32,
    offset: u32,
) -> Result<(), Failed>
    requires inside { IsInside files.now addr 0 size }
    requires few { offset ≤ size }
    requires agrees { ForSome (F.told folder.old).files (Agrees files.now) }
    requires external { ForSome (F.told folder.old).files (IsInFile addr 0 old) }
    ensures steps { OnOk result (Applies (F.told folder.old) (F.told folder.new) (room_steps addr old size offset)) }
    ensures prefix { AppliesPrefix (F.told folder.old) (F.told folder.new) (room_steps addr old size offset) }
    ensures external { OnOk result (ForSome (F.told folder.new).files (IsInFile addr 0 size)) }
    ensures agrees { ForSome (F.told folder.new).files (Agrees files.now) }
    ensures later { F.faults folder.old ≤ F.faults folder.new }
    ensures failed { OnErr result (Rises (F.faults folder.old) (F.faults folder.new)) }
{
    if is_of(addr, Kind::External) {
        set_size(folder, files, addr, old, size)
    } else {
        write_gap(folder, files, addr, old, offset)
    }
}

// Gives an external file another length.
fn set_size<F: Folder>(
    folder: &mut F,
    files: &BlockFiles,
    addr: Addr,
    old: u32,
    size: u32,
) -> Result<(), Failed>
    requires kind { kind_of addr ≡ external }
    requires agrees { ForSome (F.told folder.old).files (Agrees files.now) }
    requires external { ForSome (F.told folder.old).files (IsInFile addr 0 old) }
    ensures steps { OnOk result (Applies (F.told folder.old) (F.told folder.new) (external_length_steps addr old size)) }
    ensures prefix { AppliesPrefix (F.told folder.old) (F.told folder.new) (external_length_steps addr old size) }
    ensures external { OnOk result (ForSome (F.told folder.new).files (IsInFile addr 0 size)) }
    ensures agrees { ForSome (F.told folder.new).files (Agrees files.now) }
    ensures later { F.faults folder.old ≤ F.faults folder.new }
    ensures failed { OnErr result (Rises (F.faults folder.old) (F.faults folder.new)) }
{
    // Only the contract needs the block files: naming them tells the prover what they say of the folder.
    let _files = files;
    if size == old {
        return Ok(());
    }
    blk_external::resize(folder, addr, u64::from(size))
}

// Writes zeros into blocks from one place on and before another.
pub(crate) fn write_gap<F: Folder>(
    folder: &mut F,
    files: &BlockFiles,
    addr: Addr,
    start: u32,
    end: u32,
) -> Result<(), Failed>
    requires kind { kind_of addr ≢ external }
    requires stands { IsTrue (stands_among files.now addr) }
    requires inside { end ≤ byte_size addr }
    requires agrees { ForSome (F.told folder.old).files (Agrees files.now) }
    ensures steps { OnOk result (Applies (F.told folder.old) (F.told folder.new) (gap_steps addr start end)) }
    ensures prefix { AppliesPrefix (F.told folder.old) (F.told folder.new) (gap_steps addr start end) }
    ensures agrees { ForSome (F.told folder.new).files (Agrees files.now) }
    ensures later { F.faults folder.old ≤ F.faults folder.new }
    ensures failed { OnErr result (Rises (F.faults folder.old) (F.faults folder.new)) }
{
    if end <= start {
        return Ok(());
    }
    let zeros = [0u8; MOST_IN_BLOCKS];
    let gap = &zeros[..(end - start) as usize];
    files.write_block(folder, addr, start, gap)
}

// Writes bytes of data, if there are any.
pub(crate) fn write_some<F: Folder>(
    folder: &mut F,
    files: &BlockFiles,
    addr: Addr,
    at: u32,
    bytes: &[u8],
) -> Result<(), Failed>
    requires inside { IsInside files.now addr at (length bytes.now) }
    requires agrees { ForSome (F.told folder.old).files (Agrees files.now) }
    requires external { ForSome (F.told folder.old).files (IsInFile addr at (length bytes.now)) }
    ensures steps { OnOk result (Applies (F.told folder.old) (F.told folder.new) (data_steps addr at bytes.now)) }
    ensures prefix { AppliesPrefix (F.told folder.old) (F.told folder.new) (data_steps addr at bytes.now) }
    ensures agrees { ForSome (F.told folder.new).files (Agrees files.now) }
    ensures later { F.faults folder.old ≤ F.faults folder.new }
    ensures failed { OnErr result (Rises (F.faults folder.old) (F.faults folder.new)) }
{
    if bytes.is_empty() {
        return Ok(());
    }
    write_data(folder, files, addr, at, bytes)
}

// The record, whose bytes were read, gets another size of a stream, if it is another.
fn write_size<F: Folder>(
    folder: &mut F,
    files: &BlockFiles,
    entry: Addr,
    stream: u8,
    record_bytes: &mut [u8],
    old: u32,
    size: u32,
) -> Result<(), Failed>
    requires stream { stream < 3 }
    requires kind { kind_of entry ≡ blocks_256 }
    requires stands { IsTrue (stands_among files.now entry) }
    requires record_size { length record_bytes.old ≡ entry_size }
    requires agrees { ForSome (F.told folder.old).files (Agrees files.now) }
    ensures steps { OnOk result (Applies (F.told folder.old) (F.told folder.new) (size_steps record_bytes.old entry stream old size)) }
    ensures prefix { AppliesPrefix (F.told folder.old) (F.told folder.new) (size_steps record_bytes.old entry stream old size) }
    ensures agrees { ForSome (F.told folder.new).files (Agrees files.now) }
    ensures later { F.faults folder.old ≤ F.faults folder.new }
    ensures failed { OnErr result (Rises (F.faults folder.old) (F.faults folder.new)) }
{
    if size == old {
        return Ok(());
    }
    files.update_record(folder, entry, record_bytes, &[(size_at(stream), size)])
}
