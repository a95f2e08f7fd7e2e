// The bytes of a Read are printed.
ghost use Rattle.std.specs.Prelude.{◌≡◌, ◌<◌, ◌^◌, OnOk};
ghost use Rattle.spec_image.specs.Told.{ReadsOnly};
ghost use Rattle.blk_io.specs.Faults.{IfDamaged, IfDevice, UndamagedWhere};
ghost use Rattle.blk_io.specs.Streams.{GoesOn};
ghost use Rattle.blk_object.specs.FailedChecks.{IsFailedCheck};
ghost use Rattle.blk_cache.specs.ReadPrinting.{ForRange, KeepsRange, can_be_read};
ghost use Rattle.blk_cache.specs.Stepping.{Puts, PutsPart};
ghost use Rattle.blk_evict.specs.RoomPrinting.{FailsWhereItRose};

use crate::asking::STREAMS;
use crate::cache::Cache;
use blk_io::{Fault, Folder, Sink};
use blk_print::{StreamRange, print_range};

/// What a Read gives: so many bytes from an offset on, of a stream of the object that a handle names.
#[derive(Clone, Copy)]
pub(crate) struct ReadRange {
    pub(crate) handle: u16,
    pub(crate) stream: u8,
    pub(crate) offset: u64,
    pub(crate) number: u64,
}

impl Cache {
    /// Prints the line of a Read that was done: the number of bytes that there are from the offset on, which its answer
    /// gave, and then the bytes.
    ///
    /// Two folder calls are made for each 4096 bytes. Nothing is written. Where the handle names no object, or no stream
    /// has that number, nothing is printed. After a fault a prefix of the line is printed.
    pub(crate) fn print_read<F: Folder, K: Sink>(
        &self,
        folder: &mut F,
        out: &mut K,
        failed: &mut bool,
        range: ReadRange,
    ) -> Result<(), Fault>
        ensures printed { OnOk result (ForRange self.now (F.told folder.old) range (Puts failed.old failed.new K.written out.old out.new)) }
        ensures part { ForRange self.now (F.told folder.old) range (PutsPart failed.old K.written out.old out.new) }
        ensures failed { FailsWhereItRose failed.old failed.new (K.faults out.old) (K.faults out.new) }
        ensures reads { ReadsOnly F.told F.faults folder.old folder.new (IfDevice result) }

        // An observable folder reports no corruption where the cache keeps a state with so many bytes.
        ensures damaged { IfDamaged result (IsFailedCheck self.now.files (F.told folder.new)) }
        ensures untold { UndamagedWhere result (F.told folder.old) (KeepsRange self.now range) }
        ensures later_out { GoesOn K.is K.faults out.old out.new }
    {
        let Some(object) = self.handles.object(range.handle) else {
            return Ok(());
        };
        if !can_be_read(range.stream, range.offset, range.number) {
            return Ok(());
        }
        let its_stream = StreamRange {
            entry: object.entry,
            stream: range.stream,
            offset: range.offset,
            count: range.number,
        };
        print_range(folder, &self.files, out, failed, &its_stream)
    }
}

// Whether an object has a stream with this number, and so many bytes from an offset on end at a number that a u64 has.
fn can_be_read(stream: u8, offset: u64, number: u64) -> bool
    ensures is { result ≡ can_be_read stream offset number }
    ensures few { offset < 2 ^ 64 }
{
    stream < STREAMS && offset.checked_add(number).is_some()
}
