// The command Write.
ghost use Rattle.std.specs.Prelude.{All, ◌≡◌, ◌≤◌, ◌<◌, ◌^◌, IfOk, IfSome, IsTrue, None, Ok, OnOk, false, length, true};
ghost use Rattle.std.specs.Option.{ForSome};
ghost use Rattle.spec_image.specs.Told.{Rises, Stays, MayWrite, ReadsOnly};
ghost use Rattle.blk_io.specs.Faults.{IfDamaged, IfDevice, UndamagedWhere};
ghost use Rattle.blk_io.specs.Streams.{GoesOn};
ghost use Rattle.blk_model.specs.Sizes.{longest_stream, most_stream};
ghost use Rattle.blk_model.specs.declared.Answer.TheVariants as answer;
ghost use Rattle.blk_disk.specs.Open.{IsOpen};
ghost use Rattle.blk_disk.specs.Tables.{is_node_among};
ghost use Rattle.blk_lru.specs.Lists.{IsListed};
ghost use Rattle.blk_object.specs.FailedChecks.{IsFailedCheck};
ghost use Rattle.blk_cache.specs.declared.asking.Asked.TheVariants as asked;
ghost use Rattle.blk_cache.specs.CommandClauses.{DoneBy, IsRefused, KeepsAny, SparedBy, StopsBy, EndedBy, EndingBy, KeptAs};
ghost use Rattle.blk_evict.specs.RoomPrinting.{FailsWhereItRose};
ghost use Rattle.blk_cache.specs.Stepping.{FrontBy, SaidBy};
ghost use Rattle.blk_cache.specs.Writing.{CountsRise, ForWrite, IsNotRefusedEarly, IsReadyToWriteForSome, KeepsToWriteFor, early_refusal, early_write_refusal, written_by, AsksToWrite, ForCanGet, ForReadyWrite, ForUse, UsedBy};
ghost use Rattle.blk_sparse.specs.Clauses.{Recovers};

use crate::asking::{Asked, NamedStream};
use crate::cache::Cache;
use crate::making_room::Room;
use crate::room::exceeds;
use crate::write_lengths::{length_after, rise};
use blk_disk::BlockFiles;
use blk_io::{Fault, Folder, Sink};
use blk_lru::touch;
use blk_model::{Answer, MOST_STREAM, Refusal};
use blk_object::{count_rise, write_object};

// A stream has at most the bytes that a cache may keep, divided by this.
const STREAM_SHARE: u64 = 8;

/// A Write: bytes for a stream of the object that a handle names, from an offset on, and the moment at which it is done.
/// The stream ends with them where it is cut.
#[derive(Clone, Copy)]
pub(crate) struct WriteRequest<'a> {
    pub(crate) handle: u16,
    pub(crate) stream: u8,
    pub(crate) offset: u64,
    pub(crate) cut: bool,
    pub(crate) bytes: &'a [u8],
    pub(crate) moment: u64,
}

impl Cache {
    /// Writes bytes over a stream of the object that a handle names, from an offset on, with zeros before them where the
    /// stream ends before the offset; it ends with them where it is cut, and else keeps what comes after them. Space for
    /// what it gets longer is made first; what is evicted for that is printed as it is removed. Then the object becomes
    /// dirty, and once it is written its item is put in front of the LRU list. A doomed object has no item.
    ///
    /// It is refused with `BadHandle` where the name is free, or 4096 or more, `BadStream` where the number of the stream
    /// is 3 or more, `TooLarge` where the bytes end past an eighth of the limit or past 2147483647, `SparseStream` where
    /// the object is sparse and the number isn't 0, and `Full` where the open objects and what is added exceed a limit,
    /// the first of these. After a fault nothing is promised of the cache but that it can be dropped.
    pub(crate) fn write<F: Folder, K: Sink>(
        &mut self,
        folder: &mut F,
        out: &mut K,
        failed: &mut bool,
        request: &WriteRequest,
    ) -> Result<Answer, Fault>
        requires is_open { ForSome (F.told folder.old).files (IsOpen self.old.files) }
        ensures does { ForWrite self.old (F.told folder.old) request.now (DoneBy self.new (F.told folder.new) result) }
        ensures stops { ForWrite self.old (F.told folder.old) request.now (StopsBy (F.told folder.new)) }

        // What it evicts is printed, and on any answer a prefix of that.
        ensures says { ForWrite self.old (F.told folder.old) request.now (SaidBy failed.old failed.new K.written out.old out.new result) }
        ensures front { ForWrite self.old (F.told folder.old) request.now (FrontBy K.written out.old out.new) }
        ensures fails { FailsWhereItRose failed.old failed.new (K.faults out.old) (K.faults out.new) }

        // A refusal that the handles, the limits, the stream and the length alone decide is given on every folder, and a refusal does nothing.
        ensures refuses { IfSome (early_refusal self.old request.now) (λ why. result ≡ Ok (answer.Refused why)) }
        ensures quiet { IfOk result (λ answer. IsRefused answer → Stays (F.told folder.old) (F.told folder.new)) }
        ensures unchanged { IfOk result (λ answer. IsRefused answer → self.new ≡ self.old) }

        ensures spares { ForWrite self.old (F.told folder.old) request.now (SparedBy (F.told folder.new) result) }
        ensures is_open { OnOk result (ForSome (F.told folder.new).files (IsOpen self.new.files)) }
        ensures notes { self.new.notes ≡ self.old.notes }
        ensures mark { self.new.mark ≡ self.old.mark }

        // Corruption is a check that fails on what is read here; nothing is written after it. An observable folder gives none where the cache keeps a state.
        ensures damaged { IfDamaged result (IsFailedCheck self.new.files (F.told folder.new)) }
        ensures untold { UndamagedWhere result (F.told folder.old) (KeepsAny self.old) }
        ensures writes { MayWrite F.told F.faults folder.old folder.new (IfDevice result) }
        ensures sink_later { GoesOn K.is K.faults out.old out.new }
    {
        let asked = self.refuses_write(
            folder,
            request.handle,
            request.stream,
            request.offset,
            request.bytes,
        )?;
        match asked {
            Asked::Refused(why) => Ok(Answer::Refused(why)),
            Asked::Stream(named) => {
                let rise = rise(request.cut, named.size, request.offset, request.bytes);
                match self.make_room(folder, out, failed, rise, 0)? {
                    Room::Full => Ok(Answer::Refused(Refusal::Full)),
                    Room::Made => self.end_write(folder, request, named.size),
                }
            }
        }
    }

    // Ends a Write that isn't refused, after its evictions: its object is dirty, and then written.
    pub(crate) fn end_write<F: Folder>(
        &mut self,
        folder: &mut F,
        request: &WriteRequest,
        size: u32,
    ) -> Result<Answer, Fault>
        requires passes { early_refusal self.old request.now ≡ None }
        requires is_open { ForSome (F.told folder.old).files (IsOpen self.old.files) }

        // The Write is done, whatever state it began with, and after each single write the folder is as a crash in it may leave it.
        ensures does { ForReadyWrite self.old (F.told folder.old) request.now size (EndedBy self.new (F.told folder.new) result) }
        ensures stops { ForReadyWrite self.old (F.told folder.old) request.now size (EndingBy (F.told folder.new)) }

        ensures wrote { IfOk result (λ given. given ≡ answer.Wrote (length request.now.bytes.now)) }
        ensures notes { self.new.notes ≡ self.old.notes }
        ensures mark { self.new.mark ≡ self.old.mark }
        ensures is_open { OnOk result (ForSome (F.told folder.new).files (IsOpen self.new.files)) }
        ensures damaged { IfDamaged result (IsFailedCheck self.new.files (F.told folder.new)) }
        ensures untold { UndamagedWhere result (F.told folder.old) (IsReadyToWriteForSome self.old request.now size) }
        ensures writes { MayWrite F.told F.faults folder.old folder.new (IfDevice result) }
    {
        self.set_dirty(folder, request.handle, true)?;
        self.write_to_dirty(folder, request, size)?;
        Ok(Answer::Wrote(request.bytes.len() as u64))
    }

    // Writes bytes over a stream, of this size, of the dirty object that the handle names; then the item of a live object is accessed, and the change of its
    // cost is counted in the index; that of any object is counted in the cache.
    fn write_to_dirty<F: Folder>(
        &mut self,
        folder: &mut F,
        request: &WriteRequest,
        size: u32,
    ) -> Result<(), Fault>
        requires passes { early_refusal self.old request.now ≡ None }
        requires is_open { ForSome (F.told folder.old).files (IsOpen self.old.files) }

        // In the end each state that was kept, whose object can get them, is kept with them, and with the item in front.
        ensures written { OnOk result (ForCanGet self.old (F.told folder.old) request.now size (KeptAs self.new (F.told folder.new) (written_by request.now))) }

        // At each word the old durable contents are recovered.
        ensures stops { ForCanGet self.old (F.told folder.old) request.now size (Recovers (F.told folder.old) (F.told folder.new)) }

        ensures notes { self.new.notes ≡ self.old.notes }
        ensures mark { self.new.mark ≡ self.old.mark }
        ensures is_open { OnOk result (ForSome (F.told folder.new).files (IsOpen self.new.files)) }
        ensures damaged { IfDamaged result (IsFailedCheck self.new.files (F.told folder.new)) }
        ensures untold { UndamagedWhere result (F.told folder.old) (KeepsToWriteFor self.old request.now size) }
        ensures writes { MayWrite F.told F.faults folder.old folder.new (IfDevice result) }
    {
        let Some(object) = self.handles.object(request.handle) else {
            unreachable!();
        };
        // Counting them tells the prover that they are bytes.
        let _count = count_of(request.bytes);
        let after = length_after(request.cut, size, request.offset, request.bytes);
        write_object(
            folder,
            &mut self.files,
            object.entry,
            request.stream,
            request.offset,
            request.cut,
            request.bytes,
        )?;
        let named = NamedStream {
            entry: object.entry,
            node: object.node,
            doomed: object.doomed,
            size,
        };
        use_and_count(folder, &self.files, &named, after, request.moment)?;
        self.count_bytes(u64::from(size), after);
        Ok(())
    }

    // The stream that a Write names, or why the Write is refused, but for lack of space. Nothing is written.
    pub(crate) fn refuses_write<F: Folder>(
        &self,
        folder: &mut F,
        handle: u16,
        stream: u8,
        offset: u64,
        bytes: &[u8],
    ) -> Result<Asked, Fault>
        ensures asked { IfOk result (AsksToWrite self.now (F.told folder.old) handle stream offset bytes.now) }

        // A refusal that the handles, the limits, the stream and the length alone decide is given on every folder; where a stream is found they decide none.
        ensures refuses { IfSome (early_write_refusal self.now handle stream offset (length bytes.now)) (λ why. result ≡ Ok (asked.Refused why)) }
        ensures goes_on { IfOk result (IsNotRefusedEarly (early_write_refusal self.now handle stream offset (length bytes.now))) }
        ensures reads { ReadsOnly F.told F.faults folder.old folder.new (IfDevice result) }

        // Corruption is a check that fails on what is read here. An observable folder gives none where the cache keeps a state.
        ensures damaged { IfDamaged result (IsFailedCheck self.now.files (F.told folder.new)) }
        ensures untold { UndamagedWhere result (F.told folder.old) (KeepsAny self.now) }
    {
        if let Some(why) = self.refuses_length(handle, stream, offset, bytes.len() as u64) {
            return Ok(Asked::Refused(why));
        }
        self.ask_stream(folder, handle, stream)
    }

    // Why a Write is refused, as far as the names, the number of the stream and the length decide.
    fn refuses_length(&self, handle: u16, stream: u8, offset: u64, count: u64) -> Option<Refusal>
        ensures { result ≡ early_write_refusal self.now handle stream offset count }
    {
        if let Some(why) = self.refuses_stream(handle, stream) {
            return Some(why);
        }
        if exceeds(offset, count, stream_limit(self.limits.max_bytes)) {
            return Some(Refusal::TooLarge);
        }
        None
    }

    // Counts the change of a stream's length, from `before` bytes to `after`.
    fn count_bytes(&mut self, before: u64, after: u64)
        ensures counts { CountsRise self.old self.new before after }
        ensures few { self.old.bytes < 2 ^ 64 }
    {
        self.bytes = self.bytes.saturating_sub(before).saturating_add(after);
        self.open_bytes = self.open_bytes.saturating_sub(before).saturating_add(after);
    }
}

// Accesses the item of a live object of which a stream got another length, and counts the difference in the index. A doomed object has no item, and isn't
// counted there.
fn use_and_count<F: Folder>(
    folder: &mut F,
    files: &BlockFiles,
    object: &NamedStream,
    after: u64,
    moment: u64,
) -> Result<(), Fault>
    requires stands { IsTrue (is_node_among files.now object.now.node) }
    requires is_open { ForSome (F.told folder.old).files (IsOpen files.now) }

    // In the end each state that was kept is kept with the item in front, and the bytes of the index have risen.
    ensures used { OnOk result (ForUse (F.told folder.old) object.now (UsedBy (F.told folder.new) object.now.size after)) }
    ensures stays { object.now.doomed ≡ true → Stays (F.told folder.old) (F.told folder.new) }

    // At each word the old durable contents are recovered.
    ensures stops { ForUse (F.told folder.old) object.now (λ from state layout its. Recovers (F.told folder.old) (F.told folder.new) state) }

    ensures is_open { ForSome (F.told folder.new).files (IsOpen files.now) }
    ensures damaged { IfDamaged result (IsFailedCheck files.now (F.told folder.new)) }
    ensures untold { UndamagedWhere result (F.told folder.old) (λ image. object.now.doomed ≡ false → IsListed object.now.node image) }
    ensures silent { (F.told folder.old).files ≡ None → (F.told folder.new).files ≡ None }
    ensures later { F.faults folder.old ≤ F.faults folder.new }
    ensures device { IfDevice result (Rises (F.faults folder.old) (F.faults folder.new)) }
{
    if object.doomed {
        return Ok(());
    }
    touch(folder, files, object.node, moment)?;
    count_rise(folder, files, u64::from(object.size), after)
}

// How many bytes there are.
fn count_of(bytes: &[u8]) -> u64
    ensures is { result ≡ length bytes.now }
    ensures small { All (λ b. b < 256) bytes.now }
{
    bytes.len() as u64
}

// The most bytes of a stream, by how many a cache keeps.
fn stream_limit(max_bytes: u64) -> u64
    ensures limit { result ≡ longest_stream max_bytes }
    ensures few { result ≤ most_stream }
{
    (max_bytes / STREAM_SHARE).min(u64::from(MOST_STREAM))
}
