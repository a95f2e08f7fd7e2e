// The command SparseWrite.
ghost use Rattle.std.specs.Prelude.{◌≡◌, ◌≤◌, ◌<◌, ◌+◌, ◌^◌, IfOk, IfSome, IsSome, IsTrue, Ok, OnOk, length};
ghost use Rattle.std.specs.Option.{ForSome};
ghost use Rattle.spec_image.specs.Told.{Stays, MayWrite};
ghost use Rattle.blk_io.specs.Faults.{IfDamaged, IfDevice, UndamagedWhere};
ghost use Rattle.blk_io.specs.Streams.{GoesOn};
ghost use Rattle.blk_model.specs.Sizes.{largest_offset, part_size, signatures};
ghost use Rattle.blk_model.specs.declared.Answer.TheVariants as answer;
ghost use Rattle.blk_disk.specs.Open.{IsOpen};
ghost use Rattle.blk_disk.specs.Tables.{is_node_among, is_record_among};
ghost use Rattle.blk_handles.specs.Bindings.{binding_of};
ghost use Rattle.blk_object.specs.FailedChecks.{IsFailedCheck};
ghost use Rattle.blk_sparse.specs.SparseWrites.{signature_to};
ghost use Rattle.blk_cache.specs.CommandClauses.{DoneBy, IsRefused, KeepsAny, SparedBy, StopsBy, UndamagedBy};
ghost use Rattle.blk_cache.specs.Listing.{OnlyRoomChanges};
ghost use Rattle.blk_cache.specs.SparseTargets.{WhereAsks, WhereNamed, WhereRoom, early_store_refusal};
ghost use Rattle.blk_cache.specs.SparseWriting.{ForSparseWrite};
ghost use Rattle.blk_evict.specs.RoomPrinting.{FailsWhereItRose};
ghost use Rattle.blk_cache.specs.Stepping.{FrontBy, SaidBy};

use crate::cache::Cache;
use crate::sparse_rise::Rise;
use crate::sparse_target::AskedTarget;
use blk_io::{Fault, Folder, Sink};
use blk_model::{Answer, Refusal};
use blk_sparse::Target;

/// A SparseWrite: bytes of sparse data for the object that a handle names, from an offset on, and the moment at which it is
/// done.
#[derive(Clone, Copy)]
pub(crate) struct SparseRequest<'a> {
    pub(crate) handle: u16,
    pub(crate) offset: u64,
    pub(crate) bytes: &'a [u8],
    pub(crate) moment: u64,
}

impl Cache {
    /// Writes some bytes of sparse data to the object that a handle names, from an offset on. Space for what is added is
    /// made first, beside the parts in range; what is evicted for that is printed as it is removed. Then the object
    /// becomes dirty; it becomes sparse where it is plain, with the moment as its generation; its item is put in front of
    /// the LRU list, and each part in range, made where there is none, gets its bytes and is put in front. Where there are
    /// no bytes the item is put in front, and nothing else is done.
    ///
    /// It is refused with `BadHandle` where the name is free, or 4096 or more, `TooLarge` where there are more than 1048576
    /// bytes, `RangeEnd` where they end after 68719476736, `Doomed` where the object is doomed, `NotSparse` where it is
    /// plain and has bytes in stream 1 or 2, and `Full` where the open objects, the parts in range and what is
    /// added exceed a limit, the first of these. After a fault nothing is promised of the cache but that it can be dropped.
    pub(crate) fn sparse_write<F: Folder, K: Sink>(
        &mut self,
        folder: &mut F,
        out: &mut K,
        failed: &mut bool,
        request: &SparseRequest,
    ) -> Result<Answer, Fault>
        requires is_open { ForSome (F.told folder.old).files (IsOpen self.old.files) }
        ensures does { ForSparseWrite self.old (F.told folder.old) request.now (DoneBy self.new (F.told folder.new) result) }
        ensures stops { ForSparseWrite self.old (F.told folder.old) request.now (StopsBy (F.told folder.new)) }

        // What it evicts is printed, and on any answer a prefix of that.
        ensures says { ForSparseWrite self.old (F.told folder.old) request.now (SaidBy failed.old failed.new K.written out.old out.new result) }
        ensures front { ForSparseWrite self.old (F.told folder.old) request.now (FrontBy K.written out.old out.new) }
        ensures fails { FailsWhereItRose failed.old failed.new (K.faults out.old) (K.faults out.new) }

        // A refusal that the handles and the range alone decide is given on every folder, and a refusal does nothing, but to the buffers for
        // names.
        ensures refuses { IfSome (early_store_refusal self.old.handles request.now) (λ why. result ≡ Ok (answer.Refused why)) }
        ensures quiet { IfOk result (λ answer. IsRefused answer → Stays (F.told folder.old) (F.told folder.new)) }
        ensures unchanged { IfOk result (λ answer. IsRefused answer → OnlyRoomChanges self.old self.new) }

        ensures spares { ForSparseWrite self.old (F.told folder.old) request.now (SparedBy (F.told folder.new) result) }
        ensures is_open { OnOk result (ForSome (F.told folder.new).files (IsOpen self.new.files)) }
        ensures notes { self.new.notes ≡ self.old.notes }
        ensures mark { self.new.mark ≡ self.old.mark }

        // Corruption is a check that fails on what is read here; nothing is written after it. An observable folder gives none where the cache keeps a state.
        ensures damaged { IfDamaged result (IsFailedCheck self.new.files (F.told folder.new)) }
        ensures untold { UndamagedWhere result (F.told folder.old) (KeepsAny self.old) }
        ensures writes { MayWrite F.told F.faults folder.old folder.new (IfDevice result) }
        ensures sink_later { GoesOn K.is K.faults out.old out.new }
    {
        let asked = self.ask_target(
            folder,
            request.handle,
            request.offset,
            request.bytes,
            request.moment,
        )?;
        match asked {
            AskedTarget::Refused(why) => Ok(Answer::Refused(why)),
            AskedTarget::Found(target) => {
                self.write_target(folder, out, failed, request, &target)
            }
        }
    }

    // Writes some bytes of sparse data, or none, to an object that may get them.
    fn write_target<F: Folder, K: Sink>(
        &mut self,
        folder: &mut F,
        out: &mut K,
        failed: &mut bool,
        request: &SparseRequest,
        target: &Target,
    ) -> Result<Answer, Fault>
        requires bound { IsSome (binding_of self.old.handles request.now.handle) }
        requires stands { IsTrue (is_node_among self.old.files target.now.parent.node) }
        requires names { IsTrue (is_record_among self.old.files target.now.parent.entry) }
        requires signature { signature_to target.now < signatures }
        requires few { length request.now.bytes.now ≤ part_size }
        requires inside { request.now.offset + length request.now.bytes.now ≤ largest_offset }
        requires is_open { ForSome (F.told folder.old).files (IsOpen self.old.files) }

        // The SparseWrite is done as in the model, and after each single write the folder is as a crash in it may leave it.
        ensures does { WhereNamed self.old (F.told folder.old) request.now target.now (DoneBy self.new (F.told folder.new) result) }
        ensures stops { WhereNamed self.old (F.told folder.old) request.now target.now (StopsBy (F.told folder.new)) }

        // What it evicts is printed, and on any answer a prefix of that.
        ensures says { WhereNamed self.old (F.told folder.old) request.now target.now (SaidBy failed.old failed.new K.written out.old out.new result) }
        ensures front { WhereNamed self.old (F.told folder.old) request.now target.now (FrontBy K.written out.old out.new) }
        ensures fails { FailsWhereItRose failed.old failed.new (K.faults out.old) (K.faults out.new) }

        // A refusal does nothing, but to the buffers for names.
        ensures quiet { IfOk result (λ answer. IsRefused answer → Stays (F.told folder.old) (F.told folder.new)) }
        ensures unchanged { IfOk result (λ answer. IsRefused answer → OnlyRoomChanges self.old self.new) }

        ensures spares { WhereNamed self.old (F.told folder.old) request.now target.now (SparedBy (F.told folder.new) result) }
        ensures is_open { OnOk result (ForSome (F.told folder.new).files (IsOpen self.new.files)) }
        ensures notes { self.new.notes ≡ self.old.notes }
        ensures mark { self.new.mark ≡ self.old.mark }
        ensures damaged { IfDamaged result (IsFailedCheck self.new.files (F.told folder.new)) }
        ensures untold { WhereNamed self.old (F.told folder.old) request.now target.now (UndamagedBy result) }
        ensures writes { MayWrite F.told F.faults folder.old folder.new (IfDevice result) }
        ensures sink_later { GoesOn K.is K.faults out.old out.new }
    {
        if request.bytes.is_empty() {
            return self.use_target(folder, target, request.moment);
        }
        self.write_some(folder, out, failed, request, target)
    }

    // Writes some bytes of sparse data to an object that may get them.
    fn write_some<F: Folder, K: Sink>(
        &mut self,
        folder: &mut F,
        out: &mut K,
        failed: &mut bool,
        request: &SparseRequest,
        target: &Target,
    ) -> Result<Answer, Fault>
        requires bound { IsSome (binding_of self.old.handles request.now.handle) }
        requires stands { IsTrue (is_node_among self.old.files target.now.parent.node) }
        requires names { IsTrue (is_record_among self.old.files target.now.parent.entry) }
        requires signature { signature_to target.now < signatures }
        requires some { 1 ≤ length request.now.bytes.now }
        requires few { length request.now.bytes.now ≤ part_size }
        requires inside { request.now.offset + length request.now.bytes.now ≤ largest_offset }
        requires is_open { ForSome (F.told folder.old).files (IsOpen self.old.files) }

        // The SparseWrite is done as in the model, and after each single write the folder is as a crash in it may leave it.
        ensures does { WhereNamed self.old (F.told folder.old) request.now target.now (DoneBy self.new (F.told folder.new) result) }
        ensures stops { WhereNamed self.old (F.told folder.old) request.now target.now (StopsBy (F.told folder.new)) }

        // What it evicts is printed, and on any answer a prefix of that.
        ensures says { WhereNamed self.old (F.told folder.old) request.now target.now (SaidBy failed.old failed.new K.written out.old out.new result) }
        ensures front { WhereNamed self.old (F.told folder.old) request.now target.now (FrontBy K.written out.old out.new) }
        ensures fails { FailsWhereItRose failed.old failed.new (K.faults out.old) (K.faults out.new) }

        // A refusal does nothing, but to the buffers for names.
        ensures quiet { IfOk result (λ answer. IsRefused answer → Stays (F.told folder.old) (F.told folder.new)) }
        ensures unchanged { IfOk result (λ answer. IsRefused answer → OnlyRoomChanges self.old self.new) }

        ensures spares { WhereNamed self.old (F.told folder.old) request.now target.now (SparedBy (F.told folder.new) result) }
        ensures is_open { OnOk result (ForSome (F.told folder.new).files (IsOpen self.new.files)) }
        ensures notes { self.new.notes ≡ self.old.notes }
        ensures mark { self.new.mark ≡ self.old.mark }
        ensures damaged { IfDamaged result (IsFailedCheck self.new.files (F.told folder.new)) }
        ensures untold { WhereNamed self.old (F.told folder.old) request.now target.now (UndamagedBy result) }
        ensures writes { MayWrite F.told F.faults folder.old folder.new (IfDevice result) }
        ensures sink_later { GoesOn K.is K.faults out.old out.new }
    {
        let count = request.bytes.len() as u64;
        let rise = self.measure_rise(folder, target, request.offset, count)?;
        self.write_where_room(folder, out, failed, request, target, &rise)
    }

    // Writes the bytes if there is space for what they add, which is known before anything is evicted or written.
    fn write_where_room<F: Folder, K: Sink>(
        &mut self,
        folder: &mut F,
        out: &mut K,
        failed: &mut bool,
        request: &SparseRequest,
        target: &Target,
        rise: &Rise,
    ) -> Result<Answer, Fault>
        requires bound { IsSome (binding_of self.old.handles request.now.handle) }
        requires stands { IsTrue (is_node_among self.old.files target.now.parent.node) }
        requires names { IsTrue (is_record_among self.old.files target.now.parent.entry) }
        requires signature { signature_to target.now < signatures }
        requires some { 1 ≤ length request.now.bytes.now }
        requires few { length request.now.bytes.now ≤ part_size }
        requires inside { request.now.offset + length request.now.bytes.now ≤ largest_offset }
        requires is_open { ForSome (F.told folder.old).files (IsOpen self.old.files) }

        // The SparseWrite is done as in the model, and after each single write the folder is as a crash in it may leave it.
        ensures does { WhereAsks self.old (F.told folder.old) request.now target.now rise.now (DoneBy self.new (F.told folder.new) result) }
        ensures stops { WhereAsks self.old (F.told folder.old) request.now target.now rise.now (StopsBy (F.told folder.new)) }

        // What it evicts is printed, and on any answer a prefix of that.
        ensures says { WhereAsks self.old (F.told folder.old) request.now target.now rise.now (SaidBy failed.old failed.new K.written out.old out.new result) }
        ensures front { WhereAsks self.old (F.told folder.old) request.now target.now rise.now (FrontBy K.written out.old out.new) }
        ensures fails { FailsWhereItRose failed.old failed.new (K.faults out.old) (K.faults out.new) }

        // A refusal does nothing, but to the buffers for names.
        ensures quiet { IfOk result (λ answer. IsRefused answer → Stays (F.told folder.old) (F.told folder.new)) }
        ensures unchanged { IfOk result (λ answer. IsRefused answer → OnlyRoomChanges self.old self.new) }

        ensures spares { WhereAsks self.old (F.told folder.old) request.now target.now rise.now (SparedBy (F.told folder.new) result) }
        ensures is_open { OnOk result (ForSome (F.told folder.new).files (IsOpen self.new.files)) }
        ensures notes { self.new.notes ≡ self.old.notes }
        ensures mark { self.new.mark ≡ self.old.mark }
        ensures damaged { IfDamaged result (IsFailedCheck self.new.files (F.told folder.new)) }
        ensures untold { WhereAsks self.old (F.told folder.old) request.now target.now rise.now (UndamagedBy result) }
        ensures writes { MayWrite F.told F.faults folder.old folder.new (IfDevice result) }
        ensures sink_later { GoesOn K.is K.faults out.old out.new }
    {
        if self.is_full(rise.bytes, rise.items, &rise.parts) {
            return Ok(Answer::Refused(Refusal::Full));
        }
        self.write_with_room(folder, out, failed, request, target, rise)
    }

    // Writes the bytes after all evictions for them, where nothing refuses the SparseWrite.
    fn write_with_room<F: Folder, K: Sink>(
        &mut self,
        folder: &mut F,
        out: &mut K,
        failed: &mut bool,
        request: &SparseRequest,
        target: &Target,
        rise: &Rise,
    ) -> Result<Answer, Fault>
        requires bound { IsSome (binding_of self.old.handles request.now.handle) }
        requires stands { IsTrue (is_node_among self.old.files target.now.parent.node) }
        requires names { IsTrue (is_record_among self.old.files target.now.parent.entry) }
        requires signature { signature_to target.now < signatures }
        requires some { 1 ≤ length request.now.bytes.now }
        requires few { length request.now.bytes.now ≤ part_size }
        requires inside { request.now.offset + length request.now.bytes.now ≤ largest_offset }
        requires is_open { ForSome (F.told folder.old).files (IsOpen self.old.files) }

        // The SparseWrite is done as in the model, and after each single write the folder is as a crash in it may leave it.
        ensures does { WhereRoom self.old (F.told folder.old) request.now target.now rise.now (DoneBy self.new (F.told folder.new) result) }
        ensures stops { WhereRoom self.old (F.told folder.old) request.now target.now rise.now (StopsBy (F.told folder.new)) }

        // What it evicts is printed, and on any answer a prefix of that.
        ensures says { WhereRoom self.old (F.told folder.old) request.now target.now rise.now (SaidBy failed.old failed.new K.written out.old out.new result) }
        ensures front { WhereRoom self.old (F.told folder.old) request.now target.now rise.now (FrontBy K.written out.old out.new) }
        ensures fails { FailsWhereItRose failed.old failed.new (K.faults out.old) (K.faults out.new) }

        // A refusal does nothing, but to the buffers for names.
        ensures quiet { IfOk result (λ answer. IsRefused answer → Stays (F.told folder.old) (F.told folder.new)) }
        ensures unchanged { IfOk result (λ answer. IsRefused answer → OnlyRoomChanges self.old self.new) }

        ensures is_open { OnOk result (ForSome (F.told folder.new).files (IsOpen self.new.files)) }
        ensures notes { self.new.notes ≡ self.old.notes }
        ensures mark { self.new.mark ≡ self.old.mark }
        ensures damaged { IfDamaged result (IsFailedCheck self.new.files (F.told folder.new)) }
        ensures untold { WhereRoom self.old (F.told folder.old) request.now target.now rise.now (UndamagedBy result) }
        ensures writes { MayWrite F.told F.faults folder.old folder.new (IfDevice result) }
        ensures sink_later { GoesOn K.is K.faults out.old out.new }
    {
        // Reading it tells the prover that what is kept is within the limits of its types.
        let _bytes = self.kept_bytes();
        self.evict_for(folder, out, failed, rise.bytes, rise.items, &rise.parts)?;
        self.end_sparse_write(folder, request, target, rise.bytes, rise.items)
    }

    // How many bytes are kept: reading the number tells the prover that it is below 2^64.
    fn kept_bytes(&self) -> u64
        ensures are { result ≡ self.now.bytes }
        ensures few { self.now.bytes < 2 ^ 64 }
    {
        self.bytes
    }
}
