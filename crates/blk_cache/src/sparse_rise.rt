// What a SparseWrite adds, measured before space is made for it.
ghost use Rattle.std.specs.Prelude.{◌≡◌, ◌≤◌, ◌<◌, ◌+◌, ◌^◌, IfOk, IsTrue};
ghost use Rattle.std.specs.Option.{ForSome};
ghost use Rattle.spec_image.specs.Told.{ReadsOnly};
ghost use Rattle.blk_io.specs.Faults.{IfDamaged, IfDevice, OpaqueIfDamaged};
ghost use Rattle.blk_model.specs.Sizes.{largest_offset, part_size, signatures};
ghost use Rattle.blk_disk.specs.Open.{IsOpen};
ghost use Rattle.blk_disk.specs.Tables.{is_record_among};
ghost use Rattle.blk_object.specs.FailedChecks.{IsFailedCheck};
ghost use Rattle.blk_sparse.specs.SparseWrites.{signature_to};
ghost use Rattle.blk_cache.specs.Listing.{OnlyRoomChanges};
ghost use Rattle.blk_cache.specs.SparseTargets.{rise_of, MeasuresTarget, RaisesTarget, WhereTarget};

use crate::cache::Cache;
use crate::covered::Covered;
use crate::sparse_ending::PARTS_INDEX;
use blk_io::{Fault, Folder};
use blk_sparse::{Measured, Target, measure, measure_plain};

/// What a SparseWrite adds: so many bytes of cost and so many items, beside the parts in range that exist.
#[derive(Clone, Copy)]
pub(crate) struct Rise {
    pub(crate) parts: Covered,
    pub(crate) bytes: u64,
    pub(crate) items: u64,
}

impl Cache {
    /// Measures what so many bytes of sparse data from an offset on add to an object. Nothing is written.
    ///
    /// Each part in range is searched for, and two folder calls read one that exists.
    pub(crate) fn measure_rise<F: Folder>(
        &mut self,
        folder: &mut F,
        target: &Target,
        offset: u64,
        count: u64,
    ) -> Result<Rise, Fault>
        requires names { IsTrue (is_record_among self.old.files target.now.parent.entry) }
        requires signature { signature_to target.now < signatures }
        requires some { 1 ≤ count }
        requires few { count ≤ part_size }
        requires inside { offset + count ≤ largest_offset }
        requires is_open { ForSome (F.told folder.old).files (IsOpen self.old.files) }

        // In each state that is kept, where a handle names the object, it is what the bytes raise.
        ensures rises { IfOk result (RaisesTarget self.old (F.told folder.old) target.now offset count) }
        ensures reads { ReadsOnly F.told F.faults folder.old folder.new (IfDevice result) }
        ensures others { OnlyRoomChanges self.old self.new }

        // Corruption is a check that fails on what is read here. An observable folder gives none where the cache keeps such a state.
        ensures damaged { IfDamaged result (IsFailedCheck self.new.files (F.told folder.new)) }
        ensures untold { WhereTarget self.old (F.told folder.old) target.now offset count (OpaqueIfDamaged result (F.told folder.old)) }
    {
        let found = self.measure_parts(folder, target, offset, count)?;
        Ok(rise_of(target, &found))
    }

    // Measures the parts in a range of so many bytes, of the object as a sparse one.
    fn measure_parts<F: Folder>(
        &mut self,
        folder: &mut F,
        target: &Target,
        offset: u64,
        count: u64,
    ) -> Result<Measured, Fault>
        requires names { IsTrue (is_record_among self.old.files target.now.parent.entry) }
        requires signature { signature_to target.now < signatures }
        requires some { 1 ≤ count }
        requires few { count ≤ part_size }
        requires inside { offset + count ≤ largest_offset }
        requires is_open { ForSome (F.told folder.old).files (IsOpen self.old.files) }
        ensures measured { IfOk result (MeasuresTarget self.old (F.told folder.old) target.now offset count) }
        ensures light { IfOk result (λ found. found.bytes < 2 ^ 36) }
        ensures reads { ReadsOnly F.told F.faults folder.old folder.new (IfDevice result) }
        ensures others { OnlyRoomChanges self.old self.new }
        ensures damaged { IfDamaged result (IsFailedCheck self.new.files (F.told folder.new)) }
        ensures untold { WhereTarget self.old (F.told folder.old) target.now offset count (OpaqueIfDamaged result (F.told folder.old)) }
    {
        if target.plain {
            return measure_plain(
                folder,
                &self.files,
                target.parent.entry,
                target.parent.signature,
                &mut self.name,
                offset,
                count,
            );
        }
        measure(
            folder,
            &self.files,
            &target.parent,
            &mut self.name,
            offset,
            count,
        )
    }
}

// What a SparseWrite adds, by the measure of the parts in range, with the index of an object that is plain.
fn rise_of(target: &Target, found: &Measured) -> Rise
    requires light { found.now.bytes < 2 ^ 36 }
    ensures { result ≡ rise_of target.now found.now }
{
    let index = if target.plain { PARTS_INDEX } else { 0 };
    Rise {
        parts: Covered {
            first: found.first,
            second: found.second,
            bytes: found.charged,
        },
        bytes: found.bytes + index,
        items: found.items,
    }
}
