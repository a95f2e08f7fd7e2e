// The live object that a request on sparse data names by a handle.
ghost use Rattle.std.specs.Prelude.{◌≡◌, ◌&&◌, ◌==◌, IfOk, IfSome, Ok, slice_index};
ghost use Rattle.spec_image.specs.Told.{ReadsOnly};
ghost use Rattle.blk_io.specs.Faults.{IfDamaged, IfDevice, UndamagedWhere};
ghost use Rattle.blk_object.specs.FailedChecks.{IsFailedCheck};
ghost use Rattle.blk_cache.specs.SparseAsking.{FindsInside, IsAmongFiles, early_sparse_refusal, AsksSparse};
ghost use Rattle.blk_cache.specs.declared.sparse_asking.AskedSparse.TheVariants as asked;
ghost use Rattle.blk_cache.specs.CommandClauses.{KeepsAny};

use crate::cache::Cache;
use blk_addr::Addr;
use blk_entry::{Head, read_head};
use blk_io::{Fault, Folder};
use blk_model::Refusal;
use blk_ranges::PART_SIZE;
use blk_sparse::{Parent, read_signature};

// The flags of the record of a sparse object.
const SPARSE: u32 = 1;

/// Where sparse data ends.
pub(crate) const LARGEST_OFFSET: u64 = 68_719_476_736;

/// A live plain object: its record and node, and whether it has no bytes in its second and its third stream.
#[derive(Clone, Copy)]
pub(crate) struct PlainObject {
    pub(crate) entry: Addr,
    pub(crate) node: Addr,
    pub(crate) one_stream: bool,
}

/// The live object that a request on sparse data names, or why there is none.
#[derive(Clone, Copy)]
pub(crate) enum AskedSparse {
    Refused(Refusal),
    Plain(PlainObject),
    Parent(Parent),
}

impl Cache {
    /// The live object that a handle names, for so many bytes of sparse data from an offset on. Nothing is written.
    ///
    /// It is refused with `BadHandle` where the name is free, or 4096 or more, `TooLarge` where there are more than 1048576
    /// bytes, `RangeEnd` where they end after 68719476736, and `Doomed` where the object is doomed, the first of these:
    /// each is decided before any folder call. One folder call reads the record, and two more the index of a sparse object.
    pub(crate) fn ask_sparse<F: Folder>(
        &self,
        folder: &mut F,
        handle: u16,
        offset: u64,
        count: u64,
    ) -> Result<AskedSparse, Fault>
        ensures asked { IfOk result (AsksSparse self.now (F.told folder.old) handle offset count) }
        ensures early { IfSome (early_sparse_refusal self.now.handles handle offset count) (λ why. result ≡ Ok (asked.Refused why)) }

        // On every folder.
        ensures stands { IfOk result (IsAmongFiles self.now.files) }
        ensures inside { IfOk result (FindsInside (early_sparse_refusal self.now.handles handle offset count) offset count) }
        ensures reads { ReadsOnly F.told F.faults folder.old folder.new (IfDevice result) }

        // Corruption is a check that fails on what is read here. An observable folder gives none where the cache keeps a state.
        ensures damaged { IfDamaged result (IsFailedCheck self.now.files (F.told folder.new)) }
        ensures untold { UndamagedWhere result (F.told folder.old) (KeepsAny self.now) }
    {
        if let Some(why) = self.refuses_range(handle, offset, count) {
            return Ok(AskedSparse::Refused(why));
        }
        let Some(object) = self.handles.object(handle) else {
            unreachable!();
        };
        let head = read_head(folder, &self.files, object.entry)?;
        if head.flags == SPARSE {
            let signature = read_signature(folder, &self.files, object.entry)?;
            return Ok(AskedSparse::Parent(Parent {
                entry: object.entry,
                node: object.node,
                signature,
            }));
        }
        Ok(AskedSparse::Plain(PlainObject {
            entry: object.entry,
            node: object.node,
            one_stream: has_one_stream(&head),
        }))
    }

    // Why there is no live object for a range, by what is kept in memory.
    fn refuses_range(&self, handle: u16, offset: u64, count: u64) -> Option<Refusal>
        ensures { result ≡ early_sparse_refusal self.now.handles handle offset count }
    {
        let Some(object) = self.handles.object(handle) else {
            return Some(Refusal::BadHandle);
        };
        if count > u64::from(PART_SIZE) {
            return Some(Refusal::TooLarge);
        }
        if offset > LARGEST_OFFSET - count {
            return Some(Refusal::RangeEnd);
        }
        if object.doomed {
            return Some(Refusal::Doomed);
        }
        None
    }
}

// Whether a record has no bytes in its second and its third stream.
fn has_one_stream(head: &Head) -> bool
    ensures { result ≡ (slice_index head.now.sizes 1 == 0 && slice_index head.now.sizes 2 == 0) }
{
    head.sizes[1] == 0 && head.sizes[2] == 0
}
