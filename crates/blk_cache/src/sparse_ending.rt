// The end of a SparseWrite: its object is dirty, and then the bytes are stored and counted.
ghost use Rattle.std.specs.Prelude.{◌≡◌, ◌≤◌, ◌<◌, ◌+◌, IfOk, IsSome, OnOk, length};
ghost use Rattle.std.specs.Option.{ForSome};
ghost use Rattle.spec_image.specs.Told.{MayWrite};
ghost use Rattle.blk_io.specs.Faults.{IfDamaged, IfDevice, UndamagedWhere};
ghost use Rattle.blk_model.specs.Sizes.{largest_offset, part_size, signatures};
ghost use Rattle.blk_model.specs.declared.Answer.TheVariants as answer;
ghost use Rattle.blk_disk.specs.Open.{IsOpen};
ghost use Rattle.blk_handles.specs.Bindings.{binding_of};
ghost use Rattle.blk_object.specs.FailedChecks.{IsFailedCheck};
ghost use Rattle.blk_sparse.specs.SparseWrites.{signature_to};
ghost use Rattle.blk_cache.specs.SparseWriting.{CountsParts, IsReadyToStoreForSome, KeepsToStoreFor, own_target, ForReadyStore, ForStoring, StoredBy, StoringBy};
ghost use Rattle.blk_cache.specs.CommandClauses.{EndedBy, EndingBy};

use crate::cache::Cache;
use crate::sparse_writing::SparseRequest;
use blk_handles::OpenObject;
use blk_io::{Fault, Folder};
use blk_model::Answer;
use blk_sparse::{Counted, Parent, SparseBytes, Target, store_sparse};

/// The cost of the index of the parts of a sparse object, in bytes.
pub(crate) const PARTS_INDEX: u64 = 8256;

impl Cache {
    /// Ends a SparseWrite that isn't refused, after its evictions: its object is dirty, and then gets the bytes, which add so many bytes of cost and so many
    /// items.
    pub(crate) fn end_sparse_write<F: Folder>(
        &mut self,
        folder: &mut F,
        request: &SparseRequest,
        target: &Target,
        more_bytes: u64,
        more_items: u64,
    ) -> Result<Answer, Fault>
        requires bound { IsSome (binding_of self.old.handles request.now.handle) }
        requires signature { signature_to target.now < signatures }
        requires some { 1 ≤ length request.now.bytes.now }
        requires few { length request.now.bytes.now ≤ part_size }
        requires inside { request.now.offset + length request.now.bytes.now ≤ largest_offset }
        requires is_open { ForSome (F.told folder.old).files (IsOpen self.old.files) }

        // The SparseWrite is done, whatever state it began with, and after each single write the folder is as a crash in it may leave it.
        ensures does { ForReadyStore self.old (F.told folder.old) request.now target.now more_bytes more_items (EndedBy self.new (F.told folder.new) result) }
        ensures stops { ForReadyStore self.old (F.told folder.old) request.now target.now more_bytes more_items (EndingBy (F.told folder.new)) }

        ensures wrote { IfOk result (λ given. given ≡ answer.Wrote (length request.now.bytes.now)) }
        ensures notes { self.new.notes ≡ self.old.notes }
        ensures mark { self.new.mark ≡ self.old.mark }
        ensures is_open { OnOk result (ForSome (F.told folder.new).files (IsOpen self.new.files)) }
        ensures damaged { IfDamaged result (IsFailedCheck self.new.files (F.told folder.new)) }
        ensures untold { UndamagedWhere result (F.told folder.old) (IsReadyToStoreForSome self.old request.now target.now more_bytes more_items) }
        ensures writes { MayWrite F.told F.faults folder.old folder.new (IfDevice result) }
    {
        self.set_dirty(folder, request.handle, true)?;
        self.store_to_dirty(folder, request, target, more_bytes, more_items)?;
        Ok(Answer::Wrote(request.bytes.len() as u64))
    }

    // Writes sparse data to a dirty object, and counts what is added in the index.
    fn store_to_dirty<F: Folder>(
        &mut self,
        folder: &mut F,
        request: &SparseRequest,
        target: &Target,
        more_bytes: u64,
        more_items: u64,
    ) -> Result<(), Fault>
        requires bound { IsSome (binding_of self.old.handles request.now.handle) }
        requires signature { signature_to target.now < signatures }
        requires some { 1 ≤ length request.now.bytes.now }
        requires few { length request.now.bytes.now ≤ part_size }
        requires inside { request.now.offset + length request.now.bytes.now ≤ largest_offset }
        requires is_open { ForSome (F.told folder.old).files (IsOpen self.old.files) }

        // In the end each state that was kept, whose object can get them, is kept with them, and with its items in front.
        ensures stored { ForStoring self.old (F.told folder.old) request.now target.now more_bytes more_items (StoredBy self.new (F.told folder.new) result) }

        // At each word the old durable contents are recovered.
        ensures stops { ForStoring self.old (F.told folder.old) request.now target.now more_bytes more_items (StoringBy (F.told folder.new)) }

        ensures notes { self.new.notes ≡ self.old.notes }
        ensures mark { self.new.mark ≡ self.old.mark }
        ensures is_open { OnOk result (ForSome (F.told folder.new).files (IsOpen self.new.files)) }
        ensures damaged { IfDamaged result (IsFailedCheck self.new.files (F.told folder.new)) }
        ensures untold { UndamagedWhere result (F.told folder.old) (KeepsToStoreFor self.old request.now target.now more_bytes more_items) }
        ensures writes { MayWrite F.told F.faults folder.old folder.new (IfDevice result) }
    {
        let Some(object) = self.handles.object(request.handle) else {
            unreachable!();
        };
        let own = own_target(&object, target);
        let data = SparseBytes {
            offset: request.offset,
            bytes: request.bytes,
        };
        let more = Counted {
            entries: more_items,
            charge: more_bytes,
        };
        store_sparse(
            folder,
            &mut self.files,
            &own,
            &mut self.name,
            data,
            more,
            request.moment,
        )?;
        self.count_parts(target, more_bytes, more_items);
        Ok(())
    }

    // Counts what was added in the cache: so many bytes and items, and the index of an object that was plain.
    fn count_parts(&mut self, target: &Target, more_bytes: u64, more_items: u64)
        ensures counts { CountsParts self.old self.new target.now more_bytes more_items }
    {
        self.items = self.items.saturating_add(more_items);
        self.bytes = self.bytes.saturating_add(more_bytes);
        let index = if target.plain { PARTS_INDEX } else { 0 };
        self.open_bytes = self.open_bytes.saturating_add(index);
    }
}

// The target with the record and the node of an open object.
fn own_target(object: &OpenObject, target: &Target) -> Target
    ensures { result ≡ own_target object.now.node object.now.entry target.now }
{
    Target {
        parent: Parent {
            entry: object.entry,
            node: object.node,
            signature: target.parent.signature,
        },
        plain: target.plain,
    }
}
