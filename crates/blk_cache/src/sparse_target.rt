// The object that a SparseWrite writes to.
ghost use Rattle.std.specs.Prelude.{◌≡◌, IfOk, IfSome, Ok, length};
ghost use Rattle.spec_image.specs.Told.{ReadsOnly};
ghost use Rattle.blk_io.specs.Faults.{IfDamaged, IfDevice, UndamagedWhere};
ghost use Rattle.blk_object.specs.FailedChecks.{IsFailedCheck};
ghost use Rattle.blk_cache.specs.declared.sparse_target.AskedTarget.TheVariants as target;
ghost use Rattle.blk_cache.specs.CommandClauses.{KeepsAny};
ghost use Rattle.blk_cache.specs.SparseAsking.{early_sparse_refusal};
ghost use Rattle.blk_cache.specs.SparseTargets.{asked_plain, asked_target, AsksTarget, FindsTargetIn};

use crate::cache::Cache;
use crate::sparse_asking::{AskedSparse, PlainObject};
use blk_io::{Fault, Folder};
use blk_model::Refusal;
use blk_sparse::{Parent, Target};

// A generation is a moment below this.
const SIGNATURES: u64 = 1 << 63;

/// The object that a SparseWrite names, or why it is refused, but for lack of space.
#[derive(Clone, Copy)]
pub(crate) enum AskedTarget {
    Refused(Refusal),
    Found(Target),
}

impl Cache {
    /// The object that a handle names, for some bytes of sparse data from an offset on; a plain one gets the moment as its
    /// generation. Nothing is written.
    ///
    /// The request is refused as by `ask_sparse`, and then with `NotSparse` where the object is plain and has bytes in stream 1 or 2.
    pub(crate) fn ask_target<F: Folder>(
        &self,
        folder: &mut F,
        handle: u16,
        offset: u64,
        bytes: &[u8],
        moment: u64,
    ) -> Result<AskedTarget, Fault>
        ensures asked { IfOk result (AsksTarget self.now (F.told folder.old) moment handle offset bytes.now) }
        ensures early { IfSome (early_sparse_refusal self.now.handles handle offset (length bytes.now)) (λ why. result ≡ Ok (target.Refused why)) }

        // On every folder.
        ensures finds { IfOk result (FindsTargetIn self.now handle offset (length bytes.now)) }
        ensures reads { ReadsOnly F.told F.faults folder.old folder.new (IfDevice result) }

        // Corruption is a check that fails on what is read here. An observable folder gives none where the cache keeps a state.
        ensures damaged { IfDamaged result (IsFailedCheck self.now.files (F.told folder.new)) }
        ensures untold { UndamagedWhere result (F.told folder.old) (KeepsAny self.now) }
    {
        let asked = self.ask_sparse(folder, handle, offset, bytes.len() as u64)?;
        Ok(asked_target(asked, moment))
    }
}

// What a SparseWrite writes to, by what its handle names, or why it is refused.
fn asked_target(asked: AskedSparse, moment: u64) -> AskedTarget
    ensures { result ≡ asked_target moment asked }
{
    match asked {
        AskedSparse::Refused(why) => AskedTarget::Refused(why),
        AskedSparse::Plain(found) => asked_plain(&found, moment),
        AskedSparse::Parent(parent) => AskedTarget::Found(Target {
            parent,
            plain: false,
        }),
    }
}

// A plain object gets sparse data if it has no bytes in stream 1 or 2.
fn asked_plain(found: &PlainObject, moment: u64) -> AskedTarget
    ensures { result ≡ asked_plain moment found.now }
{
    if !found.one_stream {
        return AskedTarget::Refused(Refusal::NotSparse);
    }
    AskedTarget::Found(Target {
        parent: Parent {
            entry: found.entry,
            node: found.node,
            signature: (moment % SIGNATURES).cast_signed(),
        },
        plain: true,
    })
}
