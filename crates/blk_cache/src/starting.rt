// A cache is opened.
ghost use Rattle.std.specs.Prelude.{◌≡◌, IfOk, OnOk};
ghost use Rattle.std.specs.Option.{ForSome};
ghost use Rattle.spec_image.specs.Told.{Stays, MayWrite, LeavesFrom};
ghost use Rattle.spec_format.specs.BlockFiles.{IsDamagedBy, IsUsable};
ghost use Rattle.spec_format.specs.Headers.{IsUnfinished};
ghost use Rattle.blk_io.specs.Faults.{damage_of};
ghost use Rattle.blk_cache.specs.BoundNames.{AreAllFree};
ghost use Rattle.blk_cache.specs.Opened.{IsOpeningDamage};
ghost use Rattle.blk_cache.specs.Opening.{IfOpenDamaged, IfOpenDevice, IfOpenMemory, OpensFolder, OpensOrBreaksOff, WasMadeAt, IsInNextSession, KeepsOpened};

use crate::cache::Cache;
use crate::fault::OpenFault;
use crate::names::take_memory;
use crate::opening::open_folder;
use blk_io::Folder;
use blk_model::Limits;
use std::alloc::Global;

impl Cache {
    /// Opens the folder for a session. An uninitialized one is made, and the moment, in microseconds since 1970 UTC, is kept
    /// in it; any other is checked and recovered, so that it keeps its recovered contents. No handle name is bound.
    ///
    /// The last step makes the crash word 1, in a session with the next number, which is 1 where the folder was made. An opening
    /// may crash anywhere and be begun again.
    ///
    /// # Errors
    ///
    /// `Damaged` with the first check of the index and of the block files that fails. An observable folder that is neither
    /// uninitialized nor well formed, as with `Damaged`, is left as it is, whatever is answered. `Memory` when out of memory,
    /// before anything was written: a session takes no memory later. `Device` where the folder failed in this call.
    pub fn start<F: Folder>(
        alloc: Global,
        f: &mut F,
        limits: Limits,
        moment: u64,
    ) -> Result<Cache, OpenFault>
        ensures keeps { IfOk result (λ cache. LeavesFrom (F.told f.old) (F.told f.new) (KeepsOpened cache limits)) }
        ensures free { IfOk result (λ cache. AreAllFree cache.handles) }
        ensures notes { IfOk result (λ cache. cache.notes ≡ 0) }
        ensures checked { OnOk result (ForSome (F.told f.old).files IsUsable) }
        ensures session { OnOk result (LeavesFrom (F.told f.old) (F.told f.new) IsInNextSession) }

        // A folder that was uninitialized has the moment as its creation time.
        ensures made { OnOk result (ForSome (F.told f.old).files (λ from. IsUnfinished from → ForSome (F.told f.new).files (WasMadeAt moment))) }

        // At each word recovery gives what it gave before, and the folder is uninitialized or well formed where it was. The step that
        // marks the session as open is the last, and where it was made the folder represents the state opened on that, in the next
        // session, whatever is answered.
        ensures stops { ForSome (F.told f.old).files (λ from. OpensOrBreaksOff from (F.told f.old) (F.told f.new)) }
        ensures last { OnOk result (ForSome (F.told f.old).files (λ from. OpensFolder from (F.told f.old) (F.told f.new))) }

        // An observable folder reports corruption only where a check of its headers fails, and the first one.
        ensures damaged { IfOpenDamaged result (IsOpeningDamage (F.told f.new)) }
        ensures first { IfOpenDamaged result (λ damage. ForSome (F.told f.old).files (IsDamagedBy (damage_of damage))) }

        // A folder that is neither uninitialized nor well formed is left as it is, whatever is answered.
        ensures unwritten { ForSome (F.told f.old).files (λ from. (IsUsable from → ⊥) → Stays (F.told f.old) (F.told f.new)) }
        ensures memory { IfOpenMemory result (Stays (F.told f.old) (F.told f.new)) }

        ensures writes { MayWrite F.told F.faults f.old f.new (IfOpenDevice result) }
    {
        let names = take_memory(alloc)?;
        let opened = open_folder(alloc, f, moment)?;
        Ok(Cache {
            limits,
            items: opened.items,
            bytes: opened.bytes,
            open_bytes: 0,
            handles: names.handles,
            files: opened.files,
            mark: opened.mark,
            notes: 0,
            name: names.room,
        })
    }
}
