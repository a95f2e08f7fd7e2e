// All handles in use are closed.
ghost use Rattle.std.specs.Prelude.{◌≡◌, ◌≤◌, ◌*◌, OnOk, None, is_some, position, Some};
ghost use Rattle.std.specs.Option.{ForSome};
ghost use Rattle.spec_image.specs.Told.{Rises};
ghost use Rattle.blk_io.specs.Faults.{IfDamaged, IfDevice};
ghost use Rattle.blk_model.specs.Sizes.{handle_names};
ghost use Rattle.blk_object.specs.FailedChecks.{IsFailedCheck};
ghost use Rattle.blk_run.specs.Closings.{ClosesAll};
ghost use Rattle.blk_disk.specs.Open.{IsOpen};
ghost use Rattle.blk_cache.specs.CacheKeeping.{KeepsState};
ghost use Rattle.blk_run.specs.RunClauses.{FromHere};

use blk_cache::Cache;
use blk_io::{Clock, Fault, Folder};

// Closes each handle in use, the least first. The clock is read once for each.
pub(crate) fn close_all<F: Folder, C: Clock>(
    cache: &mut Cache,
    folder: &mut F,
    clock: &mut C,
) -> Result<(), Fault>
    requires is_open { ForSome (F.told folder.old).files (IsOpen cache.old.files) }
    ensures closed { FromHere (C.readings clock.old) (C.readings clock.new) cache.old (F.told folder.old) (2 * handle_names) (λ far left early late.
        ClosesAll result far (KeepsState cache.new) (cache.new.notes) left (F.told folder.new) (Some early) (Some late)) }
    ensures free { OnOk result (position is_some (cache.new.handles) ≡ None) }
    ensures is_open { OnOk result (ForSome (F.told folder.new).files (IsOpen cache.new.files)) }
    ensures later { F.faults folder.old ≤ F.faults folder.new }
    ensures damaged { IfDamaged result (IsFailedCheck cache.new.files (F.told folder.new)) }
    ensures device { IfDevice result (Rises (F.faults folder.old) (F.faults folder.new)) }
{
    while cache.has_names() {
        cache.close_next(folder, clock.now())?;
    }
    Ok(())
}
