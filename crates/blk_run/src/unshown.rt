// Commands whose replies aren't shown.
ghost use Rattle.std.specs.Prelude.{false, ◌≤◌, None, Some};
ghost use Rattle.std.specs.Option.{ForSome};
ghost use Rattle.spec_image.specs.Told.{Rises};
ghost use Rattle.blk_model.specs.Request.{request_of};
ghost use Rattle.blk_object.specs.FailedChecks.{IsFailedCheck};
ghost use Rattle.blk_cache.specs.Stepping.{IfDone, IfSink, IfStepDamaged, IfStepDevice};
ghost use Rattle.blk_run.specs.Playing.{Asks, around, has_refused};
ghost use Rattle.blk_disk.specs.Open.{IsOpen};
ghost use Rattle.blk_cache.specs.CacheKeeping.{KeepsState};
ghost use Rattle.blk_run.specs.RunClauses.{FromHere};

use crate::playing::ask;
use blk_cache::{Cache, StepFault};
use blk_io::{Clock, Failed, Folder, Sink};
use blk_model::{Answer, Command};

// Does a command, at the next reading of the clock, and prints nothing.
pub(crate) fn ask_unshown<F: Folder, C: Clock>(
    cache: &mut Cache,
    command: &Command,
    folder: &mut F,
    clock: &mut C,
) -> Result<Answer, StepFault>
    requires is_open { ForSome (F.told folder.old).files (IsOpen cache.old.files) }
    ensures asked { FromHere (C.readings clock.old) (C.readings clock.new) cache.old (F.told folder.old) 2 (λ far left early late.
        Asks result (request_of command.now) far (KeepsState cache.new) (cache.new.notes) left
        (around (F.told folder.old) None (Some early) false) (around (F.told folder.new) None (Some late) (has_refused result))) }
    ensures is_open { IfDone result (ForSome (F.told folder.new).files (IsOpen cache.new.files)) }
    ensures later { F.faults folder.old ≤ F.faults folder.new }
    ensures damaged { IfStepDamaged result (IsFailedCheck cache.new.files (F.told folder.new)) }
    ensures device { IfStepDevice result (Rises (F.faults folder.old) (F.faults folder.new)) }
    ensures no_sink { IfSink result ⊥ }
{
    ask(cache, command, &mut Unshown, folder, clock)
}

// An opaque output, for replies that aren't shown.
#[derive(Drop)]
struct Unshown;

impl Sink for Unshown {
    ghost use Rattle.std.specs.Prelude.{[], None, false};

    ghost is = { λ _. [] };

    ghost written = { λ _. None };

    ghost waiting = { λ _. false };

    ghost faults = { λ _. 0 };

    fn put(&mut self, _bytes: &[u8]) -> Result<(), Failed> {
        Ok(())
    }

    fn flush(&mut self) -> Result<(), Failed> {
        Ok(())
    }
}
