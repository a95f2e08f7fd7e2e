// The command Flush.
ghost use Rattle.std.specs.Prelude.{◌≡◌, IfOk, IfSome, Ok};
ghost use Rattle.std.specs.Option.{ForSome};
ghost use Rattle.spec_image.specs.Told.{Stays, MayWrite};
ghost use Rattle.blk_io.specs.Faults.{IfDamaged, IfDevice, UndamagedWhere};
ghost use Rattle.blk_model.specs.Request.{to_flush};
ghost use Rattle.blk_model.specs.declared.Answer.TheVariants as answer;
ghost use Rattle.blk_disk.specs.Open.{IsOpen};
ghost use Rattle.blk_object.specs.FailedChecks.{IsFailedCheck};
ghost use Rattle.blk_cache.specs.CommandClauses.{DoneBy, IsRefused, KeepsAny, SparedBy, StaysIfClean, StopsBy, AtAnyMoment};
ghost use Rattle.blk_cache.specs.Dooming.{doom_refusal};

use crate::cache::Cache;
use blk_io::{Fault, Folder};
use blk_model::{Answer, Refusal};

impl Cache {
    /// Makes the object that a handle names clean: where it is dirty its dirty flag becomes 0. That is last of all, since
    /// each command has written all else of the object and its parts.
    ///
    /// It is refused with `BadHandle` where the name is free, or 4096 or more, and `Doomed` where its object is doomed.
    /// One of a dirty object takes three folder calls, and any other none. After a fault nothing is promised of the cache but
    /// that it can be dropped.
    pub(crate) fn flush<F: Folder>(&mut self, folder: &mut F, handle: u16) -> Result<Answer, Fault>
        requires is_open { ForSome (F.told folder.old).files (IsOpen self.old.files) }
        ensures does { AtAnyMoment self.old (F.told folder.old) (to_flush handle) (DoneBy self.new (F.told folder.new) result) }
        ensures stops { AtAnyMoment self.old (F.told folder.old) (to_flush handle) (StopsBy (F.told folder.new)) }

        // A refusal that the handles alone decide is given on every folder, and a refusal does nothing.
        ensures refuses { IfSome (doom_refusal self.old.handles handle) (λ why. result ≡ Ok (answer.Refused why)) }
        ensures quiet { IfOk result (λ answer. IsRefused answer → Stays (F.told folder.old) (F.told folder.new)) }
        ensures unchanged { IfOk result (λ answer. IsRefused answer → self.new ≡ self.old) }

        // A Flush of a clean object does nothing either.
        ensures idle { StaysIfClean self.old (F.told folder.old) (F.told folder.new) (to_flush handle) }

        ensures spares { AtAnyMoment self.old (F.told folder.old) (to_flush handle) (SparedBy (F.told folder.new) result) }
        ensures is_open { ForSome (F.told folder.new).files (IsOpen self.new.files) }
        ensures notes { self.new.notes ≡ self.old.notes }
        ensures mark { self.new.mark ≡ self.old.mark }

        // Corruption is a check that fails on what is read here; nothing is written after it.
        ensures damaged { IfDamaged result (IsFailedCheck self.new.files (F.told folder.new)) }

        // An observable folder reports no corruption where the cache keeps a state.
        ensures untold { UndamagedWhere result (F.told folder.old) (KeepsAny self.old) }
        ensures writes { MayWrite F.told F.faults folder.old folder.new (IfDevice result) }
    {
        let Some(object) = self.handles.object(handle) else {
            return Ok(Answer::Refused(Refusal::BadHandle));
        };
        if object.doomed {
            return Ok(Answer::Refused(Refusal::Doomed));
        }
        self.set_dirty(folder, handle, false)?;
        Ok(Answer::Done)
    }
}
