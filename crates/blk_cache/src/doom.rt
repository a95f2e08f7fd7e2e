// The command Doom.
ghost use Rattle.std.specs.Prelude.{◌≡◌, IfOk, IfSome, IsTrue, Ok, OnOk};
ghost use Rattle.std.specs.Option.{ForSome};
ghost use Rattle.spec_image.specs.Told.{Stays, MayWrite, ForTold};
ghost use Rattle.blk_io.specs.Faults.{IfDamaged, IfDevice, UndamagedWhere};
ghost use Rattle.blk_model.specs.Request.{to_doom};
ghost use Rattle.blk_model.specs.declared.Answer.TheVariants as answer;
ghost use Rattle.blk_disk.specs.Open.{IsOpen};
ghost use Rattle.blk_disk.specs.Tables.{is_node_among, is_record_among};
ghost use Rattle.blk_object.specs.FailedChecks.{IsFailedCheck};
ghost use Rattle.blk_cache.specs.CommandClauses.{DoneBy, IsRefused, KeepsAny, SparedBy, StopsBy, AtAnyMoment};
ghost use Rattle.blk_cache.specs.Dooming.{CacheDoomedBy, CacheDoomingBy, CacheUndamagedAt, CountsDoomed, ForEachOpen, doom_refusal};

use crate::cache::Cache;
use crate::dooming_objects::doom_named;
use blk_addr::Addr;
use blk_io::{Fault, Folder};
use blk_model::{Answer, Refusal};
use blk_sparse::Gone;

impl Cache {
    /// Dooms the object that a handle names: its items leave the list and their chains, its parts are freed, and its record
    /// and its places stay until its last handle is closed.
    ///
    /// It is refused with `BadHandle` where the name is free, or 4096 or more, and `Doomed` where its object is doomed. An
    /// object without parts takes at most 39 folder calls where the search passes one record of its chain or none, and one
    /// more for each further one. After a fault nothing is promised of the cache but that it can be dropped.
    pub(crate) fn doom<F: Folder>(&mut self, folder: &mut F, handle: u16) -> Result<Answer, Fault>
        requires is_open { ForSome (F.told folder.old).files (IsOpen self.old.files) }
        ensures does { AtAnyMoment self.old (F.told folder.old) (to_doom handle) (DoneBy self.new (F.told folder.new) result) }
        ensures stops { AtAnyMoment self.old (F.told folder.old) (to_doom handle) (StopsBy (F.told folder.new)) }

        // A refusal that the handles alone decide is given on every folder, and a refusal does nothing.
        ensures refuses { IfSome (doom_refusal self.old.handles handle) (λ why. result ≡ Ok (answer.Refused why)) }
        ensures quiet { IfOk result (λ answer. IsRefused answer → Stays (F.told folder.old) (F.told folder.new)) }
        ensures unchanged { IfOk result (λ answer. IsRefused answer → self.new ≡ self.old) }

        ensures spares { AtAnyMoment self.old (F.told folder.old) (to_doom handle) (SparedBy (F.told folder.new) result) }
        ensures is_open { ForSome (F.told folder.new).files (IsOpen self.new.files) }
        ensures notes { self.new.notes ≡ self.old.notes }
        ensures mark { self.new.mark ≡ self.old.mark }

        // Corruption is a check that fails on what is read here; nothing is written after it.
        ensures damaged { IfDamaged result (IsFailedCheck self.new.files (F.told folder.new)) }

        // An observable folder reports no corruption where the cache keeps a state.
        ensures untold { UndamagedWhere result (F.told folder.old) (KeepsAny self.old) }
        ensures writes { MayWrite F.told F.faults folder.old folder.new (IfDevice result) }
    {
        let Some(object) = self.handles.object(handle) else {
            return Ok(Answer::Refused(Refusal::BadHandle));
        };
        if object.doomed {
            return Ok(Answer::Refused(Refusal::Doomed));
        }
        self.doom_open(folder, object.entry, object.node)?;
        Ok(Answer::Done)
    }

    // Dooms a live object that a handle names, by its record and its node.
    fn doom_open<F: Folder>(&mut self, folder: &mut F, entry: Addr, node: Addr) -> Result<(), Fault>
        requires names { IsTrue (is_record_among self.old.files entry) }
        requires node { IsTrue (is_node_among self.old.files node) }
        requires is_open { ForSome (F.told folder.old).files (IsOpen self.old.files) }
        ensures dooms { OnOk result (ForTold (F.told folder.old) (ForEachOpen self.old node entry) (CacheDoomedBy self.new (F.told folder.new))) }
        ensures stops { ForTold (F.told folder.old) (ForEachOpen self.old node entry) (CacheDoomingBy (F.told folder.old) (F.told folder.new)) }
        ensures is_open { ForSome (F.told folder.new).files (IsOpen self.new.files) }
        ensures notes { self.new.notes ≡ self.old.notes }
        ensures mark { self.new.mark ≡ self.old.mark }
        ensures damaged { IfDamaged result (IsFailedCheck self.new.files (F.told folder.new)) }
        ensures untold { ForTold (F.told folder.old) (ForEachOpen self.old node entry) (CacheUndamagedAt result (F.told folder.old)) }
        ensures writes { MayWrite F.told F.faults folder.old folder.new (IfDevice result) }
    {
        let gone = doom_named(folder, &self.files, &mut self.name, entry, node)?;
        self.count_doomed(entry, &gone);
        Ok(())
    }

    /// Subtracts what was removed of a doomed object from the cache's counters, and marks the object as doomed for its handles.
    pub(crate) fn count_doomed(&mut self, entry: Addr, gone: &Gone)
        ensures counts { CountsDoomed self.old self.new entry gone.now }
    {
        self.handles.doom_entry(entry);
        self.items = self.items.saturating_sub(gone.items);
        self.bytes = self.bytes.saturating_sub(gone.bytes);
    }
}
