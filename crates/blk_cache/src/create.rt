// A new object in a cache.
ghost use Rattle.std.specs.Prelude.{◌≡◌, ◌≤◌, ◌<◌, ℕ, IfOk, IfSome, None, Ok, OnOk, Option, Some, false, length, true};
ghost use Rattle.std.specs.Option.{ForSome};
ghost use Rattle.spec_image.specs.Told.{Stays, Told, MayWrite, ReadsOnly};
ghost use Rattle.blk_io.specs.Faults.{IfDamaged, IfDevice, UndamagedWhere, OkFor};
ghost use Rattle.blk_io.specs.Streams.{GoesOn};
ghost use Rattle.blk_model.specs.Refusals.{refused};
ghost use Rattle.blk_model.specs.Request.{to_create};
ghost use Rattle.blk_model.specs.Sizes.{handle_names, longest_key};
ghost use Rattle.blk_model.specs.declared.Answer.TheVariants as answer;
ghost use Rattle.blk_disk.specs.Open.{IsOpen};
ghost use Rattle.blk_handles.specs.Bindings.{binding_of};
ghost use Rattle.law_state.specs.Commands.{MayStopAtEach};
ghost use Rattle.blk_object.specs.FailedChecks.{IsFailedCheck};
ghost use Rattle.blk_cache.specs.CacheKeeping.{HoldsState};
ghost use Rattle.blk_cache.specs.CommandClauses.{DoneBy, ForCall, IsRefused, KeepsAny, SparedBy, StopsBy, UndamagedBy, open_refusal};
ghost use Rattle.blk_cache.specs.Creating.{WhereNotRefused, WhereWantsRoom, AnswersFull, DecidesCreate, ForCreates, ForWantingRoom, NeverRefused};
ghost use Rattle.blk_evict.specs.Looking.{IsLookUpDamage};
ghost use Rattle.blk_evict.specs.RoomPrinting.{FailsWhereItRose};
ghost use Rattle.blk_cache.specs.Stepping.{FrontBy, SaidBy, EvictsNoLines, NoLinesYet};

use crate::cache::Cache;
use crate::covered::Covered;
use blk_evict::find_live;
use blk_io::{Fault, Folder, Sink};
use blk_model::{Answer, Refusal};

impl Cache {
    /// Makes a new object with a key, to which it gives a handle name, once there is space for it; what is evicted for
    /// that is printed as it is removed.
    ///
    /// It is refused with `BadKey` where the key has no bytes or more than 32768, `BadHandle` where the name is 4096 or
    /// more, `HandleBusy` where it is bound, `Exists` where a live object has the key, and `Full` where the open objects
    /// and what is added exceed a limit, the first of these. After a fault nothing is promised of the cache but that it can
    /// be dropped.
    pub(crate) fn create<F: Folder, K: Sink>(
        &mut self,
        folder: &mut F,
        out: &mut K,
        failed: &mut bool,
        handle: u16,
        key: &[u8],
        moment: u64,
    ) -> Result<Answer, Fault>
        requires is_open { ForSome (F.told folder.old).files (IsOpen self.old.files) }
        ensures does { ForCall self.old (F.told folder.old) moment (to_create handle key.now) (DoneBy self.new (F.told folder.new) result) }
        ensures stops { ForCall self.old (F.told folder.old) moment (to_create handle key.now) (StopsBy (F.told folder.new)) }

        // What it evicts is printed, and on any answer a prefix of that.
        ensures says { ForCall self.old (F.told folder.old) moment (to_create handle key.now) (SaidBy failed.old failed.new K.written out.old out.new result) }
        ensures front { ForCall self.old (F.told folder.old) moment (to_create handle key.now) (FrontBy K.written out.old out.new) }
        ensures fails { FailsWhereItRose failed.old failed.new (K.faults out.old) (K.faults out.new) }

        // A refusal that the handles and the key alone decide is given on every folder, and a refusal does nothing.
        ensures refuses { IfSome (open_refusal self.old.handles handle key.now) (λ why. result ≡ Ok (answer.Refused why)) }
        ensures quiet { IfOk result (λ answer. IsRefused answer → Stays (F.told folder.old) (F.told folder.new)) }
        ensures unchanged { IfOk result (λ answer. IsRefused answer → self.new ≡ self.old) }

        ensures spares { ForCall self.old (F.told folder.old) moment (to_create handle key.now) (SparedBy (F.told folder.new) result) }
        ensures is_open { OnOk result (ForSome (F.told folder.new).files (IsOpen self.new.files)) }
        ensures notes { self.new.notes ≡ self.old.notes }
        ensures mark { self.new.mark ≡ self.old.mark }

        // Corruption is a check that fails on what is read here; nothing is written after it.
        ensures damaged { IfDamaged result (IsFailedCheck self.new.files (F.told folder.new)) }

        // An observable folder reports no corruption where the cache keeps a state.
        ensures untold { UndamagedWhere result (F.told folder.old) (KeepsAny self.old) }
        ensures writes { MayWrite F.told F.faults folder.old folder.new (IfDevice result) }
        ensures sink_later { GoesOn K.is K.faults out.old out.new }
    {
        if let Some(why) = self.refuses_create(folder, handle, key)? {
            return Ok(Answer::Refused(why));
        }
        self.create_where_room(folder, out, failed, handle, key, moment)
    }

    // Makes a new object where there is space for it, by a Create that is refused for nothing else.
    //
    // It is known whether there is space before anything is evicted, made or bound.
    fn create_where_room<F: Folder, K: Sink>(
        &mut self,
        folder: &mut F,
        out: &mut K,
        failed: &mut bool,
        handle: u16,
        key: &[u8],
        moment: u64,
    ) -> Result<Answer, Fault>
        requires some { 1 ≤ length key.now }
        requires most { length key.now ≤ longest_key }
        requires known { handle < handle_names }
        requires free { binding_of self.old.handles handle ≡ None }
        requires is_open { ForSome (F.told folder.old).files (IsOpen self.old.files) }

        // The Create is done as in the model, and after each single write the folder is as a crash in it may leave it.
        ensures does { WhereWantsRoom self.old (F.told folder.old) moment handle key.now (DoneBy self.new (F.told folder.new) result) }
        ensures stops { WhereWantsRoom self.old (F.told folder.old) moment handle key.now (StopsBy (F.told folder.new)) }

        // What it evicts is printed, and on any answer a prefix of that.
        ensures says { WhereWantsRoom self.old (F.told folder.old) moment handle key.now (SaidBy failed.old failed.new K.written out.old out.new result) }
        ensures front { WhereWantsRoom self.old (F.told folder.old) moment handle key.now (FrontBy K.written out.old out.new) }
        ensures fails { FailsWhereItRose failed.old failed.new (K.faults out.old) (K.faults out.new) }

        // A refusal does nothing.
        ensures quiet { IfOk result (λ answer. IsRefused answer → Stays (F.told folder.old) (F.told folder.new)) }
        ensures unchanged { IfOk result (λ answer. IsRefused answer → self.new ≡ self.old) }

        ensures spares { WhereWantsRoom self.old (F.told folder.old) moment handle key.now (SparedBy (F.told folder.new) result) }
        ensures is_open { OnOk result (ForSome (F.told folder.new).files (IsOpen self.new.files)) }
        ensures notes { self.new.notes ≡ self.old.notes }
        ensures mark { self.new.mark ≡ self.old.mark }
        ensures damaged { IfDamaged result (IsFailedCheck self.new.files (F.told folder.new)) }
        ensures untold { WhereWantsRoom self.old (F.told folder.old) moment handle key.now (UndamagedBy result) }
        ensures writes { MayWrite F.told F.faults folder.old folder.new (IfDevice result) }
        ensures sink_later { GoesOn K.is K.faults out.old out.new }
    {
        if self.has_no_room(key) {
            return Ok(Answer::Refused(Refusal::Full));
        }
        self.create_with_room(folder, out, failed, handle, key, moment)
    }

    // Whether there is no space for a new object with a key, by what is kept in memory.
    fn has_no_room(&self, key: &[u8]) -> bool
        // Where a Create needs nothing but space it is refused then, and a refusal does and prints nothing.
        ensures does { result ≡ true → ForWantingRoom self.now key.now AnswersFull }
        ensures says { result ≡ true → ForWantingRoom self.now key.now EvictsNoLines }
        ensures stops { (told : Told) (moment handle : ℕ) → MayStopAtEach (HoldsState self.now) told told moment (to_create handle key.now) }
        ensures front { ForCreates self.now key.now NoLinesYet }

        // Else it isn't refused.
        ensures passes { result ≡ false → ForWantingRoom self.now key.now NeverRefused }
    {
        self.is_full(key.len() as u64, 1, &Covered::none())
    }

    // Makes a new object by a Create that isn't refused, after its evictions.
    fn create_with_room<F: Folder, K: Sink>(
        &mut self,
        folder: &mut F,
        out: &mut K,
        failed: &mut bool,
        handle: u16,
        key: &[u8],
        moment: u64,
    ) -> Result<Answer, Fault>
        requires some { 1 ≤ length key.now }
        requires most { length key.now ≤ longest_key }
        requires known { handle < handle_names }
        requires free { binding_of self.old.handles handle ≡ None }
        requires is_open { ForSome (F.told folder.old).files (IsOpen self.old.files) }

        // The Create is done as in the model, and after each single write the folder is as a crash in it may leave it.
        ensures does { WhereNotRefused self.old (F.told folder.old) moment handle key.now (DoneBy self.new (F.told folder.new) result) }
        ensures stops { WhereNotRefused self.old (F.told folder.old) moment handle key.now (StopsBy (F.told folder.new)) }

        // What it evicts is printed, and on any answer a prefix of that.
        ensures says { WhereNotRefused self.old (F.told folder.old) moment handle key.now (SaidBy failed.old failed.new K.written out.old out.new result) }
        ensures front { WhereNotRefused self.old (F.told folder.old) moment handle key.now (FrontBy K.written out.old out.new) }
        ensures fails { FailsWhereItRose failed.old failed.new (K.faults out.old) (K.faults out.new) }

        // No refusal is possible here.
        ensures quiet { IfOk result (λ answer. IsRefused answer → Stays (F.told folder.old) (F.told folder.new)) }
        ensures unchanged { IfOk result (λ answer. IsRefused answer → self.new ≡ self.old) }

        ensures is_open { OnOk result (ForSome (F.told folder.new).files (IsOpen self.new.files)) }
        ensures notes { self.new.notes ≡ self.old.notes }
        ensures mark { self.new.mark ≡ self.old.mark }
        ensures damaged { IfDamaged result (IsFailedCheck self.new.files (F.told folder.new)) }
        ensures untold { WhereNotRefused self.old (F.told folder.old) moment handle key.now (UndamagedBy result) }
        ensures writes { MayWrite F.told F.faults folder.old folder.new (IfDevice result) }
        ensures sink_later { GoesOn K.is K.faults out.old out.new }
    {
        self.evict_for(folder, out, failed, key.len() as u64, 1, &Covered::none())?;
        self.end_create(folder, handle, key, moment)
    }

    // Why a Create is refused, but for lack of space: with `BadKey`, `BadHandle` or `HandleBusy`, by the key and the table of handles, or with `Exists` where a
    // live object has the key, the first of these. Nothing is written.
    pub(crate) fn refuses_create<F: Folder>(
        &self,
        folder: &mut F,
        handle: u16,
        key: &[u8],
    ) -> Result<Option<Refusal>, Fault>
        ensures refused { OkFor result (F.told folder.old) (DecidesCreate self.now handle key.now) }

        // A refusal that the handles and the key alone decide is given on every folder; where none is given they decide none.
        ensures refuses { IfSome (open_refusal self.now.handles handle key.now) (λ why. result ≡ Ok (Some why)) }
        ensures goes_on { IfOk result (λ early. early ≡ None → open_refusal self.now.handles handle key.now ≡ None) }
        ensures reads { ReadsOnly F.told F.faults folder.old folder.new (IfDevice result) }

        // An observable folder reports no corruption where the cache keeps a state.
        ensures damaged { IfDamaged result (IsLookUpDamage self.now.files (F.told folder.old) key.now) }
        ensures untold { ForSome (F.told folder.old).files (IsOpen self.now.files) → UndamagedWhere result (F.told folder.old) (KeepsAny self.now) }
    {
        if let Some(why) = self.refuses_open(handle, key) {
            return Ok(Some(why));
        }
        match find_live(folder, &self.files, key)? {
            Some(_) => Ok(Some(Refusal::Exists)),
            None => Ok(None),
        }
    }
}
