// Commands with their notes, and what they print.
ghost use Rattle.std.specs.Prelude.{◌≡◌, ◌≤◌, ◌+◌, ◌∷◌, [], IfOk, IfSome, None, OnErr, OnOk, is_some, position, slice_set, true};
ghost use Rattle.std.specs.Option.{ForSome};
ghost use Rattle.spec_image.specs.Steps.{Note};
ghost use Rattle.spec_image.specs.Told.{Applies, Rises, Stays};
ghost use Rattle.blk_io.specs.Faults.{IfDamaged, IfDevice, UndamagedWhere};
ghost use Rattle.blk_io.specs.Streams.{GoesOn};
ghost use Rattle.blk_model.specs.Request.{request_of};
ghost use Rattle.blk_model.specs.Step.{step};
ghost use Rattle.blk_disk.specs.Open.{IsOpen};
ghost use Rattle.law_state.specs.Commands.{note_number};
ghost use Rattle.blk_object.specs.FailedChecks.{IsFailedCheck};
ghost use Rattle.blk_cache.specs.CommandClauses.{DoneBy, ForCall, IsOnSparse, IsRefused, KeepsAny, OnlyNotesChange, SparedBy, StaysIfClean, StopsBy};
ghost use Rattle.blk_evict.specs.RoomPrinting.{FailsWhereItRose};
ghost use Rattle.blk_cache.specs.Stepping.{FrontBy, IfDone, IfSink, IfStepDamaged, IfStepDevice, SaidBy, AnsweredBy, ForNextClose, IdleBy, KeptBy, NotedBy, RefusedBy, SteppedBy, UnansweredBy, WritingBy, WrittenBy};

use crate::cache::Cache;
use crate::fault::StepFault;
use crate::sparse_reading::Wanted;
use crate::sparse_writing::SparseRequest;
use crate::write::WriteRequest;
use blk_io::{Fault, Folder, Sink};
use blk_model::{Answer, Command};

impl Cache {
    /// Does one command at a moment, in microseconds since 1970 UTC: what it evicts is printed as it is removed, all is
    /// written, it is noted that one command more is done, and then the reply is printed: the bytes of a Read or a
    /// SparseRead and the rows of a List as the folder has them then.
    ///
    /// A refusal is an answer, and changes nothing; its note is made too.
    ///
    /// # Errors
    ///
    /// `Sink` where the output failed in this call: the command is done all the same, and noted. `Device` where the folder
    /// failed, and `Damaged` where it is opaque and a check failed: then nothing is promised of the cache but that it can
    /// be dropped, and the folder may be opened again.
    pub fn step<F: Folder, K: Sink>(
        &mut self,
        f: &mut F,
        out: &mut K,
        moment: u64,
        command: &Command,
    ) -> Result<Answer, StepFault>
        requires is_open { ForSome (F.told f.old).files (IsOpen self.old.files) }

        // The answer is the model's, and the state after the command is kept, also where only the output failed.
        ensures answered { ForCall self.old (F.told f.old) moment (request_of command.now) (AnsweredBy result) }
        ensures kept { IfDone result (ForCall self.old (F.told f.old) moment (request_of command.now) (KeptBy self.new (F.told f.new))) }

        // The command is made in part with no note, or it is done and its note is the last step; the second is so where it is done.
        ensures stepped { ForCall self.old (F.told f.old) moment (request_of command.now) (SteppedBy (F.told f.new)) }
        ensures noted { IfDone result (ForCall self.old (F.told f.old) moment (request_of command.now) (NotedBy (F.told f.new))) }
        ensures counts { IfDone result (self.new.notes ≡ note_number (self.old.notes + 1)) }

        // The session has its number still.
        ensures session { IfDone result (self.new.mark ≡ self.old.mark) }

        // Where the answer is a refusal, the note is the only step: this needs no kept state.
        ensures alone { IfOk result (λ answer. IsRefused answer → Applies (F.told f.old) (F.told f.new) (Note (note_number (self.old.notes + 1)) ∷ [])) }

        // Where the model refuses the command in a kept state, only the note is made, also where only the output failed.
        ensures refused { IfDone result (ForCall self.old (F.told f.old) moment (request_of command.now) (RefusedBy (F.told f.new))) }

        // A Flush of a clean object makes its note alone.
        ensures idle { IfDone result (ForCall self.old (F.told f.old) moment (request_of command.now) (IdleBy (F.told f.new))) }

        // What the command evicts is printed, and then the reply; where there is no answer, a prefix of it; where the folder failed nothing of the reply, and
        // no step was made of a command that the model refuses; or it failed in the reply, after the note, which is the only step of such a command.
        ensures printed { OnOk result (ForCall self.old (F.told f.old) moment (request_of command.now) (WrittenBy K.written out.old out.new)) }
        ensures front { ForCall self.old (F.told f.old) moment (request_of command.now) (WritingBy K.written out.old out.new) }
        ensures unanswered { ForCall self.old (F.told f.old) moment (request_of command.now) (UnansweredBy (F.told f.new) K.written out.old out.new result) }

        ensures is_open { IfDone result (ForSome (F.told f.new).files (IsOpen self.new.files)) }
        ensures damaged { IfStepDamaged result (IsFailedCheck self.new.files (F.told f.new)) }
        ensures untold { ForSome (F.told f.old).files (KeepsAny self.old) → IfStepDamaged result (λ _. (F.told f.old).files ≡ None) }
        ensures later { F.faults f.old ≤ F.faults f.new }
        ensures printed_later { GoesOn K.is K.faults out.old out.new }
        ensures device { IfStepDevice result (Rises (F.faults f.old) (F.faults f.new)) }
        ensures sink { IfSink result (Rises (K.faults out.old) (K.faults out.new)) }
    {
        let mut failed = false;
        let answer = self.perform(f, out, &mut failed, moment, command)?;
        self.note(f)?;
        self.reply(f, out, &mut failed, command, &answer)?;
        if failed {
            Err(StepFault::Sink)
        } else {
            Ok(answer)
        }
    }

    /// Does the Close of the least handle name that is bound, and notes it; nothing is printed. It answers whether a name
    /// was bound; where none was, nothing is done.
    ///
    /// # Errors
    ///
    /// As `step`.
    pub fn close_next<F: Folder>(&mut self, f: &mut F, moment: u64) -> Result<bool, Fault>
        requires is_open { ForSome (F.told f.old).files (IsOpen self.old.files) }
        ensures bound { IfOk result (λ closed. closed ≡ is_some (position is_some self.old.handles)) }

        // Where a name is bound its Close is done, and noted.
        ensures kept { OnOk result (ForNextClose self.old (F.told f.old) moment (KeptBy self.new (F.told f.new))) }
        ensures stepped { ForNextClose self.old (F.told f.old) moment (SteppedBy (F.told f.new)) }
        ensures noted { OnOk result (ForNextClose self.old (F.told f.old) moment (NotedBy (F.told f.new))) }
        ensures counts { OnOk result (IfSome (position is_some self.old.handles) (λ _. self.new.notes ≡ note_number (self.old.notes + 1))) }

        // The name that was closed is free then, and the other names are bound as before.
        ensures frees { OnOk result (IfSome (position is_some self.old.handles) (λ handle. self.new.handles ≡ slice_set self.old.handles handle None)) }

        ensures session { OnOk result (self.new.mark ≡ self.old.mark) }

        // Where no name is bound, nothing is done.
        ensures nothing { position is_some self.old.handles ≡ None → Stays (F.told f.old) (F.told f.new) }
        ensures unchanged { position is_some self.old.handles ≡ None → self.new ≡ self.old }

        ensures is_open { OnOk result (ForSome (F.told f.new).files (IsOpen self.new.files)) }
        ensures damaged { IfDamaged result (IsFailedCheck self.new.files (F.told f.new)) }
        ensures untold { UndamagedWhere result (F.told f.old) (KeepsAny self.old) }
        ensures later { F.faults f.old ≤ F.faults f.new }
        ensures device { IfDevice result (Rises (F.faults f.old) (F.faults f.new)) }
    {
        let Some(handle) = self.handles.least_name() else {
            return Ok(false);
        };
        self.close(f, handle)?;
        self.note(f)?;
        Ok(true)
    }

    /// Whether a handle name is bound: `close_next` has one to close.
    pub fn has_names(&self) -> bool
        ensures { result ≡ is_some (position is_some self.now.handles) }
    {
        self.handles.least_name().is_some()
    }

    // Does a command without its completion marker and its reply.
    fn perform<F: Folder, K: Sink>(
        &mut self,
        folder: &mut F,
        out: &mut K,
        failed: &mut bool,
        moment: u64,
        command: &Command,
    ) -> Result<Answer, Fault>
        requires is_open { ForSome (F.told folder.old).files (IsOpen self.old.files) }
        ensures does { ForCall self.old (F.told folder.old) moment (request_of command.now) (DoneBy self.new (F.told folder.new) result) }
        ensures stops { ForCall self.old (F.told folder.old) moment (request_of command.now) (StopsBy (F.told folder.new)) }
        ensures says { ForCall self.old (F.told folder.old) moment (request_of command.now) (SaidBy failed.old failed.new K.written out.old out.new result) }
        ensures front { ForCall self.old (F.told folder.old) moment (request_of command.now) (FrontBy K.written out.old out.new) }
        ensures failed { FailsWhereItRose failed.old failed.new (K.faults out.old) (K.faults out.new) }
        ensures quiet { IfOk result (λ answer. IsRefused answer → Stays (F.told folder.old) (F.told folder.new)) }
        ensures spares { ForCall self.old (F.told folder.old) moment (request_of command.now) (SparedBy (F.told folder.new) result) }
        ensures idle { StaysIfClean self.old (F.told folder.old) (F.told folder.new) (request_of command.now) }
        ensures notes { self.new.notes ≡ self.old.notes }
        ensures mark { self.new.mark ≡ self.old.mark }
        ensures is_open { OnOk result (ForSome (F.told folder.new).files (IsOpen self.new.files)) }
        ensures damaged { IfDamaged result (IsFailedCheck self.new.files (F.told folder.new)) }
        ensures untold { UndamagedWhere result (F.told folder.old) (KeepsAny self.old) }
        ensures later { F.faults folder.old ≤ F.faults folder.new }
        ensures printed_later { GoesOn K.is K.faults out.old out.new }
        ensures device { IfDevice result (Rises (F.faults folder.old) (F.faults folder.new)) }
    {
        match *command {
            Command::Create { handle, key } => self.create(
                folder, out, failed, handle, key, moment,
            ),
            Command::Open { handle, key } => self.open(folder, handle, key, moment),
            Command::Read {
                handle,
                stream,
                offset,
                count,
            } => self.use_read(folder, handle, stream, offset, count, moment),
            Command::Write {
                handle,
                stream,
                offset,
                cut,
                bytes,
            } => {
                let request = WriteRequest {
                    handle,
                    stream,
                    offset,
                    cut,
                    bytes,
                    moment,
                };
                self.write(folder, out, failed, &request)
            }
            Command::Size { handle, stream } => self.size(folder, handle, stream),
            Command::Doom { handle } => self.doom(folder, handle),
            Command::DoomKey { key } => self.doom_key(folder, key),
            Command::Close { handle } => self.close(folder, handle),
            Command::Flush { handle } => self.flush(folder, handle),
            Command::List => self.list(folder),
            Command::Trim { bytes } => self.trim(folder, out, failed, bytes),
            Command::Total => Ok(self.total()),
            _ => self.perform_sparse(folder, out, failed, moment, command),
        }
    }

    // Does a command on sparse data without its completion marker and its reply.
    fn perform_sparse<F: Folder, K: Sink>(
        &mut self,
        folder: &mut F,
        out: &mut K,
        failed: &mut bool,
        moment: u64,
        command: &Command,
    ) -> Result<Answer, Fault>
        requires is_open { ForSome (F.told folder.old).files (IsOpen self.old.files) }
        requires on_sparse { IsOnSparse (request_of command.now) }
        ensures does { ForCall self.old (F.told folder.old) moment (request_of command.now) (DoneBy self.new (F.told folder.new) result) }
        ensures stops { ForCall self.old (F.told folder.old) moment (request_of command.now) (StopsBy (F.told folder.new)) }
        ensures says { ForCall self.old (F.told folder.old) moment (request_of command.now) (SaidBy failed.old failed.new K.written out.old out.new result) }
        ensures front { ForCall self.old (F.told folder.old) moment (request_of command.now) (FrontBy K.written out.old out.new) }
        ensures failed { FailsWhereItRose failed.old failed.new (K.faults out.old) (K.faults out.new) }
        ensures quiet { IfOk result (λ answer. IsRefused answer → Stays (F.told folder.old) (F.told folder.new)) }
        ensures spares { ForCall self.old (F.told folder.old) moment (request_of command.now) (SparedBy (F.told folder.new) result) }
        ensures idle { StaysIfClean self.old (F.told folder.old) (F.told folder.new) (request_of command.now) }
        ensures notes { self.new.notes ≡ self.old.notes }
        ensures mark { self.new.mark ≡ self.old.mark }
        ensures is_open { OnOk result (ForSome (F.told folder.new).files (IsOpen self.new.files)) }
        ensures damaged { IfDamaged result (IsFailedCheck self.new.files (F.told folder.new)) }
        ensures untold { UndamagedWhere result (F.told folder.old) (KeepsAny self.old) }
        ensures later { F.faults folder.old ≤ F.faults folder.new }
        ensures printed_later { GoesOn K.is K.faults out.old out.new }
        ensures device { IfDevice result (Rises (F.faults folder.old) (F.faults folder.new)) }
    {
        match *command {
            Command::SparseWrite {
                handle,
                offset,
                bytes,
            } => {
                let request = SparseRequest {
                    handle,
                    offset,
                    bytes,
                    moment,
                };
                self.sparse_write(folder, out, failed, &request)
            }
            Command::SparseRead {
                handle,
                offset,
                count,
            } => self.use_sparse(folder, Wanted::Bytes, handle, offset, count, moment),
            Command::SparseRange {
                handle,
                offset,
                count,
            } => self.use_sparse(folder, Wanted::Run, handle, offset, count, moment),
            _ => unreachable!(),
        }
    }

    // Makes the completion marker of a command.
    fn note<F: Folder>(&mut self, folder: &mut F) -> Result<(), Fault>
        ensures done { OnOk result (Applies (F.told folder.old) (F.told folder.new) (Note (note_number (self.old.notes + 1)) ∷ [])) }
        ensures undone { OnErr result (Stays (F.told folder.old) (F.told folder.new)) }
        ensures counts { self.new.notes ≡ note_number (self.old.notes + 1) }
        ensures others { OnlyNotesChange self.old self.new }
        ensures never { IfDamaged result (λ _. ⊥) }
        ensures later { F.faults folder.old ≤ F.faults folder.new }
        ensures device { IfDevice result (Rises (F.faults folder.old) (F.faults folder.new)) }
    {
        let number = self.notes.saturating_add(1);
        self.notes = number;
        match folder.note(number) {
            Ok(()) => Ok(()),
            Err(_) => Err(Fault::Device),
        }
    }
}
