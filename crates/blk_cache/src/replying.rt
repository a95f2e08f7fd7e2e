// The reply of a command.
ghost use Rattle.std.specs.Prelude.{◌≢◌, ℕ, OnOk};
ghost use Rattle.std.specs.Option.{ForSome};
ghost use Rattle.spec_image.specs.Told.{ReadsOnly};
ghost use Rattle.blk_io.specs.Faults.{IfDamaged, IfDevice, UndamagedWhere};
ghost use Rattle.blk_io.specs.Streams.{GoesOn};
ghost use Rattle.blk_model.specs.Reply.{answered};
ghost use Rattle.blk_model.specs.Request.{request_of};
ghost use Rattle.blk_disk.specs.Open.{IsOpen};
ghost use Rattle.blk_object.specs.FailedChecks.{IsFailedCheck};
ghost use Rattle.blk_script.specs.Reply.{reply_text};
ghost use Rattle.blk_cache.specs.CommandClauses.{KeepsAny};
ghost use Rattle.blk_cache.specs.Listing.{OnlyRoomChanges};
ghost use Rattle.blk_evict.specs.RoomPrinting.{FailsWhereItRose};
ghost use Rattle.blk_cache.specs.Replying.{ForRows, KeepsAfter, ForBytesOf, ForReplyTo};
ghost use Rattle.blk_cache.specs.Stepping.{Puts, PutsPart};

use crate::cache::Cache;
use crate::read_printing::ReadRange;
use blk_io::{Fault, Folder, Sink};
use blk_model::{Answer, Command};
use blk_script::print_reply;

impl Cache {
    /// Prints the reply of a command that is done, unless the output failed before: the bytes of a Read or a SparseRead
    /// and the rows of a List as the folder has them now, and else the line of the answer.
    ///
    /// Nothing is written. After a fault a prefix of the reply is printed.
    pub(crate) fn reply<F: Folder, K: Sink>(
        &mut self,
        folder: &mut F,
        out: &mut K,
        failed: &mut bool,
        command: &Command,
        answer: &Answer,
    ) -> Result<(), Fault>
        requires is_open { ForSome (F.told folder.old).files (IsOpen self.old.files) }
        ensures printed { OnOk result (ForReplyTo self.old (F.told folder.old) command.now answer.now (Puts failed.old failed.new K.written out.old out.new)) }
        ensures part { ForReplyTo self.old (F.told folder.old) command.now answer.now (PutsPart failed.old K.written out.old out.new) }
        ensures failed { FailsWhereItRose failed.old failed.new (K.faults out.old) (K.faults out.new) }
        ensures others { OnlyRoomChanges self.old self.new }
        ensures reads { ReadsOnly F.told F.faults folder.old folder.new (IfDevice result) }

        // An observable folder reports no corruption where the cache keeps the state after the command.
        ensures damaged { IfDamaged result (IsFailedCheck self.new.files (F.told folder.new)) }
        ensures untold { UndamagedWhere result (F.told folder.old) (KeepsAfter self.old (request_of command.now) answer.now) }
        ensures later_out { GoesOn K.is K.faults out.old out.new }
    {
        match *answer {
            Answer::Bytes(number) => self.print_bytes_for(folder, out, failed, command, number),
            Answer::Listed(_) => self.print_list(folder, out, failed, answer),
            _ => {
                say_answer(out, failed, answer);
                Ok(())
            }
        }
    }

    // Prints the bytes that a command reads, of which there is this number.
    fn print_bytes_for<F: Folder, K: Sink>(
        &mut self,
        folder: &mut F,
        out: &mut K,
        failed: &mut bool,
        command: &Command,
        number: u64,
    ) -> Result<(), Fault>
        requires is_open { ForSome (F.told folder.old).files (IsOpen self.old.files) }
        ensures printed { OnOk result (ForBytesOf self.old (F.told folder.old) command.now number (Puts failed.old failed.new K.written out.old out.new)) }
        ensures part { ForBytesOf self.old (F.told folder.old) command.now number (PutsPart failed.old K.written out.old out.new) }
        ensures failed { FailsWhereItRose failed.old failed.new (K.faults out.old) (K.faults out.new) }
        ensures others { OnlyRoomChanges self.old self.new }
        ensures reads { ReadsOnly F.told F.faults folder.old folder.new (IfDevice result) }
        ensures damaged { IfDamaged result (IsFailedCheck self.new.files (F.told folder.new)) }
        ensures untold { UndamagedWhere result (F.told folder.old) (KeepsAfter self.old (request_of command.now) (Answer.Bytes number)) }
        ensures later_out { GoesOn K.is K.faults out.old out.new }
    {
        match *command {
            Command::Read {
                handle,
                stream,
                offset,
                ..
            } => {
                let range = ReadRange {
                    handle,
                    stream,
                    offset,
                    number,
                };
                self.print_read(folder, out, failed, range)
            }
            Command::SparseRead { handle, offset, .. } => {
                self.print_sparse(folder, out, failed, handle, offset, number)
            }
            _ => Ok(()),
        }
    }

    // Prints the rows of a List, and then the line of its answer.
    fn print_list<F: Folder, K: Sink>(
        &mut self,
        folder: &mut F,
        out: &mut K,
        failed: &mut bool,
        answer: &Answer,
    ) -> Result<(), Fault>
        requires has_line { (n : ℕ) → answer.now ≢ Answer.Bytes n }
        ensures printed { OnOk result (ForRows self.old (F.told folder.old) answer.now (Puts failed.old failed.new K.written out.old out.new)) }
        ensures part { ForRows self.old (F.told folder.old) answer.now (PutsPart failed.old K.written out.old out.new) }
        ensures failed { FailsWhereItRose failed.old failed.new (K.faults out.old) (K.faults out.new) }
        ensures others { OnlyRoomChanges self.old self.new }
        ensures reads { ReadsOnly F.told F.faults folder.old folder.new (IfDevice result) }
        ensures damaged { IfDamaged result (IsFailedCheck self.new.files (F.told folder.new)) }
        ensures untold { UndamagedWhere result (F.told folder.old) (KeepsAny self.old) }
        ensures later_out { GoesOn K.is K.faults out.old out.new }
    {
        self.print_rows(folder, out, failed)?;
        say_answer(out, failed, answer);
        Ok(())
    }
}

// Prints the line of an answer, unless the output failed before.
fn say_answer<K: Sink>(out: &mut K, failed: &mut bool, answer: &Answer)
    requires has_line { (n : ℕ) → answer.now ≢ Answer.Bytes n }
    ensures prints { Puts failed.old failed.new K.written out.old out.new (reply_text (answered answer.now)) }
    ensures failed { FailsWhereItRose failed.old failed.new (K.faults out.old) (K.faults out.new) }
    ensures later { GoesOn K.is K.faults out.old out.new }
{
    if *failed {
        return;
    }
    *failed = print_reply(out, answer).is_err();
}
