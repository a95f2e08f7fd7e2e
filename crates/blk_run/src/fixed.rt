// The fixed scripts: commands that are played up to the first that is refused.
ghost use Rattle.std.specs.Prelude.{◌≡◌, ◌*◌, true, ◌≤◌, ◌+◌, ◌++◌, length, map, OnOk, false, Some};
ghost use Rattle.std.specs.Option.{ForSome, option_map};
ghost use Rattle.spec_image.specs.Told.{Rises};
ghost use Rattle.blk_io.specs.Streams.{Appends, GoesOn};
ghost use Rattle.blk_model.specs.Reply.{answered};
ghost use Rattle.blk_model.specs.Request.{request_of};
ghost use Rattle.blk_script.specs.Reply.{reply_text};
ghost use Rattle.spec_run.specs.Script.{is_missing_refusal, put_script, refusal_of, until_refused};
ghost use Rattle.spec_run.specs.Run.{turns};
ghost use Rattle.blk_run.specs.Fixed.{opened_answer};
ghost use Rattle.blk_object.specs.FailedChecks.{IsFailedCheck};
ghost use Rattle.blk_cache.specs.Stepping.{IfDone, IfSink, IfStepDamaged, IfStepDevice};
ghost use Rattle.blk_run.specs.Errors.{IsOnlySink};
ghost use Rattle.blk_run.specs.Playing.{PlaysPart, around};
ghost use Rattle.blk_disk.specs.Open.{IsOpen};
ghost use Rattle.blk_cache.specs.CacheKeeping.{KeepsState};
ghost use Rattle.blk_run.specs.RunClauses.{FromHere};

use crate::playing::{ask, is_refusal};
use crate::unshown::ask_unshown;
use blk_cache::{Cache, StepFault};
use blk_io::{Clock, Folder, Sink};
use blk_model::{Answer, Command, Refusal};
use blk_script::print_reply;

// Does commands one after another, up to the first that is refused, and notes whether one was.
pub(crate) fn play_until_refused<F: Folder, K: Sink, C: Clock>(
    cache: &mut Cache,
    refused: &mut bool,
    commands: &[Command],
    out: &mut K,
    folder: &mut F,
    clock: &mut C,
) -> Result<(), StepFault>
    requires is_open { ForSome (F.told folder.old).files (IsOpen cache.old.files) }
    ensures played { FromHere (C.readings clock.old) (C.readings clock.new) cache.old (F.told folder.old) (2 * length commands.now) (λ far left early late.
        PlaysPart result (turns (until_refused (map request_of commands.now))) far (KeepsState cache.new) (cache.new.notes) left
        (around (F.told folder.old) (K.written out.old) (Some early) refused.old) (around (F.told folder.new) (K.written out.new) (Some late) refused.new)) }
    ensures is_open { IfDone result (ForSome (F.told folder.new).files (IsOpen cache.new.files)) }
    ensures later { F.faults folder.old ≤ F.faults folder.new }
    ensures printed_later { GoesOn K.is K.faults out.old out.new }
    ensures handed { OnOk result (K.waiting out.old ≡ false → K.waiting out.new ≡ false) }
    ensures damaged { IfStepDamaged result (IsFailedCheck cache.new.files (F.told folder.new)) }
    ensures device { IfStepDevice result (Rises (F.faults folder.old) (F.faults folder.new)) }
    ensures sink { IfSink result (Rises (K.faults out.old) (K.faults out.new)) }
{
    for command in commands {
        let answer = ask(cache, command, out, folder, clock)?;
        if is_refusal(&answer) {
            *refused = true;
            return Ok(());
        }
    }
    Ok(())
}

// Does the script of `put`: the entry is opened, or made where it is missing, which isn't shown; then the bytes are written to
// the stream, which ends with them, and the entry is closed.
pub(crate) fn play_put<F: Folder, K: Sink, C: Clock>(
    cache: &mut Cache,
    refused: &mut bool,
    put: Put,
    out: &mut K,
    folder: &mut F,
    clock: &mut C,
) -> Result<(), StepFault>
    requires is_open { ForSome (F.told folder.old).files (IsOpen cache.old.files) }
    ensures played { FromHere (C.readings clock.old) (C.readings clock.new) cache.old (F.told folder.old) 8 (λ far left early late.
        PlaysPart result (turns (put_script put.entry.key.now put.entry.stream put.entry.bytes.now)) far (KeepsState cache.new) (cache.new.notes) left
        (around (F.told folder.old) (K.written out.old) (Some early) refused.old) (around (F.told folder.new) (K.written out.new) (Some late) refused.new)) }
    ensures is_open { IfDone result (ForSome (F.told folder.new).files (IsOpen cache.new.files)) }
    ensures later { F.faults folder.old ≤ F.faults folder.new }
    ensures printed_later { GoesOn K.is K.faults out.old out.new }
    ensures handed { OnOk result (K.waiting out.old ≡ false → K.waiting out.new ≡ false) }
    ensures damaged { IfStepDamaged result (IsFailedCheck cache.new.files (F.told folder.new)) }
    ensures device { IfStepDevice result (Rises (F.faults folder.old) (F.faults folder.new)) }
    ensures sink { IfSink result (Rises (K.faults out.old) (K.faults out.new)) }
{
    let Put { key, stream, bytes } = put;
    let open = Command::Open { handle: 0, key };
    let opened = ask_unshown(cache, &open, folder, clock)?;
    let write = Command::Write {
        handle: 0,
        stream,
        offset: 0,
        cut: true,
        bytes,
    };
    let close = Command::Close { handle: 0 };
    if is_missing(&opened) {
        let create = Command::Create { handle: 0, key };
        return play_until_refused(cache, refused, &[create, write, close], out, folder, clock);
    }
    print_opened(out, &opened)?;
    if is_refusal(&opened) {
        *refused = true;
        return Ok(());
    }
    play_until_refused(cache, refused, &[write, close], out, folder, clock)
}

// What is put: the bytes of the stream of an entry, by its key.
#[derive(Clone, Copy)]
pub(crate) struct Put<'a> {
    pub(crate) key: &'a [u8],
    pub(crate) stream: u8,
    pub(crate) bytes: &'a [u8],
}

// Whether an answer is that an entry is missing.
pub(crate) fn is_missing(answer: &Answer) -> bool
    ensures { result ≡ is_missing_refusal (refusal_of answer.now) }
{
    match *answer {
        Answer::Refused(Refusal::Missing) => true,
        _ => false,
    }
}

// Prints the reply to an Open: what isn't a refusal is done.
fn print_opened<K: Sink>(out: &mut K, answer: &Answer) -> Result<(), StepFault>
    ensures printed { OnOk result (K.written out.new ≡ option_map (λ w. w ++ reply_text (answered (opened_answer answer.now))) (K.written out.old)) }
    ensures front { Appends (K.written out.old) (K.written out.new) (reply_text (answered (opened_answer answer.now))) }
    ensures only { IsOnlySink result }
    ensures later { GoesOn K.is K.faults out.old out.new }
    ensures handed { OnOk result (K.waiting out.new ≡ false) }
    ensures sink { IfSink result (Rises (K.faults out.old) (K.faults out.new)) }
{
    let printed = match *answer {
        Answer::Refused(why) => print_reply(out, &Answer::Refused(why)),
        _ => print_reply(out, &Answer::Done),
    };
    match (printed, out.flush()) {
        (Ok(()), Ok(())) => Ok(()),
        _ => Err(StepFault::Sink),
    }
}
