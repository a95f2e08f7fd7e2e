// Lines are played on a cache.
ghost use Rattle.std.specs.Prelude.{drop, ◌==◌, ◌≡◌, ◌-◌, true, false, ◌≤◌, ◌<◌, ◌+◌, ◌^◌, ◌++◌, ℕ, List, [], ◌∷◌, length, OnErr, OnOk, Some};
ghost use Rattle.std.specs.Option.{ForSome, option_map};
ghost use Rattle.std.specs.List.{position};
ghost use Rattle.spec_image.specs.Told.{Rises};
ghost use Rattle.blk_io.specs.Streams.{Appends, GoesOn};
ghost use Rattle.blk_model.specs.Request.{request_of};
ghost use Rattle.blk_script.specs.Reply.{line_fault_text};
ghost use Rattle.spec_run.specs.Script.{ended, line_script, session_script};
ghost use Rattle.spec_run.specs.Run.{turns};
ghost use Rattle.blk_run.specs.Playing.{around, cut_behind};
ghost use Rattle.blk_object.specs.FailedChecks.{IsFailedCheck};
ghost use Rattle.blk_cache.specs.Stepping.{IfDone, IfSink, IfStepDamaged, IfStepDevice};
ghost use Rattle.blk_run.specs.Errors.{IsFlushed, IsOnlySink};
ghost use Rattle.blk_run.specs.Pending.{HoldsLine, pending};
ghost use Rattle.blk_run.specs.Playing.{Asks, SoFar, StandsAt, PlaysPart, has_refused, refuses};
ghost use Rattle.blk_run.specs.Telling.{ReadsAs};
ghost use Rattle.blk_disk.specs.Open.{IsOpen};
ghost use Rattle.blk_cache.specs.CacheKeeping.{KeepsState};
ghost use Rattle.blk_run.specs.RunClauses.{CountsWhole, FromHere};

use crate::line::Line;
use blk_cache::{Cache, StepFault};
use blk_io::{Clock, Failed, Folder, Sink};
use blk_model::{Answer, Command};
use blk_script::{Field, LineFault, print_fields, read_line};
use memchr::memchr;

// The lines so far: how many they are, and whether something was refused.
#[derive(Clone, Copy)]
pub(crate) struct Played {
    pub(crate) lines: u64,
    pub(crate) refused: bool,
}

// The lines of an input: those so far, the one of which a part has come, and how many bytes of the input are used at most.
#[derive(Drop)]
pub(crate) struct Lines {
    pub(crate) played: Played,
    pub(crate) line: Line,
    pub(crate) budget: u64,
}

// Prints that a line is no command.
fn print_error<K: Sink>(out: &mut K, number: u64, why: LineFault) -> Result<(), Failed>
    ensures steps { OnOk result (K.written out.new ≡ option_map (λ w. w ++ line_fault_text number why) (K.written out.old)) }
    ensures prefix { Appends (K.written out.old) (K.written out.new) (line_fault_text number why) }
    ensures later { GoesOn K.is K.faults out.old out.new }
    ensures handed { OnOk result (K.waiting out.new ≡ false) }
    ensures failed { OnErr result (Rises (K.faults out.old) (K.faults out.new)) }
{
    print_fields(
        out,
        &[
            Field::Word("fault"),
            Field::Number(number),
            Field::Number(why.number().into()),
            Field::Word(why.name()),
        ],
    )?;
    out.flush()
}

// Plays one line: it is a command, or why it is none is printed.
pub(crate) fn play_line<F: Folder, K: Sink, C: Clock>(
    cache: &mut Cache,
    played: &mut Played,
    line: &Line,
    buffer: &mut [u8],
    out: &mut K,
    folder: &mut F,
    clock: &mut C,
) -> Result<(), StepFault>
    requires is_open { ForSome (F.told folder.old).files (IsOpen cache.old.files) }
    requires buffer { 2200000 ≤ length buffer.old }
    requires few { played.old.lines < 2 ^ 64 - 1 }
    ensures played { ReadsAs (C.readings clock.old) (C.readings clock.new) (λ early late.
        (bytes : List ℕ) → HoldsLine line.now bytes → (far : SoFar) (left : ℕ)
        → StandsAt far (KeepsState cache.old) (cache.old.notes) (left + (length bytes + 1)) (F.told folder.old)
        → PlaysPart result (λ state readings. turns (session_script (played.old.lines + 1) (bytes ∷ [])) state readings)
        far (KeepsState cache.new) (cache.new.notes) left
        (around (F.told folder.old) (K.written out.old) (Some early) played.old.refused)
        (around (F.told folder.new) (K.written out.new) (Some late) played.new.refused)) }
    ensures lines { played.new.lines ≡ played.old.lines + 1 }
    ensures is_open { IfDone result (ForSome (F.told folder.new).files (IsOpen cache.new.files)) }
    ensures later { F.faults folder.old ≤ F.faults folder.new }
    ensures printed_later { GoesOn K.is K.faults out.old out.new }
    ensures handed { OnOk result (K.waiting out.new ≡ false) }
    ensures damaged { IfStepDamaged result (IsFailedCheck cache.new.files (F.told folder.new)) }
    ensures device { IfStepDevice result (Rises (F.faults folder.old) (F.faults folder.new)) }
    ensures sink { IfSink result (Rises (K.faults out.old) (K.faults out.new)) }
{
    played.lines += 1;
    match line.bytes() {
        Some(bytes) => match read_line(bytes, buffer) {
            Ok(command) => play_command(cache, played, &command, out, folder, clock),
            Err(why) => play_error(played, why, out),
        },
        None => play_error(played, LineFault::TooLong, out),
    }
}

// Does the command of a line, and prints its reply.
fn play_command<F: Folder, K: Sink, C: Clock>(
    cache: &mut Cache,
    played: &mut Played,
    command: &Command,
    out: &mut K,
    folder: &mut F,
    clock: &mut C,
) -> Result<(), StepFault>
    requires is_open { ForSome (F.told folder.old).files (IsOpen cache.old.files) }
    ensures played { FromHere (C.readings clock.old) (C.readings clock.new) cache.old (F.told folder.old) 2 (λ far left early late.
        PlaysPart result (λ state readings. turns (line_script played.old.lines (Ok (request_of command.now)) ended) state readings)
        far (KeepsState cache.new) (cache.new.notes) left
        (around (F.told folder.old) (K.written out.old) (Some early) played.old.refused)
        (around (F.told folder.new) (K.written out.new) (Some late) played.new.refused)) }
    ensures lines { played.new.lines ≡ played.old.lines }
    ensures is_open { IfDone result (ForSome (F.told folder.new).files (IsOpen cache.new.files)) }
    ensures later { F.faults folder.old ≤ F.faults folder.new }
    ensures printed_later { GoesOn K.is K.faults out.old out.new }
    ensures handed { OnOk result (K.waiting out.new ≡ false) }
    ensures damaged { IfStepDamaged result (IsFailedCheck cache.new.files (F.told folder.new)) }
    ensures device { IfStepDevice result (Rises (F.faults folder.old) (F.faults folder.new)) }
    ensures sink { IfSink result (Rises (K.faults out.old) (K.faults out.new)) }
{
    let answer = ask(cache, command, out, folder, clock)?;
    if is_refusal(&answer) {
        played.refused = true;
    }
    Ok(())
}

// Whether an answer is a refusal.
pub(crate) fn is_refusal(answer: &Answer) -> bool
    ensures { result ≡ refuses answer.now }
{
    match *answer {
        Answer::Refused(_) => true,
        _ => false,
    }
}

// Does a command, at the next reading of the clock, and prints its reply, which is flushed.
pub(crate) fn ask<F: Folder, K: Sink, C: Clock>(
    cache: &mut Cache,
    command: &Command,
    out: &mut K,
    folder: &mut F,
    clock: &mut C,
) -> Result<Answer, StepFault>
    requires is_open { ForSome (F.told folder.old).files (IsOpen cache.old.files) }
    ensures asked { FromHere (C.readings clock.old) (C.readings clock.new) cache.old (F.told folder.old) 2 (λ far left early late.
        Asks result (request_of command.now) far (KeepsState cache.new) (cache.new.notes) left
        (around (F.told folder.old) (K.written out.old) (Some early) false) (around (F.told folder.new) (K.written out.new) (Some late) (has_refused result))) }
    ensures is_open { IfDone result (ForSome (F.told folder.new).files (IsOpen cache.new.files)) }
    ensures later { F.faults folder.old ≤ F.faults folder.new }
    ensures printed_later { GoesOn K.is K.faults out.old out.new }
    ensures handed { OnOk result (K.waiting out.new ≡ false) }
    ensures damaged { IfStepDamaged result (IsFailedCheck cache.new.files (F.told folder.new)) }
    ensures device { IfStepDevice result (Rises (F.faults folder.old) (F.faults folder.new)) }
    ensures sink { IfSink result (Rises (K.faults out.old) (K.faults out.new)) }
{
    let answered = cache.step(folder, out, clock.now(), command);
    flush_reply(answered, out)
}

// Flushes what a command printed. Where it has an answer and that fails, the output failed; an earlier fault stays the answer.
fn flush_reply<K: Sink>(
    answered: Result<Answer, StepFault>,
    out: &mut K,
) -> Result<Answer, StepFault>
    ensures flushed { IsFlushed answered result StepFault.Sink (Rises (K.faults out.old) (K.faults out.new)) }
    ensures stays { K.written out.new ≡ K.written out.old }
    ensures later { GoesOn K.is K.faults out.old out.new }
    ensures handed { OnOk result (K.waiting out.new ≡ false) }
{
    match (answered, out.flush()) {
        (Ok(_), Err(_)) => Err(StepFault::Sink),
        (answered, _) => answered,
    }
}

// Prints why a line is no command.
fn play_error<K: Sink>(played: &mut Played, why: LineFault, out: &mut K) -> Result<(), StepFault>
    ensures printed { OnOk result (K.written out.new ≡ option_map (λ w. w ++ line_fault_text played.old.lines why) (K.written out.old)) }
    ensures front { Appends (K.written out.old) (K.written out.new) (line_fault_text played.old.lines why) }
    ensures refused { played.new.refused ≡ true }
    ensures lines { played.new.lines ≡ played.old.lines }
    ensures only { IsOnlySink result }
    ensures later { GoesOn K.is K.faults out.old out.new }
    ensures handed { OnOk result (K.waiting out.new ≡ false) }
    ensures sink { IfSink result (Rises (K.faults out.old) (K.faults out.new)) }
{
    played.refused = true;
    match print_error(out, played.lines, why) {
        Ok(()) => Ok(()),
        Err(_) => Err(StepFault::Sink),
    }
}

// Where the first line ends.
fn line_end(bytes: &[u8]) -> Option<usize>
    ensures { result ≡ position (λ byte. byte == 10) bytes.now }
{
    memchr(b'\n', bytes)
}

// The bytes after the first `count`.
fn behind(bytes: &[u8], count: usize) -> &[u8]
    requires { count ≤ length bytes.now }
    ensures { result.now ≡ drop count bytes.now }
{
    &bytes[count..]
}

// Plays the lines that end in some bytes; the last, which has no end, is kept for what follows.
pub(crate) fn play_bytes<F: Folder, K: Sink, C: Clock>(
    cache: &mut Cache,
    lines: &mut Lines,
    bytes: &[u8],
    buffer: &mut [u8],
    out: &mut K,
    folder: &mut F,
    clock: &mut C,
) -> Result<(), StepFault>
    requires is_open { ForSome (F.told folder.old).files (IsOpen cache.old.files) }
    requires buffer { 2200000 ≤ length buffer.old }
    requires few { lines.old.played.lines + pending lines.old.line + length bytes.now < 2 ^ 64 }
    ensures played { ReadsAs (C.readings clock.old) (C.readings clock.new) (λ early late.
        (before : List ℕ) → HoldsLine lines.old.line before → (far : SoFar) (left : ℕ)
        → StandsAt far (KeepsState cache.old) (cache.old.notes) (left + (length before + length bytes.now)) (F.told folder.old)
        → PlaysPart result (λ state readings. turns (session_script (lines.old.played.lines + 1) (cut_behind before bytes.now).whole) state readings)
        far (KeepsState cache.new) (cache.new.notes) (left + length (cut_behind before bytes.now).rest)
        (around (F.told folder.old) (K.written out.old) (Some early) lines.old.played.refused)
        (around (F.told folder.new) (K.written out.new) (Some late) lines.new.played.refused)) }
    ensures holds { OnOk result ((before : List ℕ) → HoldsLine lines.old.line before → HoldsLine lines.new.line (cut_behind before bytes.now).rest) }
    ensures counted { OnOk result (CountsWhole lines.old.line bytes.now lines.old.played.lines lines.new.played.lines) }
    ensures lines { OnOk result (lines.new.played.lines + pending lines.new.line ≤ lines.old.played.lines + pending lines.old.line + length bytes.now) }
    ensures is_open { IfDone result (ForSome (F.told folder.new).files (IsOpen cache.new.files)) }
    ensures later { F.faults folder.old ≤ F.faults folder.new }
    ensures printed_later { GoesOn K.is K.faults out.old out.new }
    ensures handed { OnOk result (K.waiting out.old ≡ false → K.waiting out.new ≡ false) }
    ensures damaged { IfStepDamaged result (IsFailedCheck cache.new.files (F.told folder.new)) }
    ensures device { IfStepDevice result (Rises (F.faults folder.old) (F.faults folder.new)) }
    ensures sink { IfSink result (Rises (K.faults out.old) (K.faults out.new)) }
{
    let mut rest = bytes;
    while let Some(end) = line_end(rest) {
        lines.line.add(&rest[..end]);
        play_line(
            cache,
            &mut lines.played,
            &lines.line,
            buffer,
            out,
            folder,
            clock,
        )?;
        lines.line.clear();
        rest = behind(rest, end + 1);
    }
    lines.line.add(rest);
    Ok(())
}
