// The lines of an input are played.
ghost use Rattle.std.specs.Prelude.{◌≡◌, ◌≤◌, ◌<◌, ◌+◌, ℕ, [], length, take, drop, IfOk, OnErr, false, OnOk, Some};
ghost use Rattle.blk_io.specs.Streams.{GoesOn};
ghost use Rattle.std.specs.Option.{ForSome, option_map};
ghost use Rattle.spec_image.specs.Told.{Rises};
ghost use Rattle.blk_object.specs.FailedChecks.{IsFailedCheck};
ghost use Rattle.blk_cache.specs.Stepping.{IfDone, IfSink, IfStepDamaged, IfStepDevice};
ghost use Rattle.blk_run.specs.Pending.{HoldsLine, pending};
ghost use Rattle.blk_run.specs.Playing.{SoFar, StandsAt, around};
ghost use Rattle.blk_run.specs.Inputs.{IsTakenUpTo, PlaysInput, IfFailed, IfTooLong};
ghost use Rattle.blk_run.specs.Telling.{ReadsAs, TakesAs};
ghost use Rattle.blk_disk.specs.Open.{IsOpen};
ghost use Rattle.blk_cache.specs.CacheKeeping.{KeepsState};

use crate::playing::{Lines, play_bytes, play_line};
use blk_cache::{Cache, StepFault};
use blk_io::{Clock, Failed, Folder, Sink, Source};

// How many bytes are taken at once.
const PIECE: usize = 4096;

// How the bytes of an input came to an end: at its end, where it failed, or at the input limit with one more byte after it.
#[derive(Clone, Copy)]
pub(crate) enum InputEnd {
    Whole,
    Failed,
    TooLong,
}

// Takes the next bytes of an input, at most one past what is left of the input limit.
fn take_piece<S: Source>(input: &mut S, left: u64, piece: &mut [u8; 4096]) -> Result<usize, Failed>
    ensures within { IfOk result (λ n. (n ≤ 4096) × (n ≤ left + 1)) }
    ensures left { IfOk result (λ n. S.left input.new ≡ option_map (drop n) (S.left input.old)) }
    ensures bytes { IfOk result (λ n. ForSome (S.left input.old) (λ bytes. (n ≤ length bytes) × (take n piece.new ≡ take n bytes))) }
    ensures end { IfOk result (λ n. n ≡ 0 → ForSome (S.left input.old) (λ bytes. bytes ≡ [])) }
    ensures stays { OnErr result (S.left input.new ≡ S.left input.old) }
    ensures later { S.faults input.old ≤ S.faults input.new }
    ensures source { OnErr result (Rises (S.faults input.old) (S.faults input.new)) }
{
    let most = if left < PIECE as u64 {
        left as usize + 1
    } else {
        PIECE
    };
    input.take(&mut piece[..most])
}

// The first bytes.
fn front(bytes: &[u8], count: usize) -> &[u8]
    requires { count ≤ length bytes.now }
    ensures { result.now ≡ take count bytes.now }
{
    &bytes[..count]
}

// Plays the lines of an input, up to the input limit.
pub(crate) fn play_input<F: Folder, S: Source, K: Sink, C: Clock>(
    cache: &mut Cache,
    lines: &mut Lines,
    buffer: &mut [u8],
    input: &mut S,
    out: &mut K,
    folder: &mut F,
    clock: &mut C,
) -> Result<InputEnd, StepFault>
    requires is_open { ForSome (F.told folder.old).files (IsOpen cache.old.files) }
    requires buffer { 2200000 ≤ length buffer.old }
    requires first { lines.old.played.lines + pending lines.old.line ≡ 0 }
    requires nothing { HoldsLine lines.old.line [] }
    ensures played { ReadsAs (C.readings clock.old) (C.readings clock.new) (λ early late. TakesAs (S.left input.old) (S.left input.new) (λ bytes rest.
        IsTakenUpTo (lines.old.budget + 1) (Some rest) bytes × ((far : SoFar) (spare : ℕ)
        → StandsAt far (KeepsState cache.old) (cache.old.notes) (spare + (lines.old.budget + 1)) (F.told folder.old)
        → PlaysInput result lines.old.budget (Some bytes) (Some rest) far (KeepsState cache.new) (cache.new.notes) spare
        (around (F.told folder.old) (K.written out.old) (Some early) lines.old.played.refused)
        (around (F.told folder.new) (K.written out.new) (Some late) lines.new.played.refused)))) }
    ensures taken { ForSome (S.left input.old) (IsTakenUpTo (lines.old.budget + 1) (S.left input.new)) }
    ensures is_open { IfDone result (ForSome (F.told folder.new).files (IsOpen cache.new.files)) }
    ensures later { F.faults folder.old ≤ F.faults folder.new }
    ensures printed_later { GoesOn K.is K.faults out.old out.new }
    ensures handed { OnOk result (K.waiting out.old ≡ false → K.waiting out.new ≡ false) }
    ensures taken_later { S.faults input.old ≤ S.faults input.new }
    ensures damaged { IfStepDamaged result (IsFailedCheck cache.new.files (F.told folder.new)) }
    ensures device { IfStepDevice result (Rises (F.faults folder.old) (F.faults folder.new)) }
    ensures sink { IfSink result (Rises (K.faults out.old) (K.faults out.new)) }
    ensures source { IfFailed result (Rises (S.faults input.old) (S.faults input.new)) }
    ensures too_long { IfTooLong result (ForSome (S.left input.old) (λ bytes. lines.old.budget < length bytes)) }
{
    let mut piece = [0u8; PIECE];
    let mut left = lines.budget;
    loop {
        let Ok(n) = take_piece(input, left, &mut piece) else {
            return Ok(InputEnd::Failed);
        };
        if n == 0 {
            break;
        }
        let usable = left.min(n as u64);
        play_bytes(
            cache,
            lines,
            front(&piece, usable as usize),
            buffer,
            out,
            folder,
            clock,
        )?;
        if usable < n as u64 {
            return Ok(InputEnd::TooLong);
        }
        left -= usable;
    }
    if !lines.line.is_empty() {
        play_line(
            cache,
            &mut lines.played,
            &lines.line,
            buffer,
            out,
            folder,
            clock,
        )?;
    }
    Ok(InputEnd::Whole)
}
