// The iterations of a generator are played.
ghost use Rattle.std.specs.Prelude.{◌≡◌, ◌≤◌, ◌<◌, ◌+◌, ◌*◌, ◌++◌, Bool, ℕ, length, OnOk, false, Some};
ghost use Rattle.std.specs.Option.{ForSome, option_map};
ghost use Rattle.spec_image.specs.Told.{Rises};
ghost use Rattle.blk_io.specs.Streams.{Appends, GoesOn};
ghost use Rattle.blk_model.specs.Request.{request_of};
ghost use Rattle.spec_run.specs.Run.{turns};
ghost use Rattle.blk_gen.specs.Draws.{generated_bytes};
ghost use Rattle.blk_gen.specs.Generator.{created_turn, gen_script, turn_script, used_turn};
ghost use Rattle.blk_object.specs.FailedChecks.{IsFailedCheck};
ghost use Rattle.blk_cache.specs.Stepping.{IfDone, IfSink, IfStepDamaged, IfStepDevice};
ghost use Rattle.blk_run.specs.Errors.{IsOnlySink};
ghost use Rattle.blk_run.specs.Generating.{AsksCounted, IsGeneratedRequest, evicted_by, unshown};
ghost use Rattle.blk_run.specs.Playing.{PlaysPart, SoFar, StandsAt, around};
ghost use Rattle.blk_run.specs.Telling.{ReadsAs};
ghost use Rattle.blk_disk.specs.Open.{IsOpen};
ghost use Rattle.blk_cache.specs.CacheKeeping.{KeepsState};
ghost use Rattle.blk_run.specs.RunClauses.{FromHere, PlaysIteration, counted_text, iterating};

use crate::counting::show_totals;
use crate::fixed::is_missing;
use crate::playing::is_refusal;
use crate::unshown::ask_unshown;
use blk_cache::{Cache, StepFault};
use blk_gen::{Counts, Draws, Turn, fill};
use blk_io::{Clock, Folder, Sink};
use blk_model::{Answer, Command};

// An iteration writes no more bytes.
const LONGEST_DATA: usize = 20000;

// An iteration reads no more bytes.
const LONGEST_READ: u64 = 20001;

// Plays a number of iterations from a seed on, and prints what was counted of their commands, and the totals.
pub(crate) fn play_generated<F: Folder, K: Sink, C: Clock>(
    cache: &mut Cache,
    seed: u64,
    count: u32,
    out: &mut K,
    folder: &mut F,
    clock: &mut C,
) -> Result<(), StepFault>
    requires is_open { ForSome (F.told folder.old).files (IsOpen cache.old.files) }
    ensures played { ReadsAs (C.readings clock.old) (C.readings clock.new) (λ early late. (refused : Bool) (far : SoFar) (left : ℕ)
        → StandsAt far (KeepsState cache.old) (cache.old.notes) (left + 2 * (5 * count)) (F.told folder.old)
        → PlaysPart result (turns (gen_script seed count)) far (KeepsState cache.new) (cache.new.notes) left
        (around (F.told folder.old) (K.written out.old) (Some early) refused) (around (F.told folder.new) (K.written out.new) (Some late) refused)) }
    ensures is_open { IfDone result (ForSome (F.told folder.new).files (IsOpen cache.new.files)) }
    ensures later { F.faults folder.old ≤ F.faults folder.new }
    ensures printed_later { GoesOn K.is K.faults out.old out.new }
    ensures handed { OnOk result (K.waiting out.old ≡ false → K.waiting out.new ≡ false) }
    ensures damaged { IfStepDamaged result (IsFailedCheck cache.new.files (F.told folder.new)) }
    ensures device { IfStepDevice result (Rises (F.faults folder.old) (F.faults folder.new)) }
    ensures sink { IfSink result (Rises (K.faults out.old) (K.faults out.new)) }
{
    let mut draws = Draws::new(seed);
    let mut counts = Counts::new();
    let mut buffer = [0u8; LONGEST_DATA];
    for number in 0..count {
        let turn = draws.turn();
        play_turn(
            cache,
            &mut counts,
            number,
            &turn,
            &mut buffer,
            folder,
            clock,
        )?;
    }
    show_counts(cache, &counts, out)
}

// Plays an iteration: its object is opened, or made where it is missing, and used where neither is refused.
fn play_turn<F: Folder, C: Clock>(
    cache: &mut Cache,
    counts: &mut Counts,
    number: u32,
    turn: &Turn,
    buffer: &mut [u8],
    folder: &mut F,
    clock: &mut C,
) -> Result<(), StepFault>
    requires is_open { ForSome (F.told folder.old).files (IsOpen cache.old.files) }
    requires key { turn.now.key_number < 1000 }
    requires buffer { turn.now.byte_count ≤ length buffer.old }
    ensures played { PlaysIteration result 5 10 (turn_script number turn.now counts.old)
        (iterating cache.old counts.old (F.told folder.old) (C.readings clock.old))
        (iterating cache.new counts.new (F.told folder.new) (C.readings clock.new)) }
    ensures is_open { IfDone result (ForSome (F.told folder.new).files (IsOpen cache.new.files)) }
    ensures later { F.faults folder.old ≤ F.faults folder.new }
    ensures damaged { IfStepDamaged result (IsFailedCheck cache.new.files (F.told folder.new)) }
    ensures device { IfStepDevice result (Rises (F.faults folder.old) (F.faults folder.new)) }
    ensures no_sink { IfSink result ⊥ }
{
    let mut digits = [0u8; 4];
    let key = turn.key(&mut digits);
    let open = Command::Open { handle: 0, key };
    let opened = ask_counted(cache, counts, &open, folder, clock)?;
    if is_missing(&opened) {
        return play_missing(cache, counts, number, turn, buffer, folder, clock);
    }
    if is_refusal(&opened) {
        return Ok(());
    }
    play_used(cache, counts, number, turn, buffer, folder, clock)
}

// Plays an iteration whose object is missing: it is made, and used where that isn't refused.
fn play_missing<F: Folder, C: Clock>(
    cache: &mut Cache,
    counts: &mut Counts,
    number: u32,
    turn: &Turn,
    buffer: &mut [u8],
    folder: &mut F,
    clock: &mut C,
) -> Result<(), StepFault>
    requires is_open { ForSome (F.told folder.old).files (IsOpen cache.old.files) }
    requires key { turn.now.key_number < 1000 }
    requires buffer { turn.now.byte_count ≤ length buffer.old }
    ensures played { PlaysIteration result 4 8 (created_turn number turn.now counts.old)
        (iterating cache.old counts.old (F.told folder.old) (C.readings clock.old))
        (iterating cache.new counts.new (F.told folder.new) (C.readings clock.new)) }
    ensures is_open { IfDone result (ForSome (F.told folder.new).files (IsOpen cache.new.files)) }
    ensures later { F.faults folder.old ≤ F.faults folder.new }
    ensures damaged { IfStepDamaged result (IsFailedCheck cache.new.files (F.told folder.new)) }
    ensures device { IfStepDevice result (Rises (F.faults folder.old) (F.faults folder.new)) }
    ensures no_sink { IfSink result ⊥ }
{
    let mut digits = [0u8; 4];
    let key = turn.key(&mut digits);
    let create = Command::Create { handle: 0, key };
    let made = ask_counted(cache, counts, &create, folder, clock)?;
    if is_refusal(&made) {
        return Ok(());
    }
    play_used(cache, counts, number, turn, buffer, folder, clock)
}

// Uses the object that the handle 0 names: a Write that cuts, a Read and a Close, of which none ends the iteration.
fn play_used<F: Folder, C: Clock>(
    cache: &mut Cache,
    counts: &mut Counts,
    number: u32,
    turn: &Turn,
    buffer: &mut [u8],
    folder: &mut F,
    clock: &mut C,
) -> Result<(), StepFault>
    requires is_open { ForSome (F.told folder.old).files (IsOpen cache.old.files) }
    requires buffer { turn.now.byte_count ≤ length buffer.old }
    ensures played { PlaysIteration result 3 6 (used_turn number turn.now counts.old)
        (iterating cache.old counts.old (F.told folder.old) (C.readings clock.old))
        (iterating cache.new counts.new (F.told folder.new) (C.readings clock.new)) }
    ensures is_open { IfDone result (ForSome (F.told folder.new).files (IsOpen cache.new.files)) }
    ensures later { F.faults folder.old ≤ F.faults folder.new }
    ensures damaged { IfStepDamaged result (IsFailedCheck cache.new.files (F.told folder.new)) }
    ensures device { IfStepDevice result (Rises (F.faults folder.old) (F.faults folder.new)) }
    ensures no_sink { IfSink result ⊥ }
{
    let write = Command::Write {
        handle: 0,
        stream: turn.stream,
        offset: 0,
        cut: true,
        bytes: bytes_of(number, turn.byte_count, buffer),
    };
    ask_counted(cache, counts, &write, folder, clock)?;
    let read = Command::Read {
        handle: 0,
        stream: turn.stream,
        offset: 0,
        count: LONGEST_READ,
    };
    ask_counted(cache, counts, &read, folder, clock)?;
    ask_counted(cache, counts, &Command::Close { handle: 0 }, folder, clock)?;
    Ok(())
}

// The bytes that the iteration with a number writes, at the start of the buffer.
fn bytes_of(number: u32, count: u16, buffer: &mut [u8]) -> &[u8]
    requires { count ≤ length buffer.old }
    ensures { result.now ≡ generated_bytes number count }
{
    let bytes = &mut buffer[..usize::from(count)];
    fill(number, bytes);
    bytes
}

// Does a command of an iteration, whose reply isn't shown, and counts it.
fn ask_counted<F: Folder, C: Clock>(
    cache: &mut Cache,
    counts: &mut Counts,
    command: &Command,
    folder: &mut F,
    clock: &mut C,
) -> Result<Answer, StepFault>
    requires is_open { ForSome (F.told folder.old).files (IsOpen cache.old.files) }
    requires asked { IsGeneratedRequest (request_of command.now) }
    ensures asked { FromHere (C.readings clock.old) (C.readings clock.new) cache.old (F.told folder.old) 2 (λ far left early late.
        AsksCounted result (request_of command.now) counts.old counts.new far (KeepsState cache.new) (cache.new.notes) left
        (F.told folder.old) (F.told folder.new) (Some early) (Some late)) }
    ensures is_open { IfDone result (ForSome (F.told folder.new).files (IsOpen cache.new.files)) }
    ensures later { F.faults folder.old ≤ F.faults folder.new }
    ensures damaged { IfStepDamaged result (IsFailedCheck cache.new.files (F.told folder.new)) }
    ensures device { IfStepDevice result (Rises (F.faults folder.old) (F.faults folder.new)) }
    ensures no_sink { IfSink result ⊥ }
{
    let before = items_of(cache);
    let answer = ask_unshown(cache, command, folder, clock)?;
    let after = items_of(cache);
    counts.count(&answer, evicted_by(command, &answer, before, after));
    Ok(answer)
}

// How many items a cache has.
fn items_of(cache: &Cache) -> u64
    ensures { result ≡ cache.now.items }
{
    let (items, _) = cache.totals();
    items
}

// How many items a command of an iteration evicted, by how many there were before it and are after it.
fn evicted_by(command: &Command, answer: &Answer, before: u64, after: u64) -> u64
    ensures { result ≡ evicted_by (request_of command.now) answer.now before after }
{
    match *command {
        Command::Create { .. } => {
            if is_refusal(answer) {
                0
            } else {
                before.saturating_sub(after.saturating_sub(1))
            }
        }
        Command::Write { .. } => before.saturating_sub(after),
        _ => 0,
    }
}

// Prints what was counted, and the totals of a cache.
fn show_counts<K: Sink>(cache: &Cache, counts: &Counts, out: &mut K) -> Result<(), StepFault>
    ensures printed { OnOk result (K.written out.new ≡ option_map (λ w. w ++ counted_text counts.now cache.now) (K.written out.old)) }
    ensures front { Appends (K.written out.old) (K.written out.new) (counted_text counts.now cache.now) }
    ensures only { IsOnlySink result }
    ensures later { GoesOn K.is K.faults out.old out.new }
    ensures handed { OnOk result (K.waiting out.new ≡ false) }
    ensures sink { IfSink result (Rises (K.faults out.old) (K.faults out.new)) }
{
    match counts.print_counts(out) {
        Ok(()) => show_totals(cache, out),
        Err(_) => Err(StepFault::Sink),
    }
}
