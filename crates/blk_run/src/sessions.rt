// A session: the lines of an input are played on a folder.
ghost use Rattle.std.specs.Prelude.{◌≡◌, ◌≢◌, ◌≤◌, ◌<◌, ◌+◌, ◌*◌, [], length, IfOk, Some, false};
ghost use Rattle.std.specs.Option.{ForSome};
ghost use Rattle.spec_image.specs.Told.{Rises, Stays};
ghost use Rattle.blk_io.specs.Faults.{IfDamaged, IfDevice};
ghost use Rattle.blk_io.specs.Streams.{GoesOn};
ghost use Rattle.blk_model.specs.Sizes.{handle_names};
ghost use Rattle.blk_disk.specs.Open.{IsOpen};
ghost use Rattle.blk_run.specs.Ending.{EndsRun};
ghost use Rattle.blk_run.specs.Failing.{IsCommandDamage};
ghost use Rattle.blk_run.specs.Inputs.{IsTakenUpTo};
ghost use Rattle.blk_run.specs.Pending.{HoldsLine, pending};
ghost use Rattle.blk_run.specs.Session.{outside, seen_as};
ghost use Rattle.blk_run.specs.Statuses.{may_close, status_after, IfWhole};
ghost use Rattle.blk_run.specs.RunClauses.{CauseOfRun, CauseOnceOpen, CompletesLines, FromHere, PlaysLines, RunsLines, ShowsDamaged, WhereStands};

use crate::closing::close_all;
use crate::ending::Status;
use crate::input::{InputEnd, play_input};
use crate::line::Line;
use crate::playing::{Lines, Played};
use crate::printing::print_damage;
use blk_cache::{Cache, OpenFault, StepFault};
use blk_io::{Clock, Fault, Folder, NoMemory, Sink, Source};
use blk_model::Limits;
use blk_script::LONGEST_LINE;
use std::alloc::Global;

/// Opens the folder, plays the lines of an input, closes what is open, and answers how it ended.
///
/// Each line is a command, whose reply is printed on `out` once it is done and noted, or a parse error, which is printed; either is flushed once it is printed,
/// before the next line is played. The input is taken as it comes, and at most `budget` bytes of it are used; one byte more is taken, to see whether more
/// follow. The clock is read once for the opening and once before each command, the closings among them. All memory is taken before the first step in the
/// folder.
pub fn session<F: Folder, S: Source, K: Sink, C: Clock>(
    alloc: Global,
    limits: Limits,
    budget: u64,
    input: &mut S,
    out: &mut K,
    folder: &mut F,
    clock: &mut C,
) -> Status
    // On a folder that is uninitialized or well formed it is the run of the lines on the map model, whatever clock and input give.
    ensures session { PlaysLines result limits budget (seen_as
        (outside (F.told folder.old) (K.written out.old) (S.left input.old) (C.readings clock.old))
        (outside (F.told folder.new) (K.written out.new) (S.left input.new) (C.readings clock.new))
        (Rises (F.faults folder.old) (F.faults folder.new)) (Rises (S.faults input.old) (S.faults input.new)) (K.faults out.old) (K.faults out.new)) }

    // Where nothing fails and the input is within the input limit the whole output is printed, unless the session is out of memory.
    ensures complete { CompletesLines result limits budget (seen_as
        (outside (F.told folder.old) (K.written out.old) (S.left input.old) (C.readings clock.old))
        (outside (F.told folder.new) (K.written out.new) (S.left input.new) (C.readings clock.new))
        (Rises (F.faults folder.old) (F.faults folder.new)) (Rises (S.faults input.old) (S.faults input.new)) (K.faults out.old) (K.faults out.new)) }

    // On an initialized folder of which a check fails that is printed, and no more is done.
    ensures damage { ShowsDamaged result (seen_as
        (outside (F.told folder.old) (K.written out.old) (S.left input.old) (C.readings clock.old))
        (outside (F.told folder.new) (K.written out.new) (S.left input.new) (C.readings clock.new))
        (Rises (F.faults folder.old) (F.faults folder.new)) (Rises (S.faults input.old) (S.faults input.new)) (K.faults out.old) (K.faults out.new)) }

    // Out of memory nothing is done, whatever of folder, output and clock is observable.
    ensures memory { result ≡ Status.Memory → Stays (F.told folder.old) (F.told folder.new) × (K.written out.new ≡ K.written out.old) }
    ensures untaken { result ≡ Status.Memory → S.left input.new ≡ S.left input.old }

    // The cause of each status, on every folder.
    ensures cause { CauseOfRun result (ForSome (S.left input.old) (λ bytes. budget < length bytes)) (seen_as
        (outside (F.told folder.old) (K.written out.old) (S.left input.old) (C.readings clock.old))
        (outside (F.told folder.new) (K.written out.new) (S.left input.new) (C.readings clock.new))
        (Rises (F.faults folder.old) (F.faults folder.new)) (Rises (S.faults input.old) (S.faults input.new)) (K.faults out.old) (K.faults out.new)) }
    ensures later { (F.faults folder.old ≤ F.faults folder.new) × ((S.faults input.old ≤ S.faults input.new) × GoesOn K.is K.faults out.old out.new) }

    // Where all is done nothing of what was printed waits in the output, on every output.
    ensures handed { IfWhole result (K.waiting out.old ≡ false → K.waiting out.new ≡ false) }

    // No more of the input is taken than the input limit and one byte.
    ensures takes { ForSome (S.left input.old) (IsTakenUpTo (budget + 1) (S.left input.new)) }
{
    let Ok(line) = Line::new(alloc) else {
        return Status::Memory;
    };
    let mut lines = Lines {
        played: Played {
            lines: 0,
            refused: false,
        },
        line,
        budget,
    };
    let Ok(mut buffer) = take_line_buffer(alloc) else {
        return Status::Memory;
    };
    match Cache::start(alloc, folder, limits, clock.now()) {
        Ok(cache) => play(cache, &mut lines, &mut buffer, input, out, folder, clock),
        Err(OpenFault::Device) => Status::Device,
        Err(OpenFault::Memory) => Status::Memory,
        Err(OpenFault::Damaged(damage)) => {
            let _ = print_damage(out, damage);
            Status::Damaged
        }
    }
}

// Takes the memory for the key or the data of a line.
fn take_line_buffer(alloc: Global) -> Result<Vec<u8>, NoMemory>
    ensures { IfOk result (λ buffer. 2200000 ≤ length buffer.items) }
{
    Ok(vec![in alloc; 0; LONGEST_LINE]?)
}

// Plays the lines of an input on an open cache, and then closes all handles and the folder.
fn play<F: Folder, S: Source, K: Sink, C: Clock>(
    mut cache: Cache,
    lines: &mut Lines,
    buffer: &mut [u8],
    input: &mut S,
    out: &mut K,
    folder: &mut F,
    clock: &mut C,
) -> Status
    requires is_open { ForSome (F.told folder.old).files (IsOpen cache.files) }
    requires buffer { 2200000 ≤ length buffer.old }
    requires first { pending lines.old.line ≡ 0 }
    requires nothing { HoldsLine lines.old.line [] }
    ensures runs { RunsLines result cache lines.old.budget (seen_as
        (outside (F.told folder.old) (K.written out.old) (S.left input.old) (C.readings clock.old))
        (outside (F.told folder.new) (K.written out.new) (S.left input.new) (C.readings clock.new))
        (Rises (F.faults folder.old) (F.faults folder.new)) (Rises (S.faults input.old) (S.faults input.new)) (K.faults out.old) (K.faults out.new)) }
    ensures untold { WhereStands cache (F.told folder.old) (2 * handle_names + (lines.old.budget + 1)) (result ≢ Status.Damaged) }
    ensures memory { result ≢ Status.Memory }
    ensures cause { CauseOnceOpen result (ForSome (S.left input.old) (λ bytes. lines.old.budget < length bytes)) (seen_as
        (outside (F.told folder.old) (K.written out.old) (S.left input.old) (C.readings clock.old))
        (outside (F.told folder.new) (K.written out.new) (S.left input.new) (C.readings clock.new))
        (Rises (F.faults folder.old) (F.faults folder.new)) (Rises (S.faults input.old) (S.faults input.new)) (K.faults out.old) (K.faults out.new)) }
    ensures later { (F.faults folder.old ≤ F.faults folder.new) × ((S.faults input.old ≤ S.faults input.new) × GoesOn K.is K.faults out.old out.new) }
    ensures handed { IfWhole result (K.waiting out.old ≡ false → K.waiting out.new ≡ false) }
    ensures takes { ForSome (S.left input.old) (IsTakenUpTo (lines.old.budget + 1) (S.left input.new)) }
{
    lines.played = Played {
        lines: 0,
        refused: false,
    };
    let ended = play_input(&mut cache, lines, buffer, input, out, folder, clock);
    let status = status_of(&ended, lines.played.refused);
    if !closes_after(&ended) {
        return status;
    }
    match end(cache, folder, clock) {
        Ok(()) => status,
        Err(Fault::Device) => Status::Device,
        Err(Fault::Damaged(_)) => Status::Damaged,
    }
}

// The status after an input with this end.
fn status_of(ended: &Result<InputEnd, StepFault>, refused: bool) -> Status
    ensures { result ≡ status_after ended.now refused }
{
    match *ended {
        Ok(InputEnd::Whole) => if refused { Status::Refused } else { Status::Ok },
        Ok(InputEnd::Failed) => Status::Source,
        Ok(InputEnd::TooLong) => Status::TooLong,
        Err(StepFault::Sink) => Status::Sink,
        Err(StepFault::Device) => Status::Device,
        Err(StepFault::Damaged(_)) => Status::Damaged,
    }
}

// Whether the handles and the folder are closed after an input with this end: not where the folder failed.
fn closes_after(ended: &Result<InputEnd, StepFault>) -> bool
    ensures { result ≡ may_close ended.now }
{
    match *ended {
        Ok(_) => true,
        Err(StepFault::Sink) => true,
        Err(StepFault::Device) => false,
        Err(StepFault::Damaged(_)) => false,
    }
}

// Closes all handles, and then the folder.
pub(crate) fn end<F: Folder, C: Clock>(
    mut cache: Cache,
    folder: &mut F,
    clock: &mut C,
) -> Result<(), Fault>
    requires is_open { ForSome (F.told folder.old).files (IsOpen cache.files) }
    ensures ends { FromHere (C.readings clock.old) (C.readings clock.new) cache (F.told folder.old) (2 * handle_names) (λ far left early late.
        EndsRun result far (F.told folder.new) (Some early) (Some late)) }
    ensures later { F.faults folder.old ≤ F.faults folder.new }
    ensures damaged { IfDamaged result (IsCommandDamage (F.told folder.new)) }
    ensures device { IfDevice result (Rises (F.faults folder.old) (F.faults folder.new)) }
{
    close_all(&mut cache, folder, clock)?;
    match cache.finish(folder) {
        Ok(()) => Ok(()),
        Err(_) => Err(Fault::Device),
    }
}
