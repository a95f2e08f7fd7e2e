// The subcommands that print what a folder holds, and leave it as it is.
ghost use Rattle.std.specs.Prelude.{◌≡◌, ◌≤◌, List, Option, ℕ, false, OnOk};
ghost use Rattle.spec_image.specs.Told.{Rises, Stays};
ghost use Rattle.blk_io.specs.Streams.{GoesOn, Readings};
ghost use Rattle.blk_model.specs.State.{Bounds};
ghost use Rattle.blk_inspect.specs.Texts.{inspect_text, verify_text};
ghost use Rattle.blk_run.specs.Shown.{PrintsFault, status_shown};
ghost use Rattle.blk_run.specs.Errors.{IsFlushed};
ghost use Rattle.blk_run.specs.Work.{Performs, folder_text};
ghost use Rattle.blk_run.specs.Session.{outside, seen_as};
ghost use Rattle.blk_run.specs.Statuses.{IfWhole};

use crate::ending::Status;
use crate::printing::print_damage;
use blk_inspect::{InspectFault, Part, inspect, verify};
use blk_io::{Folder, Sink};
use std::alloc::Global;

// Prints a part of the folder.
pub(crate) fn show_part<F: Folder, K: Sink>(
    alloc: Global,
    part: &Part,
    out: &mut K,
    folder: &mut F,
) -> Status
    ensures performs { (limits : Bounds) (left : Option (List ℕ)) (clock : Option Readings)
        → Performs (folder_text (inspect_text part.now)) result limits (seen_as
        (outside (F.told folder.old) (K.written out.old) left clock)
        (outside (F.told folder.new) (K.written out.new) left clock)
        (Rises (F.faults folder.old) (F.faults folder.new)) ⊥ (K.faults out.old) (K.faults out.new)) }
    ensures stays { Stays (F.told folder.old) (F.told folder.new) }
    ensures later { (F.faults folder.old ≤ F.faults folder.new) × GoesOn K.is K.faults out.old out.new }
    ensures handed { IfWhole result (K.waiting out.old ≡ false → K.waiting out.new ≡ false) }
{
    let shown = flush_text(inspect(alloc, folder, out, part), out);
    end_shown(&shown, out)
}

// Prints what the folder holds, and what is dropped of it.
pub(crate) fn show_verdict<F: Folder, K: Sink>(alloc: Global, out: &mut K, folder: &mut F) -> Status
    ensures performs { (limits : Bounds) (left : Option (List ℕ)) (clock : Option Readings)
        → Performs (folder_text verify_text) result limits (seen_as
        (outside (F.told folder.old) (K.written out.old) left clock)
        (outside (F.told folder.new) (K.written out.new) left clock)
        (Rises (F.faults folder.old) (F.faults folder.new)) ⊥ (K.faults out.old) (K.faults out.new)) }
    ensures stays { Stays (F.told folder.old) (F.told folder.new) }
    ensures later { (F.faults folder.old ≤ F.faults folder.new) × GoesOn K.is K.faults out.old out.new }
    ensures handed { IfWhole result (K.waiting out.old ≡ false → K.waiting out.new ≡ false) }
{
    let shown = flush_text(verify(alloc, folder, out), out);
    end_shown(&shown, out)
}

// Flushes the text that an inspection printed. Where it has one and that fails, the output failed; a fault stays the answer.
fn flush_text<K: Sink>(shown: Result<(), InspectFault>, out: &mut K) -> Result<(), InspectFault>
    ensures flushed { IsFlushed shown result InspectFault.Sink (Rises (K.faults out.old) (K.faults out.new)) }
    ensures stays { K.written out.new ≡ K.written out.old }
    ensures later { GoesOn K.is K.faults out.old out.new }
    ensures handed { OnOk result (K.waiting out.new ≡ false) }
{
    match (shown, out.flush()) {
        (Ok(()), Err(_)) => Err(InspectFault::Sink),
        (shown, _) => shown,
    }
}

// The status where an inspection answers so. A failed check is printed.
fn end_shown<K: Sink>(shown: &Result<(), InspectFault>, out: &mut K) -> Status
    ensures status { result ≡ status_shown shown.now }
    ensures printed { PrintsFault shown.now (K.written out.old) (K.written out.new) (K.faults out.old) (K.faults out.new) }
    ensures later { GoesOn K.is K.faults out.old out.new }
    ensures handed { IfWhole result (K.waiting out.new ≡ K.waiting out.old) }
{
    match *shown {
        Ok(()) => Status::Ok,
        Err(InspectFault::Device) => Status::Device,
        Err(InspectFault::Damaged(damage)) => {
            let _ = print_damage(out, damage);
            Status::Damaged
        }
        Err(InspectFault::Sink) => Status::Sink,
        Err(InspectFault::Memory) => Status::Memory,
    }
}
