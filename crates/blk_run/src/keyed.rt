// The subcommands that name an entry by its key.
ghost use Rattle.std.specs.Prelude.{◌≡◌, ◌≤◌, ℕ, List, Option, IfOk, Ok, length, false};
ghost use Rattle.blk_io.specs.Streams.{GoesOn};
ghost use Rattle.percent_encoding.specs.Percent.{percent_decode};
ghost use Rattle.spec_image.specs.Told.{Rises};
ghost use Rattle.blk_model.specs.Bounds.{bounds_of};
ghost use Rattle.blk_script.specs.Fields.{key_field};
ghost use Rattle.spec_run.specs.Script.{doom_script, get_script, put_script};
ghost use Rattle.blk_run.specs.Work.{Performs, no_input, whole_input};
ghost use Rattle.blk_run.specs.Session.{outside, seen_as};
ghost use Rattle.blk_run.specs.Statuses.{IfWhole};

use crate::ending::Status;
use crate::fixed::Put;
use crate::scripts::{Fixed, run_script};
use crate::whole_input::{InputFault, LONGEST_INPUT, read_input};
use blk_io::{Clock, Folder, NoMemory, Sink, Source};
use blk_model::{Command, Limits};
use blk_script::decode_key;
use std::alloc::Global;

// Prints a stream of the entry with a key, which is spelled as in a script line.
pub(crate) fn get<F: Folder, K: Sink, C: Clock>(
    alloc: Global,
    limits: Limits,
    key: &[u8],
    stream: u8,
    out: &mut K,
    folder: &mut F,
    clock: &mut C,
) -> Status
    requires spelled { key_field key.now ≡ Ok (percent_decode key.now) }
    ensures performs { (left : Option (List ℕ)) → Performs (no_input (get_script (percent_decode key.now) stream)) result (bounds_of limits) (seen_as
        (outside (F.told folder.old) (K.written out.old) left (C.readings clock.old))
        (outside (F.told folder.new) (K.written out.new) left (C.readings clock.new))
        (Rises (F.faults folder.old) (F.faults folder.new)) ⊥ (K.faults out.old) (K.faults out.new)) }
    ensures later { (F.faults folder.old ≤ F.faults folder.new) × GoesOn K.is K.faults out.old out.new }
    ensures handed { IfWhole result (K.waiting out.old ≡ false → K.waiting out.new ≡ false) }
{
    let Ok(mut buffer) = take_buffer(alloc, key.len()) else {
        return Status::Memory;
    };
    let Ok(key) = decode_key(key, &mut buffer) else {
        unreachable!()
    };
    let open = Command::Open { handle: 0, key };
    let read = Command::Read {
        handle: 0,
        stream,
        offset: 0,
        count: u64::MAX,
    };
    let close = Command::Close { handle: 0 };
    let commands = Fixed::Commands(&[open, read, close]);
    run_script(alloc, limits, commands, out, folder, clock)
}

// Dooms the entry with a key, which is spelled as in a script line.
pub(crate) fn doom<F: Folder, K: Sink, C: Clock>(
    alloc: Global,
    limits: Limits,
    key: &[u8],
    out: &mut K,
    folder: &mut F,
    clock: &mut C,
) -> Status
    requires spelled { key_field key.now ≡ Ok (percent_decode key.now) }
    ensures performs { (left : Option (List ℕ)) → Performs (no_input (doom_script (percent_decode key.now))) result (bounds_of limits) (seen_as
        (outside (F.told folder.old) (K.written out.old) left (C.readings clock.old))
        (outside (F.told folder.new) (K.written out.new) left (C.readings clock.new))
        (Rises (F.faults folder.old) (F.faults folder.new)) ⊥ (K.faults out.old) (K.faults out.new)) }
    ensures later { (F.faults folder.old ≤ F.faults folder.new) × GoesOn K.is K.faults out.old out.new }
    ensures handed { IfWhole result (K.waiting out.old ≡ false → K.waiting out.new ≡ false) }
{
    let Ok(mut buffer) = take_buffer(alloc, key.len()) else {
        return Status::Memory;
    };
    let Ok(key) = decode_key(key, &mut buffer) else {
        unreachable!()
    };
    let commands = Fixed::Commands(&[Command::DoomKey { key }]);
    run_script(alloc, limits, commands, out, folder, clock)
}

// A stream of an entry, by its key as it is spelled in a script line.
#[derive(Clone, Copy)]
pub(crate) struct Place<'a> {
    pub(crate) key: &'a [u8],
    pub(crate) stream: u8,
}

// Writes the whole input to a stream of the entry with a key, which is spelled as in a script line. The input is read before
// the folder is opened.
pub(crate) fn put<F: Folder, S: Source, K: Sink, C: Clock>(
    alloc: Global,
    limits: Limits,
    place: Place,
    input: &mut S,
    out: &mut K,
    folder: &mut F,
    clock: &mut C,
) -> Status
    requires spelled { key_field place.key.now ≡ Ok (percent_decode place.key.now) }
    ensures performs { Performs (whole_input (put_script (percent_decode place.entry.key.now) place.entry.stream)) result (bounds_of limits) (seen_as
        (outside (F.told folder.old) (K.written out.old) (S.left input.old) (C.readings clock.old))
        (outside (F.told folder.new) (K.written out.new) (S.left input.new) (C.readings clock.new))
        (Rises (F.faults folder.old) (F.faults folder.new)) (Rises (S.faults input.old) (S.faults input.new)) (K.faults out.old) (K.faults out.new)) }
    ensures later { (F.faults folder.old ≤ F.faults folder.new) × ((S.faults input.old ≤ S.faults input.new) × GoesOn K.is K.faults out.old out.new) }
    ensures handed { IfWhole result (K.waiting out.old ≡ false → K.waiting out.new ≡ false) }
{
    let Place { key, stream } = place;
    let Ok(mut buffer) = take_buffer(alloc, key.len()) else {
        return Status::Memory;
    };
    let Ok(mut bytes) = take_buffer(alloc, LONGEST_INPUT + 1) else {
        return Status::Memory;
    };
    let Ok(key) = decode_key(key, &mut buffer) else {
        unreachable!()
    };
    match read_input(input, &mut bytes) {
        Ok(len) => {
            let bytes = &bytes[..len];
            let put = Fixed::Put(Put { key, stream, bytes });
            run_script(alloc, limits, put, out, folder, clock)
        }
        Err(InputFault::Source) => Status::Source,
        Err(InputFault::TooLong) => Status::TooLong,
    }
}

// Takes memory for `count` bytes.
fn take_buffer(alloc: Global, count: usize) -> Result<Vec<u8>, NoMemory>
    ensures { IfOk result (λ buffer. length buffer.items ≡ count) }
{
    Ok(vec![in alloc; 0; count]?)
}
