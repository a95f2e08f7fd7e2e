// The rows of a List are printed.
ghost use Rattle.blk_io.specs.Streams.{GoesOn};
ghost use Rattle.blk_evict.specs.RoomPrinting.{FailsWhereItRose, PrintsUnlessFailed};
ghost use Rattle.blk_print.specs.PrintCalls.{plain_line, sparse_line, part_line};

use blk_evict::say;
use blk_io::Sink;
use blk_script::Field::{Key, Number, Word};

/// Prints the row of an object without an index, unless the output failed before: its key and the lengths of its streams.
pub(crate) fn say_plain<K: Sink>(
    out: &mut K,
    failed: &mut bool,
    key: &[u8],
    first: u64,
    second: u64,
    third: u64,
)
    ensures prints { PrintsUnlessFailed failed.old failed.new (K.written out.old) (K.written out.new) (plain_line key.now first second third) }
    ensures failed { FailsWhereItRose failed.old failed.new (K.faults out.old) (K.faults out.new) }
    ensures later { GoesOn K.is K.faults out.old out.new }
{
    say(
        out,
        failed,
        &[
            Word("main"),
            Key(key),
            Number(first),
            Number(second),
            Number(third),
        ],
    );
}

/// Prints the row of an object with an index of parts, unless the output failed before: its key and the length of stream 0.
pub(crate) fn say_sparse<K: Sink>(out: &mut K, failed: &mut bool, key: &[u8], first: u64)
    ensures prints { PrintsUnlessFailed failed.old failed.new (K.written out.old) (K.written out.new) (sparse_line key.now first) }
    ensures failed { FailsWhereItRose failed.old failed.new (K.faults out.old) (K.faults out.new) }
    ensures later { GoesOn K.is K.faults out.old out.new }
{
    say(out, failed, &[Word("sparse"), Key(key), Number(first)]);
}

/// Prints the row of a part, unless the output failed before: the key of its object, its number, and how many bytes it has.
pub(crate) fn say_part<K: Sink>(out: &mut K, failed: &mut bool, key: &[u8], number: u64, size: u64)
    ensures prints { PrintsUnlessFailed failed.old failed.new (K.written out.old) (K.written out.new) (part_line key.now number size) }
    ensures failed { FailsWhereItRose failed.old failed.new (K.faults out.old) (K.faults out.new) }
    ensures later { GoesOn K.is K.faults out.old out.new }
{
    say(
        out,
        failed,
        &[Word("part"), Key(key), Number(number), Number(size)],
    );
}
