// Evicted items are printed.
ghost use Rattle.std.specs.Prelude.{map};
ghost use Rattle.blk_io.specs.Streams.{GoesOn};
ghost use Rattle.blk_model.specs.Items.{main, part};
ghost use Rattle.blk_script.specs.Reply.{evicted_line};
ghost use Rattle.blk_script.specs.Spelling.{field_text, line};
ghost use Rattle.blk_evict.specs.RoomPrinting.{FailsWhereItRose, PrintsUnlessFailed};

use blk_io::Sink;
use blk_script::Field::{self, Key, Number, Word};
use blk_script::print_fields;

/// Prints that a main item was evicted, unless the output failed before.
pub(crate) fn say_evicted<K: Sink>(out: &mut K, failed: &mut bool, key: &[u8])
    ensures prints { PrintsUnlessFailed failed.old failed.new (K.written out.old) (K.written out.new) (evicted_line (main key.now)) }
    ensures failed { FailsWhereItRose failed.old failed.new (K.faults out.old) (K.faults out.new) }
    ensures later { GoesOn K.is K.faults out.old out.new }
{
    say(out, failed, &[Word("evicted"), Key(key)]);
}

/// Prints that a part was evicted, unless the output failed before.
pub(crate) fn say_evicted_part<K: Sink>(out: &mut K, failed: &mut bool, key: &[u8], number: u64)
    ensures prints { PrintsUnlessFailed failed.old failed.new (K.written out.old) (K.written out.new) (evicted_line (part key.now number)) }
    ensures failed { FailsWhereItRose failed.old failed.new (K.faults out.old) (K.faults out.new) }
    ensures later { GoesOn K.is K.faults out.old out.new }
{
    say(
        out,
        failed,
        &[Word("evicted"), Key(key), Word("part"), Number(number)],
    );
}

/// Prints a line, unless the output failed before.
pub fn say<K: Sink>(out: &mut K, failed: &mut bool, fields: &[Field])
    ensures prints { PrintsUnlessFailed failed.old failed.new (K.written out.old) (K.written out.new) (line (map field_text fields.now)) }
    ensures failed { FailsWhereItRose failed.old failed.new (K.faults out.old) (K.faults out.new) }
    ensures later { GoesOn K.is K.faults out.old out.new }
{
    if *failed {
        return;
    }
    *failed = print_fields(out, fields).is_err();
}
