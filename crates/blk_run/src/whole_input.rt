// The whole input is read.
ghost use Rattle.std.specs.Prelude.{◌≡◌, ◌≤◌, length, Some};
ghost use Rattle.spec_image.specs.Told.{Rises};
ghost use Rattle.blk_run.specs.WholeInputs.{IfSource, Reads};
ghost use Rattle.blk_run.specs.Telling.{TakesAs};

use blk_io::Source;

/// How many bytes `put` writes at most.
pub(crate) const LONGEST_INPUT: usize = 1048576;

// Why the input was not read whole.
#[derive(Clone, Copy)]
pub(crate) enum InputFault {
    // It failed.
    Source,
    // It has too many bytes.
    TooLong,
}

// Reads the whole input into the start of the buffer, which is a byte longer than the input may be, and gives how many bytes it
// is.
pub(crate) fn read_input<S: Source>(input: &mut S, buffer: &mut [u8]) -> Result<usize, InputFault>
    requires buffer { length buffer.old ≡ 1048577 }
    ensures buffer { length buffer.new ≡ 1048577 }
    ensures reads { Reads result (S.left input.old) (S.left input.new) buffer.new }

    // The bytes that were read are those that the input gave, whether it is observable or not.
    ensures given { TakesAs (S.left input.old) (S.left input.new) (λ bytes rest. Reads result (Some bytes) (Some rest) buffer.new) }
    ensures later { S.faults input.old ≤ S.faults input.new }
    ensures source { IfSource result (Rises (S.faults input.old) (S.faults input.new)) }
{
    let mut len = 0;
    while len <= LONGEST_INPUT {
        match input.take(&mut buffer[len..]) {
            Ok(0) => return Ok(len),
            Ok(taken) => len += taken,
            Err(_) => return Err(InputFault::Source),
        }
    }
    Err(InputFault::TooLong)
}
