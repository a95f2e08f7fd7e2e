// What is counted of the commands.
ghost use Rattle.std.specs.Prelude.{◌≡◌, ◌++◌, OnOk, OnErr};
ghost use Rattle.std.specs.Option.{option_map};
ghost use Rattle.spec_image.specs.Told.{Rises};
ghost use Rattle.blk_io.specs.Streams.{Appends, GoesOn};
ghost use Rattle.blk_gen.specs.Counting.{no_counts, capped, with_answer, refusals_in, bytes_read, counts_line, AreLong};

use blk_io::{Failed, Sink};
use blk_model::Answer;
use blk_script::Field::{Number, Word};
use blk_script::print_fields;

/// What is counted of the commands of a generator.
#[derive(Clone, Copy, Debug, PartialEq, Eq)]
pub struct Counts {
    /// The commands.
    pub commands: u64,
    /// Those that were refused.
    pub refused: u64,
    /// The items that were evicted.
    pub evicted: u64,
    /// How many bytes were read.
    pub read: u64,
}

impl Counts {
    /// Nothing is counted yet.
    pub fn new() -> Counts
        ensures { result ≡ no_counts }
    {
        Counts {
            commands: 0,
            refused: 0,
            evicted: 0,
            read: 0,
        }
    }

    /// Counts a command, by its answer and by how many items it evicted. A count that comes to 2^64 - 1 stays there.
    pub fn count(&mut self, answer: &Answer, evicted: u64)
        ensures held { self.new ≡ capped (with_answer answer.now evicted self.old) }
        ensures exact { AreLong (with_answer answer.now evicted self.old) → self.new ≡ with_answer answer.now evicted self.old }
    {
        self.commands = self.commands.saturating_add(1);
        self.refused = self.refused.saturating_add(refusals_in(answer));
        self.evicted = self.evicted.saturating_add(evicted);
        self.read = self.read.saturating_add(bytes_read(answer));
    }

    /// Prints the counts, on a line.
    ///
    /// Where the output fails, a prefix of the line may have been printed.
    pub fn print_counts<K: Sink>(&self, out: &mut K) -> Result<(), Failed>
        ensures steps { OnOk result (K.written out.new ≡ option_map (λ w. w ++ counts_line self.now) (K.written out.old)) }
        ensures prefix { Appends (K.written out.old) (K.written out.new) (counts_line self.now) }
        ensures later { GoesOn K.is K.faults out.old out.new }
        ensures failed { OnErr result (Rises (K.faults out.old) (K.faults out.new)) }
    {
        print_fields(
            out,
            &[
                Word("commands"),
                Number(self.commands),
                Word("refused"),
                Number(self.refused),
                Word("evicted"),
                Number(self.evicted),
                Word("read"),
                Number(self.read),
            ],
        )
    }
}

// How many commands were refused, by the answer to one.
fn refusals_in(answer: &Answer) -> u64
    ensures { result ≡ refusals_in answer.now }
{
    match answer {
        Answer::Refused(_) => 1,
        _ => 0,
    }
}

// How many bytes were read, by an answer.
fn bytes_read(answer: &Answer) -> u64
    ensures { result ≡ bytes_read answer.now }
{
    match *answer {
        Answer::Bytes(n) => n,
        _ => 0,
    }
}
