// Answers are printed as lines.
ghost use Rattle.std.specs.Prelude.{◌≡◌, ◌≢◌, ◌<◌, ◌++◌, ℕ, OnOk, OnErr};
ghost use Rattle.std.specs.Option.{option_map};
ghost use Rattle.spec_image.specs.Told.{Rises};
ghost use Rattle.blk_io.specs.Streams.{Appends, GoesOn};
ghost use Rattle.blk_model.specs.Reply.{answered};
ghost use Rattle.blk_script.specs.Reply.{reply_text};

use crate::print::Field::{Number, Word};
use crate::print::print_fields;
use blk_io::{Failed, Sink};
use blk_model::Answer;

/// Prints the line of an answer. One that gives bytes has a line with these bytes, which is
/// printed by other calls; of listed rows only the last line, `end N`, is printed here.
#[tactic(auto, unfolding(crate::specs::Reply::reply_text))]
pub fn print_reply<K: Sink>(out: &mut K, answer: &Answer) -> Result<(), Failed>
    requires { (n : ℕ) → answer.now ≢ Answer.Bytes n }
    ensures steps { OnOk result (K.written out.new ≡ option_map (λ w. w ++ reply_text (answered answer.now)) (K.written out.old)) }
    ensures prefix { Appends (K.written out.old) (K.written out.new) (reply_text (answered answer.now)) }
    ensures later { GoesOn K.is K.faults out.old out.new }
    ensures failed { OnErr result (Rises (K.faults out.old) (K.faults out.new)) }
{
    match *answer {
        Answer::Done => print_fields(out, &[Word("ok")]),
        Answer::Bytes(_) => unreachable!(),
        Answer::Wrote(n) | Answer::Trimmed(n) => print_fields(out, &[Word("ok"), Number(n)]),
        Answer::Size(n) => print_fields(out, &[Word("size"), Number(n)]),
        Answer::Range { start, length } => {
            print_fields(out, &[Word("range"), Number(start), Number(length)])
        }
        Answer::Listed(n) => print_fields(out, &[Word("end"), Number(n)]),
        Answer::Totals { items, bytes } => {
            print_fields(out, &[Word("total"), Number(items), Number(bytes)])
        }
        Answer::Refused(why) => print_fields(
            out,
            &[
                Word("refused"),
                Number(why.number().into()),
                Word(why.name()),
            ],
        ),
    }
}
