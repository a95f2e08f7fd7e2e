//! The generator: a pseudo-random workload from a seed, and the counters of its commands.
//!
//! An iteration draws a key, a stream and how many bytes are written; what it asks of a cache then is the script
//! `gen_script` of `specs/Generator`. What is drawn is specified in `specs/Draws`. No call takes memory.
#![tactic(auto)]

ghost use Rattle.blk_gen.specs.Laws.{CommandsOfTurnsAreFew, TurnsSayTheirCounts};

mod counting;
mod data;
mod drawing;

pub use counting::Counts;
pub use data::fill;
pub use drawing::{Draws, Turn};

/// A run of the generator prints the counters of the commands that it made; these are at most five for each iteration.
pub fn turns_are_counted()
    ensures says { TurnsSayTheirCounts }
    ensures few { CommandsOfTurnsAreFew }
{}
