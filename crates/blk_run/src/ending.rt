// How a run ended.
ghost use Rattle.std.specs.Prelude.{◌≡◌};

use std::fmt;

/// How a run ended.
#[derive(Clone, Copy, Debug, PartialEq, Eq)]
pub enum Status {
    /// It was done.
    Ok = 0,
    /// It was done, and something was refused.
    Refused = 1,
    /// The arguments of the command line are no command. The usage was printed, and nothing else was done.
    Words = 2,
    /// The folder failed.
    Device = 3,
    /// The input failed.
    Source = 4,
    /// The output failed.
    Sink = 5,
    /// Out of memory. Nothing was done.
    Memory = 6,
    /// A check of the folder failed. At the start what it found was printed, and where the folder is observable nothing was
    /// written. Later one fails only in an opaque folder, and what it found is printed by `inspect` and `verify` alone.
    Damaged = 7,
    /// The input is longer than it may be.
    TooLong = 8,
}

impl Status {
    ghost use Rattle.blk_run.specs.Codes.{code_of};

    /// The number that the process ends with.
    pub fn code(self) -> u8
        ensures { result ≡ code_of self }
    {
        self as u8
    }
}

impl fmt::Display for Status {
    ghost use Rattle.std.specs.Prelude.{Some};
    ghost use Rattle.blk_run.specs.Codes.{status_text};

    ghost output = { λ status. Some (status_text status) };

    fn fmt<W: fmt::Write>(&self, f: &mut fmt::Formatter<W>) -> fmt::Result {
        f.write_str(match self {
            Status::Ok => "done",
            Status::Refused => "something was refused",
            Status::Words => "the words are no command",
            Status::Device => "the folder failed",
            Status::Source => "the input failed",
            Status::Sink => "the output failed",
            Status::Memory => "there is no memory",
            Status::Damaged => "the folder is damaged",
            Status::TooLong => "the input is too long",
        })
    }
}
