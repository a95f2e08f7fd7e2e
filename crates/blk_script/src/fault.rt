// Why a line is no command.
ghost use Rattle.std.specs.Prelude.{◌≡◌};
ghost use Rattle.blk_script.specs.Faults.{fault_number, fault_name};

use std::error::Error;
use std::fmt;

/// Why a line is no command. The first fault in this order is given: `TooLong`, `Empty`,
/// `UnknownWord`, `FieldCount`, and then that of the first field that fails.
#[derive(Clone, Copy, Debug, PartialEq, Eq)]
pub enum LineFault {
    /// The line has no byte.
    Empty = 1,
    /// The first field is no word of the language.
    UnknownWord = 2,
    /// The word has another number of fields.
    FieldCount = 3,
    /// A field is no number, or one that is too large.
    Number = 4,
    /// A field is no data.
    Hex = 5,
    /// A field is no key.
    Key = 6,
    /// The line or its data is too long.
    TooLong = 7,
}

impl LineFault {
    /// The number of the fault, from 1 to 7.
    pub fn number(self) -> u8
        ensures { result ≡ fault_number self }
    {
        self as u8
    }

    /// The name of the fault.
    pub fn name(self) -> &'static str
        ensures { result.now ≡ fault_name self }
    {
        match self {
            LineFault::Empty => "Empty",
            LineFault::UnknownWord => "UnknownWord",
            LineFault::FieldCount => "FieldCount",
            LineFault::Number => "Number",
            LineFault::Hex => "Hex",
            LineFault::Key => "Key",
            LineFault::TooLong => "TooLong",
        }
    }
}

impl fmt::Display for LineFault {
    ghost use Rattle.std.specs.Prelude.{Some};
    ghost use Rattle.blk_script.specs.Faults.{fault_name};

    ghost output = { λ fault. Some (fault_name fault) };

    fn fmt<W: fmt::Write>(&self, f: &mut fmt::Formatter<W>) -> fmt::Result {
        f.write_str(self.name())
    }
}

impl Error for LineFault {}
