//! The cache as a map: its commands, its answers, and what each command does to its state.
//!
//! The state and the steps are definitions in `specs/`, and the crates above meet them. What is here as code are the
//! types that clients see and the limits that a cache is made with. The laws over the definitions are the contracts of
//! the functions in `laws`.
#![tactic(auto)]

ghost use Rattle.std.specs.Prelude.{◌≡◌};

mod bounds;
mod checked;
pub mod laws;

pub use bounds::{Limits, MOST_BYTES, MOST_ITEMS, MOST_STREAM};
pub use checked::limits;
use std::error::Error;
use std::fmt;

/// A command of a client. A handle is a name below 4096; offsets, counts and bytes are in bytes.
#[derive(Clone, Copy, Debug, PartialEq, Eq)]
pub enum Command<'a> {
    /// Makes a plain object with empty streams, which the handle names.
    Create {
        handle: u16,
        key: &'a [u8],
    },
    /// Gives the handle to the live object with the key.
    Open {
        handle: u16,
        key: &'a [u8],
    },
    /// Reads a stream from an offset on, at most `count` bytes.
    Read {
        handle: u16,
        stream: u8,
        offset: u64,
        count: u64,
    },
    /// Writes a stream at an offset; the stream ends there where `cut` is true.
    Write {
        handle: u16,
        stream: u8,
        offset: u64,
        cut: bool,
        bytes: &'a [u8],
    },
    /// Asks for the length of a stream.
    Size {
        handle: u16,
        stream: u8,
    },
    /// Writes sparse data at an offset.
    SparseWrite {
        handle: u16,
        offset: u64,
        bytes: &'a [u8],
    },
    /// Reads sparse data up to the first byte that is absent, at most `count` bytes.
    SparseRead {
        handle: u16,
        offset: u64,
        count: u64,
    },
    /// Asks for the first run of present sparse data inside a range.
    SparseRange {
        handle: u16,
        offset: u64,
        count: u64,
    },
    /// Dooms the object that the handle names.
    Doom {
        handle: u16,
    },
    /// Dooms the live object with the key.
    DoomKey {
        key: &'a [u8],
    },
    /// Frees the handle.
    Close {
        handle: u16,
    },
    /// Makes the object that the handle names clean.
    Flush {
        handle: u16,
    },
    /// Lists all items, the last used first.
    List,
    /// Evicts until the total is at most so many bytes.
    Trim {
        bytes: u64,
    },
    /// Asks for the number of items and their bytes.
    Total,
}

/// Why a command is refused. A refusal changes nothing.
#[derive(Clone, Copy, Debug, PartialEq, Eq)]
pub enum Refusal {
    /// The handle is no name, or names nothing.
    BadHandle = 1,
    /// The handle names an object already.
    HandleBusy = 2,
    /// No live object has the key.
    Missing = 3,
    /// A live object has the key.
    Exists = 4,
    /// No stream has the number.
    BadStream = 5,
    /// The stream would be too long, or the sparse range is.
    TooLarge = 6,
    /// The object is plain, and cannot be taken as sparse.
    NotSparse = 7,
    /// The object is sparse, and keeps the stream to itself.
    SparseStream = 8,
    /// The range ends past where sparse data does.
    RangeEnd = 9,
    /// The object is doomed.
    Doomed = 10,
    /// What is pinned leaves no space.
    Full = 11,
    /// Out of memory. The map model never says so.
    Memory = 12,
    /// The key has no byte, or too many.
    BadKey = 13,
    /// Too many handles are bound. The map model never says so.
    NoHandle = 14,
}

impl Refusal {
    ghost use Rattle.blk_model.specs.RefusalTable.{number_of_refusal, name_of_refusal};

    /// The number of the refusal, from 1 to 14.
    pub fn number(self) -> u8
        ensures { result ≡ number_of_refusal self }
    {
        self as u8
    }

    /// The name of the refusal.
    pub fn name(self) -> &'static str
        ensures { result.now ≡ name_of_refusal self }
    {
        match self {
            Refusal::BadHandle => "BadHandle",
            Refusal::HandleBusy => "HandleBusy",
            Refusal::Missing => "Missing",
            Refusal::Exists => "Exists",
            Refusal::BadStream => "BadStream",
            Refusal::TooLarge => "TooLarge",
            Refusal::NotSparse => "NotSparse",
            Refusal::SparseStream => "SparseStream",
            Refusal::RangeEnd => "RangeEnd",
            Refusal::Doomed => "Doomed",
            Refusal::Full => "Full",
            Refusal::Memory => "Memory",
            Refusal::BadKey => "BadKey",
            Refusal::NoHandle => "NoHandle",
        }
    }
}

impl fmt::Display for Refusal {
    ghost use Rattle.std.specs.Prelude.{Some};
    ghost use Rattle.blk_model.specs.RefusalTable.{name_of_refusal};

    ghost output = { λ refusal. Some (name_of_refusal refusal) };

    fn fmt<W: fmt::Write>(&self, f: &mut fmt::Formatter<W>) -> fmt::Result {
        f.write_str(self.name())
    }
}

impl Error for Refusal {}

/// What a command answers. The bytes that were read and the rows that were listed are given apart from it.
#[derive(Clone, Copy, Debug, PartialEq, Eq)]
pub enum Answer {
    /// It is done.
    Done,
    /// So many bytes were read.
    Bytes(u64),
    /// So many bytes were written.
    Wrote(u64),
    /// The length of a stream.
    Size(u64),
    /// A run of present bytes, or the asked offset and 0 where there is none.
    Range { start: u64, length: u64 },
    /// So many items were listed.
    Listed(u64),
    /// So many items were evicted.
    Trimmed(u64),
    /// The number of items, and the sum of their costs in bytes.
    Totals { items: u64, bytes: u64 },
    /// It was refused.
    Refused(Refusal),
}
