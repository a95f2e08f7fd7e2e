// The reasons for which a node or a record is dropped.
ghost use Rattle.std.specs.Prelude.{◌≡◌};
ghost use Rattle.blk_verdict.specs.Reasons.{reason_number};

/// Why a node is dropped and, for the last of them, why a record is; the first reason that holds counts.
#[derive(Clone, Copy, Debug, PartialEq, Eq)]
pub enum Reason {
    /// The node names no record that is there.
    Contents = 1,
    /// The record has a wrong checksum.
    Seal = 2,
    /// The record is not in the state of a live entry.
    State = 3,
    /// The record names another node.
    Back = 4,
    /// The record's flags are none that a record has.
    Flags = 5,
    /// The node is dirty.
    Dirty = 6,
    /// The length of the key is wrong, or the record has another number of blocks than the key asks for.
    KeyLength = 7,
    /// The key is not stored as its length asks for.
    KeyPlace = 8,
    /// The hash is not that of the key.
    Hash = 9,
    /// The record is not in the chain of its bucket.
    Chain = 10,
    /// A stream is not stored as its size asks for.
    Streams = 11,
    /// A parent or a part has no index that is right for it, or a part no name.
    Sparse = 12,
    /// A kept entry owns one of the record's blocks or external files, or two of its record, long key and streams share one.
    Claimed = 13,
    /// A kept record has the same key, and both are parts or neither is.
    Name = 14,
    /// A part has no kept parent with its bit.
    Parent = 15,
    /// A record that a chain reaches is not that of a walked node.
    Unlisted = 16,
}

impl Reason {
    /// The number of the reason, from 1 to 16.
    pub fn number(self) -> u32
        ensures { result ≡ reason_number self }
    {
        self as u32
    }
}
