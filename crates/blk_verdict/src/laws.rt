// The laws of loaded records, the contract of a function with an empty body.
ghost use Rattle.blk_verdict.specs.Charges.{LoadedAreCharged};
ghost use Rattle.blk_verdict.specs.KeptKeys.{LoadedIndexesAreFound, LoadedKeysAreFound};

/// The words that are kept in memory of an entry lead to its key, and to its index if it is a parent, where its node loads in the image; the cost that they say
/// is that of the entry.
pub fn loaded_keys_are_found()
    ensures keys { LoadedKeysAreFound }
    ensures indexes { LoadedIndexesAreFound }
    ensures charges { LoadedAreCharged }
{}
