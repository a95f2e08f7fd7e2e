// The laws of what is read, each the contract of a function with an empty body.
ghost use Rattle.blk_audit.specs.ChainLaws.{ReachedAreChained, ReachedAreTheChains, UnlistedAreReached};
ghost use Rattle.blk_audit.specs.SealLaws.{CheckedNodesAreSealed, CheckedRecordsAreSealed};

/// The reached records are those of all chains, one chain after the other; a record is reached at all exactly where its own bucket's chain reaches it; and the
/// unlisted records are some of the reached ones, in their order.
pub fn chains_are_reached_apart()
    ensures chains { ReachedAreTheChains }
    ensures chained { ReachedAreChained }
    ensures unlisted { UnlistedAreReached }
{}

/// A record or node whose checksum isn't absent and passes the check has the hash of its bytes as its checksum.
pub fn what_checks_is_sealed()
    ensures records { CheckedRecordsAreSealed }
    ensures nodes { CheckedNodesAreSealed }
{}
