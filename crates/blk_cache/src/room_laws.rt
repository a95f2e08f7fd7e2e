//! The laws of space, each the contract of a function with an empty body.
ghost use Rattle.blk_cache.specs.RoomKept.{EvictedStatesAreKept, NamedObjectsLieApart, WholeGroupsLieApart};
ghost use Rattle.blk_cache.specs.RoomTold.{NamedObjectsArePinned, RoomIsMade, RoomIsTold};

/// Where no part is in range, exactly the objects that handles name are pinned; so the counters of a cache decide whether there is space.
pub fn named_objects_are_pinned()
    ensures pinned { NamedObjectsArePinned }
    ensures told { RoomIsTold }
    ensures made { RoomIsMade }
{}

/// Once the eviction unit of the last item that isn't pinned is out of the folder, the cache keeps the state without it; objects that handles name have
/// the nodes that they had.
pub fn evicted_states_are_kept()
    ensures kept { EvictedStatesAreKept }
    ensures apart { NamedObjectsLieApart }
    ensures whole { WholeGroupsLieApart }
{}
