// By how much the sum of the costs changes when a stream is written: laws, each the contract of a function with an empty body.
ghost use Rattle.blk_object.specs.Counters.{MoreIsCounted};
ghost use Rattle.blk_object.specs.Writing.{RisesAreCounted, UsesLeaveTheRise};

/// Where the index counts a state, and its counter of bytes is changed by the difference in the sum of costs, it counts the state with the other sum; an access
/// to an item leaves the sum as it is.
pub fn rises_are_counted()
    ensures counted { RisesAreCounted }
    ensures uses { UsesLeaveTheRise }
{}

/// Where the index counts a state, and its counters are raised by some items and their cost, it counts the state with these items more.
pub fn more_is_counted()
    ensures { MoreIsCounted }
{}
