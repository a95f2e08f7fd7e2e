//! The laws of what is evicted and of the texts that are printed, each the contract of a function with an empty
//! body.
ghost use Rattle.blk_evict.specs.RoomLaws.{CoveredPartsStayOfNamed, GroupsAreCountedLess, ItemsThatStayArePinnedAsBefore, NothingMoreGoes, TheLastUnpinnedMayGo, TheLastUnpinnedGoesNext, TheOthersGoFromWhatIsLeft};
ghost use Rattle.blk_evict.specs.RoomPrinting.{FaultsGoOn, NothingIsPrinted, PrintsGoOn};

/// Eviction units are evicted one after another, each that of the last item that isn't pinned in the LRU list as it is then, until the goal is met or each item
/// is pinned.
pub fn groups_go_one_after_another()
    ensures done { NothingMoreGoes }
    ensures next { TheLastUnpinnedGoesNext }
    ensures others { TheOthersGoFromWhatIsLeft }
    ensures pinned { ItemsThatStayArePinnedAsBefore }
    ensures goes { TheLastUnpinnedMayGo }
    ensures stay { CoveredPartsStayOfNamed }
{}

/// Texts are printed one after another, until the output fails.
pub fn prints_go_on()
    ensures nothing { NothingIsPrinted }
    ensures on { PrintsGoOn }
    ensures faults { FaultsGoOn }
{}

/// Without the eviction unit of an item that may be evicted, a state has as many items less as the unit has, and the sum of its costs is less by theirs.
pub fn groups_are_counted_less()
    ensures { GroupsAreCountedLess }
{}
