// What items that are taken out are to the state that was kept: laws, each the contract of a function with an empty body.
ghost use Rattle.blk_object.specs.Counters.{LessIsCounted};
ghost use Rattle.blk_object.specs.RemovingFound.{FoundEntriesLieBehind, KeptStatesCanBeSearched};
ghost use Rattle.blk_object.specs.RemovingObjects.{PlainObjectsGoAlone};
ghost use Rattle.blk_object.specs.RemovingParts.{GoingLonePartsFindEither, GoingMainsFindEither, GoingPartsFindDoomed, LeftItemsMayGoOut, TakenOutItemsAreOut, TakenOutItemsLoad, UnlinkedItemsFindDoomed};
ghost use Rattle.blk_object.specs.Removing.{GoingOutIsRemoving, ListedItemsMayGoOut, TakenOutItemsAreRemoved, TakenOutItemsLeaveCounters, TakenOutItemsLeaveSession};

/// A listed item of a state that is kept meets the precondition of `take_out`. When it is taken out it is removed from the state, and counters and session of
/// the index are unchanged; before that, after each write, the folder is in the midst of its removal.
pub fn taken_items_are_removed()
    ensures may { ListedItemsMayGoOut }
    ensures removed { TakenOutItemsAreRemoved }
    ensures counters { TakenOutItemsLeaveCounters }
    ensures session { TakenOutItemsLeaveSession }
    ensures each { GoingOutIsRemoving }
{}

/// Where the index counts a state, and its counters are lowered by an item and its cost, it counts the state without that item.
pub fn less_is_counted()
    ensures { LessIsCounted }
{}

/// A live object without parts that no handle names has only its main item to be removed, and what is left is the state in which it is doomed.
pub fn plain_objects_go_alone()
    ensures { PlainObjectsGoAlone }
{}

/// Where some items of an object are out, another one meets the precondition of `take_out`. When it is taken out one item more is out, and what lay at its node
/// still loads by itself. While a part is removed after the main item, recovery gives the durable contents with the object doomed; while the main item is
/// removed first, those or the old ones; while a part is removed alone, the old ones or those without it.
pub fn taken_parts_are_out()
    ensures may { LeftItemsMayGoOut }
    ensures out { TakenOutItemsAreOut }
    ensures loads { TakenOutItemsLoad }
    ensures unlinked { UnlinkedItemsFindDoomed }
    ensures find { GoingPartsFindDoomed }
    ensures first { GoingMainsFindEither }
    ensures alone { GoingLonePartsFindEither }
{}

/// A folder that keeps a state meets the precondition of `find` for each key; a record without the child flag that is found by a key is that of the key's main
/// item, and is in its chain as a removal needs it.
pub fn found_entries_may_go_out()
    ensures searched { KeptStatesCanBeSearched }
    ensures lies { FoundEntriesLieBehind }
{}
