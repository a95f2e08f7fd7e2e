// What is left while items of an object are out: laws, each the contract of a function with an empty body.
ghost use Rattle.blk_object.specs.ListedParts.{FirstPartsLieNext, FoundNamesAreTheParts, FoundPartsLieNext, NoPartsLeftAreAllOut, PartsHaveTheirNames};
ghost use Rattle.blk_object.specs.RemovingNext.{CountedLessIsStillOut, CountedLessLeavesSession, CountedOutDoomsEnd, CountedOutEndsKept, CountedOutGroupsAreGone, KeptStatesCountAll, NextItemsAreCountedLess};

/// While the items of a kept state are removed one after another, the index counts those that are left, once its counters are lowered by each item that is out;
/// lowering them keeps the state with these items out, and the session. When all items to be removed are out, the folder keeps the state without them: that
/// after a DoomKey, or that without the next eviction unit.
pub fn left_items_are_counted()
    ensures all { KeptStatesCountAll }
    ensures less { NextItemsAreCountedLess }
    ensures kept { CountedLessIsStillOut }
    ensures session { CountedLessLeavesSession }
    ensures ends { CountedOutEndsKept }
    ensures doomed { CountedOutDoomsEnd }
    ensures group { CountedOutGroupsAreGone }
{}

/// When a search finds no part of a key after its main item was removed, all items of the key are out, and the index counts the others. A part that is found
/// may be removed next, with the record before it that a search by its name finds; the name is made of the key, the generation in its parent's index, and its
/// number.
pub fn parts_go_until_none_is_left()
    ensures none { NoPartsLeftAreAllOut }
    ensures next { FirstPartsLieNext }
    ensures found { FoundPartsLieNext }
    ensures own { FoundNamesAreTheParts }
    ensures names { PartsHaveTheirNames }
{}
