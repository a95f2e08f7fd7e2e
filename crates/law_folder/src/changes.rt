// The laws of what a folder keeps while one of its objects changes, and in the end.
ghost use Rattle.law_folder.specs.CommandLaws.{UnsettledObjectsMayChange, UnsettledChangesAreAtRest, RemovalsKeepTheOthers, LessIsPlaced, LessIsRepresented, DirtyWordsSettle, WrittenDirtyWordsSettle, ChangedDoomedObjectsArePlaced, ChangedDoomedObjectsAreRepresented, DoomedChangesAreAtRest, GoneDoomedObjectsAreRepresented, DoomedDirtyWordsSettle, WrittenDoomedDirtyWordsSettle, RepresentedHoldExcept, MoreMayBeLeftOut, OthersHoldOutside, OthersHoldUnlinked, ChainedRecordsAreOnlyRecords, RecordsStayOutside, RecordsStayUnlinked, RecordsOfAnotherStateLoad, ListedItemsAreAtRest, DoomsKeepTheOthers, DoomsAtEachWrite, DoomedPartsAtEachWrite, DoomedIsPlaced, DoomedIsRepresented, RestBeforeTurning, RestAfterTurning};
ghost use Rattle.law_folder.specs.StateLaws.{ChangedItemsArePlaced, ChangedItemsAreRepresented};
ghost use Rattle.law_folder.specs.ItemLaws.{SameStoresRepresent, TouchedItemsAtEachWrite, TouchedItemsEnd, NewItemsArePlaced};

/// Where one item changes inside its own footprint, the view represents the changed state, and the layout with the item's new record fits that state.
pub fn changed_items_are_represented()
    ensures laid { ChangedItemsArePlaced }
    ensures represented { ChangedItemsAreRepresented }
{}

/// While the records of one dirty object, of its main item or of a part, are in the midst of a change, recovery keeps the durable contents.
pub fn unsettled_objects_may_change()
    ensures midst { UnsettledObjectsMayChange }
    ensures at_each_word { UnsettledChangesAreAtRest }
{}

/// While items are taken out of the LRU list, recovery keeps the rows of the clean items that stay in it with their main item. Once what stays is in the list
/// and in the chains, and the list is idle, the view represents the state without the others, by the layout without them.
pub fn removals_keep_the_others()
    ensures kept { RemovalsKeepTheOthers }
    ensures laid { LessIsPlaced }
    ensures represented { LessIsRepresented }
{}

/// Once the dirty flag in a main item's node is written, the view represents the state in which the object is clean if the flag is 0, and else dirty.
pub fn dirty_words_settle()
    ensures put { DirtyWordsSettle }
    ensures written { WrittenDirtyWordsSettle }
{}

/// While a doomed object changes inside its node's footprint, recovery keeps the durable contents, also where its record is torn. In the end the view
/// represents the state with its new value, or without it once it is freed; with another dirty flag the object is clean if that is 0, and else dirty.
pub fn doomed_objects_change()
    ensures laid { ChangedDoomedObjectsArePlaced }
    ensures represented { ChangedDoomedObjectsAreRepresented }
    ensures at_each_word { DoomedChangesAreAtRest }
    ensures gone { GoneDoomedObjectsAreRepresented }
    ensures put { DoomedDirtyWordsSettle }
    ensures written { WrittenDoomedDirtyWordsSettle }
{}

/// While some nodes are left out, in the midst of a change or removed, the other nodes load as before. So they do through changes that touch neither their
/// blocks nor a record of a chain, and through changes of chain links and of table words. A record of which only the state is written loads as one of that
/// state.
pub fn others_hold_meanwhile()
    ensures begin { RepresentedHoldExcept }
    ensures more { MoreMayBeLeftOut }
    ensures outside { OthersHoldOutside }
    ensures unlinked { OthersHoldUnlinked }
    ensures only { ChainedRecordsAreOnlyRecords }
    ensures record_outside { RecordsStayOutside }
    ensures record_unlinked { RecordsStayUnlinked }
    ensures state { RecordsOfAnotherStateLoad }
{}

/// The doom of an object commits at the second write of the removal of its main item from the LRU list: recovery keeps the durable contents before the doom,
/// and from then on those after it, also while its parts are removed. In the end the view represents the state after the doom, with a doomed object at the
/// node.
pub fn dooms_keep_the_others()
    ensures before { ListedItemsAreAtRest }
    ensures after { DoomsKeepTheOthers }
    ensures at_each_word { DoomsAtEachWrite }
    ensures parts { DoomedPartsAtEachWrite }
    ensures laid { DoomedIsPlaced }
    ensures represented { DoomedIsRepresented }
{}

/// The durable contents before and after an object becomes clean or dirty are two values of `pick`: objects in transition are in where the object is clean, and
/// out where it is dirty.
pub fn turning_objects_are_picked()
    ensures before { RestBeforeTurning }
    ensures after { RestAfterTurning }
{}

/// The access of a listed item commits at its second write: recovery keeps the durable contents before it, and from then on those with the item in front. In
/// the end the view represents the state with the item in front, which is valid. A view represents the same with any store view that shows the same.
pub fn items_are_used()
    ensures stores { SameStoresRepresent }
    ensures at_each_word { TouchedItemsAtEachWrite }
    ensures ends { TouchedItemsEnd }
{}

/// The layout with a new item, a main item or a part, fits the state with that item in front.
pub fn new_items_are_placed()
    ensures { NewItemsArePlaced }
{}
