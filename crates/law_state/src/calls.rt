// What each kind of call does to a folder that keeps a state.

ghost use Rattle.law_state.specs.AllocationLaws.{AllocatedBlocksAreAdded, FreedBlocksAreRemoved};
ghost use Rattle.law_state.specs.Arranging.{KeptInAnyOrder, StatesAreRearranged};
ghost use Rattle.law_state.specs.BoundLaws.{KeptAllocationsAreFew, KeptAllocationsLeaveRoom};
ghost use Rattle.law_state.specs.ChangedStates.{UnheldObjectsGoWhole, UnheldObjectsGoWithTheirParts, ObjectsChangeTheirMainItem};
ghost use Rattle.law_state.specs.CounterLaws.{ChargesAreSmall, CountersMayBeWritten, WrittenCountersCount};
ghost use Rattle.law_state.specs.DoneLaws.{TouchStepsAreDone, InsertStepsAreDone, RemovalStepsAreDone};
ghost use Rattle.law_state.specs.DoomLaws.{DoomedObjectsAreKept, DoomedObjectsAreOneLess};
ghost use Rattle.law_state.specs.ExternalLaws.{MakingFilesFindsTheSame, MadeFilesAreAdded, DeletingFilesFindsTheSame, DeletedFilesAreRemoved};
ghost use Rattle.law_state.specs.GoneLaws.{GoneObjectsAreUnlinked, GoneObjectsAreNotCounted};
ghost use Rattle.law_state.specs.LinkLaws.{TableWordsChangeLinks, TableWordsLeaveFiles, TableWordsLeaveSeals, ChainNextsChangeLinks, ChainNextsLeaveSeals, DataChangesAreInside, RecordUpdatesAreInside, RemovedItemsAreOneLess};
ghost use Rattle.law_state.specs.GroupLaws.{GoneItemsAreUnlinked};
ghost use Rattle.law_state.specs.PartlyOut.{KeptStatesArePartlyOut, OneMoreGoesOut, BlocksAreFreedPartlyOut, FilesAreDeletedPartlyOut, PartlyOutInAnyOrder, WhatIsOutMayChange, OnlyListedAreOut, PartlyOutEndsKept};
ghost use Rattle.law_state.specs.ListLaws.{TouchesKeepTheState, TouchesKeepTheCounters};
ghost use Rattle.law_state.specs.NewEntryLaws.{InsertsFindTheSame, LinksFindTheSame, NewEntriesAreKept, NewEntriesAreOneMore};
ghost use Rattle.law_state.specs.NewPartLaws.{NewPartsHoldTheOthers, NewPartsAreAtRest, NewPartsAtEachWrite, NewPartsAreLinked, ParentsDataMayChange, NotedParentsAreChanges, NewPartsEnd};
ghost use Rattle.law_state.specs.NewPartsKept.{PartInsertsFindEither, MakingPartsFindsTheNext, PartValuesKeepUnsettled, NewPartsAreKept};
ghost use Rattle.law_state.specs.ObjectLaws.{HandlesMayChange, HandlesAreNotCounted, UnsettledItemsFindTheSame, DoomedObjectsFindTheSame, ChangedItemsAreKept, ChangedDoomedObjectsAreKept};
ghost use Rattle.law_state.specs.RecordLaws.{DoomedMarkingFindsTheSame, DoomedMarkingKeepsTheState, DoomedMarkingKeepsTheCounters, RecordUpdatesChangeOnly, RecordUpdatesLeaveCounters, MarkingFindsEither, MarkingKeepsTheState, MarkingKeepsTheCounters};
ghost use Rattle.law_state.specs.RemovalLaws.{RemovalsFindEither, UnlinkingFindsTheOthers, RemovedItemsAreUnlinked};

/// A kept state is also kept, but for the counters, with its unlinked words in any other order; so is another state that lies there with the same words in use,
/// where a call leaves the files.
pub fn other_states_are_kept()
    ensures rearranged { StatesAreRearranged }
    ensures any_order { KeptInAnyOrder }
{}

/// Once a listed item is accessed, the folder keeps the state with it in front, with the same words unlinked; the counters stay right.
pub fn touches_keep_states()
    ensures uncounted { TouchesKeepTheState }
    ensures counted { TouchesKeepTheCounters }
{}

/// While the dirty flag of a main item's node changes, recovery gives the durable contents with the object as it was, or as it is afterwards; then the folder
/// keeps the state in which it is clean where the flag is 0, and dirty where it is the number of the session. An update of a record changes its blocks
/// alone, and leaves the counters.
pub fn objects_are_marked()
    ensures blocks { RecordUpdatesChangeOnly }
    ensures counters { RecordUpdatesLeaveCounters }
    ensures find { MarkingFindsEither }
    ensures uncounted { MarkingKeepsTheState }
    ensures counted { MarkingKeepsTheCounters }
{}

/// While the dirty flag of a doomed object's node changes, the folder holds the old durable contents; then the folder keeps the state in which the object is
/// clean where the flag is 0, and else dirty. The counters stay right, since they count no doomed object.
pub fn doomed_objects_are_marked()
    ensures find { DoomedMarkingFindsTheSame }
    ensures uncounted { DoomedMarkingKeepsTheState }
    ensures counted { DoomedMarkingKeepsTheCounters }
{}

/// The write of a counter of the index keeps each state but for the counters; once all four are written with the numbers of a state, that state is kept with
/// them. The sum of the costs of a kept state's items is a number of eight bytes.
pub fn counters_are_written()
    ensures each { CountersMayBeWritten }
    ensures small { ChargesAreSmall }
    ensures counted { WrittenCountersCount }
{}

/// While an external file is made, or that of an unlinked word is changed or deleted, the folder holds the old durable contents. It is made (`AddsExternal`)
/// once it is there, and deleted (`RemovesExternal`) once it isn't.
pub fn external_files_come_and_go()
    ensures making { MakingFilesFindsTheSame }
    ensures made { MadeFilesAreAdded }
    ensures deleting { DeletingFilesFindsTheSame }
    ensures deleted { DeletedFilesAreRemoved }
{}

/// While the node of a new object's entry is inserted and its record is linked, the folder holds the old durable contents; then the folder keeps the state with
/// the object but for the counters, and the entry's words are unlinked no longer. That state has one item more, with its cost.
pub fn new_entries_are_kept()
    ensures inserting { InsertsFindTheSame }
    ensures linking { LinksFindTheSame }
    ensures kept { NewEntriesAreKept }
    ensures one_more { NewEntriesAreOneMore }
{}

/// While a part of a sparse object is made, recovery keeps the old durable contents, and from the second write of its insert on those with the part; all nodes
/// but the part's and its parent's load as before. Once the part's record is linked and the index of its parent shows its bit, the view represents the state
/// with the part.
pub fn new_parts_are_shown()
    ensures others { NewPartsHoldTheOthers }
    ensures at_rest { NewPartsAreAtRest }
    ensures at_each_word { NewPartsAtEachWrite }
    ensures linked { NewPartsAreLinked }
    ensures parent { ParentsDataMayChange }
    ensures noted { NotedParentsAreChanges }
    ensures ends { NewPartsEnd }
{}

/// While a part of a sparse object is made, the folder holds the old durable contents, and from the second write of its insert on those with the
/// part. Then the folder keeps the state with the part but for the counters, and the part's words are unlinked no longer.
pub fn new_parts_are_kept()
    ensures inserting { PartInsertsFindEither }
    ensures making { MakingPartsFindsTheNext }
    ensures unsettled { PartValuesKeepUnsettled }
    ensures kept { NewPartsAreKept }
{}

/// The allocations of a kind of block are at most five for each item and doomed object of a kept state, and one for each unlinked word. So they leave space
/// while a state, with what a command adds, has no more items than a cache may have.
pub fn kept_allocations_are_few()
    ensures few { KeptAllocationsAreFew }
    ensures room { KeptAllocationsLeaveRoom }
{}

/// The handle names are not in the folder: a kept state is kept with any other names with which it is valid.
pub fn handles_are_not_kept()
    ensures uncounted { HandlesMayChange }
    ensures counted { HandlesAreNotCounted }
{}

/// While what lies at a node of a dirty or a doomed object changes, and what unlinked words name, the folder holds the old durable contents. Once it has
/// changed, and its words and the unlinked ones are those that were there, the folder keeps the changed state but for the counters.
pub fn changed_objects_are_kept()
    ensures unsettled { UnsettledItemsFindTheSame }
    ensures dead { DoomedObjectsFindTheSame }
    ensures item { ChangedItemsAreKept }
    ensures doomed { ChangedDoomedObjectsAreKept }
{}

/// Once a doomed object has left the state with its handle names, the same folder keeps the state without it, and its addresses are unlinked. The counters stay
/// right, since they count no doomed object.
pub fn gone_objects_are_unlinked()
    ensures uncounted { GoneObjectsAreUnlinked }
    ensures counted { GoneObjectsAreNotCounted }
{}

/// While an item is removed from the LRU list, the folder holds the old durable contents, and from the second write on those without it, also while its record
/// is unlinked. Then the folder keeps the state without it but for the counters, and its words are unlinked.
pub fn removed_items_are_unlinked()
    ensures removing { RemovalsFindEither }
    ensures unlinking { UnlinkingFindsTheOthers }
    ensures kept { RemovedItemsAreUnlinked }
{}

/// The steps of an access, an insert and a removal of a node of an idle LRU list do what `IsTouchDone`, `IsInsertDone` and `IsRemovalDone` say.
pub fn list_steps_are_done()
    ensures touch { TouchStepsAreDone }
    ensures insert { InsertStepsAreDone }
    ensures removal { RemovalStepsAreDone }
{}

/// Once an object that can be doomed is out of the LRU list and of its chain, the folder keeps the state in which it is doomed but for the counters, with the
/// same words unlinked. That state has one item less, and the sum of the costs is less by the object's.
pub fn doomed_objects_are_kept()
    ensures kept { DoomedObjectsAreKept }
    ensures one_less { DoomedObjectsAreOneLess }
{}

/// The write of a word of the table, or of a record's chain link, changes nothing that is shown but links of chains. That of the table leaves checksums,
/// headers, lengths and the session as they are; that of a link leaves the checksums where its record has a right one after it.
pub fn links_leave_the_rest()
    ensures table_links { TableWordsChangeLinks }
    ensures table_files { TableWordsLeaveFiles }
    ensures table_seals { TableWordsLeaveSeals }
    ensures next_links { ChainNextsChangeLinks }
    ensures next_seals { ChainNextsLeaveSeals }
{}

/// A change of an item's data that touches no other node's blocks, and neither its node nor its record, is inside its node (`IsInsideNode`). So is an update of
/// its record that leaves the hash and the chain link.
pub fn changes_are_inside()
    ensures stored { DataChangesAreInside }
    ensures fields { RecordUpdatesAreInside }
{}

/// The removal of an item from a kept state makes one item less, and the sum of the costs less by its cost.
pub fn removed_items_are_one_less()
    ensures { RemovedItemsAreOneLess }
{}

/// Where a live object has no handle, the state in which it is doomed is the one without its main item and its parts. Where it is replaced by one of the same
/// key and parts, the state differs in the value of its main item alone.
pub fn states_change_in_one_object()
    ensures without { UnheldObjectsGoWhole }
    ensures group { UnheldObjectsGoWithTheirParts }
    ensures changed { ObjectsChangeTheirMainItem }
{}

/// The allocation of blocks, as `AreAllocated` says it, adds one allocation; the freeing of blocks, as `AreFreed` says it, removes it.
pub fn allocations_come_and_go()
    ensures added { AllocatedBlocksAreAdded }
    ensures removed { FreedBlocksAreRemoved }
{}

/// Once some items are out of the LRU list and of the chains, the folder keeps the state without them but for the counters, and their words are unlinked.
pub fn gone_items_are_unlinked()
    ensures { GoneItemsAreUnlinked }
{}

/// The items of a kept state may be removed one after another, and unlinked blocks may be freed and files deleted between two of them, in whatever order. Once
/// the items that are out leave a state without them, the folder keeps that state but for the counters, with those of their words unlinked that aren't freed.
pub fn states_may_be_partly_out()
    ensures begins { KeptStatesArePartlyOut }
    ensures one_more { OneMoreGoesOut }
    ensures freed { BlocksAreFreedPartlyOut }
    ensures deleted { FilesAreDeletedPartlyOut }
    ensures any_order { PartlyOutInAnyOrder }
    ensures changed { WhatIsOutMayChange }
    ensures listed { OnlyListedAreOut }
    ensures ends { PartlyOutEndsKept }
{}
