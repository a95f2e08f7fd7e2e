//! What a crash in a command may leave, and how commands end: laws, each the contract of a function with an empty body.
ghost use Rattle.law_state.specs.CommandEnds.{PassedRequestsTakeEffect, GroupsGoInTurn, WholeGroupsGoAsDoomed, PartsGoAlone, MarkedStatesAreValid, UsesEnd, OnlyUsesMayBeLeft, OpensEndOnceUsed, OpensMayLeave, CreatesEndOnceMade, CreatesMayLeave, WritesUnsettle, WritesEndOnceWritten, DoomedWritesEnd, SparseWritesUnsettle, SparseWritesEnd, EmptySparseWritesEnd, ClosesFreeTheName, ClosesSettle, ClosesMayLeave, ClosesOfDoomedEnd, FlushesSettle, FlushesMayLeave, FlushesOfSettledEnd, DoomsEndOnceDoomed, DoomsMayLeave, TrimsEndOnceOut, TrimsMayLeave};
ghost use Rattle.law_state.specs.Keeping.{KeepsSome};
ghost use Rattle.law_state.specs.PartStates.{PartsChangeAlone, NewPartsKeepValid, PartsAreLeftOut};
ghost use Rattle.law_state.specs.StageLaws.{StagesGoOn, StagesMayStop, WhatIsFoundMayStop, CallsFollow, EndsAreKept, EffectsAreDone, NotesEndSteps};
ghost use Rattle.law_state.specs.WordStops.{UsesMayStop, UnsettledUsesMayStop, UnsettlingMayStop, SettlingMayStop, CleaningMayStop, DoomsFindEither, OutIsDoomed, DoomedPartsFindTheSame, DoomsMayStop, PartsFindEither, PartOutIsGone, GroupsMayStop, WholeGroupsMayStop};
ghost use Rattle.law_state.specs.NextStates.{UsesKeepNext, OpensKeepNext, CreatesKeepNext, WritesKeepNext, DoomedWritesKeepNext, SparseWritesKeepNext, EmptySparseWritesKeepNext, ClosesOfManyKeepNext, ClosesKeepNext, FlushesKeepNext, DoomsKeepNext, TrimsKeepNext};
ghost use Rattle.law_state.specs.OneCallLaws.{OpensEndByTouch, ReadsMayStop, ReadsEndByTouch, DoomedReadsEnd, ClosesMayStop, ClosesEndByMark, ClosesOfDoomedUnlink, FlushesMayStop, FlushesEndByMark, UnsettlingMarksMayStop};
ghost use Rattle.law_state.specs.PlainRemovals.{PlainGroupsGo, LonePartsGo, UnheldDoomsEnd, HeldDoomsEnd, PartGoneIsWithout, RemovingFindsDoomed, DoomedObjectsAreRemoved, RemovingFindsPartGone, LonePartsAreRemoved};
ghost use Rattle.law_state.specs.WholeRemovals.{WholeObjectsAreRemoved, UnheldWholeDoomsEnd, WholeObjectsAreDoomed, HeldWholeDoomsEnd, WholeGroupsGo};
ghost use Rattle.law_state.specs.PartlyOut.{UnheldOutDoomsEnd, OutGroupsAreGone};
ghost use Rattle.law_state.specs.HeldPartlyOut.{HeldOutObjectsAreDoomed, HeldOutDoomsEnd};
ghost use Rattle.law_state.specs.PartlyOutStops.{ItemsOfAKeyLeaveOthers, PartlyOutIsOut, PartlyOutFindsDoomed, NextPartsFindDoomed, UnlinkingItemsFindsDoomed, FreeingFindsDoomed, DeletingFindsDoomed, PartlyOutDoomsMayStop, PartlyOutGroupsMayStop};
ghost use Rattle.law_state.specs.CountsOfParts.{GoneItemsAreLess, DoomedItemsAreLess, NextItemsAreOneLess, NewPartsAreOneMore};
ghost use Rattle.law_state.specs.CreateStops.{InsertsMayStop, LinksMayStop, CreatesEndOnceCounted};
ghost use Rattle.law_state.specs.RestLaws.{RestsAreNotRefused, RestsEvictTheOthersOrNone, TrimsGoOn, RestsHaveTheLaterSteps, RestsEndAlike, StopsInRestsAreInTheWhole, StopOnlyInTheRest};
ghost use Rattle.law_state.specs.StopLaws.{WhatIsLeftMayStop, OrdersMayBeLeft, UsesMayBeLeft, UsesGoOn, RoomMayBeLeft, HandlesAreNotAtRest, DoomedObjectsAreNotAtRest, UnsettledObjectsAreNotAtRest, OwnUsesKeepOthers, OthersMayBeLeftOnceUnsettled, OthersMayBeLeftWhileDoomed};

/// Once the first eviction units of a request are evicted and some of its later list steps are made, the durable contents in that order are a crash outcome of
/// it. A request may crash where a crash outcome of it is recovered.
pub fn orders_may_be_left()
    ensures stops { WhatIsLeftMayStop }
    ensures orders { OrdersMayBeLeft }
    ensures uses { UsesMayBeLeft }
    ensures go_on { UsesGoOn }
    ensures room { RoomMayBeLeft }
{}

/// The durable contents of a state don't depend on the handle names, on a doomed object, whatever becomes of it, or on a dirty one and where its items are in
/// the LRU list. A state stays valid where a live object is made clean, or dirty while a handle names it.
pub fn rests_leave_them_out()
    ensures handles { HandlesAreNotAtRest }
    ensures doomed { DoomedObjectsAreNotAtRest }
    ensures unsettled { UnsettledObjectsAreNotAtRest }
    ensures uses { OwnUsesKeepOthers }
    ensures marked { MarkedStatesAreValid }
{}

/// Once a request has made its object dirty, the durable contents are a crash outcome of it, whatever became of the object. So they are whatever becomes of a
/// doomed object.
pub fn others_may_be_left()
    ensures unsettled { OthersMayBeLeftOnceUnsettled }
    ensures doomed { OthersMayBeLeftWhileDoomed }
{}

/// A request that isn't refused has its effect on the state without all that it evicts, one unit after another, and its reply is by the state before. A Trim
/// ends in that state, and the durable contents without its first eviction units are a crash outcome of it.
pub fn requests_take_effect()
    ensures effect { PassedRequestsTakeEffect }
    ensures in_turn { GroupsGoInTurn }
    ensures as_doomed { WholeGroupsGoAsDoomed }
    ensures alone { PartsGoAlone }
    ensures trims { TrimsEndOnceOut }
    ensures trims_leave { TrimsMayLeave }
{}

/// A Read or a sparse read ends in the state in which its items are accessed, and an Open in that in which the item of its key is accessed and its handle
/// bound. The durable contents once the first of these items are accessed are a crash outcome of it.
pub fn reads_end_once_used()
    ensures ends { UsesEnd }
    ensures leaves { OnlyUsesMayBeLeft }
    ensures opens { OpensEndOnceUsed }
    ensures opens_leave { OpensMayLeave }
{}

/// A Create ends in the state with the new object and without all that it evicts; the durable contents with the new object are a crash outcome of it.
pub fn creates_end_once_made()
    ensures ends { CreatesEndOnceMade }
    ensures leaves { CreatesMayLeave }
{}

/// A Write to a live object, and a SparseWrite of some bytes, make the object dirty, and end in the state in which the bytes are written and the items
/// accessed, without all that they evict. A SparseWrite of no bytes accesses the main item alone, and a Write to a doomed object accesses none.
pub fn writes_end_once_written()
    ensures unsettle { WritesUnsettle }
    ensures ends { WritesEndOnceWritten }
    ensures doomed { DoomedWritesEnd }
    ensures sparse_unsettle { SparseWritesUnsettle }
    ensures sparse_ends { SparseWritesEnd }
    ensures empty { EmptySparseWritesEnd }
{}

/// A live object with another value for one part differs in that item alone. With one part more, whose item is in front, a dirty sparse object leaves the state
/// valid; without one part of a live object all other items and objects are as they were.
pub fn parts_change_alone()
    ensures alone { PartsChangeAlone }
    ensures more { NewPartsKeepValid }
    ensures less { PartsAreLeftOut }
{}

/// A Close of the last handle of a live object makes it clean, one of a doomed object ends in the state without it, and a Close of one handle of several
/// unbinds that handle alone. A Flush makes a live object clean, and changes nothing else. The durable contents with the object clean are a crash outcome of
/// the Close and of the Flush.
pub fn closes_settle()
    ensures several { ClosesFreeTheName }
    ensures ends { ClosesSettle }
    ensures leaves { ClosesMayLeave }
    ensures doomed { ClosesOfDoomedEnd }
    ensures flushes { FlushesSettle }
    ensures flushes_leave { FlushesMayLeave }
    ensures none { FlushesOfSettledEnd }
{}

/// A Doom or a DoomKey ends in the state in which its object is doomed, and the durable contents with the object doomed are a crash outcome of it.
pub fn dooms_end_once_doomed()
    ensures ends { DoomsEndOnceDoomed }
    ensures leaves { DoomsMayLeave }
{}

/// A request may crash at each word of two calls, one after the other, if it may at each word of either, also where the second failed. Between its calls it is
/// at a stage: the folder keeps a state whose durable contents are a crash outcome, and the request may crash at each word of a call that leaves these to be
/// recovered.
pub fn calls_follow_each_other()
    ensures go_on { StagesGoOn }
    ensures stop { StagesMayStop KeepsSome }
    ensures find { WhatIsFoundMayStop KeepsSome }
    ensures follow { CallsFollow KeepsSome }
{}

/// A request is done once its effect is kept and its answer is the model's, whatever handle names there are. It is made whole once its note is made, if it may
/// crash at each word before that and the folder then represents the state after it.
pub fn commands_are_done()
    ensures ends { EndsAreKept }
    ensures done { EffectsAreDone KeepsSome }
    ensures noted { NotesEndSteps }
{}

/// A request that dooms nothing may crash at each word of the access of the next item that it accesses; any may at each word of the access of an item of the
/// object that it has made dirty. It may also crash while it makes its object clean or dirty.
pub fn uses_may_be_stopped()
    ensures uses { UsesMayStop }
    ensures unsettled_uses { UnsettledUsesMayStop }
    ensures unsettles { UnsettlingMayStop }
    ensures settles { SettlingMayStop }
    ensures cleans { CleaningMayStop }
{}

/// At each word of the removal of an object's main item, the folder holds the old durable contents, and from the second write on those with the object doomed;
/// of a part that is evicted alone recovery gives the old ones, and then those without it. So a Doom or a DoomKey may crash there, and a request while its next
/// eviction unit is evicted.
pub fn removals_may_be_stopped()
    ensures either { DoomsFindEither }
    ensures out { OutIsDoomed }
    ensures parts { DoomedPartsFindTheSame }
    ensures dooms { DoomsMayStop }
    ensures alone { PartsFindEither }
    ensures gone { PartOutIsGone }
    ensures groups { GroupsMayStop }
    ensures whole { WholeGroupsMayStop }
{}

/// Where the folder keeps the state that the last call of a command leaves, it keeps the state after the command.
pub fn commands_keep_the_next_state()
    ensures uses { UsesKeepNext }
    ensures opens { OpensKeepNext }
    ensures creates { CreatesKeepNext }
    ensures writes { WritesKeepNext }
    ensures doomed_writes { DoomedWritesKeepNext }
    ensures sparse_writes { SparseWritesKeepNext }
    ensures empty_sparse_writes { EmptySparseWritesKeepNext }
    ensures closes_of_many { ClosesOfManyKeepNext }
    ensures closes { ClosesKeepNext }
    ensures flushes { FlushesKeepNext }
    ensures dooms { DoomsKeepNext }
    ensures trims { TrimsKeepNext }
{}

/// A Read, a Close of a last handle and a Flush may crash at each word of their one call; once that is done the state after them is kept, and so is that after
/// an Open. A request may also crash while the dirty flag of the object that it makes dirty changes.
pub fn commands_of_one_call()
    ensures opens_end { OpensEndByTouch }
    ensures reads_stop { ReadsMayStop }
    ensures reads_end { ReadsEndByTouch }
    ensures doomed_reads { DoomedReadsEnd }
    ensures closes_stop { ClosesMayStop }
    ensures closes_end { ClosesEndByMark }
    ensures doomed_closes { ClosesOfDoomedUnlink }
    ensures flushes_stop { FlushesMayStop }
    ensures flushes_end { FlushesEndByMark }
    ensures unsettling_stops { UnsettlingMarksMayStop }
{}

/// While the record of a plain object without a handle, or of a part that is evicted alone, is unlinked, the folder holds the durable contents without it.
/// Once it is removed, the folder keeps the state without it but for the counters, and its words are unlinked. So a Doom or a DoomKey of a plain object ends,
/// with or without a handle, and so the next eviction unit is evicted.
pub fn plain_objects_are_removed()
    ensures part { PartGoneIsWithout }
    ensures removing { RemovingFindsDoomed }
    ensures removed { DoomedObjectsAreRemoved }
    ensures removing_part { RemovingFindsPartGone }
    ensures removed_part { LonePartsAreRemoved }
    ensures unheld_dooms { UnheldDoomsEnd }
    ensures held_dooms { HeldDoomsEnd }
    ensures groups { PlainGroupsGo }
    ensures parts { LonePartsGo }
{}

/// Once an object is out with its parts, the folder keeps the state with it doomed but for the counters. Where no handle names it its words are unlinked, and
/// where one does those of its parts. So a Doom or a DoomKey ends, and so the next eviction unit is evicted.
pub fn whole_objects_are_removed()
    ensures removed { WholeObjectsAreRemoved }
    ensures unheld_dooms { UnheldWholeDoomsEnd }
    ensures doomed { WholeObjectsAreDoomed }
    ensures held_dooms { HeldWholeDoomsEnd }
    ensures groups { WholeGroupsGo }
{}

/// Once all items of an object without a handle are out, freed or not, the state after a DoomKey of it is kept but for the counters, and so is the state
/// without the eviction unit that has these items.
pub fn objects_go_part_after_part()
    ensures unheld_dooms { UnheldOutDoomsEnd }
    ensures groups { OutGroupsAreGone }
{}

/// Once all items of an object with a handle are out, and its node loads as a doomed object's, the folder keeps the state with it doomed but for the counters,
/// and so it keeps the state after a Doom or a DoomKey of it.
pub fn held_objects_go_part_after_part()
    ensures doomed { HeldOutObjectsAreDoomed }
    ensures dooms { HeldOutDoomsEnd }
{}

/// Once the main item of an object is out, and while its parts are removed one after another, the folder holds the durable contents with the object doomed. So
/// it does at each word of the removal of a part, while a record is unlinked, while blocks are freed and while an external file is deleted; and there a Doom or
/// a DoomKey may crash, and a request whose next eviction unit is evicted.
pub fn parts_may_be_stopped_between()
    ensures leave { ItemsOfAKeyLeaveOthers }
    ensures out { PartlyOutIsOut }
    ensures found { PartlyOutFindsDoomed }
    ensures parts { NextPartsFindDoomed }
    ensures unlinking { UnlinkingItemsFindsDoomed }
    ensures freeing { FreeingFindsDoomed }
    ensures deleting { DeletingFindsDoomed }
    ensures dooms { PartlyOutDoomsMayStop }
    ensures groups { PartlyOutGroupsMayStop }
{}

/// The number of items and the sum of their costs fall by what is evicted, by a doomed object with its parts, and by each of their items that is removed in
/// turn; they rise by a part that is made.
pub fn parts_are_counted()
    ensures gone { GoneItemsAreLess }
    ensures doomed { DoomedItemsAreLess }
    ensures next { NextItemsAreOneLess }
    ensures made { NewPartsAreOneMore }
{}

/// A Create may crash at each word of the insert of its node, and where its record is linked after that. Once the counters are written too, the state after the
/// Create is kept.
pub fn creates_may_be_stopped()
    ensures inserts { InsertsMayStop }
    ensures links { LinksMayStop }
    ensures ends { CreatesEndOnceCounted }
{}

/// The rest of a command, which is the command on the state without the first eviction units that it evicts, isn't refused, and evicts the eviction units that
/// are left, or nothing; the rest of a Trim evicts something where eviction units are left. Where the rest evicts something if eviction units are left, its
/// list steps are the later ones of the whole command, it ends in the same state, and a crash outcome of it is one of the whole command; otherwise this need
/// not hold.
pub fn rests_of_commands_may_be_stopped()
    ensures passes { RestsAreNotRefused }
    ensures evicts { RestsEvictTheOthersOrNone }
    ensures trims { TrimsGoOn }
    ensures steps { RestsHaveTheLaterSteps }
    ensures ends { RestsEndAlike }
    ensures stops { StopsInRestsAreInTheWhole }
    ensures only_where { StopOnlyInTheRest }
{}
