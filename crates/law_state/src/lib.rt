//! What a folder keeps between two calls of a command, and what the calls do to it: definitions, and laws that are the contracts of functions with empty
//! bodies.
#![tactic(auto)]

ghost use Rattle.law_state.specs.Changes.{HeldIsFound, HeldIsFoundAlong};
ghost use Rattle.law_state.specs.Commands.{FinishedFoldersMayStop, FinishedFoldersMayStopAlong};
ghost use Rattle.law_state.specs.Keeping.{KeepsSome};
ghost use Rattle.law_state.specs.KeepingLaws.{KeptStatesAreHeld, KeptStatesAreFound, KeptStatesAreStoodFor, KeptStatesAreSound, KeptStatesEndSound, FoldersWithoutEntriesKeepTheEmptyState, OpenedFoldersKeepTheirState};
ghost use Rattle.law_state.specs.TouchLaws.{TouchesFindEither, OpensMayStop};
ghost use Rattle.law_state.specs.CommandLaws.{RequestsMayStopBefore, RequestsMayStopAfter, RequestsMayStopOnceEvicted, KeptStatesMayStop, SaysKept, NothingMayStop, NothingIsDone, RefusalsAreDone, QuietRequestsKeepTheState, CallsMayStop};
ghost use Rattle.law_state.specs.ChangeLaws.{WhatIsKeptIsFound, SameCountersCountTheSame, UnlinkedPlacesMayChange, BlockWritesChangeOnly, ExternalWritesChangeOnly, OtherWordsChangeOnly, GrowthFindsTheSame, AllocatedBlocksAreUnlinked, FreedBlocksAreGone, MadeFilesAreUnlinked, DeletedFilesAreGone};

mod calls;
mod commands;

pub use calls::{
    allocations_come_and_go, changed_objects_are_kept, changes_are_inside, counters_are_written,
    doomed_objects_are_kept, doomed_objects_are_marked, external_files_come_and_go,
    gone_items_are_unlinked, gone_objects_are_unlinked, handles_are_not_kept,
    kept_allocations_are_few, links_leave_the_rest, list_steps_are_done, new_entries_are_kept,
    new_parts_are_kept, new_parts_are_shown, objects_are_marked, other_states_are_kept,
    removed_items_are_one_less, removed_items_are_unlinked, states_change_in_one_object,
    states_may_be_partly_out, touches_keep_states,
};
pub use commands::{
    calls_follow_each_other, closes_settle, commands_are_done, commands_keep_the_next_state,
    commands_of_one_call, creates_end_once_made, creates_may_be_stopped, dooms_end_once_doomed,
    held_objects_go_part_after_part, objects_go_part_after_part, orders_may_be_left,
    others_may_be_left, parts_are_counted, parts_change_alone, parts_may_be_stopped_between,
    plain_objects_are_removed, reads_end_once_used, removals_may_be_stopped, requests_take_effect,
    rests_leave_them_out, rests_of_commands_may_be_stopped, uses_may_be_stopped,
    whole_objects_are_removed, writes_end_once_written,
};

/// The recovered contents of a folder that keeps a state are the durable contents of that state. With nothing unlinked the folder represents the state, and is
/// consistent where each object is live and clean; so it is, too, once the session is ended and the index initialized.
pub fn kept_states_are_stood_for()
    ensures held { KeptStatesAreHeld }
    ensures found { KeptStatesAreFound }
    ensures stands { KeptStatesAreStoodFor }
    ensures sound { KeptStatesAreSound }
    ensures ends { KeptStatesEndSound }
{}

/// An empty cache (`HasNoEntries`) in which a session is open keeps the empty state.
pub fn folders_without_entries_keep_the_empty_state()
    ensures { FoldersWithoutEntriesKeepTheEmptyState }
{}

/// A folder that represents a state, with exact maps and all in order, keeps that state once the number of the session and then the crash word are written.
pub fn opened_folders_keep_their_state()
    ensures { OpenedFoldersKeepTheirState }
{}

/// After a call that keeps each state that was kept, the durable contents of such a state are recovered; where it leaves the counters of the index as they
/// were, it keeps the state with its counters.
pub fn calls_keep_states()
    ensures held { HeldIsFound }
    ensures along { HeldIsFoundAlong }
    ensures found { WhatIsKeptIsFound }
    ensures counters { SameCountersCountTheSame }
{}

/// A change of what unlinked words name keeps the state, with the same words unlinked: a write into the blocks of a valid address changes these alone, and one
/// into an external file this file alone. The write of a word of the index's header that is neither shown nor checked, nor of the session, changes nothing that
/// a kept state asks for.
pub fn unlinked_places_may_change()
    ensures kept { UnlinkedPlacesMayChange }
    ensures blocks { BlockWritesChangeOnly }
    ensures externals { ExternalWritesChangeOnly }
    ensures index { OtherWordsChangeOnly }
{}

/// The allocation of blocks keeps each state, with their word unlinked; the freeing of unlinked blocks keeps it too, and their word is in use no longer. While
/// block files grow, in a folder that stays well formed, the folder holds the durable contents.
pub fn blocks_are_allocated()
    ensures growth { GrowthFindsTheSame }
    ensures unlinked { AllocatedBlocksAreUnlinked }
    ensures freed { FreedBlocksAreGone }
{}

/// A request may crash where the durable contents before it are recovered, or those after it, or those without the first eviction units that it evicts; so it
/// may before its first word, where its state is kept.
pub fn requests_may_be_stopped()
    ensures before { RequestsMayStopBefore }
    ensures after { RequestsMayStopAfter }
    ensures evicted { RequestsMayStopOnceEvicted }
    ensures kept { KeptStatesMayStop }
    ensures finished { FinishedFoldersMayStop }
    ensures along { FinishedFoldersMayStopAlong }
{}

/// A request of which no step was made may crash, and is done where it leaves the state as it is and its answer is the model's, as a refusal, a List, a Total
/// or a Size. A call after each of whose words the old durable contents are recovered may crash at each.
pub fn commands_end()
    ensures says { SaysKept KeepsSome }
    ensures stays_stops { NothingMayStop KeepsSome }
    ensures stays_does { NothingIsDone KeepsSome }
    ensures refused_does { RefusalsAreDone KeepsSome }
    ensures quiet { QuietRequestsKeepTheState }
    ensures calls_stop { CallsMayStop KeepsSome }
{}

/// At each word of the access of an item's node, recovery gives the old durable contents, and from the second write on those with the item in front. So an Open
/// may crash at each word of the access of its key's node.
pub fn items_are_touched()
    ensures find { TouchesFindEither }
    ensures opens { OpensMayStop }
{}

/// The making of an external file keeps each state, with the file's word unlinked; the deletion of an unlinked one keeps each state, and its word is in use no
/// longer.
pub fn external_files_are_made()
    ensures unlinked { MadeFilesAreUnlinked }
    ensures deleted { DeletedFilesAreGone }
{}
