//! The laws of what a cache folder holds, each the contract of a function with an empty body.
//!
//! They say that the definitions of `spec_folder` fit together: what is kept, what represents a state, what changes leave, and what a folder shows at each word
//! of a write.
#![tactic(auto)]

ghost use Rattle.law_folder.specs.AllocationLaws.{SoundFilesAreAllocated, StoodForFilesAreAllocated};
ghost use Rattle.law_folder.specs.BareLaws.{NothingRepresentsTheEmptyState, FoldersWithoutEntriesHoldNothing, FoldersWithoutEntriesAreSound, FoldersWithoutEntriesRepresentTheEmptyState, FoldersWithoutEntriesStandForTheEmptyState, NewFoldersHaveNoEntries, NewFoldersAreWellFormed, OtherWordsAddNoEntries, UninitializedFoldersHaveNoEntries};
ghost use Rattle.law_folder.specs.ByteLaws.{BlocksStandByTheirLast, CoveredChangesStayInside, BlocksAreCovered, ExternalFilesAreCovered, HeadersNeedNoCover, HiddenWordsNeedNoCover, CoversOfLess, MoreCovers, CoversOfEither, AgreeingImagesShowTheSame, CoveredChangesAgree, GrowthIsPastTheBlocks, SameLinksLinkTheSame, AgreementGoesOn, AgreementButMore, LongerFilesHaveGrown, GrowthIsOfAbsentBlocks, ChangedHeadersHaveGrown, GrowthKeepsStates, UnlinkedFilesMayGo};
ghost use Rattle.law_folder.specs.CommandLaws.{HandlesAreNotShown, OpensAtEachWrite, OpensEnd, WrittenEntriesStay, CreatesBeforeTheInsert, CreatesAtEachWrite, CreatesEnd, CreatesAfterTheLink, CreatesEndAtTheStep, CreatesLeaveTheRest, CreatesMayLeaveWhatWas};
ghost use Rattle.law_folder.specs.KeptLaws.{KeptAreTheGiven, NoneOfTheGivenIsDropped, KeptAreShown, KeptAloneAreKept, LeavingOutKeepsTheSame, SameKeyIsOneChain, OnlyCandidatesAreKept, SameCandidatesAreHeldAlike, SameCandidatesHoldTheSame};
ghost use Rattle.law_folder.specs.ListLaws.{WalksAreTheLists, WalksAreDistinct, InsertsCommitAtTwo, InsertsEnd, RemovalsCommitAtTwo, RemovalsEnd, TouchesCommitAtTwo, TouchesEnd, CompletingAgainIsTheSame, CompletionsEnd, ChainsAreTheirRecords, RecordsAreLinkedInFront, WholeChainsAreShort, RecordsOfImagesAreFew, ChainsOfImagesAreShort, OtherChainsStay, FirstRecordsAreUnlinked, FirstRecordsLeaveChains, LaterRecordsAreUnlinked, LaterRecordsLeaveChains};
ghost use Rattle.law_folder.specs.StateLaws.{WalksAreTheOrder, ListedAreTheRows, NothingListedIsDropped, RepresentedChainsEnd, KeptAreAtRest, HeldIsAtRest, FoundIsAtRest, RepresentedStatesAreShown, TidyIsInOrder, RepresentedStatesAreStoodFor, TidyStatesAreStoodFor, WhatIsStoodForIsFound, PlacedItemsAreShown, KeptArePicked, FreeFootprintsKeepStates};
ghost use Rattle.law_folder.specs.SearchLaws.{ChainsAreTheLayouts, RepresentedChainsAreShort, RepresentedChainsCanBeSearched, FoundRecordsAreLive, NoneFoundIsMissing};
ghost use Rattle.law_folder.specs.ChargeLaws.{PartNamesAreNames, ItemsAreChargedAsRows, ListedChargesAreTheRows, ListedChargesAreTheTotals, OpenedChargesAreTheTotals};
ghost use Rattle.law_folder.specs.TidyLaws.{FilesStandBehindHeaders, StatesAreStoodFor, TouchesKeepStates};

mod changes;
mod list_words;
mod mid_updates;

pub use changes::{
    changed_items_are_represented, dirty_words_settle, doomed_objects_change,
    dooms_keep_the_others, items_are_used, new_items_are_placed, others_hold_meanwhile,
    removals_keep_the_others, turning_objects_are_picked, unsettled_objects_may_change,
};
pub use list_words::{
    completions_at_each_word, inserts_at_each_word, removals_at_each_word, touches_at_each_word,
    writes_are_made_in_turn,
};
pub use mid_updates::{
    blocks_change_inside, index_words_are_written, links_are_written, names_are_written,
    records_are_written,
};

/// The walk of a whole LRU list gives its nodes in their order; the walk of any list gives different nodes, each of which is there with a right or absent
/// checksum.
pub fn whole_lists_are_walked()
    ensures nodes { WalksAreTheLists }
    ensures distinct { WalksAreDistinct }
{}

/// An insert into the LRU list commits at its second write: the redo after a crash gives the old nodes before that write, and the new ones from it on. After
/// all writes the list is idle, with the node in front.
pub fn inserts_at_each_write()
    ensures commits { InsertsCommitAtTwo }
    ensures ends { InsertsEnd }
{}

/// A removal from the LRU list commits at its second write: the redo after a crash gives the old nodes before that write, and those without the node from it
/// on. After all writes the list is idle, without the node.
pub fn removals_at_each_write()
    ensures commits { RemovalsCommitAtTwo }
    ensures ends { RemovalsEnd }
{}

/// An access of a node of the LRU list commits at its second write: the redo after a crash gives the old order before that write, and the node in front from it
/// on. After all writes the list is idle, with the node in front.
pub fn touches_at_each_write()
    ensures commits { TouchesCommitAtTwo }
    ensures ends { TouchesEnd }
{}

/// The redo of any LRU list may crash after any of its writes and begin again, as often as one likes, and gives the same list but for the operation word. After
/// all its writes no operation is in flight.
pub fn completions_at_each_write()
    ensures stops { CompletingAgainIsTheSame }
    ensures ends { CompletionsEnd }
{}

/// The write of a bucket's word puts a record in front of the hash chain, or takes the first one out, and leaves the chains of other buckets; the write of a
/// record's link takes the record after it out. A whole chain ends at the word 0, and has no more records than there are first blocks.
pub fn chains_are_linked()
    ensures records { ChainsAreTheirRecords }
    ensures short { WholeChainsAreShort }
    ensures few { RecordsOfImagesAreFew }
    ensures of_images { ChainsOfImagesAreShort }
    ensures prefix { RecordsAreLinkedInFront }
    ensures others { OtherChainsStay }
    ensures first { FirstRecordsAreUnlinked }
    ensures later { LaterRecordsAreUnlinked }
    ensures first_leaves { FirstRecordsLeaveChains }
    ensures later_leaves { LaterRecordsLeaveChains }
{}

/// The kept records of a walk load, share no block, no external number and no name, and have their parents, so a walk of the kept nodes alone keeps the same.
/// Where records are given for nodes of a walk, and each of them loads, is apart from the others and has its parent (`IsShown`), the walk keeps exactly these;
/// where each node has one, none is dropped.
pub fn given_nodes_are_kept()
    ensures kept { KeptAreTheGiven }
    ensures dropped { NoneOfTheGivenIsDropped }
    ensures shown { KeptAreShown }
    ensures alone { KeptAloneAreKept }
{}

/// A walk without some or all of the nodes that it drops keeps the same records: a dropped node plays no part in the verdicts on the others.
pub fn dropped_nodes_may_be_left_out()
    ensures { LeavingOutKeepsTheSame }
{}

/// Two records with the same key, which none of the reasons up to that of the chain drops, are in the hash chain of one bucket.
pub fn one_key_is_in_one_chain()
    ensures { SameKeyIsOneChain }
{}

/// Two well-formed images with the same nodes that may be kept (`candidates`), which agree on what these name, have the same recovered contents, since no other
/// node is kept.
pub fn same_candidates_hold_the_same()
    ensures only { OnlyCandidatesAreKept }
    ensures held { SameCandidatesAreHeldAlike }
    ensures frame { SameCandidatesHoldTheSame }
{}

/// Where a view represents a valid state, its walk is the nodes of the state's items, and recovery keeps the durable contents of the state. With dirty nodes
/// kept too nothing is dropped, and the kept rows are the state's rows; each hash chain ends.
pub fn represented_states_are_found()
    ensures walks { WalksAreTheOrder }
    ensures rows { ListedAreTheRows }
    ensures dropped { NothingListedIsDropped }
    ensures ends { RepresentedChainsEnd }
    ensures kept { KeptAreAtRest }
    ensures held { HeldIsAtRest }
    ensures found { FoundIsAtRest }
{}

/// A well-formed image of the version that is made now represents a state with all its files (`StandsFor`) where its view represents the state, its maps are
/// exact, and its files, counters and checksums agree with what it keeps (`IsInOrder`). They do where they agree with what lies at the layout's nodes
/// (`IsTidy`). The durable contents of the state are recovered from such an image.
pub fn represented_states_are_stood_for()
    ensures shown { RepresentedStatesAreShown }
    ensures in_order { TidyIsInOrder }
    ensures stands { RepresentedStatesAreStoodFor }
    ensures tidy { TidyStatesAreStoodFor }
    ensures found { WhatIsStoodForIsFound }
{}

/// The view of a new folder represents the empty state.
pub fn nothing_represents_the_empty_state()
    ensures { NothingRepresentsTheEmptyState }
{}

/// An empty cache (`HasNoEntries`) has no recovered contents, and its view represents the empty state; where its index is initialized it is consistent, and
/// represents the empty state with its files, maps and counters.
pub fn folders_without_entries_are_sound()
    ensures held { FoldersWithoutEntriesHoldNothing }
    ensures sound { FoldersWithoutEntriesAreSound }
    ensures represented { FoldersWithoutEntriesRepresentTheEmptyState }
    ensures stands { FoldersWithoutEntriesStandForTheEmptyState }
{}

/// A new folder is an empty cache (`HasNoEntries`) and well formed. It is an empty cache before its magic word is written, too, and stays one where that word,
/// the number of the session and the crash word change.
pub fn new_folders_have_no_entries()
    ensures none { NewFoldersHaveNoEntries }
    ensures formed { NewFoldersAreWellFormed }
    ensures words { OtherWordsAddNoEntries }
    ensures uninitialized { UninitializedFoldersHaveNoEntries }
{}

/// A walk of the nodes of some items keeps the records that pass a test which agrees with its rule; recovery keeps the rows of those that are clean, where no
/// part is without its main item.
pub fn placed_items_are_kept()
    ensures shown { PlacedItemsAreShown }
    ensures picked { KeptArePicked }
{}

/// A change inside a footprint that no node owns keeps the state that the view represents.
pub fn free_footprints_keep_states()
    ensures { FreeFootprintsKeepStates }
{}

/// What a view represents does not depend on the handle names.
pub fn handles_are_not_shown()
    ensures { HandlesAreNotShown }
{}

/// Where a view represents a state, the hash chain of any key can be searched: a record with the key that is no part is that of the live object with the key,
/// and where there is none no live object has it. Each chain is the layout's, and has no more records than there are listed nodes.
pub fn chains_are_searched()
    ensures chains { ChainsAreTheLayouts }
    ensures short { RepresentedChainsAreShort }
    ensures can { RepresentedChainsCanBeSearched }
    ensures found { FoundRecordsAreLive }
    ensures missing { NoneFoundIsMissing }
{}

/// At each write of the access in an Open, recovery keeps a crash outcome of the Open, in each store view that shows the same; in the end the view represents
/// the state after the Open.
pub fn opens_at_each_write()
    ensures at_each_word { OpensAtEachWrite }
    ensures ends { OpensEnd }
{}

/// While the record and the node of a new object are written, inserted and linked, recovery keeps the old durable contents, in each store view that shows the
/// same; in the end the view represents the state with the new object. That is the state after a Create that evicts nothing, of which the old durable contents
/// are a crash outcome.
pub fn creates_at_each_write()
    ensures written { WrittenEntriesStay }
    ensures before { CreatesBeforeTheInsert }
    ensures at_each_word { CreatesAtEachWrite }
    ensures ends { CreatesEnd }
    ensures after { CreatesAfterTheLink }
    ensures step { CreatesEndAtTheStep }
    ensures rests { CreatesLeaveTheRest }
    ensures stops { CreatesMayLeaveWhatWas }
{}

/// A change of bytes changes what is shown only inside the blocks and external numbers that contain these bytes. The bytes of blocks are contained in these,
/// and an external file in its number; the header of a block file, but for next_file and max_entries, and places of the index that aren't shown need not be
/// contained.
pub fn covered_changes_stay_inside()
    ensures shown { CoveredChangesStayInside }
    ensures blocks { BlocksAreCovered }
    ensures externals { ExternalFilesAreCovered }
    ensures headers { HeadersNeedNoCover }
    ensures hidden { HiddenWordsNeedNoCover }
    ensures less { CoversOfLess }
    ensures more { MoreCovers }
    ensures either { CoversOfEither }
{}

/// Where an image represents a state, the allocations of each linked block file are the address words in it of what is listed or doomed; in a consistent folder
/// they are those of what is kept.
pub fn linked_files_are_allocated()
    ensures sound { SoundFilesAreAllocated }
    ensures stood { StoodForFilesAreAllocated }
{}

/// Two images that agree outside a footprint of blocks and external files show the same outside it. A change of bytes that the footprint contains leaves such
/// images; the growth of block files touches only blocks past those that they had; and with the same next_file in each block file the same files are linked.
pub fn agreeing_images_show_the_same()
    ensures last { BlocksStandByTheirLast }
    ensures shown { AgreeingImagesShowTheSame }
    ensures covered { CoveredChangesAgree }
    ensures growth { GrowthIsPastTheBlocks }
    ensures links { SameLinksLinkTheSame }
    ensures then_on { AgreementGoesOn }
    ensures more { AgreementButMore }
{}

/// The growth of block files touches only blocks that weren't there, and keeps the state that the view represents, if each owner is a node of the layout that
/// uses what it owns. Files have grown at most where one gets longer, and where a change is of headers and none gets shorter. A block file that isn't linked
/// may be deleted.
pub fn growth_keeps_states()
    ensures longer { LongerFilesHaveGrown }
    ensures absent { GrowthIsOfAbsentBlocks }
    ensures headers { ChangedHeadersHaveGrown }
    ensures kept { GrowthKeepsStates }
    ensures gone { UnlinkedFilesMayGo }
{}

/// The cost of a listed record is the cost of its row in the model; these costs and those of the doomed objects sum to the total of the state. The model and
/// the formats give a part the same name.
pub fn charges_are_the_totals()
    ensures names { PartNamesAreNames }
    ensures items { ItemsAreChargedAsRows }
    ensures rows { ListedChargesAreTheRows }
    ensures totals { ListedChargesAreTheTotals }
    ensures opened { OpenedChargesAreTheTotals }
{}

/// An image that represents a state by a layout, its files too (`HasState`), represents it (`StandsFor`), and after the access of a listed item it so represents the state
/// with that item in front. A change that is after the headers leaves the files of a well-formed folder as they are.
pub fn states_are_had()
    ensures files { FilesStandBehindHeaders }
    ensures stands { StatesAreStoodFor }
    ensures touched { TouchesKeepStates }
{}
