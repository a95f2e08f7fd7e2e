//! The laws of repair, each the contract of a function with an empty body: at each word of the repair the kept records and the recovered contents stay the
//! same, and in the end the folder represents the state that is opened on these.
#![tactic(auto)]

ghost use Rattle.law_recovery.specs.RecordSeals.{SealsAreMade, SealsStand, GrowthLeavesSeals, UnlinkedFilesLeaveSeals, ExternalFilesLeaveSeals, RecordsAreBehindHeaders, IndexWordsAreBehindHeaders};
ghost use Rattle.law_recovery.specs.EndRepair.{EndsAreMended};
ghost use Rattle.law_recovery.specs.ListRepair.{ListsAreRepaired, CompletedListsAreEnded, ListsAtRestNeedNoEnd, DroppedNodesAreTheOthers, RemovalsBegin, KeptNodesArePassed, OtherNodesAreRemoved, ListRepairsEnd};
ghost use Rattle.law_recovery.specs.ChainRepair.{ChainsAreRepaired, ChainsBegin, BucketsAreMended, WholeChainsNeedNoSteps, ChainRepairsEnd, KeptRecordsStay, WholeChainsStay, KeptNodesCheck, KeptRecordsCheck};
ghost use Rattle.law_recovery.specs.LinkRepair.{LinksAreRepaired, MendedChainsAreMendedLinks, MendedLinksNeedNoSteps, LinkRepairsMayBeStopped};
ghost use Rattle.law_recovery.specs.MendedLinks.{MendedLinksRepresent};
ghost use Rattle.law_recovery.specs.MendedChanges.{RepairedLinksAreKept, MendedLinksGoOn, LinksAreMidRepair, MendedLinksAreMidRepair, MendedLinksStayOutside, MendedLinksMayGrow, UnlinkedFilesMayBeDeleted, UnclaimedFilesMayChange, HiddenWordsMayChange, VersionsMayChange, KeptNodesMayBeSealed, KeptRecordsMayBeSealed};
ghost use Rattle.law_recovery.specs.Mended.{MendedFoldersStandFor, MendedFoldersAreSound, SoundFoldersAreMended};
ghost use Rattle.law_recovery.specs.MendedStates.{MendedFoldersHaveTheirState};
ghost use Rattle.law_recovery.specs.MendedParts.{KeptWordsStand, KeptWordsClaim, RebuiltFilesAreMended, UnlinkedFilesLeaveTheOthers, ExternalFilesLeaveTheBlocks, MendedFilesStand, IndexWordsLeaveSeals, OtherWordsLeaveCounters, KeptAreSealed};
ghost use Rattle.law_recovery.specs.FoundHolding.{FoundIsAHolding, KeptClaimOnce};

/// While the end of an LRU list without an operation in flight is repaired, its walk stays the same at each write; in the end the list is idle, with the nodes
/// of that walk.
pub fn ends_are_mended()
    ensures { EndsAreMended }
{}

/// The repair of the LRU list keeps the recovered contents at each of its words; in the end the list is that of the kept nodes.
pub fn lists_are_repaired()
    ensures { ListsAreRepaired }
{}

/// The redo of a well-formed folder's LRU list and then the repair of its end leave the list idle, and keep the recovered contents; an idle list needs no step
/// of either.
pub fn lists_are_ended()
    ensures rests { CompletedListsAreEnded }
    ensures none { ListsAtRestNeedNoEnd }
{}

/// Once its end is repaired, the nodes of the LRU list that are walked and not kept are taken out one after the other, and the recovered contents stay at each
/// word of that. A kept node stays in the list; once no node is left to look at, the list is repaired.
pub fn dropped_nodes_are_removed()
    ensures others { DroppedNodesAreTheOthers }
    ensures begins { RemovalsBegin }
    ensures passes { KeptNodesArePassed }
    ensures removes { OtherNodesAreRemoved }
    ensures ends { ListRepairsEnd }
{}

/// The repair of the hash chains keeps the recovered contents at each of its words; in the end each chain is that of the kept records of its bucket.
pub fn chains_are_repaired()
    ensures { ChainsAreRepaired }
{}

/// The hash chains are repaired one bucket after the other, by steps that keep the recovered contents at each of their words; a bucket that is right needs no
/// step.
pub fn buckets_are_mended()
    ensures begins { ChainsBegin }
    ensures mends { BucketsAreMended }
    ensures none { WholeChainsNeedNoSteps }
    ensures ends { ChainRepairsEnd }
{}

/// A change of the LRU list alone, by which the same records are kept, leaves each bucket its kept records, and each whole chain whole.
pub fn chains_stay()
    ensures records { KeptRecordsStay }
    ensures whole { WholeChainsStay }
{}

/// The node and the record of all that recovery keeps are there with a right or absent checksum, so they can be written.
pub fn kept_records_check()
    ensures nodes { KeptNodesCheck }
    ensures records { KeptRecordsCheck }
{}

/// The repair of a well-formed folder's links, of its LRU list and then of its hash chains, keeps the recovered contents at each of its words. In the end the
/// links are repaired, and each record that had its checksum has it; a folder whose links are repaired needs no step.
pub fn links_are_repaired()
    ensures at_each_word { LinksAreRepaired }
    ensures mended { MendedChainsAreMendedLinks }
    ensures none { MendedLinksNeedNoSteps }
{}

/// A folder whose links are repaired represents the state that is opened on its recovered contents, by the layout of what it keeps.
pub fn mended_links_represent()
    ensures { MendedLinksRepresent }
{}

/// Once a repair that keeps the recovered contents has repaired the links, they are repaired with the same kept records and recovered contents. Two changes,
/// one after the other, that keep them so are together such a change.
pub fn mended_links_go_on()
    ensures begins { RepairedLinksAreKept }
    ensures goes_on { MendedLinksGoOn }
{}

/// At each word of a repair, of the links and then of maps, counters, files and checksums, the folder is well formed, with the same kept records and recovered
/// contents. Repairs of the links that crash, however often, keep the recovered contents.
pub fn repairs_hold_the_same()
    ensures links { LinksAreMidRepair }
    ensures behind { MendedLinksAreMidRepair }
    ensures stopped { LinkRepairsMayBeStopped }
{}

/// Repaired links stay repaired, with the same kept records and recovered contents, through each change of what isn't kept. Such are the growth of block files,
/// the deletion of a block file that isn't linked, a change of an external file that no kept record uses, and the write of a word of the index's header that is
/// neither shown nor checked, or of the version.
pub fn mended_links_stay_outside()
    ensures outside { MendedLinksStayOutside }
    ensures grow { MendedLinksMayGrow }
    ensures unlinked { UnlinkedFilesMayBeDeleted }
    ensures unclaimed { UnclaimedFilesMayChange }
    ensures words { HiddenWordsMayChange }
    ensures version { VersionsMayChange }
{}

/// Repaired links stay repaired at each word at which a kept node or its record gets its checksum.
pub fn kept_records_may_be_sealed()
    ensures nodes { KeptNodesMayBeSealed }
    ensures records { KeptRecordsMayBeSealed }
{}

/// The growth of block files, the deletion of one that isn't linked and a change of an external file leave all checksums that were right. No record and no word
/// of the index lies in a header of a block file.
pub fn seals_are_left()
    ensures growth { GrowthLeavesSeals }
    ensures unlinked { UnlinkedFilesLeaveSeals }
    ensures external { ExternalFilesLeaveSeals }
    ensures records { RecordsAreBehindHeaders }
    ensures words { IndexWordsAreBehindHeaders }
{}

/// The block files are repaired where each linked one has all its blocks, and the map and the counters of what is kept. The address words of what is kept are
/// valid, and name exactly the blocks and external numbers that the kept records use.
pub fn rebuilt_files_are_mended()
    ensures stand { KeptWordsStand }
    ensures claim { KeptWordsClaim }
    ensures mended { RebuiltFilesAreMended }
{}

/// Each later step of a repair leaves what was repaired before it: block files, checksums and counters. Such steps are the deletion of a block file that isn't
/// linked, a change of an external file, and changes of checksums and of words of the index.
pub fn mended_parts_stand()
    ensures unlinked { UnlinkedFilesLeaveTheOthers }
    ensures external { ExternalFilesLeaveTheBlocks }
    ensures files { MendedFilesStand }
    ensures words { IndexWordsLeaveSeals }
    ensures counters { OtherWordsLeaveCounters }
{}

/// An update of a record without changes gives it its checksum, and leaves those of other records. All that is kept has its checksums once each of its nodes
/// and records has its hash as its checksum.
pub fn kept_records_are_sealed()
    ensures made { SealsAreMade }
    ensures stand { SealsStand }
    ensures all { KeptAreSealed }
{}

/// A folder in which nothing is left to repair represents the state that is opened on its recovered contents, and is consistent; a consistent folder whose
/// index has the version that is made now needs no repair.
pub fn mended_folders_stand_for()
    ensures state { MendedFoldersHaveTheirState }
    ensures stands { MendedFoldersStandFor }
    ensures sound { MendedFoldersAreSound }
    ensures converse { SoundFoldersAreMended }
{}

/// The recovered contents of every image of bytes are a valid snapshot; no block and no external number is used twice by what is kept.
pub fn found_is_a_holding()
    ensures holding { FoundIsAHolding }
    ensures once { KeptClaimOnce }
{}
