// What the calls of the crates below promise is what the laws on a kept state ask: laws, each the contract of a function with an empty body.
ghost use Rattle.blk_object.specs.KeptExternalFiles.{CreationsAdd, CreationsFindTheSame, DeletionsFindTheSame, DeletionsRemove, KeptStatesHaveFreeNumbers};
ghost use Rattle.blk_object.specs.KeptLists.{InsertsAreDone, InsertsArePartly, ListedNodesAreInTheList, NewNodesCanBeInserted, RemovalsAreDone, RemovalsArePartly, TouchesAreDone, TouchesArePartly};
ghost use Rattle.blk_object.specs.KeptMarks.{NodesOfStatesCheck, LinksAreInFront, LinksComeInFront, MarksAreBeingSet, MarksAreSet, NewRecordsCanBeLinked, NodesCheckAsRecords};
ghost use Rattle.blk_object.specs.KeptEntries.{NewEntriesChangeTheirOwn, WritingEntriesKeepsStates, WrittenEntriesAreNew};
ghost use Rattle.blk_object.specs.KeptChains.{KeptRecordsCanBeUnlinked, UnlinkedRecordsAreOut, UnlinkedRecordsLeaveFiles, UnlinkingsChangeLinks};
ghost use Rattle.blk_object.specs.KeptBlocks.{AllocationsAdd, AllocationsStayWhole, FreesRemove, FreesStayWhole, KeptFilesAreCounted, WholeFoldersFindTheSame};

/// While block files at most grow and a well-formed folder is well formed, as in an allocation and a free, recovery gives the durable contents of the state
/// that was kept, whatever is unlinked.
pub fn whole_folders_find_the_same()
    ensures { WholeFoldersFindTheSame }
{}

/// After each write of a free block files have at most grown and a well-formed folder is well formed; when it is done, the address is an allocation no longer.
pub fn freed_blocks_are_gone()
    ensures whole { FreesStayWhole }
    ensures removed { FreesRemove }
{}

/// A folder that keeps a state meets the precondition of `allocate`. After each write of an allocation block files have grown at most and a well-formed folder
/// is well formed; when it is done, the address is one more allocation.
pub fn allocated_blocks_are_added()
    ensures counted { KeptFilesAreCounted }
    ensures whole { AllocationsStayWhole }
    ensures added { AllocationsAdd }
{}

/// A folder that keeps a state has a free number for an external file. While the file is created recovery gives the same durable contents; when it is done, the
/// file exists.
pub fn external_files_are_added()
    ensures free { KeptStatesHaveFreeNumbers }
    ensures find { CreationsFindTheSame }
    ensures added { CreationsAdd }
{}

/// While an unlinked external file is deleted recovery gives the same durable contents; when it is done, the file isn't there.
pub fn external_files_are_gone()
    ensures find { DeletionsFindTheSame }
    ensures removed { DeletionsRemove }
{}

/// A folder that keeps a state meets the preconditions of `insert_front` for a new entry's node, and of `remove` and `touch` for that of a listed item. In an
/// insert, a removal and an access a prefix of the writes is made, and after all steps it is done.
pub fn nodes_are_listed()
    ensures new { NewNodesCanBeInserted }
    ensures listed { ListedNodesAreInTheList }
    ensures inserting { InsertsArePartly }
    ensures inserted { InsertsAreDone }
    ensures removing { RemovalsArePartly }
    ensures removed { RemovalsAreDone }
    ensures touching { TouchesArePartly }
    ensures touched { TouchesAreDone }
{}

/// The nodes of a state that is kept meet the precondition of `set_dirty` and `set_clean`. While a dirty flag is set nothing else changes, and after all steps
/// it is set.
pub fn dirty_words_are_set()
    ensures kept { NodesOfStatesCheck }
    ensures checks { NodesCheckAsRecords }
    ensures each { MarksAreBeingSet }
    ensures set { MarksAreSet }
{}

/// Once its node is in the list, the record of a new entry meets the precondition of `link_front`. While it is linked nothing has changed yet, or the record is
/// in front of its chain; after all steps it is.
pub fn records_are_linked()
    ensures asked { NewRecordsCanBeLinked }
    ensures each { LinksComeInFront }
    ensures linked { LinksAreInFront }
{}

/// While a new entry is written nothing but the blocks and files of its addresses changes, so a state that is kept with them unlinked is kept; when it is
/// written, it is a new entry for that state.
pub fn new_entries_are_written()
    ensures own { NewEntriesChangeTheirOwn }
    ensures kept { WritingEntriesKeepsStates }
    ensures new { WrittenEntriesAreNew }
{}

/// The record of an item that is out of the list meets the precondition of `unlink`. While the record is unlinked it is in its chain or out of it; once it is
/// out, the chain is the old one without it, and the other chains and the files are unchanged.
pub fn records_are_unlinked()
    ensures asked { KeptRecordsCanBeUnlinked }
    ensures each { UnlinkingsChangeLinks }
    ensures out { UnlinkedRecordsAreOut }
    ensures leaves { UnlinkedRecordsLeaveFiles }
{}
