// The laws of what a folder shows at each word of a write.
//
// They lead from the bytes that a write changes to what is shown: the LRU list, what each node says, the table, the chains, the records and data.
ghost use Rattle.law_folder.specs.BlockWrites.{WritesStayInside, UpdatesStayInside, ListChangesBegin, ListChangesAdd};
ghost use Rattle.law_folder.specs.IndexWrites.{HeadsAreWritten, TailsAreWritten, TransactionsAreWritten, OperationsAreWritten, OtherWordsAreNotShown, BucketsAreWritten, SoundHeadersStaySound, OtherWordsAreNotChecked, VersionsMayBeRaised, OtherBytesAreNotCounted, BucketsAreNotChecked, IndexWordsStandApart};
ghost use Rattle.law_folder.specs.NodeUpdates.{NextsAreWritten, PrevsAreWritten, TimesAreNotShown, ContentsAreWritten, DirtyWordsAreWritten};
ghost use Rattle.law_folder.specs.RecordUpdates.{ChainNextsAreWritten, FieldsAreWritten};

/// A write into the blocks of a valid address, and each write of an update of the record at their start, changes only these blocks in what is shown.
pub fn blocks_change_inside()
    ensures writes { WritesStayInside }
    ensures updates { UpdatesStayInside }
{}

/// At each word of the update of a node's next or prev, what is shown has none or all of one write into the LRU list. The update of a node's times changes
/// nothing that is shown, and writes into the list after other ones are together one change of the list alone.
pub fn links_are_written()
    ensures next { NextsAreWritten }
    ensures prev { PrevsAreWritten }
    ensures times { TimesAreNotShown }
    ensures begin { ListChangesBegin }
    ensures add { ListChangesAdd }
{}

/// At each word of the update of a node's contents or dirty flag, the node has the old or the new word there, and nothing else that is shown changes.
pub fn names_are_written()
    ensures contents { ContentsAreWritten }
    ensures dirty { DirtyWordsAreWritten }
{}

/// At each word of the update of a record, its chain link is the old or the new word, its other fields are the old ones with a prefix of the changes, and
/// nothing else that is shown changes.
pub fn records_are_written()
    ensures chain_next { ChainNextsAreWritten }
    ensures fields { FieldsAreWritten }
{}

/// The write of a word of the index is one write into the LRU list, or the word of a bucket, or changes nothing that is shown, and leaves the same addresses
/// valid. A folder stays well formed with a word that no check reads, with the version that is made now and with the word of a bucket; what the index counts
/// stays where `counted_places` do.
pub fn index_words_are_written()
    ensures head { HeadsAreWritten }
    ensures tail { TailsAreWritten }
    ensures transaction { TransactionsAreWritten }
    ensures operation { OperationsAreWritten }
    ensures hidden { OtherWordsAreNotShown }
    ensures buckets { BucketsAreWritten }
    ensures checked { OtherWordsAreNotChecked }
    ensures sound { SoundHeadersStaySound }
    ensures raised { VersionsMayBeRaised }
    ensures counted { OtherBytesAreNotCounted }
    ensures table { BucketsAreNotChecked }
    ensures stands { IndexWordsStandApart }
{}
