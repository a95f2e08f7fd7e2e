// What the checks of the headers give.
ghost use Rattle.blk_disk.specs.Kept.{KeptFilesAreDistinct, KeptFilesHaveBlockCounts, KeptFilesHaveOneKind};
ghost use Rattle.blk_disk.specs.Linked.{LinkedFilesAreDistinct, LinkedFilesHaveOneKind};

/// Where no check of a header fails, each block file is linked once, and as of one kind.
pub fn files_are_linked_once()
    ensures distinct { LinkedFilesAreDistinct }
    ensures one_kind { LinkedFilesHaveOneKind }
{}

/// In each table of block files a file is linked once, as of one kind, and has a number of blocks that the format allows.
pub fn files_are_kept_once()
    ensures distinct { KeptFilesAreDistinct }
    ensures one_kind { KeptFilesHaveOneKind }
    ensures counts { KeptFilesHaveBlockCounts }
{}
