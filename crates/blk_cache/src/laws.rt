//! The laws of an opening and of an end, each the contract of a function with an empty body.
ghost use Rattle.blk_cache.specs.OpeningLaws.{FreeCachesEndSound, FreeCachesHoldStill, KeptFoldersAreOpen, MadeFoldersAreRepairable, RepairedFoldersHaveTheToldTotals, RepairedFoldersKeepTheirState};

/// A folder that was just made may be recovered by the empty scan; a folder that was recovered keeps the recovered contents, opened, with the totals that the
/// scan gave.
pub fn repaired_folders_keep_their_state()
    ensures made { MadeFoldersAreRepairable }
    ensures keeps { RepairedFoldersKeepTheirState }
    ensures totals { RepairedFoldersHaveTheToldTotals }
{}

/// The folder of a cache that keeps a state may be written; where no handle names anything, recovery gives the same whatever the crash word is, the folder is
/// consistent then, and its index has the version that is made now.
pub fn kept_folders_end_sound()
    ensures is_open { KeptFoldersAreOpen }
    ensures still { FreeCachesHoldStill }
    ensures sound { FreeCachesEndSound }
{}
