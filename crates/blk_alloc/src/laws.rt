//! What is asked of maps and counters can be met, and is left by changes elsewhere.

ghost use Rattle.blk_alloc.specs.Laws.{AllocatedMayBeFreed, CountedFilesStay, MayBeFreedStill, NewFilesAreCounted};

/// The preconditions of `allocate` and `free` can be met: the allocations in the files of a new folder are counted, and an address that was allocated may be
/// freed.
pub fn counted_files()
    ensures made { NewFilesAreCounted }
    ensures allocated { AllocatedMayBeFreed }
{}

/// Changes that leave headers and lengths alone keep the preconditions of `allocate` and `free`: counted files stay counted, and what may be freed may still
/// be.
pub fn counts_stay()
    ensures counted { CountedFilesStay }
    ensures freed { MayBeFreedStill }
{}
