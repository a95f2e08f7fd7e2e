// What erasing leaves, at each step of it.
ghost use Rattle.blk_eraser.specs.Laws.{CutBytesAreBlank, CutsChangeOneFile, FreedBlocksAreBlank, OnlyFreedBlocksChange};
ghost use Rattle.blk_eraser.specs.Laws.{UnownedBlocksMayBeErased, UnlinkedBlocksMayBeErased, UnlinkedFilesMayBeErased, ErasingFindsTheSame};
ghost use Rattle.blk_eraser.specs.Laws.{PromisedFreesMayErase, PromisedDeletionsMayErase};
ghost use Rattle.blk_eraser.specs.Cuts.{BytesAfterTheEndAreNotShown, CutZerosFindTheSame, DoomedCutZerosFindTheSame};
ghost use Rattle.blk_eraser.specs.Remade.{RemadeMapsMayErase, UnkeptFilesMayErase};

/// At each step of a write inside a header, a block that was marked and isn't any more has only zeros. So after a crash each block that was being freed is
/// still marked, or is erased in full.
pub fn freed_blocks_are_blank()
    ensures { FreedBlocksAreBlank }
{}

/// At each step of a write, nothing has changed but the written bytes and the blocks that the write frees.
pub fn only_freed_blocks_change()
    ensures { OnlyFreedBlocksChange }
{}

/// The zeros before a cut or a deletion set each byte that goes out of use to 0, and change no other.
pub fn cut_bytes_are_blank()
    ensures { CutBytesAreBlank }
{}

/// At each step of a cut nothing but the file has changed, and the file exists.
pub fn cuts_change_one_file()
    ensures { CutsChangeOneFile }
{}

/// Where a write to a map frees blocks without an owner, the zeros before it keep the state that the folder's view has, and a well-formed folder.
pub fn unowned_blocks_may_be_erased()
    ensures { UnownedBlocksMayBeErased }
{}

/// Where a write to a map frees only blocks of unlinked addresses, the zeros before it keep each state that the folder keeps and the counters of the index. A
/// call that frees sets `updating` before it writes the map, and then no state is kept; but recovery gives the durable contents from the start of the call at
/// each of the zeros.
pub fn unlinked_blocks_may_be_erased()
    ensures kept { UnlinkedBlocksMayBeErased }
    ensures found { ErasingFindsTheSame }
{}

/// The zeros over the external file of an unlinked address keep each state that the folder keeps and the counters of the index: before each step of a deletion,
/// and at each step of a cut.
pub fn unlinked_files_may_be_erased()
    ensures { UnlinkedFilesMayBeErased }
{}

/// A call with the contract of `free` of `blk_alloc`, for an unlinked address, frees only blocks of unlinked addresses by its write to the map, so recovery
/// gives the durable contents from the start of the call at each of the zeros before that write.
pub fn promised_frees_may_erase()
    ensures { PromisedFreesMayErase }
{}

/// The zeros before the deletion of the external file of an unlinked address keep each state that the folder keeps.
pub fn promised_deletions_may_erase()
    ensures { PromisedDeletionsMayErase }
{}

/// While a stream of a dirty or a doomed object is cut inside its blocks, recovery gives the durable contents at each of the zeros from the new end to the end
/// of the blocks.
pub fn cut_zeros_find_the_same()
    ensures unsettled { CutZerosFindTheSame }
    ensures doomed { DoomedCutZerosFindTheSame }
{}

/// Bytes of a stream's blocks after its end aren't in the view: two folders that differ only there have the same data of each length up to the end, and the
/// same view of all other addresses.
pub fn bytes_after_the_end_are_not_shown()
    ensures { BytesAfterTheEndAreNotShown }
{}

/// Where recovery rebuilds a map from the used blocks of what is kept, and deletes an external file that has no owner that is kept, the kept entries and the
/// recovered contents are the same at each of the zeros before that.
pub fn recovery_may_erase()
    ensures maps { RemadeMapsMayErase }
    ensures files { UnkeptFilesMayErase }
{}
