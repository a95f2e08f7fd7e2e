// The preconditions of the calls on hash chains can be met.
ghost use Rattle.blk_chain.specs.Examples.{SomeChainIsSearched};

/// The preconditions of `find` and `unlink` can be met: a folder with one entry has a chain that can be searched, and the entry's record is found in it and can
/// be unlinked.
pub fn chains_with_entries_can_be_searched()
    ensures searched { SomeChainIsSearched }
{}
