// What was read of a parent that is evicted.
use crate::list_places::Unpinned;
use blk_object::Owned;

/// A parent that is evicted, by what was read of it: where it was found, its key, and what its record owns.
#[derive(Clone, Copy)]
pub(crate) struct ReadParent<'a> {
    pub(crate) found: &'a Unpinned,
    pub(crate) key: &'a [u8],
    pub(crate) owned: &'a Owned,
}
