//! How much a cache may keep.
ghost use Rattle.std.specs.Prelude.{◌≤◌};
ghost use Rattle.blk_model.specs.Sizes.{most_bytes, most_items};

/// The greatest number of bytes to which a cache may be limited.
pub const MOST_BYTES: u64 = 1099511627776;
/// The most bytes of a stream, whatever the limits of a cache are.
pub const MOST_STREAM: u32 = 2147483647;
/// The greatest number of items to which a cache may be limited.
pub const MOST_ITEMS: u32 = 131072;

/// How many bytes and items a cache keeps at most: from 1 to `MOST_BYTES`, and from 1 to `MOST_ITEMS`.
#[derive(Clone, Copy, Debug, PartialEq, Eq)]
pub struct Limits {
    pub max_bytes: u64,
    pub max_items: u32,
    ghost some_bytes: { 1 ≤ max_bytes },
    ghost few_bytes: { max_bytes ≤ most_bytes },
    ghost some_items: { 1 ≤ max_items },
    ghost few_items: { max_items ≤ most_items },
}
