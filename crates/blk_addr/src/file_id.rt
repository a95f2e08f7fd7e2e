/// A file of the cache folder, by its number where it has one.
#[derive(Clone, Copy, PartialEq, Eq, Debug)]
pub enum FileId {
    /// `index`
    Index,
    /// `data_N`
    Block(u8),
    /// `f_` followed by the number
    External(u32),
}
