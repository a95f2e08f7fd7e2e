// Opaque folders in memory, and in which so many steps pass.
use blk_io::{MemFolder, SilentFolder, StopFolder};
use std::alloc::Global;

/// An opaque folder that crashes.
pub type Mem = SilentFolder<StopFolder>;

/// A folder in which no step is made yet and all may be made.
pub fn empty(alloc: Global) -> Mem {
    SilentFolder::new(StopFolder::new(MemFolder::without_trail(alloc), u64::MAX))
}

/// The folder with what was written, where so many more steps pass.
pub fn again(f: Mem, steps: u64) -> Mem {
    SilentFolder::new(StopFolder::new(f.into_inner().into_inner(), steps))
}
