//! Addresses of blocks and external files, the storage of data by its size, and used blocks.
#![tactic(auto)]

mod address;
mod bitmap;
mod claim_groups;
mod claim_set;
mod fields;
mod file_id;
mod kinds;
pub mod laws;
mod meeting;
mod no_memory;
mod storage;

pub use address::Addr;
pub use claim_set::{BLOCK_FILES, Claims};
pub use fields::{GROUP, LAST_EXTERNAL};
pub use file_id::FileId;
pub use kinds::Kind;
pub use no_memory::NoMemory;
pub use storage::{LONGEST_SHORT_KEY, RECORD_BLOCK, blocks_for, entry_blocks, kind_for};
