//! Typed views of the headers and records of a cache's files, over windows of bytes.
//!
//! A view borrows a window that has all bytes of what it shows. A clause sees it as the window's bytes.
#![tactic(auto)]

mod block_head;
mod entry;
mod flags;
mod hash;
mod index_head;
pub mod laws;
mod node;
mod record;
mod seals;
mod sparse_head;
mod words;

pub use block_head::BlockHead;
pub use entry::{EntryMut, EntryView};
pub use flags::{CHILD, EntryFlags, PARENT};
pub use hash::super_fast_hash;
pub use index_head::IndexHead;
pub use node::{NodeMut, NodeView};
pub use record::{Record, RecordMut, lent_fields_are_set};
pub use sparse_head::SparseHead;
pub use words::WORD_VALUES;
