//! A folder that erases: what is freed, cut or deleted is overwritten by zeros before.
//!
//! A crash at any step leaves a block that is freed either marked, so that the next opening frees and erases it again, or full of
//! zeros.
#![tactic(auto)]

mod eraser;
mod freeing;
mod laws;
mod map;
mod zeros;

pub use eraser::Eraser;
pub use laws::{
    bytes_after_the_end_are_not_shown, cut_bytes_are_blank, cut_zeros_find_the_same,
    cuts_change_one_file, freed_blocks_are_blank, only_freed_blocks_change,
    promised_deletions_may_erase, promised_frees_may_erase, recovery_may_erase,
    unlinked_blocks_may_be_erased, unlinked_files_may_be_erased, unowned_blocks_may_be_erased,
};
