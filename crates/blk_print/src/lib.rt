//! What is printed of the items of a folder, given only the table of block files: their rows, the bytes of streams, and ranges of parts.
#![tactic(auto)]

mod item_rows;
mod present_printing;
mod range_printing;
mod row_printing;

pub use item_rows::print_items;
pub use present_printing::{PresentRange, print_present};
pub use range_printing::{StreamRange, print_range};
