//! The language of the program: script lines are read into commands, and commands and replies
//! are printed.
//!
//! No call takes memory. `man/blkcache.1` describes the language.
#![tactic(auto)]

mod answers;
mod commands;
mod data;
mod fault;
mod fields;
mod key;
pub mod laws;
mod line;
mod number;
mod print;
mod readers;
mod shapes;
mod words;

pub use answers::print_reply;
pub use commands::print_line;
pub use fault::LineFault;
pub use key::{decode_key, is_key};
pub use line::{LONGEST_LINE, read_line};
pub use number::{read_count, read_stream};
pub use print::{Field, print_bytes, print_fields, print_key, print_number};
