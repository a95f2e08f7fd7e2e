//! The arguments of the command line: what they ask the program for, and with which limits.
//!
//! The arguments are checked without memory; their values are given by the crate `clap`, which takes some.
#![tactic(auto)]

mod apart;
mod given;
mod inspected;
mod kinds;
mod numbers;
mod order;
mod reading;
mod verbs;

pub use order::Order;
pub use reading::{Asked, DEFAULT_LIMITS, read_words};
