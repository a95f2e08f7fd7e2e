//! Sessions over a folder in memory for tests, by the lines of a script, and what is held after them.
#![tactic(auto)]

pub mod sessions;
