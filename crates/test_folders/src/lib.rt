//! Folders in memory for tests: written by the format alone, what is found in them, and those that crash after so many steps; and
//! the inputs and replies of sessions over them.
#![tactic(auto)]

pub mod folders;
pub mod found;
pub mod inputs;
pub mod many;
pub mod mended;
pub mod replies;
pub mod stopped;
pub mod stopping;
pub mod worked;
