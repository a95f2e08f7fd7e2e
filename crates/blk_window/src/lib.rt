//! A window of pages between a cache and its folder: what was read lately is read again without a call.
//!
//! Writes are made in the folder inside at once. Its files, its write trace and its failures are those of the window.
#![tactic(auto)]

mod page;
mod pages;
mod tag;
mod window;

pub use window::Window;
