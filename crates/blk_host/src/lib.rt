//! The operating system, as the cache meets it: a folder of files, the standard streams and the clock.
#![tactic(auto)]

mod again;
mod disk;
mod faults;
mod files;
mod folder;
mod held;
mod identity;
mod names;
mod patient;
mod spelling;
mod stand_ins;
mod streams;

pub use folder::RealFolder;
pub use held::{Access, Held, NotHeld};
pub use patient::Patient;
pub use stand_ins::StandIns;
pub use streams::{StdSink, StdSource, SystemClock};
