//! The tests of the crates of the folder: its objects in memory, the index, block files, external files, allocation.
#![tactic(auto)]

#[cfg(test)]
mod alloc;
#[cfg(test)]
mod disk;
#[cfg(test)]
mod disk_sealed;
#[cfg(test)]
mod external;
#[cfg(test)]
mod index;
#[cfg(test)]
mod io;
#[cfg(test)]
mod same;
