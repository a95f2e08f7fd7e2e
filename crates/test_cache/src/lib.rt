//! The tests of the opening and the end of a cache, of commands on many objects, and of how the parts of an object are removed.
#![tactic(auto)]

#[cfg(test)]
mod closing;
#[cfg(test)]
mod commands;
#[cfg(test)]
mod opening;
#[cfg(test)]
mod parts;
#[cfg(test)]
mod same;
