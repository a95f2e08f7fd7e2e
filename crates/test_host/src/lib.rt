//! The tests of the real objects, on the operating system.
#![tactic(auto)]

#[cfg(test)]
mod files;
#[cfg(test)]
mod folders;
#[cfg(test)]
mod held;
#[cfg(test)]
mod same;
#[cfg(test)]
mod streams;
