//! The tests of a folder that erases, over folders in memory.
#![tactic(auto)]

#[cfg(test)]
mod erased;
#[cfg(test)]
mod failing;
#[cfg(test)]
mod files;
#[cfg(test)]
mod same;
#[cfg(test)]
mod stopped;
