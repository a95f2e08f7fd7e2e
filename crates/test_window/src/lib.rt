//! The tests of a window of pages, over folders in memory: beside the same folder without a window.
#![tactic(auto)]

#[cfg(test)]
mod counting;
#[cfg(test)]
mod failing;
#[cfg(test)]
mod random;
#[cfg(test)]
mod rows;
#[cfg(test)]
mod same;
#[cfg(test)]
mod traced;
