//! The tests of whole runs: the subcommand `count`, sessions, and sparse data, with writes at the borders of parts and blocks, and crashes at words.
#![tactic(auto)]

#[cfg(test)]
mod counting;
#[cfg(test)]
mod holding;
#[cfg(test)]
mod long_session;
#[cfg(test)]
mod playing;
#[cfg(test)]
mod same;
#[cfg(test)]
mod sparse_borders;
#[cfg(test)]
mod sparse_stops;
