//! The tests of the crates of entries: records and keys, the LRU list, chains, streams, what a consistency check reads and its verdicts, and
//! what repair makes of a list and of a chain.
#![tactic(auto)]

#[cfg(test)]
mod audit;
#[cfg(test)]
mod chain;
#[cfg(test)]
mod entry;
#[cfg(test)]
mod folders;
#[cfg(test)]
mod lru;
#[cfg(test)]
mod repair;
#[cfg(test)]
mod same;
#[cfg(test)]
mod scan;
#[cfg(test)]
mod stream;
