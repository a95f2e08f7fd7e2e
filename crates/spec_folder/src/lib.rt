//! What a cache folder holds: the LRU list, the chains, which records are kept and why the others are dropped, and which folders represent a state.
//!
//! The crate has definitions alone, which the contracts of the other crates cite; `law_folder` has their laws.
#![tactic(auto)]
