//! The tests of the crates of values: limits, addresses, records, handles, lines, maps of parts, what is drawn.
#![tactic(auto)]

#[cfg(test)]
mod addr;
#[cfg(test)]
mod drawing;
#[cfg(test)]
mod handles;
#[cfg(test)]
mod model;
#[cfg(test)]
mod ranges;
#[cfg(test)]
mod record;
#[cfg(test)]
mod record_views;
#[cfg(test)]
mod same;
#[cfg(test)]
mod script;
