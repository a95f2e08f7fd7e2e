//! The tests of whole folders: the consistency check, the repair, what is printed of them, and objects that are made and removed.
#![tactic(auto)]

#[cfg(test)]
mod calls;
#[cfg(test)]
mod cases;
#[cfg(test)]
mod long;
#[cfg(test)]
mod objects;
#[cfg(test)]
mod printed_entries;
#[cfg(test)]
mod printed_parts;
#[cfg(test)]
mod printed_reasons;
#[cfg(test)]
mod reasons;
#[cfg(test)]
mod repairs;
#[cfg(test)]
mod same;
