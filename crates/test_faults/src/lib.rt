//! The tests of whole runs that meet faults: calls of the folder, the input and the output that fail, crashes at each word, folders
//! that are corrupt, and one whose words are computed.
#![tactic(auto)]

#[cfg(test)]
mod computed;
#[cfg(test)]
mod damaged;
#[cfg(test)]
mod failing;
#[cfg(test)]
mod hostile;
#[cfg(test)]
mod ring;
#[cfg(test)]
mod running;
#[cfg(test)]
mod same;
#[cfg(test)]
mod stopped;
#[cfg(test)]
mod twelve;
