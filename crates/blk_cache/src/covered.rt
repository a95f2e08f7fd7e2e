// The parts in range of a command.
ghost use Rattle.std.specs.Prelude.{◌≡◌};
ghost use Rattle.blk_cache.specs.Covering.{covers, none_in_range, one_if_some, count_in_range};

use blk_addr::Addr;

/// The parts of an open object that are in the range of a command, by their nodes: none of them is evicted while it runs.
#[derive(Clone, Copy)]
pub(crate) struct Covered {
    /// The nodes of those that exist, two at most.
    pub first: Option<Addr>,
    pub second: Option<Addr>,
    /// The sum of their costs.
    pub bytes: u64,
}

impl Covered {
    /// No part is in range.
    pub(crate) fn none() -> Covered
        ensures { result ≡ none_in_range }
    {
        Covered {
            first: None,
            second: None,
            bytes: 0,
        }
    }

    /// Whether a node is that of a part in range.
    pub(crate) fn has(&self, node: Addr) -> bool
        ensures { result ≡ covers self.now node }
    {
        self.first == Some(node) || self.second == Some(node)
    }

    /// How many parts in range exist.
    pub(crate) fn count(&self) -> u64
        ensures { result ≡ count_in_range self.now }
    {
        one_if_some(&self.first) + one_if_some(&self.second)
    }
}

// One where there is a node.
fn one_if_some(node: &Option<Addr>) -> u64
    ensures { result ≡ one_if_some node.now }
{
    match node {
        Some(_) => 1,
        None => 0,
    }
}
