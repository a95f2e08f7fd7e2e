// What the consistency check of a folder reports.
ghost use Rattle.std.specs.Prelude.{◌≡◌, length, slice_get};
ghost use Rattle.std.specs.Option.{option_copied};

use crate::chains::KeptChains;
use blk_addr::{Addr, Claims};
use blk_verdict::Reason;
use std::alloc::Global;

/// A node that is kept.
#[derive(Clone, Copy, Debug)]
pub struct Kept {
    /// The address of the node.
    pub node: Addr,
    /// The address of its record.
    pub entry: Addr,
    /// Whether the record is that of a part of a sparse entry.
    pub child: bool,
}

/// A node or a record that is dropped.
#[derive(Clone, Copy, Debug)]
pub struct Dropped {
    /// The address of the node, or of the record where the reason is `Unlisted`.
    pub place: Addr,
    /// The first reason that holds.
    pub reason: Reason,
}

/// What the consistency check of a folder reports: its walked nodes, what is kept and dropped of them, what the kept ones own, and what recovery repairs.
#[derive(Drop)]
pub struct Scan {
    pub(crate) walked: Vec<Addr>,
    pub(crate) kept: Vec<Kept>,
    pub(crate) kept_nodes: Vec<Addr>,
    pub(crate) dropped: Vec<Dropped>,
    pub(crate) claims: Claims,
    pub(crate) bytes: u64,
    pub(crate) chains: Option<KeptChains>,
    pub(crate) bare: Vec<Addr>,
}

impl Scan {
    ghost use Rattle.blk_scan.specs.Scans.{IsEmptyScan};

    /// The scan of a folder that was just made. It takes no memory.
    pub fn empty(alloc: Global) -> Scan
        ensures { IsEmptyScan result }
    {
        Scan {
            walked: Vec::new(alloc),
            kept: Vec::new(alloc),
            kept_nodes: Vec::new(alloc),
            dropped: Vec::new(alloc),
            claims: Claims::new(alloc),
            bytes: 0,
            chains: None,
            bare: Vec::new(alloc),
        }
    }

    /// The number of walked nodes.
    pub fn walked(&self) -> usize
        ensures { result ≡ length self.now.walked.items }
    {
        self.walked.len()
    }

    /// One of the walked nodes, counted from 0 in the order of the LRU list.
    pub fn walked_at(&self, i: usize) -> Option<Addr>
        ensures { result ≡ slice_get self.now.walked.items i }
    {
        self.walked.get(i).copied()
    }

    /// One of the kept nodes, counted from 0 in the order of the LRU list.
    pub fn kept_at(&self, i: usize) -> Option<Kept>
        ensures { result ≡ slice_get self.now.kept.items i }
    {
        self.kept.get(i).copied()
    }

    /// One of the dropped nodes and records, counted from 0: first the nodes in the order of the LRU list, then the
    /// unlisted records, bucket after bucket and each chain in its order.
    pub fn dropped_at(&self, i: usize) -> Option<Dropped>
        ensures { result ≡ slice_get self.now.dropped.items i }
    {
        self.dropped.get(i).copied()
    }

    /// The number of kept nodes.
    pub fn items(&self) -> u64
        ensures { result ≡ length self.now.kept.items }
    {
        self.kept.len() as u64
    }

    /// The sum of the costs of the kept nodes: the bytes of their keys and of their streams, indexes included.
    pub fn bytes(&self) -> u64
        ensures { result ≡ self.now.bytes }
    {
        self.bytes
    }

    /// The blocks and external files that the kept nodes own.
    pub fn claims(&self) -> &Claims
        ensures { result.now ≡ self.now.claims }
    {
        &self.claims
    }

    /// The walked nodes, in the order of the LRU list.
    pub fn walked_nodes(&self) -> &[Addr]
        ensures { result.now ≡ self.now.walked.items }
    {
        &self.walked
    }

    /// The walked nodes that are kept, in the order of the LRU list.
    pub fn kept_nodes(&self) -> &[Addr]
        ensures { result.now ≡ self.now.kept_nodes.items }
    {
        &self.kept_nodes
    }

    /// Where a checksum is absent (0): first the nodes of what is kept that have none, then the records, both in the order of the LRU list.
    pub fn bare(&self) -> &[Addr]
        ensures { result.now ≡ self.now.bare.items }
    {
        &self.bare
    }

    /// The kept records of all chains; none where each bucket is the chain of its kept records already.
    pub fn chains(&self) -> Option<&KeptChains>
        ensures { option_copied result ≡ self.now.chains }
    {
        self.chains.as_ref()
    }
}
