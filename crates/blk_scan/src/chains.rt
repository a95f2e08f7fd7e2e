// The kept records of the chains.
ghost use Rattle.std.specs.Prelude.{◌≡◌, ◌++◌, ◌+◌, ◌<◌, ◌^◌, ◌&&◌, ◌==◌, [], ◌∷◌, IfOk, OnOk, length};
ghost use Rattle.std.specs.BTreeSet.{contains};
ghost use Rattle.std.specs.List.{filter, list_all};
ghost use Rattle.std.specs.Ordering.{nat_cmp};
ghost use Rattle.spec_format.specs.Headers.{table_length};
ghost use Rattle.blk_disk.specs.declared.tables.BlockFiles.{BlockFiles};
ghost use Rattle.blk_audit.specs.BucketEnds.{AreEnds};
ghost use Rattle.blk_audit.specs.Chaining.{HasBuckets, RecordsStand, words_reached};
ghost use Rattle.blk_scan.specs.Packing.{ArePacked};
ghost use Rattle.blk_scan.specs.Scans.{AreChainsExact, AreChainsTold, ChainsStandIf};
ghost use Rattle.blk_scan.specs.Clauses.{ForChainsOf, AddsWhole};

use crate::sets::{entries_of, set_of};
use blk_addr::{Addr, NoMemory};
use blk_audit::Reached;
use blk_verdict::Loaded;
use std::alloc::Global;
use std::collections::BTreeSet;

/// The kept records of all chains, bucket after bucket and each chain in its order.
#[derive(Drop)]
pub struct KeptChains {
    pub(crate) records: Vec<Addr>,
    pub(crate) ends: Vec<u32>,
    pub(crate) whole: Vec<bool>,
}

impl KeptChains {
    /// The kept records of all chains, bucket after bucket and each chain in its order.
    pub fn records(&self) -> &[Addr]
        ensures { result.now ≡ self.now.records.items }
    {
        &self.records
    }

    /// Where the records of each of the 65536 buckets end among `records`; they begin where those of the bucket before end.
    pub fn ends(&self) -> &[u32]
        ensures { result.now ≡ self.now.ends.items }
    {
        &self.ends
    }

    /// Whether the chain of the bucket has exactly its kept records already, for each of the 65536 buckets.
    pub fn whole(&self) -> &[bool]
        ensures { result.now ≡ self.now.whole.items }
    {
        &self.whole
    }

    // No bucket.
    fn none(alloc: Global) -> KeptChains
        ensures records { result.records.items ≡ [] }
        ensures ends { result.ends.items ≡ [] }
        ensures whole { result.whole.items ≡ [] }
    {
        KeptChains {
            records: Vec::new(alloc),
            ends: Vec::new(alloc),
            whole: Vec::new(alloc),
        }
    }

    // Whether each bucket is the chain of its kept records.
    fn are_whole(&self) -> bool
        ensures { result ≡ list_all (λ whole. whole) self.now.whole.items }
    {
        self.whole.iter().all(|whole| *whole)
    }

    // Adds the next bucket: those of its records that are kept. It is whole where it was closed and all are.
    fn add_bucket(
        &mut self,
        own: &[Addr],
        closed: bool,
        kept: &BTreeSet<u32>,
    ) -> Result<(), NoMemory>
        requires few { length self.old.records.items + length own.now < 2 ^ 32 }
        ensures records { OnOk result (self.new.records.items ≡ self.old.records.items ++ filter (contains nat_cmp kept.now) own.now) }
        ensures ends { OnOk result (self.new.ends.items ≡ self.old.ends.items ++ length self.new.records.items ∷ []) }
        ensures whole { OnOk result (AddsWhole closed (length own.now) self.old self.new) }
    {
        let all = self.records.len() + own.len();
        add_kept(&mut self.records, own, kept)?;
        self.ends.push(self.records.len() as u32)?;
        self.whole.push(closed && self.records.len() == all)?;
        Ok(())
    }
}

// Adds those of some records that are kept.
fn add_kept(records: &mut Vec<Addr>, own: &[Addr], kept: &BTreeSet<u32>) -> Result<(), NoMemory>
    ensures { OnOk result (records.new.items ≡ records.old.items ++ filter (contains nat_cmp kept.now) own.now) }
{
    for entry in own {
        if kept.contains(&entry.word()) {
            records.push(*entry)?;
        }
    }
    Ok(())
}

// The records of all buckets that are kept, by where those of each end and by which were closed.
fn pack(
    alloc: Global,
    records: &[Addr],
    ends: &[u32],
    closed: &[bool],
    kept: &BTreeSet<u32>,
) -> Result<KeptChains, NoMemory>
    requires ends { AreEnds records.now ends.now }
    requires told { length closed.now ≡ table_length }
    ensures { IfOk result (ArePacked (contains nat_cmp kept.now) records.now ends.now closed.now table_length) }
{
    let mut chains = KeptChains::none(alloc);
    let mut first = 0usize;
    for i in 0..ends.len() {
        let end = ends[i] as usize;
        chains.add_bucket(&records[first..end], closed[i], kept)?;
        first = end;
    }
    Ok(chains)
}

// The kept records of all chains; none where each bucket is the chain of its kept records already.
pub(crate) fn kept_chains(
    alloc: Global,
    reached: &Reached,
    records: &[Loaded],
) -> Result<Option<KeptChains>, NoMemory>
    requires buckets { HasBuckets reached.now }
    ensures told { IfOk result (λ chains. ForChainsOf reached.now records.now (λ image. AreChainsTold image chains)) }
    ensures exact { IfOk result (λ chains. ForChainsOf reached.now records.now (λ image. AreChainsExact image chains)) }
    ensures stand { IfOk result (λ chains. (files : BlockFiles) → RecordsStand files (words_reached reached.now) → ChainsStandIf files chains) }
{
    let entries = entries_of(alloc, records)?;
    let kept = set_of(alloc, &entries)?;
    let chains = pack(
        alloc,
        reached.as_slice(),
        reached.bucket_ends(),
        reached.closed_buckets(),
        &kept,
    )?;
    if chains.are_whole() {
        return Ok(None);
    }
    Ok(Some(chains))
}
