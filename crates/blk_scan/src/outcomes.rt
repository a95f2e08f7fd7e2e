// The outcomes of the walked nodes, put back into the order of the walk.
ghost use Rattle.std.specs.Prelude.{◌≡◌, ◌≤◌, ◌<◌, ◌+◌, ◌^◌, ◌++◌, [], IfOk, None, OnOk, Some, length, replicate, set};
ghost use Rattle.std.specs.List.{cons_option, filter_map};
ghost use Rattle.blk_scan.specs.Outcomes as shown;
ghost use Rattle.blk_scan.specs.Outcomes.{count_after, outcome_after, with_tried};

use blk_addr::NoMemory;
use blk_verdict::{Loaded, Reason, Tried};
use std::alloc::Global;

// The outcome of a walked node: kept or dropped.
#[derive(Clone, Copy)]
pub(crate) enum Outcome {
    // The node is kept: its record is this one of the kept records, counted from 0 in the order in which they were tried.
    Kept(usize),
    // The node is dropped, for this reason.
    Dropped(Reason),
}

// The outcome of each walked node, in the order of the walk, from the outcomes in the order in which the nodes were tried.
pub(crate) fn by_place(
    alloc: Global,
    count: usize,
    tried: &[Tried],
) -> Result<Vec<Option<Outcome>>, NoMemory>
    ensures placed { IfOk result (λ outcomes. outcomes.items ≡ with_tried (replicate count None) 0 tried.now) }
    ensures long { IfOk result (λ outcomes. length outcomes.items ≡ count) }
{
    let mut outcomes = Vec::new(alloc);
    outcomes.resize(count, None)?;
    let mut kept = 0usize;
    for one in tried {
        put(&mut outcomes, one.place, outcome_of(kept, one.reason));
        kept = count_with(kept, one.reason);
    }
    Ok(outcomes)
}

// The outcome of a node that was tried, where `kept` nodes were kept before it.
fn outcome_of(kept: usize, reason: Option<Reason>) -> Outcome
    ensures { result ≡ outcome_after kept reason }
{
    match reason {
        None => Outcome::Kept(kept),
        Some(reason) => Outcome::Dropped(reason),
    }
}

// How many nodes are kept after one that was tried, where `kept` were kept before it.
fn count_with(kept: usize, reason: Option<Reason>) -> usize
    requires few { kept + 1 < 2 ^ 64 }
    ensures { result ≡ count_after kept reason }
{
    match reason {
        None => kept + 1,
        Some(_) => kept,
    }
}

// Puts an outcome to a place, if it is there.
fn put(outcomes: &mut Vec<Option<Outcome>>, place: usize, outcome: Outcome)
    ensures { outcomes.new.items ≡ set outcomes.old.items place (Some outcome) }
{
    if place < outcomes.len() {
        outcomes[place] = Some(outcome);
    }
}

// The kept records in the order of the walk.
pub(crate) fn in_order(
    alloc: Global,
    records: &[Loaded],
    outcomes: &[Option<Outcome>],
) -> Result<Vec<Loaded>, NoMemory>
    ensures kept { IfOk result (λ kept. kept.items ≡ filter_map (shown.record_of_outcome records.now) outcomes.now) }
    ensures few { IfOk result (λ kept. length kept.items ≤ length outcomes.now) }
{
    let mut kept = Vec::new(alloc);
    for i in 0..outcomes.len() {
        add(&mut kept, record_of(records, outcomes[i]))?;
    }
    Ok(kept)
}

// The kept record of an outcome.
fn record_of(records: &[Loaded], outcome: Option<Outcome>) -> Option<Loaded>
    ensures { result ≡ shown.record_of_outcome records.now outcome }
{
    match outcome {
        None => None,
        Some(Outcome::Kept(i)) => records.get(i).copied(),
        Some(Outcome::Dropped(_)) => None,
    }
}

// Adds a record, if there is one.
fn add(kept: &mut Vec<Loaded>, one: Option<Loaded>) -> Result<(), NoMemory>
    ensures { OnOk result (kept.new.items ≡ kept.old.items ++ cons_option one []) }
{
    if let Some(one) = one {
        kept.push(one)?;
    }
    Ok(())
}
