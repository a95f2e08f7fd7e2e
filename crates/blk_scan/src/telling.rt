// What is reported of the nodes and the records that are kept and dropped.
ghost use Rattle.std.specs.Prelude.{◌≡◌, ◌++◌, [], IfOk, OnOk, length, map};
ghost use Rattle.std.specs.List.{cons_option};
ghost use Rattle.blk_verdict.specs.Kept.{is_part_said};
ghost use Rattle.blk_scan.specs.Outcomes as shown;
ghost use Rattle.blk_scan.specs.Outcomes.{dropped_in, kept_by_record};
ghost use Rattle.blk_scan.specs.Scans.{unlisted_as_told};

use crate::outcomes::Outcome;
use crate::scan::{Dropped, Kept};
use blk_addr::{Addr, NoMemory};
use blk_verdict::{Loaded, Reason, Role};
use std::alloc::Global;

// What is reported of some kept records, in their order.
pub(crate) fn kept_of(alloc: Global, records: &[Loaded]) -> Result<Vec<Kept>, NoMemory>
    ensures { IfOk result (λ kept. kept.items ≡ map kept_by_record records.now) }
{
    let mut kept = Vec::new(alloc);
    for record in records {
        kept.push(Kept {
            node: record.node,
            entry: record.entry,
            child: is_part(record.role),
        })?;
    }
    Ok(kept)
}

// Whether a role is a part's.
fn is_part(role: Role) -> bool
    ensures { result ≡ is_part_said role }
{
    match role {
        Role::Plain => false,
        Role::Parent(_) => false,
        Role::Part(_) => true,
    }
}

// The nodes of some kept records, in their order.
pub(crate) fn nodes_of(alloc: Global, records: &[Loaded]) -> Result<Vec<Addr>, NoMemory>
    ensures { IfOk result (λ nodes. nodes.items ≡ map (λ said. said.node) records.now) }
{
    let mut nodes = Vec::new(alloc);
    for record in records {
        nodes.push(record.node)?;
    }
    Ok(nodes)
}

// What is reported of the dropped ones of some nodes, in their order, by the outcome of each.
pub(crate) fn dropped_of(
    alloc: Global,
    nodes: &[Addr],
    outcomes: &[Option<Outcome>],
) -> Result<Vec<Dropped>, NoMemory>
    requires same { length nodes.now ≡ length outcomes.now }
    ensures { IfOk result (λ dropped. dropped.items ≡ dropped_in nodes.now outcomes.now) }
{
    let mut dropped = Vec::new(alloc);
    for i in 0..nodes.len() {
        add(&mut dropped, dropped_at(nodes[i], outcomes[i]))?;
    }
    Ok(dropped)
}

// What is reported of a node by its outcome, if it is dropped.
fn dropped_at(node: Addr, outcome: Option<Outcome>) -> Option<Dropped>
    ensures { result ≡ shown.dropped_at node outcome }
{
    match outcome {
        None => None,
        Some(Outcome::Kept(_)) => None,
        Some(Outcome::Dropped(reason)) => Some(Dropped {
            place: node,
            reason,
        }),
    }
}

// Adds what is reported of a node, if it is dropped.
fn add(dropped: &mut Vec<Dropped>, one: Option<Dropped>) -> Result<(), NoMemory>
    ensures { OnOk result (dropped.new.items ≡ dropped.old.items ++ cons_option one []) }
{
    if let Some(one) = one {
        dropped.push(one)?;
    }
    Ok(())
}

// Adds what is reported of unlisted records.
pub(crate) fn add_unlisted(dropped: &mut Vec<Dropped>, records: &[Addr]) -> Result<(), NoMemory>
    ensures { OnOk result (dropped.new.items ≡ dropped.old.items ++ map unlisted_as_told records.now) }
{
    for record in records {
        dropped.push(Dropped {
            place: *record,
            reason: Reason::Unlisted,
        })?;
    }
    Ok(())
}
