// The outcomes of the walked nodes, in the order of the walk.
ghost use Rattle.std.specs.Prelude.{◌≡◌, ◌≤◌, IfOk, length, take};
ghost use Rattle.spec_image.specs.Image.{Image};
ghost use Rattle.spec_folder.specs.ListView.{most_nodes};
ghost use Rattle.blk_audit.specs.ReadLists.{AreListsOf};
ghost use Rattle.blk_audit.specs.Walking.{nodes_walked};
ghost use Rattle.blk_scan.specs.Ordering.{AreJudged, IsOrderOf};

use crate::nodes::nodes_of_walk;
use crate::outcomes::{by_place, in_order};
use crate::scan::Dropped;
use crate::telling::dropped_of;
use blk_addr::{Addr, NoMemory};
use blk_audit::Lists;
use blk_verdict::{Judged, Loaded};
use std::alloc::Global;

// The walked nodes with their outcomes, all in the order of the walk.
#[derive(Drop)]
pub(crate) struct Ordered {
    pub(crate) walked: Vec<Addr>,
    // the kept ones
    pub(crate) records: Vec<Loaded>,
    // the dropped ones
    pub(crate) dropped: Vec<Dropped>,
}

// Puts the outcomes of the walked nodes into the order of the walk.
pub(crate) fn order(alloc: Global, lists: &Lists, judged: &Judged) -> Result<Ordered, NoMemory>
    ensures ordered { IfOk result (λ ordered. (image : Image) → AreListsOf image lists.now → AreJudged image judged.now → IsOrderOf image ordered) }
    ensures walked { IfOk result (λ ordered. ordered.walked.items ≡ take most_nodes (nodes_walked lists.now.walked)) }
    ensures few { IfOk result (λ ordered. length ordered.records.items ≤ most_nodes) }
{
    let walked = nodes_of_walk(alloc, &lists.walked)?;
    let outcomes = by_place(alloc, walked.len(), &judged.tried)?;
    let records = in_order(alloc, judged.kept.records(), &outcomes)?;
    let dropped = dropped_of(alloc, &walked, &outcomes)?;
    Ok(Ordered {
        walked,
        records,
        dropped,
    })
}
