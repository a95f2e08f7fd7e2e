// The nodes of a walk.
ghost use Rattle.std.specs.Prelude.{◌≡◌, IfOk, take};
ghost use Rattle.spec_folder.specs.ListView.{most_nodes};
ghost use Rattle.blk_audit.specs.Walking.{nodes_walked};

use blk_addr::{Addr, NoMemory};
use blk_audit::Walked;
use blk_lru::MOST_NODES;
use std::alloc::Global;

// The walked nodes, in the order of the walk.
pub(crate) fn nodes_of_walk(alloc: Global, walked: &Walked) -> Result<Vec<Addr>, NoMemory>
    ensures { IfOk result (λ nodes. nodes.items ≡ take most_nodes (nodes_walked walked.now)) }
{
    let mut nodes = Vec::new(alloc);
    for i in 0..MOST_NODES as usize {
        let Some(node) = walked.at(i) else {
            return Ok(nodes);
        };
        nodes.push(node)?;
    }
    Ok(nodes)
}
