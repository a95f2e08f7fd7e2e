// The walk of the LRU list.
ghost use Rattle.std.specs.Prelude.{◌≡◌, IfOk, OnOk, MatchOption, None, length, map, slice_get};
ghost use Rattle.spec_format.specs.BlockFiles.{is_among};
ghost use Rattle.spec_folder.specs.ListView.{after_writes};
ghost use Rattle.spec_folder.specs.Walk as walking;
ghost use Rattle.blk_lru.specs.Writes.{meant};
ghost use Rattle.spec_folder.specs.ListImages.{completed_walk};
ghost use Rattle.blk_audit.specs.Nodes.{list_in, loaded_node};
ghost use Rattle.blk_audit.specs.Walking.{AreMet, IsAdded, IsNodeWord, IsStanding};
ghost use Rattle.blk_audit.specs.ScanClauses.{ForRedo, WalksStep};

use crate::changes::{head_after, next_after, prev_after};
use crate::nodes::{Node, Nodes};
use blk_addr::{Addr, Claims, NoMemory};
use blk_lru::{MOST_NODES, Write};
use std::alloc::Global;

/// The walked nodes of an LRU list, in its order: no node occurs twice, and there are at most 131072.
#[derive(Drop)]
pub struct Walked {
    nodes: Vec<Addr>,
    met: Claims,
}

// Where a walk is: at a word, after the node before it.
#[derive(Clone, Copy)]
struct Link {
    word: u32,
    before: u32,
}

// A node and its address.
#[derive(Clone, Copy)]
pub(crate) struct Standing {
    pub(crate) addr: Addr,
    pub(crate) node: Node,
}

// Walks the LRU list with this head after these writes.
pub(crate) fn walk_nodes(
    alloc: Global,
    nodes: &Nodes,
    head: u32,
    writes: &[Write],
) -> Result<Walked, NoMemory>
    ensures walked { IfOk result (λ walk. walk.nodes.items ≡ walking.walk (after_writes (map meant writes.now) (list_in nodes.now head))) }
    ensures met { IfOk result AreMet }

    // With the nodes of a folder, its head and what the redo would write, it is the walk that the redo leaves.
    ensures completed { ForRedo nodes.now head writes.now (λ image. IfOk result (λ walk. walk.nodes.items ≡ completed_walk image)) }
{
    let mut walk = Walked {
        nodes: Vec::new(alloc),
        met: Claims::new(alloc),
    };
    let first = head_after(writes, head);
    let mut link = Link {
        word: first,
        before: first,
    };
    for i in 0..MOST_NODES {
        match visit(nodes, writes, &mut walk, link)? {
            Some(next) => link = next,
            None => return Ok(walk),
        }
    }
    Ok(walk)
}

// Walks the node of a word, if there is one that passes its check, wasn't met yet, and has the node before it as its prev. Gives where the walk goes on.
fn visit(
    nodes: &Nodes,
    writes: &[Write],
    walk: &mut Walked,
    link: Link,
) -> Result<Option<Link>, NoMemory>
    requires met { AreMet walk.old }
    ensures met { OnOk result (AreMet walk.new) }
    ensures step { IfOk result (WalksStep nodes.now writes.now link walk.old walk.new) }
{
    let Some(here) = node_named(nodes, link.word) else {
        return Ok(None);
    };
    if !here.node.checks {
        return Ok(None);
    }
    let before = prev_after(writes, link.word, here.node.prev);
    if before != link.before {
        return Ok(None);
    }
    let added = walk.add(here.addr)?;
    if !added {
        return Ok(None);
    }
    let next = next_after(writes, link.word, here.node.next);
    if next == link.word {
        return Ok(None);
    }
    Ok(Some(Link {
        word: next,
        before: link.word,
    }))
}

// The node that a word names, if there is one.
pub(crate) fn node_named(nodes: &Nodes, word: u32) -> Option<Standing>
    ensures { MatchOption result (loaded_node nodes.now word ≡ None) (IsStanding nodes.now word) }
{
    let Some(addr) = Addr::from_word(word) else {
        return None;
    };
    let Some(node) = nodes.get(addr) else {
        return None;
    };
    Some(Standing { addr, node })
}

impl Walked {
    ghost use Rattle.blk_audit.specs.Walking.{nodes_walked};

    /// The number of walked nodes.
    pub fn count(&self) -> usize
        ensures { result ≡ length (nodes_walked self.now) }
    {
        self.nodes.len()
    }

    /// The address of one of the walked nodes, counted from 0.
    pub fn at(&self, i: usize) -> Option<Addr>
        ensures { result ≡ slice_get (nodes_walked self.now) i }
    {
        self.nodes.get(i).copied()
    }

    // Whether a node was walked.
    pub(crate) fn has(&self, node: Addr) -> bool
        requires node { IsNodeWord node }
        ensures { AreMet self.now → result ≡ is_among (nodes_walked self.now) node }
    {
        self.met.has(node)
    }

    // Adds a node, unless it was met. Gives whether it was added.
    fn add(&mut self, addr: Addr) -> Result<bool, NoMemory>
        requires met { AreMet self.old }
        requires node { IsNodeWord addr }
        ensures met { OnOk result (AreMet self.new) }
        ensures added { IfOk result (λ added. IsAdded self.old.nodes.items addr self.new.nodes.items added) }
    {
        let added = self.met.add(addr)?;
        if added {
            self.nodes.push(addr)?;
        }
        Ok(added)
    }
}
