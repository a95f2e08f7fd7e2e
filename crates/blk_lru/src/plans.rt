// What an operation on the LRU list writes.
ghost use Rattle.std.specs.Prelude.{◌≡◌, ◌+◌, ◌++◌, ◌∷◌, ◌≤◌, [], length, map};
ghost use Rattle.spec_folder.specs.Completion.{putting_in_front};
ghost use Rattle.spec_folder.specs.ListPlans.{ending_by};
ghost use Rattle.spec_folder.specs.ListView as list;
ghost use Rattle.blk_lru.specs.Plans.{operation_code, leaving, writes_left, whole_plan, word_or_zero};
ghost use Rattle.blk_lru.specs.Plans as plans;
ghost use Rattle.blk_lru.specs.Writes.{meant};

use crate::writes::Write;
use arrayvec::ArrayVec;
use blk_addr::Addr;

// The most writes of an operation: its code, its node, three that take a node out, the code of an insert, four that put the node at the head, and the end.
const MOST_WRITES: usize = 11;

/// Writes into the LRU list, in their order.
pub type Plan = ArrayVec<Write, MOST_WRITES>;

// The codes of the operations.
pub(crate) const INSERT: u32 = 1;

pub(crate) const REMOVE: u32 = 2;

pub(crate) const MOVE: u32 = 3;

// The nodes beside one, by its links: the next and the previous. At an end of the list that is the node itself.
#[derive(Clone, Copy)]
pub(crate) struct Neighbours {
    pub(crate) next: Addr,
    pub(crate) prev: Addr,
}

// An operation on a node, with the nodes that it uses: the head, and the node's neighbours, where there are any. The node is put at the head, taken out, or
// taken out and then put at the head.
#[derive(Clone, Copy)]
pub(crate) enum Operation {
    Insert {
        head: Option<Addr>,
    },
    Remove {
        neighbours: Option<Neighbours>,
    },
    Move {
        neighbours: Option<Neighbours>,
        head: Option<Addr>,
    },
}

impl Operation {
    // The code of the operation in the index.
    fn code(&self) -> u32
        ensures { result ≡ operation_code self.now }
    {
        match self {
            Operation::Insert { .. } => INSERT,
            Operation::Remove { .. } => REMOVE,
            Operation::Move { .. } => MOVE,
        }
    }
}

// All that an operation on a node writes.
pub(crate) fn plan_of(node: Addr, operation: &Operation) -> Plan
    ensures { map meant result.items ≡ whole_plan node operation.now }
{
    let mut plan = ArrayVec::new();
    add(
        &mut plan,
        &[
            Write::Operation(operation.code()),
            Write::Transaction(node.word()),
        ],
    );
    add_pending(&mut plan, node, operation);
    plan
}

// What is left to write of an operation in flight.
pub(crate) fn pending_of(node: Addr, operation: &Operation) -> Plan
    ensures { map meant result.items ≡ writes_left node operation.now }
{
    let mut plan = ArrayVec::new();
    add_pending(&mut plan, node, operation);
    plan
}

// The one write that ends an operation in flight.
pub(crate) fn ending() -> Plan
    ensures { map meant result.items ≡ list.Transaction 0 ∷ [] }
{
    let mut plan = ArrayVec::new();
    add(&mut plan, &[Write::Transaction(0)]);
    plan
}

// What makes a node the last of a list whose tail is this word, where the node's next is `front`; or, where there is
// no node, the list empty whose head is `front`.
pub(crate) fn end_plan(last: &Option<Addr>, front: u32, tail: u32) -> Plan
    ensures { map meant result.items ≡ ending_by last.now front tail }
{
    let (end, first) = match *last {
        Some(node) => (node.word(), Write::Next(node, node.word())),
        None => (0, Write::Head(0)),
    };
    let mut plan = ArrayVec::new();
    if front != end {
        add(&mut plan, &[first]);
    }
    if tail != end {
        add(&mut plan, &[Write::Tail(end)]);
    }
    plan
}

// Adds what an operation writes after its code and its node.
fn add_pending(plan: &mut Plan, node: Addr, operation: &Operation)
    requires room { length plan.old.items ≤ 2 }
    ensures { map meant plan.new.items ≡ map meant plan.old.items ++ writes_left node operation.now }
{
    match operation {
        Operation::Insert { head } => put_front(plan, node, *head),
        Operation::Remove { neighbours } => take_out(plan, node, neighbours),
        Operation::Move { neighbours, head } => {
            take_out(plan, node, neighbours);
            add(plan, &[Write::Operation(INSERT)]);
            put_front(plan, node, head_without(node, neighbours, *head));
        }
    }
    add(plan, &[Write::Transaction(0)]);
}

// Adds what puts a node at the head.
fn put_front(plan: &mut Plan, node: Addr, head: Option<Addr>)
    requires room { length plan.old.items ≤ 6 }
    ensures writes { map meant plan.new.items ≡ map meant plan.old.items ++ putting_in_front node (word_or_zero head) }
    ensures few { length plan.new.items ≤ length plan.old.items + 4 }
{
    let word = node.word();
    let in_front = Write::Head(word);
    let Some(head) = head else {
        add(
            plan,
            &[
                Write::Next(node, word),
                Write::Prev(node, word),
                Write::Tail(word),
                in_front,
            ],
        );
        return;
    };
    if head != node {
        add(
            plan,
            &[
                Write::Next(node, head.word()),
                Write::Prev(node, word),
                Write::Prev(head, word),
                in_front,
            ],
        );
    }
}

// Adds what takes a node out, which is nothing where there are none beside it.
fn take_out(plan: &mut Plan, node: Addr, neighbours: &Option<Neighbours>)
    requires room { length plan.old.items ≤ 2 }
    ensures writes { map meant plan.new.items ≡ map meant plan.old.items ++ leaving node neighbours.now }
    ensures few { length plan.new.items ≤ length plan.old.items + 3 }
{
    let Some(Neighbours { next, prev }) = *neighbours else {
        return;
    };
    let (next_word, prev_word) = (next.word(), prev.word());
    let out = Write::Next(node, 0);
    match (prev == node, next == node) {
        (true, true) => add(plan, &[Write::Head(0), Write::Tail(0), out]),
        (true, false) => add(
            plan,
            &[Write::Prev(next, next_word), Write::Head(next_word), out],
        ),
        (false, true) => add(
            plan,
            &[Write::Next(prev, prev_word), Write::Tail(prev_word), out],
        ),
        (false, false) => add(
            plan,
            &[
                Write::Next(prev, next_word),
                Write::Prev(next, prev_word),
                out,
            ],
        ),
    }
}

// The head of the list once the node is out, where `head` was the head.
fn head_without(node: Addr, neighbours: &Option<Neighbours>, head: Option<Addr>) -> Option<Addr>
    ensures { result ≡ plans.head_without node neighbours.now head }
{
    let Some(Neighbours { next, prev }) = *neighbours else {
        return head;
    };
    if prev != node {
        head
    } else if next == node {
        None
    } else {
        Some(next)
    }
}

// Adds writes.
fn add(plan: &mut Plan, writes: &[Write])
    requires { length plan.old.items + length writes.now ≤ 11 }
    ensures items { plan.new.items ≡ plan.old.items ++ writes.now }
{
    let Ok(()) = plan.try_extend_from_slice(writes) else {
        unreachable!();
    };
}
