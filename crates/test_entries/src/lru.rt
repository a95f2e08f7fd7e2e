// The LRU list of three nodes in a folder in memory, opaque or observable.
ghost use Rattle.std.specs.Prelude.{IfSome, IsTrue};
ghost use Rattle.blk_disk.specs.Tables.{is_node_among};

use crate::folders::put_all;
use crate::same::assert_same;
use blk_addr::Addr;
use blk_disk::BlockFiles;
use blk_io::{
    Damage, Failed, Fault, FileId, Folder, MemFolder, SilentFolder, StopFolder, read_exact,
    read_word, write_word,
};
use blk_lru::{after, before, complete, first, insert_front, last, pending, remove, touch};
use blk_record::{IndexHead, NodeView, Record};
use std::alloc::Global;
use std::test::Fail;

pub(crate) const NODES: [u32; 3] = [0x9000_0000, 0x9000_0001, 0x9000_0002];

// The place of the first node, and how many bytes a node has.
const NODES_AT: u64 = 8192;

const NODE_LEN: usize = 36;

// The moment of an access, and the four words of the times that it sets.
const MOMENT: u64 = 0x0123_4567_89AB_CDEF;

const TIMES: [u32; 4] = [0x89AB_CDEF, 0x0123_4567, 0x89AB_CDEF, 0x0123_4567];

// An opaque folder in memory that crashes.
pub(crate) type Silent = SilentFolder<StopFolder>;

// Lets so many steps pass.
fn stopping(inner: MemFolder, steps: u64) -> Silent {
    SilentFolder::new(StopFolder::new(inner, steps))
}

// The folder with what was written so far, where so many more steps pass.
fn again(f: Silent, steps: u64) -> Silent {
    stopping(f.into_inner().into_inner(), steps)
}

// A folder with a file of nodes, none of them used; it is opaque, so no contract says what it holds.
fn folder(alloc: Global) -> Result<Silent, Failed> {
    let mut f = stopping(MemFolder::without_trail(alloc), u64::MAX);
    put_all(&mut f, [1024, 0, 0, 0])?;
    Ok(f)
}

// The place of a word of a node.
fn place_of(word: u32, at: u32) -> u64 {
    NODES_AT + 36 * u64::from(word % 0x1_0000) + u64::from(at)
}

// A word of a node.
fn node_word<F: Folder>(f: &mut F, word: u32, at: u32) -> Result<u32, Fault> {
    read_word(f, FileId::Block(0), place_of(word, at))
}

// The head, the tail, the transaction and the operation, and the next and the prev of each node.
pub(crate) fn shown<F: Folder>(f: &mut F) -> Result<([u32; 4], [u32; 3], [u32; 3]), Fault> {
    let mut words = [0; 4];
    for (slot, at) in words.iter_mut().zip([
        IndexHead::HEADS,
        IndexHead::TAILS,
        IndexHead::TRANSACTION,
        IndexHead::OPERATION,
    ]) {
        *slot = read_word(f, FileId::Index, at)?;
    }
    let mut nexts = [0; 3];
    let mut prevs = [0; 3];
    for (slot, node) in nexts.iter_mut().zip(NODES) {
        *slot = node_word(f, node, NodeView::NEXT)?;
    }
    for (slot, node) in prevs.iter_mut().zip(NODES) {
        *slot = node_word(f, node, NodeView::PREV)?;
    }
    Ok((words, nexts, prevs))
}

// The words of a node's times.
fn times<F: Folder>(f: &mut F, node: u32) -> Result<[u32; 4], Fault> {
    let mut words = [0; 4];
    for (slot, at) in words.iter_mut().zip([0, 4, 8, 12]) {
        *slot = node_word(f, node, at)?;
    }
    Ok(words)
}

// The links of a node.
#[derive(Clone, Copy)]
struct Node {
    next: u32,
    prev: u32,
}

// A node, where its checksum matches or is absent.
fn checked<F: Folder>(f: &mut F, word: u32) -> Result<Option<Node>, Fault> {
    let mut window = [0; NODE_LEN];
    read_exact(f, FileId::Block(0), place_of(word, 0), &mut window)?;
    let Some(view) = NodeView::over(&window) else {
        return Ok(None);
    };
    if !view.checks() {
        return Ok(None);
    }
    Ok(Some(Node {
        next: view.word(NodeView::NEXT as usize),
        prev: view.word(NodeView::PREV as usize),
    }))
}

// A change of the list.
#[derive(Clone, Copy)]
enum Change {
    Insert,
    Remove,
    Touch,
}

// Makes a change by the node of a word, where that one is there.
fn change_list(f: &mut Silent, files: &BlockFiles, change: Change, word: u32) -> Result<(), Fault> {
    let Some(node) = files.node(word) else {
        return Ok(());
    };
    match change {
        Change::Insert => insert_front(f, files, node),
        Change::Remove => remove(f, files, node),
        Change::Touch => touch(f, files, node, MOMENT),
    }
}

// The number of folder calls of a change.
fn calls_of(f: &mut Silent, files: &BlockFiles, change: Change, word: u32) -> Result<u64, Fault> {
    let start = f.calls();
    change_list(f, files, change, word)?;
    Ok(f.calls().wrapping_sub(start))
}

// A folder whose list has these nodes, the last of them in front.
pub(crate) fn listing(alloc: Global, listed: &[u32]) -> Result<(Silent, BlockFiles), Fail> {
    let mut f = folder(alloc)?;
    let files = BlockFiles::load(&mut f)?;
    for word in listed {
        change_list(&mut f, &files, Change::Insert, *word)?;
    }
    Ok((f, files))
}

// Such a folder, with a change of which so many steps pass.
fn stopped(
    alloc: Global,
    listed: &[u32],
    change: Change,
    word: u32,
    steps: u64,
) -> Result<(Silent, BlockFiles), Fail> {
    let (f, files) = listing(alloc, listed)?;
    let mut f = again(f, steps);
    let _ = change_list(&mut f, &files, change, word);
    Ok((f, files))
}

// The nodes of three words, where all are there.
pub(crate) fn three(files: &BlockFiles) -> Option<(Addr, Addr, Addr)>
    ensures first { IfSome result (λ nodes. IsTrue (is_node_among files.now nodes.0)) }
    ensures second { IfSome result (λ nodes. IsTrue (is_node_among files.now nodes.1)) }
    ensures third { IfSome result (λ nodes. IsTrue (is_node_among files.now nodes.2)) }
{
    let one = files.node(NODES[0])?;
    let two = files.node(NODES[1])?;
    let three = files.node(NODES[2])?;
    Some((one, two, three))
}

// What a folder shows of its list.
pub(crate) type Shown = ([u32; 4], [u32; 3], [u32; 3]);

// Makes a change, and shows the list then.
fn changed(f: &mut Silent, files: &BlockFiles, change: Change, word: u32) -> Result<Shown, Fault> {
    change_list(f, files, change, word)?;
    shown(f)
}

#[test]
fn three_nodes_are_inserted_one_is_touched_and_one_removed(rt: HostRuntime) -> Result<(), Fail> {
    let [zero, one, two] = NODES;
    let (mut f, files) = listing(rt.alloc(), &NODES)?;
    let touched = ([one, zero, 0, 1], [zero, two, zero], [two, one, one]);
    let touch = changed(&mut f, &files, Change::Touch, one);
    assert_same(&rt, touch, Ok(touched));
    assert_same(&rt, times(&mut f, one), Ok(TIMES));
    let removed = ([one, zero, 0, 2], [zero, zero, 0], [one, one, one]);
    let remove = changed(&mut f, &files, Change::Remove, two);
    assert_same(&rt, remove, Ok(removed));
    Ok(())
}

// A node that is read.
#[derive(Clone, Copy)]
enum Reading {
    First,
    Last,
    Before,
    After,
}

// What is read by a look from the node of a word, where that one is there.
fn look(
    f: &mut Silent,
    files: &BlockFiles,
    from: Reading,
    word: u32,
) -> Result<Option<Addr>, Fault> {
    let Some(node) = files.node(word) else {
        return Ok(None);
    };
    match from {
        Reading::First => first(f, files),
        Reading::Last => last(f, files),
        Reading::Before => before(f, files, node),
        Reading::After => after(f, files, node),
    }
}

// The word of the node that is read, or 0, and the number of folder calls.
fn counted_look(
    f: &mut Silent,
    files: &BlockFiles,
    from: Reading,
    word: u32,
) -> Result<(u32, u64), Fault> {
    let start = f.calls();
    let node = look(f, files, from, word)?;
    let found = node.map(|node| node.word()).unwrap_or(0);
    Ok((found, f.calls().wrapping_sub(start)))
}

#[test]
fn reading_takes_one_call(rt: HostRuntime) -> Result<(), Fail> {
    let [zero, one, two] = NODES;
    let (mut f, files) = listing(rt.alloc(), &NODES)?;
    for (from, word, found) in [
        (Reading::First, one, two),
        (Reading::Last, one, zero),
        (Reading::Before, one, two),
        (Reading::After, one, zero),
        (Reading::Before, two, 0),
        (Reading::After, zero, 0),
    ] {
        let read = counted_look(&mut f, &files, from, word);
        assert_same(&rt, read, Ok((found, 1)));
    }
    Ok(())
}

#[test]
fn changes_take_few_calls(rt: HostRuntime) -> Result<(), Fail> {
    let [zero, one, two] = NODES;
    let (mut f, files) = listing(rt.alloc(), &[zero, one])?;
    for (change, word, calls) in [
        (Change::Insert, two, 17),
        (Change::Touch, one, 36),
        (Change::Remove, two, 17),
    ] {
        assert_same(&rt, calls_of(&mut f, &files, change, word), Ok(calls));
    }
    Ok(())
}

// The nodes from the head on, as far as each has a matching checksum or none, and the one before it as its previous one, and then zeros.
fn walked<F: Folder>(f: &mut F) -> Result<[u32; 3], Fault> {
    let mut order = [0; 3];
    let mut word = read_word(f, FileId::Index, IndexHead::HEADS)?;
    let mut before = word;
    for slot in order.iter_mut() {
        if word == 0 {
            break;
        }
        let Some(node) = checked(f, word)? else {
            break;
        };
        if node.prev != before {
            break;
        }
        *slot = word;
        before = word;
        word = if node.next == word { 0 } else { node.next };
    }
    Ok(order)
}

// The walk after the redo of the operation in flight, where that crashes after so many steps first, again and again.
fn completed(f: Silent, files: &BlockFiles, stops: &[u64]) -> Result<[u32; 3], Fault> {
    let mut f = f;
    for steps in stops {
        f = again(f, *steps);
        let _ = complete(&mut f, files);
    }
    f = again(f, u64::MAX);
    complete(&mut f, files)?;
    walked(&mut f)
}

#[test]
fn touch_stopped_after_each_word_leaves_the_old_order_or_the_new(
    rt: HostRuntime,
) -> Result<(), Fail> {
    let [zero, one, two] = NODES;
    for (word, new) in [
        (two, [two, one, zero]),
        (one, [one, two, zero]),
        (zero, [zero, two, one]),
    ] {
        for steps in 0..30 {
            let (f, files) = stopped(rt.alloc(), &NODES, Change::Touch, word, steps)?;
            let order = if steps < 2 { [two, one, zero] } else { new };
            assert_same(&rt, completed(f, &files, &[]), Ok(order));
        }
    }
    Ok(())
}

// Whether a change that crashes once its node is named gives this order, where its redo crashes twice before so
// many steps.
fn gives_twice(
    alloc: Global,
    listed: &[u32],
    change: Change,
    word: u32,
    most: u64,
    new: [u32; 3],
) -> Result<bool, Fail> {
    for first in 0..most {
        for second in 0..most {
            let (f, files) = stopped(alloc, listed, change, word, 2)?;
            if completed(f, &files, &[first, second])? != new {
                return Ok(false);
            }
        }
    }
    Ok(true)
}

#[test]
fn completing_an_insert_or_a_removal_may_be_stopped_twice(rt: HostRuntime) -> Result<(), Fail> {
    let [zero, one, two] = NODES;
    let inserted = [two, one, zero];
    let removed = [two, zero, 0];
    assert!(rt; gives_twice(rt.alloc(), &NODES[..2], Change::Insert, two, 12, inserted)?);
    assert!(rt; gives_twice(rt.alloc(), &NODES, Change::Remove, one, 12, removed)?);
    Ok(())
}

#[test]
fn completing_a_touch_may_be_stopped_twice(rt: HostRuntime) -> Result<(), Fail> {
    let [zero, one, two] = NODES;
    assert!(rt;
        gives_twice(
            rt.alloc(),
            &NODES,
            Change::Touch,
            zero,
            20,
            [zero, two, one]
        )?
    );
    Ok(())
}

// The number of folder calls of the redo, and of those that find no operation then.
fn calls_of_completing(f: Silent, files: &BlockFiles) -> Result<[u64; 2], Fault> {
    let mut f = again(f, u64::MAX);
    let start = f.calls();
    complete(&mut f, files)?;
    let between = f.calls();
    complete(&mut f, files)?;
    Ok([between.wrapping_sub(start), f.calls().wrapping_sub(between)])
}

#[test]
fn completing_takes_few_calls(rt: HostRuntime) -> Result<(), Fail> {
    let (f, files) = stopped(rt.alloc(), &NODES, Change::Touch, NODES[1], 2)?;
    assert_same(&rt, calls_of_completing(f, &files), Ok([34, 1]));
    Ok(())
}

// A call of the crate.
#[derive(Clone, Copy)]
enum Call {
    First,
    Last,
    Before,
    After,
    Insert,
    Remove,
    Touch,
    Pending,
    Complete,
}

// What a call answers, where its node is there.
fn outcome(f: &mut Silent, files: &BlockFiles, call: Call, word: u32) -> Result<(), Fault> {
    let Some(node) = files.node(word) else {
        return Ok(());
    };
    match call {
        Call::First => first(f, files).map(|_| ()),
        Call::Last => last(f, files).map(|_| ()),
        Call::Before => before(f, files, node).map(|_| ()),
        Call::After => after(f, files, node).map(|_| ()),
        Call::Insert => insert_front(f, files, node),
        Call::Remove => remove(f, files, node),
        Call::Touch => touch(f, files, node, MOMENT),
        Call::Pending => pending(f, files).map(|_| ()),
        Call::Complete => complete(f, files),
    }
}

// What a call answers where a file is cut, with an operation in flight.
fn cut(alloc: Global, call: Call, file: FileId, size: u64) -> Result<Result<(), Fault>, Fail> {
    let (mut f, files) = listing(alloc, &NODES)?;
    write_word(&mut f, FileId::Index, IndexHead::TRANSACTION, NODES[1])?;
    f.set_len(file, size)?;
    Ok(outcome(&mut f, &files, call, NODES[1]))
}

#[test]
fn short_reads_are_damages(rt: HostRuntime) -> Result<(), Fail> {
    let nodes = FileId::Block(0);
    let node = place_of(NODES[1], 0);
    for (call, file, at, found) in [
        (Call::First, FileId::Index, IndexHead::HEADS, 3),
        (Call::Last, FileId::Index, IndexHead::TAILS, 0),
        (Call::Before, nodes, place_of(NODES[1], NodeView::PREV), 2),
        (Call::After, nodes, place_of(NODES[1], NodeView::NEXT), 1),
        (Call::Insert, FileId::Index, IndexHead::HEADS, 2),
        (Call::Remove, nodes, place_of(NODES[1], NodeView::NEXT), 3),
        (Call::Touch, FileId::Index, IndexHead::HEADS, 0),
        (Call::Pending, FileId::Index, IndexHead::TRANSACTION, 2),
        (Call::Pending, FileId::Index, IndexHead::OPERATION, 1),
        (Call::Pending, nodes, node, 35),
        (Call::Complete, nodes, node, 20),
    ] {
        let size = at.wrapping_add(u64::from(found));
        let damage = Fault::Damaged(Damage { file, at, found });
        assert_same(&rt, cut(rt.alloc(), call, file, size)?, Err(damage));
    }
    Ok(())
}
