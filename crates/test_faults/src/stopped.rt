// Runs that crash after each of their steps, and what the next session prints of what they left.
use crate::running::{after, left_by, run_over, steps_of};
use crate::same::{assert_same, assert_same_at};
use blk_io::{FileId, Folder, MemFolder, MemSink, read_word};
use std::alloc::Global;
use std::test::Fail;
use test_folders::folders::{DIRTY, HEAD, NODE_NEXT, TRANSACTION, place_of};
use test_folders::inputs::{Pieces, text_of};

// The folder that a session leaves, on which another run was made: its write trace is that of this run.
fn played(
    alloc: Global,
    lines: Pieces<'_>,
    words: &[&str],
    input: &[u8],
) -> Result<MemFolder, Fail> {
    let mut f = left_by(alloc, &text_of(alloc, lines)?)?;
    let (_, _) = run_over(alloc, &mut f, words, input)?;
    Ok(f)
}

// What a session prints of a folder.
fn shown(alloc: Global, f: &mut MemFolder, lines: &[u8]) -> Result<MemSink, Fail> {
    let (_, out) = run_over(alloc, f, &["session"], lines)?;
    Ok(out)
}

// Three objects with bytes, made and closed one after another.
const THREE: Pieces<'static> = &[(
    b"create 0 a\nwrite 0 0 0 6161\nclose 0\ncreate 0 b\nwrite 0 1 4999 62\nclose 0\n\
    create 0 c\nwrite 0 2 0 636363\nclose 0\n",
    0,
)];

// What is looked at in the session that follows: the list, and the bytes of each object.
const LOOKS: &[u8] =
    b"list\nopen 1 a\nread 1 0 0 9\nopen 2 b\nread 2 1 4998 9\nopen 3 c\nread 3 2 0 9\n";

// What it prints before the second object is used, and after it.
const AS_MADE: &[u8] = b"main c 0 0 3\nmain b 0 5000 0\nmain a 2 0 0\nend 3\n\
    ok\ndata 2 6161\nok\ndata 2 0062\nok\ndata 3 636363\n";

const AS_USED: &[u8] = b"main b 0 5000 0\nmain c 0 0 3\nmain a 2 0 0\nend 3\n\
    ok\ndata 2 6161\nok\ndata 2 0062\nok\ndata 3 636363\n";

// The node after the first of the list.
fn second_node<F: Folder>(f: &mut F) -> Result<u32, Fail> {
    let head = read_word(f, FileId::Index, HEAD)?;
    let (file, place) = place_of(head);
    Ok(read_word(f, file, place.wrapping_add(NODE_NEXT))?)
}

#[test]
fn an_open_turns_at_the_word_that_names_its_node(rt: HostRuntime) -> Result<(), Fail> {
    let whole = played(rt.alloc(), THREE, &["session"], b"open 0 b\n")?;
    let node = second_node(&mut after(&whole, 0)?)?;
    let mut turned = false;
    for steps in 0..=steps_of(&whole) {
        let mut f = after(&whole, steps)?;
        turned = turned || read_word(&mut f, FileId::Index, TRANSACTION)? == node;
        assert!(rt; steps > 0 || !turned);
        let out = shown(rt.alloc(), &mut f, LOOKS)?;
        assert_same_at(
            &rt,
            out.written(),
            if turned { AS_USED } else { AS_MADE },
            steps,
        );
    }
    assert!(rt; turned);
    Ok(())
}

// An object that is closed, and another one in front of it.
const TWO: Pieces<'static> = &[(
    b"create 0 b\nwrite 0 0 0 62\nclose 0\ncreate 1 a\nwrite 1 1 0 7a\nclose 1\n",
    0,
)];

// How the second one is changed, what is looked at then, and what that prints where it is as before, absent, and as it was changed.
const CHANGE: &[u8] = b"open 1 a\nwrite 1 0 0 7a7a\nclose 1\n";

const LOOK: &[u8] = b"list\nopen 0 b\nread 0 0 0 9\nopen 1 a\nread 1 0 0 9\nread 1 1 0 9\n";

const UNCHANGED: &[u8] =
    b"main a 0 1 0\nmain b 1 0 0\nend 2\nok\ndata 1 62\nok\ndata 0 -\ndata 1 7a\n";

const ABSENT: &[u8] = b"main b 1 0 0\nend 1\nok\ndata 1 62\nrefused 3 Missing\n\
    refused 1 BadHandle\nrefused 1 BadHandle\n";

const CHANGED: &[u8] =
    b"main a 2 1 0\nmain b 1 0 0\nend 2\nok\ndata 1 62\nok\ndata 2 7a7a\ndata 1 7a\n";

// The place of the session's number in the index.
const THIS_ID: u64 = 20;

// Whether the dirty flag of the node that is first in the list is the number of the session; else it is 0.
fn is_first_dirty<F: Folder>(f: &mut F) -> Result<bool, Fail> {
    let head = read_word(f, FileId::Index, HEAD)?;
    let (file, place) = place_of(head);
    let word = read_word(f, file, place.wrapping_add(DIRTY))?;
    Ok(word != 0 && word == read_word(f, FileId::Index, THIS_ID)?)
}

#[test]
fn a_change_turns_at_the_dirty_word_and_a_close_at_the_clean_word(
    rt: HostRuntime,
) -> Result<(), Fail> {
    let whole = played(rt.alloc(), TWO, &["session"], CHANGE)?;
    let mut marked = false;
    for steps in 0..=steps_of(&whole) {
        let mut f = after(&whole, steps)?;
        let is_dirty = is_first_dirty(&mut f)?;
        marked = marked || is_dirty;
        let wanted = match (marked, is_dirty) {
            (false, _) => UNCHANGED,
            (true, true) => ABSENT,
            (true, false) => CHANGED,
        };
        let out = shown(rt.alloc(), &mut f, LOOK)?;
        assert_same_at(&rt, out.written(), wanted, steps);
    }
    assert!(rt; marked);
    Ok(())
}

// The second one is changed, flushed and changed again, and what the look at it prints where it is as it was flushed, and as it was closed.
const FLUSH: &[u8] = b"open 1 a\nwrite 1 0 0 6162\nflush 1\nwrite 1 0 0 63\n";

const FLUSHED: &[u8] =
    b"main a 2 1 0\nmain b 1 0 0\nend 2\nok\ndata 1 62\nok\ndata 2 6162\ndata 1 7a\n";

const CLOSED: &[u8] =
    b"main a 2 1 0\nmain b 1 0 0\nend 2\nok\ndata 1 62\nok\ndata 2 6362\ndata 1 7a\n";

#[test]
fn a_flush_turns_at_the_clean_word_and_a_write_after_it_at_the_dirty_word(
    rt: HostRuntime,
) -> Result<(), Fail> {
    let whole = played(rt.alloc(), TWO, &["session"], FLUSH)?;
    let mut was_dirty = false;
    let mut turns = 0u32;
    for steps in 0..=steps_of(&whole) {
        let mut f = after(&whole, steps)?;
        let is_dirty = is_first_dirty(&mut f)?;
        if is_dirty != was_dirty {
            turns = turns.saturating_add(1);
        }
        was_dirty = is_dirty;
        let wanted = match turns {
            0 => UNCHANGED,
            2 => FLUSHED,
            4 => CLOSED,
            _ => ABSENT,
        };
        let out = shown(rt.alloc(), &mut f, LOOK)?;
        assert_same_at(&rt, out.written(), wanted, steps);
    }
    assert_same(&rt, turns, 4);
    Ok(())
}

// A sparse object that is closed, with two parts that were used after it.
const SPARSE: Pieces<'static> = &[
    (b"create 0 v\nwrite 0 0 0 6162\nswrite 0 1047552 ", 1024),
    (
        b"\nswrite 0 1048576 61626364\nsread 0 1047552 2000\nclose 0\n",
        0,
    ),
];

const LOOK_AT_PARTS: &[u8] =
    b"list\nopen 0 v\nread 0 0 0 9\nsread 0 1048574 9\nsrange 0 0 1048576\n";

const WHOLE: &[u8] = b"part v 1 4\npart v 0 1048576\nsparse v 2\nend 3\nok\ndata 2 6162\n\
    data 6 7a7a61626364\nrange 1047552 1024\n";

const GONE: &[u8] =
    b"end 0\nrefused 3 Missing\nrefused 1 BadHandle\nrefused 1 BadHandle\nrefused 1 BadHandle\n";

#[test]
fn a_sparse_object_is_evicted_whole_or_not_at_all(rt: HostRuntime) -> Result<(), Fail> {
    let whole = played(rt.alloc(), SPARSE, &["trim", "0"], b"")?;
    let mut is_gone = false;
    for steps in 0..=steps_of(&whole) {
        let mut f = after(&whole, steps)?;
        let out = shown(rt.alloc(), &mut f, LOOK_AT_PARTS)?;
        is_gone = is_gone || out.written() == GONE;
        assert_same_at(
            &rt,
            out.written(),
            if is_gone { GONE } else { WHOLE },
            steps,
        );
    }
    assert!(rt; is_gone);
    Ok(())
}
