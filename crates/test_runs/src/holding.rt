// Sessions whose output holds back what it gets until it is flushed.
use crate::same::assert_same;
use blk_io::{HoldingSink, ListClock, MemSource};
use blk_run::{Status, session};
use std::alloc::Global;
use std::test::Fail;
use test_folders::stopping::empty;
use test_sessions::sessions::LIMITS;

// The most bytes that a session reads here.
const BUDGET: u64 = 1000;

// Plays a script with an empty folder. Gives how the session ended.
fn played(alloc: Global, script: &[u8], out: &mut HoldingSink) -> Result<Status, Fail> {
    let mut f = empty(alloc);
    let mut input = MemSource::new(alloc, script)?;
    let mut clock = ListClock::new(alloc, &[50])?;
    Ok(session(alloc, LIMITS, BUDGET, &mut input, out, &mut f, &mut clock))
}

#[test]
fn at_0_nothing_is_held(rt: HostRuntime) -> Result<(), Fail> {
    let mut out = HoldingSink::new(rt.alloc());
    let status = played(rt.alloc(), b"create 0 a\nclose 0\n", &mut out)?;
    assert_same(&rt, status, Status::Ok);
    assert_same(&rt, out.written(), b"ok\nok\n");
    assert_same(&rt, (out.handed(), out.waits()), (6, false));
    Ok(())
}

#[test]
fn at_1_nothing_is_held(rt: HostRuntime) -> Result<(), Fail> {
    let mut out = HoldingSink::new(rt.alloc());
    let status = played(rt.alloc(), b"list\nopen 0 a\n", &mut out)?;
    assert_same(&rt, status, Status::Refused);
    assert_same(
        &rt,
        (out.handed(), out.waits()),
        (out.written().len(), false),
    );
    Ok(())
}

#[test]
fn a_flush_that_fails_gives_5(rt: HostRuntime) -> Result<(), Fail> {
    let mut out = HoldingSink::new(rt.alloc());
    out.fail_at(2)?;
    let status = played(rt.alloc(), b"list\nlist\nlist\n", &mut out)?;
    assert_same(&rt, status, Status::Sink);
    // The second reply is written and waits, and the third isn't made.
    assert_same(&rt, out.written(), b"end 0\nend 0\n");
    assert_same(&rt, (out.handed(), out.waits()), (6, true));
    Ok(())
}
