// A session whose input is longer than its input limit.
use crate::same::assert_same;
use blk_io::{ListClock, MemSink, MemSource};
use blk_run::{Status, session};
use std::test::Fail;
use test_folders::stopping::empty;
use test_sessions::sessions::{LIMITS, held};

#[test]
fn a_session_ends_behind_its_budget(rt: HostRuntime) -> Result<(), Fail> {
    let mut f = empty(rt.alloc());
    let mut input = MemSource::new(rt.alloc(), b"list\nlist\n")?;
    let mut out = MemSink::new(rt.alloc());
    let mut clock = ListClock::new(rt.alloc(), &[50])?;
    let status = session(
        rt.alloc(),
        LIMITS,
        5,
        &mut input,
        &mut out,
        &mut f,
        &mut clock,
    );
    assert_same(&rt, status, Status::TooLong);
    assert_same(&rt, out.written(), b"end 0\n");
    let (items, bytes, _) = held(rt.alloc(), f)?;
    assert_same(&rt, (items, bytes), (0, 0));
    Ok(())
}
