// Commands on a cache of many objects.
use crate::same::assert_same;
use blk_cache::StepFault;
use blk_io::{Failed, FileId, Folder};
use blk_model::{Answer, Command, Refusal};
use itoa::Buffer;
use std::alloc::Global;
use std::test::Fail;
use test_folders::stopping::{Mem, empty};
use test_sessions::sessions::{LIMITS, Session};

// Makes an object by a handle.
fn create(session: &mut Session, handle: u16, key: &[u8]) -> Result<(Answer, u64), StepFault> {
    session.step(&Command::Create { handle, key })
}

// Opens one by a handle.
fn open(session: &mut Session, handle: u16, key: &[u8]) -> Result<(Answer, u64), StepFault> {
    session.step(&Command::Open { handle, key })
}

// Closes a handle.
fn close(session: &mut Session, handle: u16) -> Result<(Answer, u64), StepFault> {
    session.step(&Command::Close { handle })
}

// The key `k` and a number.
fn key_of(alloc: Global, number: u32) -> Result<Vec<u8>, Fail> {
    let mut digits = Buffer::new();
    let mut key = Vec::from_slice(alloc, b"k")?;
    key.extend_from_slice(digits.format(number).as_bytes())?;
    Ok(key)
}

// The lengths of the files in which nodes and short records lie.
fn lengths(f: &mut Mem) -> Result<[Option<u64>; 2], Failed> {
    Ok([f.length(FileId::Block(0))?, f.length(FileId::Block(1))?])
}

// Makes an object, and gives how many folder calls that took and whether a file grew.
fn create_and_look(session: &mut Session, key: &[u8]) -> Result<(u64, bool), Fail> {
    let before = lengths(&mut session.f)?;
    let (_, calls) = create(session, 0, key)?;
    Ok((calls, lengths(&mut session.f)? != before))
}

#[test]
fn objects_are_found_by_their_chains(rt: HostRuntime) -> Result<(), Fail> {
    let mut session = Session::over(rt.alloc(), empty(rt.alloc()), LIMITS)?;
    let (mut most, mut growths) = (0u64, 0u32);
    for number in 0..4000 {
        let (calls, grew) = create_and_look(&mut session, &key_of(rt.alloc(), number)?)?;
        if grew {
            growths = growths.wrapping_add(1);
        } else {
            most = most.max(calls);
        }
        let (_, calls) = close(&mut session, 0)?;
        assert!(rt; calls <= 5);
    }
    assert!(rt; most <= 70, "{most} calls");
    assert_same(&rt, growths, 4);
    let (answer, calls) = open(&mut session, 0, b"zz")?;
    assert_same(&rt, answer, Answer::Refused(Refusal::Missing));
    assert!(rt; calls <= 2);
    let (answer, calls) = open(&mut session, 0, b"k2000")?;
    assert_same(&rt, answer, Answer::Done);
    assert!(rt; calls <= 41);
    Ok(())
}
