// A session of four hundred entries by eight handles, whose last Close fails.
use crate::counting::run_on;
use crate::same::assert_same;
use blk_cache::StepFault;
use blk_io::{MemSink, SilentFolder, StopFolder};
use blk_model::{Answer, Command};
use blk_run::Status;
use itoa::Buffer;
use std::alloc::Global;
use std::test::Fail;
use test_folders::found::with_these;
use test_folders::stopping::{again, empty};
use test_sessions::sessions::{LIMITS, Session, held};

const ENTRIES: u32 = 400;

const HANDLES: u32 = 8;

// How many bytes the first stream of each entry has.
const FIRST: usize = 300;

// The most bytes of a stream.
const MOST_BYTES: usize = 20_000 + 450 * 399;

// The key of an entry.
fn key_of(number: u32) -> [u8; 26] {
    let digit = |unit: u32| b'0'.wrapping_add((number / unit % 10) as u8);
    let mut key = *b"https://example.test/r/000";
    key[23] = digit(100);
    key[24] = digit(10);
    key[25] = digit(1);
    key
}

// The handle of an entry, which closed the one eight before it.
fn handle_of(number: u32) -> u16 {
    (number % HANDLES) as u16
}

// The bytes of the second stream of an entry.
fn size_of(number: u32) -> usize {
    20_000 + 450 * (number % ENTRIES) as usize
}

// Bytes of which each stream has a prefix.
fn all_bytes(alloc: Global) -> Result<Vec<u8>, Fail> {
    let mut bytes = Vec::new(alloc);
    bytes.resize(MOST_BYTES, 0)?;
    let mut value = 0u8;
    for byte in bytes.iter_mut() {
        *byte = value;
        value = value.wrapping_mul(5).wrapping_add(3);
    }
    Ok(bytes)
}

// A prefix of some bytes.
fn front(bytes: &[u8], count: usize) -> &[u8] {
    &bytes[..count.min(bytes.len())]
}

// Writes some bytes over a stream.
fn write(session: &mut Session, handle: u16, stream: u8, bytes: &[u8]) -> Result<(), StepFault> {
    session.step(&Command::Write {
        handle,
        stream,
        offset: 0,
        cut: false,
        bytes,
    })?;
    Ok(())
}

// Closes the handle of an entry, makes the entry and writes its streams.
fn make(session: &mut Session, number: u32, bytes: &[u8]) -> Result<(), StepFault> {
    let handle = handle_of(number);
    let key = key_of(number);
    if number >= HANDLES {
        session.step(&Command::Close { handle })?;
    }
    session.step(&Command::Create { handle, key: &key })?;
    write(session, handle, 0, front(bytes, FIRST))?;
    write(session, handle, 1, front(bytes, size_of(number)))
}

// A session in which all entries were made, and closed but the last one.
fn whole_session(alloc: Global, bytes: &[u8]) -> Result<Session, Fail> {
    let mut session = Session::over(alloc, empty(alloc), LIMITS)?;
    for number in 0..ENTRIES {
        make(&mut session, number, bytes)?;
    }
    for number in ENTRIES - HANDLES..ENTRIES - 1 {
        session.step(&Command::Close {
            handle: handle_of(number),
        })?;
    }
    Ok(session)
}

// The hash of the keys and streams of the first entries, the last one first.
fn hash_of_first(entries: u32, bytes: &[u8]) -> u64 {
    let mut all = 0;
    for number in (0..entries).rev() {
        all = with_these(&key_of(number), all);
        all = with_these(front(bytes, FIRST), all);
        all = with_these(front(bytes, size_of(number)), all);
        all = with_these(b"", all);
    }
    all
}

// What a List prints of the first entries, the last one first.
fn list_of_first(alloc: Global, entries: u32) -> Result<Vec<u8>, Fail> {
    let mut text = Vec::new(alloc);
    let mut digits = Buffer::new();
    for number in (0..entries).rev() {
        text.extend_from_slice(b"main ")?;
        text.extend_from_slice(&key_of(number))?;
        text.extend_from_slice(b" 300 ")?;
        text.extend_from_slice(digits.format(size_of(number)).as_bytes())?;
        text.extend_from_slice(b" 0\n")?;
    }
    text.extend_from_slice(b"end ")?;
    text.extend_from_slice(digits.format(entries).as_bytes())?;
    text.push(b'\n')?;
    Ok(text)
}

// The hexadecimal digit of a number below 16.
fn digit_of(number: u8) -> u8 {
    number.wrapping_add(if number < 10 { b'0' } else { b'a' - 10 })
}

// What an Open prints, and after it a Read of these bytes.
fn text_of_stream(alloc: Global, bytes: &[u8]) -> Result<Vec<u8>, Fail> {
    let mut text = Vec::new(alloc);
    let mut digits = Buffer::new();
    text.extend_from_slice(b"ok\ndata ")?;
    text.extend_from_slice(digits.format(bytes.len()).as_bytes())?;
    text.push(b' ')?;
    for byte in bytes {
        text.push(digit_of(byte / 16))?;
        text.push(digit_of(byte % 16))?;
    }
    text.push(b'\n')?;
    Ok(text)
}

// The session, where the next folder call fails.
fn failing_next(session: Session) -> Result<Session, Fail> {
    let Session { f, cache, out } = session;
    let mut folder = f.into_inner().into_inner();
    let next = folder.calls().wrapping_add(1);
    folder.fail_at(next, 0)?;
    Ok(Session {
        f: SilentFolder::new(StopFolder::new(folder, u64::MAX)),
        cache,
        out,
    })
}

// Whether a session lists all entries but the last one, and reads the second stream of the one before.
fn shows_first(alloc: Global, session: &mut Session, bytes: &[u8]) -> Result<bool, Fail> {
    session.out = MemSink::new(alloc);
    session.step(&Command::List)?;
    let lists = session.out.written() == list_of_first(alloc, 399)?.as_slice();
    session.out = MemSink::new(alloc);
    session.step(&Command::Open {
        handle: 0,
        key: &key_of(398),
    })?;
    session.step(&Command::Read {
        handle: 0,
        stream: 1,
        offset: 0,
        count: u64::MAX,
    })?;
    let text = text_of_stream(alloc, front(bytes, size_of(398)))?;
    Ok(lists && session.out.written() == text.as_slice())
}

#[test]
fn all_but_the_entry_whose_close_failed_are_held(rt: HostRuntime) -> Result<(), Fail> {
    let bytes = all_bytes(rt.alloc())?;
    let mut session = whole_session(rt.alloc(), &bytes)?;
    let (totals, _) = session.step(&Command::Total)?;
    let all = Answer::Totals {
        items: 400,
        bytes: 44_040_400,
    };
    assert_same(&rt, totals, all);
    let mut session = failing_next(session)?;
    let handle = handle_of(ENTRIES - 1);
    assert_same(
        &rt,
        session.step(&Command::Close { handle }).err(),
        Some(StepFault::Device),
    );

    // The next session has the others, in their order and with all bytes.
    let mut next = Session::over(rt.alloc(), again(session.f, u64::MAX), LIMITS)?;
    let (totals, _) = next.step(&Command::Total)?;
    let first = Answer::Totals {
        items: 399,
        bytes: 43_840_524,
    };
    assert_same(&rt, totals, first);
    assert!(rt; shows_first(rt.alloc(), &mut next, &bytes)?);
    let mut f = again(next.f, u64::MAX);
    let mut out = MemSink::new(rt.alloc());
    assert_same(
        &rt,
        run_on(rt.alloc(), &mut f, "count", &mut out)?,
        Status::Ok,
    );
    assert_same(&rt, out.written(), b"items 399 bytes 43840524\n");
    assert_same(
        &rt,
        held(rt.alloc(), f)?,
        (399, 43_840_524, hash_of_first(399, &bytes)),
    );
    Ok(())
}
