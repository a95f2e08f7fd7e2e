// Writes at the borders of parts and blocks.
use crate::same::{assert_same, assert_same_at};
use blk_cache::StepFault;
use blk_io::MemSink;
use blk_model::{Answer, Command, Refusal};
use std::alloc::Global;
use std::test::Fail;
use test_folders::stopping::empty;
use test_sessions::sessions::{LIMITS, Session};

// The most bytes of a write, and where sparse data ends.
const MOST: u64 = 1_048_576;

const END: u64 = 68_719_476_736;

// The offset and the number of the bytes of a write to a new object; the start and the length of the first run of present bytes from
// there on, and how many items there are then with how many bytes: none where the write is beyond the end.
type Case = [u64; 6];

const CASES: [Case; 28] = [
    [0, 1, 0, 1, 2, 8_462],
    [0, 2, 0, 2, 2, 8_463],
    [0, 1_024, 0, 1_024, 2, 9_485],
    [0, 1_048_576, 0, 1_048_576, 2, 1_057_037],
    [1, 1, 1, 0, 2, 8_463],
    [1, 2, 1, 0, 2, 8_464],
    [1, 1_024, 1_024, 1, 2, 9_486],
    [1, 1_048_576, 1_024, 1_047_553, 3, 1_057_242],
    [1_023, 1, 1_023, 0, 2, 9_485],
    [1_023, 2, 1_024, 1, 2, 9_486],
    [1_023, 1_024, 1_024, 1_023, 2, 10_508],
    [1_023, 1_048_576, 1_024, 1_048_575, 3, 1_058_264],
    [1_024, 1, 1_024, 1, 2, 9_486],
    [1_024, 2, 1_024, 2, 2, 9_487],
    [1_024, 1_024, 1_024, 1_024, 2, 10_509],
    [1_024, 1_048_576, 1_024, 1_048_576, 3, 1_058_265],
    [1_048_575, 1, 1_048_575, 0, 2, 1_057_037],
    [1_048_575, 2, 1_048_576, 1, 3, 1_057_242],
    [1_048_575, 1_024, 1_048_576, 1_023, 3, 1_058_264],
    [1_048_575, 1_048_576, 1_048_576, 1_048_575, 3, 2_105_816],
    [1_048_576, 1, 1_048_576, 1, 2, 8_462],
    [1_048_576, 2, 1_048_576, 2, 2, 8_463],
    [1_048_576, 1_024, 1_048_576, 1_024, 2, 9_485],
    [1_048_576, 1_048_576, 1_048_576, 1_048_576, 2, 1_057_037],
    [68_719_476_735, 1, 68_719_476_735, 0, 2, 1_057_040],
    [68_719_476_735, 2, 0, 0, 0, 0],
    [68_719_476_735, 1_024, 0, 0, 0, 0],
    [68_719_476_735, 1_048_576, 0, 0, 0, 0],
];

// A session with a new object.
fn with_object(alloc: Global) -> Result<Session, Fail> {
    let mut session = Session::over(alloc, empty(alloc), LIMITS)?;
    session.step(&Command::Create {
        handle: 0,
        key: b"v",
    })?;
    Ok(session)
}

// How often a byte occurs in a text.
fn count_of(text: &[u8], value: u8) -> u64 {
    let mut count: u64 = 0;
    for byte in text {
        if *byte == value {
            count = count.wrapping_add(1);
        }
    }
    count
}

// How many bytes 0x7A are read from a place on: of these and of the word before them each has one letter `a`, and the word one more.
fn read_from(session: &mut Session, offset: u64, count: u64) -> Result<u64, StepFault> {
    session.step(&Command::SparseRead {
        handle: 0,
        offset,
        count,
    })?;
    let letters = count_of(session.out.written(), b'a');
    Ok(letters.saturating_sub(2))
}

// What a write answers.
fn written(session: &mut Session, offset: u64, bytes: &[u8]) -> Result<Answer, StepFault> {
    let (answer, _) = session.step(&Command::SparseWrite {
        handle: 0,
        offset,
        bytes,
    })?;
    Ok(answer)
}

// A prefix of some bytes.
fn front(bytes: &[u8], count: u64) -> &[u8] {
    &bytes[..(count as usize).min(bytes.len())]
}

// The first run of present bytes after an offset, and what there is in all.
fn found_behind(session: &mut Session, offset: u64) -> Result<(Answer, Answer), StepFault> {
    let (run, _) = session.step(&Command::SparseRange {
        handle: 0,
        offset,
        count: MOST.min(END.saturating_sub(offset)),
    })?;
    let (totals, _) = session.step(&Command::Total)?;
    Ok((run, totals))
}

#[test]
fn writes_at_borders_make_their_bytes_present(rt: HostRuntime) -> Result<(), Fail> {
    let mut bytes = Vec::new(rt.alloc());
    bytes.resize(MOST as usize, b'z')?;
    for [offset, length, start, count, items, total] in CASES {
        let mut session = with_object(rt.alloc())?;
        let answer = written(&mut session, offset, front(&bytes, length))?;
        if items == 0 {
            assert_same(&rt, answer, Answer::Refused(Refusal::RangeEnd));
            continue;
        }
        assert_same_at(&rt, answer, Answer::Wrote(length), offset);
        let (run, totals) = found_behind(&mut session, offset)?;
        let expected = Answer::Range {
            start,
            length: count,
        };
        assert_same_at(&rt, run, expected, offset);
        let expected = Answer::Totals {
            items,
            bytes: total,
        };
        assert_same_at(&rt, totals, expected, offset);
        session.out = MemSink::new(rt.alloc());
        assert_same_at(&rt, read_from(&mut session, start, count)?, count, offset);
    }
    Ok(())
}
