// The calls of a long session on the folder, with a window over it and without.
use crate::same::assert_same;
use crate::traced::{newly_traced, window_over};
use blk_io::{Folder, ListClock, MemFolder, MemSink, MemSource, NoMemory};
use blk_model::{Limits, MOST_ITEMS};
use blk_run::{Status, session};
use itoa::Buffer;
use std::alloc::Global;
use std::test::Fail;

// As many pages as the program keeps.
const PAGES: u16 = 64;

const LIMITS: Limits = Limits {
    max_bytes: 83_886_080,
    max_items: MOST_ITEMS,
};

const BUDGET: u64 = 1_000_000;

// An object of each number is made, and then each is opened and read in its turn.
const OBJECTS: u32 = 40;

const ROUNDS: u32 = 360;

// The lines for each object, and for each round; the key comes after the first of them.
const MAKES: &[u8] = b"\nwrite 0 0 0 68747470\nwrite 0 1 2999 7a\nwrite 0 2 4999 7a\nclose 0\n";

const READS: &[u8] = b"\nread 0 0 0 9\nread 0 1 2000 100\nread 0 2 4990 10\nclose 0\n";

// Two thousand commands.
fn lines(alloc: Global) -> Result<Vec<u8>, NoMemory> {
    let mut lines = Vec::new(alloc);
    let mut digits = Buffer::new();
    for number in 0..OBJECTS {
        lines.extend_from_slice(b"create 0 k")?;
        lines.extend_from_slice(digits.format(number).as_bytes())?;
        lines.extend_from_slice(MAKES)?;
    }
    for round in 0..ROUNDS {
        lines.extend_from_slice(b"open 0 k")?;
        lines.extend_from_slice(digits.format(round * 7 % OBJECTS).as_bytes())?;
        lines.extend_from_slice(READS)?;
    }
    Ok(lines)
}

// The session of these lines over a folder: how it ended, and what it printed.
fn play<F: Folder>(alloc: Global, f: &mut F, lines: &[u8]) -> Result<(Status, MemSink), Fail> {
    let mut input = MemSource::new(alloc, lines)?;
    let mut out = MemSink::new(alloc);
    let mut clock = ListClock::new(alloc, &[50, 100])?;
    let status = session(alloc, LIMITS, BUDGET, &mut input, &mut out, f, &mut clock);
    Ok((status, out))
}

#[test]
fn a_long_session_reads_its_folder_a_tenth_as_often(rt: HostRuntime) -> Result<(), Fail> {
    let lines = lines(rt.alloc())?;
    let mut alone = newly_traced(MemFolder::without_trail(rt.alloc()));
    let (status, printed) = play(rt.alloc(), &mut alone, &lines)?;
    assert_same(&rt, status, Status::Ok);
    let behind = newly_traced(MemFolder::without_trail(rt.alloc()));
    let mut window = window_over(rt.alloc(), behind, PAGES)?;
    let (status, printed_then) = play(rt.alloc(), &mut window, &lines)?;
    assert_same(&rt, status, Status::Ok);
    assert_same(&rt, printed.written(), printed_then.written());
    let behind = window.into_inner();
    assert_same(&rt, behind.trail, alone.trail);
    let [reads, reads_alone] = [behind.reads, alone.reads];
    assert!(rt;
        reads <= reads_alone / 10,
        "{reads} reads, and {reads_alone} alone"
    );

    // All other calls are passed on.
    let others = behind.inner.calls().wrapping_sub(reads);
    assert_same(&rt, others, alone.inner.calls().wrapping_sub(reads_alone));
    Ok(())
}
