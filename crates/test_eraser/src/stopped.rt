// Sessions over a folder that erases, of which one call after the other fails, beside the same sessions over the folder alone.
use crate::same::assert_same;
use blk_eraser::Eraser;
use blk_io::{
    Failed, FileId, Folder, ListClock, MemFolder, MemSink, MemSource, NoMemory, SilentFolder,
};
use blk_model::Limits;
use blk_run::session;
use std::alloc::Global;
use std::test::Fail;
use test_folders::folders::audited;
use test_folders::found::found;

// The limits that the program has where it is given none.
const LIMITS: Limits = Limits {
    max_bytes: 83_886_080,
    max_items: 65_536,
};

// More bytes than any of these inputs has.
const BUDGET: u64 = 1_000_000;

// More calls than any of these sessions makes.
const MOST_CALLS: u64 = 5000;

// The only letter of keys and streams, and its digits.
const LETTER: &[u8] = b"z";

const DIGITS: &[u8] = b"7a";

// An input by pieces: lines, and what stands after them so many times.
type Pieces<'a> = &'a [(&'a [u8], &'a [u8], usize)];

// Five entries, named by how long their keys are: the streams of 8 have blocks of 256 and of 1024 bytes, that of 9 an external file, and
// the key of 1100 has blocks of its own. The last used of them is 11.
const FIVE: Pieces<'static> = &[
    (b"create 0 zzzzzzzz\nwrite 0 0 0 ", DIGITS, 600),
    (b"\nwrite 0 1 0 ", DIGITS, 3000),
    (
        b"\nclose 0\ncreate 0 zzzzzzzzz\nwrite 0 0 0 ",
        DIGITS,
        20000,
    ),
    (b"\nclose 0\ncreate 0 ", LETTER, 1100),
    (b"\nwrite 0 0 0 ", DIGITS, 300),
    (b"\nclose 0\ncreate 0 zzzzzzzzzz\nwrite 0 0 0 ", DIGITS, 700),
    (b"\nclose 0\ncreate 0 zzzzzzzzzzz\nwrite 0 1 0 ", DIGITS, 40),
    (b"\nclose 0\n", LETTER, 0),
];

// An open entry, one with a long key and one by its key are doomed, and one is evicted.
const REMOVED: Pieces<'static> = &[
    (b"open 0 zzzzzzzzz\ndoom 0\nclose 0\ndoomkey ", LETTER, 1100),
    (b"\ndoomkey zzzzzzzzzz\ntrim 100\n", LETTER, 0),
];

// A stream is cut within its blocks, one into a smaller block, and one within its file.
const CUT: Pieces<'static> = &[(
    b"open 0 zzzzzzzz\ncut 0 0 100 -\ncut 0 1 500 -\nclose 0\nopen 0 zzzzzzzzz\ncut 0 0 17000 -\nclose 0\n",
    LETTER,
    0,
)];

// Streams grow into greater places.
const GROWN: Pieces<'static> = &[
    (b"open 0 zzzzzzzz\nwrite 0 0 600 ", DIGITS, 900),
    (b"\nwrite 0 1 3000 ", DIGITS, 14000),
    (b"\nclose 0\n", LETTER, 0),
];

// An entry with a stream in blocks of 4096 bytes, one in a file, and none.
const LARGE: Pieces<'static> = &[
    (b"create 0 zzzzzzzz\nwrite 0 0 0 ", DIGITS, 9000),
    (b"\nwrite 0 1 0 ", DIGITS, 20000),
    (b"\nclose 0\n", LETTER, 0),
];

// They are cut within the blocks and into such blocks, one grows into a file, and the entry is doomed.
const CHANGED: Pieces<'static> = &[
    (
        b"open 0 zzzzzzzz\ncut 0 0 4100 -\ncut 0 1 5000 -\nwrite 0 1 5000 ",
        DIGITS,
        12000,
    ),
    (b"\nclose 0\ndoomkey zzzzzzzz\n", LETTER, 0),
];

// The text of an input.
fn text_of(alloc: Global, pieces: Pieces<'_>) -> Result<Vec<u8>, NoMemory> {
    let mut text = Vec::new(alloc);
    for (lines, unit, count) in pieces {
        text.extend_from_slice(lines)?;
        for _ in 0..*count {
            text.extend_from_slice(unit)?;
        }
    }
    Ok(text)
}

// A folder with the same files, of which no call was made yet.
fn copied(f: &MemFolder) -> Result<MemFolder, NoMemory> {
    match f.steps() {
        Some(all) => f.image(all),
        None => Err(NoMemory),
    }
}

// Plays a session on a copy of a folder, which erases or not, and of which this call fails (0: none). Gives what was printed, and the
// folder after it.
fn played(
    alloc: Global,
    base: &MemFolder,
    erases: bool,
    call: u64,
    text: &[u8],
) -> Result<(MemSink, MemFolder), Fail> {
    let mut inner = copied(base)?;
    inner.fail_at(call, 0)?;
    let mut input = MemSource::new(alloc, text)?;
    let mut out = MemSink::new(alloc);
    let mut clock = ListClock::new(alloc, &[50])?;
    if erases {
        let mut f = Eraser::new(inner);
        session(
            alloc, LIMITS, BUDGET, &mut input, &mut out, &mut f, &mut clock,
        );
        Ok((out, f.into_inner()))
    } else {
        let mut f = SilentFolder::new(inner);
        session(
            alloc, LIMITS, BUDGET, &mut input, &mut out, &mut f, &mut clock,
        );
        Ok((out, f.into_inner()))
    }
}

// What is held: the number of the entries, the bytes of their keys and streams, and the hash of these.
type Held = (u64, u64, u64);

// What is held in a folder, and the folder.
fn held(alloc: Global, inner: MemFolder) -> Result<(Held, MemFolder), Fail> {
    let mut f = SilentFolder::new(inner);
    let scan = audited(alloc, &mut f)?;
    let hash = found(&mut f, &scan)?;
    Ok(((scan.items(), scan.bytes(), hash), f.into_inner()))
}

// How often the letter stands in a file, where it does at least eight times side by side.
fn letters_in<F: Folder>(f: &mut F, file: FileId) -> Result<u64, Failed> {
    let mut piece = [0u8; 4096];
    let (mut count, mut run, mut at) = (0u64, 0u64, 0u64);
    for _ in 0..1000 {
        let n = f.read_at(file, at, &mut piece)?;
        if n == 0 {
            break;
        }
        for byte in piece.iter().take(n) {
            run = if *byte == b'z' {
                run.wrapping_add(1)
            } else {
                0
            };
            count = count.wrapping_add(if run == 8 {
                8
            } else if run > 8 {
                1
            } else {
                0
            });
        }
        at = at.wrapping_add(n as u64);
    }
    Ok(count)
}

// How often it does so in all files of a folder.
fn letters<F: Folder>(f: &mut F) -> Result<u64, Failed> {
    let mut count = 0u64;
    let mut last = None;
    for _ in 0..100 {
        let Some(file) = f.list(last)? else { break };
        count = count.wrapping_add(letters_in(f, file)?);
        last = Some(file);
    }
    Ok(count)
}

// How many commands were answered: each reply has one k, and no other line has any.
fn answered(out: &MemSink) -> usize {
    out.written().iter().filter(|byte| **byte == b'k').count()
}

// Of the calls of a session without erasing, so many and fewer than 1024, the first at which so many commands are answered: the first of
// the next command, or the one after the last.
fn call_behind(
    alloc: Global,
    base: &MemFolder,
    text: &[u8],
    done: usize,
    calls: u64,
) -> Result<u64, Fail> {
    let (mut low, mut high) = (1u64, calls.saturating_add(1));
    for _ in 0..10 {
        let middle = low.saturating_add(high.saturating_sub(low) / 2);
        let (out, _) = played(alloc, base, false, middle, text)?;
        if answered(&out) < done {
            low = middle.saturating_add(1);
        } else {
            high = middle;
        }
    }
    Ok(low)
}

// What a session without erasing prints, and what is durable after so many of its commands: after none, after one, and so on.
fn rests_of(alloc: Global, base: &MemFolder, text: &[u8]) -> Result<(MemSink, Vec<Held>), Fail> {
    let (replies, f) = played(alloc, base, false, 0, text)?;
    let mut rests = Vec::new(alloc);
    for done in 0..=answered(&replies) {
        let call = call_behind(alloc, base, text, done, f.calls())?;
        let (_, stopped) = played(alloc, base, false, call, text)?;
        rests.push(held(alloc, stopped)?.0)?;
    }
    Ok((replies, rests))
}

// Whether a folder holds one of two, and so does the next opening, with erasing and without; and whether with it nothing else is left.
fn is_left_well(alloc: Global, left: MemFolder, rests: &[Held]) -> Result<bool, Fail> {
    let (now, f) = held(alloc, left)?;
    let mut well = rests.iter().take(2).any(|rest| *rest == now);
    for erases in [false, true] {
        let (_, opened) = played(alloc, &f, erases, 0, b"")?;
        let (then, mut opened) = held(alloc, opened)?;
        well = well && then == now && (!erases || letters(&mut opened)? == now.1);
    }
    Ok(well)
}

// The first call of a session with erasing after whose failure the folder isn't well; or how many calls there are, and how often the letter
// is in the files after the whole session.
fn stops_of(alloc: Global, base: &MemFolder, text: &[u8]) -> Result<Result<(u64, u64), u64>, Fail> {
    let (replies, rests) = rests_of(alloc, base, text)?;
    let (mut steps, mut stops) = (None, 0u64);
    for call in 1..MOST_CALLS {
        let (out, f) = played(alloc, base, true, call, text)?;
        let done = answered(&out).min(rests.len());
        if f.calls() < call {
            let mut f = copied(&f)?;
            let count = letters(&mut f)?;
            let well = out.written() == replies.written()
                && is_left_well(alloc, f, &rests[done..])?;
            return Ok(if well { Ok((stops, count)) } else { Err(call) });
        }
        // After a read there is what there was before it.
        if f.steps() != steps {
            steps = f.steps();
            stops = stops.wrapping_add(1);
            let well = replies.written().starts_with(out.written());
            if !well || !is_left_well(alloc, f, &rests[done..])? {
                return Ok(Err(call));
            }
        }
    }
    Ok(Err(0))
}

// Whether a session on a folder with these entries is well after each of more than fifty failures; whether so many letters are left after it, those
// that are held; and whether without erasing there are more.
fn stops_well(
    alloc: Global,
    entries: Pieces<'_>,
    pieces: Pieces<'_>,
    bytes: u64,
) -> Result<[bool; 3], Fail> {
    let (_, made) = played(
        alloc,
        &MemFolder::new(alloc),
        false,
        0,
        &text_of(alloc, entries)?,
    )?;
    let base = copied(&made)?;
    let text = text_of(alloc, pieces)?;
    let (stops, left) = stops_of(alloc, &base, &text)?.unwrap_or((0, 0));
    let (_, mut alone) = played(alloc, &base, false, 0, &text)?;
    Ok([stops > 50, left == bytes, letters(&mut alone)? > bytes])
}

#[test]
fn removals_that_erase_may_be_stopped(rt: HostRuntime) -> Result<(), Fail> {
    assert_same(&rt, stops_well(rt.alloc(), FIVE, REMOVED, 51)?, [true; 3]);
    Ok(())
}

#[test]
fn cuts_that_erase_may_be_stopped(rt: HostRuntime) -> Result<(), Fail> {
    assert_same(&rt, stops_well(rt.alloc(), FIVE, CUT, 19_778)?, [true; 3]);
    Ok(())
}

#[test]
fn growth_that_erases_may_be_stopped(rt: HostRuntime) -> Result<(), Fail> {
    assert_same(&rt, stops_well(rt.alloc(), FIVE, GROWN, 40_678)?, [true; 3]);
    Ok(())
}

#[test]
fn changes_of_large_blocks_that_erase_may_be_stopped(rt: HostRuntime) -> Result<(), Fail> {
    assert_same(&rt, stops_well(rt.alloc(), LARGE, CHANGED, 0)?, [true; 3]);
    Ok(())
}
