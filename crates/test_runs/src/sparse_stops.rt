// Sessions on sparse data that crash, and openings of what they left that crash too.
use crate::same::{assert_same, assert_same_at};
use blk_audit::ScanFault;
use blk_cache::Cache;
use blk_io::{MemFolder, MemSink, NoMemory, SilentFolder};
use blk_model::{Command, Limits};
use std::alloc::Global;
use std::test::Fail;
use test_folders::folders::audited;
use test_folders::found::found;
use test_sessions::sessions::{Held, LIMITS};

// The moment of each command.
const MOMENT: u64 = 100;

// Limits with space for three items.
const THREE_ITEMS: Limits = Limits {
    max_bytes: 83_886_080,
    max_items: 3,
};

// The bytes that are written.
const DATA: [u8; 1500] = [b'z'; 1500];

// A write over two parts that begins inside a block, and one that ends that block; before each of them, and before a user's key that is
// the name of a part, the object is closed, so that it is durable with all that was written.
const COMMANDS: [Command<'static>; 16] = [
    Command::Create {
        handle: 0,
        key: b"v",
    },
    Command::SparseWrite {
        handle: 0,
        offset: 1_048_076,
        bytes: &DATA,
    },
    Command::SparseRead {
        handle: 0,
        offset: 1_048_076,
        count: 1500,
    },
    Command::SparseRange {
        handle: 0,
        offset: 1_048_076,
        count: 1500,
    },
    Command::List,
    Command::Total,
    Command::Close { handle: 0 },
    Command::Open {
        handle: 0,
        key: b"v",
    },
    Command::SparseWrite {
        handle: 0,
        offset: 1_049_576,
        bytes: &[b'z'; 24],
    },
    Command::SparseRange {
        handle: 0,
        offset: 1_048_576,
        count: 2000,
    },
    Command::Total,
    Command::Close { handle: 0 },
    Command::Create {
        handle: 1,
        key: b"Range_v:64:0",
    },
    Command::Close { handle: 1 },
    Command::DoomKey { key: b"v" },
    Command::List,
];

// An object with two parts that is closed, and one that is made where there is space for three items: the first is evicted with its parts, which
// the read of both has put in front of it.
const EVICTING: [Command<'static>; 6] = [
    Command::Create {
        handle: 0,
        key: b"v",
    },
    Command::SparseWrite {
        handle: 0,
        offset: 1_048_576,
        bytes: &DATA,
    },
    Command::SparseWrite {
        handle: 0,
        offset: 0,
        bytes: &DATA,
    },
    Command::SparseRead {
        handle: 0,
        offset: 1,
        count: 1_048_576,
    },
    Command::Close { handle: 0 },
    Command::Create {
        handle: 0,
        key: b"other",
    },
];

// A folder in which some commands were done, with its write trace.
fn done(alloc: Global, limits: Limits, commands: &[Command<'_>]) -> Result<MemFolder, Fail> {
    let mut f = SilentFolder::new(MemFolder::new(alloc));
    let mut cache = Cache::start(alloc, &mut f, limits, MOMENT)?;
    let mut out = MemSink::new(alloc);
    for command in commands {
        cache.step(&mut f, &mut out, MOMENT, command)?;
    }
    Ok(f.into_inner())
}

// The number of steps of a folder with a write trace.
fn steps_of(f: &MemFolder) -> u64 {
    f.steps().unwrap_or(0)
}

// The folder after so many of its steps.
fn stopped(f: &MemFolder, steps: u64) -> Result<MemFolder, NoMemory> {
    match f.steps() {
        Some(all) if steps <= all => f.image(steps),
        _ => Err(NoMemory),
    }
}

// Checks a folder. Gives what it holds.
fn held(alloc: Global, f: &mut SilentFolder<MemFolder>) -> Result<Held, ScanFault> {
    let scan = audited(alloc, f)?;
    Ok((scan.items(), scan.bytes(), found(f, &scan)?))
}

// What is held after so many steps.
fn held_at(alloc: Global, f: &MemFolder, steps: u64) -> Result<Held, Fail> {
    let mut image = SilentFolder::new(stopped(f, steps)?);
    Ok(held(alloc, &mut image)?)
}

// What is held after so many steps, and where the folder is opened there; and the opened folder, with the write trace of the opening.
fn opened_at(alloc: Global, f: &MemFolder, steps: u64) -> Result<(Held, Held, MemFolder), Fail> {
    let mut image = SilentFolder::new(stopped(f, steps)?);
    let before = held(alloc, &mut image)?;
    Cache::start(alloc, &mut image, LIMITS, MOMENT)?;
    let after = held(alloc, &mut image)?;
    Ok((before, after, image.into_inner()))
}

// Whether an opening leaves what is held after each of its first three steps and after each five-hundredth, or fiftieth where it has fewer
// than 500; and so does the next opening.
fn opens_well(alloc: Global, opening: &MemFolder, now: Held) -> Result<bool, Fail> {
    let all = steps_of(opening);
    let apart = if all < 500 { 50 } else { 500 };
    for stop in 1..all {
        if stop <= 3 || stop % apart == 0 {
            let (before, after, _) = opened_at(alloc, opening, stop)?;
            if before != now || after != now {
                return Ok(false);
            }
        }
    }
    Ok(true)
}

// The steps of the first so many of some commands.
fn steps_after(
    alloc: Global,
    limits: Limits,
    commands: &[Command<'_>],
    count: usize,
) -> Result<u64, Fail> {
    let first = &commands[..count.min(commands.len())];
    Ok(steps_of(&done(alloc, limits, first)?))
}

// Whether after each hundredth step of a command, the first after so many, the folder holds what it held before it or what it holds then,
// and opens well.
fn stops_well(
    alloc: Global,
    f: &MemFolder,
    steps: (u64, u64),
    rests: (Held, Held),
) -> Result<bool, Fail> {
    for stop in steps.0..steps.1 {
        if stop % 100 == 0 {
            let (now, then, opening) = opened_at(alloc, f, stop)?;
            let is_one = now == rests.0 || now == rests.1;
            if !is_one || then != now || !opens_well(alloc, &opening, now)? {
                return Ok(false);
            }
        }
    }
    Ok(true)
}

// How many items are held with how many bytes where none of the commands is done, where the first is, the first two, and so on.
const AT_REST: [(u64, u64); 17] = [
    (0, 0),
    (0, 0),
    (0, 0),
    (0, 0),
    (0, 0),
    (0, 0),
    (0, 0),
    (3, 1_058_241),
    (3, 1_058_241),
    (0, 0),
    (0, 0),
    (0, 0),
    (3, 1_058_265),
    (3, 1_058_265),
    (4, 1_058_277),
    (1, 12),
    (1, 12),
];

#[test]
fn sessions_and_the_openings_behind_them_may_be_stopped(rt: HostRuntime) -> Result<(), Fail> {
    let f = done(rt.alloc(), LIMITS, &COMMANDS)?;
    let mut before = (0, (0, 0, 0));
    for (count, (items, bytes)) in AT_REST.iter().enumerate() {
        let steps = steps_after(rt.alloc(), LIMITS, &COMMANDS, count)?;
        let rest = held_at(rt.alloc(), &f, steps)?;
        assert_same_at(
            &rt,
            (rest.0, rest.1),
            (*items, *bytes),
            format_args!("{count} commands"),
        );
        if count > 0 {
            let span = (before.0, steps);
            let stops = stops_well(rt.alloc(), &f, span, (before.1, rest))?;
            assert!(rt; stops, "{count} commands");
        }
        before = (steps, rest);
    }
    Ok(())
}

#[test]
fn a_closed_object_is_evicted_whole_or_not_at_all(rt: HostRuntime) -> Result<(), Fail> {
    let f = done(rt.alloc(), THREE_ITEMS, &EVICTING)?;
    let first = steps_after(rt.alloc(), THREE_ITEMS, &EVICTING, 5)?;
    let before = held_at(rt.alloc(), &f, first)?;
    assert_same(&rt, (before.0, before.1), (3, 11_665));
    let mut is_out = false;
    for stop in first..=steps_of(&f) {
        let now = held_at(rt.alloc(), &f, stop)?;
        is_out = is_out || now == (0, 0, 0);
        assert_same_at(&rt, now, if is_out { (0, 0, 0) } else { before }, stop);
    }
    assert!(rt; is_out);
    Ok(())
}
