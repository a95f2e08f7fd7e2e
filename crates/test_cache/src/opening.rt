// The opening and the end of a cache: on an empty folder, on one of many entries, and on corrupt ones where it crashes.
use crate::same::assert_same;
use blk_audit::ScanFault;
use blk_cache::{Cache, OpenFault};
use blk_io::{FileId, Folder, MemFolder, SilentFolder, read_word};
use blk_model::{Limits, MOST_BYTES, MOST_ITEMS};
use blk_record::IndexHead;
use std::alloc::Global;
use std::test::Fail;
use test_folders::folders::{Change, audited};
use test_folders::found::found;
use test_folders::many::{ENTRIES, Sort, many};
use test_folders::mended::changed;
use test_folders::stopped::{PUT_BACK, STOPPED};
use test_folders::stopping::{Mem, again};

const LIMITS: Limits = Limits {
    max_bytes: MOST_BYTES,
    max_items: MOST_ITEMS,
};

// When a folder is made.
const MOMENT: u64 = 7;

// More steps than the opening of any of these folders takes.
const MOST_STEPS: u64 = 50;

// An opening that follows on a crashed one crashes after so many steps.
const NEXT_STEPS: [u64; 8] = [0, 1, 2, 3, 10, 20, 30, 40];

// What a session shows: its items and bytes, its number, and the crash word once it is opened and once it is ended.
type Shown = ((u64, u64), u32, [u32; 2]);

// A session, with the folder calls of its opening and of its end.
fn session<F: Folder>(alloc: Global, f: &mut SilentFolder<F>) -> Result<(Shown, u64, u64), Fail> {
    let start = f.calls();
    let cache = Cache::start(alloc, f, LIMITS, MOMENT)?;
    let opening = f.calls().wrapping_sub(start);
    let totals = cache.totals();
    let number = read_word(f, FileId::Index, IndexHead::THIS_ID)?;
    let opened = read_word(f, FileId::Index, IndexHead::CRASH)?;
    let start = f.calls();
    cache.finish(f)?;
    let ending = f.calls().wrapping_sub(start);
    let ended = read_word(f, FileId::Index, IndexHead::CRASH)?;
    Ok(((totals, number, [opened, ended]), opening, ending))
}

#[test]
fn an_empty_folder_is_opened_and_ended(rt: HostRuntime) -> Result<(), Fail> {
    let mut f = SilentFolder::new(MemFolder::without_trail(rt.alloc()));
    for (number, most) in [(1, 60), (2, 74)] {
        let (shown, opening, ending) = session(rt.alloc(), &mut f)?;
        assert_same(&rt, shown, ((0, 0), number, [1, 0]));
        assert_same(&rt, ending, 1);
        assert!(rt; opening <= most, "{opening} calls");
    }
    Ok(())
}

#[test]
fn a_clean_folder_of_4000_entries_is_opened_by_few_calls(rt: HostRuntime) -> Result<(), Fail> {
    let mut f = many(rt.alloc(), Sort::Plain, ENTRIES)?;
    session(rt.alloc(), &mut f)?;
    let (shown, opening, ending) = session(rt.alloc(), &mut f)?;
    let ((items, _), number, crash) = shown;
    assert_same(&rt, (items, number, crash), (4000, 2, [1, 0]));
    assert_same(&rt, ending, 1);
    assert!(rt; opening <= 260, "{opening} calls");
    Ok(())
}

// What is found in a folder: how many items with how many bytes, and the hash of their keys and data in the order of the list.
type Found = ((u64, u64), u64);

// Checks the folder. Gives what is found in it.
fn found_now(alloc: Global, f: &mut Mem) -> Result<Found, ScanFault> {
    let scan = audited(alloc, f)?;
    Ok(((scan.items(), scan.bytes()), found(f, &scan)?))
}

// Opens the folder. Gives the items and bytes of the session, and whether it has the next number.
fn opened(alloc: Global, f: &mut Mem) -> Result<((u64, u64), bool), OpenFault> {
    let before = read_word(f, FileId::Index, IndexHead::THIS_ID)?;
    let cache = Cache::start(alloc, f, LIMITS, MOMENT)?;
    let number = read_word(f, FileId::Index, IndexHead::THIS_ID)?;
    Ok((cache.totals(), number == before.wrapping_add(1)))
}

// Whether an opening shows these items and bytes, in the session with the next number; or none where it crashes.
fn shows(alloc: Global, f: &mut Mem, totals: (u64, u64)) -> Option<bool> {
    match opened(alloc, f) {
        Ok((shown, is_next)) => Some(shown == totals && is_next),
        Err(OpenFault::Device) => None,
        Err(_) => Some(false),
    }
}

// Whether an opening of what a crashed one left shows what was found before, or crashes after so many steps, and a third one
// shows it, after which the same is found.
fn shows_in_the_end(alloc: Global, f: Mem, steps: u64, before: Found) -> Result<bool, ScanFault> {
    let mut f = again(f, steps);
    let second = shows(alloc, &mut f, before.0);
    let mut f = again(f, u64::MAX);
    let third = shows(alloc, &mut f, before.0);
    let after = found_now(alloc, &mut f)?;
    Ok(second != Some(false) && third == Some(true) && after == before)
}

// Whether all ends well where the first opening crashes after so many steps, wherever the second one is; and whether the first
// one came to its end.
fn is_opened_again(
    alloc: Global,
    changes: &[Change],
    steps: u64,
    before: Found,
) -> Result<(bool, bool), Fail> {
    let mut ended = false;
    for next in NEXT_STEPS {
        let mut f = changed(alloc, true, changes, steps)?;
        let first = shows(alloc, &mut f, before.0);
        if first == Some(false) || !shows_in_the_end(alloc, f, next, before)? {
            return Ok((false, ended));
        }
        ended = first.is_some();
    }
    Ok((true, ended))
}

// How many steps an opening takes, where all ends well at each crash before; or none, where it doesn't, or where the opening
// takes more than so many.
fn steps_of(alloc: Global, changes: &[Change]) -> Result<Option<u64>, Fail> {
    let mut f = changed(alloc, true, changes, u64::MAX)?;
    let before = found_now(alloc, &mut f)?;
    for steps in 0..MOST_STEPS {
        let (same, ended) = is_opened_again(alloc, changes, steps, before)?;
        if ended || !same {
            return Ok(if same { Some(steps) } else { None });
        }
    }
    Ok(None)
}

#[test]
fn an_opening_may_be_stopped_and_the_next_one_too(rt: HostRuntime) -> Result<(), Fail> {
    for changes in [STOPPED[0], STOPPED[2], PUT_BACK[3]] {
        let steps = steps_of(rt.alloc(), changes)?;
        assert!(rt; steps.is_some());
    }
    Ok(())
}
