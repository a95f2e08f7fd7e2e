// An LRU list that becomes a loop while a cache is open: each walk over it ends at the word that would be followed.
use crate::same::assert_same;
use blk_cache::{Cache, StepFault};
use blk_io::{Damage, FileId, MemFolder, MemSink, SilentFolder};
use blk_model::{Command, Limits};
use std::alloc::Global;
use std::test::Fail;
use test_folders::folders::{Mem, put_words};

const LIMITS: Limits = Limits {
    max_bytes: 2_500_000,
    max_items: 5,
};

const MOMENT: u64 = 100;

// Two items, the last of which is made last and is in front.
const MAKING: [Command<'static>; 2] = [
    Command::Create {
        handle: 0,
        key: b"a",
    },
    Command::Create {
        handle: 1,
        key: b"b",
    },
];

// The nodes of the item after and of the one in front, and the places of their nexts and prevs.
const BEHIND: u32 = 0x9000_0000;

const FRONT: u32 = 0x9000_0001;

const NEXT_OF_BEHIND: u64 = 8208;

const PREV_OF_BEHIND: u64 = 8212;

const NEXT_OF_FRONT: u64 = 8244;

const PREV_OF_FRONT: u64 = 8248;

// The failed check of a command on these items, once a word of the nodes has changed.
fn damage_of(
    alloc: Global,
    place: u64,
    word: u32,
    command: &Command<'_>,
) -> Result<Option<Damage>, Fail> {
    let mut f: Mem = SilentFolder::new(MemFolder::new(alloc));
    let mut cache = Cache::start(alloc, &mut f, LIMITS, MOMENT)?;
    let mut out = MemSink::new(alloc);
    for making in &MAKING {
        cache.step(&mut f, &mut out, MOMENT, making)?;
    }
    put_words(&mut f, FileId::Block(0), place, &[word])?;
    match cache.step(&mut f, &mut out, MOMENT, command) {
        Err(StepFault::Damaged(damage)) => Ok(Some(damage)),
        _ => Ok(None),
    }
}

#[test]
fn rows_of_a_list_that_goes_round_end(rt: HostRuntime) -> Result<(), Fail> {
    let damage = damage_of(rt.alloc(), NEXT_OF_BEHIND, FRONT, &Command::List)?;
    let file = FileId::Block(0);
    let at = NEXT_OF_FRONT;
    let found = BEHIND;
    assert_same(&rt, damage, Some(Damage { file, at, found }));
    Ok(())
}

#[test]
fn a_search_in_a_list_that_goes_round_ends(rt: HostRuntime) -> Result<(), Fail> {
    let trim = Command::Trim { bytes: 0 };
    let damage = damage_of(rt.alloc(), PREV_OF_FRONT, BEHIND, &trim)?;
    let file = FileId::Block(0);
    let at = PREV_OF_BEHIND;
    let found = FRONT;
    assert_same(&rt, damage, Some(Damage { file, at, found }));
    Ok(())
}
