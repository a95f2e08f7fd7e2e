// An object with two parts, in a folder that is written by the format alone.
use crate::same::assert_same;
use blk_chain::find;
use blk_disk::BlockFiles;
use blk_entry::node_of;
use blk_index::make;
use blk_io::{Failed, Fault};
use blk_object::{read_owned, take_main};
use blk_sparse::{
    Gone, Parent, doom_parent, drop_children, drop_children_with, drop_parts_with,
    remove_parent_with,
};
use std::alloc::Global;
use std::test::Fail;
use test_folders::folders::{Entry, add, give_blocks, place_of, put_index, put_words};
use test_folders::stopping::{Mem, empty};
use test_sessions::sessions::{LIMITS, Session, held};

// The index of the object, and the bits that it has: none, or those of its first two parts.
const INDEX: u32 = 0xC203_0000;

const NO_PART: u32 = 0;

const TWO_PARTS: u32 = 3;

// The key of the object, the generation of its index, and the cost of its main item.
const OBJECT: &[u8] = b"v";

const SIGNATURE: i64 = 1;

const CHARGE: u64 = 8257;

// How many bytes the longest key and the longest name of a part have.
const NAME_BUFFER_LEN: usize = 65_564;

// No number of a part was given yet, or the numbers of both parts were, in the order of the list.
const NONE: [u32; 3] = [9; 3];

const BOTH: [u32; 3] = [9, 1, 0];

// The two parts and then the object, in the order of the list. The index of each lies in its third stream.
const ENTRIES: [Entry<'static>; 3] = [
    Entry {
        record: 0xA001_0000,
        key: b"Range_v:1:1",
        long_key: 0,
        flags: 2,
        sizes: [0, 1024, 192, 0],
        addrs: [0, 0xB002_0000, 0xA001_0004, 0],
    },
    Entry {
        record: 0xA001_0001,
        key: b"Range_v:1:0",
        long_key: 0,
        flags: 2,
        sizes: [0, 1024, 192, 0],
        addrs: [0, 0xB002_0001, 0xA001_0005, 0],
    },
    Entry {
        record: 0xA001_0002,
        key: b"v",
        long_key: 0,
        flags: 1,
        sizes: [0, 0, 8256, 0],
        addrs: [0, 0, INDEX, 0],
    },
];

// Says in the index of the object which parts it has.
fn put_parts(f: &mut Mem, bits: u32) -> Result<(), Failed> {
    let (file, place) = place_of(INDEX);
    put_words(f, file, place.wrapping_add(64), &[bits])
}

// A folder with the object and its parts.
fn sparse_folder(alloc: Global) -> Result<Mem, Fail> {
    let mut f = empty(alloc);
    make(&mut f, 7)?;
    give_blocks(&mut f, 1024, [1024, 64, 16, 4])?;
    for (number, entry) in ENTRIES.iter().enumerate() {
        let [_, _, index, _] = entry.addrs;
        put_index(&mut f, index, 1)?;
        add(&mut f, (number & 0xFFFF) as u32, entry)?;
    }
    put_parts(&mut f, TWO_PARTS)?;
    Ok(f)
}

// A folder with the object without its parts, in front of so many plain objects; its index has these bits.
fn childless_folder(alloc: Global, bits: u32, others: u8) -> Result<Mem, Fail> {
    let mut f = empty(alloc);
    make(&mut f, 7)?;
    give_blocks(&mut f, 1024, [1024, 64, 16, 4])?;
    put_index(&mut f, INDEX, 1)?;
    put_parts(&mut f, bits)?;
    let [_, _, object] = &ENTRIES;
    add(&mut f, 0, object)?;
    for number in 1..others.saturating_add(1) {
        let plain = Entry {
            record: 0xA001_0002 | (u32::from(number) << 3),
            key: &[number],
            long_key: 0,
            flags: 0,
            sizes: [0; 4],
            addrs: [0; 4],
        };
        add(&mut f, u32::from(number), &plain)?;
    }
    Ok(f)
}

// The folder in a session.
fn in_session(alloc: Global) -> Result<Mem, Fail> {
    Ok(Session::over(alloc, sparse_folder(alloc)?, LIMITS)?.f)
}

// Takes the main item of the object out of the list and of its chain. Gives the words of its record and of its node.
fn main_out(f: &mut Mem, files: &BlockFiles) -> Result<[u32; 2], Fault> {
    match find(f, files, OBJECT, false) {
        Ok(Some(found)) => {
            let word = node_of(f, files, found.entry)?.word();
            let Some(node) = files.node(word) else {
                return Err(Fault::Device);
            };
            take_main(f, files, &found, node, CHARGE)?;
            Ok([found.entry.word(), word])
        }
        Ok(None) => Err(Fault::Device),
        Err(fault) => Err(fault),
    }
}

// Drops the parts of the object by its key, after its main item. Gives how many were removed, and the numbers that were given.
fn parts_dropped(f: &mut Mem) -> Result<(Gone, [u32; 3]), Fault> {
    let files = BlockFiles::load(f)?;
    main_out(f, &files)?;
    let mut buffer = [0; NAME_BUFFER_LEN];
    let mut told = NONE;
    let mut each = |number: u32| told = [told[1], told[2], number];
    let gone = drop_parts_with(f, &files, OBJECT, SIGNATURE, &mut buffer, &mut each)?;
    Ok((gone, told))
}

// Drops the parts of the object by its record, after its main item, and gives their numbers or not.
fn children_dropped(f: &mut Mem, telling: bool) -> Result<(u64, [u32; 3]), Fault> {
    let files = BlockFiles::load(f)?;
    let [entry, node] = main_out(f, &files)?;
    let (Some(entry), Some(node)) = (files.entry(entry), files.node(node)) else {
        return Err(Fault::Device);
    };
    let parent = Parent {
        entry,
        node,
        signature: SIGNATURE,
    };
    let mut name = [0; NAME_BUFFER_LEN];
    let mut told = NONE;
    if telling {
        let mut each = |number: u32| told = [told[1], told[2], number];
        let count = drop_children_with(f, &files, &parent, &mut name, &mut each)?;
        return Ok((count, told));
    }
    let count = drop_children(f, &files, &parent, &mut name)?;
    Ok((count, told))
}

// Removes the object with its parts, or dooms it. Gives what was removed, and the numbers that were given.
fn whole_gone(f: &mut Mem, dooms: bool) -> Result<(Gone, [u32; 3]), Fault> {
    let files = BlockFiles::load(f)?;
    match find(f, &files, OBJECT, false) {
        Ok(Some(found)) => {
            let word = node_of(f, &files, found.entry)?.word();
            let Some(node) = files.node(word) else {
                return Err(Fault::Device);
            };
            let mut buffer = [0; NAME_BUFFER_LEN];
            let mut told = NONE;
            if dooms {
                let gone = doom_parent(f, &files, &found, node, OBJECT, CHARGE, &mut buffer)?;
                return Ok((gone, told));
            }
            let mut each = |number: u32| told = [told[1], told[2], number];
            let owned = read_owned(f, &files, found.entry)?;
            let gone = remove_parent_with(
                f,
                &files,
                &found,
                node,
                OBJECT,
                &owned,
                &mut buffer,
                &mut each,
            )?;
            Ok((gone, told))
        }
        Ok(None) => Err(Fault::Device),
        Err(fault) => Err(fault),
    }
}

// How the object is removed with its parts: by its key, as a doomed one, or its parts by its record once it is out.
#[derive(Clone, Copy)]
enum Going {
    Removed,
    Doomed,
    ByRecord,
}

// How many items are removed with the object without its parts, and the folder calls by which it is removed.
fn calls_of(alloc: Global, going: Going, bits: u32, others: u8) -> Result<(u64, u64), Fail> {
    let mut f = Session::over(alloc, childless_folder(alloc, bits, others)?, LIMITS)?.f;
    let start = f.calls();
    let items = match going {
        Going::Removed => whole_gone(&mut f, false)?.0.items,
        Going::Doomed => whole_gone(&mut f, true)?.0.items,
        Going::ByRecord => children_dropped(&mut f, true)?.0,
    };
    Ok((items, f.calls().wrapping_sub(start)))
}

#[test]
fn parts_go_after_their_object(rt: HostRuntime) -> Result<(), Fail> {
    let both = Gone {
        items: 2,
        bytes: 2454,
    };
    let mut f = in_session(rt.alloc())?;
    assert_same(&rt, parts_dropped(&mut f), Ok((both, BOTH)));
    assert_same(&rt, held(rt.alloc(), f)?, (0, 0, 0));
    for (telling, told) in [(true, BOTH), (false, NONE)] {
        let mut f = in_session(rt.alloc())?;
        assert_same(&rt, children_dropped(&mut f, telling), Ok((2, told)));
        assert_same(&rt, held(rt.alloc(), f)?, (0, 0, 0));
    }
    Ok(())
}

#[test]
fn an_object_is_removed_or_doomed_with_its_parts(rt: HostRuntime) -> Result<(), Fail> {
    let removed = Gone {
        items: 3,
        bytes: 10711,
    };
    let doomed = Gone {
        items: 2,
        bytes: 2454,
    };
    for (dooms, gone, told) in [(false, removed, BOTH), (true, doomed, NONE)] {
        let mut f = in_session(rt.alloc())?;
        assert_same(&rt, whole_gone(&mut f, dooms), Ok((gone, told)));
        assert_same(&rt, held(rt.alloc(), f)?, (0, 0, 0));
    }
    Ok(())
}

#[test]
fn no_list_is_walked_where_no_bit_is_set(rt: HostRuntime) -> Result<(), Fail> {
    for (going, items) in [
        (Going::Removed, 1),
        (Going::Doomed, 0),
        (Going::ByRecord, 0),
    ] {
        let (gone, calls) = calls_of(rt.alloc(), going, NO_PART, 1)?;
        assert_same(&rt, gone, items);
        assert_same(
            &rt,
            calls_of(rt.alloc(), going, NO_PART, 4)?,
            (items, calls),
        );
        // Where a bit is set, each item of the list takes three calls.
        let walked = calls.wrapping_add(4);
        assert_same(
            &rt,
            calls_of(rt.alloc(), going, TWO_PARTS, 1)?,
            (items, walked),
        );
        let longer = walked.wrapping_add(9);
        assert_same(
            &rt,
            calls_of(rt.alloc(), going, TWO_PARTS, 4)?,
            (items, longer),
        );
    }
    Ok(())
}
