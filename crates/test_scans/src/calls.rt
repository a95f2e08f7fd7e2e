// The folder calls of a consistency check of many entries, and of a repair.
use crate::same::assert_same;
use blk_audit::ScanFault;
use blk_disk::BlockFiles;
use blk_io::FileId;
use blk_record::IndexHead;
use blk_repair::repair;
use blk_scan::{scan_files, scan_folder};
use std::alloc::Global;
use std::test::Fail;
use test_folders::folders::{Mem, add, put_words};
use test_folders::many::{ENTRIES, OTHERS, Sort, many, plain};
use test_folders::mended::mend;

// How many of so many entries are kept, and all the folder calls of the consistency check.
fn counts(alloc: Global, sort: Sort, entries: u32) -> Result<(u64, u64), Fail> {
    let mut f = many(alloc, sort, entries)?;
    let start = f.calls();
    let scan = scan_folder(alloc, &mut f)?;
    Ok((scan.items(), f.calls().wrapping_sub(start)))
}

#[test]
fn an_audit_of_4000_entries_takes_few_calls(rt: HostRuntime) -> Result<(), Fail> {
    // A parent and its part have an index each; for the part's parent both keys are read, and the bit.
    for (sort, each) in [
        (Sort::Plain, 0),
        (Sort::External, 1),
        (Sort::Long, 1),
        (Sort::Parents, 1 + 1 + 3),
    ] {
        let (items, calls) = counts(rt.alloc(), sort, ENTRIES)?;
        assert_same(&rt, items, 4000);
        assert!(rt; calls <= 120 + 100 * each, "{calls} calls, {each}");
    }
    Ok(())
}

#[test]
fn twice_the_entries_take_at_most_twice_the_calls(rt: HostRuntime) -> Result<(), Fail> {
    // Of the last three sorts there are no more than `OTHERS` entries, so that all of them are of that sort: others are added after these.
    for (sort, entries) in [
        (Sort::Plain, ENTRIES / 2),
        (Sort::External, OTHERS / 2),
        (Sort::Long, OTHERS / 2),
        (Sort::Parents, OTHERS / 2),
    ] {
        let (items, calls) = counts(rt.alloc(), sort, entries)?;
        let (twice, more) = counts(rt.alloc(), sort, entries.wrapping_mul(2))?;
        assert_same(&rt, twice, items.wrapping_mul(2));
        assert!(rt; more <= calls.wrapping_mul(2), "{calls} calls, then {more}");
    }
    Ok(())
}

// Eight keys of one length that have one hash.
const ALIKE: [&[u8]; 8] = [
    b"kYv9SgEgJeuhnvR1HiU8fOA6",
    b"kYv9SgEgJeuhnvR1th6GWwaw",
    b"kYv9SgEgyr25Zbp0HiU8fOA6",
    b"kYv9SgEgyr25Zbp0th6GWwaw",
    b"lkpSrZcHJeuhnvR1HiU8fOA6",
    b"lkpSrZcHJeuhnvR1th6GWwaw",
    b"lkpSrZcHyr25Zbp0HiU8fOA6",
    b"lkpSrZcHyr25Zbp0th6GWwaw",
];

// How many entries with these keys are kept, and the folder calls of the consistency check.
fn counts_alike(alloc: Global) -> Result<(u64, u64), Fail> {
    let mut f = many(alloc, Sort::Plain, 0)?;
    let mut i: u32 = 0;
    for key in ALIKE {
        add(&mut f, i, &plain(i, key))?;
        i = i.wrapping_add(1);
    }
    let start = f.calls();
    let scan = scan_folder(alloc, &mut f)?;
    Ok((scan.items(), f.calls().wrapping_sub(start)))
}

#[test]
fn keys_of_one_hash_are_compared_with_one_another(rt: HostRuntime) -> Result<(), Fail> {
    // Each but the first is read, and those that were kept before it.
    let (others, calls) = counts(rt.alloc(), Sort::Plain, 8)?;
    let (alike, more) = counts_alike(rt.alloc())?;
    assert_same(&rt, (others, alike), (8, 8));
    assert_same(&rt, more, calls.wrapping_add(7 + 28));
    Ok(())
}

// The folder calls of a repair.
fn calls_of_repair(alloc: Global, f: &mut Mem) -> Result<u64, ScanFault> {
    let mut files = BlockFiles::load(f)?;
    let scan = scan_files(alloc, f, &files)?;
    let start = f.calls();
    repair(f, &mut files, &scan)?;
    Ok(f.calls().wrapping_sub(start))
}

// The folder calls of a repair of so many entries, where all is repaired already.
fn repair_calls(alloc: Global, sort: Sort, entries: u32) -> Result<u64, Fail> {
    let mut f = many(alloc, sort, entries)?;
    mend(alloc, &mut f)?;
    Ok(calls_of_repair(alloc, &mut f)?)
}

// The buckets that are wrong: 256 in each piece of the table that one call reads.
const WRONG: u64 = 1024;

// The folder calls of a repair of an empty folder in which each 64th bucket names nothing, but for those that write these buckets.
fn table_calls(alloc: Global) -> Result<u64, Fail> {
    let mut f = many(alloc, Sort::Plain, 0)?;
    for i in 0..WRONG {
        put_words(
            &mut f,
            FileId::Index,
            IndexHead::TABLE.wrapping_add(i.wrapping_mul(256)),
            &[1],
        )?;
    }
    Ok(calls_of_repair(alloc, &mut f)?.wrapping_sub(WRONG))
}

#[test]
fn a_repair_of_what_is_repaired_takes_few_calls(rt: HostRuntime) -> Result<(), Fail> {
    // Each external file is listed once.
    for (sort, entries, externals) in [
        (Sort::Plain, 0, 0),
        (Sort::Plain, ENTRIES, 0),
        (Sort::External, ENTRIES, 100),
    ] {
        let calls = repair_calls(rt.alloc(), sort, entries)?;
        assert!(rt; calls <= 60 + externals, "{calls} calls, {externals}");
    }
    Ok(())
}

#[test]
fn the_table_is_read_in_pieces(rt: HostRuntime) -> Result<(), Fail> {
    let calls = table_calls(rt.alloc())?;
    assert!(rt; calls <= 60 + 4, "{calls} calls");
    Ok(())
}
