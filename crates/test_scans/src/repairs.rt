// The repair of the same folders, and a crash at each of its words.
use crate::cases::{Case, TABLES};
use crate::same::assert_same;
use blk_audit::ScanFault;
use blk_disk::BlockFiles;
use blk_index::make;
use blk_io::{Damage, Fault, FileId, Folder, read_word};
use blk_repair::repair;
use blk_scan::{Scan, scan_files};
use std::alloc::Global;
use std::test::Fail;
use test_folders::folders::Change::{Index, Length, Word};
use test_folders::folders::{
    Change, NEXT, OPERATION, SEAL, TRANSACTION, audited, change_all, dropped_at, place_of,
};
use test_folders::found::found;
use test_folders::mended::{changed, mend};
use test_folders::stopped::{PUT_BACK, STOPPED};
use test_folders::stopping::{Mem, again, empty};
use test_folders::worked::{IEV, NAB};

// The words of the index that are written where nothing is to be repaired: this_id and crash.
const INDEX_WORDS: u64 = 2;

// More steps than any of these repairs takes.
const MOST_STEPS: u64 = 1000;

// A repair that follows on a crashed one crashes within so many steps.
const NEXT_STEPS: u64 = 23;

// What is held: the number of the entries that are kept, the sum of their costs, and the hash of all that is
// found of them, their keys and their data in the order of the list.
type Held = (u64, u64, u64);

// What a folder holds of which a consistency check found this.
fn held(f: &mut Mem, scan: &Scan) -> Result<Held, ScanFault> {
    Ok((scan.items(), scan.bytes(), found(f, scan)?))
}

// Checks the folder. Gives what it holds.
fn held_now(alloc: Global, f: &mut Mem) -> Result<Held, ScanFault> {
    let scan = audited(alloc, f)?;
    held(f, &scan)
}

// Whether nothing is left to repair but the words of the index.
fn is_tidy(scan: &Scan) -> bool {
    dropped_at(scan, 0) == (0, 0) && scan.bare().is_empty() && scan.chains().is_none()
}

// Whether repair keeps what is kept and leaves nothing to repair, and a second one makes no other steps than those of the
// index.
fn is_mended(alloc: Global, case: Case) -> Result<bool, Fail> {
    let mut f = changed(alloc, false, case.0, u64::MAX)?;
    let before = held_now(alloc, &mut f)?;
    mend(alloc, &mut f)?;
    let mut f = again(f, INDEX_WORDS);
    let then = mend(alloc, &mut f)?;
    let mut f = again(f, u64::MAX);
    Ok(before == held(&mut f, &then)? && is_tidy(&then))
}

// Whether the same is held in a crashed folder as before, and a repair that doesn't crash keeps it and leaves nothing to
// repair.
fn is_ended_well(alloc: Global, f: Mem, before: Held) -> Result<bool, Fail> {
    let mut f = again(f, u64::MAX);
    let stopped = held_now(alloc, &mut f)?;
    mend(alloc, &mut f)?;
    let then = audited(alloc, &mut f)?;
    Ok(before == stopped && before == held(&mut f, &then)? && is_tidy(&then))
}

// Whether the same is held where repair crashes after so many steps, and where the next one is after some more, and all ends
// well; and whether the first one came to its end.
fn is_stopped_well(
    alloc: Global,
    sealed: bool,
    changes: &[Change],
    before: Held,
    steps: u64,
) -> Result<(bool, bool), Fail> {
    let mut f = changed(alloc, sealed, changes, steps)?;
    let ended = mend(alloc, &mut f).is_ok();
    let mut f = again(f, u64::MAX);
    let stopped = held_now(alloc, &mut f)?;
    let mut f = again(f, steps % NEXT_STEPS);
    let _ = mend(alloc, &mut f).is_ok();
    let same = before == stopped && is_ended_well(alloc, f, before)?;
    Ok((same, ended))
}

// How many steps a repair takes, where what is kept stays at each crash before and all ends well; or none, where it doesn't,
// or where the repair takes more than so many.
fn steps_of(
    alloc: Global,
    sealed: bool,
    changes: &[Change],
    most: u64,
) -> Result<Option<u64>, Fail> {
    let mut f = changed(alloc, sealed, changes, u64::MAX)?;
    let before = held_now(alloc, &mut f)?;
    for steps in 0..most {
        let (same, ended) = is_stopped_well(alloc, sealed, changes, before, steps)?;
        if !same {
            return Ok(None);
        }
        if ended {
            return Ok(Some(steps));
        }
    }
    Ok(None)
}

// The first of these cases that isn't repaired, with its table.
fn first_left(alloc: Global, tables: &[&[Case]]) -> Result<Option<(usize, usize)>, Fail> {
    for (table, cases) in tables.iter().enumerate() {
        for (i, case) in cases.iter().enumerate() {
            if !is_mended(alloc, *case)? {
                return Ok(Some((table, i)));
            }
        }
    }
    Ok(None)
}

#[test]
fn repair_mends_what_is_damaged(rt: HostRuntime) -> Result<(), Fail> {
    assert_same(&rt, first_left(rt.alloc(), &TABLES)?, None);
    Ok(())
}

#[test]
fn repair_may_be_stopped_at_each_word(rt: HostRuntime) -> Result<(), Fail> {
    for sealed in [false, true] {
        for (i, changes) in STOPPED.iter().enumerate() {
            let steps = steps_of(rt.alloc(), sealed, changes, MOST_STEPS)?;
            assert!(rt; steps.is_some(), "{sealed}, {i}");
        }
    }
    Ok(())
}

// The words of the index that say its version, and the sum of the costs at both of its places.
fn summed(f: &mut Mem) -> Result<[u32; 4], Fault> {
    let mut words = [0; 4];
    for (slot, place) in words.iter_mut().zip([4, 12, 48, 52]) {
        *slot = read_word(f, FileId::Index, place)?;
    }
    Ok(words)
}

// Whether a repaired folder that is put back so to the first version has the words that it had, once it is repaired again.
fn is_raised(alloc: Global, changes: &[Change]) -> Result<bool, Fail> {
    let mut f = changed(alloc, true, &[], u64::MAX)?;
    let before = summed(&mut f)?;
    let mut f = changed(alloc, true, changes, u64::MAX)?;
    mend(alloc, &mut f)?;
    Ok(before == summed(&mut f)?)
}

// Written are the number of the session and the crash word, the version, and each word of a sum that isn't right.
#[test]
fn an_index_of_the_first_version_is_raised_by_few_words(rt: HostRuntime) -> Result<(), Fail> {
    for (changes, words) in PUT_BACK.iter().zip([3, 4, 5, 6]) {
        assert!(rt; is_raised(rt.alloc(), changes)?);
        let steps = steps_of(rt.alloc(), true, changes, MOST_STEPS)?;
        assert_same(&rt, steps, Some(words));
    }
    Ok(())
}

// What is found of a folder after its repair: the transaction word, and the lengths of the files that nothing names and of one
// that has its owner.
fn mended_words(alloc: Global, f: &mut Mem) -> Result<(u32, [Option<u64>; 3]), ScanFault> {
    mend(alloc, f)?;
    let lengths = lengths_of(f)?;
    Ok((read_word(f, FileId::Index, TRANSACTION)?, lengths))
}

// The lengths of an unlinked block file, an external file and one that has its owner.
fn lengths_of(f: &mut Mem) -> Result<[Option<u64>; 3], Fault> {
    let block = f.length(FileId::Block(9))?;
    let external = f.length(FileId::External(7))?;
    Ok([block, external, f.length(FileId::External(1))?])
}

#[test]
fn repair_deletes_what_nothing_names_and_ends_what_does_not_count(
    rt: HostRuntime,
) -> Result<(), Fail> {
    let others = [
        Length(FileId::Block(9), 8192),
        Length(FileId::External(7), 100),
    ];
    let mut f = changed(rt.alloc(), false, &others, u64::MAX)?;
    let mended = mended_words(rt.alloc(), &mut f)?;
    assert_same(&rt, mended, (0, [None, None, Some(20000)]));
    let mut f = empty(rt.alloc());
    make(&mut f, 7)?;
    change_all(
        &mut f,
        &[Index(TRANSACTION, 0x9000_0005), Index(OPERATION, 1)],
    )?;
    let mended = mended_words(rt.alloc(), &mut f)?;
    assert_same(&rt, mended, (0, [None; 3]));
    Ok(())
}

// What a repair answers where some changes were made after the consistency check, or where the folder fails after so many steps; or none,
// where the next one doesn't end well with what was held.
fn answer_of(alloc: Global, changes: &[Change], steps: u64) -> Result<Option<Fault>, Fail> {
    let mut f = changed(alloc, false, &[Word(IEV, NEXT, NAB)], u64::MAX)?;
    let mut files = BlockFiles::load(&mut f)?;
    let scan = scan_files(alloc, &mut f, &files)?;
    change_all(&mut f, changes)?;
    let before = held_now(alloc, &mut f)?;
    let mut f = again(f, steps);
    let answer = repair(&mut f, &mut files, &scan).err();
    let well = is_ended_well(alloc, f, before)?;
    Ok(answer.filter(|_| well))
}

#[test]
fn repair_answers_a_damage_and_a_failure(rt: HostRuntime) -> Result<(), Fail> {
    let (file, place) = place_of(IEV);
    let at = place.wrapping_add(SEAL);
    let damage = Damage { file, at, found: 1 };
    let spoiled = answer_of(rt.alloc(), &[Word(IEV, SEAL, 1)], u64::MAX)?;
    let failed = answer_of(rt.alloc(), &[], 0)?;
    assert_same(
        &rt,
        [spoiled, failed],
        [Some(Fault::Damaged(damage)), Some(Fault::Device)],
    );
    Ok(())
}
