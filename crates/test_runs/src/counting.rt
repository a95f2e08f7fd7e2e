// The subcommand `count` on an empty folder, and where a call fails.
use crate::same::assert_same;
use blk_io::{
    Failed, FileId, Folder, ListClock, MemFolder, MemSink, MemSource, SilentFolder, read_word,
};
use blk_record::IndexHead;
use blk_run::{Status, run};
use std::alloc::Global;
use std::test::Fail;
use test_folders::folders::Mem;

const EMPTY: &[u8] = b"items 0 bytes 0\n";

// Runs with a word over a folder.
pub(crate) fn run_on<F: Folder>(
    alloc: Global,
    f: &mut F,
    word: &str,
    out: &mut MemSink,
) -> Result<Status, Fail> {
    let words = vec![in alloc; String::from_str(alloc, word)?]?;
    let mut input = MemSource::new(alloc, b"")?;
    let mut clock = ListClock::new(alloc, &[50])?;
    Ok(run(alloc, &words, &mut input, out, f, &mut clock))
}

// Whether a run with a word answers and prints so.
fn answers(
    alloc: Global,
    f: &mut Mem,
    word: &str,
    status: Status,
    line: &[u8],
) -> Result<bool, Fail> {
    let mut out = MemSink::new(alloc);
    let answer = run_on(alloc, f, word, &mut out)?;
    Ok(answer == status && out.written() == line)
}

// An empty folder, of which a call fails.
fn empty(alloc: Global, call: u64) -> Result<Mem, Fail> {
    let mut folder = MemFolder::without_trail(alloc);
    folder.fail_at(call, 0)?;
    Ok(SilentFolder::new(folder))
}

// The lengths of the index and of the first five block files.
fn lengths_of(f: &mut Mem) -> Result<[Option<u64>; 6], Failed> {
    let mut lengths = [f.length(FileId::Index)?, None, None, None, None, None];
    for (slot, number) in lengths.iter_mut().skip(1).zip(0..5u8) {
        *slot = f.length(FileId::Block(number))?;
    }
    Ok(lengths)
}

#[test]
fn an_empty_folder_is_made_and_counted_by_few_calls(rt: HostRuntime) -> Result<(), Fail> {
    let mut f = empty(rt.alloc(), u64::MAX)?;
    for most in [61, 75] {
        let start = f.calls();
        assert!(rt; answers(rt.alloc(), &mut f, "count", Status::Ok, EMPTY)?);
        let calls = f.calls().wrapping_sub(start);
        assert!(rt; calls <= most, "{calls} calls");
    }
    let header = Some(8192);
    assert_same(
        &rt,
        lengths_of(&mut f)?,
        [Some(262512), header, header, header, header, None],
    );
    let start = f.calls();
    assert!(rt; answers(rt.alloc(), &mut f, "Count", Status::Words, b"usage\n")?);
    assert_same(&rt, f.calls(), start);
    Ok(())
}

// A first count of which a call fails: how it ends, how much it prints, and whether the next one counts.
fn fail_one_call(alloc: Global, call: u64) -> Result<(Status, usize, bool), Fail> {
    let mut f = empty(alloc, call)?;
    let mut out = MemSink::new(alloc);
    let status = run_on(alloc, &mut f, "count", &mut out)?;
    let counts = answers(alloc, &mut f, "count", Status::Ok, EMPTY)?;
    Ok((status, out.written().len(), counts))
}

// The number of calls of a first count that none of them fails, on the folder inside; or 0 where it doesn't count.
fn calls_of_a_count(alloc: Global) -> Result<u64, Fail> {
    let mut f = empty(alloc, u64::MAX)?;
    let counts = answers(alloc, &mut f, "count", Status::Ok, EMPTY)?;
    let calls = f.into_inner().calls();
    Ok(if counts { calls } else { 0 })
}

#[test]
fn each_failing_call_ends_the_run_and_the_next_run_counts(rt: HostRuntime) -> Result<(), Fail> {
    let calls = calls_of_a_count(rt.alloc())?;
    assert!(rt; calls >= 58, "{calls} calls");
    for call in 1..=calls {
        let (status, printed, counts) = fail_one_call(rt.alloc(), call)?;
        // The last calls end the session, when the line is printed.
        let whole = printed == 0 || printed == EMPTY.len();
        assert!(rt; status == Status::Device && counts && whole, "call {call}");
    }
    Ok(())
}

#[test]
fn a_failing_output_ends_the_session(rt: HostRuntime) -> Result<(), Fail> {
    for (put, printed) in [(1, 0), (2, 6), (5, 15)] {
        let mut f = empty(rt.alloc(), u64::MAX)?;
        let mut out = MemSink::new(rt.alloc());
        out.fail_at(put)?;
        let status = run_on(rt.alloc(), &mut f, "count", &mut out)?;
        assert!(rt;
            status == Status::Sink && out.written().len() == printed,
            "{put}"
        );
        assert_same(&rt, read_word(&mut f, FileId::Index, IndexHead::CRASH)?, 0);
    }
    Ok(())
}
