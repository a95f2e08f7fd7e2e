// Sessions of twelve commands in which one call fails: of the folder, of the input, or of the output.
use crate::running::{after, answers, left_by, run_over, run_with};
use crate::same::{assert_same, assert_same_at};
use crate::twelve::{BEFORE, TWELVE, are_replies, is_closed, is_stop_outcome, replies_to_twelve};
use blk_io::{ListClock, MemFolder, MemSink, MemSource};
use blk_model::{Limits, MOST_ITEMS};
use blk_run::{Status, session};
use std::alloc::Global;
use std::test::Fail;
use test_folders::inputs::text_of;

// How many bytes a session takes at once.
const TAKEN: usize = 4096;

// More calls of the output than the session makes.
const MOST_PUTS: u64 = 100;

// The number of folder calls of the session and of its opening, where none of them fails.
fn calls_of_a_session(alloc: Global, start: &MemFolder, input: &[u8]) -> Result<u64, Fail> {
    let mut f = after(start, 0)?;
    let (status, out) = run_over(alloc, &mut f, &["session"], input)?;
    let is_whole = status == Status::Ok && are_replies(12, out.written());
    Ok(if is_whole { f.calls() } else { 0 })
}

// Whether a session in which a folder call fails, of whose steps so many are made, ends with the status 3 and prints a prefix of the
// replies, and a crash outcome of the command in progress is found by the next one.
fn fails_well(
    alloc: Global,
    start: &MemFolder,
    input: &[u8],
    failing: (u64, u64),
) -> Result<bool, Fail> {
    let (call, words) = failing;
    let mut f = after(start, 0)?;
    f.fail_at(call, words)?;
    let (status, out) = run_over(alloc, &mut f, &["session"], input)?;
    let (next, listed) = run_over(alloc, &mut f, &["list"], b"")?;
    let Some(done) = replies_to_twelve(out.written()) else {
        return Ok(false);
    };
    let ended = status == Status::Device && next == Status::Ok;
    Ok(ended && is_stop_outcome(done, listed.written()))
}

// Of each n-th folder call of the session the first for which `fails_well` is false, with none of its steps made or with one.
fn first_that_fails_ill(
    alloc: Global,
    start: &MemFolder,
    input: &[u8],
    each: u64,
) -> Result<Option<u64>, Fail> {
    let calls = calls_of_a_session(alloc, start, input)?;
    for part in 0..calls.checked_div(each).unwrap_or(0) {
        let call = part.wrapping_add(1).wrapping_mul(each);
        if !fails_well(alloc, start, input, (call, 0))?
            || !fails_well(alloc, start, input, (call, 1))?
        {
            return Ok(Some(call));
        }
    }
    Ok(None)
}

#[test]
fn a_folder_call_that_fails_leaves_a_stop_outcome(rt: HostRuntime) -> Result<(), Fail> {
    let input = text_of(rt.alloc(), TWELVE)?;
    let start = left_by(rt.alloc(), BEFORE)?;
    let calls = calls_of_a_session(rt.alloc(), &start, &input)?;
    assert!(rt; calls >= 500, "{calls} calls");
    assert_same(
        &rt,
        first_that_fails_ill(rt.alloc(), &start, &input, 10)?,
        None,
    );
    Ok(())
}

// The folder is made by the session, and its files grow.
#[test]
fn a_call_that_fails_in_a_new_folder_leaves_a_stop_outcome(rt: HostRuntime) -> Result<(), Fail> {
    let input = text_of(rt.alloc(), TWELVE)?;
    let start = MemFolder::new(rt.alloc());
    let calls = calls_of_a_session(rt.alloc(), &start, &input)?;
    assert!(rt; calls >= 550, "{calls} calls");
    assert_same(
        &rt,
        first_that_fails_ill(rt.alloc(), &start, &input, 19)?,
        None,
    );
    Ok(())
}

// How many whole lines the bytes have that are taken before a call.
fn lines_before(input: &[u8], take: u64) -> usize {
    let taken = (take.saturating_sub(1) as usize).saturating_mul(TAKEN);
    input[..taken.min(input.len())]
        .iter()
        .filter(|byte: &&u8| -> bool { **byte == b'\n' })
        .count()
}

// Whether a session in which a take fails ends with the status 4, prints the replies to the whole lines before, and leaves what is held
// after these and the closings.
fn ends_without_input(
    alloc: Global,
    start: &MemFolder,
    input: &[u8],
    take: u64,
) -> Result<bool, Fail> {
    let mut f = after(start, 0)?;
    let mut source = MemSource::new(alloc, input)?;
    source.fail_at(take)?;
    let mut out = MemSink::new(alloc);
    let status = run_with(alloc, &mut f, &["session"], &mut source, &mut out)?;
    let (next, listed) = run_over(alloc, &mut f, &["list"], b"")?;
    let done = lines_before(input, take);
    let ended = status == Status::Source && next == Status::Ok;
    Ok(ended && are_replies(done, out.written()) && is_closed(done, listed.written()))
}

#[test]
fn a_take_that_fails_ends_the_session_with_its_closings(rt: HostRuntime) -> Result<(), Fail> {
    let input = text_of(rt.alloc(), TWELVE)?;
    let start = left_by(rt.alloc(), BEFORE)?;

    // The last take finds the end of the input.
    let takes = (input.len() / TAKEN) as u64 + 2;
    assert_same(&rt, takes, 7);
    for take in 1..=takes {
        assert!(rt;
            ends_without_input(rt.alloc(), &start, &input, take)?,
            "take {take}"
        );
    }
    Ok(())
}

// How a session ends in which a put fails, and whether it prints a prefix of the replies, and leaves what is held after the command whose
// text it was and the closings.
fn ends_without_output(
    alloc: Global,
    start: &MemFolder,
    input: &[u8],
    put: u64,
) -> Result<(Status, bool), Fail> {
    let mut f = after(start, 0)?;
    let mut source = MemSource::new(alloc, input)?;
    let mut out = MemSink::new(alloc);
    out.fail_at(put)?;
    let status = run_with(alloc, &mut f, &["session"], &mut source, &mut out)?;
    let (next, listed) = run_over(alloc, &mut f, &["list"], b"")?;
    let Some(done) = replies_to_twelve(out.written()) else {
        return Ok((status, false));
    };
    let held = is_closed(done.wrapping_add(1), listed.written());
    Ok((status, next == Status::Ok && held))
}

#[test]
fn a_put_that_fails_ends_the_session_with_its_closings(rt: HostRuntime) -> Result<(), Fail> {
    let input = text_of(rt.alloc(), TWELVE)?;
    let start = left_by(rt.alloc(), BEFORE)?;
    let mut puts = 0;
    for put in 1..MOST_PUTS {
        let (status, is_so) = ends_without_output(rt.alloc(), &start, &input, put)?;
        if status == Status::Ok {
            break;
        }
        assert_same_at(&rt, status, Status::Sink, format_args!("put {put}"));
        assert!(rt; is_so, "put {put}");
        puts = put;
    }
    assert!(rt; puts >= 24 && puts < MOST_PUTS - 1, "{puts} puts");
    Ok(())
}

// One line, of which the second take or the first put fails.
#[test]
fn an_entry_is_held_though_a_stream_fails(rt: HostRuntime) -> Result<(), Fail> {
    let listed = (Status::Ok, b"main a 0 0 0\nend 1\n".as_slice());
    let mut f = MemFolder::without_trail(rt.alloc());
    let mut source = MemSource::new(rt.alloc(), b"create 0 a\n")?;
    source.fail_at(2)?;
    let mut out = MemSink::new(rt.alloc());
    let status = run_with(rt.alloc(), &mut f, &["session"], &mut source, &mut out)?;
    assert_same(
        &rt,
        (status, out.written()),
        (Status::Source, b"ok\n".as_slice()),
    );
    assert!(rt; answers(rt.alloc(), &mut f, &["list"], b"", listed)?);

    let mut f = MemFolder::without_trail(rt.alloc());
    let mut source = MemSource::new(rt.alloc(), b"create 0 a\n")?;
    let mut out = MemSink::new(rt.alloc());
    out.fail_at(1)?;
    let status = run_with(rt.alloc(), &mut f, &["session"], &mut source, &mut out)?;
    assert_same(&rt, (status, out.written()), (Status::Sink, b"".as_slice()));
    assert!(rt; answers(rt.alloc(), &mut f, &["list"], b"", listed)?);
    Ok(())
}

// The limits that the program has where it is given none.
const LIMITS: Limits = Limits {
    max_bytes: 83_886_080,
    max_items: MOST_ITEMS / 2,
};

// A line that the input limit cuts isn't run.
#[test]
fn a_line_that_the_budget_cuts_is_not_run(rt: HostRuntime) -> Result<(), Fail> {
    let mut f = MemFolder::without_trail(rt.alloc());
    let mut source = MemSource::new(rt.alloc(), b"create 0 a\n")?;
    let mut out = MemSink::new(rt.alloc());
    let mut clock = ListClock::new(rt.alloc(), &[50])?;
    let status = session(
        rt.alloc(),
        LIMITS,
        5,
        &mut source,
        &mut out,
        &mut f,
        &mut clock,
    );
    assert_same(
        &rt,
        (status, out.written()),
        (Status::TooLong, b"".as_slice()),
    );
    assert!(rt; answers(rt.alloc(), &mut f, &["list"], b"", (Status::Ok, b"end 0\n"))?);
    Ok(())
}
