// Runs over folders in memory, with the clock at 50, and what is left by them.
use blk_io::{Folder, ListClock, MemFolder, MemSink, MemSource, NoMemory, Sink, Source};
use blk_run::{Status, run};
use std::alloc::Global;
use std::test::Fail;

// Runs with some words.
pub(crate) fn run_with<F: Folder, S: Source, K: Sink>(
    alloc: Global,
    f: &mut F,
    words: &[&str],
    input: &mut S,
    out: &mut K,
) -> Result<Status, Fail> {
    let mut given = Vec::new(alloc);
    for word in words {
        given.push(String::from_str(alloc, word)?)?;
    }
    let mut clock = ListClock::new(alloc, &[50])?;
    Ok(run(alloc, &given, input, out, f, &mut clock))
}

// Runs with some words over an input: how it ended, and what it printed.
pub(crate) fn run_over<F: Folder>(
    alloc: Global,
    f: &mut F,
    words: &[&str],
    input: &[u8],
) -> Result<(Status, MemSink), Fail> {
    let mut input = MemSource::new(alloc, input)?;
    let mut out = MemSink::new(alloc);
    let status = run_with(alloc, f, words, &mut input, &mut out)?;
    Ok((status, out))
}

// Whether a run with some words over an input ends and prints so.
pub(crate) fn answers<F: Folder>(
    alloc: Global,
    f: &mut F,
    words: &[&str],
    input: &[u8],
    wanted: (Status, &[u8]),
) -> Result<bool, Fail> {
    let (status, out) = run_over(alloc, f, words, input)?;
    let (wanted_status, printed) = wanted;
    Ok(status == wanted_status && out.written() == printed)
}

// The number of steps of a folder with a write trace.
pub(crate) fn steps_of(f: &MemFolder) -> u64 {
    f.steps().unwrap_or(0)
}

// The folder after so many of its steps.
pub(crate) fn after(f: &MemFolder, steps: u64) -> Result<MemFolder, NoMemory> {
    match f.steps() {
        Some(all) if steps <= all => f.image(steps),
        _ => Err(NoMemory),
    }
}

// A folder as a session leaves it, with a write trace that begins then.
pub(crate) fn left_by(alloc: Global, lines: &[u8]) -> Result<MemFolder, Fail> {
    let mut f = MemFolder::new(alloc);
    let (_, _) = run_over(alloc, &mut f, &["session"], lines)?;
    Ok(after(&f, steps_of(&f))?)
}
