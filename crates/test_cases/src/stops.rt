// A case with its answers.
use crate::play::Play;
use crate::wrong::Wrong;
use std::alloc::Global;

// More steps than any of the commands takes.
const MOST_STEPS: u64 = 500;

/// A case with the answers that its lines have, in place of those that it says.
pub(crate) fn answered(alloc: Global, case: &str) -> Result<String, Wrong> {
    let mut text = String::new(alloc);
    let mut play = Play::new(alloc);
    for line in case.lines() {
        if line.starts_with("> ") {
            continue;
        }
        text.push_str(line)?;
        text.push('\n')?;
        let played = match line.strip_prefix("stops ") {
            Some(command) => stops(alloc, case, line, command, &mut play.said),
            None => play.line(line),
        };
        if let Err(Wrong {}) = played {
            play.said.push_str("no such line\n")?;
        }
        for said in play.said.lines() {
            text.push_str("> ")?;
            text.push_str(said)?;
            text.push('\n')?;
        }
        play.said = String::new(alloc);
    }
    Ok(text)
}

// What is played of a case before this line.
fn before(alloc: Global, case: &str, last: &str) -> Result<Play, Wrong> {
    let mut play = Play::new(alloc);
    for line in case.lines() {
        if line == last {
            break;
        }
        if !line.starts_with("> ") && !line.starts_with("stops ") {
            play.line(line)?;
        }
    }
    Ok(play)
}

// What is printed by a line that crashes, what is found then, and its hash, and whether the line is done.
#[derive(Drop)]
struct Stopped {
    printed: String,
    found: String,
    hash: u64,
    is_done: bool,
}

// Plays a line after those before the last one. It crashes after so many steps.
fn play_stopped(
    alloc: Global,
    case: &str,
    last: &str,
    line: &str,
    steps: u64,
) -> Result<Stopped, Wrong> {
    let mut play = before(alloc, case, last)?;
    play.prepare(line)?;
    play.stop(steps);
    play.line(line)?;
    let (printed, is_done) = match play.said.strip_suffix("Device\n") {
        Some(printed) => (String::from_str(alloc, printed)?, false),
        None => (String::from_str(alloc, play.said.as_str())?, true),
    };
    let hash = play.find()?;
    Ok(Stopped {
        printed,
        found: play.said,
        hash,
        is_done,
    })
}

// Says what is found, one after another, where a line crashes at each of its steps, and for a run after how many printed lines.
fn stops(
    alloc: Global,
    case: &str,
    last: &str,
    line: &str,
    said: &mut String,
) -> Result<(), Wrong> {
    let whole = play_stopped(alloc, case, last, line, u64::MAX)?;
    let mut lines = 0;
    let mut found = (String::new(alloc), 0u64);
    for steps in 0..MOST_STEPS {
        let now = play_stopped(alloc, case, last, line, steps)?;
        if !whole.printed.starts_with(now.printed.as_str()) {
            writeln!(said, "others are printed")?;
        }
        let count = if line.starts_with("run") {
            now.printed.split("\n").count().saturating_sub(1)
        } else {
            0
        };
        if count != lines {
            writeln!(said, "behind {count}")?;
        }
        if count != lines || now.found != found.0 || now.hash != found.1 {
            said.push_str(now.found.as_str())?;
        }
        if now.is_done {
            return Ok(());
        }
        lines = count;
        found = (now.found, now.hash);
    }
    Err(Wrong {})
}
