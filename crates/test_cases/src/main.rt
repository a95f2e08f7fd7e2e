//! Plays cases: folders in memory, the lines of sessions over them, what these print, and what is held then. The words name texts of cases,
//! which docs/TESTING.md describes. Each case whose answers are others than it says is reported, with the first line that differs.
#![tactic(auto)]

mod numbers;
mod play;
mod stops;
mod wrong;

use crate::stops::answered;
use crate::wrong::Wrong;
use std::process::ExitCode;
use std::{env, fs};

fn main(rt: HostRuntime) -> ExitCode {
    match play_all(rt) {
        Ok(()) => ExitCode::SUCCESS,
        Err(Wrong {}) => ExitCode::FAILURE,
    }
}

// Plays the cases of each text that the words name.
fn play_all(rt: HostRuntime) -> Result<(), Wrong> {
    let mut args = env::args(&rt)?;
    let _program = args.next();
    let paths: Vec<String> = args.collect(rt.alloc())?;
    for path in &paths {
        let text = fs::read_to_string(&rt, path.as_str())?;
        play_text(rt, path.as_str(), text.as_str())?;
    }
    Ok(())
}

// Plays the cases of a text, between which a line is empty.
fn play_text(rt: HostRuntime, name: &str, text: &str) -> Result<(), Wrong> {
    let mut cases = 0u64;
    let mut wrong = 0u64;
    for case in text.split("\n\n") {
        let found = answered(rt.alloc(), case)?;
        if case.starts_with("case ") {
            cases = cases.wrapping_add(1);
        }
        if let Some((wanted, is)) = first_difference(case, found.as_str()) {
            wrong = wrong.wrapping_add(1);
            println!(rt; "{name}: {}: '{wanted}' is '{is}'", first_line(case))?;
        }
    }
    println!(rt; "{name}: {cases} cases, {wrong} wrong")?;
    Ok(())
}

// The first line of a case.
fn first_line(case: &str) -> &str {
    case.lines().next().unwrap_or("")
}

// The first line that is another in the second text, and what it is there.
fn first_difference<'a>(wanted: &'a str, found: &'a str) -> Option<(&'a str, &'a str)> {
    if wanted.starts_with("case ") && !wanted.contains("\n> ") {
        return Some(("a case", "without an answer"));
    }
    let mut others = found.lines();
    for line in wanted.lines() {
        let other = others.next().unwrap_or("nothing");
        if line != other {
            return Some((line, other));
        }
    }
    let other = others.next()?;
    Some(("nothing", other))
}
