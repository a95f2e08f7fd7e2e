// What the program is given: its arguments and two variables of the environment.
ghost use Rattle.std.specs.Prelude.{◌≡◌, ◌≢◌, false, Some, []};
ghost use Rattle.std.specs.Option.{option_and_then};
ghost use Rattle.std.specs.Result.{result_ok};
ghost use Rattle.blk_script.specs.Line.{count_field};
ghost use Rattle.blkcache.specs.Variables.{switch_of};

use blk_script::read_count;
use std::env::VarError;
use std::io::ErrorKind;
use std::time::Duration;
use std::{env, io};

// The variable that says how many seconds to wait for a folder that another program has.
const WAIT: &str = "BLKCACHE_WAIT";

// The variable that says whether what is removed is overwritten.
const ERASE: &str = "BLKCACHE_ERASE";

/// What the program is given.
#[derive(Drop)]
pub struct Given {
    /// The folder's path.
    pub path: String,
    /// The arguments after it.
    pub words: Vec<String>,
    /// How long to wait for the folder while another program has it.
    pub wait: Duration,
    /// Whether what is removed is overwritten by zeros.
    pub erases: bool,
}

/// What the program is given, or `None` where there is no path, an argument is not UTF-8, or a variable has a value that isn't
/// allowed.
///
/// # Errors
/// Out of memory.
pub fn read_given(rt: HostRuntime) -> io::Result<Option<Given>> {
    let mut args = match env::args(&rt) {
        Ok(args) => args,
        Err(error) if error.kind() == ErrorKind::InvalidData => return Ok(None),
        Err(error) => return Err(error),
    };
    let _program = args.next();
    let Some(path) = args.next() else {
        return Ok(None);
    };
    let (Some(wait), Some(erases)) = (read_wait(rt)?, read_erases(rt)?) else {
        return Ok(None);
    };
    let words = args.collect(rt.alloc())?;
    Ok(Some(Given {
        path,
        words,
        wait,
        erases,
    }))
}

// How long to wait, or None where the variable has no number of seconds. No time where it is unset.
fn read_wait(rt: HostRuntime) -> io::Result<Option<Duration>> {
    match env::var(&rt, WAIT) {
        Ok(text) => Ok(number_in(text.as_bytes()).map(Duration::from_secs)),
        Err(error) => unless_absent(error, Duration::ZERO),
    }
}

// Whether to erase, or None where the variable has neither 0 nor 1 nor an empty text. No where it is unset.
fn read_erases(rt: HostRuntime) -> io::Result<Option<bool>> {
    match env::var(&rt, ERASE) {
        Ok(text) => Ok(switch_in(text.as_bytes())),
        Err(error) => unless_absent(error, false),
    }
}

// The default of a variable where it is unset. One that is not UTF-8 has a value that isn't allowed.
fn unless_absent<T: Drop>(error: VarError, absent: T) -> io::Result<Option<T>> {
    match error {
        VarError::NotPresent => Ok(Some(absent)),
        VarError::NotUnicode => Ok(None),
        VarError::OutOfMemory => Err(io::Error::from(ErrorKind::OutOfMemory)),
    }
}

// Whether a text says yes, which is 1, or no, which is 0 or an empty text.
fn switch_in(text: &[u8]) -> Option<bool>
    ensures empty { text.now ≡ [] → result ≡ Some false }
    ensures number { text.now ≢ [] → result ≡ option_and_then switch_of (result_ok (count_field text.now)) }
{
    let number = number_in(text)?;
    if number == 0 {
        return Some(false);
    }
    if number == 1 { Some(true) } else { None }
}

// The number in a text: 0 in an empty one, else as the arguments spell it.
fn number_in(text: &[u8]) -> Option<u64>
    ensures empty { text.now ≡ [] → result ≡ Some 0 }
    ensures number { text.now ≢ [] → result ≡ result_ok (count_field text.now) }
{
    if text.is_empty() {
        Some(0)
    } else {
        read_count(text).ok()
    }
}
