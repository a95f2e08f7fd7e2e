// Streams of the operating system that are asked not to block.
ghost use Rattle.std.specs.Prelude.{◌≡◌, ◌≢◌, ◌≤◌, IfOk, IfErr, IfSome, IfNone, IsErrAnd, length};
ghost use Rattle.std.specs.IoError.{error_kind};
ghost use Rattle.std.specs.Io.KnownBytes.{ReadConsumes, WriteAppends};

use crate::again::{read_again, write_again};
use std::io::{ErrorKind, Read, Write};
use std::rt::Clock;
use std::time::Duration;
use std::{io, thread};

// The longest sleep between two tries, in milliseconds.
const LONGEST: u64 = 20;

/// A reader or a writer of the operating system that waits as a blocking one does, also where it was made not to block.
///
/// A call that would have to block is made again, after a sleep of 1 ms that doubles up to 20 ms; one that a signal
/// interrupts is made again at once.
#[derive(Drop)]
pub struct Patient<T: Drop, R: Clock + Drop> {
    stream: T,
    rt: R,
}

impl<T: Drop, R: Clock + Drop> Patient<T, R> {
    /// The stream, with the clock that it sleeps by.
    pub fn new(stream: T, rt: R) -> Self {
        Patient { stream, rt }
    }
}

impl<T: Read + Drop, R: Clock + Drop> Read for Patient<T, R> {
    ghost remaining = { λ patient. T.remaining patient.stream };

    fn read(&mut self, buf: &mut [u8]) -> io::Result<usize> {
        read_patiently(&mut self.stream, &self.rt, buf)
    }
}

impl<T: Write + Drop, R: Clock + Drop> Write for Patient<T, R> {
    ghost contents = { λ patient. T.contents patient.stream };

    fn write(&mut self, buf: &[u8]) -> io::Result<usize> {
        write_patiently(&mut self.stream, &self.rt, buf)
    }

    fn flush(&mut self) -> io::Result<()> {
        self.stream.flush()
    }
}

// Reads once, and again after a sleep as long as the stream would block.
fn read_patiently<T: Read, R: Clock>(input: &mut T, rt: &R, out: &mut [u8]) -> io::Result<usize>
    ensures within { IfOk result (λ n. n ≤ length out.old) }
    ensures bytes { ReadConsumes (T.remaining input.old) (T.remaining input.new) result out.new }
    ensures retried { IfErr result (λ error. error_kind error ≢ ErrorKind.Interrupted) }
    ensures waited { IfErr result (λ error. error_kind error ≢ ErrorKind.WouldBlock) }
{
    for turn in 0..u64::MAX {
        if let Some(answer) = unless_blocked(read_again(input, out)) {
            return answer;
        }
        thread::sleep(rt, pause(turn));
    }
    Err(io::Error::from(ErrorKind::TimedOut))
}

// Writes once, and again after a sleep as long as the stream would block.
fn write_patiently<T: Write, R: Clock>(output: &mut T, rt: &R, bytes: &[u8]) -> io::Result<usize>
    ensures within { IfOk result (λ n. n ≤ length bytes.now) }
    ensures bytes { WriteAppends (T.contents output.old) (T.contents output.new) result bytes.now }
    ensures retried { IfErr result (λ error. error_kind error ≢ ErrorKind.Interrupted) }
    ensures waited { IfErr result (λ error. error_kind error ≢ ErrorKind.WouldBlock) }
{
    for turn in 0..u64::MAX {
        if let Some(answer) = unless_blocked(write_again(output, bytes)) {
            return answer;
        }
        thread::sleep(rt, pause(turn));
    }
    Err(io::Error::from(ErrorKind::TimedOut))
}

// The answer of a call, or None where the stream would block.
fn unless_blocked(answer: io::Result<usize>) -> Option<io::Result<usize>>
    ensures same { IfSome result (λ given. given ≡ answer) }
    ensures whole { IfSome result (λ given. IfErr given (λ error. error_kind error ≢ ErrorKind.WouldBlock)) }
    ensures blocked { IfNone result (IsErrAnd answer (λ error. error_kind error ≡ ErrorKind.WouldBlock)) }
{
    match answer {
        Err(error) if error.kind() == ErrorKind::WouldBlock => None,
        answer => Some(answer),
    }
}

// How long to sleep after a number of tries: 1 ms, then twice as long each time, up to the longest sleep.
fn pause(turn: u64) -> Duration {
    let doubled = 1u64.checked_shl(turn.min(10) as u32).unwrap_or(LONGEST);
    Duration::from_millis(doubled.min(LONGEST))
}
