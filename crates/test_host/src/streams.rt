// The streams of the operating system, and its clock.
ghost use Rattle.std.specs.Prelude.{◌≤◌, IfOk};

use crate::same::assert_same;
use blk_host::{Patient, StdSink, StdSource, SystemClock};
use blk_io::{Clock, Failed, Sink, Source};
use std::io::{self, ErrorKind, Read, Write};

// A stream of the operating system that gives and takes two bytes in a call, and has an error of a kind in the third call.
#[derive(Drop)]
struct Halting {
    calls: u64,
    kind: ErrorKind,
}

impl Halting {
    fn new(kind: ErrorKind) -> Self {
        Halting { calls: 0, kind }
    }
}

impl Halting {
    fn count(&mut self, length: usize) -> io::Result<usize>
        ensures { IfOk result (λ n. n ≤ length) }
    {
        self.calls = self.calls.saturating_add(1);
        if self.calls == 3 {
            return Err(io::Error::from(self.kind));
        }
        Ok(length.min(2))
    }
}

impl Read for Halting {
    fn read(&mut self, buf: &mut [u8]) -> io::Result<usize> {
        self.count(buf.len())
    }
}

impl Write for Halting {
    fn write(&mut self, buf: &[u8]) -> io::Result<usize> {
        self.count(buf.len())
    }

    fn flush(&mut self) -> io::Result<()> {
        Ok(())
    }
}

// The answers of four takes of three bytes.
fn takes<S: Source>(source: &mut S) -> [Result<usize, Failed>; 4] {
    let mut out = [0; 3];
    let mut answers = [Ok(0); 4];
    for answer in &mut answers {
        *answer = source.take(&mut out);
    }
    answers
}

// The answers of three puts of three bytes.
fn puts<K: Sink>(sink: &mut K) -> [Result<(), Failed>; 3] {
    let mut answers = [Ok(()); 3];
    for answer in &mut answers {
        *answer = sink.put(b"abc");
    }
    answers
}

#[test]
fn a_stream_that_fails_once_is_answered_once(rt: HostRuntime) {
    let mut source = StdSource::new(Halting::new(ErrorKind::BrokenPipe));
    assert_same(&rt, takes(&mut source), [Ok(2), Ok(2), Err(Failed), Ok(2)]);
    let mut sink = StdSink::new(Halting::new(ErrorKind::BrokenPipe));
    assert_same(&rt, puts(&mut sink), [Ok(()), Err(Failed), Ok(())]);
}

#[test]
fn a_stream_that_is_interrupted_goes_on(rt: HostRuntime) {
    let mut source = StdSource::new(Halting::new(ErrorKind::Interrupted));
    assert_same(&rt, takes(&mut source), [Ok(2); 4]);
    let mut sink = StdSink::new(Halting::new(ErrorKind::Interrupted));
    assert_same(&rt, puts(&mut sink), [Ok(()); 3]);
}

#[test]
fn a_stream_that_would_block_is_waited_for(rt: HostRuntime) {
    let mut source = StdSource::new(Patient::new(Halting::new(ErrorKind::WouldBlock), rt));
    assert_same(&rt, takes(&mut source), [Ok(2); 4]);
    let mut sink = StdSink::new(Patient::new(Halting::new(ErrorKind::WouldBlock), rt));
    assert_same(&rt, puts(&mut sink), [Ok(()); 3]);
    let mut sink = StdSink::new(Patient::new(Halting::new(ErrorKind::BrokenPipe), rt));
    assert_same(&rt, puts(&mut sink), [Ok(()), Err(Failed), Ok(())]);
}

#[test]
fn the_clock_is_past_2020(rt: HostRuntime) {
    assert!(rt; SystemClock::new(rt).now() > 1_577_836_800_000_000);
}
