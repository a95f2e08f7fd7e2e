// What takes the place of standard streams that were closed when the program began.
ghost use Rattle.std.specs.Prelude.{◌≡◌, IfOk, IfSome, pos};
ghost use Rattle.std.specs.Fd.{file_raw_fd};
ghost use Rattle.std.specs.Option.{ForSome};

use std::fs::{File, OpenOptions};
use std::io;
use std::io::ErrorKind;
use std::os::fd::{AsFd, AsRawFd};

/// Files that hold the descriptors of closed standard streams, so that no file that is opened later gets them.
///
/// Each is `/dev/null`, opened the wrong way round: a read of the input fails, and so does a write to an output.
#[derive(Drop)]
pub struct StandIns {
    input: Option<File>,
    output: Option<File>,
    errors: Option<File>,
}

impl StandIns {
    /// Fills the descriptors of the standard streams that are closed. They are held until the value is dropped.
    pub fn new(rt: HostRuntime) -> io::Result<Self>
        ensures input { IfOk result (λ held. ForSome held.input (λ file. file_raw_fd file ≡ pos 0)) }
        ensures output { IfOk result (λ held. ForSome held.output (λ file. file_raw_fd file ≡ pos 1)) }
        ensures errors { IfOk result (λ held. ForSome held.errors (λ file. file_raw_fd file ≡ pos 2)) }
    {
        let mut unread = OpenOptions::new();
        unread.write(true);
        let mut unwritten = OpenOptions::new();
        unwritten.read(true);
        Ok(StandIns {
            input: stand_in(rt, &rt.stdin(), &unread)?,
            output: stand_in(rt, &rt.stdout(), &unwritten)?,
            errors: stand_in(rt, &rt.stderr(), &unwritten)?,
        })
    }
}

// A file that has the descriptor of the stream, or None where the stream is open.
fn stand_in<S: AsFd + AsRawFd>(
    rt: HostRuntime,
    stream: &S,
    how: &OpenOptions,
) -> io::Result<Option<File>>
    ensures { IfOk result (λ held. ForSome held (λ file. IfSome (S.AsRawFd.raw_fd stream.now) (λ fd. file_raw_fd file ≡ fd))) }
{
    if is_open(stream) {
        return Ok(None);
    }
    // The operating system gives the least descriptor that is free.
    let file = how.open(&rt, "/dev/null")?;
    if file.as_raw_fd() == stream.as_raw_fd() {
        Ok(Some(file))
    } else {
        Err(io::Error::from(ErrorKind::Other))
    }
}

// Whether the stream is open: only an open descriptor can be doubled.
fn is_open<S: AsFd>(stream: &S) -> bool {
    stream.as_fd().try_clone_to_owned().is_ok()
}
