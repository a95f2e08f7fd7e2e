// The folder that the program works in, and the lock by which it has it.
ghost use Rattle.std.specs.Prelude.{◌≡◌, ◌↔◌, IsTrue, IfOk, None, Some};
ghost use Rattle.std.specs.declared.fs.locks.TryLockError.TheVariants as answer;
ghost use Rattle.std.specs.declared.io.Error.{Error};
ghost use Rattle.blk_host.specs.Holding.{HasNoLocks};

use crate::again::again;
use std::fmt::{self, Display, Formatter};
use std::fs::{File, TryLockError};
use std::io::ErrorKind;
use std::os::unix::fs::MetadataExt;
use std::rt::{Clock, Env, Files};
use std::time::{Duration, Instant};
use std::{env, error, io, thread};

// How many milliseconds the program sleeps between two tries at a lock that another one has.
const PAUSE: u64 = 50;

// The number of the error of a file system with no space for locks (ENOLCK). It has no kind of its own.
const NO_LOCKS: i32 = 37;

/// How a program has a folder.
#[derive(Clone, Copy, Debug, PartialEq, Eq)]
pub enum Access {
    /// For itself: it reads and writes.
    Alone,
    /// Beside others that only read, as it does.
    Shared,
}

/// Why a program does not have a folder.
#[derive(Debug, Drop)]
pub enum NotHeld {
    /// Another program has it.
    Elsewhere,
    /// A system call failed.
    Machine(io::Error),
}

impl From<io::Error> for NotHeld {
    fn from(error: io::Error) -> Self {
        NotHeld::Machine(error)
    }
}

impl Display for NotHeld {
    fn fmt<W: fmt::Write>(&self, f: &mut Formatter<W>) -> fmt::Result {
        match self {
            NotHeld::Elsewhere => f.write_str("another program has the folder"),
            NotHeld::Machine(error) => Display::fmt(error, f),
        }
    }
}

impl error::Error for NotHeld {}

/// The folder that the program works in, locked until this value is dropped. All names of files are relative to it.
///
/// The fields are private and `take` alone makes one, so who has a `Held` has asked for the lock and was not refused.
/// A program takes one folder: a second one changes the working directory, and the names of the first are looked for in the second.
#[derive(Drop)]
pub struct Held {
    // The folder, opened. The lock is on it and is released with it.
    folder: File,
    access: Access,
    // The number of the folder's device.
    device: u64,
}

impl Held {
    /// Changes the working directory to the folder at a path, and locks it. The lock is advisory: it holds off programs that ask for it.
    ///
    /// Where another program has the folder it is tried again every 50 ms until that time has passed. A folder on a file
    /// system without locks is acquired without one.
    ///
    /// # Errors
    /// `Elsewhere` where another program has the folder to the end of that time; `Machine` where a system call fails.
    pub fn take<R: Files<File = File> + Env + Clock>(
        rt: &R,
        path: &str,
        access: Access,
        wait: Duration,
    ) -> Result<Held, NotHeld>
        ensures { IfOk result (λ held. held.access ≡ access) }
    {
        again(|| env::set_current_dir(rt, path))?;
        let folder = File::open(rt, ".")?;
        lock_within(rt, &folder, access, wait)?;
        let device = again(|| folder.metadata())?.dev();
        Ok(Held {
            folder,
            access,
            device,
        })
    }

    /// Whether files are opened for writing too.
    pub fn writes(&self) -> bool
        ensures { IsTrue result ↔ (self.now.access ≡ Access.Alone) }
    {
        match self.access {
            Access::Alone => true,
            Access::Shared => false,
        }
    }

    /// The number of the folder's device.
    pub fn device(&self) -> u64
        ensures { result ≡ self.now.device }
    {
        self.device
    }
}

// Locks the folder. While another program has it, it is tried again until that time has passed.
fn lock_within<R: Clock>(
    rt: &R,
    folder: &File,
    access: Access,
    wait: Duration,
) -> Result<(), NotHeld> {
    match lock(folder, access) {
        Err(NotHeld::Elsewhere) if !wait.is_zero() => wait_for(rt, folder, access, wait),
        answer => answer,
    }
}

// Tries again and again to lock the folder, until that time has passed.
fn wait_for<R: Clock>(
    rt: &R,
    folder: &File,
    access: Access,
    wait: Duration,
) -> Result<(), NotHeld> {
    let start = Instant::now(rt)?;
    for _ in 0..u64::MAX {
        let left = wait.saturating_sub(start.elapsed(rt)?);
        if left.is_zero() {
            break;
        }
        thread::sleep(rt, left.min(Duration::from_millis(PAUSE)));
        match lock(folder, access) {
            Err(NotHeld::Elsewhere) => {}
            answer => return answer,
        }
    }
    Err(NotHeld::Elsewhere)
}

// Tries once to lock the folder. Where its file system has no locks none is taken, and the answer is an Ok.
fn lock(folder: &File, access: Access) -> Result<(), NotHeld> {
    let answer = match access {
        Access::Alone => folder.try_lock(),
        Access::Shared => folder.try_lock_shared(),
    };
    match answer.err().and_then(refusal) {
        Some(refusal) => Err(refusal),
        None => Ok(()),
    }
}

// Why a folder is not had whose lock was refused, or None where its file system has no locks.
fn refusal(error: TryLockError) -> Option<NotHeld>
    ensures elsewhere { error ≡ answer.WouldBlock → result ≡ Some NotHeld.Elsewhere }
    ensures unlocked { (e : Error) → error ≡ answer.Error e → HasNoLocks e → result ≡ None }
    ensures machine { (e : Error) → error ≡ answer.Error e → (HasNoLocks e → ⊥) → result ≡ Some (NotHeld.Machine e) }
{
    match error {
        TryLockError::WouldBlock => Some(NotHeld::Elsewhere),
        TryLockError::Error(error) if has_no_locks(&error) => None,
        TryLockError::Error(error) => Some(NotHeld::Machine(error)),
    }
}

// Whether the error says that the file system has no locks.
fn has_no_locks(error: &io::Error) -> bool
    ensures { IsTrue result ↔ HasNoLocks error.now }
{
    error.kind() == ErrorKind::Unsupported || error.raw_os_error() == Some(NO_LOCKS)
}
