// Folders of the file system, each of a test's own, and what is written there and read.
use blk_host::{Access, Held, NotHeld, RealFolder, SystemClock};
use blk_io::{Clock, Failed, FileId, Folder};
use std::io::ErrorKind;
use std::time::Duration;
use std::{env, fs, io};

/// A folder of the file system.
pub type Machine = RealFolder<HostRuntime>;

/// The least external file.
pub const LOW: FileId = FileId::External(1);

/// The greatest external file.
pub const HIGH: FileId = FileId::External(268_435_455);

/// A new folder of this test's own.
pub fn new_folder(rt: HostRuntime, name: &str) -> io::Result<String> {
    let alloc = rt.alloc();
    let moment = SystemClock::new(rt).now();
    let parent = env::temp_dir(&rt)?;
    let parent = parent.as_str();
    let path = format!(in alloc; "{parent}/blk_host_{name}_{moment}")?;
    fs::create_dir(&rt, path.as_str())?;
    Ok(path)
}

/// The folder at a path, locked so, or an error where it can't be locked at once.
pub fn take(rt: HostRuntime, path: &str, access: Access) -> Result<Held, NotHeld> {
    Held::take(&rt, path, access, Duration::ZERO)
}

/// The folder at a path, whose names are read now.
pub fn look(rt: HostRuntime, path: &str) -> io::Result<Machine> {
    match take(rt, path, Access::Alone) {
        Ok(held) => RealFolder::new(rt, rt.alloc(), held),
        Err(NotHeld::Machine(error)) => Err(error),
        Err(NotHeld::Elsewhere) => Err(io::Error::from(ErrorKind::WouldBlock)),
    }
}

/// Gives four files a length and bytes, of which one is written over and one is cut.
pub fn write_four(folder: &mut Machine) -> Result<(), Failed> {
    for file in [HIGH, FileId::Block(255), LOW, FileId::Index] {
        folder.set_len(file, 6)?;
        folder.write_at(file, 2, b"abc")?;
    }
    folder.write_at(HIGH, 0, b"zyxwvu")?;
    folder.set_len(FileId::Index, 4)
}

/// How many bytes a read gives, and a buffer of nines after it.
pub fn read(folder: &mut Machine, file: FileId, at: u64) -> Result<(usize, [u8; 8]), Failed> {
    let mut out = [9; 8];
    let n = folder.read_at(file, at, &mut out)?;
    Ok((n, out))
}
