// The files of a folder that are kept open.
ghost use Rattle.std.specs.Prelude.{◌<ℤ◌, pos};
ghost use Rattle.std.specs.Fd.{file_raw_fd};

use crate::again::again;
use crate::held::Held;
use crate::identity::Identity;
use crate::spelling::name_of;
use blk_addr::BLOCK_FILES;
use blk_io::FileId;
use std::alloc::Global;
use std::fs::{File, Metadata, OpenOptions, Permissions};
use std::io::ErrorKind;
use std::os::fd::AsRawFd;
use std::os::unix::fs::{FileExt, MetadataExt, OpenOptionsExt, PermissionsExt};
use std::rt::Files;
use std::{array, fs, io};

// The descriptors of the standard streams are 0 to this one.
const LAST_STREAM: i32 = 2;

// Only the owner may read and write a file that is made.
const MODE: u32 = 0o600;

// The bits of a mode that say who may do what.
const MODE_BITS: u32 = 0o7777;

/// An open file of the folder. Its descriptor is none of the standard streams', so nothing that is printed gets into it.
///
/// The folder is locked, so the operating system is asked for the file's length as it is opened, and again where a change of it failed.
#[derive(Drop)]
pub struct OpenFile {
    file: File,
    // The length in bytes, where it is known.
    length: Option<u64>,
    ghost above: { pos 2 <ℤ file_raw_fd file },
}

impl OpenFile {
    // The file with its length in bytes, unless it has the descriptor of a standard stream.
    fn new(file: File, length: u64) -> io::Result<Self> {
        if file.as_raw_fd() <= LAST_STREAM {
            return Err(io::Error::from(ErrorKind::Other));
        }
        Ok(OpenFile {
            file,
            length: Some(length),
        })
    }

    /// The file of the operating system. It has the descriptor of no standard stream.
    pub fn file(&self) -> &File
        ensures above { pos 2 <ℤ file_raw_fd result.now }
    {
        &self.file
    }

    /// The length in bytes.
    pub fn length(&mut self) -> io::Result<u64> {
        if let Some(length) = self.length {
            return Ok(length);
        }
        let length = metadata_of(&self.file)?.len();
        self.length = Some(length);
        Ok(length)
    }

    /// Gives it this length in bytes, by a system call unless it is known to have it.
    pub fn set_len(&mut self, length: u64) -> io::Result<()> {
        if self.length == Some(length) {
            return Ok(());
        }
        self.length = None;
        self.file.set_len(length)?;
        self.length = Some(length);
        Ok(())
    }

    /// Writes bytes from a place on. The file is longer then, where they end past its end.
    pub fn write_at(&mut self, at: u64, bytes: &[u8]) -> io::Result<()> {
        let known = self.length.take();
        self.file.write_all_at(bytes, at)?;
        let end = at.saturating_add(bytes.len() as u64);
        self.length = known.map(|length| length.max(end));
        Ok(())
    }
}

// What the operating system says of a file.
fn metadata_of(file: &File) -> io::Result<Metadata> {
    again(|| file.metadata())
}

// The open files: the index, the block files, and the external file that was used last.
#[derive(Drop)]
struct OpenFiles {
    index: Option<OpenFile>,
    // Each block file is at its number.
    blocks: [Option<OpenFile>; BLOCK_FILES],
    external: Option<OpenFile>,
    // The number of the external file.
    number: u32,
}

impl OpenFiles {
    // No open files.
    fn new() -> Self {
        OpenFiles {
            index: None,
            blocks: array::from_fn(|_| None),
            external: None,
            number: 0,
        }
    }

    // The file, where it is open.
    fn get(&self, file: FileId) -> Option<&OpenFile> {
        match file {
            FileId::Index => self.index.as_ref(),
            FileId::Block(n) => self.blocks[usize::from(n)].as_ref(),
            FileId::External(n) if n == self.number => self.external.as_ref(),
            FileId::External(_) => None,
        }
    }

    // The slot of a file, empty where it is not open. Asking for another external file's slot closes the one that is open.
    fn place(&mut self, file: FileId) -> &mut Option<OpenFile> {
        match file {
            FileId::Index => &mut self.index,
            FileId::Block(n) => &mut self.blocks[usize::from(n)],
            FileId::External(n) => {
                if self.number != n {
                    self.number = n;
                    self.external = None;
                }
                &mut self.external
            }
        }
    }
}

/// The folder that the program has, with the files that are open in it. Their names are relative to the folder.
#[derive(Drop)]
pub struct Disk<R: Files<File = File> + Drop> {
    rt: R,
    alloc: Global,
    open: OpenFiles,
    // The lock is released after the open files are closed.
    held: Held,
}

impl<R: Files<File = File> + Drop> Disk<R> {
    /// The folder that the program has, with no open files.
    pub fn new(rt: R, alloc: Global, held: Held) -> Self {
        Disk {
            rt,
            alloc,
            open: OpenFiles::new(),
            held,
        }
    }

    /// A file that is there, which is opened unless it is open: for reading, and for writing too unless the folder is shared.
    ///
    /// It fails where what was opened is not the folder's own file under its name.
    pub fn open(&mut self, file: FileId) -> io::Result<&mut OpenFile> {
        self.check_other(file)?;
        let place = self.open.place(file);
        match place {
            Some(open) => Ok(open),
            None => {
                let name = name_of(self.alloc, file)?;
                let opened = OpenOptions::new()
                    .read(true)
                    .write(self.held.writes())
                    .open(&self.rt, name.as_str())?;
                let metadata = own_metadata(&self.rt, &self.held, name.as_str(), &opened)?;
                Ok(place.insert(OpenFile::new(opened, metadata.len())?))
            }
        }
    }

    /// Makes a file that is not there, with no bytes, which only its owner may read and write. It fails where there is one.
    pub fn create(&mut self, file: FileId) -> io::Result<&mut OpenFile> {
        self.check_other(file)?;
        let name = name_of(self.alloc, file)?;
        let made = OpenOptions::new()
            .read(true)
            .write(self.held.writes())
            .create_new(true)
            .mode(MODE)
            .open(&self.rt, name.as_str())?;
        let metadata = own_metadata(&self.rt, &self.held, name.as_str(), &made)?;
        // The process's umask may have left rights out of the file that it made.
        if metadata.mode() & MODE_BITS != MODE {
            made.set_permissions(Permissions::from_mode(MODE))?;
        }
        let made = OpenFile::new(made, metadata.len())?;
        Ok(self.open.place(file).insert(made))
    }

    /// Removes a file that is there, and closes it. It fails where its name has something else.
    pub fn remove(&mut self, file: FileId) -> io::Result<()> {
        self.check_other(file)?;
        self.check_open(file)?;
        let name = name_of(self.alloc, file)?;
        own_identity(&self.rt, &self.held, name.as_str())?;
        again(|| fs::remove_file(&self.rt, name.as_str()))?;
        *self.open.place(file) = None;
        Ok(())
    }

    /// Asks once more, of each file that is open, whether it is the folder's own under its name.
    ///
    /// It fails where one isn't: what was written to it may not be in the folder.
    pub fn check(&self) -> io::Result<()> {
        self.check_open(FileId::Index)?;
        for number in 0..=u8::MAX {
            self.check_open(FileId::Block(number))?;
        }
        self.check_open(FileId::External(self.open.number))
    }

    // Asks the same of an external file that is closed for this one.
    fn check_other(&self, file: FileId) -> io::Result<()> {
        match file {
            FileId::External(n) if n != self.open.number => {
                self.check_open(FileId::External(self.open.number))
            }
            _ => Ok(()),
        }
    }

    // Asks the same of a file, where it is open.
    fn check_open(&self, file: FileId) -> io::Result<()> {
        let Some(open) = self.open.get(file) else {
            return Ok(());
        };
        let name = name_of(self.alloc, file)?;
        own_metadata(&self.rt, &self.held, name.as_str(), open.file())?;
        Ok(())
    }
}

// What the operating system says of a file that was opened under a name. It fails unless it is a regular file with one name, on the
// folder's device, and the name still has it.
fn own_metadata<R: Files>(rt: &R, held: &Held, name: &str, file: &File) -> io::Result<Metadata> {
    let metadata = metadata_of(file)?;
    let opened = Identity::of(&metadata);
    let named = own_identity(rt, held, name)?;
    if opened.is_own(held.device()) && opened.is_same(&named) {
        Ok(metadata)
    } else {
        Err(io::Error::from(ErrorKind::InvalidData))
    }
}

// What the operating system says of the file that a name has. It fails unless it is a regular file with one name, on the folder's device.
fn own_identity<R: Files>(rt: &R, held: &Held, name: &str) -> io::Result<Identity> {
    // A link is not followed here.
    let named = Identity::of(&again(|| fs::symlink_metadata(rt, name))?);
    if named.is_own(held.device()) {
        Ok(named)
    } else {
        Err(io::Error::from(ErrorKind::InvalidData))
    }
}
