// A folder of the file system, which is opaque.
ghost use Rattle.std.specs.Prelude.{◌<◌, Ok, length};

use crate::faults::counted;
use crate::files::DiskFiles;
use crate::held::Held;
use blk_io::{Failed, FileId, Folder};
use std::alloc::Global;
use std::fs::File;
use std::io;
use std::rt::Files;

/// A folder of the file system, which counts the failed system calls.
///
/// It is made of a `Held` alone and keeps it to its end. So no name is read and no file is opened before the lock was asked for, and none
/// after it is released.
#[derive(Drop)]
pub struct RealFolder<R: Files<File = File> + Drop> {
    files: DiskFiles<R>,
    faults: u64,
}

impl<R: Files<File = File> + AllocGlobal + Clone + Drop> RealFolder<R> {
    /// The folder that the program has, whose names are read here and never again. Its files are opened for writing too, unless it is
    /// shared.
    ///
    /// # Errors
    /// The operating system's, and `InvalidData` where a cache file's name belongs to something else than a regular file of the folder's
    /// device that has one name. No file has been opened then.
    pub fn new(rt: R, alloc: Global, held: Held) -> io::Result<Self> {
        Ok(RealFolder {
            files: DiskFiles::new(rt, alloc, held)?,
            faults: 0,
        })
    }

    /// Closes the files and releases the folder's lock.
    ///
    /// The names of the files that are open are asked once more: that of an external file was asked when another took its place.
    ///
    /// # Errors
    /// The operating system's, and `InvalidData` where a file that is open is no longer the folder's own under its name: it was removed,
    /// moved, replaced or given a second name meanwhile, so what was written may not be in the folder.
    pub fn close(self) -> io::Result<()> {
        self.files.check()
    }
}

impl<R: Files<File = File> + Drop> Folder for RealFolder<R> {
    ghost use Rattle.blk_io.specs.Untold.{untold, untold_agrees, untold_bytes};

    ghost told = { λ _. untold };

    ghost faults = { λ folder. folder.faults };

    ghost agrees = { λ folder. untold_agrees };

    ghost are_bytes = { λ folder. untold_bytes };

    fn length(&mut self, file: FileId) -> Result<Option<u64>, Failed> {
        counted(self.files.length(file), &mut self.faults)
    }

    fn read_at(&mut self, file: FileId, at: u64, out: &mut [u8]) -> Result<usize, Failed> {
        counted(self.files.read_at(file, at, out), &mut self.faults)
    }

    fn write_at(&mut self, file: FileId, at: u64, bytes: &[u8]) -> Result<(), Failed> {
        counted(self.files.write_at(file, at, bytes), &mut self.faults)
    }

    fn set_len(&mut self, file: FileId, length: u64) -> Result<(), Failed> {
        counted(self.files.set_len(file, length), &mut self.faults)
    }

    fn delete(&mut self, file: FileId) -> Result<(), Failed> {
        counted(self.files.delete(file), &mut self.faults)
    }

    fn list(&mut self, after: Option<FileId>) -> Result<Option<FileId>, Failed> {
        Ok(self.files.next(after))
    }

    fn note(&mut self, _answered: u64) -> Result<(), Failed> {
        Ok(())
    }
}
