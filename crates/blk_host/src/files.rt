// The cache files of a folder of the file system.
ghost use Rattle.std.specs.Prelude.{◌≡◌, ◌≤◌, false, IsTrue, Ok, IfOk, OnOk, OnErr, length};
ghost use Rattle.blk_io.specs.declared.folder.FileId.{FileId};
ghost use Rattle.blk_host.specs.FileIds.{is_file};
ghost use Rattle.blk_host.specs.Names.{has, IsLeastName};
ghost use Rattle.std.specs.Option.{ForSome, is_some};
ghost use Rattle.blk_host.specs.FileIds.{ComesAfter};

use crate::again::{again, read_again};
use crate::disk::Disk;
use crate::held::Held;
use crate::identity::Identity;
use crate::names::Names;
use crate::spelling::file_of_name;
use blk_io::FileId;
use std::alloc::{AllocError, Global};
use std::fs::{File, OpenFile, OpenOptions};
use std::io::{ErrorKind, Read};
use std::os::unix::fs::FileExt;
use std::rt::Files;
use std::{fs, io};

/// The cache files of a folder: their names, and the folder that they are in.
#[derive(Drop)]
pub struct DiskFiles<R: Files<File = File> + Drop> {
    names: Names,
    disk: Disk<R>,
}

impl<R: Files<File = File> + AllocGlobal + Clone + Drop> DiskFiles<R> {
    /// The files of the folder that the program has, whose names are read here and never again.
    ///
    /// It fails where a cache file's name belongs to something else than a regular file of the folder's device that has
    /// one name. No file is opened.
    pub fn new(rt: R, alloc: Global, held: Held) -> io::Result<Self> {
        let names = again(|| read_names(&rt, alloc, &held))?;
        Ok(DiskFiles {
            names,
            disk: Disk::new(rt, alloc, held),
        })
    }
}

// The names of the cache files in the folder, each of a file that can be one.
fn read_names<R: Files + AllocGlobal + Clone + Drop>(
    rt: &R,
    alloc: Global,
    held: &Held,
) -> io::Result<Names> {
    let mut names = Names::new(alloc);
    for entry in fs::read_dir(rt, ".")? {
        let entry = match entry {
            Ok(entry) => entry,
            // No cache file has a name that is not UTF-8.
            Err(error) if error.kind() == ErrorKind::InvalidFilename => continue,
            Err(error) => return Err(error),
        };
        if let Some(file) = file_of_name(alloc, entry.file_name())? {
            // A link is not followed here.
            if !Identity::of(&entry.metadata()?).is_own(held.device()) {
                return Err(io::Error::from(ErrorKind::InvalidData));
            }
            names.add(file)?;
        }
    }
    Ok(names)
}

impl<R: Files<File = File> + Drop> DiskFiles<R> {
    /// The file's length in bytes, or None where there is no such file.
    pub fn length(&mut self, file: FileId) -> io::Result<Option<u64>>
        ensures there { IfOk result (λ length. is_some length ≡ has self.old.names file) }
        ensures names { self.new.names ≡ self.old.names }
    {
        if !self.names.has(file) {
            return Ok(None);
        }
        Ok(Some(self.disk.open(file)?.length()?))
    }

    /// Moves the file's bytes from a place on into a prefix of `out`, as many as there are, and gives their number.
    pub fn read_at(&mut self, file: FileId, at: u64, out: &mut [u8]) -> io::Result<usize>
        ensures within { IfOk result (λ n. n ≤ length out.old) }
        ensures none { has self.old.names file ≡ false → result ≡ Ok 0 }
        ensures names { self.new.names ≡ self.old.names }
    {
        if !self.names.has(file) {
            return Ok(0);
        }
        read_from(self.disk.open(file)?.file(), at, out)
    }

    /// Writes the bytes over those of the file from a place on.
    pub fn write_at(&mut self, file: FileId, at: u64, bytes: &[u8]) -> io::Result<()>
        ensures { self.new.names ≡ self.old.names }
    {
        self.disk.open(file)?.write_at(at, bytes)
    }

    /// Gives the file this length, and makes it where there is none.
    pub fn set_len(&mut self, file: FileId, length: u64) -> io::Result<()>
        ensures there { OnOk result (IsTrue (has self.new.names file)) }
        ensures others { (other : FileId) → is_file other file ≡ false → has self.new.names other ≡ has self.old.names other }
    {
        if self.names.has(file) {
            return self.disk.open(file)?.set_len(length);
        }
        self.names.add(file)?;
        match self.disk.create(file) {
            Ok(open) => open.set_len(length),
            Err(error) => {
                self.names.remove(file);
                Err(error)
            }
        }
    }

    /// Removes the file, if it is there, and closes it.
    pub fn delete(&mut self, file: FileId) -> io::Result<()>
        ensures gone { OnOk result (has self.new.names file ≡ false) }
        ensures others { (other : FileId) → is_file other file ≡ false → has self.new.names other ≡ has self.old.names other }
        ensures undone { OnErr result (self.new.names ≡ self.old.names) }
    {
        if !self.names.has(file) {
            return Ok(());
        }
        self.disk.remove(file)?;
        self.names.remove(file);
        Ok(())
    }

    /// Asks whether each file that is open still is the folder's own under its name, and fails where one isn't.
    pub fn check(&self) -> io::Result<()> {
        self.disk.check()
    }

    /// The least of the files after this one, or the least of all.
    pub fn next(&self, after: Option<FileId>) -> Option<FileId>
        ensures after { ForSome result (ComesAfter after) }
        ensures least { IsLeastName self.now.names (ComesAfter after) result }
    {
        self.names.next(after)
    }
}

// The bytes of a file from a place on, as a reader.
#[derive(Drop)]
struct Rest<'a> {
    file: &'a File,
    at: u64,
}

impl Read for Rest<'_> {
    fn read(&mut self, buf: &mut [u8]) -> io::Result<usize> {
        self.file.read_at(buf, self.at)
    }
}

// Moves the bytes of a file from a place on into a prefix of `out`, as many as there are.
fn read_from(file: &File, at: u64, out: &mut [u8]) -> io::Result<usize>
    ensures { IfOk result (λ n. n ≤ length out.old) }
{
    let mut done = 0;
    while done < out.len() {
        let mut rest = Rest {
            file,
            at: at.saturating_add(done as u64),
        };
        let n = read_again(&mut rest, &mut out[done..])?;
        if n == 0 {
            break;
        }
        done += n;
    }
    Ok(done)
}
