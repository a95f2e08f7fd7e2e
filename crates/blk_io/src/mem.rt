// A folder in memory, which keeps its start files, its files and each step since.
ghost use Rattle.std.specs.Prelude.{◌≡◌, ◌-◌, ◌^◌, ◌<◌, ◌≤◌, [], ◌∷◌, length, min, Some, None, OnOk, OnErr, IfOk, IsSome, is_err};
ghost use Rattle.std.specs.Option.{ForSome, option_map};
ghost use Rattle.spec_image.specs.Image.{HasRange, empty_image, AreBytes};
ghost use Rattle.spec_image.specs.Order.{IsAfter};
ghost use Rattle.spec_image.specs.Steps.{SetLength, Delete, Note, words};
ghost use Rattle.spec_image.specs.Told.{Applies, AppliesPrefix, Stays, Rises, GivesBytes};
ghost use Rattle.blk_io.specs.Faults.{OkFor};
ghost use Rattle.blk_io.specs.FileNames.{file_of, IsNextName};
ghost use Rattle.blk_io.specs.Files.{image_of};
ghost use Rattle.blk_io.specs.Trail.{IsTrailOf, AreBytesAlong, kept_steps};
ghost use Rattle.blk_io.specs.Counts.{no_calls, with_listed, fails_next, CountsCall};

use crate::calls::Calls;
use crate::mem_files::{MemFile, copy_files, length_in, next_file, put_file, read_in};
use crate::mem_trail::{Change, keep, replay, steps_in, word_count};
use crate::{Failed, FileId, Folder, NoMemory};
use std::alloc::Global;

/// A folder in memory. It is observable, with the steps that made its files unless it was made without a write trace.
#[derive(Drop)]
pub struct MemFolder {
    pub(crate) alloc: Global,
    start: Vec<MemFile>,
    pub(crate) files: Vec<MemFile>,
    pub(crate) trail: Option<Vec<Change>>,
    pub(crate) calls: Calls,
    ghost agrees: { IsTrailOf start.items files.items (kept_steps trail) },
    ghost bytes: { AreBytes (image_of files.items) },
    ghost along: { AreBytesAlong start.items (kept_steps trail) },
}

impl MemFolder {
    ghost use Rattle.blk_io.specs.MemFolder.{mem_told, mem_counts, newly_told, told_with_file, BeginsAfter};

    /// An empty folder, which keeps a write trace.
    pub fn new(alloc: Global) -> Self
        ensures told { mem_told result ≡ newly_told empty_image }
        ensures counts { mem_counts result ≡ no_calls }
    {
        MemFolder {
            alloc,
            start: Vec::new(alloc),
            files: Vec::new(alloc),
            trail: Some(Vec::new(alloc)),
            calls: Calls::new(alloc),
        }
    }

    /// An empty folder, which keeps no write trace.
    pub fn without_trail(alloc: Global) -> Self
        ensures told { mem_told result ≡ record { files = Some empty_image; trail = None } }
        ensures counts { mem_counts result ≡ no_calls }
    {
        MemFolder {
            alloc,
            start: Vec::new(alloc),
            files: Vec::new(alloc),
            trail: None,
            calls: Calls::new(alloc),
        }
    }

    /// Adds a file to those at the start, or replaces it there.
    pub fn add_file(&mut self, file: FileId, bytes: &[u8]) -> Result<(), NoMemory>
        requires { ForSome (mem_told self.old).trail (λ trail. trail.steps ≡ []) }
        ensures done { OnOk result (mem_told self.new ≡ told_with_file (file_of file) bytes.now (mem_told self.old)) }
        ensures undone { OnErr result (mem_told self.new ≡ mem_told self.old) }
        ensures counts { mem_counts self.new ≡ mem_counts self.old }
    {
        let one = Vec::from_slice(self.alloc, bytes)?;
        let other = Vec::from_slice(self.alloc, bytes)?;
        self.start.reserve(1)?;
        self.files.reserve(1)?;
        put_file(&mut self.start, file, one);
        put_file(&mut self.files, file, other);
        Ok(())
    }

    /// Lists a call that is to fail, counted from 1, and how many words of it last where it is a write.
    pub fn fail_at(&mut self, call: u64, words: u64) -> Result<(), NoMemory>
        ensures done { OnOk result (mem_counts self.new ≡ with_listed call words (mem_counts self.old)) }
        ensures undone { OnErr result (mem_counts self.new ≡ mem_counts self.old) }
        ensures told { mem_told self.new ≡ mem_told self.old }
    {
        self.calls.list(call, words)
    }

    /// The number of calls of the trait that were made so far.
    pub fn calls(&self) -> u64
        ensures { result ≡ (mem_counts self.now).calls }
    {
        self.calls.made()
    }

    /// The number of calls so far that ran out of memory.
    pub fn lacks(&self) -> u64
        ensures { result ≡ (mem_counts self.now).lacks }
    {
        self.calls.lacks()
    }

    /// The number of steps so far, notes included, or None where no write trace is kept.
    pub fn steps(&self) -> Option<u64>
        ensures { result ≡ option_map (λ trail. min (length trail.steps) (2 ^ 64 - 1)) (mem_told self.now).trail }
    {
        match &self.trail {
            Some(changes) => Some(steps_in(changes)),
            None => None,
        }
    }

    /// A folder that begins with the files after so many steps.
    pub fn image(&self, steps: u64) -> Result<MemFolder, NoMemory>
        requires told { IsSome (mem_told self.now).trail }
        requires within { ForSome (mem_told self.now).trail (λ trail. steps ≤ length trail.steps) }
        ensures told { IfOk result (λ folder. ForSome (mem_told self.now).trail (λ trail. BeginsAfter steps trail folder)) }
        ensures counts { IfOk result (λ folder. mem_counts folder ≡ no_calls) }
    {
        let alloc = self.alloc;
        match &self.trail {
            Some(changes) => {
                let mut files = copy_files(alloc, &self.start)?;
                replay(alloc, &mut files, changes, steps)?;
                let start = copy_files(alloc, &files)?;
                Ok(MemFolder {
                    alloc,
                    start,
                    files,
                    trail: Some(Vec::new(alloc)),
                    calls: Calls::new(alloc),
                })
            }
            None => unreachable!(),
        }
    }
}

impl Folder for MemFolder {
    ghost use Rattle.blk_io.specs.MemFolder.{mem_told, mem_counts, mem_agrees, mem_are_bytes, LastsAsListed};

    ghost told = { mem_told };

    ghost faults = { λ m. m.calls.faults };

    ghost agrees = { mem_agrees };

    ghost are_bytes = { mem_are_bytes };

    fn length(&mut self, file: FileId) -> Result<Option<u64>, Failed>
        ensures length { IfOk result (λ n. ForSome (mem_told self.old).files (λ image. n ≡ option_map length (image (file_of file)))) }
        ensures stays { Stays (mem_told self.old) (mem_told self.new) }
        ensures later { (mem_counts self.old).faults ≤ (mem_counts self.new).faults }
        ensures failed { OnErr result (Rises (mem_counts self.old).faults (mem_counts self.new).faults) }
        ensures counted { CountsCall (mem_counts self.old) (mem_counts self.new) (is_err result) (fails_next (mem_counts self.old)) }

        // The call fails exactly where it is listed, since it takes no memory.
        ensures exact { is_err result ≡ fails_next (mem_counts self.old) }
    {
        self.calls.pass()?;
        Ok(length_in(&self.files, file))
    }

    fn read_at(&mut self, file: FileId, at: u64, out: &mut [u8]) -> Result<usize, Failed>
        ensures within { IfOk result (λ n. n ≤ length out.old) }
        ensures bytes { IfOk result (λ n. ForSome (mem_told self.old).files (λ image. GivesBytes image (file_of file) at out.old out.new n)) }
        ensures stays { Stays (mem_told self.old) (mem_told self.new) }
        ensures later { (mem_counts self.old).faults ≤ (mem_counts self.new).faults }
        ensures failed { OnErr result (Rises (mem_counts self.old).faults (mem_counts self.new).faults) }
        ensures counted { CountsCall (mem_counts self.old) (mem_counts self.new) (is_err result) (fails_next (mem_counts self.old)) }

        // The call fails exactly where it is listed, since it takes no memory, and then leaves `out` as it was.
        ensures exact { is_err result ≡ fails_next (mem_counts self.old) }
        ensures unfilled { OnErr result (out.new ≡ out.old) }
    {
        self.calls.pass()?;
        Ok(read_in(&self.files, file, at, out))
    }

    fn write_at(&mut self, file: FileId, at: u64, bytes: &[u8]) -> Result<(), Failed>
        requires { ForSome (mem_told self.old).files (λ image. HasRange image (file_of file) at (length bytes.now)) }
        ensures steps { OnOk result (Applies (mem_told self.old) (mem_told self.new) (words (file_of file) at bytes.now)) }
        ensures prefix { AppliesPrefix (mem_told self.old) (mem_told self.new) (words (file_of file) at bytes.now) }
        ensures later { (mem_counts self.old).faults ≤ (mem_counts self.new).faults }
        ensures failed { OnErr result (Rises (mem_counts self.old).faults (mem_counts self.new).faults) }
        ensures counted { CountsCall (mem_counts self.old) (mem_counts self.new) (is_err result) (fails_next (mem_counts self.old)) }

        // Where it is listed to fail, the listed number of its words was written.
        ensures lasted { LastsAsListed self.old self.new (words (file_of file) at bytes.now) }
        ensures lacking { (mem_counts self.old).lacks < (mem_counts self.new).lacks → Stays (mem_told self.old) (mem_told self.new) }
    {
        let mut left = word_count(at, bytes);
        self.write_within(&mut left, file, at, bytes)
    }

    fn set_len(&mut self, file: FileId, length: u64) -> Result<(), Failed>
        ensures done { OnOk result (Applies (mem_told self.old) (mem_told self.new) (SetLength (file_of file) length ∷ [])) }
        ensures undone { OnErr result (Stays (mem_told self.old) (mem_told self.new)) }
        ensures later { (mem_counts self.old).faults ≤ (mem_counts self.new).faults }
        ensures failed { OnErr result (Rises (mem_counts self.old).faults (mem_counts self.new).faults) }
        ensures counted { CountsCall (mem_counts self.old) (mem_counts self.new) (is_err result) (fails_next (mem_counts self.old)) }
    {
        self.calls.pass()?;
        match self.resize_told(file, length) {
            Ok(()) => Ok(()),
            Err(_) => Err(self.calls.lack()),
        }
    }

    fn delete(&mut self, file: FileId) -> Result<(), Failed>
        ensures done { OnOk result (Applies (mem_told self.old) (mem_told self.new) (Delete (file_of file) ∷ [])) }
        ensures undone { OnErr result (Stays (mem_told self.old) (mem_told self.new)) }
        ensures later { (mem_counts self.old).faults ≤ (mem_counts self.new).faults }
        ensures failed { OnErr result (Rises (mem_counts self.old).faults (mem_counts self.new).faults) }
        ensures counted { CountsCall (mem_counts self.old) (mem_counts self.new) (is_err result) (fails_next (mem_counts self.old)) }
    {
        self.calls.pass()?;
        match self.remove_told(file) {
            Ok(()) => Ok(()),
            Err(_) => Err(self.calls.lack()),
        }
    }

    fn list(&mut self, after: Option<FileId>) -> Result<Option<FileId>, Failed>
        ensures after { IfOk result (λ next. ForSome next (λ file. IsAfter (option_map file_of after) (file_of file))) }
        ensures next { OkFor result (mem_told self.old) (IsNextName after) }
        ensures stays { Stays (mem_told self.old) (mem_told self.new) }
        ensures later { (mem_counts self.old).faults ≤ (mem_counts self.new).faults }
        ensures failed { OnErr result (Rises (mem_counts self.old).faults (mem_counts self.new).faults) }
        ensures counted { CountsCall (mem_counts self.old) (mem_counts self.new) (is_err result) (fails_next (mem_counts self.old)) }

        // The call fails exactly where it is listed, since it takes no memory.
        ensures exact { is_err result ≡ fails_next (mem_counts self.old) }
    {
        self.calls.pass()?;
        Ok(next_file(&self.files, after))
    }

    fn note(&mut self, answered: u64) -> Result<(), Failed>
        ensures done { OnOk result (Applies (mem_told self.old) (mem_told self.new) (Note answered ∷ [])) }
        ensures undone { OnErr result (Stays (mem_told self.old) (mem_told self.new)) }
        ensures later { (mem_counts self.old).faults ≤ (mem_counts self.new).faults }
        ensures failed { OnErr result (Rises (mem_counts self.old).faults (mem_counts self.new).faults) }
        ensures counted { CountsCall (mem_counts self.old) (mem_counts self.new) (is_err result) (fails_next (mem_counts self.old)) }
    {
        self.calls.pass()?;
        match keep(&mut self.trail, Change::Noted(answered)) {
            Ok(()) => Ok(()),
            Err(_) => Err(self.calls.lack()),
        }
    }
}
