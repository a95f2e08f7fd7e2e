// The names of a folder's cache files, in order.
ghost use Rattle.std.specs.Prelude.{◌≡◌, ◌&&◌, ◌||◌, not, true, false, OnOk, OnErr};
ghost use Rattle.std.specs.BTreeSet.{contains};
ghost use Rattle.std.specs.Option.{ForSome};
ghost use Rattle.blk_io.specs.declared.folder.FileId.{FileId};
ghost use Rattle.blk_host.specs.FileIds.{is_file};
ghost use Rattle.blk_host.specs.FileIds.{ComesAfter};

use blk_io::FileId;
use std::alloc::{AllocError, Global};
use std::collections::BTreeSet;
use std::ops::Bound;

/// The cache files that a folder has, by name.
#[derive(Drop)]
pub struct Names {
    index: bool,
    blocks: BTreeSet<u8>,
    externals: BTreeSet<u32>,
}

impl Names {
    ghost use Rattle.blk_host.specs.Names.{has, IsLeastName, IsBlockFrom, IsExternalFrom};
    ghost use Rattle.blk_host.specs.Numbers.{IsLeastNumber};

    /// No names.
    pub fn new(alloc: Global) -> Self
        ensures { (file : FileId) → has result file ≡ false }
    {
        Names {
            index: false,
            blocks: BTreeSet::new(alloc),
            externals: BTreeSet::new(alloc),
        }
    }

    /// Whether the folder has the file.
    pub fn has(&self, file: FileId) -> bool
        ensures { result ≡ has self.now file }
    {
        match file {
            FileId::Index => self.index,
            FileId::Block(n) => self.blocks.contains(&n),
            FileId::External(n) => self.externals.contains(&n),
        }
    }

    /// Adds a name, unless it is there.
    pub fn add(&mut self, file: FileId) -> Result<(), AllocError>
        ensures added { OnOk result ((other : FileId) → has self.new other ≡ (is_file other file || has self.old other)) }
        ensures unchanged { OnErr result ((other : FileId) → has self.new other ≡ has self.old other) }
    {
        match file {
            FileId::Index => self.index = true,
            FileId::Block(n) => {
                self.blocks.insert(n)?;
            }
            FileId::External(n) => {
                self.externals.insert(n)?;
            }
        }
        Ok(())
    }

    /// Removes a name, if it is there.
    pub fn remove(&mut self, file: FileId)
        ensures { (other : FileId) → has self.new other ≡ (not (is_file other file) && has self.old other) }
    {
        match file {
            FileId::Index => self.index = false,
            FileId::Block(n) => {
                self.blocks.remove(&n);
            }
            FileId::External(n) => {
                self.externals.remove(&n);
            }
        }
    }

    /// The least name after this one, or the least of all.
    pub fn next(&self, after: Option<FileId>) -> Option<FileId>
        ensures after { ForSome result (ComesAfter after) }
        ensures next { IsLeastName self.now (ComesAfter after) result }
    {
        match after {
            None if self.index => Some(FileId::Index),
            None => self.least_block(Bound::Unbounded),
            Some(FileId::Index) => self.least_block(Bound::Unbounded),
            Some(FileId::Block(n)) => self.least_block(Bound::Excluded(n)),
            Some(FileId::External(n)) => self.least_external(Bound::Excluded(n)),
        }
    }

    // The least block file inside a start bound, or else the least external file.
    fn least_block(&self, start: Bound<u8>) -> Option<FileId>
        ensures { IsLeastName self.now (IsBlockFrom start) result }
    {
        match self.least_block_number(start) {
            Some(n) => Some(FileId::Block(n)),
            None => self.least_external(Bound::Unbounded),
        }
    }

    // The least external file inside a start bound.
    fn least_external(&self, start: Bound<u32>) -> Option<FileId>
        ensures { IsLeastName self.now (IsExternalFrom start) result }
    {
        match self.least_external_number(start) {
            Some(n) => Some(FileId::External(n)),
            None => None,
        }
    }

    fn least_block_number(&self, start: Bound<u8>) -> Option<u8>
        ensures { IsLeastNumber self.now.blocks start result }
    {
        let mut numbers = self.blocks.range((start, Bound::Unbounded));
        numbers.next().copied()
    }

    fn least_external_number(&self, start: Bound<u32>) -> Option<u32>
        ensures { IsLeastNumber self.now.externals start result }
    {
        let mut numbers = self.externals.range((start, Bound::Unbounded));
        numbers.next().copied()
    }
}
