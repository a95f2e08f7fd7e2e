// The changes of a folder in memory, each kept as steps where it keeps a write trace.
ghost use Rattle.std.specs.Prelude.{◌≡◌, ◌||◌, nat_lt, ◌<◌, ◌≤◌, [], ◌∷◌, length, OnOk, OnErr, is_some, is_err};
ghost use Rattle.std.specs.Option.{ForSome};
ghost use Rattle.spec_image.specs.Image.{HasRange};
ghost use Rattle.spec_image.specs.Steps.{SetLength, Delete, words};
ghost use Rattle.spec_image.specs.Told.{Applies, AppliesPrefix, Stays, Rises};
ghost use Rattle.blk_io.specs.FileNames.{file_of};
ghost use Rattle.blk_io.specs.Files.{image_of};
ghost use Rattle.blk_io.specs.Trail.{UsesUp};
ghost use Rattle.blk_io.specs.Counts.{lasting};

use crate::mem::MemFolder;
use crate::mem_files::{remove, resize, write_over};
use crate::mem_trail::{Change, front_of, keep, keep_write, unkeep, word_count};
use crate::{Failed, FileId};
use std::alloc::AllocError;

// How many words of a write may last, where a listed failure lets so many last and so many steps are left.
fn lasting_words(listed: Option<u64>, left: u64) -> u64
    ensures { result ≡ lasting listed left }
{
    match listed {
        Some(words) => words.min(left),
        None => left,
    }
}

// Whether a write fails: it is listed, or has more steps than are left.
fn is_cut(listed: Option<u64>, left: u64, steps: u64) -> bool
    ensures { result ≡ (is_some listed || nat_lt left steps) }
{
    listed.is_some() || left < steps
}

impl MemFolder {
    ghost use Rattle.blk_io.specs.MemFolder.{mem_told, mem_counts, CountsWrite, LastsWithin};

    // Writes bytes of a file.
    fn write_front(&mut self, file: FileId, at: u64, bytes: &[u8]) -> Result<(), AllocError>
        requires inside { HasRange (image_of self.old.files.items) (file_of file) at (length bytes.now) }
        ensures done { OnOk result (Applies (mem_told self.old) (mem_told self.new) (words (file_of file) at bytes.now)) }
        ensures undone { OnErr result (mem_told self.new ≡ mem_told self.old) }
        ensures calls { self.new.calls ≡ self.old.calls }
    {
        keep_write(self.alloc, &mut self.trail, file, at, bytes)?;
        write_over(&mut self.files, file, at, bytes);
        Ok(())
    }

    // Gives a file this length.
    pub(crate) fn resize_told(&mut self, file: FileId, length: u64) -> Result<(), AllocError>
        ensures done { OnOk result (Applies (mem_told self.old) (mem_told self.new) (SetLength (file_of file) length ∷ [])) }
        ensures undone { OnErr result (mem_told self.new ≡ mem_told self.old) }
        ensures calls { self.new.calls ≡ self.old.calls }
    {
        keep(&mut self.trail, Change::Sized(file, length))?;
        match resize(self.alloc, &mut self.files, file, length) {
            Ok(()) => Ok(()),
            Err(e) => {
                unkeep(&mut self.trail);
                Err(e)
            }
        }
    }

    // Removes a file.
    pub(crate) fn remove_told(&mut self, file: FileId) -> Result<(), AllocError>
        ensures done { OnOk result (Applies (mem_told self.old) (mem_told self.new) (Delete (file_of file) ∷ [])) }
        ensures undone { OnErr result (mem_told self.new ≡ mem_told self.old) }
        ensures calls { self.new.calls ≡ self.old.calls }
    {
        keep(&mut self.trail, Change::Deleted(file))?;
        remove(&mut self.files, file);
        Ok(())
    }

    // Writes over bytes of a file, of which at most so many words may be written before the call fails, and says how many may still be after it.
    pub(crate) fn write_within(
        &mut self,
        left: &mut u64,
        file: FileId,
        at: u64,
        bytes: &[u8],
    ) -> Result<(), Failed>
        requires { ForSome (mem_told self.old).files (λ image. HasRange image (file_of file) at (length bytes.now)) }
        ensures steps { OnOk result (Applies (mem_told self.old) (mem_told self.new) (words (file_of file) at bytes.now)) }
        ensures prefix { AppliesPrefix (mem_told self.old) (mem_told self.new) (words (file_of file) at bytes.now) }
        ensures later { (mem_counts self.old).faults ≤ (mem_counts self.new).faults }
        ensures failed { OnErr result (Rises (mem_counts self.old).faults (mem_counts self.new).faults) }
        ensures counted { CountsWrite left.old self.old self.new (is_err result) (words (file_of file) at bytes.now) }
        ensures lasted { LastsWithin left.old self.old self.new (words (file_of file) at bytes.now) }
        ensures lacking { (mem_counts self.old).lacks < (mem_counts self.new).lacks → Stays (mem_told self.old) (mem_told self.new) }
        ensures used { UsesUp (mem_told self.old) (mem_told self.new) (words (file_of file) at bytes.now) left.old left.new }
    {
        let listed = self.calls.begin();
        let lasting = lasting_words(listed, *left);
        let steps = word_count(at, bytes);
        let is_failed = is_cut(listed, *left, steps);
        match self.write_front(file, at, front_of(at, bytes, lasting)) {
            Ok(()) => {
                *left -= steps.min(lasting);
                if is_failed {
                    Err(self.calls.fail())
                } else {
                    Ok(())
                }
            }
            Err(_) => Err(self.calls.lack()),
        }
    }
}
