// A folder that remembers what was written.
ghost use Rattle.spec_image.specs.Image.{HasRange};
ghost use Rattle.spec_image.specs.Order.{IsAfter};
ghost use Rattle.spec_image.specs.Steps.{Delete, Note, SetLength, words};
ghost use Rattle.spec_image.specs.Told.{Applies, AppliesPrefix, GivesBytes, Rises, Stays};
ghost use Rattle.blk_io.specs.Faults.{OkFor};
ghost use Rattle.blk_io.specs.FileNames.{IsNextName, file_of};
ghost use Rattle.std.specs.Option.{ForSome, option_map};
ghost use Rattle.std.specs.Prelude.{◌≡◌, ◌≤◌, [], ◌∷◌, length, OnOk, OnErr, IfOk};

use blk_io::{Failed, FileId, Folder, NoMemory};
use blk_window::Window;
use std::alloc::Global;

// A hash with one more number.
pub(crate) fn mixed(hash: u64, value: u64) -> u64 {
    (hash ^ value).wrapping_mul(0x0000_0100_0000_01B3)
}

// A hash with the name of a file.
pub(crate) fn with_file(hash: u64, file: FileId) -> u64 {
    let kind = match file {
        FileId::Index => 0,
        FileId::Block(_) => 1,
        FileId::External(_) => 2,
    };
    mixed(mixed(hash, kind), u64::from(file.number()))
}

// A hash with some bytes.
pub(crate) fn with_bytes(hash: u64, bytes: &[u8]) -> u64 {
    let mut all = hash;
    for byte in bytes {
        all = mixed(all, u64::from(*byte));
    }
    all
}

// A window of so many pages over a folder, of one where there are none.
pub(crate) fn window_over<F: Folder + Drop>(
    alloc: Global,
    inner: F,
    pages: u16,
) -> Result<Window<F>, NoMemory> {
    match Window::new(alloc, inner, pages.max(1).min(4096)) {
        Ok(window) => Ok(window),
        Err(_) => Err(NoMemory),
    }
}

// A folder that passes each call on. It counts those that read bytes, and keeps a hash of those that make steps, in their order.
#[derive(Drop)]
pub(crate) struct Traced<F> {
    pub(crate) inner: F,
    pub(crate) reads: u64,
    pub(crate) trail: u64,
}

// A folder of which nothing was read, and in which nothing was written yet.
pub(crate) fn newly_traced<F: Folder>(inner: F) -> Traced<F> {
    Traced {
        inner,
        reads: 0,
        trail: 0,
    }
}

impl<F: Folder> Folder for Traced<F> {
    ghost told = { λ folder. F.told folder.inner };

    ghost faults = { λ folder. F.faults folder.inner };

    ghost agrees = { λ folder. F.agrees folder.inner };

    ghost are_bytes = { λ folder. F.are_bytes folder.inner };

    fn length(&mut self, file: FileId) -> Result<Option<u64>, Failed>
        ensures length { IfOk result (λ n. ForSome (F.told self.old.inner).files (λ image. n ≡ option_map length (image (file_of file)))) }
        ensures stays { Stays (F.told self.old.inner) (F.told self.new.inner) }
        ensures later { F.faults self.old.inner ≤ F.faults self.new.inner }
        ensures failed { OnErr result (Rises (F.faults self.old.inner) (F.faults self.new.inner)) }
    {
        self.inner.length(file)
    }

    fn read_at(&mut self, file: FileId, at: u64, out: &mut [u8]) -> Result<usize, Failed>
        ensures within { IfOk result (λ n. n ≤ length out.old) }
        ensures bytes { IfOk result (λ n. ForSome (F.told self.old.inner).files (λ image. GivesBytes image (file_of file) at out.old out.new n)) }
        ensures stays { Stays (F.told self.old.inner) (F.told self.new.inner) }
        ensures later { F.faults self.old.inner ≤ F.faults self.new.inner }
        ensures failed { OnErr result (Rises (F.faults self.old.inner) (F.faults self.new.inner)) }
    {
        self.reads = self.reads.wrapping_add(1);
        self.inner.read_at(file, at, out)
    }

    fn write_at(&mut self, file: FileId, at: u64, bytes: &[u8]) -> Result<(), Failed>
        requires { ForSome (F.told self.old.inner).files (λ image. HasRange image (file_of file) at (length bytes.now)) }
        ensures steps { OnOk result (Applies (F.told self.old.inner) (F.told self.new.inner) (words (file_of file) at bytes.now)) }
        ensures prefix { AppliesPrefix (F.told self.old.inner) (F.told self.new.inner) (words (file_of file) at bytes.now) }
        ensures later { F.faults self.old.inner ≤ F.faults self.new.inner }
        ensures failed { OnErr result (Rises (F.faults self.old.inner) (F.faults self.new.inner)) }
    {
        self.trail = with_bytes(mixed(with_file(self.trail, file), at), bytes);
        self.inner.write_at(file, at, bytes)
    }

    fn set_len(&mut self, file: FileId, length: u64) -> Result<(), Failed>
        ensures done { OnOk result (Applies (F.told self.old.inner) (F.told self.new.inner) (SetLength (file_of file) length ∷ [])) }
        ensures undone { OnErr result (Stays (F.told self.old.inner) (F.told self.new.inner)) }
        ensures later { F.faults self.old.inner ≤ F.faults self.new.inner }
        ensures failed { OnErr result (Rises (F.faults self.old.inner) (F.faults self.new.inner)) }
    {
        self.trail = mixed(with_file(mixed(self.trail, 256), file), length);
        self.inner.set_len(file, length)
    }

    fn delete(&mut self, file: FileId) -> Result<(), Failed>
        ensures done { OnOk result (Applies (F.told self.old.inner) (F.told self.new.inner) (Delete (file_of file) ∷ [])) }
        ensures undone { OnErr result (Stays (F.told self.old.inner) (F.told self.new.inner)) }
        ensures later { F.faults self.old.inner ≤ F.faults self.new.inner }
        ensures failed { OnErr result (Rises (F.faults self.old.inner) (F.faults self.new.inner)) }
    {
        self.trail = with_file(mixed(self.trail, 257), file);
        self.inner.delete(file)
    }

    fn list(&mut self, after: Option<FileId>) -> Result<Option<FileId>, Failed>
        ensures after { IfOk result (λ next. ForSome next (λ file. IsAfter (option_map file_of after) (file_of file))) }
        ensures next { OkFor result (F.told self.old.inner) (IsNextName after) }
        ensures stays { Stays (F.told self.old.inner) (F.told self.new.inner) }
        ensures later { F.faults self.old.inner ≤ F.faults self.new.inner }
        ensures failed { OnErr result (Rises (F.faults self.old.inner) (F.faults self.new.inner)) }
    {
        self.inner.list(after)
    }

    fn note(&mut self, answered: u64) -> Result<(), Failed>
        ensures done { OnOk result (Applies (F.told self.old.inner) (F.told self.new.inner) (Note answered ∷ [])) }
        ensures undone { OnErr result (Stays (F.told self.old.inner) (F.told self.new.inner)) }
        ensures later { F.faults self.old.inner ≤ F.faults self.new.inner }
        ensures failed { OnErr result (Rises (F.faults self.old.inner) (F.faults self.new.inner)) }
    {
        self.trail = mixed(mixed(self.trail, 258), answered);
        self.inner.note(answered)
    }
}
