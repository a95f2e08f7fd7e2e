// A folder of cache files, seen as its files now and the steps that made them.
ghost use Rattle.std.specs.Prelude.{◌≡◌, ◌↔◌, ◌<◌, ◌≤◌, ℕ, IsTrue, [], ◌∷◌, length, OnOk, OnErr, IfOk};
ghost use Rattle.std.specs.Option.{ForSome, option_map};
ghost use Rattle.spec_image.specs.Image.{HasRange};
ghost use Rattle.spec_image.specs.Steps.{SetLength, Delete, Note, words};
ghost use Rattle.spec_image.specs.Order.{IsNextFile, IsAfter, file_number};
ghost use Rattle.spec_image.specs.Told.{Told, Applies, Stays, AppliesPrefix, Rises, AgreesWithTrail, TellsBytes, GivesBytes};
ghost use Rattle.blk_io.specs.FileNames.{file_of};
ghost use Rattle.blk_io.specs.Untold.{untold};

use std::alloc::AllocError;
use std::error::Error;
use std::fmt;

/// The name of a cache file. The index comes first, then the block files by number, then the external files by number.
#[derive(Clone, Copy, Debug, PartialEq, Eq, PartialOrd, Ord)]
pub enum FileId {
    /// `index`
    Index,
    /// `data_N`, by its number
    Block(u8),
    /// `f_` and at least six hexadecimal digits, by its number
    External(u32),
}

impl fmt::Display for FileId {
    ghost use Rattle.std.specs.Prelude.{Some};
    ghost use Rattle.blk_io.specs.FileNames.{file_of};
    ghost use Rattle.blk_io.specs.Texts.{name_of};

    ghost output = { λ file. Some (name_of (file_of file)) };

    #[tactic(auto, using(crate::proofs::Padding::padded_text), unfolding(crate::specs::Texts::name_of, crate::specs::Texts::hex_text))]
    fn fmt<W: fmt::Write>(&self, f: &mut fmt::Formatter<W>) -> fmt::Result {
        match *self {
            FileId::Index => f.write_str("index"),
            FileId::Block(n) => write!(f, "data_{n}"),
            FileId::External(n) => write!(f, "f_{n:06x}"),
        }
    }
}

impl FileId {
    /// The number among the files of the kind.
    pub fn number(self) -> u32
        ensures { result ≡ file_number (file_of self) }
    {
        match self {
            FileId::Index => 0,
            FileId::Block(n) => u32::from(n),
            FileId::External(n) => n,
        }
    }

    /// Whether the file comes after another, where there is one.
    pub fn is_after(self, other: Option<FileId>) -> bool
        ensures { IsTrue result ↔ IsAfter (option_map file_of other) (file_of self) }
    {
        other < Some(self)
    }
}

/// The error of a call on a folder, an input or an output that failed.
#[derive(Clone, Copy, Debug, PartialEq, Eq)]
pub struct Failed;

impl fmt::Display for Failed {
    ghost use Rattle.std.specs.Prelude.{Some};
    ghost use Rattle.blk_io.specs.Texts.{failed_text};

    ghost output = { λ _. Some failed_text };

    fn fmt<W: fmt::Write>(&self, f: &mut fmt::Formatter<W>) -> fmt::Result {
        f.write_str("the device failed")
    }
}

impl Error for Failed {}

/// Out of memory. Nothing was changed.
#[derive(Clone, Copy, Debug, PartialEq, Eq)]
pub struct NoMemory;

impl fmt::Display for NoMemory {
    ghost use Rattle.std.specs.Prelude.{Some};
    ghost use Rattle.blk_io.specs.Texts.{no_memory_text};

    ghost output = { λ _. Some no_memory_text };

    fn fmt<W: fmt::Write>(&self, f: &mut fmt::Formatter<W>) -> fmt::Result {
        f.write_str("there is no memory")
    }
}

impl Error for NoMemory {}

impl From<AllocError> for NoMemory {
    fn from(_: AllocError) -> Self {
        NoMemory
    }
}

/// A folder of cache files.
///
/// A folder in memory is observable, and its contracts say what the calls read and leave. A folder of real files is
/// opaque. A call that answers `Failed` is counted in `faults`; a read then gave nothing, a write may have made some of
/// its steps, from the first on, and any other call changed nothing.
pub trait Folder {
    /// What contracts see of the files now, and of the steps that made them.
    ghost told: { Self → Told };

    /// The error counter: how often the folder has failed.
    ghost faults: { Self → ℕ };

    /// The file's length, or None where there is no such file.
    fn length(&mut self, file: FileId) -> Result<Option<u64>, Failed>
        ensures length { IfOk result (λ n. ForSome (told self.old).files (λ image. n ≡ option_map length (image (file_of file)))) }
        ensures stays { Stays (told self.old) (told self.new) }
        ensures later { faults self.old ≤ faults self.new }
        ensures failed { OnErr result (Rises (faults self.old) (faults self.new)) };

    /// Moves the file's bytes from a place on into a prefix of `out`, as many as there are.
    fn read_at(&mut self, file: FileId, at: u64, out: &mut [u8]) -> Result<usize, Failed>
        ensures within { IfOk result (λ n. n ≤ length out.old) }
        ensures bytes { IfOk result (λ n. ForSome (told self.old).files (λ image. GivesBytes image (file_of file) at out.old out.new n)) }
        ensures stays { Stays (told self.old) (told self.new) }
        ensures later { faults self.old ≤ faults self.new }
        ensures failed { OnErr result (Rises (faults self.old) (faults self.new)) };

    /// Writes over bytes of the file, one word after another.
    fn write_at(&mut self, file: FileId, at: u64, bytes: &[u8]) -> Result<(), Failed>
        requires { ForSome (told self.old).files (λ image. HasRange image (file_of file) at (length bytes.now)) }
        ensures steps { OnOk result (Applies (told self.old) (told self.new) (words (file_of file) at bytes.now)) }
        ensures prefix { AppliesPrefix (told self.old) (told self.new) (words (file_of file) at bytes.now) }
        ensures later { faults self.old ≤ faults self.new }
        ensures failed { OnErr result (Rises (faults self.old) (faults self.new)) };

    /// Gives the file this length, and makes it where there is none. New bytes are 0.
    fn set_len(&mut self, file: FileId, length: u64) -> Result<(), Failed>
        ensures done { OnOk result (Applies (told self.old) (told self.new) (SetLength (file_of file) length ∷ [])) }
        ensures undone { OnErr result (Stays (told self.old) (told self.new)) }
        ensures later { faults self.old ≤ faults self.new }
        ensures failed { OnErr result (Rises (faults self.old) (faults self.new)) };

    /// Removes the file, if it is there.
    fn delete(&mut self, file: FileId) -> Result<(), Failed>
        ensures done { OnOk result (Applies (told self.old) (told self.new) (Delete (file_of file) ∷ [])) }
        ensures undone { OnErr result (Stays (told self.old) (told self.new)) }
        ensures later { faults self.old ≤ faults self.new }
        ensures failed { OnErr result (Rises (faults self.old) (faults self.new)) };

    /// The first cache file after this one in the order of files, or the first of all.
    fn list(&mut self, after: Option<FileId>) -> Result<Option<FileId>, Failed>
        ensures after { IfOk result (λ next. ForSome next (λ file. IsAfter (option_map file_of after) (file_of file))) }
        ensures next { IfOk result (λ next. ForSome (told self.old).files (λ image. IsNextFile image (option_map file_of after) (option_map file_of next))) }
        ensures stays { Stays (told self.old) (told self.new) }
        ensures later { faults self.old ≤ faults self.new }
        ensures failed { OnErr result (Rises (faults self.old) (faults self.new)) };

    /// Adds a completion marker to the write trace: so many commands are done.
    fn note(&mut self, answered: u64) -> Result<(), Failed>
        ensures done { OnOk result (Applies (told self.old) (told self.new) (Note answered ∷ [])) }
        ensures undone { OnErr result (Stays (told self.old) (told self.new)) }
        ensures later { faults self.old ≤ faults self.new }
        ensures failed { OnErr result (Rises (faults self.old) (faults self.new)) };

    /// Whether it overwrites what goes out of use, so that a caller that cuts bytes off within a file's length has to do so too. Such a
    /// folder is opaque, since its zeros are steps that no caller asked for.
    fn erases(&self) -> bool
        ensures { IsTrue result → told self.now ≡ untold }
    {
        false
    }

    /// The files now are those at the start after the steps, where both are observable.
    ghost agrees: { (folder : Self) → AgreesWithTrail (told folder) };

    /// All files consist of bytes.
    ghost are_bytes: { (folder : Self) → TellsBytes (told folder) };
}
