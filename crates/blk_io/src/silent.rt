// An opaque folder.
ghost use Rattle.std.specs.Prelude.{◌≡◌, ◌≤◌, [], ◌∷◌, length, OnOk, OnErr, IfOk};
ghost use Rattle.std.specs.Option.{ForSome, option_map};
ghost use Rattle.spec_image.specs.Image.{length_of};
ghost use Rattle.spec_image.specs.Order.{IsAfter};
ghost use Rattle.spec_image.specs.Steps.{SetLength, Delete, Note, words};
ghost use Rattle.spec_image.specs.Told.{Applies, AppliesPrefix, GivesBytes, Rises, Stays};
ghost use Rattle.blk_io.specs.Counts.{one_more};
ghost use Rattle.blk_io.specs.Faults.{OkFor};
ghost use Rattle.blk_io.specs.FileNames.{file_of, IsNextName};

use crate::{Failed, FileId, Folder};

/// A folder that passes each call on to another, and is opaque, as a folder of real files is.
///
/// A caller has no condition on its files to meet. So a write asks the folder inside for the length of the file first,
/// which is a call more there, and fails where the file hasn't the range.
#[derive(Drop)]
pub struct SilentFolder<F> {
    inner: F,
    calls: u64,
    faults: u64,
}

impl<F: Folder> SilentFolder<F> {
    ghost use Rattle.blk_io.specs.SilentFolder.{calls_of, inner_of};

    /// Passes on to this folder.
    pub fn new(inner: F) -> SilentFolder<F>
        ensures inner { inner_of result ≡ inner }
        ensures calls { calls_of result ≡ 0 }
    {
        SilentFolder {
            inner,
            calls: 0,
            faults: 0,
        }
    }

    /// The folder to which the calls were passed on.
    pub fn into_inner(self) -> F
        ensures { result ≡ inner_of self }
    {
        self.inner
    }

    /// The number of calls of the trait that were made on it so far.
    pub fn calls(&self) -> u64
        ensures { result ≡ calls_of self.now }
    {
        self.calls
    }
}

// What the folder answered, with its failure counted.
fn counted<T>(answer: Result<T, Failed>, faults: &mut u64) -> Result<T, Failed>
    ensures answer { result ≡ answer }
    ensures later { faults.old ≤ faults.new }
    ensures failed { OnErr result (Rises faults.old faults.new) }
{
    if answer.is_err() {
        *faults = faults.saturating_add(1);
    }
    answer
}

// The length of a file, 0 where there is none.
fn length<F: Folder>(folder: &mut F, file: FileId) -> Result<u64, Failed>
    ensures length { IfOk result (λ n. ForSome (F.told folder.old).files (λ image. length_of image (file_of file) ≡ n)) }
    ensures stays { Stays (F.told folder.old) (F.told folder.new) }
{
    match folder.length(file)? {
        Some(n) => Ok(n),
        None => Ok(0),
    }
}

// Writes bytes of a file, where it has them.
fn write_inside<F: Folder>(
    folder: &mut F,
    file: FileId,
    at: u64,
    bytes: &[u8],
) -> Result<(), Failed>
    ensures steps { OnOk result (Applies (F.told folder.old) (F.told folder.new) (words (file_of file) at bytes.now)) }
    ensures prefix { AppliesPrefix (F.told folder.old) (F.told folder.new) (words (file_of file) at bytes.now) }
{
    let n = length(folder, file)?;
    if at > n || bytes.len() as u64 > n - at {
        return Err(Failed);
    }
    folder.write_at(file, at, bytes)
}

impl<F: Folder> Folder for SilentFolder<F> {
    ghost use Rattle.blk_io.specs.SilentFolder.{calls_of, silent_faults, inner_of};
    ghost use Rattle.blk_io.specs.Untold.{untold, untold_agrees, untold_bytes};

    ghost told = { λ _. untold };

    ghost faults = { silent_faults };

    ghost agrees = { λ folder. untold_agrees };

    ghost are_bytes = { λ folder. untold_bytes };

    fn length(&mut self, file: FileId) -> Result<Option<u64>, Failed>
        ensures later { silent_faults self.old ≤ silent_faults self.new }
        ensures failed { OnErr result (Rises (silent_faults self.old) (silent_faults self.new)) }
        ensures calls { calls_of self.new ≡ one_more (calls_of self.old) }
        ensures inside { IfOk result (λ n. ForSome (F.told (inner_of self.old)).files (λ image. n ≡ option_map length (image (file_of file)))) }
        ensures inside_stays { Stays (F.told (inner_of self.old)) (F.told (inner_of self.new)) }
    {
        self.calls = self.calls.saturating_add(1);
        counted(self.inner.length(file), &mut self.faults)
    }

    fn read_at(&mut self, file: FileId, at: u64, out: &mut [u8]) -> Result<usize, Failed>
        ensures within { IfOk result (λ n. n ≤ length out.old) }
        ensures later { silent_faults self.old ≤ silent_faults self.new }
        ensures failed { OnErr result (Rises (silent_faults self.old) (silent_faults self.new)) }
        ensures calls { calls_of self.new ≡ one_more (calls_of self.old) }
        ensures inside { IfOk result (λ n. ForSome (F.told (inner_of self.old)).files (λ image. GivesBytes image (file_of file) at out.old out.new n)) }
        ensures inside_stays { Stays (F.told (inner_of self.old)) (F.told (inner_of self.new)) }
    {
        self.calls = self.calls.saturating_add(1);
        counted(self.inner.read_at(file, at, out), &mut self.faults)
    }

    fn write_at(&mut self, file: FileId, at: u64, bytes: &[u8]) -> Result<(), Failed>
        ensures later { silent_faults self.old ≤ silent_faults self.new }
        ensures failed { OnErr result (Rises (silent_faults self.old) (silent_faults self.new)) }
        ensures calls { calls_of self.new ≡ one_more (calls_of self.old) }
        ensures inside { OnOk result (Applies (F.told (inner_of self.old)) (F.told (inner_of self.new)) (words (file_of file) at bytes.now)) }
        ensures inside_part { AppliesPrefix (F.told (inner_of self.old)) (F.told (inner_of self.new)) (words (file_of file) at bytes.now) }
    {
        self.calls = self.calls.saturating_add(1);
        counted(
            write_inside(&mut self.inner, file, at, bytes),
            &mut self.faults,
        )
    }

    fn set_len(&mut self, file: FileId, length: u64) -> Result<(), Failed>
        ensures later { silent_faults self.old ≤ silent_faults self.new }
        ensures failed { OnErr result (Rises (silent_faults self.old) (silent_faults self.new)) }
        ensures calls { calls_of self.new ≡ one_more (calls_of self.old) }
        ensures inside { OnOk result (Applies (F.told (inner_of self.old)) (F.told (inner_of self.new)) (SetLength (file_of file) length ∷ [])) }
        ensures inside_undone { OnErr result (Stays (F.told (inner_of self.old)) (F.told (inner_of self.new))) }
    {
        self.calls = self.calls.saturating_add(1);
        counted(self.inner.set_len(file, length), &mut self.faults)
    }

    fn delete(&mut self, file: FileId) -> Result<(), Failed>
        ensures later { silent_faults self.old ≤ silent_faults self.new }
        ensures failed { OnErr result (Rises (silent_faults self.old) (silent_faults self.new)) }
        ensures calls { calls_of self.new ≡ one_more (calls_of self.old) }
        ensures inside { OnOk result (Applies (F.told (inner_of self.old)) (F.told (inner_of self.new)) (Delete (file_of file) ∷ [])) }
        ensures inside_undone { OnErr result (Stays (F.told (inner_of self.old)) (F.told (inner_of self.new))) }
    {
        self.calls = self.calls.saturating_add(1);
        counted(self.inner.delete(file), &mut self.faults)
    }

    fn list(&mut self, after: Option<FileId>) -> Result<Option<FileId>, Failed>
        ensures after { IfOk result (λ next. ForSome next (λ file. IsAfter (option_map file_of after) (file_of file))) }
        ensures later { silent_faults self.old ≤ silent_faults self.new }
        ensures failed { OnErr result (Rises (silent_faults self.old) (silent_faults self.new)) }
        ensures calls { calls_of self.new ≡ one_more (calls_of self.old) }
        ensures inside { OkFor result (F.told (inner_of self.old)) (IsNextName after) }
        ensures inside_stays { Stays (F.told (inner_of self.old)) (F.told (inner_of self.new)) }
    {
        self.calls = self.calls.saturating_add(1);
        counted(self.inner.list(after), &mut self.faults)
    }

    fn erases(&self) -> bool {
        self.inner.erases()
    }

    fn note(&mut self, answered: u64) -> Result<(), Failed>
        ensures later { silent_faults self.old ≤ silent_faults self.new }
        ensures failed { OnErr result (Rises (silent_faults self.old) (silent_faults self.new)) }
        ensures calls { calls_of self.new ≡ one_more (calls_of self.old) }
        ensures inside { OnOk result (Applies (F.told (inner_of self.old)) (F.told (inner_of self.new)) (Note answered ∷ [])) }
        ensures inside_undone { OnErr result (Stays (F.told (inner_of self.old)) (F.told (inner_of self.new))) }
    {
        self.calls = self.calls.saturating_add(1);
        counted(self.inner.note(answered), &mut self.faults)
    }
}
