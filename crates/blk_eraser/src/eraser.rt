// A folder that erases.
ghost use Rattle.std.specs.Prelude.{◌≡◌, ◌≤◌, true, [], ◌∷◌, length, OnOk, OnErr, IfOk};
ghost use Rattle.std.specs.Option.{ForSome, option_map};
ghost use Rattle.spec_image.specs.Order.{IsAfter};
ghost use Rattle.spec_image.specs.Told.{Applies, GivesBytes, Rises, Stays};
ghost use Rattle.spec_image.specs.Steps.{Note};
ghost use Rattle.blk_io.specs.FileNames.{file_of};
ghost use Rattle.blk_eraser.specs.Erasing.{CutsErasing, CutsErasingPrefix, DeletesErasing, DeletesErasingPrefix, TellsNext, WritesErasing, WritesErasingPrefix};

use crate::freeing::write_over;
use crate::zeros::{cut, remove};
use blk_io::{Failed, FileId, Folder};

/// A folder over another, which overwrites by zeros what goes out of use: the blocks that a write to a map frees, what a new length cuts off, and the bytes of
/// a file that is deleted.
///
/// The zeros come before the call's own steps, and where they fail these aren't made. It is opaque, since the zeros are steps that no caller knows of. So a
/// write asks the folder inside for the length of the file first, and fails where the file hasn't the range; one that touches a map fails too where the file is
/// shorter than a header.
#[derive(Drop)]
pub struct Eraser<F> {
    inner: F,
    faults: u64,
}

impl<F: Folder> Eraser<F> {
    ghost use Rattle.blk_eraser.specs.Eraser.{inner_folder};

    /// An eraser over this folder.
    pub fn new(inner: F) -> Eraser<F>
        ensures { inner_folder result ≡ inner }
    {
        Eraser { inner, faults: 0 }
    }

    /// The folder inside.
    pub fn into_inner(self) -> F
        ensures { result ≡ inner_folder self }
    {
        self.inner
    }
}

// What the folder answered, with its failure counted.
fn counted<T>(answer: Result<T, Failed>, faults: &mut u64) -> Result<T, Failed>
    ensures answer { result ≡ answer }
    ensures later { faults.old ≤ faults.new }
    ensures failed { OnErr result (Rises faults.old faults.new) }
{
    if answer.is_err() {
        *faults = faults.saturating_add(1);
    }
    answer
}

impl<F: Folder> Folder for Eraser<F> {
    ghost use Rattle.blk_io.specs.Untold.{untold, untold_agrees, untold_bytes};
    ghost use Rattle.blk_eraser.specs.Eraser.{eraser_faults, inner_folder};

    ghost told = { λ _. untold };

    ghost faults = { eraser_faults };

    ghost agrees = { λ folder. untold_agrees };

    ghost are_bytes = { λ folder. untold_bytes };

    fn length(&mut self, file: FileId) -> Result<Option<u64>, Failed>
        ensures later { eraser_faults self.old ≤ eraser_faults self.new }
        ensures failed { OnErr result (Rises (eraser_faults self.old) (eraser_faults self.new)) }
        ensures inside { IfOk result (λ n. ForSome (F.told (inner_folder self.old)).files (λ image. n ≡ option_map length (image (file_of file)))) }
        ensures inside_stays { Stays (F.told (inner_folder self.old)) (F.told (inner_folder self.new)) }
    {
        counted(self.inner.length(file), &mut self.faults)
    }

    fn read_at(&mut self, file: FileId, at: u64, out: &mut [u8]) -> Result<usize, Failed>
        ensures within { IfOk result (λ n. n ≤ length out.old) }
        ensures later { eraser_faults self.old ≤ eraser_faults self.new }
        ensures failed { OnErr result (Rises (eraser_faults self.old) (eraser_faults self.new)) }
        ensures inside { IfOk result (λ n. ForSome (F.told (inner_folder self.old)).files (λ image. GivesBytes image (file_of file) at out.old out.new n)) }
        ensures inside_stays { Stays (F.told (inner_folder self.old)) (F.told (inner_folder self.new)) }
    {
        counted(self.inner.read_at(file, at, out), &mut self.faults)
    }

    fn write_at(&mut self, file: FileId, at: u64, bytes: &[u8]) -> Result<(), Failed>
        ensures later { eraser_faults self.old ≤ eraser_faults self.new }
        ensures failed { OnErr result (Rises (eraser_faults self.old) (eraser_faults self.new)) }
        ensures inside { OnOk result (WritesErasing (F.told (inner_folder self.old)) (F.told (inner_folder self.new)) (file_of file) at bytes.now) }
        ensures inside_part { WritesErasingPrefix (F.told (inner_folder self.old)) (F.told (inner_folder self.new)) (file_of file) at bytes.now }
    {
        counted(
            write_over(&mut self.inner, file, at, bytes),
            &mut self.faults,
        )
    }

    fn set_len(&mut self, file: FileId, length: u64) -> Result<(), Failed>
        ensures later { eraser_faults self.old ≤ eraser_faults self.new }
        ensures failed { OnErr result (Rises (eraser_faults self.old) (eraser_faults self.new)) }
        ensures inside { OnOk result (CutsErasing (F.told (inner_folder self.old)) (F.told (inner_folder self.new)) (file_of file) length) }
        ensures inside_part { CutsErasingPrefix (F.told (inner_folder self.old)) (F.told (inner_folder self.new)) (file_of file) length }
    {
        counted(cut(&mut self.inner, file, length), &mut self.faults)
    }

    fn delete(&mut self, file: FileId) -> Result<(), Failed>
        ensures later { eraser_faults self.old ≤ eraser_faults self.new }
        ensures failed { OnErr result (Rises (eraser_faults self.old) (eraser_faults self.new)) }
        ensures inside { OnOk result (DeletesErasing (F.told (inner_folder self.old)) (F.told (inner_folder self.new)) (file_of file)) }
        ensures inside_part { DeletesErasingPrefix (F.told (inner_folder self.old)) (F.told (inner_folder self.new)) (file_of file) }
    {
        counted(remove(&mut self.inner, file), &mut self.faults)
    }

    fn list(&mut self, after: Option<FileId>) -> Result<Option<FileId>, Failed>
        ensures after { IfOk result (λ next. ForSome next (λ file. IsAfter (option_map file_of after) (file_of file))) }
        ensures later { eraser_faults self.old ≤ eraser_faults self.new }
        ensures failed { OnErr result (Rises (eraser_faults self.old) (eraser_faults self.new)) }
        ensures inside { IfOk result (λ next. TellsNext (F.told (inner_folder self.old)) (option_map file_of after) (option_map file_of next)) }
        ensures inside_stays { Stays (F.told (inner_folder self.old)) (F.told (inner_folder self.new)) }
    {
        counted(self.inner.list(after), &mut self.faults)
    }

    fn erases(&self) -> bool
        ensures { result ≡ true }
    {
        true
    }

    fn note(&mut self, answered: u64) -> Result<(), Failed>
        ensures later { eraser_faults self.old ≤ eraser_faults self.new }
        ensures failed { OnErr result (Rises (eraser_faults self.old) (eraser_faults self.new)) }
        ensures inside { OnOk result (Applies (F.told (inner_folder self.old)) (F.told (inner_folder self.new)) (Note answered ∷ [])) }
        ensures inside_undone { OnErr result (Stays (F.told (inner_folder self.old)) (F.told (inner_folder self.new))) }
    {
        counted(self.inner.note(answered), &mut self.faults)
    }
}
