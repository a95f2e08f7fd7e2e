// A folder that crashes after so many steps.
ghost use Rattle.std.specs.Prelude.{◌≡◌, ◌==◌, ◌+◌, ◌≤◌, ◌<◌, [], ◌∷◌, length, OnOk, OnErr, IfOk, is_err, is_ok, if◌then◌else◌};
ghost use Rattle.std.specs.Option.{ForSome, option_map};
ghost use Rattle.spec_image.specs.Image.{HasRange};
ghost use Rattle.spec_image.specs.Order.{IsAfter};
ghost use Rattle.spec_image.specs.Steps.{SetLength, Delete, Note, words};
ghost use Rattle.spec_image.specs.Told.{Applies, AppliesPrefix, Stays, Rises, GivesBytes};
ghost use Rattle.blk_io.specs.Faults.{OkFor};
ghost use Rattle.blk_io.specs.FileNames.{file_of, IsNextName};
ghost use Rattle.blk_io.specs.Counts.{fails_next};
ghost use Rattle.blk_io.specs.Trail.{UsesUp};

use crate::{Failed, FileId, Folder, MemFolder};

/// A folder in memory that lets so many steps pass and then fails every call.
#[derive(Drop)]
pub struct StopFolder {
    inner: MemFolder,
    left: u64,
    stops: u64,
}

impl StopFolder {
    ghost use Rattle.blk_io.specs.MemFolder.{mem_told, mem_counts};
    ghost use Rattle.blk_io.specs.StopFolder.{stop_told, stop_counts, steps_left};

    /// Lets so many steps pass.
    pub fn new(inner: MemFolder, steps: u64) -> StopFolder
        ensures told { stop_told result ≡ mem_told inner }
        ensures counts { stop_counts result ≡ mem_counts inner }
        ensures left { steps_left result ≡ steps }
    {
        StopFolder {
            inner,
            left: steps,
            stops: 0,
        }
    }

    /// The folder that crashed.
    pub fn into_inner(self) -> MemFolder
        ensures told { mem_told result ≡ stop_told self }
        ensures counts { mem_counts result ≡ stop_counts self }
    {
        self.inner
    }

    // Fails where no step is left.
    fn pass(&mut self) -> Result<(), Failed>
        ensures exact { is_err result ≡ (steps_left self.old == 0) }
        ensures inner { self.new.inner ≡ self.old.inner }
        ensures left { self.new.left ≡ self.old.left }
        ensures done { OnOk result (self.new.stops ≡ self.old.stops) }
        ensures later { self.old.stops ≤ self.new.stops }
        ensures failed { OnErr result (Rises self.old.stops self.new.stops) }
    {
        if self.left > 0 {
            return Ok(());
        }
        self.stops = self.stops.saturating_add(1);
        Err(Failed)
    }
}

impl Folder for StopFolder {
    ghost use Rattle.blk_io.specs.StopFolder.{stop_told, stop_counts, stop_faults, steps_left, stop_agrees, stop_are_bytes, LastsWhileLeft, PassesOn, PassesWriteOn};

    ghost told = { stop_told };

    ghost faults = { stop_faults };

    ghost agrees = { stop_agrees };

    ghost are_bytes = { stop_are_bytes };

    fn length(&mut self, file: FileId) -> Result<Option<u64>, Failed>
        ensures length { IfOk result (λ n. ForSome (stop_told self.old).files (λ image. n ≡ option_map length (image (file_of file)))) }
        ensures stays { Stays (stop_told self.old) (stop_told self.new) }
        ensures later { stop_faults self.old ≤ stop_faults self.new }
        ensures failed { OnErr result (Rises (stop_faults self.old) (stop_faults self.new)) }
        ensures passes { PassesOn self.old self.new (is_err result) (fails_next (stop_counts self.old)) }
        ensures left { steps_left self.new ≡ steps_left self.old }
    {
        self.pass()?;
        self.inner.length(file)
    }

    fn read_at(&mut self, file: FileId, at: u64, out: &mut [u8]) -> Result<usize, Failed>
        ensures within { IfOk result (λ n. n ≤ length out.old) }
        ensures bytes { IfOk result (λ n. ForSome (stop_told self.old).files (λ image. GivesBytes image (file_of file) at out.old out.new n)) }
        ensures stays { Stays (stop_told self.old) (stop_told self.new) }
        ensures later { stop_faults self.old ≤ stop_faults self.new }
        ensures failed { OnErr result (Rises (stop_faults self.old) (stop_faults self.new)) }
        ensures passes { PassesOn self.old self.new (is_err result) (fails_next (stop_counts self.old)) }
        ensures left { steps_left self.new ≡ steps_left self.old }
    {
        self.pass()?;
        self.inner.read_at(file, at, out)
    }

    fn write_at(&mut self, file: FileId, at: u64, bytes: &[u8]) -> Result<(), Failed>
        requires { ForSome (stop_told self.old).files (λ image. HasRange image (file_of file) at (length bytes.now)) }
        ensures steps { OnOk result (Applies (stop_told self.old) (stop_told self.new) (words (file_of file) at bytes.now)) }
        ensures prefix { AppliesPrefix (stop_told self.old) (stop_told self.new) (words (file_of file) at bytes.now) }
        ensures later { stop_faults self.old ≤ stop_faults self.new }
        ensures failed { OnErr result (Rises (stop_faults self.old) (stop_faults self.new)) }
        ensures passes { PassesWriteOn self.old self.new (is_err result) (words (file_of file) at bytes.now) }

        // The words that last are as many as are left, or fewer where a listed failure says so.
        ensures lasted { LastsWhileLeft self.old self.new (words (file_of file) at bytes.now) }
        ensures lacking { (stop_counts self.old).lacks < (stop_counts self.new).lacks → Stays (stop_told self.old) (stop_told self.new) }
        ensures left { UsesUp (stop_told self.old) (stop_told self.new) (words (file_of file) at bytes.now) (steps_left self.old) (steps_left self.new) }
    {
        self.pass()?;
        self.inner.write_within(&mut self.left, file, at, bytes)
    }

    fn set_len(&mut self, file: FileId, length: u64) -> Result<(), Failed>
        ensures done { OnOk result (Applies (stop_told self.old) (stop_told self.new) (SetLength (file_of file) length ∷ [])) }
        ensures undone { OnErr result (Stays (stop_told self.old) (stop_told self.new)) }
        ensures later { stop_faults self.old ≤ stop_faults self.new }
        ensures failed { OnErr result (Rises (stop_faults self.old) (stop_faults self.new)) }
        ensures passes { PassesOn self.old self.new (is_err result) (fails_next (stop_counts self.old)) }
        ensures left { steps_left self.new + (if is_ok result then 1 else 0) ≡ steps_left self.old }
    {
        self.pass()?;
        self.inner.set_len(file, length)?;
        self.left -= 1;
        Ok(())
    }

    fn delete(&mut self, file: FileId) -> Result<(), Failed>
        ensures done { OnOk result (Applies (stop_told self.old) (stop_told self.new) (Delete (file_of file) ∷ [])) }
        ensures undone { OnErr result (Stays (stop_told self.old) (stop_told self.new)) }
        ensures later { stop_faults self.old ≤ stop_faults self.new }
        ensures failed { OnErr result (Rises (stop_faults self.old) (stop_faults self.new)) }
        ensures passes { PassesOn self.old self.new (is_err result) (fails_next (stop_counts self.old)) }
        ensures left { steps_left self.new + (if is_ok result then 1 else 0) ≡ steps_left self.old }
    {
        self.pass()?;
        self.inner.delete(file)?;
        self.left -= 1;
        Ok(())
    }

    fn list(&mut self, after: Option<FileId>) -> Result<Option<FileId>, Failed>
        ensures after { IfOk result (λ next. ForSome next (λ file. IsAfter (option_map file_of after) (file_of file))) }
        ensures next { OkFor result (stop_told self.old) (IsNextName after) }
        ensures stays { Stays (stop_told self.old) (stop_told self.new) }
        ensures later { stop_faults self.old ≤ stop_faults self.new }
        ensures failed { OnErr result (Rises (stop_faults self.old) (stop_faults self.new)) }
        ensures passes { PassesOn self.old self.new (is_err result) (fails_next (stop_counts self.old)) }
        ensures left { steps_left self.new ≡ steps_left self.old }
    {
        self.pass()?;
        self.inner.list(after)
    }

    fn note(&mut self, answered: u64) -> Result<(), Failed>
        ensures done { OnOk result (Applies (stop_told self.old) (stop_told self.new) (Note answered ∷ [])) }
        ensures undone { OnErr result (Stays (stop_told self.old) (stop_told self.new)) }
        ensures later { stop_faults self.old ≤ stop_faults self.new }
        ensures failed { OnErr result (Rises (stop_faults self.old) (stop_faults self.new)) }
        ensures passes { PassesOn self.old self.new (is_err result) (fails_next (stop_counts self.old)) }
        ensures left { steps_left self.new + (if is_ok result then 1 else 0) ≡ steps_left self.old }
    {
        self.pass()?;
        self.inner.note(answered)?;
        self.left -= 1;
        Ok(())
    }
}
