// Records with checksums at the start of blocks, and their updates.
ghost use Rattle.std.specs.Prelude.{[], ◌≡◌, ◌+◌, ◌^◌, ◌<◌, ◌≤◌, IsTrue, OnErr, OnOk, length};
ghost use Rattle.std.specs.Option.{ForSome};
ghost use Rattle.spec_image.specs.Steps.{with_words};
ghost use Rattle.spec_image.specs.Told.{Applies, AppliesPrefix, MakesPartOf, Rises, Stays, ReadsOnly, LeavesFrom, LeavesWhere, StopsWhere, MakesSteps};
ghost use Rattle.spec_format.specs.Address.{place};
ghost use Rattle.spec_format.specs.Records as records;
ghost use Rattle.blk_addr.specs.Kind.{kind_number};
ghost use Rattle.blk_record.specs.Fields.{IsField};
ghost use Rattle.blk_io.specs.declared.folder.FileId.TheVariants as FileId;
ghost use Rattle.blk_io.specs.Faults.{IfDamaged, IfDevice, UndamagedWhere};
ghost use Rattle.blk_disk.specs.Tables.{Agrees, stands_among};
ghost use Rattle.spec_format.specs.Sealed.{AreChanges, BeginsWithRecord, IsMidUpdate, RecordChecks, placed, record_size, seal_by_kind, seal_place, seal_steps, sealed, sealed_steps, size_by_kind, steps_over, update_steps, update_words};
ghost use Rattle.blk_disk.specs.Damages.{IsFailedRecord};
ghost use Rattle.blk_disk.specs.Unsealed.{missing_steps};
ghost use Rattle.blk_disk.specs.Clauses.{IsRecordAt, PassesUpdate, UpdatesRecord};

use crate::names::file_of;
use crate::seals::{missing_seal, seal_of, size_of, wrong_seal};
use crate::standing::place_of;
use crate::tables::BlockFiles;
use arrayvec::ArrayVec;
use blk_addr::{Addr, Kind};
use blk_io::{Damage, Failed, Fault, Folder, write_word, write_words};
use blk_record::{EntryMut, EntryView, NodeMut, NodeView, Record, RecordMut, super_fast_hash};

// The checksum twice, and four changes.
const MOST_WORDS: usize = 6;

impl BlockFiles {
    /// Changes at most four words of the record at the start of an address's blocks: of a node, or of an entry record. Each change is an offset in bytes from
    /// the start of the record, before the checksum, and the new word; no two are of one offset.
    ///
    /// The record is read by one folder call. Then its checksum becomes 0, the words are written in the order given, and the checksum becomes the hash: words
    /// that lie side by side by one call. Too few bytes of a record or a wrong checksum are corruption, and nothing is written. `Device` comes only where the
    /// folder failed in this call; a prefix of the words was then written.
    pub fn update_sealed<F: Folder>(
        &self,
        f: &mut F,
        addr: Addr,
        changes: &[(u32, u32)],
    ) -> Result<(), Fault>
        requires stands { IsTrue (stands_among self.now addr) }
        requires begins { BeginsWithRecord addr }
        requires changes { AreChanges (seal_place addr) changes.now }
        requires agrees { ForSome (F.told f.old).files (Agrees self.now) }
        ensures checked { OnOk result (ForSome (F.told f.old).files (RecordChecks addr)) }
        ensures updated { OnOk result (LeavesFrom (F.told f.old) (F.told f.new) (UpdatesRecord addr changes.now)) }
        ensures checks { ForSome (F.told f.old).files (RecordChecks addr) → ForSome (F.told f.new).files (RecordChecks addr) }
        ensures agrees { ForSome (F.told f.new).files (Agrees self.now) }
        ensures steps { OnOk result (MakesSteps (F.told f.old) (F.told f.new) (λ from. sealed_steps from addr changes.now)) }
        ensures prefix { MakesPartOf (F.told f.old) (F.told f.new) (λ from. sealed_steps from addr changes.now) }

        // If the record's checksum matches or is absent, that is so at each word of the update; the record has a prefix of the changes, and nothing else has
        // changed.
        ensures stops { StopsWhere (F.told f.old) (F.told f.new) (RecordChecks addr) (λ from. IsMidUpdate from addr changes.now) }

        // A failed check is a short read or a wrong checksum, and nothing was written. An observable folder reports one only for a wrong checksum.
        ensures damaged { IfDamaged result (IsFailedRecord (F.told f.old) addr (record_size addr)) }
        ensures unwritten { IfDamaged result (λ _. Stays (F.told f.old) (F.told f.new)) }
        ensures untold { UndamagedWhere result (F.told f.old) (RecordChecks addr) }

        // An opaque folder stays opaque.

        ensures later { F.faults f.old ≤ F.faults f.new }
        ensures device { IfDevice result (Rises (F.faults f.old) (F.faults f.new)) }
    {
        let mut window = [0u8; EntryView::SIZE];
        let bytes = &mut window[..size_of(addr.kind())];
        self.read_record(f, addr, bytes)?;
        self.update_record(f, addr, bytes, changes)?;
        Ok(())
    }

    /// Reads the record at the start of an address's blocks, of a node or of an entry record, by one folder call.
    ///
    /// Too few bytes and a wrong checksum are failed checks. `Device` comes only where the folder failed in this call.
    pub fn read_record<F: Folder>(
        &self,
        folder: &mut F,
        addr: Addr,
        bytes: &mut [u8],
    ) -> Result<(), Fault>
        requires stands { IsTrue (stands_among self.now addr) }
        requires begins { BeginsWithRecord addr }
        requires size { length bytes.old ≡ record_size addr }
        ensures bytes { OnOk result (ForSome (F.told folder.old).files (IsRecordAt addr bytes.new)) }
        ensures checked { OnOk result (ForSome (F.told folder.old).files (RecordChecks addr)) }
        ensures reads { ReadsOnly F.told F.faults folder.old folder.new (IfDevice result) }
        ensures damaged { IfDamaged result (IsFailedRecord (F.told folder.old) addr (record_size addr)) }
        ensures untold { ForSome (F.told folder.old).files (Agrees self.now) → UndamagedWhere result (F.told folder.old) (RecordChecks addr) }
    {
        self.read_block(folder, addr, 0, bytes)?;
        let Some(found) = wrong_seal(addr.kind(), bytes) else {
            return Ok(());
        };
        let file = file_of(addr);
        let at = place_of(addr) + u64::from(seal_of(addr.kind()));
        Err(Fault::Damaged(Damage { file, at, found }))
    }

    /// Changes at most four words of a record that was read, as `update_sealed` does, but without a read: the caller has its bytes, and gets them as they are
    /// afterwards.
    ///
    /// `Failed` comes only where the folder failed in this call; a prefix of the words was then written.
    pub fn update_record<F: Folder>(
        &self,
        folder: &mut F,
        addr: Addr,
        bytes: &mut [u8],
        changes: &[(u32, u32)],
    ) -> Result<(), Failed>
        requires stands { IsTrue (stands_among self.now addr) }
        requires begins { BeginsWithRecord addr }
        requires changes { AreChanges (seal_place addr) changes.now }
        requires size { length bytes.old ≡ record_size addr }
        requires agrees { ForSome (F.told folder.old).files (Agrees self.now) }
        ensures bytes { bytes.new ≡ sealed (seal_place addr) (with_words changes.now bytes.old) }
        ensures updated { OnOk result (LeavesWhere (F.told folder.old) (F.told folder.new) (IsRecordAt addr bytes.old) (UpdatesRecord addr changes.now)) }
        ensures agrees { ForSome (F.told folder.new).files (Agrees self.now) }
        ensures steps { OnOk result (Applies (F.told folder.old) (F.told folder.new) (steps_over bytes.old addr changes.now)) }
        ensures prefix { AppliesPrefix (F.told folder.old) (F.told folder.new) (steps_over bytes.old addr changes.now) }

        // If the record has these bytes and its checksum matches or is absent, that is so of the checksum at each word of the update; the record has a prefix
        // of the changes, and nothing else has changed.
        ensures stops { PassesUpdate (F.told folder.old) (F.told folder.new) addr bytes.old changes.now }
        ensures later { F.faults folder.old ≤ F.faults folder.new }
        ensures failed { OnErr result (Rises (F.faults folder.old) (F.faults folder.new)) }
    {
        let seal = seal_after(addr.kind(), bytes, changes);
        self.write_update(folder, addr, changes, seal)
    }

    /// Gives the record at the start of an address's blocks its checksum, the hash of the bytes before it.
    ///
    /// The record is read by one folder call, and one word is written where the checksum isn't the hash yet. Too few bytes of a record or a wrong checksum are
    /// corruption, and nothing is written. `Device` comes only where the folder failed in this call; the word may then be written.
    pub fn seal<F: Folder>(&self, folder: &mut F, addr: Addr) -> Result<(), Fault>
        requires stands { IsTrue (stands_among self.now addr) }
        requires begins { BeginsWithRecord addr }
        requires agrees { ForSome (F.told folder.old).files (Agrees self.now) }
        ensures checked { OnOk result (ForSome (F.told folder.old).files (RecordChecks addr)) }
        ensures updated { OnOk result (LeavesFrom (F.told folder.old) (F.told folder.new) (UpdatesRecord addr [])) }
        ensures agrees { ForSome (F.told folder.new).files (Agrees self.now) }
        ensures steps { OnOk result (MakesSteps (F.told folder.old) (F.told folder.new) (λ from. seal_steps from addr)) }
        ensures prefix { MakesPartOf (F.told folder.old) (F.told folder.new) (λ from. seal_steps from addr) }

        // Before and after the word the record has its fields and a checksum that matches or is absent, and nothing else has changed.
        ensures stops { StopsWhere (F.told folder.old) (F.told folder.new) (RecordChecks addr) (λ from. IsMidUpdate from addr []) }
        ensures damaged { IfDamaged result (IsFailedRecord (F.told folder.old) addr (record_size addr)) }
        ensures unwritten { IfDamaged result (λ _. Stays (F.told folder.old) (F.told folder.new)) }
        ensures untold { UndamagedWhere result (F.told folder.old) (RecordChecks addr) }
        ensures later { F.faults folder.old ≤ F.faults folder.new }
        ensures device { IfDevice result (Rises (F.faults folder.old) (F.faults folder.new)) }
    {
        let mut window = [0u8; EntryView::SIZE];
        let bytes = &mut window[..size_of(addr.kind())];
        self.read_record(folder, addr, bytes)?;
        self.write_seal(folder, addr, missing_seal(addr.kind(), bytes))?;
        Ok(())
    }

    // Writes a checksum, where it is absent.
    fn write_seal<F: Folder>(
        &self,
        folder: &mut F,
        addr: Addr,
        missing: Option<u32>,
    ) -> Result<(), Failed>
        requires stands { IsTrue (stands_among self.now addr) }
        requires begins { BeginsWithRecord addr }
        requires agrees { ForSome (F.told folder.old).files (Agrees self.now) }
        ensures steps { OnOk result (Applies (F.told folder.old) (F.told folder.new) (missing_steps addr missing)) }
        ensures prefix { AppliesPrefix (F.told folder.old) (F.told folder.new) (missing_steps addr missing) }
        ensures later { F.faults folder.old ≤ F.faults folder.new }
        ensures failed { OnErr result (Rises (F.faults folder.old) (F.faults folder.new)) }
    {
        let Some(seal) = missing else {
            return Ok(());
        };
        let at = place_of(addr) + u64::from(seal_of(addr.kind()));
        write_word(folder, file_of(addr), at, seal)
    }

    // Writes the words of an update, this checksum last.
    fn write_update<F: Folder>(
        &self,
        folder: &mut F,
        addr: Addr,
        changes: &[(u32, u32)],
        seal: u32,
    ) -> Result<(), Failed>
        requires stands { IsTrue (stands_among self.now addr) }
        requires begins { BeginsWithRecord addr }
        requires changes { AreChanges (seal_place addr) changes.now }
        requires agrees { ForSome (F.told folder.old).files (Agrees self.now) }
        ensures steps { OnOk result (Applies (F.told folder.old) (F.told folder.new) (update_steps addr changes.now seal)) }
        ensures prefix { AppliesPrefix (F.told folder.old) (F.told folder.new) (update_steps addr changes.now seal) }
        ensures later { F.faults folder.old ≤ F.faults folder.new }
        ensures failed { OnErr result (Rises (F.faults folder.old) (F.faults folder.new)) }
    {
        let words = words_of(place_of(addr), changes, seal_of(addr.kind()), seal);
        write_words(folder, file_of(addr), &words)
    }
}

// Changes a record, gives it its checksum, and answers that.
#[tactic(auto, unfolding(spec_format::specs::Sealed::size_by_kind, spec_format::specs::Sealed::seal_by_kind))]
fn seal_after(kind: Kind, bytes: &mut [u8], changes: &[(u32, u32)]) -> u32
    requires size { length bytes.old ≡ size_by_kind (kind_number kind) }
    requires changes { AreChanges (seal_by_kind (kind_number kind)) changes.now }
    ensures seal { result ≡ records.seal_of (seal_by_kind (kind_number kind)) (with_words changes.now bytes.old) }
    ensures bytes { bytes.new ≡ sealed (seal_by_kind (kind_number kind)) (with_words changes.now bytes.old) }
{
    match kind {
        Kind::Rankings => change(&mut NodeMut::new(bytes), NodeView::SEAL, changes),
        _ => change(&mut EntryMut::new(bytes), EntryView::SEAL, changes),
    }
}

// Changes a record whose checksum is at a place, gives it its checksum, and answers that.
fn change<R: RecordMut>(view: &mut R, place: usize, changes: &[(u32, u32)]) -> u32
    requires inside { IsField R.size place }
    requires changes { AreChanges place changes.now }
    ensures seal { result ≡ records.seal_of place (with_words changes.now (R.window_of view.old)) }
    ensures window { R.window_of view.new ≡ sealed place (with_words changes.now (R.window_of view.old)) }
    ensures same_reference { R.reference view.new ≡ R.reference view.old }
{
    for (at, value) in changes {
        view.set_word(*at as usize, *value);
    }
    let seal = super_fast_hash(&view.bytes()[..place]);
    view.set_word(place, seal);
    seal
}

// The words of an update of the record at a place of a file.
fn words_of(
    place: u64,
    changes: &[(u32, u32)],
    seal_at: u32,
    seal: u32,
) -> ArrayVec<(u64, u32), MOST_WORDS>
    requires few { length changes.now ≤ 4 }
    requires small { place < 2 ^ 32 }
    ensures { result.items ≡ placed place (update_words seal_at changes.now seal) }
{
    let mut words = ArrayVec::new();
    words.push((place + u64::from(seal_at), 0));
    for (at, value) in changes {
        words.push((place + u64::from(*at), *value));
    }
    words.push((place + u64::from(seal_at), seal));
    words
}
