// The counters of the index: the number of listed items and the sum of their costs.
ghost use Rattle.std.specs.Prelude.{◌≡◌, ◌<◌, ◌+◌, ◌/◌, ◌%◌, ◌^◌, [], IfOk, OnErr, OnOk};
ghost use Rattle.std.specs.Option.{ForSome};
ghost use Rattle.spec_image.specs.Told.{Passes, MayWrite, ReadsOnly};
ghost use Rattle.spec_format.specs.Headers.{HasWholeIndex, num_bytes64_place};
ghost use Rattle.blk_io.specs.Faults.{IfDamaged, IfDevice, OpaqueIfDamaged, UndamagedWhere};
ghost use Rattle.blk_disk.specs.Open.{IsOpen};
ghost use Rattle.law_folder.specs.IndexWrites.{IsIndexLong};
ghost use Rattle.law_state.specs.Changes.{KeepsWith};
ghost use Rattle.law_state.specs.CounterLaws.{AreCountersWritten};
ghost use Rattle.blk_object.specs.Counters.{AreCountedLess, AreCountedMore, AreIndexCounters, AreWrittenRaised};
ghost use Rattle.blk_object.specs.FailedChecks.{IsFailedCheck, ReadsTooFew};
ghost use Rattle.blk_object.specs.RemovingNext.{KeepsOut};
ghost use Rattle.blk_object.specs.Writing.{IsRiseCounted};

use blk_disk::BlockFiles;
use blk_index::{long, word};
use blk_io::{Failed, Fault, FileId, Folder, write_words};
use blk_record::{IndexHead, WORD_VALUES};

/// The counters of the index.
#[derive(Clone, Copy)]
pub(crate) struct Counters {
    /// The number of listed items.
    pub entries: u32,
    /// The sum of their costs.
    pub bytes: u64,
    /// The number of nodes of the LRU list.
    pub size: u32,
}

/// Reads the counters of the index.
pub(crate) fn read_counters<F: Folder>(folder: &mut F) -> Result<Counters, Fault>
    ensures read { IfOk result (λ counters. ForSome (F.told folder.old).files (AreIndexCounters counters)) }
    ensures reads { ReadsOnly F.told F.faults folder.old folder.new (IfDevice result) }
    ensures damaged { IfDamaged result (ReadsTooFew (F.told folder.new)) }
    ensures untold { UndamagedWhere result (F.told folder.old) HasWholeIndex }
{
    let entries = word(folder, IndexHead::NUM_ENTRIES)?;
    let bytes = long(folder, IndexHead::NUM_BYTES64)?;
    let size = word(folder, IndexHead::SIZES)?;
    Ok(Counters {
        entries,
        bytes,
        size,
    })
}

/// Raises the counters of the index by one item and its cost: three folder calls write them.
pub(crate) fn count_entry<F: Folder>(
    folder: &mut F,
    files: &BlockFiles,
    counters: &Counters,
    charge: u64,
) -> Result<(), Failed>
    requires is_open { ForSome (F.told folder.old).files (IsOpen files.now) }
    ensures written { OnOk result (ForSome (F.told folder.old).files (λ from. ForSome (F.told folder.new).files (AreWrittenRaised counters.now charge from))) }
    ensures stops { ForSome (F.told folder.old).files (λ from. Passes (F.told folder.old) (F.told folder.new) (KeepsWith [] [] from)) }
    ensures is_open { ForSome (F.told folder.new).files (IsOpen files.now) }
    ensures writes { MayWrite F.told F.faults folder.old folder.new (OnErr result) }
{
    let entries = counters.entries.wrapping_add(1);
    let bytes = counters.bytes.wrapping_add(charge);
    let size = counters.size.wrapping_add(1);
    set_counters(folder, files, entries, bytes, size)
}

/// Lowers the counters of the index by one item and its cost: three folder calls read them, and three write them.
pub fn count_less<F: Folder>(folder: &mut F, files: &BlockFiles, charge: u64) -> Result<(), Fault>
    requires is_open { ForSome (F.told folder.old).files (IsOpen files.now) }
    ensures counted { OnOk result (ForSome (F.told folder.old).files (λ from. ForSome (F.told folder.new).files (AreCountedLess charge from))) }
    ensures stops { ForSome (F.told folder.old).files (λ from. Passes (F.told folder.old) (F.told folder.new) (KeepsWith [] [] from)) }
    ensures stops_out { ForSome (F.told folder.old).files (λ from. Passes (F.told folder.old) (F.told folder.new) (KeepsOut from)) }
    ensures is_open { ForSome (F.told folder.new).files (IsOpen files.now) }
    ensures damaged { IfDamaged result (IsFailedCheck files.now (F.told folder.new)) }
    ensures untold { OpaqueIfDamaged result (F.told folder.old) }
    ensures writes { MayWrite F.told F.faults folder.old folder.new (IfDevice result) }
{
    let counters = read_counters(folder)?;
    let entries = counters.entries.wrapping_sub(1);
    let bytes = counters.bytes.wrapping_sub(charge);
    let size = counters.size.wrapping_sub(1);
    set_counters(folder, files, entries, bytes, size)?;
    Ok(())
}

/// Raises the counters of the index by so many items and a cost: three folder calls read them, and three write them.
pub fn count_more<F: Folder>(
    folder: &mut F,
    files: &BlockFiles,
    entries: u64,
    charge: u64,
) -> Result<(), Fault>
    requires is_open { ForSome (F.told folder.old).files (IsOpen files.now) }
    ensures counted { OnOk result (ForSome (F.told folder.old).files (λ from. ForSome (F.told folder.new).files (AreCountedMore entries charge from))) }
    ensures stops { ForSome (F.told folder.old).files (λ from. Passes (F.told folder.old) (F.told folder.new) (KeepsWith [] [] from)) }
    ensures is_open { ForSome (F.told folder.new).files (IsOpen files.now) }
    ensures damaged { IfDamaged result (IsFailedCheck files.now (F.told folder.new)) }
    ensures untold { OpaqueIfDamaged result (F.told folder.old) }
    ensures writes { MayWrite F.told F.faults folder.old folder.new (IfDevice result) }
{
    let counters = read_counters(folder)?;
    let more = (entries % WORD_VALUES) as u32;
    let risen = counters.entries.wrapping_add(more);
    let bytes = counters.bytes.wrapping_add(charge);
    let size = counters.size.wrapping_add(more);
    set_counters(folder, files, risen, bytes, size)?;
    Ok(())
}

/// Lowers the counter of bytes in the index by one number and raises it by another: one folder call reads it, and one writes it.
pub fn count_rise<F: Folder>(
    folder: &mut F,
    files: &BlockFiles,
    less: u64,
    more: u64,
) -> Result<(), Fault>
    requires is_open { ForSome (F.told folder.old).files (IsOpen files.now) }
    ensures counted { OnOk result (ForSome (F.told folder.old).files (λ from. ForSome (F.told folder.new).files (IsRiseCounted less more from))) }
    ensures stops { ForSome (F.told folder.old).files (λ from. Passes (F.told folder.old) (F.told folder.new) (KeepsWith [] [] from)) }
    ensures is_open { ForSome (F.told folder.new).files (IsOpen files.now) }
    ensures damaged { IfDamaged result (IsFailedCheck files.now (F.told folder.new)) }
    ensures untold { OpaqueIfDamaged result (F.told folder.old) }
    ensures writes { MayWrite F.told F.faults folder.old folder.new (IfDevice result) }
{
    let bytes = long(folder, IndexHead::NUM_BYTES64)?;
    let risen = rise(bytes, less, more);
    set_bytes(folder, files, risen)?;
    Ok(())
}

// What a sum is once it is less by one number and more by another, as a number of eight bytes.
fn rise(bytes: u64, less: u64, more: u64) -> u64
    ensures risen { (result + less) % 2 ^ 64 ≡ (bytes + more) % 2 ^ 64 }
    ensures small { result < 2 ^ 64 }
{
    bytes.wrapping_sub(less).wrapping_add(more)
}

// The low word of a number of eight bytes.
fn low_word(number: u64) -> u32
    ensures { result ≡ number % 2 ^ 32 }
{
    (number % WORD_VALUES) as u32
}

// The high word of a number of eight bytes.
fn high_word(number: u64) -> u32
    ensures { result ≡ number / 2 ^ 32 }
{
    (number / WORD_VALUES) as u32
}

// Writes the bytes that the index counts, by one folder call: their two words lie side by side.
fn set_bytes<F: Folder>(folder: &mut F, files: &BlockFiles, bytes: u64) -> Result<(), Failed>
    requires is_open { ForSome (F.told folder.old).files (IsOpen files.now) }
    ensures written { OnOk result (ForSome (F.told folder.old).files (λ from. ForSome (F.told folder.new).files (IsIndexLong num_bytes64_place bytes from))) }
    ensures stops { ForSome (F.told folder.old).files (λ from. Passes (F.told folder.old) (F.told folder.new) (KeepsWith [] [] from)) }
    ensures is_open { ForSome (F.told folder.new).files (IsOpen files.now) }
    ensures writes { MayWrite F.told F.faults folder.old folder.new (OnErr result) }
{
    // Only the contract needs the block files: naming them tells the prover what they say of the folder.
    let _files = files;
    let low = low_word(bytes);
    let high = high_word(bytes);
    write_words(
        folder,
        FileId::Index,
        &[
            (IndexHead::NUM_BYTES64, low),
            (IndexHead::NUM_BYTES64 + 4, high),
        ],
    )
}

// Writes the counters of the index, by three folder calls: the two words of the bytes lie side by side.
fn set_counters<F: Folder>(
    folder: &mut F,
    files: &BlockFiles,
    entries: u32,
    bytes: u64,
    size: u32,
) -> Result<(), Failed>
    requires is_open { ForSome (F.told folder.old).files (IsOpen files.now) }
    ensures written { OnOk result (ForSome (F.told folder.old).files (λ from. ForSome (F.told folder.new).files (AreCountersWritten entries bytes size from))) }
    ensures stops { ForSome (F.told folder.old).files (λ from. Passes (F.told folder.old) (F.told folder.new) (KeepsWith [] [] from)) }
    ensures stops_out { ForSome (F.told folder.old).files (λ from. Passes (F.told folder.old) (F.told folder.new) (KeepsOut from)) }
    ensures is_open { ForSome (F.told folder.new).files (IsOpen files.now) }
    ensures writes { MayWrite F.told F.faults folder.old folder.new (OnErr result) }
{
    // Only the contract needs the block files: naming them tells the prover what they say of the folder.
    let _files = files;
    let low = low_word(bytes);
    let high = high_word(bytes);
    write_words(
        folder,
        FileId::Index,
        &[
            (IndexHead::NUM_ENTRIES, entries),
            (IndexHead::NUM_BYTES64, low),
            (IndexHead::NUM_BYTES64 + 4, high),
            (IndexHead::SIZES, size),
        ],
    )
}
