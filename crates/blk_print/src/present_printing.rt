// Bytes of an object with parts are printed, where they are all present.
ghost use Rattle.std.specs.Prelude.{◌≡◌, ◌≤◌, ◌+◌, IfSome, IsTrue, OnOk, length};
ghost use Rattle.std.specs.Option.{ForSome};
ghost use Rattle.spec_image.specs.Told.{ReadsOnly};
ghost use Rattle.blk_io.specs.Faults.{IfDamaged, IfDevice, UndamagedWhere};
ghost use Rattle.blk_io.specs.Streams.{GoesOn};
ghost use Rattle.blk_model.specs.Sizes.{largest_offset, longest_key, part_size};
ghost use Rattle.spec_format.specs.Address.{blocks_256, is_address, kind_of};
ghost use Rattle.spec_format.specs.Names.{longest_name};
ghost use Rattle.blk_disk.specs.Open.{IsOpen};
ghost use Rattle.blk_disk.specs.Tables.{is_record_among, stands_among};
ghost use Rattle.blk_object.specs.FailedChecks.{IsFailedCheck};
ghost use Rattle.blk_print.specs.PresentPrinting.{HasPresent, ForPresentBytes, ForPresentBytesIn, HasPresentIn};
ghost use Rattle.blk_evict.specs.RoomPrinting.{FailsWhereItRose};
ghost use Rattle.blk_print.specs.PrintCalls.{SaysText, SaysInPart};

use crate::range_printing::{StreamRange, print_range, print_ranges};
use blk_addr::Addr;
use blk_disk::BlockFiles;
use blk_io::{Fault, Folder, Sink};
use blk_ranges::{DATA, PART_SIZE, child_of};
use blk_sparse::{Parent, PartRecords, find_parts, read_signature};

/// A range of an object with parts, a parent: how many bytes from an offset on.
#[derive(Clone, Copy, Debug)]
pub struct PresentRange {
    pub entry: Addr,
    pub node: Addr,
    pub offset: u64,
    pub count: u64,
}

/// Prints the line of bytes of an object that are all present: their number, and then the bytes, from the one or two parts
/// that have them.
///
/// No folder call is made for no byte. Else two read the index and two the key, the parts are found by their names, which
/// are made after the longest key in `name`, and two are made for each 4096 bytes. Nothing is written. Where there is no
/// such part nothing more is printed. After a fault a prefix of the line is printed.
pub fn print_present<F: Folder, K: Sink>(
    folder: &mut F,
    files: &BlockFiles,
    name: &mut [u8],
    out: &mut K,
    failed: &mut bool,
    range: &PresentRange,
) -> Result<(), Fault>
    requires names { IsTrue (is_record_among files.now range.now.entry) }
    requires name { longest_key + longest_name ≤ length name.old }
    requires few { range.now.count ≤ part_size }
    requires inside { range.now.offset + range.now.count ≤ largest_offset }
    requires is_open { ForSome (F.told folder.old).files (IsOpen files.now) }
    ensures printed { OnOk result (ForPresentBytes (F.told folder.old) range.now (SaysText failed.old failed.new K.written out.old out.new)) }
    ensures part { ForPresentBytes (F.told folder.old) range.now (SaysInPart failed.old K.written out.old out.new) }
    ensures failed { FailsWhereItRose failed.old failed.new (K.faults out.old) (K.faults out.new) }
    ensures reads { ReadsOnly F.told F.faults folder.old folder.new (IfDevice result) }

    // Corruption is a check that fails on what is read here. An observable folder, with such an object, gives none.
    ensures damaged { IfDamaged result (IsFailedCheck files.now (F.told folder.new)) }
    ensures untold { UndamagedWhere result (F.told folder.old) (HasPresent range.now) }
    ensures later_out { GoesOn K.is K.faults out.old out.new }
{
    if range.count == 0 {
        return print_range(folder, files, out, failed, &stream_range(range.entry, 0, 0));
    }
    let signature = read_signature(folder, files, range.entry)?;
    let parent = Parent {
        entry: range.entry,
        node: range.node,
        signature,
    };
    let parts = find_parts(folder, files, &parent, name, range.offset, range.count)?;
    print_parts(folder, files, out, failed, range, &parts)
}

// Prints the line of some bytes of an object by the parts that have them, which were found.
fn print_parts<F: Folder, K: Sink>(
    folder: &mut F,
    files: &BlockFiles,
    out: &mut K,
    failed: &mut bool,
    range: &PresentRange,
    parts: &PartRecords,
) -> Result<(), Fault>
    requires some { 1 ≤ range.now.count }
    requires few { range.now.count ≤ part_size }
    requires inside { range.now.offset + range.now.count ≤ largest_offset }
    requires first_kind { IfSome parts.now.first (λ entry. kind_of entry ≡ blocks_256) }
    requires first_stands { IfSome parts.now.first (λ entry. IsTrue (stands_among files.now entry)) }
    requires second_kind { IfSome parts.now.second (λ entry. kind_of entry ≡ blocks_256) }
    requires second_stands { IfSome parts.now.second (λ entry. IsTrue (stands_among files.now entry)) }
    requires is_open { ForSome (F.told folder.old).files (IsOpen files.now) }
    ensures printed { OnOk result (ForPresentBytesIn (F.told folder.old) range.now parts.now (SaysText failed.old failed.new K.written out.old out.new)) }
    ensures part { ForPresentBytesIn (F.told folder.old) range.now parts.now (SaysInPart failed.old K.written out.old out.new) }
    ensures failed { FailsWhereItRose failed.old failed.new (K.faults out.old) (K.faults out.new) }
    ensures reads { ReadsOnly F.told F.faults folder.old folder.new (IfDevice result) }
    ensures damaged { IfDamaged result (IsFailedCheck files.now (F.told folder.new)) }
    ensures untold { UndamagedWhere result (F.told folder.old) (HasPresentIn range.now parts.now) }
    ensures later_out { GoesOn K.is K.faults out.old out.new }
{
    let (_, place) = child_of(range.offset);
    let Some(first) = parts.first else {
        return Ok(());
    };
    let cut = u64::from(PART_SIZE - place).min(range.count);
    let one = stream_range(first, u64::from(place), cut);
    if cut == range.count {
        return print_range(folder, files, out, failed, &one);
    }
    let Some(second) = parts.second else {
        return Ok(());
    };
    let two = stream_range(second, 0, range.count - cut);
    print_ranges(folder, files, out, failed, &one, &two)
}

// A range of the data of a part: how many bytes from a position on.
fn stream_range(entry: Addr, offset: u64, count: u64) -> StreamRange
    ensures entry { result.entry ≡ entry }
    ensures stream { result.stream ≡ 1 }
    ensures offset { result.offset ≡ offset }
    ensures count { result.count ≡ count }
    ensures address { IsTrue (is_address entry) }
{
    // Reading it tells the prover that the word is one of an address.
    let _word = entry.word();
    StreamRange {
        entry,
        stream: DATA,
        offset,
        count,
    }
}
