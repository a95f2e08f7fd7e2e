// Bytes of a stream are printed.
ghost use Rattle.std.specs.Prelude.{◌≡◌, ◌≤◌, ◌<◌, ◌+◌, ◌^◌, ◌++◌, IsTrue, OnErr, OnOk, codes, length};
ghost use Rattle.hex.specs.Hex.{encode_lower};
ghost use Rattle.spec_image.specs.Told.{ReadsOnly};
ghost use Rattle.blk_io.specs.Faults.{IfDamaged, IfDevice, OpaqueIfDamaged, UndamagedWhere};
ghost use Rattle.blk_io.specs.Streams.{GoesOn};
ghost use Rattle.blk_disk.specs.Tables.{is_record_among};
ghost use Rattle.blk_script.specs.Spelling.{data_text, number_text};
ghost use Rattle.blk_object.specs.FailedChecks.{IsFailedCheck};
ghost use Rattle.blk_print.specs.RangePrinting.{HasBytes, ForText, ForRanges, WhereRanges};
ghost use Rattle.blk_evict.specs.RoomPrinting.{FailsWhereItRose, PrintsUnlessFailed};
ghost use Rattle.blk_print.specs.PrintCalls.{SaysText, SaysInPart, reply_with};

use blk_addr::Addr;
use blk_disk::BlockFiles;
use blk_entry::record_damage;
use blk_io::{Fault, Folder, Sink};
use blk_record::EntryView;
use blk_script::{print_bytes, print_number};
use blk_stream::read;

// How many bytes are read and printed at a time.
const PIECE: u64 = 4096;

/// A range of a stream of a record: how many bytes from an offset on.
#[derive(Clone, Copy, Debug)]
pub struct StreamRange {
    pub entry: Addr,
    pub stream: u8,
    pub offset: u64,
    pub count: u64,
}

/// Prints the line of bytes of a stream: their number, and then the bytes.
///
/// Two folder calls are made for each 4096 bytes. Nothing is written. After a fault a prefix of the line is printed. A
/// failed check is one of `read`, or that the stream has become shorter.
pub fn print_range<F: Folder, K: Sink>(
    folder: &mut F,
    files: &BlockFiles,
    out: &mut K,
    failed: &mut bool,
    range: &StreamRange,
) -> Result<(), Fault>
    requires names { IsTrue (is_record_among files.now range.now.entry) }
    requires stream { range.now.stream < 3 }
    requires fits { range.now.offset + range.now.count < 2 ^ 64 }
    ensures printed { OnOk result (ForText (F.told folder.old) files.now range.now reply_with (SaysText failed.old failed.new K.written out.old out.new)) }
    ensures part { ForText (F.told folder.old) files.now range.now reply_with (SaysInPart failed.old K.written out.old out.new) }
    ensures failed { FailsWhereItRose failed.old failed.new (K.faults out.old) (K.faults out.new) }
    ensures reads { ReadsOnly F.told F.faults folder.old folder.new (IfDevice result) }
    ensures damaged { IfDamaged result (IsFailedCheck files.now (F.told folder.new)) }
    ensures untold { UndamagedWhere result (F.told folder.old) (HasBytes files.now range.now) }
    ensures later_out { GoesOn K.is K.faults out.old out.new }
{
    say_front(out, failed, range.count);
    print_data(folder, files, out, failed, range)?;
    say_text(out, failed, b"\n");
    Ok(())
}

/// Prints the line of bytes of two streams, one after the other: how many they are together, and then the bytes.
///
/// Two folder calls are made for each 4096 bytes of either. Nothing is written. After a fault a prefix of the line is
/// printed. A failed check is one of `read`, or that a stream has become shorter.
pub(crate) fn print_ranges<F: Folder, K: Sink>(
    folder: &mut F,
    files: &BlockFiles,
    out: &mut K,
    failed: &mut bool,
    first: &StreamRange,
    second: &StreamRange,
) -> Result<(), Fault>
    requires some { 1 ≤ first.now.count }
    requires together { first.now.count + second.now.count < 2 ^ 64 }
    requires first_names { IsTrue (is_record_among files.now first.now.entry) }
    requires second_names { IsTrue (is_record_among files.now second.now.entry) }
    requires first_stream { first.now.stream < 3 }
    requires second_stream { second.now.stream < 3 }
    requires first_fits { first.now.offset + first.now.count < 2 ^ 64 }
    requires second_fits { second.now.offset + second.now.count < 2 ^ 64 }
    ensures printed { OnOk result (ForRanges (F.told folder.old) files.now first.now second.now (SaysText failed.old failed.new K.written out.old out.new)) }
    ensures part { ForRanges (F.told folder.old) files.now first.now second.now (SaysInPart failed.old K.written out.old out.new) }
    ensures failed { FailsWhereItRose failed.old failed.new (K.faults out.old) (K.faults out.new) }
    ensures reads { ReadsOnly F.told F.faults folder.old folder.new (IfDevice result) }
    ensures damaged { IfDamaged result (IsFailedCheck files.now (F.told folder.new)) }
    ensures untold { WhereRanges (F.told folder.old) files.now first.now second.now (OpaqueIfDamaged result (F.told folder.old)) }
    ensures later_out { GoesOn K.is K.faults out.old out.new }
{
    say_front(out, failed, first.count + second.count);
    print_pieces(folder, files, out, failed, first)?;
    print_pieces(folder, files, out, failed, second)?;
    say_text(out, failed, b"\n");
    Ok(())
}

// Prints bytes of a stream, `-` where there are none.
fn print_data<F: Folder, K: Sink>(
    folder: &mut F,
    files: &BlockFiles,
    out: &mut K,
    failed: &mut bool,
    range: &StreamRange,
) -> Result<(), Fault>
    requires names { IsTrue (is_record_among files.now range.now.entry) }
    requires stream { range.now.stream < 3 }
    requires fits { range.now.offset + range.now.count < 2 ^ 64 }
    ensures printed { OnOk result (ForText (F.told folder.old) files.now range.now data_text (SaysText failed.old failed.new K.written out.old out.new)) }
    ensures part { ForText (F.told folder.old) files.now range.now data_text (SaysInPart failed.old K.written out.old out.new) }
    ensures failed { FailsWhereItRose failed.old failed.new (K.faults out.old) (K.faults out.new) }
    ensures reads { ReadsOnly F.told F.faults folder.old folder.new (IfDevice result) }
    ensures damaged { IfDamaged result (IsFailedCheck files.now (F.told folder.new)) }
    ensures untold { UndamagedWhere result (F.told folder.old) (HasBytes files.now range.now) }
    ensures later_out { GoesOn K.is K.faults out.old out.new }
{
    if range.count == 0 {
        say_text(out, failed, b"-");
        return Ok(());
    }
    print_pieces(folder, files, out, failed, range)
}

// Prints bytes of a stream, piece by piece.
fn print_pieces<F: Folder, K: Sink>(
    folder: &mut F,
    files: &BlockFiles,
    out: &mut K,
    failed: &mut bool,
    range: &StreamRange,
) -> Result<(), Fault>
    requires names { IsTrue (is_record_among files.now range.now.entry) }
    requires stream { range.now.stream < 3 }
    requires fits { range.now.offset + range.now.count < 2 ^ 64 }
    ensures printed { OnOk result (ForText (F.told folder.old) files.now range.now encode_lower (SaysText failed.old failed.new K.written out.old out.new)) }
    ensures part { ForText (F.told folder.old) files.now range.now encode_lower (SaysInPart failed.old K.written out.old out.new) }
    ensures failed { FailsWhereItRose failed.old failed.new (K.faults out.old) (K.faults out.new) }
    ensures reads { ReadsOnly F.told F.faults folder.old folder.new (IfDevice result) }
    ensures damaged { IfDamaged result (IsFailedCheck files.now (F.told folder.new)) }
    ensures untold { UndamagedWhere result (F.told folder.old) (HasBytes files.now range.now) }
    ensures later_out { GoesOn K.is K.faults out.old out.new }
{
    let mut done = 0;
    while done < range.count {
        let next = (range.count - done).min(PIECE);
        let piece = StreamRange {
            entry: range.entry,
            stream: range.stream,
            offset: range.offset + done,
            count: next,
        };
        print_piece(folder, files, out, failed, &piece)?;
        done += next;
    }
    Ok(())
}

// Prints a few bytes of a stream. A failed check is one of the read, or that the stream has become shorter.
fn print_piece<F: Folder, K: Sink>(
    folder: &mut F,
    files: &BlockFiles,
    out: &mut K,
    failed: &mut bool,
    range: &StreamRange,
) -> Result<(), Fault>
    requires few { range.now.count ≤ 4096 }
    requires names { IsTrue (is_record_among files.now range.now.entry) }
    requires stream { range.now.stream < 3 }
    ensures printed { OnOk result (ForText (F.told folder.old) files.now range.now encode_lower (SaysText failed.old failed.new K.written out.old out.new)) }
    ensures unprinted { OnErr result (K.written out.new ≡ K.written out.old) }
    ensures failed { FailsWhereItRose failed.old failed.new (K.faults out.old) (K.faults out.new) }
    ensures reads { ReadsOnly F.told F.faults folder.old folder.new (IfDevice result) }
    ensures damaged { IfDamaged result (IsFailedCheck files.now (F.told folder.new)) }
    ensures untold { UndamagedWhere result (F.told folder.old) (HasBytes files.now range.now) }
    ensures later_out { GoesOn K.is K.faults out.old out.new }
{
    let mut buffer = [0u8; PIECE as usize];
    let piece = &mut buffer[..range.count as usize];
    print_through(folder, files, out, failed, range, piece)
}

// Reads bytes of a stream into the whole of `piece`, and prints them.
fn print_through<F: Folder, K: Sink>(
    folder: &mut F,
    files: &BlockFiles,
    out: &mut K,
    failed: &mut bool,
    range: &StreamRange,
    piece: &mut [u8],
) -> Result<(), Fault>
    requires few { range.now.count ≤ 4096 }
    requires long { length piece.old ≡ range.now.count }
    requires names { IsTrue (is_record_among files.now range.now.entry) }
    requires stream { range.now.stream < 3 }
    ensures printed { OnOk result (ForText (F.told folder.old) files.now range.now encode_lower (SaysText failed.old failed.new K.written out.old out.new)) }
    ensures unprinted { OnErr result (K.written out.new ≡ K.written out.old) }
    ensures failed { FailsWhereItRose failed.old failed.new (K.faults out.old) (K.faults out.new) }
    ensures reads { ReadsOnly F.told F.faults folder.old folder.new (IfDevice result) }
    ensures damaged { IfDamaged result (IsFailedCheck files.now (F.told folder.new)) }
    ensures untold { UndamagedWhere result (F.told folder.old) (HasBytes files.now range.now) }
    ensures later_out { GoesOn K.is K.faults out.old out.new }
{
    let number = read(
        folder,
        files,
        range.entry,
        range.stream,
        range.offset,
        piece,
    )?;
    if number < piece.len() {
        return Err(record_damage(
            range.entry,
            EntryView::DATA_SIZE + 4 * u32::from(range.stream),
            number as u32,
        ));
    }
    say_bytes(out, failed, piece);
    Ok(())
}

// Prints the start of a line of data, unless the output failed before: the word, the number of bytes, and a space after
// each.
fn say_front<K: Sink>(out: &mut K, failed: &mut bool, number: u64)
    ensures prints { PrintsUnlessFailed failed.old failed.new (K.written out.old) (K.written out.new) (codes "data " ++ (number_text number ++ codes " ")) }
    ensures failed { FailsWhereItRose failed.old failed.new (K.faults out.old) (K.faults out.new) }
    ensures later { GoesOn K.is K.faults out.old out.new }
{
    say_text(out, failed, b"data ");
    say_digits(out, failed, number);
    say_text(out, failed, b" ");
}

// Prints a number in decimal, unless the output failed before.
fn say_digits<K: Sink>(out: &mut K, failed: &mut bool, number: u64)
    ensures prints { PrintsUnlessFailed failed.old failed.new (K.written out.old) (K.written out.new) (number_text number) }
    ensures failed { FailsWhereItRose failed.old failed.new (K.faults out.old) (K.faults out.new) }
    ensures later { GoesOn K.is K.faults out.old out.new }
{
    if *failed {
        return;
    }
    *failed = print_number(out, number).is_err();
}

// Prints two hexadecimal digits for each byte, unless the output failed before.
fn say_bytes<K: Sink>(out: &mut K, failed: &mut bool, bytes: &[u8])
    ensures prints { PrintsUnlessFailed failed.old failed.new (K.written out.old) (K.written out.new) (encode_lower bytes.now) }
    ensures failed { FailsWhereItRose failed.old failed.new (K.faults out.old) (K.faults out.new) }
    ensures later { GoesOn K.is K.faults out.old out.new }
{
    if *failed {
        return;
    }
    *failed = print_bytes(out, bytes).is_err();
}

// Prints a text, unless the output failed before.
fn say_text<K: Sink>(out: &mut K, failed: &mut bool, text: &[u8])
    ensures prints { PrintsUnlessFailed failed.old failed.new (K.written out.old) (K.written out.new) text.now }
    ensures failed { FailsWhereItRose failed.old failed.new (K.faults out.old) (K.faults out.new) }
    ensures later { GoesOn K.is K.faults out.old out.new }
{
    if *failed {
        return;
    }
    *failed = out.put(text).is_err();
}
