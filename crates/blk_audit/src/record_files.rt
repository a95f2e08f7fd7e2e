// Records that are read many by one folder call.
ghost use Rattle.std.specs.Prelude.{◌≡◌, ◌+◌, ◌*◌, ◌≤◌, ◌<◌, IfSome, IsTrue, OnOk, None, length, slice_get};
ghost use Rattle.std.specs.List.{list_any, range_with_len};
ghost use Rattle.std.specs.Option.{ForSome};
ghost use Rattle.spec_image.specs.Image.{Block as block, Image};
ghost use Rattle.spec_image.specs.Told.{ReadsOnly};
ghost use Rattle.spec_format.specs.Address.{blocks_256, kind_of};
ghost use Rattle.spec_format.specs.Claims.{BlockOf};
ghost use Rattle.spec_format.specs.Records.{entry_size};
ghost use Rattle.blk_addr.specs.Claims.{contains_claim};
ghost use Rattle.blk_io.specs.Faults.{IfDamaged, IfDevice, UndamagedWhere, OkFor};
ghost use Rattle.blk_disk.specs.Tables.{Agrees, stands_among};
ghost use Rattle.blk_audit.specs.Faults.{IfScanDamaged, IfScanDevice, IsRecordDamage, IsRecordsDamage};
ghost use Rattle.blk_audit.specs.Pieces.{blocks_of_piece, piece_length};
ghost use Rattle.blk_audit.specs.Records.{AreRecordsOf, IsSaidBy};
ghost use Rattle.blk_audit.specs.ScanClauses.{HasRecordBytes, AddsRecordsAt, ScanUndamagedWhere};

use crate::fault::ScanFault;
use crate::record_words::read_words;
use crate::records::{ReadRecord, first_of_record, record_of_bytes};
use blk_addr::{Addr, BLOCK_FILES, Claims, Kind, NoMemory, RECORD_BLOCK};
use blk_disk::BlockFiles;
use blk_io::{Fault, FileId, Folder, read_exact};
use blk_record::BlockHead;
use std::alloc::Global;

// The blocks of 256 bytes that one call reads: whole groups of four, so that a record never lies in two pieces.
const BLOCKS_OF_PIECE: u32 = 128;

// The pieces of a file with the most blocks.
const PIECES: u32 = 512;

const BLOCK: usize = RECORD_BLOCK as usize;

const PIECE: usize = BLOCK * BLOCKS_OF_PIECE as usize;

// A record that was read, with the address of its first block: 72 bytes.
#[derive(Clone, Copy)]
pub(crate) struct Placed {
    pub(crate) first: Addr,
    pub(crate) said: ReadRecord,
}

const _: () = prove!(size_of::<Placed>() == 72);

// The records that were read in pieces, by rising first block.
#[derive(Drop)]
pub(crate) struct Records {
    placed: Vec<Placed>,
}

impl Records {
    // The record of an address, if it was read in a piece.
    fn get(&self, addr: Addr) -> Option<ReadRecord>
        requires kind { kind_of addr ≡ blocks_256 }
        ensures { (image : Image) → AreRecordsOf image self.now → IfSome result (IsSaidBy image addr) }
    {
        let first = first_of_record(addr);
        let Some(placed) = self.at(self.place_of(first.word())) else {
            return None;
        };
        if placed.first.word() == first.word() {
            Some(placed.said)
        } else {
            None
        }
    }

    // One of the records that were read.
    fn at(&self, i: usize) -> Option<Placed>
        ensures { result ≡ slice_get self.now.placed.items i }
    {
        self.placed.get(i).copied()
    }

    // The place of a first block among those of the records, or where it would be.
    fn place_of(&self, first: u32) -> usize {
        let mut low = 0;
        let mut high = self.placed.len();
        while low < high {
            let middle = low + (high - low) / 2;
            if self.placed[middle].first.word() < first {
                low = middle + 1;
            } else {
                high = middle;
            }
        }
        low
    }

    // Adds the records of a piece of a file whose first blocks are named.
    fn add_piece(
        &mut self,
        named: &Claims,
        file: u8,
        first: u32,
        bytes: &[u8],
    ) -> Result<(), NoMemory>
        requires inside { first + blocks_of_piece ≤ 65536 }
        requires size { length bytes.now ≡ piece_length }
        ensures { OnOk result (AddsRecordsAt file first piece_length bytes.now self.old self.new) }
    {
        for i in 0..BLOCKS_OF_PIECE {
            let at = BLOCK * i as usize;
            self.add(named, file, first + i, &bytes[at..])?;
        }
        Ok(())
    }

    // Adds the record that begins with a block of a file, where the block is named; these are the bytes from it on.
    fn add(&mut self, named: &Claims, file: u8, start: u32, bytes: &[u8]) -> Result<(), NoMemory>
        requires small { start < 65536 }
        requires size { entry_size ≤ length bytes.now }
        ensures { OnOk result (AddsRecordsAt file start (length bytes.now) bytes.now self.old self.new) }
    {
        if !named.has_block(file, start) {
            return Ok(());
        }
        let first = Addr::of_blocks(Kind::B256, file, start, 1);
        let said = record_of_bytes(bytes);
        self.placed.push(Placed { first, said })?;
        Ok(())
    }

    // Reads a piece of a file that lies in it, by one folder call, and adds its records; no call where it has none.
    fn read_piece<F: Folder>(
        &mut self,
        folder: &mut F,
        named: &Claims,
        file: u8,
        first: u32,
    ) -> Result<(), ScanFault>
        requires inside { first + blocks_of_piece ≤ 65536 }
        ensures records { OnOk result (ForSome (F.told folder.old).files (λ image. AreRecordsOf image self.old → AreRecordsOf image self.new)) }
        ensures reads { ReadsOnly F.told F.faults folder.old folder.new (IfScanDevice result) }
        ensures damaged { IfScanDamaged result (IsRecordsDamage (F.told folder.new)) }
        ensures untold { ScanUndamagedWhere result (F.told folder.new) (HasRecordBytes file first piece_length) }
    {
        if !has_named(named, file, first) {
            return Ok(());
        }
        let mut bytes = [0u8; PIECE];
        let at = BlockHead::HEADER_LEN + u64::from(first) * BLOCK as u64;
        read_exact(folder, FileId::Block(file), at, &mut bytes)?;
        self.add_piece(named, file, first, &bytes)?;
        Ok(())
    }

    // Reads the pieces of a file that have a named block, up to the first that does not lie in it.
    fn read_file<F: Folder>(
        &mut self,
        folder: &mut F,
        files: &BlockFiles,
        named: &Claims,
        file: u8,
    ) -> Result<(), ScanFault>
        ensures records { OnOk result (ForSome (F.told folder.old).files (λ image. AreRecordsOf image self.old → AreRecordsOf image self.new)) }
        ensures reads { ReadsOnly F.told F.faults folder.old folder.new (IfScanDevice result) }
        ensures damaged { IfScanDamaged result (IsRecordsDamage (F.told folder.new)) }
        ensures untold { ScanUndamagedWhere result (F.told folder.new) (Agrees files.now) }
    {
        for piece in 0..PIECES {
            let first = piece * BLOCKS_OF_PIECE;
            let last = Addr::of_blocks(Kind::B256, file, first + BLOCKS_OF_PIECE - 1, 1);
            if !files.stands(last) {
                return Ok(());
            }
            self.read_piece(folder, named, file, first)?;
        }
        Ok(())
    }
}

// Whether one of the blocks of a piece is named.
fn has_named(named: &Claims, file: u8, first: u32) -> bool
    requires inside { first + blocks_of_piece ≤ 65536 }
    ensures { result ≡ list_any (λ b. contains_claim named.now (BlockOf file b)) (range_with_len first blocks_of_piece) }
{
    (first..first + BLOCKS_OF_PIECE).any(|block| named.has_block(file, block))
}

// Reads the records whose first blocks are named, file after file and each file in pieces.
pub(crate) fn read_records<F: Folder>(
    alloc: Global,
    folder: &mut F,
    files: &BlockFiles,
    named: &Claims,
) -> Result<Records, ScanFault>
    ensures records { OkFor result (F.told folder.old) (λ records image. AreRecordsOf image records) }
    ensures reads { ReadsOnly F.told F.faults folder.old folder.new (IfScanDevice result) }
    ensures damaged { IfScanDamaged result (IsRecordsDamage (F.told folder.new)) }
    ensures untold { ScanUndamagedWhere result (F.told folder.new) (Agrees files.now) }
{
    let mut records = Records {
        placed: Vec::new(alloc),
    };
    for n in 0..BLOCK_FILES as u32 {
        records.read_file(folder, files, named, n as u8)?;
    }
    Ok(records)
}

// The record of a valid address: it was read in a piece, or its words are read by one folder call.
pub(crate) fn record_of<F: Folder>(
    folder: &mut F,
    files: &BlockFiles,
    records: &Records,
    addr: Addr,
) -> Result<ReadRecord, Fault>
    requires kind { kind_of addr ≡ blocks_256 }
    requires stands { IsTrue (stands_among files.now addr) }
    ensures said { OkFor result (F.told folder.old) (λ said image. AreRecordsOf image records.now → IsSaidBy image addr said) }
    ensures reads { ReadsOnly F.told F.faults folder.old folder.new (IfDevice result) }
    ensures damaged { IfDamaged result (IsRecordDamage files.now (F.told folder.new)) }
    ensures untold { UndamagedWhere result (F.told folder.new) (Agrees files.now) }
{
    match records.get(addr) {
        Some(said) => Ok(said),
        None => read_record(folder, files, addr),
    }
}

// Reads the words of the record of a valid address, by one folder call.
fn read_record<F: Folder>(
    folder: &mut F,
    files: &BlockFiles,
    addr: Addr,
) -> Result<ReadRecord, Fault>
    requires kind { kind_of addr ≡ blocks_256 }
    requires stands { IsTrue (stands_among files.now addr) }
    ensures said { OkFor result (F.told folder.old) (λ said image. IsSaidBy image addr said) }
    ensures reads { ReadsOnly F.told F.faults folder.old folder.new (IfDevice result) }
    ensures damaged { IfDamaged result (IsRecordDamage files.now (F.told folder.new)) }
    ensures untold { UndamagedWhere result (F.told folder.new) (Agrees files.now) }
{
    let words = read_words(folder, files, addr)?;
    Ok(ReadRecord {
        words,
        hash_is_right: false,
    })
}
