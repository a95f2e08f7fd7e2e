// Keys that are compared with those of entry records.
ghost use Rattle.std.specs.Prelude.{◌≡◌, ◌≤◌, ◌↔◌, IfOk, IsTrue, None, OnOk, length};
ghost use Rattle.std.specs.Option.{ForSome};
ghost use Rattle.spec_image.specs.Told.{ReadsOnly};
ghost use Rattle.spec_format.specs.Address.{blocks_256, kind_of};
ghost use Rattle.blk_io.specs.Faults.{IfDamaged, IfDevice, OkFor, UndamagedWhereBoth};
ghost use Rattle.blk_disk.specs.Tables.{Agrees, stands_among};
ghost use Rattle.blk_entry.specs.EntryClauses.{HasBytesByHead, IsKeyByHead, PlacesKeyOf};
ghost use Rattle.blk_entry.specs.Keys.{AreKeyBytes, CanBeRead, HasBytesOf, HasData, HasKeyBytes, HasReadableKey, HasRecord, IsCut, IsCutPiece, IsEntryOf, IsRecordHead, IsInFile, IsInside, IsKeyDamage, IsPlaceDamage, IsPlaced, data_at};

use crate::data::read_data;
use crate::keys::{Head, key_place, read_head};
use blk_addr::Addr;
use blk_disk::BlockFiles;
use blk_io::{Fault, Folder};
use blk_record::super_fast_hash;

// How many bytes are compared at a time: half of the longest key.
const PIECE: usize = 16_398;

/// Whether an entry has this very key, and its hash.
///
/// One folder call reads the record. Where its hash and length are those of the key, one more reads the key, or two
/// where it has more than 16398 bytes; the second only where the first piece is the same. A failed check is one of
/// those that `key_piece` gives.
pub fn key_equals<F: Folder>(
    f: &mut F,
    files: &BlockFiles,
    entry: Addr,
    key: &[u8],
) -> Result<bool, Fault>
    requires kind { kind_of entry ≡ blocks_256 }
    requires stands { IsTrue (stands_among files.now entry) }

    // The answer is true exactly where the bytes at the place that the record's words name are the key.
    ensures bytes { OkFor result (F.told f.old) (λ same image. IsTrue same ↔ HasBytesOf key.now entry image) }
    ensures equal { OkFor result (F.told f.old) (λ same image. HasReadableKey entry image → IsTrue same ↔ IsEntryOf key.now entry image) }

    // The record's checksum matches or is absent; where hash and length are the key's, the key has a place; where the key is the same, its bytes are in the
    // file.
    ensures checked { OnOk result (ForSome (F.told f.old).files (HasRecord entry)) }
    ensures placed { OnOk result (ForSome (F.told f.old).files (PlacesKeyOf files.now key.now entry)) }
    ensures there { IfOk result (λ same. IsTrue same → ForSome (F.told f.old).files (HasKeyBytes entry 0 (length key.now))) }
    ensures reads { ReadsOnly F.told F.faults f.old f.new (IfDevice result) }

    // An observable folder reports corruption only where the record has a wrong checksum or no key to read.
    ensures damaged { IfDamaged result (IsKeyDamage files.now (F.told f.old) entry (length key.now)) }
    ensures untold { ForSome (F.told f.old).files (CanBeRead files.now entry) → IfDamaged result (λ _. (F.told f.old).files ≡ None) }
{
    let head = read_head(f, files, entry)?;
    if head.hash != super_fast_hash(key) {
        return Ok(false);
    }
    key_is(f, files, entry, &head, key)
}

/// Whether an entry has this very key, where the words of its record were read before.
///
/// The record isn't read again, and its hash isn't looked at. Only where its length is that of the key is the key read:
/// by one folder call, or by two where it has more than 16398 bytes; the second only where the first piece is the same.
/// A failed check is a read of a piece that gave too few bytes, a length that the key can't have, or the word of a long
/// key that isn't a valid address which stores the key.
pub fn key_is<F: Folder>(
    folder: &mut F,
    files: &BlockFiles,
    entry: Addr,
    head: &Head,
    key: &[u8],
) -> Result<bool, Fault>
    requires kind { kind_of entry ≡ blocks_256 }
    requires stands { IsTrue (stands_among files.now entry) }

    // The answer is true exactly where the bytes at the place that those words name are the key.
    ensures bytes { OkFor result (F.told folder.old) (λ same image. IsTrue same ↔ AreKeyBytes key.now entry head.now.key_len head.now.long_key image) }
    ensures equal { OkFor result (F.told folder.old) (IsKeyByHead key.now entry head.now) }

    // Where the length is the key's, the key has a place; where the key is the same, its bytes are in the file.
    ensures placed { OnOk result (head.now.key_len ≡ length key.now → IsPlaced files.now entry head.now.key_len head.now.long_key) }
    ensures there { IfOk result (λ same. IsTrue same → ForSome (F.told folder.old).files (HasBytesByHead entry head.now (length key.now))) }
    ensures reads { ReadsOnly F.told F.faults folder.old folder.new (IfDevice result) }

    // An observable folder reports corruption only where the record has no key to read, or the given words aren't the record's.
    ensures damaged { IfDamaged result (IsPlaceDamage files.now (F.told folder.old) entry (length key.now) head.now.long_key) }
    ensures untold { UndamagedWhereBoth result (F.told folder.old) (CanBeRead files.now entry) (λ image. IsRecordHead image entry head.now) }
{
    if head.key_len as usize != key.len() {
        return Ok(false);
    }
    let place = key_place(files, entry, *head)?;
    data_is(folder, files, place.addr, place.skip, key)
}

// Whether these bytes are those of the data of an address, from a place in it on.
fn data_is<F: Folder>(
    folder: &mut F,
    files: &BlockFiles,
    addr: Addr,
    at: u32,
    bytes: &[u8],
) -> Result<bool, Fault>
    requires inside { IsInside files.now addr at (length bytes.now) }
    ensures same { OkFor result (F.told folder.old) (λ same image. IsTrue same ↔ (bytes.now ≡ data_at image addr at (length bytes.now))) }
    ensures short { IfDamaged result (IsCutPiece (F.told folder.old) addr at (length bytes.now)) }
    ensures there { IfOk result (λ same. IsTrue same → ForSome (F.told folder.old).files (HasData addr at (length bytes.now))) }
    ensures untold { UndamagedWhereBoth result (F.told folder.old) (Agrees files.now) (IsInFile addr at (length bytes.now)) }
    ensures reads { ReadsOnly F.told F.faults folder.old folder.new (IfDevice result) }
{
    let mut place = at;
    let mut rest = bytes;
    while !rest.is_empty() {
        let (piece, more) = rest.split_at(rest.len().min(PIECE));
        if !piece_is(folder, files, addr, place, piece)? {
            return Ok(false);
        }
        place += piece.len() as u32;
        rest = more;
    }
    Ok(true)
}

// Whether these few bytes are those of the data of an address, from a position in it on.
fn piece_is<F: Folder>(
    folder: &mut F,
    files: &BlockFiles,
    addr: Addr,
    at: u32,
    bytes: &[u8],
) -> Result<bool, Fault>
    requires few { length bytes.now ≤ 16398 }
    requires inside { IsInside files.now addr at (length bytes.now) }
    ensures same { OkFor result (F.told folder.old) (λ same image. IsTrue same ↔ (bytes.now ≡ data_at image addr at (length bytes.now))) }
    ensures short { IfDamaged result (IsCut (F.told folder.old) addr at (length bytes.now)) }
    ensures there { IfOk result (λ same. IsTrue same → ForSome (F.told folder.old).files (HasData addr at (length bytes.now))) }
    ensures untold { UndamagedWhereBoth result (F.told folder.old) (Agrees files.now) (IsInFile addr at (length bytes.now)) }
    ensures reads { ReadsOnly F.told F.faults folder.old folder.new (IfDevice result) }
{
    let mut buffer = [0u8; PIECE];
    let piece = &mut buffer[..bytes.len()];
    read_data(folder, files, addr, at, piece)?;
    Ok(*bytes == *piece)
}
