// The bytes of a stream are read.
ghost use Rattle.std.specs.Prelude.{◌≡◌, ◌≤◌, ◌<◌, min, IfOk, IsTrue, OnOk, length};
ghost use Rattle.std.specs.Option.{ForSome};
ghost use Rattle.spec_image.specs.Told.{ReadsOnly};
ghost use Rattle.spec_format.specs.Address.{blocks_256, kind_of};
ghost use Rattle.blk_io.specs.Faults.{IfDamaged, IfDevice, OkFor, UndamagedWhere};
ghost use Rattle.blk_disk.specs.Tables.{stands_among};
ghost use Rattle.blk_entry.specs.Keys.{HasData, HasRecord, IsPiece};
ghost use Rattle.blk_stream.specs.StreamClauses.{IsPieceOfStream};
ghost use Rattle.blk_stream.specs.Streams.{HasStreamPlace, IsReadDamage, StreamsCanBeRead, address_word, size_word, stream_bytes};

use crate::places::place_of;
use blk_addr::Addr;
use blk_disk::BlockFiles;
use blk_entry::{read_data, read_head};
use blk_io::{Fault, Folder};

/// Copies bytes of a stream into a prefix of `out`: those from an offset on, as many as there are and as fit. The number of them is given, which is 0 at or
/// past the stream's end.
///
/// One folder call reads the record, and one the bytes, where there are any to be read. A failed check is a read that gave too few bytes, a wrong checksum of
/// the record, a size above 2147483647, or an address word that is not the storage of the size or isn't valid.
pub fn read<F: Folder>(
    f: &mut F,
    files: &BlockFiles,
    entry: Addr,
    stream: u8,
    offset: u64,
    out: &mut [u8],
) -> Result<usize, Fault>
    requires stream { stream < 3 }
    requires kind { kind_of entry ≡ blocks_256 }
    requires stands { IsTrue (stands_among files.now entry) }
    ensures within { IfOk result (λ n. n ≤ length out.old) }

    // A piece of the bytes where the record's words say that the stream lies, and so one of the stream.
    ensures bytes { OkFor result (F.told f.old) (λ n image. IsPiece (stream_bytes image entry stream) offset out.old out.new n) }
    ensures piece { OkFor result (F.told f.old) (IsPieceOfStream entry stream offset out.old out.new) }

    // The record's checksum matches or is absent, its words give the stream its storage, and the piece is in the file.
    ensures checked { OnOk result (ForSome (F.told f.old).files (HasRecord entry)) }
    ensures placed { OnOk result (ForSome (F.told f.old).files (HasStreamPlace files.now entry stream)) }
    ensures there { OkFor result (F.told f.old) (λ n image. HasData (address_word image entry stream) (min offset (size_word image entry stream)) n image) }
    ensures reads { ReadsOnly F.told F.faults f.old f.new (IfDevice result) }

    // An observable folder reports corruption only where the record has a wrong checksum or no three streams.
    ensures damaged { IfDamaged result (IsReadDamage files.now (F.told f.old) entry stream offset (length out.old)) }
    ensures untold { UndamagedWhere result (F.told f.old) (StreamsCanBeRead files.now entry) }
{
    let head = read_head(f, files, entry)?;
    let size = head.sizes[usize::from(stream)];
    let word = head.addrs[usize::from(stream)];
    let stored = place_of(files, entry, stream, size, word)?;
    let at = offset.min(u64::from(size)) as u32;
    let n = ((size - at) as usize).min(out.len());
    let Some(addr) = stored.addr else {
        return Ok(0);
    };
    if n == 0 {
        return Ok(0);
    }
    let piece = &mut out[..n];
    read_data(f, files, addr, at, piece)?;
    Ok(n)
}
