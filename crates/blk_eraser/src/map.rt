// The blocks that a write to the map of a block file frees.
ghost use Rattle.std.specs.Prelude.{◌≡◌, ◌+◌, ◌^◌, ◌<◌, ◌==◌, [], true, false, length, OnOk};
ghost use Rattle.std.specs.Int.{bit_at};
ghost use Rattle.std.specs.Option.{ForSome};
ghost use Rattle.spec_image.specs.Bytes.{content, range_at};
ghost use Rattle.spec_image.specs.Image.{Image, byte};
ghost use Rattle.spec_image.specs.Told.{Stays};
ghost use Rattle.spec_format.specs.Address.{header_size};
ghost use Rattle.spec_format.specs.BlockFiles.{most_blocks};
ghost use Rattle.spec_format.specs.Headers.{entry_size_of};
ghost use Rattle.blk_io.specs.FileNames.{file_of};
ghost use Rattle.blk_eraser.specs.Erasing.{IsBlockFile, frees, zeros_before_write};

use blk_io::{Failed, FileId, Folder, read_exact};
use blk_record::BlockHead;

/// How many bytes a header with its map has.
pub(crate) const HEADER_LEN: usize = 8192;

/// The place of the map in a header.
pub(crate) const MAP: usize = 80;

/// The blocks that have their bits in one byte of a map.
pub(crate) const BITS_OF_BYTE: usize = 8;

// Whether a bit of a byte is 1.
fn has_bit(byte: u8, bit: u32) -> bool
    requires { bit < 8 }
    ensures { result ≡ (bit_at byte bit == 1) }
{
    (byte >> bit) & 1 == 1
}

/// Whether a write of bytes at a place frees a block, by the header before it.
pub(crate) fn is_freed(header: &[u8], at: usize, bytes: &[u8], block: usize) -> bool
    requires whole { length header.now ≡ header_size }
    requires few { block < most_blocks }
    ensures { result ≡ frees header.now at bytes.now block }
{
    let place = MAP + block / BITS_OF_BYTE;
    if place < at || place - at >= bytes.len() {
        return false;
    }
    let bit = (block % BITS_OF_BYTE) as u32;
    has_bit(header[place], bit) && !has_bit(bytes[place - at], bit)
}

/// How many bytes a block has, by a header; 0 in one that isn't written yet.
pub(crate) fn block_size(header: &[u8]) -> u64
    requires { length header.now ≡ header_size }
    ensures size { result ≡ entry_size_of (content header.now) }
    ensures small { result < 2 ^ 32 }
{
    u64::from(BlockHead::new(header).entry_size())
}

/// Whether a write of bytes at a place touches a map. One that doesn't frees nothing.
pub(crate) fn touches_map(file: FileId, at: u64, bytes: &[u8]) -> bool
    ensures file { result ≡ true → IsBlockFile (file_of file) }
    ensures front { result ≡ true → at < header_size }
    ensures none { result ≡ false → (image : Image) → zeros_before_write image (file_of file) at bytes.now ≡ [] }
{
    match file {
        FileId::Index => false,
        FileId::Block(_) => at < HEADER_LEN as u64,
        FileId::External(_) => false,
    }
}

/// Reads the header of a block file. One that isn't there whole is a failure.
pub(crate) fn read_header<F: Folder>(
    folder: &mut F,
    file: FileId,
    out: &mut [u8],
) -> Result<(), Failed>
    requires { length out.old ≡ header_size }
    ensures bytes { OnOk result (ForSome (F.told folder.old).files (λ image. out.new ≡ range_at (byte image (file_of file)) 0 header_size)) }
    ensures stays { Stays (F.told folder.old) (F.told folder.new) }
{
    match read_exact(folder, file, 0, out) {
        Ok(()) => Ok(()),
        Err(_) => Err(Failed),
    }
}
