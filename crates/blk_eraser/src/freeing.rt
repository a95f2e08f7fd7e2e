// Blocks are overwritten by zeros before a write to the map frees them.
ghost use Rattle.std.specs.Prelude.{◌≡◌, ◌+◌, ◌^◌, ◌<◌, ◌≤◌, length, OnOk};
ghost use Rattle.std.specs.Option.{ForSome};
ghost use Rattle.spec_image.specs.Image.{length_of};
ghost use Rattle.spec_image.specs.Told.{Applies, AppliesPrefix, MakesPartOf, MakesSteps};
ghost use Rattle.spec_format.specs.Address.{header_size};
ghost use Rattle.spec_format.specs.BlockFiles.{most_blocks};
ghost use Rattle.blk_io.specs.FileNames.{file_of};
ghost use Rattle.blk_eraser.specs.Erasing.{IsBlockFile, WritesErasing, WritesErasingPrefix, zeros_over_block, zeros_over_freed, zeros_before_write};

use crate::map::{BITS_OF_BYTE, HEADER_LEN, MAP, block_size, is_freed, read_header, touches_map};
use crate::zeros::{erase, length};
use blk_io::{Failed, FileId, Folder};

// Writes zeros over a block, as far as it lies inside the file, which has this length.
fn erase_block<F: Folder>(
    folder: &mut F,
    file: FileId,
    size: u64,
    long: u64,
    block: usize,
) -> Result<(), Failed>
    requires sizes { size < 2 ^ 32 }
    requires few { block < most_blocks }
    requires known { ForSome (F.told folder.old).files (λ image. length_of image (file_of file) ≡ long) }
    ensures steps { OnOk result (Applies (F.told folder.old) (F.told folder.new) (zeros_over_block (file_of file) size long block)) }
    ensures prefix { AppliesPrefix (F.told folder.old) (F.told folder.new) (zeros_over_block (file_of file) size long block) }
    ensures known { ForSome (F.told folder.new).files (λ image. length_of image (file_of file) ≡ long) }
{
    let place = HEADER_LEN as u64 + block as u64 * size;
    if place >= long {
        return Ok(());
    }
    erase(folder, file, place, (place + size).min(long))
}

// Writes zeros over the blocks that a write of bytes at a place frees, by the header before it.
fn erase_freed<F: Folder>(
    folder: &mut F,
    file: FileId,
    long: u64,
    header: &[u8],
    at: usize,
    bytes: &[u8],
) -> Result<(), Failed>
    requires whole { length header.now ≡ header_size }
    requires front { at < header_size }
    requires known { ForSome (F.told folder.old).files (λ image. length_of image (file_of file) ≡ long) }
    ensures steps { OnOk result (Applies (F.told folder.old) (F.told folder.new) (zeros_over_freed header.now (file_of file) long at bytes.now)) }
    ensures prefix { AppliesPrefix (F.told folder.old) (F.told folder.new) (zeros_over_freed header.now (file_of file) long at bytes.now) }
    ensures known { ForSome (F.told folder.new).files (λ image. length_of image (file_of file) ≡ long) }
{
    let size = block_size(header);
    let end = BITS_OF_BYTE * (at + bytes.len().min(HEADER_LEN - at)).saturating_sub(MAP);
    let mut block = BITS_OF_BYTE * at.saturating_sub(MAP);
    while block < end {
        if is_freed(header, at, bytes, block) {
            erase_block(folder, file, size, long, block)?;
        }
        block += 1;
    }
    Ok(())
}

// Writes zeros over the blocks that a write of bytes at a place before the blocks of a block file frees.
fn erase_by_header<F: Folder>(
    folder: &mut F,
    file: FileId,
    long: u64,
    at: u64,
    bytes: &[u8],
) -> Result<(), Failed>
    requires file { IsBlockFile (file_of file) }
    requires front { at < header_size }
    requires known { ForSome (F.told folder.old).files (λ image. length_of image (file_of file) ≡ long) }
    requires inside { at + length bytes.now ≤ long }
    ensures steps { OnOk result (MakesSteps (F.told folder.old) (F.told folder.new) (λ image. zeros_before_write image (file_of file) at bytes.now)) }
    ensures prefix { MakesPartOf (F.told folder.old) (F.told folder.new) (λ image. zeros_before_write image (file_of file) at bytes.now) }
    ensures known { ForSome (F.told folder.new).files (λ image. length_of image (file_of file) ≡ long) }
{
    let mut header = [0u8; HEADER_LEN];
    read_header(folder, file, &mut header)?;
    erase_freed(folder, file, long, &header, at as usize, bytes)
}

// Writes zeros over the blocks that a write of bytes at a place of a file frees.
fn erase_before<F: Folder>(
    folder: &mut F,
    file: FileId,
    long: u64,
    at: u64,
    bytes: &[u8],
) -> Result<(), Failed>
    requires known { ForSome (F.told folder.old).files (λ image. length_of image (file_of file) ≡ long) }
    requires inside { at + length bytes.now ≤ long }
    ensures steps { OnOk result (MakesSteps (F.told folder.old) (F.told folder.new) (λ image. zeros_before_write image (file_of file) at bytes.now)) }
    ensures prefix { MakesPartOf (F.told folder.old) (F.told folder.new) (λ image. zeros_before_write image (file_of file) at bytes.now) }
    ensures known { ForSome (F.told folder.new).files (λ image. length_of image (file_of file) ≡ long) }
{
    if touches_map(file, at, bytes) {
        return erase_by_header(folder, file, long, at, bytes);
    }
    Ok(())
}

/// Writes bytes to a range that the file has, and before that zeros over the blocks that this frees.
pub(crate) fn write_over<F: Folder>(
    folder: &mut F,
    file: FileId,
    at: u64,
    bytes: &[u8],
) -> Result<(), Failed>
    ensures steps { OnOk result (WritesErasing (F.told folder.old) (F.told folder.new) (file_of file) at bytes.now) }
    ensures prefix { WritesErasingPrefix (F.told folder.old) (F.told folder.new) (file_of file) at bytes.now }
{
    let long = length(folder, file)?;
    if at > long || bytes.len() as u64 > long - at {
        return Err(Failed);
    }
    erase_before(folder, file, long, at, bytes)?;
    folder.write_at(file, at, bytes)
}
