// Bytes of a file are overwritten by zeros.
ghost use Rattle.std.specs.Prelude.{◌≡◌, ◌-◌, ◌≤◌, OnOk, IfOk, min};
ghost use Rattle.std.specs.Option.{ForSome};
ghost use Rattle.spec_image.specs.Bytes.{zeros};
ghost use Rattle.spec_image.specs.Image.{length_of};
ghost use Rattle.spec_image.specs.Steps.{words};
ghost use Rattle.spec_image.specs.Told.{Applies, AppliesPrefix, Stays};
ghost use Rattle.blk_io.specs.FileNames.{file_of};
ghost use Rattle.blk_eraser.specs.Erasing.{CutsErasing, CutsErasingPrefix, DeletesErasing, DeletesErasingPrefix};

use blk_io::{Failed, FileId, Folder};

// The most bytes that one call writes.
const PIECE: usize = 4096;

// The length of a file, 0 where there is none.
pub(crate) fn length<F: Folder>(folder: &mut F, file: FileId) -> Result<u64, Failed>
    ensures length { IfOk result (λ n. ForSome (F.told folder.old).files (λ image. length_of image (file_of file) ≡ n)) }
    ensures stays { Stays (F.told folder.old) (F.told folder.new) }
{
    match folder.length(file)? {
        Some(n) => Ok(n),
        None => Ok(0),
    }
}

// The first n of some zeros.
#[tactic(auto, using(crate::proofs::ZeroWords::prefix_zeros))]
fn front(bytes: &[u8], n: usize) -> &[u8]
    requires blank { bytes.now ≡ zeros 4096 }
    requires few { n ≤ 4096 }
    ensures { result.now ≡ zeros n }
{
    &bytes[..n]
}

// Writes zeros over the bytes of a file from a place up to another, page by page.
#[tactic(auto, unfolding(spec_image::specs::Bytes::zeros))]
pub(crate) fn erase<F: Folder>(
    folder: &mut F,
    file: FileId,
    from: u64,
    end: u64,
) -> Result<(), Failed>
    requires rising { from ≤ end }
    requires inside { ForSome (F.told folder.old).files (λ image. end ≤ length_of image (file_of file)) }
    ensures steps { OnOk result (Applies (F.told folder.old) (F.told folder.new) (words (file_of file) from (zeros (end - from)))) }
    ensures prefix { AppliesPrefix (F.told folder.old) (F.told folder.new) (words (file_of file) from (zeros (end - from))) }
{
    let blank = [0u8; PIECE];
    let mut place = from;
    while place < end {
        let n = (PIECE as u64 - place % PIECE as u64).min(end - place);
        folder.write_at(file, place, front(&blank, n as usize))?;
        place += n;
    }
    Ok(())
}

/// Gives a file a length, after zeros over what that cuts off.
pub(crate) fn cut<F: Folder>(folder: &mut F, file: FileId, to: u64) -> Result<(), Failed>
    ensures steps { OnOk result (CutsErasing (F.told folder.old) (F.told folder.new) (file_of file) to) }
    ensures prefix { CutsErasingPrefix (F.told folder.old) (F.told folder.new) (file_of file) to }
{
    let long = length(folder, file)?;
    erase(folder, file, to.min(long), long)?;
    folder.set_len(file, to)
}

/// Removes a file, after zeros over its bytes.
pub(crate) fn remove<F: Folder>(folder: &mut F, file: FileId) -> Result<(), Failed>
    ensures steps { OnOk result (DeletesErasing (F.told folder.old) (F.told folder.new) (file_of file)) }
    ensures prefix { DeletesErasingPrefix (F.told folder.old) (F.told folder.new) (file_of file) }
{
    let long = length(folder, file)?;
    erase(folder, file, 0, long)?;
    folder.delete(file)
}
