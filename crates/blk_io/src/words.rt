// Words and bytes that are read whole, and words that are written one by one or side by side.
ghost use Rattle.std.specs.Prelude.{◌≡◌, ◌⊎◌, ◌+◌, ◌*◌, ◌%◌, ◌^◌, ◌≤◌, ◌<◌, All, None, length, map, OnOk, OnErr, IfOk, take};
ghost use Rattle.std.specs.Option.{ForSome};
ghost use Rattle.spec_image.specs.Bytes.{range_at, word_bytes};
ghost use Rattle.spec_image.specs.Image.{HasRange, byte, word};
ghost use Rattle.spec_image.specs.Steps.{word_step, word_steps};
ghost use Rattle.spec_image.specs.Told.{Applies, AppliesPrefix, Rises, ReadsOnly};
ghost use Rattle.blk_io.specs.FileNames.{file_of};
ghost use Rattle.blk_io.specs.Faults.{HasBytesAt, IfDamaged, IfDevice, IsShort};
ghost use Rattle.blk_io.specs.Neighbours.{AreSideBySide, run_from};

use crate::{Damage, Failed, Fault, FileId, Folder};

/// Writes a word, its low byte first. `Failed` comes where the folder failed; the word may then be written.
pub fn write_word<F: Folder>(
    folder: &mut F,
    file: FileId,
    at: u64,
    value: u32,
) -> Result<(), Failed>
    requires aligned { at % 4 ≡ 0 }
    requires inside { ForSome (F.told folder.old).files (λ image. HasRange image (file_of file) at 4) }
    ensures steps { OnOk result (Applies (F.told folder.old) (F.told folder.new) (word_step (file_of file) at value)) }
    ensures prefix { AppliesPrefix (F.told folder.old) (F.told folder.new) (word_step (file_of file) at value) }
    ensures later { F.faults folder.old ≤ F.faults folder.new }
    ensures failed { OnErr result (Rises (F.faults folder.old) (F.faults folder.new)) }
{
    folder.write_at(file, at, &value.to_le_bytes())
}

// The most words that one call writes.
const MOST_TOGETHER: usize = 8;

/// Writes these words one after the other, each at its offset. Words that lie side by side, each after the one before, are written by one call, eight at the
/// most. `Failed` comes where the folder failed; some of the words may then be written, from the first on.
pub fn write_words<F: Folder>(
    folder: &mut F,
    file: FileId,
    words: &[(u64, u32)],
) -> Result<(), Failed>
    requires aligned { All (λ w. w.0 % 4 ≡ 0) words.now }
    requires inside { ForSome (F.told folder.old).files (λ image. All (λ w. HasRange image (file_of file) w.0 4) words.now) }
    ensures steps { OnOk result (Applies (F.told folder.old) (F.told folder.new) (word_steps (file_of file) words.now)) }
    ensures prefix { AppliesPrefix (F.told folder.old) (F.told folder.new) (word_steps (file_of file) words.now) }
    ensures later { F.faults folder.old ≤ F.faults folder.new }
    ensures failed { OnErr result (Rises (F.faults folder.old) (F.faults folder.new)) }
{
    let mut start = 0;
    while start < words.len() {
        let run = front_run(&words[start..]);
        write_together(folder, file, run)?;
        start += run.len();
    }
    Ok(())
}

// The longest prefix of the words that lie side by side, each after the one before: eight at the most.
fn front_run(words: &[(u64, u32)]) -> &[(u64, u32)]
    requires some { 0 < length words.now }
    ensures inside { length result.now ≤ length words.now }
    ensures front { result.now ≡ take (length result.now) words.now }
    ensures some { 0 < length result.now }
    ensures few { length result.now ≤ 8 }
    ensures side_by_side { AreSideBySide result.now }
{
    let mut count = 1;
    while count < words.len()
        && count < MOST_TOGETHER
        && words[count - 1].0.checked_add(4) == Some(words[count].0)
    {
        count += 1;
    }
    &words[..count]
}

// Writes words that lie side by side, by one call.
fn write_together<F: Folder>(
    folder: &mut F,
    file: FileId,
    words: &[(u64, u32)],
) -> Result<(), Failed>
    requires some { 0 < length words.now }
    requires few { length words.now ≤ 8 }
    requires side_by_side { AreSideBySide words.now }
    requires aligned { All (λ w. w.0 % 4 ≡ 0) words.now }
    requires inside { ForSome (F.told folder.old).files (λ image. All (λ w. HasRange image (file_of file) w.0 4) words.now) }
    ensures steps { OnOk result (Applies (F.told folder.old) (F.told folder.new) (word_steps (file_of file) words.now)) }
    ensures prefix { AppliesPrefix (F.told folder.old) (F.told folder.new) (word_steps (file_of file) words.now) }
    ensures later { F.faults folder.old ≤ F.faults folder.new }
    ensures failed { OnErr result (Rises (F.faults folder.old) (F.faults folder.new)) }
{
    let bytes = bytes_of_all(words);
    folder.write_at(file, words[0].0, bytes[..words.len()].as_flattened())
}

// The bytes of each of these words, its low byte first.
fn bytes_of_all(words: &[(u64, u32)]) -> [[u8; 4]; MOST_TOGETHER]
    requires few { length words.now ≤ 8 }
    ensures { take (length words.now) result ≡ map (λ w. word_bytes w.1) words.now }
{
    let mut bytes = [[0u8; 4]; MOST_TOGETHER];
    for (i, (_, word)) in words.iter().enumerate() {
        bytes[i] = word.to_le_bytes();
    }
    bytes
}

/// Writes neighbouring words from a place on, by one call. `Failed` comes where the folder failed; some of
/// the words may then be written, from the first on.
pub fn write_run<F: Folder, const N: usize>(
    folder: &mut F,
    file: FileId,
    at: u64,
    words: &[u32; N],
) -> Result<(), Failed>
    requires aligned { at % 4 ≡ 0 }
    requires inside { ForSome (F.told folder.old).files (λ image. HasRange image (file_of file) at (4 * length words.now)) }
    ensures steps { OnOk result (Applies (F.told folder.old) (F.told folder.new) (word_steps (file_of file) (run_from at words.now))) }
    ensures prefix { AppliesPrefix (F.told folder.old) (F.told folder.new) (word_steps (file_of file) (run_from at words.now)) }
    ensures later { F.faults folder.old ≤ F.faults folder.new }
    ensures failed { OnErr result (Rises (F.faults folder.old) (F.faults folder.new)) }
{
    let bytes = bytes_of(words);
    folder.write_at(file, at, bytes.as_flattened())
}

// The bytes of each word, its low byte first.
fn bytes_of<const N: usize>(words: &[u32; N]) -> [[u8; 4]; N]
    ensures { result ≡ map word_bytes words.now }
{
    let mut bytes = [[0u8; 4]; N];
    for (i, word) in words.iter().enumerate() {
        bytes[i] = word.to_le_bytes();
    }
    bytes
}

/// Reads bytes of a file into the whole of `out`.
///
/// Too few bytes are corruption: the error has the place of the read, and, as its word, how many bytes there were. `Device`
/// comes where the folder failed.
pub fn read_exact<F: Folder>(
    folder: &mut F,
    file: FileId,
    at: u64,
    out: &mut [u8],
) -> Result<(), Fault>
    requires { length out.old < 2 ^ 32 }
    ensures bytes { OnOk result (ForSome (F.told folder.old).files (λ image. out.new ≡ range_at (byte image (file_of file)) at (length out.old))) }
    ensures inside { OnOk result (ForSome (F.told folder.old).files (λ image. HasRange image (file_of file) at (length out.old) ⊎ (length out.old ≡ 0))) }
    ensures short { IfDamaged result (IsShort (F.told folder.old) file at (length out.old)) }
    ensures untold { ForSome (F.told folder.old).files (HasBytesAt file at (length out.old)) → IfDamaged result (λ _. (F.told folder.old).files ≡ None) }
    ensures reads { ReadsOnly F.told F.faults folder.old folder.new (IfDevice result) }
{
    let n = folder.read_at(file, at, out)?;
    if n < out.len() {
        let found = n as u32;
        return Err(Fault::Damaged(Damage { file, at, found }));
    }
    Ok(())
}

/// Reads the word at a place, its low byte first. Too few bytes are corruption. `Device` comes where the folder failed.
pub fn read_word<F: Folder>(folder: &mut F, file: FileId, at: u64) -> Result<u32, Fault>
    ensures word { IfOk result (λ w. ForSome (F.told folder.old).files (λ image. w ≡ word image (file_of file) at)) }
    ensures inside { OnOk result (ForSome (F.told folder.old).files (λ image. HasRange image (file_of file) at 4)) }
    ensures short { IfDamaged result (IsShort (F.told folder.old) file at 4) }
    ensures untold { ForSome (F.told folder.old).files (HasBytesAt file at 4) → IfDamaged result (λ _. (F.told folder.old).files ≡ None) }
    ensures reads { ReadsOnly F.told F.faults folder.old folder.new (IfDevice result) }
{
    let mut word = [0u8; 4];
    read_exact(folder, file, at, &mut word)?;
    Ok(u32::from_le_bytes(word))
}
