// The write trace that a folder in memory keeps, a change for each call.
ghost use Rattle.std.specs.Prelude.{◌≡◌, ◌-◌, ◌^◌, ◌≤◌, [], ◌∷◌, ◌++◌, length, take, min, OnOk, OnErr};
ghost use Rattle.std.specs.Option.{option_map};
ghost use Rattle.spec_image.specs.Image.{File};
ghost use Rattle.spec_image.specs.Steps.{image_at, words};
ghost use Rattle.blk_io.specs.FileNames.{file_of};
ghost use Rattle.blk_io.specs.Files.{image_of};
ghost use Rattle.blk_io.specs.Trail.{kept_calls, kept_steps, steps_of_call, steps_of, prefix_in};

use crate::FileId;
use crate::mem_files::{MemFile, remove, resize, write_over};
use std::alloc::{AllocError, AllocFailed, Global};

/// What a call did to a file, or noted.
#[derive(Drop)]
pub enum Change {
    /// The call wrote these bytes from this place on.
    Wrote(FileId, u64, Vec<u8>),
    /// The call gave the file this length.
    Sized(FileId, u64),
    /// The call removed the file.
    Deleted(FileId),
    /// The call noted that so many commands are done.
    Noted(u64),
}

// Keeps a call in the write trace, where there is one.
pub(crate) fn keep(trail: &mut Option<Vec<Change>>, call: Change) -> Result<(), AllocFailed<Change>>
    ensures done { OnOk result (kept_steps trail.new ≡ option_map (λ s. s ++ steps_of_call call) (kept_steps trail.old)) }
    ensures calls { OnOk result (kept_calls trail.new ≡ option_map (λ calls. calls ++ call ∷ []) (kept_calls trail.old)) }
    ensures undone { OnErr result (kept_steps trail.new ≡ kept_steps trail.old) }
{
    match trail {
        Some(calls) => {
            calls.push(call)?;
            Ok(())
        }
        None => Ok(()),
    }
}

// Forgets the last call of the write trace, where there is one.
pub(crate) fn unkeep(trail: &mut Option<Vec<Change>>)
    ensures { kept_calls trail.new ≡ option_map (λ calls. take (length calls - 1) calls) (kept_calls trail.old) }
{
    match trail {
        Some(calls) => {
            calls.pop();
        }
        None => {}
    }
}

// Keeps a write in the write trace, where there is one.
pub(crate) fn keep_write(
    alloc: Global,
    trail: &mut Option<Vec<Change>>,
    file: FileId,
    at: u64,
    bytes: &[u8],
) -> Result<(), AllocError>
    ensures done { OnOk result (kept_steps trail.new ≡ option_map (λ s. s ++ words (file_of file) at bytes.now) (kept_steps trail.old)) }
    ensures undone { OnErr result (kept_steps trail.new ≡ kept_steps trail.old) }
{
    if trail.is_none() {
        return Ok(());
    }
    let bytes = bytes.to_vec(alloc)?;
    keep(trail, Change::Wrote(file, at, bytes))?;
    Ok(())
}

// How many bytes the first words of a write have.
fn front_len(at: u64, length: usize, words: u64) -> usize
    ensures { result ≡ prefix_in at length words }
{
    if words == 0 {
        return 0;
    }
    let first = 4 - at % 4;
    let front = first.saturating_add((words - 1).saturating_mul(4));
    if front < length as u64 {
        front as usize
    } else {
        length
    }
}

// The bytes of the first words of a write.
pub(crate) fn front_of(at: u64, bytes: &[u8], steps: u64) -> &[u8]
    ensures words { (file : File) → words file at result.now ≡ take steps (words file at bytes.now) }
    ensures within { length result.now ≤ length bytes.now }
{
    let n = front_len(at, bytes.len(), steps);
    &bytes[..n]
}

// How many words a write has.
pub(crate) fn word_count(at: u64, bytes: &[u8]) -> u64
    ensures { (file : File) → result ≡ length (words file at bytes.now) }
{
    let length = bytes.len() as u64;
    if length == 0 {
        return 0;
    }
    length / 4 + (at % 4 + length % 4 + 3) / 4
}

// How many steps a change has.
fn step_count(change: &Change) -> u64
    ensures { result ≡ length (steps_of_call change.now) }
{
    match change {
        Change::Wrote(_, at, bytes) => word_count(*at, bytes),
        Change::Sized(_, _) => 1,
        Change::Deleted(_) => 1,
        Change::Noted(_) => 1,
    }
}

// How many steps changes have, as far as a u64 reaches.
pub(crate) fn steps_in(changes: &[Change]) -> u64
    ensures { result ≡ min (length (steps_of changes.now)) (2 ^ 64 - 1) }
{
    let mut steps: u64 = 0;
    for change in changes {
        steps = steps.saturating_add(step_count(change));
    }
    steps
}

// Makes the first steps of a change.
fn redo(
    alloc: Global,
    files: &mut Vec<MemFile>,
    change: &Change,
    steps: u64,
) -> Result<(), AllocError>
    ensures { OnOk result (image_of files.new.items ≡ image_at (image_of files.old.items) (steps_of_call change.now) steps) }
{
    if steps == 0 {
        return Ok(());
    }
    match change {
        Change::Wrote(file, at, bytes) => {
            write_over(files, *file, *at, front_of(*at, bytes, steps));
            Ok(())
        }
        Change::Sized(file, length) => resize(alloc, files, *file, *length),
        Change::Deleted(file) => {
            remove(files, *file);
            Ok(())
        }
        Change::Noted(_) => Ok(()),
    }
}

// Makes the first steps of these changes.
pub(crate) fn replay(
    alloc: Global,
    files: &mut Vec<MemFile>,
    changes: &[Change],
    steps: u64,
) -> Result<(), AllocError>
    ensures { OnOk result (image_of files.new.items ≡ image_at (image_of files.old.items) (steps_of changes.now) steps) }
{
    let mut left = steps;
    for change in changes {
        redo(alloc, files, change, left)?;
        left = left.saturating_sub(step_count(change));
    }
    Ok(())
}
