// Files in memory, with their bytes.
ghost use Rattle.std.specs.Prelude.{◌≡◌, not, ◌+◌, ◌-◌, ◌≤◌, ◌<◌, [], ◌∷◌, length, take, drop, min, vec_len, vec_capacity, Some, None, OnOk, OnErr, IfOk, IfSome, IfNone};
ghost use Rattle.std.specs.Option.{ForSome, option_map};
ghost use Rattle.spec_image.specs.Bytes.{spliced};
ghost use Rattle.spec_image.specs.Image.{same_file, with_file};
ghost use Rattle.spec_image.specs.Steps.{SetLength, Delete, after, words};
ghost use Rattle.spec_image.specs.Order.{IsAfter, IsNextFile};
ghost use Rattle.spec_image.specs.Told.{GivesBytes};
ghost use Rattle.blk_io.specs.FileNames.{file_of};
ghost use Rattle.blk_io.specs.Files.{image_of, IsPlaceOf, IsNearer};

use crate::FileId;
use std::alloc::{AllocError, Global};

/// A file and its bytes.
#[derive(Drop)]
pub struct MemFile {
    /// The name of the file.
    pub file: FileId,
    /// The bytes of the file.
    pub bytes: Vec<u8>,
}

// The place of a file among the files.
fn place_of(files: &[MemFile], file: FileId) -> Option<usize>
    ensures found { IfSome result (λ i. IsPlaceOf files.now (file_of file) i) }
    ensures none { IfNone result (image_of files.now (file_of file) ≡ None) }
{
    for (i, one) in files.iter().enumerate() {
        if one.file == file {
            return Some(i);
        }
    }
    None
}

// The length of a file, or None where there is no such file.
pub(crate) fn length_in(files: &[MemFile], file: FileId) -> Option<u64>
    ensures { result ≡ option_map length (image_of files.now (file_of file)) }
{
    match place_of(files, file) {
        Some(i) => {
            let one = &files[i];
            Some(one.bytes.len() as u64)
        }
        None => None,
    }
}

// Moves the bytes from a place on into a prefix of `out`, as many as there are.
pub(crate) fn copy_front(bytes: &[u8], at: u64, out: &mut [u8]) -> usize
    ensures within { result ≤ length out.old }
    ensures count { result ≡ min (length out.old) (length bytes.now - at) }
    ensures front { take result out.new ≡ take result (drop at bytes.now) }
    ensures rest { drop result out.new ≡ drop result out.old }
{
    if at >= bytes.len() as u64 {
        return 0;
    }
    let (_, rest) = bytes.split_at(at as usize);
    let n = rest.len().min(out.len());
    copy_over(out, 0, &rest[..n]);
    n
}

// Moves bytes of a file into a prefix of `out`, as many as there are.
pub(crate) fn read_in(files: &[MemFile], file: FileId, at: u64, out: &mut [u8]) -> usize
    ensures within { result ≤ length out.old }
    ensures bytes { GivesBytes (image_of files.now) (file_of file) at out.old out.new result }
{
    match place_of(files, file) {
        Some(i) => {
            let one = &files[i];
            copy_front(&one.bytes, at, out)
        }
        None => 0,
    }
}

// Writes over bytes from a place on, which are there.
fn copy_over(bytes: &mut [u8], at: usize, new: &[u8])
    requires inside { at + length new.now ≤ length bytes.old }
    ensures { bytes.new ≡ spliced at new.now bytes.old }
{
    bytes[at..at + new.len()].copy_from_slice(new);
}

// Writes over bytes from a place on, as many as are there.
fn copy_inside(bytes: &mut [u8], at: u64, new: &[u8])
    ensures { bytes.new ≡ spliced at new.now bytes.old }
{
    if at >= bytes.len() as u64 {
        return;
    }
    let place = at as usize;
    let n = (bytes.len() - place).min(new.len());
    copy_over(bytes, place, &new[..n]);
}

// Writes over bytes of a file, where it is there and as many as it has.
pub(crate) fn write_over(files: &mut Vec<MemFile>, file: FileId, at: u64, bytes: &[u8])
    ensures { image_of files.new.items ≡ after (words (file_of file) at bytes.now) (image_of files.old.items) }
{
    if let Some(i) = place_of(files, file) {
        let one = &mut files[i];
        copy_inside(&mut one.bytes, at, bytes);
    }
}

// Gives a file this length.
pub(crate) fn resize(
    alloc: Global,
    files: &mut Vec<MemFile>,
    file: FileId,
    length: u64,
) -> Result<(), AllocError>
    ensures done { OnOk result (image_of files.new.items ≡ after (SetLength (file_of file) length ∷ []) (image_of files.old.items)) }
    ensures undone { OnErr result (image_of files.new.items ≡ image_of files.old.items) }
{
    match place_of(files, file) {
        Some(i) => {
            let one = &mut files[i];
            one.bytes.resize(length as usize, 0)?;
        }
        None => {
            let mut bytes = Vec::new(alloc);
            bytes.resize(length as usize, 0)?;
            files.push(MemFile { file, bytes })?;
        }
    }
    Ok(())
}

// Puts a file with these bytes, for which there is space.
pub(crate) fn put_file(files: &mut Vec<MemFile>, file: FileId, bytes: Vec<u8>)
    requires { vec_len files.old < vec_capacity files.old }
    ensures { image_of files.new.items ≡ with_file (image_of files.old.items) (file_of file) (Some bytes.items) }
{
    match place_of(files, file) {
        Some(i) => {
            let one = &mut files[i];
            one.bytes = bytes;
        }
        None => match files.push(MemFile { file, bytes }) {
            Ok(()) => {}
            Err(_) => unreachable!(),
        },
    }
}

// Removes a file.
pub(crate) fn remove(files: &mut Vec<MemFile>, file: FileId)
    ensures { image_of files.new.items ≡ after (Delete (file_of file) ∷ []) (image_of files.old.items) }
{
    files.retain(
        |one: &MemFile| -> bool
            ensures { result ≡ not (same_file (file_of one.now.file) (file_of file)) }
        { one.file != file },
    );
}

// A copy of the files.
pub(crate) fn copy_files(alloc: Global, files: &[MemFile]) -> Result<Vec<MemFile>, AllocError>
    ensures { IfOk result (λ copies. image_of copies.items ≡ image_of files.now) }
{
    let mut copies = Vec::new(alloc);
    for one in files {
        let bytes = Vec::from_slice(alloc, &one.bytes)?;
        copies.push(MemFile {
            file: one.file,
            bytes,
        })?;
    }
    Ok(copies)
}

/// The nearer of a file and the next one so far: the file, where it comes after `after` and before `next`.
pub fn nearer(file: FileId, after: Option<FileId>, next: Option<FileId>) -> Option<FileId>
    ensures { IsNearer (file_of file) (option_map file_of after) (option_map file_of next) (option_map file_of result) }
{
    if !file.is_after(after) {
        return next;
    }
    match next {
        Some(first) if first <= file => next,
        _ => Some(file),
    }
}

// The least of the files after this one.
pub(crate) fn next_file(files: &[MemFile], after: Option<FileId>) -> Option<FileId>
    ensures after { ForSome result (λ file. IsAfter (option_map file_of after) (file_of file)) }
    ensures next { IsNextFile (image_of files.now) (option_map file_of after) (option_map file_of result) }
{
    let mut next = None;
    for one in files {
        next = nearer(one.file, after, next);
    }
    next
}
