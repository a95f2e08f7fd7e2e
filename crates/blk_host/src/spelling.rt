// How the names of cache files are spelled.
ghost use Rattle.std.specs.Prelude.{◌≡◌, ◌↔◌, ◌<◌, ◌≤◌, ◌^◌, ℕ, Some, IfOk, IfSome, string_bytes};
ghost use Rattle.std.specs.Fmt.{decimal};
ghost use Rattle.blk_io.specs.declared.folder.FileId.{FileId};
ghost use Rattle.blk_io.specs.Texts.{hex_text};
ghost use Rattle.blk_host.specs.Spelling.{IsCacheFile, name_text};

use blk_addr::LAST_EXTERNAL;
use blk_io::FileId;
use std::alloc::{AllocError, Global};

/// The name of a cache file.
pub fn name_of(alloc: Global, file: FileId) -> Result<String, AllocError>
    ensures { IfOk result (λ name. string_bytes name ≡ name_text file) }
{
    format!(in alloc; "{file}")
}

/// The cache file with a name, or None where no cache file has it.
pub fn file_of_name(alloc: Global, name: &str) -> Result<Option<FileId>, AllocError>
    ensures { IfOk result (λ found. (file : FileId) → (found ≡ Some file) ↔ (IsCacheFile file × (name.now ≡ name_text file))) }
{
    let Some(file) = read_name(name) else {
        return Ok(None);
    };
    let printed = name_of(alloc, file)?;
    if printed.as_str() == name {
        Ok(Some(file))
    } else {
        Ok(None)
    }
}

// A cache file, which is the one with the name where a cache file has it.
fn read_name(name: &str) -> Option<FileId>
    ensures read { (file : FileId) → IsCacheFile file → name.now ≡ name_text file → result ≡ Some file }
    ensures file { IfSome result IsCacheFile }
{
    if name == "index" {
        return Some(FileId::Index);
    }
    match name.strip_prefix("data_") {
        Some(number) => read_block(number),
        None => read_external(name.strip_prefix("f_")?),
    }
}

// The block file with a number, which may be spelled in any way.
fn read_block(number: &str) -> Option<FileId>
    ensures read { (n : ℕ) → n < 2 ^ 8 → number.now ≡ decimal n → result ≡ Some (FileId.Block n) }
    ensures file { IfSome result IsCacheFile }
{
    match number.parse() {
        Ok(n) => Some(FileId::Block(n)),
        Err(_) => None,
    }
}

// The external file with a number, which may be spelled in any way.
fn read_external(number: &str) -> Option<FileId>
    ensures read { (n : ℕ) → 1 ≤ n → n < 2 ^ 28 → number.now ≡ hex_text 6 n → result ≡ Some (FileId.External n) }
    ensures file { IfSome result IsCacheFile }
{
    match u32::from_str_radix(number, 16) {
        Ok(n) => external(n),
        Err(_) => None,
    }
}

// The external file with a number, where there can be one.
fn external(n: u32) -> Option<FileId>
    ensures there { 1 ≤ n → n < 2 ^ 28 → result ≡ Some (FileId.External n) }
    ensures file { IfSome result IsCacheFile }
{
    if 1 <= n && n <= LAST_EXTERNAL {
        Some(FileId::External(n))
    } else {
        None
    }
}
