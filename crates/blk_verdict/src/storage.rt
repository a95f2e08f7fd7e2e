// Whether data is where an address word says.
ghost use Rattle.std.specs.Prelude.{◌≡◌, ◌<◌, ◌==◌, IfOk, IsTrue, OnErr, true, false, is_some, if◌then◌else◌, Some, None};
ghost use Rattle.std.specs.Option.{ForSome};
ghost use Rattle.spec_image.specs.Image.{External as outside, length_of};
ghost use Rattle.spec_image.specs.Told.{ReadsOnly};
ghost use Rattle.spec_format.specs.Address.{external, external_number, kind_of};
ghost use Rattle.spec_folder.specs.View.{stored_at};
ghost use Rattle.blk_entry.specs.Keys as keys;
ghost use Rattle.blk_verdict.specs.VerdictClauses.{WhereAgrees};

use blk_addr::{Addr, Kind};
use blk_disk::{BlockFiles, file_of};
use blk_entry::stores;
use blk_io::{Failed, Folder};

/// Whether data of a size is stored as an address word says: the word is the right storage of the size and valid, and
/// an external file has this length.
///
/// One folder call asks for the length of an external file; none is made for blocks.
pub(crate) fn is_stored<F: Folder>(
    folder: &mut F,
    files: &BlockFiles,
    size: u32,
    word: u32,
) -> Result<bool, Failed>
    ensures stored { IfOk result (λ there. WhereAgrees (F.told folder.old) files.now (λ image. there ≡ is_some (stored_at image size word))) }
    ensures stores { IfOk result (λ there. IsTrue there → keys.stores files.now size word ≡ true) }
    ensures reads { ReadsOnly F.told F.faults folder.old folder.new (OnErr result) }
{
    if size == 0 {
        return Ok(word == 0);
    }
    let Some(addr) = storage(files, size, word) else {
        return Ok(false);
    };
    if is_external(addr) {
        has_length(folder, addr, size)
    } else {
        Ok(true)
    }
}

// The address that a word is, where it is the storage of data of a size, and is valid where it is one of blocks.
fn storage(files: &BlockFiles, size: u32, word: u32) -> Option<Addr>
    requires { 0 < size }
    ensures { result ≡ (if keys.stores files.now size word then Some word else None) }
{
    let addr = Addr::from_word(word)?;
    if stores(files, addr, size) {
        Some(addr)
    } else {
        None
    }
}

// Whether an address is that of an external file.
fn is_external(addr: Addr) -> bool
    ensures { result ≡ (kind_of addr == external) }
{
    addr.kind() == Kind::External
}

// Whether an external file has this length, which is above 0.
fn has_length<F: Folder>(folder: &mut F, addr: Addr, size: u32) -> Result<bool, Failed>
    requires kind { kind_of addr ≡ external }
    requires some { 0 < size }
    ensures length { IfOk result (λ has. ForSome (F.told folder.old).files (λ image. has ≡ (length_of image (outside (external_number addr)) == size))) }
    ensures reads { ReadsOnly F.told F.faults folder.old folder.new (OnErr result) }
{
    match folder.length(file_of(addr))? {
        Some(length) => Ok(length == u64::from(size)),
        None => Ok(false),
    }
}
