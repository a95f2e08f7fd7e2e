// The files that addresses name, as a folder names them.
ghost use Rattle.std.specs.Prelude.{◌≡◌};
ghost use Rattle.blk_addr.specs.FileId.{file_of_word};
ghost use Rattle.blk_disk.specs.Names.{folder_name};

use blk_addr::Addr;
use blk_io::FileId;

/// The file of an address as the folder interface names it: the same variant and number as `addr.file()`.
pub fn file_of(addr: Addr) -> FileId
    ensures { result ≡ folder_name (file_of_word addr) }
{
    match addr.file() {
        blk_addr::FileId::Index => FileId::Index,
        blk_addr::FileId::Block(n) => FileId::Block(n),
        blk_addr::FileId::External(n) => FileId::External(n),
    }
}
