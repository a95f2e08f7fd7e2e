// The bytes of data, which lie in blocks or in an external file.
ghost use Rattle.std.specs.Prelude.{◌≡◌, ◌+◌, ◌≤◌, ◌==◌, OnErr, OnOk, length};
ghost use Rattle.std.specs.Option.{ForSome};
ghost use Rattle.spec_image.specs.Footprint.{SameOutside};
ghost use Rattle.spec_image.specs.Told.{Applies, AppliesPrefix, Rises, ReadsOnly, StopsFrom};
ghost use Rattle.spec_format.specs.Address.{kind_of};
ghost use Rattle.blk_addr.specs.Kind.{kind_number};
ghost use Rattle.blk_io.specs.Faults.{IfDamaged, IfDevice, UndamagedWhereBoth};
ghost use Rattle.blk_disk.specs.Tables.{Agrees};
ghost use Rattle.blk_entry.specs.Keys.{HasData, IsCut, IsInFile, IsInside, data_at, data_range};
ghost use Rattle.blk_entry.specs.Steps.{data_steps, ended_steps};

use blk_addr::{Addr, Kind};
use blk_disk::BlockFiles;
use blk_io::{Failed, Fault, Folder};

/// Reads bytes of the data of an address, from a place in it on, into the whole of `out`: of its blocks, or
/// of its external file.
///
/// One folder call reads them. Too few bytes are corruption: the error has the place of the read, and, as its word, how many
/// bytes there were.
pub fn read_data<F: Folder>(
    folder: &mut F,
    files: &BlockFiles,
    addr: Addr,
    at: u32,
    out: &mut [u8],
) -> Result<(), Fault>
    requires inside { IsInside files.now addr at (length out.old) }
    ensures bytes { OnOk result (ForSome (F.told folder.old).files (λ image. out.new ≡ data_at image addr at (length out.old))) }
    ensures checked { OnOk result (ForSome (F.told folder.old).files (HasData addr at (length out.old))) }
    ensures reads { ReadsOnly F.told F.faults folder.old folder.new (IfDevice result) }

    // Too few bytes, which an observable folder gives only where its external file is too short.
    ensures short { IfDamaged result (IsCut (F.told folder.old) addr at (length out.old)) }
    ensures untold { UndamagedWhereBoth result (F.told folder.old) (Agrees files.now) (IsInFile addr at (length out.old)) }
{
    if is_of(addr, Kind::External) {
        blk_external::read(folder, addr, u64::from(at), out)
    } else {
        files.read_block(folder, addr, at, out)
    }
}

// Writes bytes of the data of an address, and one zero byte after them.
pub(crate) fn write_ended<F: Folder>(
    folder: &mut F,
    files: &BlockFiles,
    addr: Addr,
    at: u32,
    bytes: &[u8],
) -> Result<(), Failed>
    requires inside { IsInside files.now addr at (length bytes.now + 1) }
    requires agrees { ForSome (F.told folder.old).files (Agrees files.now) }
    requires external { ForSome (F.told folder.old).files (IsInFile addr at (length bytes.now + 1)) }
    ensures steps { OnOk result (Applies (F.told folder.old) (F.told folder.new) (ended_steps addr at bytes.now)) }
    ensures prefix { AppliesPrefix (F.told folder.old) (F.told folder.new) (ended_steps addr at bytes.now) }
    ensures agrees { ForSome (F.told folder.new).files (Agrees files.now) }
    ensures later { F.faults folder.old ≤ F.faults folder.new }
    ensures failed { OnErr result (Rises (F.faults folder.old) (F.faults folder.new)) }
{
    write_data(folder, files, addr, at, bytes)?;
    write_data(folder, files, addr, at + bytes.len() as u32, &[0])
}

/// Writes bytes of the data of an address, from a place in it on, one word after another: over its blocks,
/// or over bytes of its external file.
///
/// One folder call writes them. `Failed` comes only where the folder failed in this call; a prefix of the words was
/// then written.
pub fn write_data<F: Folder>(
    folder: &mut F,
    files: &BlockFiles,
    addr: Addr,
    at: u32,
    bytes: &[u8],
) -> Result<(), Failed>
    requires inside { IsInside files.now addr at (length bytes.now) }
    requires agrees { ForSome (F.told folder.old).files (Agrees files.now) }
    requires external { ForSome (F.told folder.old).files (IsInFile addr at (length bytes.now)) }
    ensures agrees { ForSome (F.told folder.new).files (Agrees files.now) }
    ensures steps { OnOk result (Applies (F.told folder.old) (F.told folder.new) (data_steps addr at bytes.now)) }
    ensures prefix { AppliesPrefix (F.told folder.old) (F.told folder.new) (data_steps addr at bytes.now) }

    // At each word no other byte has changed.
    ensures outside { StopsFrom (F.told folder.old) (F.told folder.new) (SameOutside (data_range addr at (length bytes.now))) }

    ensures later { F.faults folder.old ≤ F.faults folder.new }
    ensures failed { OnErr result (Rises (F.faults folder.old) (F.faults folder.new)) }
{
    if is_of(addr, Kind::External) {
        blk_external::write(folder, addr, u64::from(at), bytes)
    } else {
        files.write_block(folder, addr, at, bytes)
    }
}

// Whether an address is of a kind.
pub(crate) fn is_of(addr: Addr, kind: Kind) -> bool
    ensures { result ≡ (kind_of addr == kind_number kind) }
{
    addr.kind() == kind
}
