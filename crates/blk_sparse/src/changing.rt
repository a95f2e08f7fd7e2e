// A part that exists gets a piece.
ghost use Rattle.std.specs.Prelude.{◌≡◌, ◌≤◌, ◌<◌, ◌+◌, IfOk, IsTrue, None, OnOk, length};
ghost use Rattle.std.specs.Option.{ForSome};
ghost use Rattle.spec_image.specs.Told.{MayWrite, ReadsOnly, ForTold};
ghost use Rattle.blk_model.specs.Sizes.{part_size};
ghost use Rattle.spec_format.specs.Address.{blocks_256, kind_of};
ghost use Rattle.blk_io.specs.Faults.{IfDamaged, IfDevice, UndamagedWhere};
ghost use Rattle.blk_disk.specs.Open.{IsOpen};
ghost use Rattle.blk_disk.specs.Tables.{Agrees, stands_among};
ghost use Rattle.blk_alloc.specs.Extending.{KeepsStanding};
ghost use Rattle.blk_object.specs.FailedChecks.{IsFailedCheck};
ghost use Rattle.blk_ranges.specs.PartMaps.{IsPartMap, index_of};
ghost use Rattle.blk_sparse.specs.Clauses.{ChangesPart, DurableAtPart, ForChange, ForPartIndex, OrdersInPart, UndamagedAtPart, WritesInPart};
ghost use Rattle.blk_sparse.specs.Changing.{ForEachToBeChanged, NotesWrite, LoadsAsPart};
ghost use Rattle.blk_sparse.specs.SparseObjects.{ForEachPartThere};

use crate::parts::use_entry;
use blk_addr::Addr;
use blk_disk::BlockFiles;
use blk_entry::record_damage;
use blk_io::{Fault, Folder};
use blk_object::write_object;
use blk_ranges::{DATA, INDEX, PartMap};
use blk_record::{CHILD, EntryView};
use blk_stream::read;

// Writes a piece to a part that exists, from a position in it on: first its data, then its validity bitmap; and then the part is accessed.
pub(crate) fn change_part<F: Folder>(
    folder: &mut F,
    files: &mut BlockFiles,
    part: Addr,
    place: u32,
    piece: &[u8],
    moment: u64,
) -> Result<(), Fault>
    requires kind { kind_of part ≡ blocks_256 }
    requires stands { IsTrue (stands_among files.old part) }
    requires some { 1 ≤ length piece.now }
    requires inside { place + length piece.now ≤ part_size }
    requires is_open { ForSome (F.told folder.old).files (IsOpen files.old) }

    // Each state that was kept, with such a part of a dirty object, is kept with the piece written and the part in front, but for the counters.
    ensures written { OnOk result (ForTold (F.told folder.old) (ForEachPartThere part) (WritesInPart (F.told folder.new) place piece.now)) }

    // At each word the old durable contents are recovered: a dirty object isn't durable, nor are its parts.
    ensures stops { ForTold (F.told folder.old) (ForEachPartThere part) (DurableAtPart (F.told folder.old) (F.told folder.new)) }

    // The part has the bytes before its map changes.
    ensures ordered { OnOk result (ForTold (F.told folder.old) (ForEachPartThere part) (OrdersInPart (F.told folder.new) (F.told folder.old) place piece.now)) }

    // What was valid still is.
    ensures keeps { KeepsStanding files.old files.new }
    ensures is_open { OnOk result (ForSome (F.told folder.new).files (IsOpen files.new)) }

    // Corruption is a check that fails on what is read here; nothing is written after it.
    ensures damaged { IfDamaged result (IsFailedCheck files.new (F.told folder.new)) }

    // An observable folder, with such a part, reports no corruption.
    ensures untold { ForTold (F.told folder.old) (ForEachPartThere part) (UndamagedAtPart result (F.told folder.old)) }

    ensures writes { MayWrite F.told F.faults folder.old folder.new (IfDevice result) }
{
    let map = read_map(folder, files, part)?;
    let mut bytes = [0u8; PartMap::LEN];
    print_noted(map, place, piece.len() as u32, &mut bytes);
    write_noted(folder, files, part, place, piece, &bytes)?;
    use_entry(folder, files, part, moment)
}

// The index of a part, which is read from its third stream, by two folder calls.
pub(crate) fn read_map<F: Folder>(
    folder: &mut F,
    files: &BlockFiles,
    part: Addr,
) -> Result<PartMap, Fault>
    requires kind { kind_of part ≡ blocks_256 }
    requires stands { IsTrue (stands_among files.now part) }
    ensures map { IfOk result (λ map. ForSome (F.told folder.old).files (ForPartIndex part (λ index. index_of map ≡ index))) }
    ensures valid { IfOk result IsPartMap }
    ensures reads { ReadsOnly F.told F.faults folder.old folder.new (IfDevice result) }
    ensures damaged { IfDamaged result (IsFailedCheck files.now (F.told folder.new)) }
    ensures untold { ForSome (F.told folder.old).files (Agrees files.now) → UndamagedWhere result (F.told folder.old) (LoadsAsPart part) }
{
    let mut bytes = [0u8; PartMap::LEN];
    let len = read(folder, files, part, INDEX, 0, &mut bytes)?;
    match PartMap::read(&bytes[..len]) {
        Some(map) => Ok(map),
        None => Err(record_damage(part, EntryView::FLAGS, CHILD)),
    }
}

// Prints a bitmap in which a number of bytes from a position on are marked as present.
fn print_noted(map: PartMap, place: u32, len: u32, out: &mut [u8; 192])
    requires valid { IsPartMap map }
    requires some { 1 ≤ len }
    requires inside { place + len ≤ part_size }
    ensures noted { NotesWrite (index_of map) place (place + len) out.new }
{
    let mut noted = map;
    noted.note_write(place, place + len);
    noted.print(out);
}

// Writes a piece of a part's data, and then the bytes of its index.
fn write_noted<F: Folder>(
    folder: &mut F,
    files: &mut BlockFiles,
    part: Addr,
    place: u32,
    piece: &[u8],
    map: &[u8],
) -> Result<(), Fault>
    requires kind { kind_of part ≡ blocks_256 }
    requires stands { IsTrue (stands_among files.old part) }
    requires some { 1 ≤ length piece.now }
    requires inside { place + length piece.now ≤ part_size }
    requires map { length map.now ≡ 192 }
    requires is_open { ForSome (F.told folder.old).files (IsOpen files.old) }
    ensures written { OnOk result (ForChange (F.told folder.old) part place piece.now map.now (ChangesPart part (F.told folder.new))) }
    ensures stops { ForTold (F.told folder.old) (ForEachToBeChanged part place piece.now map.now) (DurableAtPart (F.told folder.old) (F.told folder.new)) }
    ensures ordered { OnOk result (ForChange (F.told folder.old) part place piece.now map.now (OrdersInPart (F.told folder.new))) }
    ensures keeps { KeepsStanding files.old files.new }
    ensures is_open { OnOk result (ForSome (F.told folder.new).files (IsOpen files.new)) }
    ensures damaged { IfDamaged result (IsFailedCheck files.new (F.told folder.new)) }
    ensures untold { ForTold (F.told folder.old) (ForEachToBeChanged part place piece.now map.now) (UndamagedAtPart result (F.told folder.old)) }
    ensures writes { MayWrite F.told F.faults folder.old folder.new (IfDevice result) }
{
    let offset = u64::from(place);
    write_object(folder, files, part, DATA, offset, false, piece)?;
    write_object(folder, files, part, INDEX, 0, true, map)
}
