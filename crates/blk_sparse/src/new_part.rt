// A part that doesn't exist is made, with its first piece.
ghost use Rattle.std.specs.Prelude.{◌≡◌, ◌+◌, ◌≤◌, ◌<◌, [], ◌∷◌, IfOk, IsTrue, OnOk, length, true};
ghost use Rattle.std.specs.Int.{cast_unsigned, w64};
ghost use Rattle.std.specs.Option.{ForSome};
ghost use Rattle.spec_image.specs.Told.{Passes, MayWrite, ReadsOnly, ForTold};
ghost use Rattle.blk_model.specs.Bytes.{overwritten};
ghost use Rattle.blk_model.specs.Sizes.{longest_key, part_count, part_size, signatures};
ghost use Rattle.spec_format.specs.Address.{blocks_256, is_address, kind_of};
ghost use Rattle.spec_format.specs.Names.{longest_name};
ghost use Rattle.spec_format.specs.SparseIndex.{parent_index_length, part_index_length};
ghost use Rattle.spec_format.specs.Storage as storage;
ghost use Rattle.spec_folder.specs.Entries.{most_stream_bytes};
ghost use Rattle.blk_io.specs.Faults.{IfDamaged, IfDevice, OpaqueIfDamaged, UndamagedWhere};
ghost use Rattle.blk_disk.specs.Open.{IsOpen};
ghost use Rattle.blk_disk.specs.Tables.{Agrees, is_node_among, is_record_among, stands_among};
ghost use Rattle.blk_entry.specs.Keys.{stores};
ghost use Rattle.blk_entry.specs.Writing.{HoldsLongKey, IsLongPlace, LiesApart};
ghost use Rattle.blk_alloc.specs.Extending.{KeepsStanding};
ghost use Rattle.blk_stream.specs.Streams.{address_word};
ghost use Rattle.law_state.specs.Changes.{StillFinds};
ghost use Rattle.blk_object.specs.FailedChecks.{IsFailedCheck};
ghost use Rattle.blk_object.specs.Making.{LeavesRoom, Takes};
ghost use Rattle.blk_sparse.specs.Clauses.{DurableAtNode, DurableListing, ForEachWithout, ForNewPart, IsEntryPlace, IsNodePlace, ListsPart, OrdersNewPart, UndamagedAtNode, WhereSpace, WritesNewPart};
ghost use Rattle.blk_sparse.specs.NewParts.{ForEachPartToBeListed, HasIndexPlace, IsBeingNoted, IsFirstIndex, IsBitNoted, AreStoredAt, TakesPart};

use crate::part_record::write_part;
use blk_addr::Addr;
use blk_chain::link_front;
use blk_disk::BlockFiles;
use blk_entry::{read_data, read_head, record_damage, stores, write_data};
use blk_io::{Fault, Folder};
use blk_lru::insert_front;
use blk_object::{Places, check_index, take_places};
use blk_ranges::{ChildName, ParentMap, PartMap, has_part_bit, place_of_part, with_part_bit};
use blk_record::EntryView;
use blk_stream::store_new;

/// The places of a new part.
#[derive(Clone, Copy)]
pub(crate) struct PartPlaces {
    /// Those of its entry.
    pub(crate) places: Places,
    /// The storage of its data.
    pub(crate) stored: Addr,
    /// The storage of its index.
    pub(crate) index: Addr,
}

/// The name of a part.
#[derive(Clone, Copy)]
pub(crate) struct PartName<'a> {
    /// What it says.
    pub(crate) child: ChildName,
    /// Its bytes.
    pub(crate) bytes: &'a [u8],
}

// Stores the bytes of a new stream, which no record names yet: zeros, and then the given ones from an offset on.
fn take_stream<F: Folder>(
    folder: &mut F,
    files: &mut BlockFiles,
    offset: u32,
    bytes: &[u8],
) -> Result<Addr, Fault>
    requires some { 1 ≤ length bytes.now }
    requires most { offset + length bytes.now ≤ most_stream_bytes }
    requires is_open { ForSome (F.told folder.old).files (IsOpen files.old) }
    ensures address { IfOk result (λ addr. IsTrue (is_address addr)) }
    ensures taken { IfOk result (λ addr. WhereSpace 1 (F.told folder.old) (F.told folder.new) (Takes (addr ∷ []))) }
    ensures stored { IfOk result (λ addr. WhereSpace 1 (F.told folder.old) (F.told folder.new) (λ _. AreStoredAt addr (overwritten [] offset bytes.now))) }
    ensures keeps { KeepsStanding files.old files.new }
    ensures is_open { OnOk result (ForSome (F.told folder.new).files (IsOpen files.new)) }
    ensures stops { ForSome (F.told folder.old).files (λ from. LeavesRoom 1 from → Passes (F.told folder.old) (F.told folder.new) (StillFinds [] from)) }
    ensures damaged { IfDamaged result (IsFailedCheck files.new (F.told folder.new)) }
    ensures untold { UndamagedWhere result (F.told folder.old) (LeavesRoom 1) }
    ensures writes { MayWrite F.told F.faults folder.old folder.new (IfDevice result) }
{
    let addr = store_new(folder, files, offset, bytes)?;
    // Reading it tells the prover that the word is one of an address.
    let _word = addr.word();
    check_index(folder)?;
    Ok(addr)
}

// Allocates the places of a new part, and stores its first piece and its index.
fn take_part<F: Folder>(
    folder: &mut F,
    files: &mut BlockFiles,
    name_len: u32,
    place: u32,
    piece: &[u8],
    map: &[u8],
) -> Result<PartPlaces, Fault>
    requires name { name_len ≤ longest_name }
    requires some { 1 ≤ length piece.now }
    requires most { place + length piece.now ≤ part_size }
    requires map { length map.now ≡ part_index_length }
    requires is_open { ForSome (F.told folder.old).files (IsOpen files.old) }
    ensures entry { IfOk result (λ places. IsEntryPlace files.new (storage.entry_blocks name_len) places.places.entry) }
    ensures node { IfOk result (λ places. IsNodePlace files.new places.places.node) }
    ensures long { IfOk result (λ places. IsLongPlace files.new name_len places.places.long_key) }
    ensures holds { IfOk result (λ places. ForSome (F.told folder.new).files (HoldsLongKey places.places.long_key name_len)) }
    ensures apart { IfOk result (λ places. LiesApart places.places.entry places.places.long_key) }
    ensures streams { IfOk result (λ places. IsTrue (is_address places.stored) × IsTrue (is_address places.index)) }
    ensures keeps { KeepsStanding files.old files.new }
    ensures taken { IfOk result (λ places. WhereSpace 5 (F.told folder.old) (F.told folder.new) (TakesPart places (overwritten [] place piece.now) map.now)) }
    ensures is_open { OnOk result (ForSome (F.told folder.new).files (IsOpen files.new)) }
    ensures stops { ForSome (F.told folder.old).files (λ from. LeavesRoom 5 from → Passes (F.told folder.old) (F.told folder.new) (StillFinds [] from)) }
    ensures damaged { IfDamaged result (IsFailedCheck files.new (F.told folder.new)) }
    ensures untold { UndamagedWhere result (F.told folder.old) (LeavesRoom 5) }
    ensures writes { MayWrite F.told F.faults folder.old folder.new (IfDevice result) }
{
    let index = take_stream(folder, files, 0, map)?;
    let stored = take_stream(folder, files, place, piece)?;
    let places = take_places(folder, files, name_len)?;
    Ok(PartPlaces {
        places,
        stored,
        index,
    })
}

// Puts the node of a new part in front of the LRU list, and then its record in front of its chain.
fn list_part<F: Folder>(
    folder: &mut F,
    files: &BlockFiles,
    entry: Addr,
    node: Addr,
) -> Result<(), Fault>
    requires stands { IsTrue (is_record_among files.now entry) }
    requires node { IsTrue (is_node_among files.now node) }
    requires is_open { ForSome (F.told folder.old).files (IsOpen files.now) }
    ensures listed { OnOk result (ForTold (F.told folder.old) (ForEachPartToBeListed entry node) (ListsPart (F.told folder.new))) }
    ensures stops { ForTold (F.told folder.old) (ForEachPartToBeListed entry node) (DurableListing (F.told folder.old) (F.told folder.new)) }
    ensures is_open { ForSome (F.told folder.new).files (IsOpen files.now) }
    ensures damaged { IfDamaged result (IsFailedCheck files.now (F.told folder.new)) }
    ensures untold { ForTold (F.told folder.old) (ForEachPartToBeListed entry node) (λ _ _. OpaqueIfDamaged result (F.told folder.old)) }
    ensures writes { MayWrite F.told F.faults folder.old folder.new (IfDevice result) }
{
    insert_front(folder, files, node)?;
    link_front(folder, files, entry)
}

// Where the index of a parent lies.
fn index_place<F: Folder>(folder: &mut F, files: &BlockFiles, parent: Addr) -> Result<Addr, Fault>
    requires kind { kind_of parent ≡ blocks_256 }
    requires stands { IsTrue (stands_among files.now parent) }
    ensures place { IfOk result (λ addr. ForSome (F.told folder.old).files (λ image. addr ≡ address_word image parent 2)) }
    ensures stores { IfOk result (λ addr. stores files.now parent_index_length addr ≡ true) }
    ensures reads { ReadsOnly F.told F.faults folder.old folder.new (IfDevice result) }
    ensures damaged { IfDamaged result (IsFailedCheck files.now (F.told folder.new)) }
    ensures untold { ForSome (F.told folder.old).files (Agrees files.now) → UndamagedWhere result (F.told folder.old) (HasIndexPlace files.now parent) }
{
    let head = read_head(folder, files, parent)?;
    let word = head.addrs[2];
    let Some(addr) = Addr::from_word(word) else {
        return Err(record_damage(parent, EntryView::DATA_ADDR + 8, word));
    };
    if !stores(files, addr, ParentMap::LEN as u32) {
        return Err(record_damage(parent, EntryView::DATA_ADDR + 8, word));
    }
    Ok(addr)
}

// Sets the bit of a part in its parent's index; nothing is written where it is set already.
fn note_part<F: Folder>(
    folder: &mut F,
    files: &BlockFiles,
    parent: Addr,
    part: u32,
) -> Result<(), Fault>
    requires kind { kind_of parent ≡ blocks_256 }
    requires stands { IsTrue (stands_among files.now parent) }
    requires part { part < part_count }
    requires is_open { ForSome (F.told folder.old).files (IsOpen files.now) }
    ensures noted { OnOk result (ForSome (F.told folder.old).files (λ from. ForSome (F.told folder.new).files (IsBitNoted parent part from))) }
    ensures stops { ForSome (F.told folder.old).files (λ from. Passes (F.told folder.old) (F.told folder.new) (IsBeingNoted files.now parent part from)) }
    ensures is_open { ForSome (F.told folder.new).files (IsOpen files.now) }
    ensures damaged { IfDamaged result (IsFailedCheck files.now (F.told folder.new)) }
    ensures untold { UndamagedWhere result (F.told folder.old) (HasIndexPlace files.now parent) }
    ensures writes { MayWrite F.told F.faults folder.old folder.new (IfDevice result) }
{
    let addr = index_place(folder, files, parent)?;
    let at = place_of_part(part);
    let mut byte = [0u8; 1];
    read_data(folder, files, addr, at, &mut byte)?;
    let was = byte[0];
    if has_part_bit(was, part) {
        return Ok(());
    }
    write_data(folder, files, addr, at, &[with_part_bit(was, part)])?;
    Ok(())
}

// The bytes of the index of a new part, after its first piece.
fn first_index(child: &ChildName, place: u32, count: u32) -> [u8; 192]
    requires signature { cast_unsigned w64 child.now.signature < signatures }
    requires some { 1 ≤ child.now.key_len }
    requires short { child.now.key_len ≤ longest_key }
    requires piece { 1 ≤ count }
    requires most { place + count ≤ part_size }
    ensures long { length result ≡ part_index_length }
    ensures index { IsFirstIndex (cast_unsigned w64 child.now.signature) child.now.key_len place count result }
{
    let mut map = PartMap::new(child.signature, child.key_len as u32);
    map.note_write(place, place + count);
    let mut bytes = [0u8; PartMap::LEN];
    map.print(&mut bytes);
    bytes
}

/// Makes a part that doesn't exist, of a dirty object, with a piece of its data, from a place in it on.
///
/// Its places are allocated and its two streams are stored first; then its entry is written there, and its record names the
/// streams by one update under a checksum 0. Then its node comes in front of the LRU list, its record in front of its chain, and at
/// last its parent gets its bit, where it hasn't. The counters of the index stay.
pub(crate) fn make_part<F: Folder>(
    folder: &mut F,
    files: &mut BlockFiles,
    parent: Addr,
    name: PartName,
    place: u32,
    piece: &[u8],
    moment: u64,
) -> Result<(), Fault>
    requires kind { kind_of parent ≡ blocks_256 }
    requires stands { IsTrue (stands_among files.old parent) }
    requires some_name { 1 ≤ length name.bytes.now }
    requires short_name { length name.bytes.now ≤ longest_name }
    requires signature { cast_unsigned w64 name.child.signature < signatures }
    requires some_key { 1 ≤ name.child.key_len }
    requires short_key { name.child.key_len ≤ longest_key }
    requires part { name.child.part < part_count }
    requires some { 1 ≤ length piece.now }
    requires most { place + length piece.now ≤ part_size }
    requires is_open { ForSome (F.told folder.old).files (IsOpen files.old) }

    // For each dirty object that has this parent and lacks this part: in the end the folder keeps the state with the piece written, but for the counters, which
    // come later.
    ensures written { OnOk result (ForNewPart (F.told folder.old) parent name.entry (WritesNewPart place piece.now (F.told folder.new))) }

    // At each word the old durable contents are recovered: a dirty object isn't durable.
    ensures stops { ForTold (F.told folder.old) (ForEachWithout parent name.entry) (DurableAtNode (F.told folder.old) (F.told folder.new)) }

    // It is whole, in the list and in its chain, before its parent's bit is set.
    ensures ordered { OnOk result (ForNewPart (F.told folder.old) parent name.entry (OrdersNewPart files.new (F.told folder.new))) }

    // What was valid still is.
    ensures keeps { KeepsStanding files.old files.new }
    ensures is_open { OnOk result (ForSome (F.told folder.new).files (IsOpen files.new)) }

    // Corruption is a check that fails on what is read here; nothing is written after it.
    ensures damaged { IfDamaged result (IsFailedCheck files.new (F.told folder.new)) }

    // An observable folder, with such an object, reports no corruption.
    ensures untold { ForTold (F.told folder.old) (ForEachWithout parent name.entry) (UndamagedAtNode result (F.told folder.old)) }

    ensures writes { MayWrite F.told F.faults folder.old folder.new (IfDevice result) }
{
    let index = first_index(&name.child, place, piece.len() as u32);
    let places = take_part(folder, files, name.bytes.len() as u32, place, piece, &index)?;
    write_part(
        folder,
        files,
        &places,
        name.bytes,
        place + piece.len() as u32,
        moment,
    )?;
    list_part(folder, files, places.places.entry, places.places.node)?;
    note_part(folder, files, parent, name.child.part)
}
