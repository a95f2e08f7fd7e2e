// The places of a new entry are allocated.
ghost use Rattle.std.specs.Prelude.{◌≡◌, ◌≢◌, ◌+◌, ◌==◌, ◌<◌, ◌≤◌, [], ◌∷◌, true, false, Some, IfOk, OnOk, IsTrue, nat_le};
ghost use Rattle.std.specs.Option.{ForSome};
ghost use Rattle.spec_image.specs.Image.{External as external_file, length_of};
ghost use Rattle.spec_image.specs.Told.{Passes, MayWrite, ReadsOnly, LeavesWhere};
ghost use Rattle.spec_format.specs.Address.{block_count, blocks_256, external, external_number, file_selector, first_block, is_address, kind_of, rankings};
ghost use Rattle.spec_format.specs.Headers.{HasWholeIndex};
ghost use Rattle.spec_format.specs.Maps.{group_size};
ghost use Rattle.spec_format.specs.Names.{longest_name};
ghost use Rattle.blk_addr.specs.Kind.{kind_number};
ghost use Rattle.blk_io.specs.Faults.{IfDamaged, IfDevice, UndamagedWhere};
ghost use Rattle.blk_disk.specs.Open.{IsOpen};
ghost use Rattle.blk_disk.specs.Tables.{stands_among};
ghost use Rattle.blk_entry.specs.Keys as keys;
ghost use Rattle.blk_entry.specs.Writing.{HoldsLongKey, IsLongPlace, LiesApart};
ghost use Rattle.blk_alloc.specs.Extending.{KeepsStanding};
ghost use Rattle.law_state.specs.Changes.{StillFinds};
ghost use Rattle.blk_object.specs.FailedChecks.{HasOtherLength, IsFailedCheck, IsSharedKey};
ghost use Rattle.blk_object.specs.Making.{LeavesRoom, Takes, long_word, words_of_places, IsRecordPlace, IsLongIfExternal};

use blk_addr::{Addr, Kind, LONGEST_SHORT_KEY, blocks_for, entry_blocks, kind_for};
use blk_alloc::allocate;
use blk_disk::BlockFiles;
use blk_entry::record_damage;
use blk_external::{create, resize};
use blk_io::{Damage, Fault, FileId, Folder};
use blk_record::{EntryView, IndexHead, WORD_VALUES};

/// The places of a new entry.
#[derive(Clone, Copy, Debug)]
pub struct Places {
    /// The blocks of its record.
    pub entry: Addr,
    /// Its rankings node.
    pub node: Addr,
    /// The storage of its key, where this doesn't lie in the record.
    pub long_key: Option<Addr>,
}

/// Allocates the places of an entry with a key or a name of so many bytes: they had no owner, and nothing names them yet.
pub fn take_places<F: Folder>(
    folder: &mut F,
    files: &mut BlockFiles,
    key_len: u32,
) -> Result<Places, Fault>
    requires most { key_len ≤ longest_name }
    requires is_open { ForSome (F.told folder.old).files (IsOpen files.old) }
    ensures entry { IfOk result (λ places. IsRecordPlace files.new key_len places.entry) }
    ensures node { IfOk result (λ places. (kind_of places.node ≡ rankings) × IsTrue (is_address places.node) × IsTrue (stands_among files.new places.node)) }
    ensures long { IfOk result (λ places. IsLongPlace files.new key_len places.long_key) }
    ensures holds { IfOk result (λ places. ForSome (F.told folder.new).files (HoldsLongKey places.long_key key_len)) }
    ensures apart { IfOk result (λ places. LiesApart places.entry places.long_key) }
    ensures keeps { KeepsStanding files.old files.new }
    ensures taken { IfOk result (λ places. LeavesWhere (F.told folder.old) (F.told folder.new) (LeavesRoom 3) (Takes (words_of_places places))) }
    ensures is_open { OnOk result (ForSome (F.told folder.new).files (IsOpen files.new)) }
    ensures stops { ForSome (F.told folder.old).files (λ from. LeavesRoom 3 from → Passes (F.told folder.old) (F.told folder.new) (StillFinds [] from)) }
    ensures damaged { IfDamaged result (IsFailedCheck files.new (F.told folder.new)) }
    ensures untold { UndamagedWhere result (F.told folder.old) (LeavesRoom 3) }
    ensures writes { MayWrite F.told F.faults folder.old folder.new (IfDevice result) }
{
    let entry = take_blocks(folder, files, Kind::B256, entry_blocks(key_len))?;
    let node = take_blocks(folder, files, Kind::Rankings, 1)?;
    let long_key = take_long_key(folder, files, key_len)?;
    check_apart(entry, &long_key)?;
    Ok(Places {
        entry,
        node,
        long_key,
    })
}

// Allocates the storage of a key of so many bytes, where it doesn't lie in its record, for one byte more.
fn take_long_key<F: Folder>(
    folder: &mut F,
    files: &mut BlockFiles,
    key_len: u32,
) -> Result<Option<Addr>, Fault>
    requires most { key_len ≤ longest_name }
    requires is_open { ForSome (F.told folder.old).files (IsOpen files.old) }
    ensures long { IfOk result (IsLongPlace files.new key_len) }
    ensures holds { IfOk result (λ long_key. ForSome (F.told folder.new).files (HoldsLongKey long_key key_len)) }
    ensures keeps { KeepsStanding files.old files.new }
    ensures taken { IfOk result (λ long_key. LeavesWhere (F.told folder.old) (F.told folder.new) (LeavesRoom 1) (Takes (long_word long_key))) }
    ensures is_open { OnOk result (ForSome (F.told folder.new).files (IsOpen files.new)) }
    ensures stops { ForSome (F.told folder.old).files (λ from. LeavesRoom 1 from → Passes (F.told folder.old) (F.told folder.new) (StillFinds [] from)) }
    ensures damaged { IfDamaged result (IsFailedCheck files.new (F.told folder.new)) }
    ensures untold { UndamagedWhere result (F.told folder.old) (LeavesRoom 1) }
    ensures writes { MayWrite F.told F.faults folder.old folder.new (IfDevice result) }
{
    if key_len <= LONGEST_SHORT_KEY {
        return Ok(None);
    }
    let addr = take_storage(folder, files, key_len + 1)?;
    Ok(Some(addr))
}

// Allocates blocks or an external file for data of a size.
fn take_storage<F: Folder>(folder: &mut F, files: &mut BlockFiles, size: u32) -> Result<Addr, Fault>
    requires some { 0 < size }
    requires is_open { ForSome (F.told folder.old).files (IsOpen files.old) }
    ensures stores { IfOk result (λ addr. keys.stores files.new size addr ≡ true) }
    ensures holds { IfOk result (λ addr. ForSome (F.told folder.new).files (IsLongIfExternal addr size)) }
    ensures keeps { KeepsStanding files.old files.new }
    ensures taken { IfOk result (λ addr. LeavesWhere (F.told folder.old) (F.told folder.new) (LeavesRoom 1) (Takes (addr ∷ []))) }
    ensures is_open { OnOk result (ForSome (F.told folder.new).files (IsOpen files.new)) }
    ensures stops { ForSome (F.told folder.old).files (λ from. LeavesRoom 1 from → Passes (F.told folder.old) (F.told folder.new) (StillFinds [] from)) }
    ensures damaged { IfDamaged result (IsFailedCheck files.new (F.told folder.new)) }
    ensures untold { UndamagedWhere result (F.told folder.old) (LeavesRoom 1) }
    ensures writes { MayWrite F.told F.faults folder.old folder.new (IfDevice result) }
{
    let kind = kind_for(size);
    if is_external(kind) {
        return take_file(folder, files, size);
    }
    take_blocks(folder, files, kind, blocks_for(size))
}

// Whether a kind is that of external files.
fn is_external(kind: Kind) -> bool
    ensures { result ≡ (kind_number kind == external) }
{
    kind == Kind::External
}

// Allocates blocks of a kind, as many as are asked for.
fn take_blocks<F: Folder>(
    folder: &mut F,
    files: &mut BlockFiles,
    kind: Kind,
    count: u32,
) -> Result<Addr, Fault>
    requires some { 0 < count }
    requires few { count ≤ group_size }
    requires block_kind { kind_number kind ≢ external }
    requires node { kind_number kind ≡ rankings → count ≡ 1 }
    requires is_open { ForSome (F.told folder.old).files (IsOpen files.old) }
    ensures kind { IfOk result (λ addr. (kind_of addr ≡ kind_number kind) × (block_count addr ≡ count)) }
    ensures address { IfOk result (λ addr. IsTrue (is_address addr)) }
    ensures stands { IfOk result (λ addr. IsTrue (stands_among files.new addr)) }
    ensures keeps { KeepsStanding files.old files.new }
    ensures taken { IfOk result (λ addr. LeavesWhere (F.told folder.old) (F.told folder.new) (LeavesRoom 1) (Takes (addr ∷ []))) }
    ensures is_open { OnOk result (ForSome (F.told folder.new).files (IsOpen files.new)) }
    ensures stops { ForSome (F.told folder.old).files (λ from. LeavesRoom 1 from → Passes (F.told folder.old) (F.told folder.new) (StillFinds [] from)) }
    ensures damaged { IfDamaged result (IsFailedCheck files.new (F.told folder.new)) }
    ensures untold { UndamagedWhere result (F.told folder.old) (LeavesRoom 1) }
    ensures writes { MayWrite F.told F.faults folder.old folder.new (IfDevice result) }
{
    let addr = allocate(folder, files, kind, count)?;
    check_index(folder)?;
    Ok(addr)
}

// Makes an external file of so many bytes.
fn take_file<F: Folder>(folder: &mut F, files: &BlockFiles, size: u32) -> Result<Addr, Fault>
    requires is_open { ForSome (F.told folder.old).files (IsOpen files.now) }
    ensures kind { IfOk result (λ addr. kind_of addr ≡ external) }
    ensures address { IfOk result (λ addr. IsTrue (is_address addr)) }
    ensures holds { IfOk result (λ addr. ForSome (F.told folder.new).files (λ image. length_of image (external_file (external_number addr)) ≡ size)) }
    ensures taken { IfOk result (λ addr. LeavesWhere (F.told folder.old) (F.told folder.new) (LeavesRoom 1) (Takes (addr ∷ []))) }
    ensures is_open { OnOk result (ForSome (F.told folder.new).files (IsOpen files.now)) }
    ensures stops { ForSome (F.told folder.old).files (λ from. LeavesRoom 1 from → Passes (F.told folder.old) (F.told folder.new) (StillFinds [] from)) }
    ensures damaged { IfDamaged result (IsFailedCheck files.now (F.told folder.new)) }
    ensures untold { UndamagedWhere result (F.told folder.old) (LeavesRoom 1) }
    ensures writes { MayWrite F.told F.faults folder.old folder.new (IfDevice result) }
{
    let addr = create(folder)?;
    // Read for the proof alone, which learns from it that the word is a valid address.
    let _word = addr.word();
    resize(folder, addr, u64::from(size))?;
    Ok(addr)
}

/// Checks that the index still has its length, which an allocation doesn't promise where maps are wrong.
pub fn check_index<F: Folder>(folder: &mut F) -> Result<(), Fault>
    ensures whole { OnOk result (ForSome (F.told folder.old).files HasWholeIndex) }
    ensures reads { ReadsOnly F.told F.faults folder.old folder.new (IfDevice result) }
    ensures damaged { IfDamaged result (HasOtherLength (F.told folder.new)) }
    ensures untold { UndamagedWhere result (F.told folder.old) HasWholeIndex }
{
    let length = folder.length(FileId::Index)?.unwrap_or(0);
    if length != IndexHead::INDEX_LEN {
        return Err(Fault::Damaged(Damage {
            file: FileId::Index,
            at: IndexHead::INDEX_LEN,
            found: (length % WORD_VALUES) as u32,
        }));
    }
    Ok(())
}

// Checks that a long key shares no block with its record: where maps are wrong, both may have been given the same one.
fn check_apart(entry: Addr, long_key: &Option<Addr>) -> Result<(), Fault>
    requires kind { kind_of entry ≡ blocks_256 }
    ensures apart { OnOk result (LiesApart entry long_key.now) }
    ensures damaged { IfDamaged result (IsSharedKey entry long_key.now) }
    ensures never { IfDevice result ⊥ }
{
    let Some(addr) = long_key else {
        return Ok(());
    };
    if lie_apart(entry, *addr) {
        return Ok(());
    }
    Err(record_damage(entry, EntryView::LONG_KEY, addr.word()))
}

// Whether the storage of a long key shares no block with a record.
fn lie_apart(entry: Addr, long_key: Addr) -> bool
    requires kind { kind_of entry ≡ blocks_256 }
    ensures apart { result ≡ true → LiesApart entry (Some long_key) }
    ensures shared { result ≡ false → LiesApart entry (Some long_key) → ⊥ }
{
    if is_external(long_key.kind()) {
        return true;
    }
    if block_file(entry) != block_file(long_key) {
        return true;
    }
    if ends_before(entry, long_key) {
        return true;
    }
    ends_before(long_key, entry)
}

// The number of the file in which the blocks of an address are.
#[tactic(auto, unfolding(blk_addr::specs::FileId::file_of_word))]
fn block_file(addr: Addr) -> u8
    requires { kind_of addr ≢ external }
    ensures { result ≡ file_selector addr }
{
    match addr.file() {
        blk_addr::FileId::Block(number) => number,
        _ => unreachable!(),
    }
}

// Whether the blocks of an address end before those of another begin.
fn ends_before(one: Addr, other: Addr) -> bool
    requires one { kind_of one ≢ external }
    requires other { kind_of other ≢ external }
    ensures { result ≡ nat_le (first_block one + block_count one) (first_block other) }
{
    let end = u64::from(one.start()) + u64::from(one.blocks());
    end <= u64::from(other.start())
}
