// A plain object becomes sparse.
ghost use Rattle.std.specs.Prelude.{◌≡◌, ◌≤◌, ◌<◌, IfOk, IsTrue, OnOk, length};
ghost use Rattle.std.specs.Int.{cast_unsigned, w64};
ghost use Rattle.std.specs.Option.{ForSome};
ghost use Rattle.spec_image.specs.Told.{MayWrite, ReadsOnly, ForTold};
ghost use Rattle.blk_model.specs.Sizes.{longest_key, signatures};
ghost use Rattle.spec_format.specs.Address.{blocks_256, kind_of};
ghost use Rattle.spec_format.specs.SparseIndex.{parent_index_length};
ghost use Rattle.spec_folder.specs.View.{entry_at};
ghost use Rattle.blk_io.specs.Faults.{IfDamaged, IfDevice, OpaqueIfDamaged, UndamagedWhere};
ghost use Rattle.blk_disk.specs.Open.{IsOpen};
ghost use Rattle.blk_disk.specs.Tables.{Agrees, stands_among};
ghost use Rattle.blk_alloc.specs.Extending.{KeepsStanding};
ghost use Rattle.blk_object.specs.FailedChecks.{IsFailedCheck};
ghost use Rattle.blk_sparse.specs.Clauses.{BecomesParent, BecomesParentOf, DurableAtNode, DurableOf, MarksParent, Recovers, UndamagedAtNode};
ghost use Rattle.blk_sparse.specs.Beginning.{ForEachPlainWith, ForEachWithIndex, HasIndex, HasParentLength};
ghost use Rattle.blk_sparse.specs.SparseObjects.{ForEachPlain};

use blk_addr::Addr;
use blk_disk::BlockFiles;
use blk_entry::{read_head, record_damage};
use blk_io::{Fault, Folder};
use blk_object::write_object;
use blk_ranges::{INDEX, LONGEST_KEY, ParentHead, ParentMap};
use blk_record::{EntryView, PARENT};

/// Makes a plain object, that is dirty and has nothing in its second and its third stream, a sparse one with a
/// generation: its third stream gets the index of a parent without parts, and then its record the flags of a parent.
///
/// The counters of the index stay. One folder call reads the record, and four give it the flags, beside those of
/// `write_object`.
///
/// A failed check is one of `write_object`, a record with a wrong checksum, or one with a key of a length that no object's
/// has.
pub fn begin<F: Folder>(
    f: &mut F,
    files: &mut BlockFiles,
    entry: Addr,
    signature: i64,
) -> Result<(), Fault>
    requires kind { kind_of entry ≡ blocks_256 }
    requires stands { IsTrue (stands_among files.old entry) }
    requires signature { cast_unsigned w64 signature < signatures }
    requires is_open { ForSome (F.told f.old).files (IsOpen files.old) }

    // Each state that was kept, with such an object, is kept with it sparse in the end, but for the counters.
    ensures begun { OnOk result (ForTold (F.told f.old) (ForEachPlain entry) (BecomesParent (F.told f.new) entry (cast_unsigned w64 signature))) }

    // At each word the old durable contents are recovered: a dirty object isn't durable.
    ensures stops { ForTold (F.told f.old) (ForEachPlain entry) (DurableAtNode (F.told f.old) (F.told f.new)) }

    // What was valid still is.
    ensures keeps { KeepsStanding files.old files.new }
    ensures is_open { OnOk result (ForSome (F.told f.new).files (IsOpen files.new)) }

    // Corruption is a check that fails on what is read here; nothing is written after it.
    ensures damaged { IfDamaged result (IsFailedCheck files.new (F.told f.new)) }

    // An observable folder, with such an object, reports no corruption.
    ensures untold { ForTold (F.told f.old) (ForEachPlain entry) (UndamagedAtNode result (F.told f.old)) }

    ensures writes { MayWrite F.told F.faults f.old f.new (IfDevice result) }
{
    let key_len = parent_length(f, files, entry)?;
    let mut bytes = [0u8; ParentMap::LEN];
    print_index(signature, key_len, &mut bytes);
    give_index(f, files, entry, &bytes)
}

// The length of the key of an object's record, by one folder call.
fn parent_length<F: Folder>(folder: &mut F, files: &BlockFiles, entry: Addr) -> Result<u32, Fault>
    requires kind { kind_of entry ≡ blocks_256 }
    requires stands { IsTrue (stands_among files.now entry) }
    ensures some { IfOk result (λ len. 1 ≤ len) }
    ensures short { IfOk result (λ len. len ≤ longest_key) }
    ensures length { IfOk result (λ len. ForSome (F.told folder.old).files (λ image. len ≡ (entry_at image entry).key_len)) }
    ensures reads { ReadsOnly F.told F.faults folder.old folder.new (IfDevice result) }
    ensures damaged { IfDamaged result (IsFailedCheck files.now (F.told folder.new)) }
    ensures untold { ForSome (F.told folder.old).files (Agrees files.now) → UndamagedWhere result (F.told folder.old) (HasParentLength entry) }
{
    let head = read_head(folder, files, entry)?;
    if head.key_len == 0 || head.key_len > LONGEST_KEY {
        return Err(record_damage(entry, EntryView::KEY_LEN, head.key_len));
    }
    Ok(head.key_len)
}

// Prints the index of a parent without parts.
fn print_index(signature: i64, key_len: u32, out: &mut [u8; 8256])
    requires signature { cast_unsigned w64 signature < signatures }
    requires some { 1 ≤ key_len }
    requires short { key_len ≤ longest_key }
    ensures index { HasIndex (cast_unsigned w64 signature) key_len out.new }
{
    let head = ParentHead { signature, key_len };
    let map = ParentMap {
        head,
        parts: [0; 8192],
    };
    map.print(out);
}

// Writes the bytes of an index as the third stream of a plain object, and then its record gets the flags of a parent.
fn give_index<F: Folder>(
    folder: &mut F,
    files: &mut BlockFiles,
    entry: Addr,
    bytes: &[u8],
) -> Result<(), Fault>
    requires kind { kind_of entry ≡ blocks_256 }
    requires stands { IsTrue (stands_among files.old entry) }
    requires long { length bytes.now ≡ parent_index_length }
    requires is_open { ForSome (F.told folder.old).files (IsOpen files.old) }
    ensures begun { OnOk result (ForTold (F.told folder.old) (ForEachPlainWith bytes.now entry) (BecomesParentOf (F.told folder.new) entry)) }
    ensures stops { ForTold (F.told folder.old) (ForEachPlainWith bytes.now entry) (DurableOf (F.told folder.old) (F.told folder.new)) }
    ensures keeps { KeepsStanding files.old files.new }
    ensures is_open { OnOk result (ForSome (F.told folder.new).files (IsOpen files.new)) }
    ensures damaged { IfDamaged result (IsFailedCheck files.new (F.told folder.new)) }
    ensures untold { ForTold (F.told folder.old) (ForEachPlainWith bytes.now entry) (λ _ _ _ _. OpaqueIfDamaged result (F.told folder.old)) }
    ensures writes { MayWrite F.told F.faults folder.old folder.new (IfDevice result) }
{
    write_object(folder, files, entry, INDEX, 0, true, bytes)?;
    set_parent(folder, files, entry)
}

// Gives a record the flags of a parent, by one update under a checksum 0.
fn set_parent<F: Folder>(folder: &mut F, files: &BlockFiles, entry: Addr) -> Result<(), Fault>
    requires kind { kind_of entry ≡ blocks_256 }
    requires stands { IsTrue (stands_among files.now entry) }
    requires is_open { ForSome (F.told folder.old).files (IsOpen files.now) }
    ensures marked { OnOk result (ForTold (F.told folder.old) (ForEachWithIndex entry) (MarksParent (F.told folder.new))) }
    ensures stops { ForTold (F.told folder.old) (ForEachWithIndex entry) (λ _ state _ _ _ _ _ _. Recovers (F.told folder.old) (F.told folder.new) state) }
    ensures is_open { ForSome (F.told folder.new).files (IsOpen files.now) }
    ensures damaged { IfDamaged result (IsFailedCheck files.now (F.told folder.new)) }
    ensures untold { ForTold (F.told folder.old) (ForEachWithIndex entry) (λ _ _ _ _ _ _ _ _. OpaqueIfDamaged result (F.told folder.old)) }
    ensures writes { MayWrite F.told F.faults folder.old folder.new (IfDevice result) }
{
    files.update_sealed(folder, entry, &[(EntryView::FLAGS, PARENT)])
}
