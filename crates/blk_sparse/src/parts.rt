// A part of an object: the search for it by its name, and an access to it.
ghost use Rattle.std.specs.Prelude.{◌≡◌, ◌≤◌, ◌<◌, IfOk, IfSome, IsTrue, None, OnOk, length};
ghost use Rattle.std.specs.Int.{cast_unsigned, w64};
ghost use Rattle.std.specs.Option.{ForSome};
ghost use Rattle.spec_image.specs.Told.{MayWrite, ReadsOnly, ForTold};
ghost use Rattle.blk_model.specs.Sizes.{longest_key, part_count, signatures};
ghost use Rattle.spec_format.specs.Address.{blocks_256, kind_of};
ghost use Rattle.spec_format.specs.Names.{longest_name};
ghost use Rattle.blk_io.specs.Faults.{IfDamaged, IfDevice, OpaqueIfDamaged};
ghost use Rattle.blk_disk.specs.Open.{IsOpen};
ghost use Rattle.blk_disk.specs.Tables.{stands_among};
ghost use Rattle.blk_object.specs.FailedChecks.{IsFailedCheck};
ghost use Rattle.blk_sparse.specs.Clauses.{ForEachOfName, HasPart, ItemUsed, ItemUsing, Undamaged};
ghost use Rattle.blk_sparse.specs.Parts.{ForEachListedAt};

use blk_addr::Addr;
use blk_chain::find;
use blk_disk::BlockFiles;
use blk_entry::node_of;
use blk_io::{Fault, Folder};
use blk_lru::touch;
use blk_ranges::child_name;

// What the names of all parts of an object have in common: its key and its generation.
#[derive(Clone, Copy)]
pub(crate) struct ParentName<'a> {
    // The bytes of its key.
    pub(crate) key: &'a [u8],
    // The generation of its parts.
    pub(crate) signature: i64,
}

// The record of a part of an object with a key and a generation, which is found by its name. The name is made in `buffer`.
pub(crate) fn find_part<F: Folder>(
    folder: &mut F,
    files: &BlockFiles,
    parent: ParentName,
    number: u32,
    buffer: &mut [u8],
) -> Result<Option<Addr>, Fault>
    requires some { 1 ≤ length parent.key.now }
    requires short { length parent.key.now ≤ longest_key }
    requires signature { cast_unsigned w64 parent.signature < signatures }
    requires number { number < part_count }
    requires buffer { longest_name ≤ length buffer.old }
    requires is_open { ForSome (F.told folder.old).files (IsOpen files.now) }
    ensures part { IfOk result (λ part. ForTold (F.told folder.old) (ForEachOfName parent.entry) (HasPart number part)) }
    ensures kind { IfOk result (λ part. IfSome part (λ entry. kind_of entry ≡ blocks_256)) }
    ensures stands { IfOk result (λ part. IfSome part (λ entry. IsTrue (stands_among files.now entry))) }
    ensures buffer { length buffer.new ≡ length buffer.old }
    ensures reads { ReadsOnly F.told F.faults folder.old folder.new (IfDevice result) }
    ensures damaged { IfDamaged result (IsFailedCheck files.now (F.told folder.new)) }
    ensures untold { ForTold (F.told folder.old) (ForEachOfName parent.entry) (Undamaged result (F.told folder.old)) }
{
    let len = child_name(parent.key, parent.signature, number, buffer);
    match find(folder, files, &buffer[..len], true)? {
        Some(found) => Ok(Some(found.entry)),
        None => Ok(None),
    }
}

// Moves the node that a record names to the front of the LRU list, and sets its times to a moment.
pub(crate) fn use_entry<F: Folder>(
    folder: &mut F,
    files: &BlockFiles,
    entry: Addr,
    moment: u64,
) -> Result<(), Fault>
    requires kind { kind_of entry ≡ blocks_256 }
    requires stands { IsTrue (stands_among files.now entry) }
    requires is_open { ForSome (F.told folder.old).files (IsOpen files.now) }
    ensures used { OnOk result (ForTold (F.told folder.old) (ForEachListedAt entry) (ItemUsed (F.told folder.new))) }
    ensures stops { ForTold (F.told folder.old) (ForEachListedAt entry) (ItemUsing (F.told folder.old) (F.told folder.new)) }
    ensures is_open { ForSome (F.told folder.new).files (IsOpen files.now) }
    ensures damaged { IfDamaged result (IsFailedCheck files.now (F.told folder.new)) }
    ensures untold { ForTold (F.told folder.old) (ForEachListedAt entry) (λ _ _ _ _ _. OpaqueIfDamaged result (F.told folder.old)) }
    ensures writes { MayWrite F.told F.faults folder.old folder.new (IfDevice result) }
{
    let node = node_of(folder, files, entry)?;
    // That the word is one of an address is known once it is read.
    let _word = node.word();
    touch(folder, files, node, moment)
}
