// What its flags and its index make a record.
ghost use Rattle.std.specs.Prelude.{◌≡◌, ◌≤◌, ◌<◌, ◌==◌, if◌then◌else◌, IfOk, None, OnOk, Some, length, slice_index, true};
ghost use Rattle.std.specs.Option.{ForSome};
ghost use Rattle.spec_image.specs.Told.{ReadsOnly};
ghost use Rattle.spec_format.specs.Storage.{largest_in_4k};
ghost use Rattle.blk_io.specs.Faults.{IfDamaged, IfDevice};
ghost use Rattle.blk_disk.specs.Tables.{Agrees};
ghost use Rattle.blk_entry.specs.Keys.{stores};
ghost use Rattle.blk_verdict.specs.Readable.{HasIndexIf};
ghost use Rattle.blk_verdict.specs.Reads.{IsCutRead};
ghost use Rattle.blk_verdict.specs.declared.roles.Role.TheVariants as role;
ghost use Rattle.blk_verdict.specs.VerdictClauses.{IsFrontOf, IsParentRoleOf, IsPartRoleOf, IsRoleOf, part_if_covered};

use crate::covers::{is_covered, is_named};
use blk_addr::Addr;
use blk_audit::RecordWords;
use blk_disk::BlockFiles;
use blk_entry::read_data;
use blk_io::{Fault, Folder};
use blk_ranges::{ChildName, PART_SIZE, ParentHead, ParentMap, PartMap, read_child_name};
use blk_record::{CHILD, PARENT, SparseHead};

// How many bytes the indexes of a parent and of a part have.
const PARENT_INDEX: u32 = ParentMap::LEN as u32;

const PART_INDEX: u32 = PartMap::LEN as u32;

/// What a record is.
#[derive(Clone, Copy, Debug, PartialEq, Eq)]
pub enum Role {
    /// An entry without sparse data.
    Plain,
    /// A sparse entry, with the head of its index.
    Parent(ParentHead),
    /// A part of a sparse entry, by its name.
    Part(ChildName),
}

// What a record with three streams is, if its index is right; a parent or a part takes one folder call. `key` is
// the key of a part's record; otherwise it isn't read.
pub(crate) fn read_role<F: Folder>(
    folder: &mut F,
    files: &BlockFiles,
    words: &RecordWords,
    key: &[u8],
) -> Result<Option<Role>, Fault>
    requires stored { stores files.now (slice_index words.now.sizes 2) (slice_index words.now.addrs 2) ≡ true }
    ensures role { IfOk result (λ role. ForSome (F.told folder.old).files (IsRoleOf words.now key.now role)) }
    ensures index { IfOk result (HasIndexIf files.now words.now.sizes words.now.addrs) }
    ensures reads { ReadsOnly F.told F.faults folder.old folder.new (IfDevice result) }
    ensures short { IfDamaged result (IsCutRead files.now (F.told folder.old)) }
    ensures untold { ForSome (F.told folder.old).files (Agrees files.now) → IfDamaged result (λ _. (F.told folder.old).files ≡ None) }
{
    if words.flags == PARENT {
        parent_role(folder, files, words)
    } else if words.flags == CHILD {
        part_role(folder, files, words, key)
    } else {
        Ok(Some(Role::Plain))
    }
}

// A parent, where its index is right.
fn parent_role<F: Folder>(
    folder: &mut F,
    files: &BlockFiles,
    words: &RecordWords,
) -> Result<Option<Role>, Fault>
    requires stored { stores files.now (slice_index words.now.sizes 2) (slice_index words.now.addrs 2) ≡ true }
    ensures role { IfOk result (λ role. ForSome (F.told folder.old).files (IsParentRoleOf words.now role)) }
    ensures index { IfOk result (HasIndexIf files.now words.now.sizes words.now.addrs) }
    ensures reads { ReadsOnly F.told F.faults folder.old folder.new (IfDevice result) }
    ensures short { IfDamaged result (IsCutRead files.now (F.told folder.old)) }
    ensures untold { ForSome (F.told folder.old).files (Agrees files.now) → IfDamaged result (λ _. (F.told folder.old).files ≡ None) }
{
    if words.sizes[1] != 0 || words.sizes[2] != PARENT_INDEX {
        return Ok(None);
    }
    let mut bytes = [0u8; SparseHead::LEN];
    read_front(folder, files, words.sizes[2], words.addrs[2], &mut bytes)?;
    match ParentHead::read(&bytes) {
        Some(head) => Ok(parent_with(head, words.key_len)),
        None => Ok(None),
    }
}

// A parent with this head, where it has the length of the key.
fn parent_with(head: ParentHead, key_len: u32) -> Option<Role>
    ensures { result ≡ (if head.key_len == key_len then Some (role.Parent head) else None) }
{
    if head.key_len == key_len {
        Some(Role::Parent(head))
    } else {
        None
    }
}

// A part, where its key is a name, and its index fits the name and its data.
fn part_role<F: Folder>(
    folder: &mut F,
    files: &BlockFiles,
    words: &RecordWords,
    key: &[u8],
) -> Result<Option<Role>, Fault>
    requires stored { stores files.now (slice_index words.now.sizes 2) (slice_index words.now.addrs 2) ≡ true }
    ensures role { IfOk result (λ role. ForSome (F.told folder.old).files (IsPartRoleOf words.now key.now role)) }
    ensures index { IfOk result (HasIndexIf files.now words.now.sizes words.now.addrs) }
    ensures reads { ReadsOnly F.told F.faults folder.old folder.new (IfDevice result) }
    ensures short { IfDamaged result (IsCutRead files.now (F.told folder.old)) }
    ensures untold { ForSome (F.told folder.old).files (Agrees files.now) → IfDamaged result (λ _. (F.told folder.old).files ≡ None) }
{
    if words.sizes[0] != 0 || words.sizes[1] > PART_SIZE || words.sizes[2] != PART_INDEX {
        return Ok(None);
    }
    let Some(name) = read_child_name(key) else {
        return Ok(None);
    };
    let mut bytes = [0u8; PartMap::LEN];
    read_front(folder, files, words.sizes[2], words.addrs[2], &mut bytes)?;
    match PartMap::read(&bytes) {
        Some(map) => Ok(part_with(&map, name, words.sizes[1])),
        None => Ok(None),
    }
}

// A part of this name, where its map fits the name and data of this size.
fn part_with(map: &PartMap, name: ChildName, size: u32) -> Option<Role>
    ensures { result ≡ part_if_covered map.now name size }
{
    if is_named(map, &name) && is_covered(map, size) {
        Some(Role::Part(name))
    } else {
        None
    }
}

// Reads the first bytes of data in blocks, which is stored as its address word says, by one folder call.
fn read_front<F: Folder>(
    folder: &mut F,
    files: &BlockFiles,
    size: u32,
    word: u32,
    out: &mut [u8],
) -> Result<(), Fault>
    requires some { 0 < size }
    requires blocks { size ≤ largest_in_4k }
    requires stored { stores files.now size word ≡ true }
    requires inside { length out.old ≤ size }
    ensures front { OnOk result (ForSome (F.told folder.old).files (IsFrontOf size word out.old out.new)) }
    ensures reads { ReadsOnly F.told F.faults folder.old folder.new (IfDevice result) }
    ensures short { IfDamaged result (IsCutRead files.now (F.told folder.old)) }
    ensures untold { ForSome (F.told folder.old).files (Agrees files.now) → IfDamaged result (λ _. (F.told folder.old).files ≡ None) }
{
    let Some(addr) = Addr::from_word(word) else {
        unreachable!();
    };
    read_data(folder, files, addr, 0, out)
}
