// The parts of a key in the LRU list.
ghost use Rattle.std.specs.Prelude.{◌≡◌, ◌≤◌, ◌<◌, IfOk, IfSome, IsTrue, None, length};
ghost use Rattle.std.specs.Option.{ForSome};
ghost use Rattle.spec_image.specs.Told.{ReadsOnly};
ghost use Rattle.blk_model.specs.Sizes.{part_count};
ghost use Rattle.spec_format.specs.Address.{blocks_256, kind_of};
ghost use Rattle.spec_format.specs.Names.{read_name};
ghost use Rattle.spec_folder.specs.View.{node_at};
ghost use Rattle.blk_io.specs.Faults.{IfDamaged, IfDevice, OpaqueIfDamaged, UndamagedWhere};
ghost use Rattle.blk_disk.specs.Open.{IsOpen};
ghost use Rattle.blk_disk.specs.Tables.{Agrees, is_node_among, stands_among};
ghost use Rattle.blk_entry.specs.Keys.{most_key};
ghost use Rattle.blk_object.specs.FailedChecks.{IsFailedCheck};
ghost use Rattle.blk_object.specs.ListedParts.{IsFoundPart, IsPartThere, SaysPart, first_node, number_said, part_loaded, number_of_role, ForLoadedAt, LoadsSomeAt, IsAtItsNode, ForSearch};
ghost use Rattle.blk_object.specs.ListWalks.{GoesTo, WalkEnds};
ghost use Rattle.blk_object.specs.Owning.{ForLoaded, LoadsSomeWith};

use crate::list_walks::{end_walk, node_damage};
use blk_addr::Addr;
use blk_disk::BlockFiles;
use blk_entry::{key_piece, read_head};
use blk_io::{Fault, Folder};
use blk_lru::{MOST_NODES, after, first};
use blk_ranges::{KEY_OF_NAME, read_child_name};
use blk_record::{CHILD, NodeView};

/// A part in the LRU list: its node, its record, and its number.
#[derive(Clone, Copy, Debug, PartialEq, Eq)]
pub struct ListedPart {
    pub node: Addr,
    pub entry: Addr,
    pub number: u32,
}

/// The first part of a key in the LRU list, from its front on, or after the node of an item; `None` where there is none.
///
/// Nothing is changed. This takes three folder calls for each item, and two more for a part, of which the name is read
/// into `buffer`. A walk that goes on after 131073 nodes is corruption, of the next of the last one.
pub fn next_part<F: Folder>(
    folder: &mut F,
    files: &BlockFiles,
    key: &[u8],
    from: Option<Addr>,
    buffer: &mut [u8],
) -> Result<Option<ListedPart>, Fault>
    requires from { IfSome from (λ node. IsTrue (is_node_among files.now node)) }
    requires buffer { most_key ≤ length buffer.old }
    requires is_open { ForSome (F.told folder.old).files (IsOpen files.now) }

    // Where some items are out, or none, the answer is the first part of the key among the others, or after the item of `from`; it is None exactly where none
    // is.
    ensures part { IfOk result (λ found. ForSearch (F.told folder.old) from (λ layout items. IsFoundPart layout key.now items found)) }
    ensures there { IfOk result (λ found. IfSome found (IsPartThere files.now)) }

    // On every folder the answer is None only where the list ends.
    ensures ends { IfOk result (λ found. found ≡ None → ForSome (F.told folder.old).files (WalkEnds files.now NodeView.NEXT from)) }

    // On every folder its record has the name of that part.
    ensures named { IfOk result (λ found. IfSome found (λ part. ForSome (F.told folder.old).files (SaysPart part.entry key.now part.number))) }

    // The node of the part names that record.
    ensures contents { IfOk result (λ found. IfSome found (λ part. IsAtItsNode (F.told folder.old) part)) }

    ensures reads { ReadsOnly F.told F.faults folder.old folder.new (IfDevice result) }

    // Corruption is a check that fails on what is read here; nothing is written after it.
    ensures damaged { IfDamaged result (IsFailedCheck files.now (F.told folder.new)) }

    // An observable folder that keeps a state, with some items out or none, reports no corruption.
    ensures untold { ForSearch (F.told folder.old) from (λ layout items. OpaqueIfDamaged result (F.told folder.old)) }
{
    let mut last = from;
    let mut next = node_behind(folder, files, from)?;
    for _ in 0..MOST_NODES + 1 {
        let Some(node) = next else {
            return Ok(None);
        };
        let found = part_at(folder, files, key, node, buffer)?;
        if found.is_some() {
            return Ok(found);
        }
        last = Some(node);
        next = after(folder, files, node)?;
    }
    end_walk(last, NodeView::NEXT, next)?;
    Ok(None)
}

// The first node of the list, or the one after a node.
fn node_behind<F: Folder>(
    folder: &mut F,
    files: &BlockFiles,
    from: Option<Addr>,
) -> Result<Option<Addr>, Fault>
    requires from { IfSome from (λ node. IsTrue (is_node_among files.now node)) }
    requires is_open { ForSome (F.told folder.old).files (IsOpen files.now) }
    ensures node { IfOk result (λ node. ForSearch (F.told folder.old) from (λ layout items. node ≡ first_node layout items)) }
    ensures word { IfOk result (λ node. ForSome (F.told folder.old).files (λ image. GoesTo NodeView.NEXT image from node)) }
    ensures stands { IfOk result (λ node. IfSome node (λ n. IsTrue (is_node_among files.now n))) }
    ensures reads { ReadsOnly F.told F.faults folder.old folder.new (IfDevice result) }
    ensures damaged { IfDamaged result (IsFailedCheck files.now (F.told folder.new)) }
    ensures untold { ForSearch (F.told folder.old) from (λ layout items. OpaqueIfDamaged result (F.told folder.old)) }
{
    match from {
        Some(node) => after(folder, files, node),
        None => first(folder, files),
    }
}

// The part of a key at a node, if one lies there.
fn part_at<F: Folder>(
    folder: &mut F,
    files: &BlockFiles,
    key: &[u8],
    node: Addr,
    buffer: &mut [u8],
) -> Result<Option<ListedPart>, Fault>
    requires node { IsTrue (is_node_among files.now node) }
    requires buffer { most_key ≤ length buffer.old }
    ensures part { IfOk result (λ found. ForLoadedAt (F.told folder.old) node (λ loaded. found ≡ part_loaded key.now node loaded)) }
    ensures there { IfOk result (λ found. IfSome found (IsPartThere files.now)) }
    ensures named { IfOk result (λ found. IfSome found (λ part. ForSome (F.told folder.old).files (SaysPart part.entry key.now part.number))) }
    ensures contents { IfOk result (λ found. IfSome found (λ part. IsAtItsNode (F.told folder.old) part)) }
    ensures reads { ReadsOnly F.told F.faults folder.old folder.new (IfDevice result) }
    ensures damaged { IfDamaged result (IsFailedCheck files.now (F.told folder.new)) }
    ensures untold { ForSome (F.told folder.old).files (Agrees files.now) → UndamagedWhere result (F.told folder.old) (LoadsSomeAt node) }
{
    let entry = entry_named(folder, files, node)?;
    match number_of(folder, files, key, entry, buffer)? {
        Some(number) => Ok(Some(ListedPart {
            node,
            entry,
            number,
        })),
        None => Ok(None),
    }
}

/// The record that a node names, by one folder call. Nothing is written.
///
/// A failed check is a read that gave too few bytes, or a word that names no record which is there.
pub fn entry_named<F: Folder>(folder: &mut F, files: &BlockFiles, node: Addr) -> Result<Addr, Fault>
    requires node { IsTrue (is_node_among files.now node) }
    ensures entry { IfOk result (λ entry. ForSome (F.told folder.old).files (λ image. entry ≡ (node_at image node).contents)) }
    ensures kind { IfOk result (λ entry. kind_of entry ≡ blocks_256) }
    ensures stands { IfOk result (λ entry. IsTrue (stands_among files.now entry)) }
    ensures reads { ReadsOnly F.told F.faults folder.old folder.new (IfDevice result) }
    ensures damaged { IfDamaged result (IsFailedCheck files.now (F.told folder.new)) }
    ensures untold { ForSome (F.told folder.old).files (Agrees files.now) → UndamagedWhere result (F.told folder.old) (LoadsSomeAt node) }
{
    let mut bytes = [0u8; 4];
    files.read_block(folder, node, NodeView::CONTENTS, &mut bytes)?;
    let found = u32::from_le_bytes(bytes);
    let Some(entry) = files.entry(found) else {
        return Err(node_damage(node, NodeView::CONTENTS, found));
    };
    Ok(entry)
}

// The number of the part of a key that a record is, if it is one.
fn number_of<F: Folder>(
    folder: &mut F,
    files: &BlockFiles,
    key: &[u8],
    entry: Addr,
    buffer: &mut [u8],
) -> Result<Option<u32>, Fault>
    requires kind { kind_of entry ≡ blocks_256 }
    requires stands { IsTrue (stands_among files.now entry) }
    requires buffer { most_key ≤ length buffer.old }
    ensures number { IfOk result (λ number. ForLoaded (F.told folder.old) entry (λ loaded. number ≡ number_of_role key.now loaded.role)) }
    ensures small { IfOk result (λ number. IfSome number (λ n. n < part_count)) }
    ensures named { IfOk result (λ number. IfSome number (λ n. ForSome (F.told folder.old).files (SaysPart entry key.now n))) }
    ensures reads { ReadsOnly F.told F.faults folder.old folder.new (IfDevice result) }
    ensures damaged { IfDamaged result (IsFailedCheck files.now (F.told folder.new)) }
    ensures untold { ForSome (F.told folder.old).files (Agrees files.now) → UndamagedWhere result (F.told folder.old) (LoadsSomeWith entry) }
{
    let head = read_head(folder, files, entry)?;
    if head.flags != CHILD {
        return Ok(None);
    }
    let len = key_piece(folder, files, entry, 0, buffer)?;
    Ok(part_named(&buffer[..len], key))
}

// The number of the part of a key that a name says, if it says one.
fn part_named(name: &[u8], key: &[u8]) -> Option<u32>
    ensures number { result ≡ number_said key.now (read_name name.now) }
    ensures small { IfSome result (λ n. n < part_count) }
{
    let child = read_child_name(name)?;
    let behind = &name[KEY_OF_NAME..];
    let parent = &behind[..child.key_len];
    if *parent == *key {
        Some(child.part)
    } else {
        None
    }
}
