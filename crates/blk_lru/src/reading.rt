// The order of the LRU list.
ghost use Rattle.std.specs.Prelude.{◌≡◌, ◌+◌, ◌<◌, ◌%◌, ◌==◌, IfOk, IfSome, IsTrue, None, OnOk, Some, if◌then◌else◌};
ghost use Rattle.std.specs.Option.{ForSome};
ghost use Rattle.spec_image.specs.Image.{word as image_word, Block as block, Index as index, HasRange};
ghost use Rattle.spec_image.specs.Told.{ReadsOnly};
ghost use Rattle.spec_format.specs.Address.{file_selector, place};
ghost use Rattle.spec_format.specs.Headers.{header_length, HasWholeIndex};
ghost use Rattle.spec_folder.specs.View.{list_of};
ghost use Rattle.spec_folder.specs.ListImages.{walked};
ghost use Rattle.blk_io.specs.declared.folder.FileId.TheVariants as names;
ghost use Rattle.blk_io.specs.Faults.{IfDamaged, IfDevice, OkFor, UndamagedWhereBoth};
ghost use Rattle.blk_disk.specs.Tables.{Agrees, is_node_among};
ghost use Rattle.blk_disk.specs.Damages.{IsNodeWordDamage};
ghost use Rattle.blk_lru.specs.Damages.{IsListHeadDamage, IsNodeLinkDamage, IsListTailDamage};
ghost use Rattle.blk_lru.specs.Nodes.{IsNodeOrNone, other_node_at};
ghost use Rattle.blk_lru.specs.Lists.{IsListed, IsListAtRest, first_node_of, last_node_of};
ghost use Rattle.blk_lru.specs.Plans.{word_or_zero, word_or_none};
ghost use Rattle.blk_lru.specs.ListClauses.{ForBothSides};

use crate::nodes::link;
use blk_addr::Addr;
use blk_disk::BlockFiles;
use blk_index::word;
use blk_io::{Damage, Fault, FileId, Folder};
use blk_record::{IndexHead, NodeView};

/// The most nodes of an LRU list. A walk over one passes one more, so that it ends on any folder.
pub const MOST_NODES: u32 = 131_072;

// The places of the first and the last node in the index.
pub(crate) const HEAD: u64 = IndexHead::HEADS;

pub(crate) const TAIL: u64 = IndexHead::TAILS;

/// The node that was used most recently, the first of the list, or `None` where the list is empty, by one folder call.
///
/// A word that is neither 0 nor the address of a node that is there is corruption.
pub fn first<F: Folder>(f: &mut F, files: &BlockFiles) -> Result<Option<Addr>, Fault>
    ensures node { OkFor result (F.told f.old) (λ node image. IsListAtRest image → node ≡ first_node_of (walked image)) }
    ensures word { OkFor result (F.told f.old) (λ node image. word_or_zero node ≡ (list_of image).head) }
    ensures stands { IfOk result (λ node. IfSome node (λ n. IsTrue (is_node_among files.now n))) }
    ensures checked { OnOk result (ForSome (F.told f.old).files (λ image. HasRange image index IndexHead.HEADS 4)) }
    ensures reads { ReadsOnly F.told F.faults f.old f.new (IfDevice result) }

    // Too few bytes, or a word that names no node, which no observable folder gives whose list is idle.
    ensures damaged { IfDamaged result (IsListHeadDamage files.now (F.told f.old)) }
    ensures untold { ForSome (F.told f.old).files HasWholeIndex → UndamagedWhereBoth result (F.told f.old) (Agrees files.now) IsListAtRest }
{
    end_of_list(f, files, HEAD)
}

/// The node that was used least recently, the last of the list, or `None` where the list is empty, by one folder call.
///
/// A word that is neither 0 nor the address of a node that is there is corruption.
pub fn last<F: Folder>(f: &mut F, files: &BlockFiles) -> Result<Option<Addr>, Fault>
    ensures node { OkFor result (F.told f.old) (λ node image. IsListAtRest image → node ≡ last_node_of (walked image)) }
    ensures word { OkFor result (F.told f.old) (λ node image. word_or_zero node ≡ (list_of image).tail) }
    ensures stands { IfOk result (λ node. IfSome node (λ n. IsTrue (is_node_among files.now n))) }
    ensures checked { OnOk result (ForSome (F.told f.old).files (λ image. HasRange image index IndexHead.TAILS 4)) }
    ensures reads { ReadsOnly F.told F.faults f.old f.new (IfDevice result) }

    // Too few bytes, or a word that names no node, which no observable folder gives whose list is idle.
    ensures damaged { IfDamaged result (IsListTailDamage files.now (F.told f.old)) }
    ensures untold { ForSome (F.told f.old).files HasWholeIndex → UndamagedWhereBoth result (F.told f.old) (Agrees files.now) IsListAtRest }
{
    end_of_list(f, files, TAIL)
}

/// The node before a listed one, which was used more recently, or `None` before the first, by one folder call.
///
/// A link that isn't the address of a node that is there is corruption.
pub fn before<F: Folder>(f: &mut F, files: &BlockFiles, node: Addr) -> Result<Option<Addr>, Fault>
    requires stands { IsTrue (is_node_among files.now node) }
    ensures node { OkFor result (F.told f.old) (λ found. ForBothSides files.now node (λ prefix suffix. found ≡ last_node_of prefix)) }
    ensures word { OkFor result (F.told f.old) (λ found image. found ≡ other_node_at image node NodeView.PREV) }
    ensures stands { IfOk result (λ found. IfSome found (λ n. IsTrue (is_node_among files.now n))) }
    ensures checked { OnOk result (ForSome (F.told f.old).files (λ image. HasRange image (block (file_selector node)) (place node + NodeView.PREV) 4)) }
    ensures reads { ReadsOnly F.told F.faults f.old f.new (IfDevice result) }

    // Too few bytes, or a word that names no node, which no observable folder gives in whose list the node is.
    ensures damaged { IfDamaged result (IsNodeLinkDamage node NodeView.PREV files.now (F.told f.old)) }
    ensures untold { UndamagedWhereBoth result (F.told f.old) (Agrees files.now) (IsListed node) }
{
    let other = link(f, files, node, NodeView::PREV)?;
    Ok(unless_same(node, other))
}

/// The node after a listed one, which was used less recently, or `None` after the last, by one folder call.
///
/// A link that isn't the address of a node that is there is corruption.
pub fn after<F: Folder>(f: &mut F, files: &BlockFiles, node: Addr) -> Result<Option<Addr>, Fault>
    requires stands { IsTrue (is_node_among files.now node) }
    ensures node { OkFor result (F.told f.old) (λ found. ForBothSides files.now node (λ prefix suffix. found ≡ first_node_of suffix)) }
    ensures word { OkFor result (F.told f.old) (λ found image. found ≡ other_node_at image node NodeView.NEXT) }
    ensures stands { IfOk result (λ found. IfSome found (λ n. IsTrue (is_node_among files.now n))) }
    ensures checked { OnOk result (ForSome (F.told f.old).files (λ image. HasRange image (block (file_selector node)) (place node + NodeView.NEXT) 4)) }
    ensures reads { ReadsOnly F.told F.faults f.old f.new (IfDevice result) }

    // Too few bytes, or a word that names no node, which no observable folder gives in whose list the node is.
    ensures damaged { IfDamaged result (IsNodeLinkDamage node NodeView.NEXT files.now (F.told f.old)) }
    ensures untold { UndamagedWhereBoth result (F.told f.old) (Agrees files.now) (IsListed node) }
{
    let other = link(f, files, node, NodeView::NEXT)?;
    Ok(unless_same(node, other))
}

// Another node than this one.
fn unless_same(node: Addr, other: Addr) -> Option<Addr>
    ensures { result ≡ (if other == node then None else Some other) }
{
    if other == node { None } else { Some(other) }
}

// The node that a word of the index names, or none where the word is 0.
pub(crate) fn end_of_list<F: Folder>(
    folder: &mut F,
    files: &BlockFiles,
    at: u64,
) -> Result<Option<Addr>, Fault>
    requires aligned { at % 4 ≡ 0 }
    requires inside { at < header_length }
    ensures node { OkFor result (F.told folder.old) (λ node image. node ≡ word_or_none (image_word image index at)) }
    ensures stands { IfOk result (λ node. IfSome node (λ n. IsTrue (is_node_among files.now n))) }
    ensures checked { OnOk result (ForSome (F.told folder.old).files (λ image. HasRange image index at 4)) }
    ensures reads { ReadsOnly F.told F.faults folder.old folder.new (IfDevice result) }
    ensures damaged { IfDamaged result (IsNodeWordDamage files.now (F.told folder.old) names.Index at) }
    ensures untold { UndamagedWhereBoth result (F.told folder.old) HasWholeIndex (λ image. IsNodeOrNone files.now (image_word image index at)) }
{
    let found = word(folder, at)?;
    if found == 0 {
        return Ok(None);
    }
    let Some(node) = files.node(found) else {
        let file = FileId::Index;
        return Err(Fault::Damaged(Damage { file, at, found }));
    };
    Ok(Some(node))
}
