// Words that name nodes, and the links of nodes.
ghost use Rattle.std.specs.Prelude.{◌≡◌, ◌+◌, IfOk, IfSome, IsTrue, None, OnOk, Some, length, true};
ghost use Rattle.std.specs.Option.{ForSome};
ghost use Rattle.spec_image.specs.Image.{Block as block, HasRange};
ghost use Rattle.spec_image.specs.Told.{ReadsOnly};
ghost use Rattle.spec_format.specs.Address.{file_selector, place};
ghost use Rattle.spec_format.specs.Records.{checks, node_size};
ghost use Rattle.blk_io.specs.declared.folder.FileId.TheVariants as names;
ghost use Rattle.blk_io.specs.Faults.{IfDamaged, IfDevice, IsShort, UndamagedWhere, OkFor, UndamagedWhereBoth};
ghost use Rattle.blk_disk.specs.Tables.{Agrees, is_node_among};
ghost use Rattle.blk_lru.specs.Damages.{IsNodeLinkDamage, IsShortNode};
ghost use Rattle.blk_lru.specs.Nodes.{link_at, list_among, FindsNode, HasNode, IsLinkPlace, links_by};
ghost use Rattle.blk_lru.specs.ListClauses.{LinkStands};

use blk_addr::Addr;
use blk_disk::{BlockFiles, file_of};
use blk_io::{Damage, Fault, Folder};
use blk_record::{BlockHead, NodeView, Record};

// A node whose checksum matches or is absent, and the words of its links.
#[derive(Clone, Copy)]
pub(crate) struct Links {
    pub(crate) node: Addr,
    pub(crate) next: u32,
    pub(crate) prev: u32,
}

// The node that a link of a node names, by one folder call.
pub(crate) fn link<F: Folder>(
    folder: &mut F,
    files: &BlockFiles,
    node: Addr,
    at: u32,
) -> Result<Addr, Fault>
    requires stands { IsTrue (is_node_among files.now node) }
    requires place { IsLinkPlace at }
    ensures word { OkFor result (F.told folder.old) (λ found image. found ≡ link_at image node at) }
    ensures stands { IfOk result (λ found. IsTrue (is_node_among files.now found)) }
    ensures checked { OnOk result (ForSome (F.told folder.old).files (λ image. HasRange image (block (file_selector node)) (place node + at) 4)) }
    ensures reads { ReadsOnly F.told F.faults folder.old folder.new (IfDevice result) }
    ensures damaged { IfDamaged result (IsNodeLinkDamage node at files.now (F.told folder.old)) }
    ensures untold { UndamagedWhereBoth result (F.told folder.old) (Agrees files.now) (LinkStands files.now node at) }
{
    let mut bytes = [0u8; 4];
    files.read_block(folder, node, at, &mut bytes)?;
    let found = u32::from_le_bytes(bytes);
    let Some(other) = files.node(found) else {
        let file = file_of(node);
        let at = BlockHead::HEADER_LEN
            + u64::from(node.start()) * NodeView::SIZE as u64
            + u64::from(at);
        return Err(Fault::Damaged(Damage { file, at, found }));
    };
    Ok(other)
}

// The word of a link of a node, which need not name a node, by one folder call.
pub(crate) fn link_word<F: Folder>(
    folder: &mut F,
    files: &BlockFiles,
    node: Addr,
    at: u32,
) -> Result<u32, Fault>
    requires stands { is_node_among files.now node ≡ true }
    requires place { IsLinkPlace at }
    ensures word { OkFor result (F.told folder.old) (λ found image. found ≡ link_at image node at) }
    ensures reads { ReadsOnly F.told F.faults folder.old folder.new (IfDevice result) }
    ensures damaged { IfDamaged result (IsShort (F.told folder.old) (names.Block (file_selector node)) (place node + at) 4) }
    ensures untold { UndamagedWhere result (F.told folder.old) (Agrees files.now) }
{
    let mut bytes = [0u8; 4];
    files.read_block(folder, node, at, &mut bytes)?;
    Ok(u32::from_le_bytes(bytes))
}

// The node that a word names and its links, where it is there and its checksum matches or is absent, by at most one folder call.
pub(crate) fn checked<F: Folder>(
    folder: &mut F,
    files: &BlockFiles,
    word: u32,
) -> Result<Option<Links>, Fault>
    ensures found { OkFor result (F.told folder.old) (λ found image. FindsNode (list_among files.now image) word found) }
    ensures stands { IfOk result (λ found. IfSome found (λ links. is_node_among files.now links.node ≡ true)) }
    ensures checked { OnOk result (ForSome (F.told folder.old).files (λ image. HasNode files.now image word)) }
    ensures reads { ReadsOnly F.told F.faults folder.old folder.new (IfDevice result) }
    ensures damaged { IfDamaged result (IsShortNode files.now (F.told folder.new)) }
    ensures untold { UndamagedWhere result (F.told folder.old) (Agrees files.now) }
{
    let Some(node) = files.node(word) else {
        return Ok(None);
    };
    let mut window = [0u8; NodeView::SIZE];
    files.read_block(folder, node, 0, &mut window)?;
    Ok(links_in(node, &window))
}

// The links of a node that has these bytes, where its checksum matches or is absent.
fn links_in(node: Addr, window: &[u8]) -> Option<Links>
    requires { length window.now ≡ node_size }
    ensures { result ≡ links_by node window.now }
{
    let Some(view) = NodeView::over(window) else {
        unreachable!();
    };
    if !view.checks() {
        return None;
    }
    Some(Links {
        node,
        next: view.word(NodeView::NEXT as usize),
        prev: view.word(NodeView::PREV as usize),
    })
}
