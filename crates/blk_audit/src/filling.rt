// Nodes that are read side by side, many by one folder call.
ghost use Rattle.std.specs.Prelude.{◌≡◌, ◌+◌, ◌*◌, ◌≤◌, ◌<◌, ◌++◌, length, OnOk};
ghost use Rattle.std.specs.Option.{ForSome};
ghost use Rattle.spec_image.specs.Told.{ReadsOnly};
ghost use Rattle.spec_format.specs.Address.{header_size};
ghost use Rattle.spec_format.specs.Records.{node_size};
ghost use Rattle.blk_audit.specs.Faults.{IfScanDamaged, IfScanDevice, IsShortOfNodes};
ghost use Rattle.blk_audit.specs.Filling.{node_said, nodes_in};
ghost use Rattle.blk_audit.specs.Pieces.{nodes_of_piece};
ghost use Rattle.blk_audit.specs.ScanClauses.{HasNodesAt, AddsNodesAt, ScanUndamagedWhere};

use crate::fault::ScanFault;
use crate::nodes::Node;
use blk_addr::NoMemory;
use blk_io::{FileId, Folder, read_exact};
use blk_record::{BlockHead, NodeView, Record};

// The most nodes that are read by one call.
const NODES_OF_PIECE: usize = 1024;

// What a scan keeps of a node with these bytes.
fn said(window: &[u8]) -> Node
    requires { length window.now ≡ node_size }
    ensures { result ≡ node_said window.now }
{
    let Some(view) = NodeView::over(window) else {
        unreachable!();
    };
    Node {
        checks: view.checks(),
        bare: view.word(NodeView::SEAL) == 0,
        next: view.word(NodeView::NEXT as usize),
        prev: view.word(NodeView::PREV as usize),
        contents: view.word(NodeView::CONTENTS as usize),
        dirty: view.word(NodeView::DIRTY as usize),
    }
}

// Adds so many nodes with these bytes.
fn add_nodes(nodes: &mut Vec<Node>, bytes: &[u8], count: usize) -> Result<(), NoMemory>
    requires { length bytes.now ≡ node_size * count }
    ensures { OnOk result (nodes.new.items ≡ nodes.old.items ++ nodes_in bytes.now count) }
{
    for i in 0..count {
        let window = &bytes[NodeView::SIZE * i..NodeView::SIZE * i + NodeView::SIZE];
        nodes.push(said(window))?;
    }
    Ok(())
}

// Reads so many nodes of a file from one on into a buffer of their size, by one folder call, and adds them.
fn read_piece<F: Folder>(
    folder: &mut F,
    file: u8,
    first: u32,
    count: usize,
    bytes: &mut [u8],
    nodes: &mut Vec<Node>,
) -> Result<(), ScanFault>
    requires few { count ≤ nodes_of_piece }
    requires size { length bytes.old ≡ node_size * count }
    ensures nodes { OnOk result (ForSome (F.told folder.old).files (AddsNodesAt file (header_size + first * node_size) count nodes.old.items nodes.new.items)) }
    ensures checked { OnOk result (ForSome (F.told folder.old).files (λ image. 0 < count → HasNodesAt file (header_size + first * node_size) count image)) }
    ensures reads { ReadsOnly F.told F.faults folder.old folder.new (IfScanDevice result) }
    ensures damaged { IfScanDamaged result (IsShortOfNodes (F.told folder.new) file) }
    ensures untold { ScanUndamagedWhere result (F.told folder.new) (HasNodesAt file (header_size + first * node_size) count) }
{
    let at = BlockHead::HEADER_LEN + u64::from(first) * NodeView::SIZE as u64;
    read_exact(folder, FileId::Block(file), at, bytes)?;
    add_nodes(nodes, bytes, count)?;
    Ok(())
}

// Reads the first nodes of a file, piece after piece, and adds them.
pub(crate) fn read_file<F: Folder>(
    folder: &mut F,
    file: u8,
    count: u32,
    nodes: &mut Vec<Node>,
) -> Result<(), ScanFault>
    requires few { count ≤ 65536 }
    ensures nodes { OnOk result (ForSome (F.told folder.old).files (AddsNodesAt file header_size count nodes.old.items nodes.new.items)) }
    ensures checked { OnOk result (ForSome (F.told folder.old).files (λ image. 0 < count → HasNodesAt file header_size count image)) }
    ensures reads { ReadsOnly F.told F.faults folder.old folder.new (IfScanDevice result) }
    ensures damaged { IfScanDamaged result (IsShortOfNodes (F.told folder.new) file) }
    ensures untold { ScanUndamagedWhere result (F.told folder.new) (λ image. 0 < count → HasNodesAt file header_size count image) }
{
    let mut buffer = [0u8; NodeView::SIZE * NODES_OF_PIECE];
    let mut first: u32 = 0;
    while first < count {
        let piece = piece_from(first, count);
        let bytes = &mut buffer[..NodeView::SIZE * piece as usize];
        read_piece(folder, file, first, piece as usize, bytes, nodes)?;
        first += piece;
    }
    Ok(())
}

// The number of nodes that are read from one on.
fn piece_from(first: u32, count: u32) -> u32
    requires { first < count }
    ensures some { 0 < result }
    ensures most { result ≤ nodes_of_piece }
    ensures within { first + result ≤ count }
{
    (count - first).min(NODES_OF_PIECE as u32)
}
