// The nodes of a folder, as they were read.
ghost use Rattle.std.specs.Prelude.{◌≡◌, ◌<◌, ◌==◌, if◌then◌else◌, None, Some, IfSome, OnOk, length};
ghost use Rattle.std.specs.Option.{ForSome};
ghost use Rattle.spec_image.specs.Told.{ReadsOnly};
ghost use Rattle.blk_disk.specs.Tables.{Agrees};
ghost use Rattle.blk_audit.specs.Faults.{IfScanDamaged, IfScanDevice, IsNodesDamage};
ghost use Rattle.blk_audit.specs.Pieces.{file_numbers};
ghost use Rattle.spec_format.specs.Address.{file_selector, kind_of, rankings};

use crate::counting::count_there;
use crate::fault::ScanFault;
use crate::filling::read_file;
use blk_addr::{Addr, BLOCK_FILES, FileId, Kind};
use blk_disk::BlockFiles;
use blk_io::Folder;
use std::alloc::Global;

// What a node says, whether its checksum matches or is absent, and whether it is absent (0): 20 bytes.
#[derive(Clone, Copy)]
pub(crate) struct Node {
    pub(crate) checks: bool,
    pub(crate) bare: bool,
    pub(crate) next: u32,
    pub(crate) prev: u32,
    pub(crate) contents: u32,
    pub(crate) dirty: u32,
}

const _: () = prove!(size_of::<Node>() == 20);

// The nodes of the linked files, file after file: where those of each file begin, and how many there are.
#[derive(Drop)]
pub(crate) struct Nodes {
    begins: [u32; BLOCK_FILES],
    counts: [u32; BLOCK_FILES],
    nodes: Vec<Node>,
    ghost all_begins: { length begins ≡ file_numbers },
    ghost all_counts: { length counts ≡ file_numbers },
}

impl Nodes {
    ghost use Rattle.blk_audit.specs.Filled.{CountStands, AreNodesFilled};
    ghost use Rattle.blk_audit.specs.Nodes.{node_of};
    ghost use Rattle.blk_audit.specs.ScanClauses.{KeepsOthersFilled, KeepsOthersCounted, ScanUndamagedWhere};

    // No nodes.
    pub(crate) fn none(alloc: Global) -> Nodes {
        Nodes {
            begins: [0; BLOCK_FILES],
            counts: [0; BLOCK_FILES],
            nodes: Vec::new(alloc),
        }
    }

    // Reads the nodes of a file, and adds them.
    pub(crate) fn add_file<F: Folder>(
        &mut self,
        folder: &mut F,
        files: &BlockFiles,
        file: u8,
    ) -> Result<(), ScanFault>
        ensures here { OnOk result (ForSome (F.told folder.old).files (λ image. AreNodesFilled files.now image self.new file)) }
        ensures others { OnOk result (ForSome (F.told folder.old).files (KeepsOthersFilled files.now file self.old self.new)) }
        ensures counted { OnOk result (CountStands files.now self.new file) }
        ensures others_counted { OnOk result (KeepsOthersCounted files.now file self.old self.new) }
        ensures reads { ReadsOnly F.told F.faults folder.old folder.new (IfScanDevice result) }
        ensures damaged { IfScanDamaged result (IsNodesDamage (F.told folder.new)) }
        ensures untold { ScanUndamagedWhere result (F.told folder.new) (Agrees files.now) }
    {
        let count = count_there(files, file);
        let Ok(begin) = u32::try_from(self.nodes.as_slice().len()) else {
            return Err(ScanFault::Memory);
        };
        read_file(folder, file, count, &mut self.nodes)?;
        self.begins[usize::from(file)] = begin;
        self.counts[usize::from(file)] = count;
        Ok(())
    }

    // The node at an address, if there is one.
    #[tactic(auto, using(std::proofs::lemmas::Bool::Decides::nat_tests), unfolding(crate::specs::Nodes::node_of))]
    pub(crate) fn get(&self, addr: Addr) -> Option<Node>
        ensures { result ≡ node_of self.now addr }
    {
        let Some(file) = file_of_node(addr) else {
            return None;
        };
        let start = addr.start();
        if start >= self.counts[file] {
            return None;
        }
        let begin = self.begins[file] as usize;
        self.nodes.get(begin + start as usize).copied()
    }
}

// The number of the file of an address, where it is that of a node.
#[tactic(auto, using(std::proofs::lemmas::Bool::Decides::nat_tests), unfolding(blk_addr::specs::FileId::file_of_word))]
fn file_of_node(addr: Addr) -> Option<usize>
    ensures file { result ≡ (if kind_of addr == rankings then Some (file_selector addr) else None) }
    ensures small { IfSome result (λ file. file < file_numbers) }
{
    if addr.kind() != Kind::Rankings {
        return None;
    }
    match addr.file() {
        FileId::Block(file) => Some(usize::from(file)),
        _ => None,
    }
}
