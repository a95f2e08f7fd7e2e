// The records that walked nodes name.
ghost use Rattle.std.specs.Prelude.{◌≡◌, ℕ, IfOk, IfSome, IsTrue, MatchOption, None, OnOk, false, slice_get};
ghost use Rattle.spec_image.specs.Image.{Image};
ghost use Rattle.spec_image.specs.Told.{ReadsOnly};
ghost use Rattle.spec_format.specs.Address.{blocks_256, kind_of};
ghost use Rattle.blk_io.specs.Faults.{IfDamaged, IfDevice, UndamagedWhere, OkFor};
ghost use Rattle.blk_disk.specs.Tables.{Agrees, stands_among};
ghost use Rattle.blk_audit.specs.Faults.{IsRecordDamage};
ghost use Rattle.blk_audit.specs.ReadLists as shown;
ghost use Rattle.blk_audit.specs.ReadLists.{AreListsOf, AreNamed, IsMore, record_by};
ghost use Rattle.blk_audit.specs.Records.{IsSaidBy};
ghost use Rattle.blk_audit.specs.Walking.{nodes_walked};
ghost use Rattle.blk_audit.specs.ScanClauses.{FindsWalkedNode};

use crate::list_walk::{Walked, node_named};
use crate::nodes::{Node, Nodes};
use crate::record_files::record_of;
use crate::records::{ReadRecord, first_of_record};
use crate::scanning::Lists;
use blk_addr::{Addr, Claims, Kind, NoMemory};
use blk_disk::BlockFiles;
use blk_io::{Fault, Folder};
use std::alloc::Global;

/// A walked node, with its words: the record that it names, and its dirty flag.
#[derive(Clone, Copy, Debug)]
pub struct WalkedNode {
    /// The address of the node.
    pub addr: Addr,
    /// The word of the record that it names.
    pub contents: u32,
    /// The dirty flag: 0, or the number of the session that made the object dirty.
    pub dirty: u32,
    /// Whether its checksum is 0.
    pub bare: bool,
}

impl Lists {
    /// A walked node, counted from 0.
    pub fn node(&self, i: usize) -> Option<WalkedNode>
        ensures { FindsWalkedNode self.now i result }
    {
        let Some(addr) = self.walked.at(i) else {
            return None;
        };
        let Some(node) = self.nodes.get(addr) else {
            return None;
        };
        Some(WalkedNode {
            addr,
            contents: node.contents,
            dirty: node.dirty,
            bare: node.bare,
        })
    }

    /// The record of a valid address: it was read with the lists, or its words are read by one folder call.
    pub fn record_at<F: Folder>(
        &self,
        folder: &mut F,
        files: &BlockFiles,
        entry: Addr,
    ) -> Result<ReadRecord, Fault>
        requires kind { kind_of entry ≡ blocks_256 }
        requires stands { IsTrue (stands_among files.now entry) }
        ensures said { OkFor result (F.told folder.old) (λ said image. AreListsOf image self.now → IsSaidBy image entry said) }
        ensures reads { ReadsOnly F.told F.faults folder.old folder.new (IfDevice result) }
        ensures damaged { IfDamaged result (IsRecordDamage files.now (F.told folder.new)) }
        ensures untold { UndamagedWhere result (F.told folder.new) (Agrees files.now) }
    {
        record_of(folder, files, &self.records, entry)
    }

    /// Whether the node of a word is walked and names a record.
    pub fn is_listed(&self, entry: Addr, node: u32) -> bool
        ensures { (image : Image) → AreListsOf image self.now → result ≡ shown.is_named_by image node entry }
    {
        match node_named(&self.nodes, node) {
            Some(here) => self.walked.has(here.addr) && here.node.contents == entry.word(),
            None => false,
        }
    }

    /// Whether some walked node names a record with the first block of this one. Where none does, none names this one.
    pub fn is_named(&self, entry: Addr) -> bool
        requires kind { kind_of entry ≡ blocks_256 }
        ensures { (image : Image) → AreListsOf image self.now → result ≡ false → (node : ℕ) → shown.is_named_by image node entry ≡ false }
    {
        // Reading it tells the prover that the word is one of an address.
        let _word = entry.word();
        self.named.has(first_of_record(entry))
    }
}

// The first blocks of the records that the walked nodes name.
pub(crate) fn named_by(alloc: Global, nodes: &Nodes, walked: &Walked) -> Result<Claims, NoMemory>
    ensures { IfOk result (AreNamed nodes.now (nodes_walked walked.now)) }
{
    let mut named = Claims::new(alloc);
    for i in 0..walked.count() {
        add_first(&mut named, contents_of(nodes, walked, i))?;
    }
    Ok(named)
}

// Adds the first block of a record, where there is one.
fn add_first(named: &mut Claims, entry: Option<Addr>) -> Result<(), NoMemory>
    requires kind { IfSome entry (λ addr. kind_of addr ≡ blocks_256) }
    ensures { OnOk result (MatchOption entry (named.new ≡ named.old) (IsMore named.old named.new)) }
{
    let Some(entry) = entry else {
        return Ok(());
    };
    named.add(first_of_record(entry))?;
    Ok(())
}

// The address of a record that one of the walked nodes names.
fn contents_of(nodes: &Nodes, walked: &Walked, i: usize) -> Option<Addr>
    ensures named { result ≡ shown.record_of nodes.now (slice_get (nodes_walked walked.now) i) }
    ensures kind { IfSome result (λ addr. kind_of addr ≡ blocks_256) }
{
    let node = walked.at(i)?;
    record_named(nodes.get(node)?)
}

// The address of the record that a node names.
#[tactic(auto, using(std::proofs::lemmas::Bool::Decides::nat_tests))]
fn record_named(node: Node) -> Option<Addr>
    ensures named { result ≡ record_by node }
    ensures kind { IfSome result (λ addr. kind_of addr ≡ blocks_256) }
{
    let entry = Addr::from_word(node.contents)?;
    if entry.kind() == Kind::B256 {
        Some(entry)
    } else {
        None
    }
}
