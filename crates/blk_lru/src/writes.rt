// Writes into the LRU list.
ghost use Rattle.std.specs.Prelude.{◌≡◌, ◌<◌, ◌≤◌, ◌%◌, [], ◌∷◌, OnOk, map, true};
ghost use Rattle.std.specs.Option.{ForSome};
ghost use Rattle.spec_image.specs.Image.{Index as index};
ghost use Rattle.spec_image.specs.Steps.{word_step};
ghost use Rattle.spec_image.specs.Told.{Applies, AppliesPrefix, MakesPartOf, Rises, MayWrite, MakesSteps};
ghost use Rattle.spec_format.specs.Headers.{header_length, HasWholeIndex};
ghost use Rattle.spec_format.specs.Sealed.{sealed_steps};
ghost use Rattle.spec_folder.specs.View.{list_of};
ghost use Rattle.spec_folder.specs.ListImages.{CanBeMade};
ghost use Rattle.spec_folder.specs.ListSteps.{AreOf, AllWriteWords, steps_of_writes, write_steps};
ghost use Rattle.blk_io.specs.Faults.{IfDamaged, IfDevice, UndamagedWhere};
ghost use Rattle.blk_disk.specs.Tables.{Agrees, is_node_among};
ghost use Rattle.blk_lru.specs.Damages.{IsWrongNode};
ghost use Rattle.blk_lru.specs.Nodes.{IsLinkPlace};
ghost use Rattle.blk_lru.specs.Writes.{meant};
ghost use Rattle.blk_disk.specs.Open.{IsOpen};

use crate::reading::{HEAD, TAIL};
use blk_addr::Addr;
use blk_disk::BlockFiles;
use blk_index::set_word;
use blk_io::{Fault, Folder};
use blk_record::{IndexHead, NodeView};

// The places of the operation in flight and of its node in the index.
pub(crate) const TRANSACTION: u64 = IndexHead::TRANSACTION;

pub(crate) const OPERATION: u64 = IndexHead::OPERATION;

/// A word of the LRU list becomes another one.
#[derive(Clone, Copy, Debug)]
pub enum Write {
    /// The next of a node: the address of the node after it, its own at the end, or 0.
    Next(Addr, u32),
    /// The prev of a node: the address of the node before it, or its own at the head of the list.
    Prev(Addr, u32),
    /// The first node, or 0.
    Head(u32),
    /// The last node, or 0.
    Tail(u32),
    /// The node of the operation in flight, or 0.
    Transaction(u32),
    /// The operation: 1 for an insert, 2 for a removal, 3 for a move.
    Operation(u32),
}

// Makes these writes, whose nodes are valid, one after the other. Each node's checksum is checked before the node is written.
pub(crate) fn perform<F: Folder>(
    folder: &mut F,
    files: &BlockFiles,
    writes: &[Write],
) -> Result<(), Fault>
    requires stand { AreOf (λ n. is_node_among files.now n ≡ true) (map meant writes.now) }
    requires words { AllWriteWords (map meant writes.now) }
    requires is_open { ForSome (F.told folder.old).files (IsOpen files.now) }
    ensures checked { OnOk result (ForSome (F.told folder.old).files (λ image. CanBeMade image (map meant writes.now))) }
    ensures steps { OnOk result (MakesSteps (F.told folder.old) (F.told folder.new) (λ from. steps_of_writes (map meant writes.now) from)) }
    ensures prefix { MakesPartOf (F.told folder.old) (F.told folder.new) (λ from. steps_of_writes (map meant writes.now) from) }
    ensures is_open { ForSome (F.told folder.new).files (IsOpen files.now) }
    ensures damaged { IfDamaged result (IsWrongNode files.now (F.told folder.new)) }
    ensures untold { UndamagedWhere result (F.told folder.old) (λ image. CanBeMade image (map meant writes.now)) }
    ensures later { F.faults folder.old ≤ F.faults folder.new }
    ensures device { IfDevice result (Rises (F.faults folder.old) (F.faults folder.new)) }
{
    for write in writes {
        write_one(folder, files, *write)?;
    }
    Ok(())
}

// Makes a write, by one folder call for a word of the index and four for a link.
#[tactic(auto, unfolding(spec_folder::specs::ListSteps::write_steps))]
fn write_one<F: Folder>(folder: &mut F, files: &BlockFiles, write: Write) -> Result<(), Fault>
    requires stand { AreOf (λ n. is_node_among files.now n ≡ true) (meant write ∷ []) }
    requires is_open { ForSome (F.told folder.old).files (IsOpen files.now) }
    ensures checked { OnOk result (ForSome (F.told folder.old).files (λ image. AreOf (λ n. (list_of image).checks n ≡ true) (meant write ∷ []))) }
    ensures steps { OnOk result (MakesSteps (F.told folder.old) (F.told folder.new) (λ from. write_steps (meant write) from)) }
    ensures prefix { MakesPartOf (F.told folder.old) (F.told folder.new) (λ from. write_steps (meant write) from) }
    ensures damaged { IfDamaged result (IsWrongNode files.now (F.told folder.new)) }
    ensures untold { UndamagedWhere result (F.told folder.old) (λ image. AreOf (λ n. (list_of image).checks n ≡ true) (meant write ∷ [])) }
    ensures later { F.faults folder.old ≤ F.faults folder.new }
    ensures device { IfDevice result (Rises (F.faults folder.old) (F.faults folder.new)) }
{
    match write {
        Write::Next(node, word) => set_link(folder, files, node, NodeView::NEXT, word),
        Write::Prev(node, word) => set_link(folder, files, node, NodeView::PREV, word),
        Write::Head(word) => set_index(folder, HEAD, word),
        Write::Tail(word) => set_index(folder, TAIL, word),
        Write::Transaction(word) => set_index(folder, TRANSACTION, word),
        Write::Operation(word) => set_index(folder, OPERATION, word),
    }
}

// Writes a link of a node, and gives the node its checksum again.
fn set_link<F: Folder>(
    folder: &mut F,
    files: &BlockFiles,
    node: Addr,
    at: u32,
    word: u32,
) -> Result<(), Fault>
    requires place { IsLinkPlace at }
    requires stands { is_node_among files.now node ≡ true }
    requires agrees { ForSome (F.told folder.old).files (Agrees files.now) }
    ensures checked { OnOk result (ForSome (F.told folder.old).files (λ image. (list_of image).checks node ≡ true)) }
    ensures steps { OnOk result (MakesSteps (F.told folder.old) (F.told folder.new) (λ from. sealed_steps from node ((at, word) ∷ []))) }
    ensures prefix { MakesPartOf (F.told folder.old) (F.told folder.new) (λ from. sealed_steps from node ((at, word) ∷ [])) }
    ensures damaged { IfDamaged result (IsWrongNode files.now (F.told folder.new)) }
    ensures untold { UndamagedWhere result (F.told folder.old) (λ image. (list_of image).checks node ≡ true) }
    ensures later { F.faults folder.old ≤ F.faults folder.new }
    ensures device { IfDevice result (Rises (F.faults folder.old) (F.faults folder.new)) }
{
    files.update_sealed(folder, node, &[(at, word)])
}

// Writes a word of the index.
fn set_index<F: Folder>(folder: &mut F, at: u64, word: u32) -> Result<(), Fault>
    requires aligned { at % 4 ≡ 0 }
    requires inside { at < header_length }
    requires complete { ForSome (F.told folder.old).files HasWholeIndex }
    ensures steps { OnOk result (Applies (F.told folder.old) (F.told folder.new) (word_step index at word)) }
    ensures prefix { AppliesPrefix (F.told folder.old) (F.told folder.new) (word_step index at word) }
    ensures damaged { IfDamaged result (λ _. ⊥) }
    ensures writes { MayWrite F.told F.faults folder.old folder.new (IfDevice result) }
{
    set_word(folder, at, word)?;
    Ok(())
}

impl Default for Write {
    // The write in the unused places of a plan.
    fn default() -> Write {
        Write::Operation(0)
    }
}
