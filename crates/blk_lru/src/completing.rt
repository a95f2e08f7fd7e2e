// The redo of the operation in flight.
ghost use Rattle.std.specs.Prelude.{◌≡◌, ◌≤◌, None, IfOk, IfSome, OnOk, map, true};
ghost use Rattle.std.specs.Option.{ForSome};
ghost use Rattle.spec_image.specs.Told.{MakesPartOf, Passes, Rises, ReadsOnly, LeavesFrom, MakesSteps};
ghost use Rattle.spec_folder.specs.ListPlans.{completion_writes};
ghost use Rattle.spec_folder.specs.View.{list_of};
ghost use Rattle.spec_folder.specs.ListSteps.{AreOf, AllWriteWords, Seals};
ghost use Rattle.spec_folder.specs.ListImages.{IsCompleted, completion_steps};
ghost use Rattle.blk_io.specs.Faults.{IfDamaged, IfDevice, OpaqueIfDamaged, UndamagedWhere, OkFor};
ghost use Rattle.blk_disk.specs.Tables.{Agrees, is_node_among};
ghost use Rattle.blk_lru.specs.Damages.{IsCompletingDamage, IsPendingDamage, IsShortNode};
ghost use Rattle.blk_lru.specs.Moments.{IsMidCompletion};
ghost use Rattle.blk_lru.specs.Nodes.{AreLinksOf, list_among};
ghost use Rattle.blk_lru.specs.Flights.{HasFlight, HasHead, HasNeighbours, HasNodeInFlight, HasOperands};
ghost use Rattle.blk_lru.specs.Writes.{meant};
ghost use Rattle.blk_lru.specs.Completing.{AreNodes, FindsInFlight, FindsHead, FoundNeighboursStand, FoundHeadStands, FindsNeighboursInFlight};
ghost use Rattle.blk_disk.specs.Open.{IsOpen};

use crate::nodes::{Links, checked};
use crate::plans::{INSERT, MOVE, Neighbours, Operation, Plan, REMOVE, ending, pending_of};
use crate::reading::HEAD;
use crate::writes::{OPERATION, TRANSACTION, perform};
use arrayvec::ArrayVec;
use blk_addr::Addr;
use blk_disk::BlockFiles;
use blk_index::word;
use blk_io::{Fault, Folder};

// An operation in flight that may be redone, and its node.
#[derive(Clone, Copy)]
pub(crate) struct InFlight {
    node: Addr,
    operation: Operation,
}

// What an operation in flight uses: it may be used, or a word of it names no node or one that doesn't pass its check.
#[derive(Clone, Copy)]
pub(crate) enum Usable<T> {
    Counts(T),
    Fails,
}

/// Redoes the operation in flight, if there is one, and ends it.
///
/// An operation counts where its code is that of an insert, a removal or a move, and its node and the nodes that it uses are there with checksums that match
/// or are absent: the first one for an insert and a move, and those beside the node for a removal and a move. One that doesn't count is given up: only
/// the transaction word becomes 0. Where there is none in flight nothing is written. The list need not be whole. This takes at most 34 folder calls.
pub fn complete<F: Folder>(f: &mut F, files: &BlockFiles) -> Result<(), Fault>
    requires is_open { ForSome (F.told f.old).files (IsOpen files.now) }
    ensures sealed { OnOk result (LeavesFrom (F.told f.old) (F.told f.new) (λ from. Seals from (completion_writes (list_of from)))) }
    ensures done { OnOk result (LeavesFrom (F.told f.old) (F.told f.new) IsCompleted) }
    ensures steps { OnOk result (MakesSteps (F.told f.old) (F.told f.new) (λ from. completion_steps from)) }
    ensures prefix { MakesPartOf (F.told f.old) (F.told f.new) (λ from. completion_steps from) }

    // At each word the redo gives what it gave at the entry, so it may crash and be begun again; nothing but the list changes.
    ensures stops { ForSome (F.told f.old).files (λ from. Passes (F.told f.old) (F.told f.new) (IsMidCompletion files.now from)) }

    ensures is_open { ForSome (F.told f.new).files (IsOpen files.now) }

    // An observable folder never reports corruption.
    ensures damaged { IfDamaged result (IsCompletingDamage files.now (F.told f.new)) }
    ensures untold { OpaqueIfDamaged result (F.told f.old) }

    ensures later { F.faults f.old ≤ F.faults f.new }
    ensures device { IfDevice result (Rises (F.faults f.old) (F.faults f.new)) }
{
    let plan = pending(f, files)?;
    perform(f, files, &plan)
}

/// What the redo would write, in order: what is left of the operation in flight, or its end alone where it doesn't count.
///
/// It is nothing where no operation is in flight. Nothing is written, and at most 7 folder calls are made.
pub fn pending<F: Folder>(folder: &mut F, files: &BlockFiles) -> Result<Plan, Fault>
    ensures words { IfOk result (λ plan. AllWriteWords (map meant plan.items)) }
    ensures plan { OkFor result (F.told folder.old) (λ plan image. Agrees files.now image → map meant plan.items ≡ completion_writes (list_of image)) }
    ensures stand { IfOk result (λ plan. AreOf (λ n. is_node_among files.now n ≡ true) (map meant plan.items)) }
    ensures checked { OnOk result (ForSome (F.told folder.old).files (HasFlight files.now)) }
    ensures reads { ReadsOnly F.told F.faults folder.old folder.new (IfDevice result) }

    // Too few bytes, which an observable folder gives only where its index is too short or the block files don't agree with it.
    ensures damaged { IfDamaged result (IsPendingDamage files.now (F.told folder.new)) }
    ensures untold { UndamagedWhere result (F.told folder.old) (IsOpen files.now) }
{
    let transaction = word(folder, TRANSACTION)?;
    if transaction == 0 {
        return Ok(ArrayVec::new());
    }
    let Some(found) = in_flight(folder, files, transaction)? else {
        return Ok(ending());
    };
    Ok(pending_of(found.node, &found.operation))
}

// The operation in flight, where this is the transaction word and the operation may be redone.
fn in_flight<F: Folder>(
    folder: &mut F,
    files: &BlockFiles,
    transaction: u32,
) -> Result<Option<InFlight>, Fault>
    requires transaction { ForSome (F.told folder.old).files (λ image. (list_among files.now image).transaction ≡ transaction) }
    ensures found { OkFor result (F.told folder.old) (λ found image. FindsInFlight (list_among files.now image) found) }
    ensures stand { IfOk result (λ found. IfSome found (AreNodes files.now)) }
    ensures checked { OnOk result (ForSome (F.told folder.old).files (HasNodeInFlight files.now)) }
    ensures reads { ReadsOnly F.told F.faults folder.old folder.new (IfDevice result) }
    ensures damaged { IfDamaged result (IsPendingDamage files.now (F.told folder.new)) }
    ensures untold { UndamagedWhere result (F.told folder.old) (IsOpen files.now) }
{
    let Some(links) = checked(folder, files, transaction)? else {
        return Ok(None);
    };
    let code = word(folder, OPERATION)?;
    counting(folder, files, code, &links)
}

// The operation in flight of a node with these links, where this is the operation word and the operation may be redone.
fn counting<F: Folder>(
    folder: &mut F,
    files: &BlockFiles,
    code: u32,
    links: &Links,
) -> Result<Option<InFlight>, Fault>
    requires stands { is_node_among files.now links.now.node ≡ true }
    requires links { ForSome (F.told folder.old).files (λ image. AreLinksOf (list_among files.now image) (list_among files.now image).transaction links.now) }
    requires operation { ForSome (F.told folder.old).files (λ image. (list_among files.now image).operation ≡ code) }
    ensures found { OkFor result (F.told folder.old) (λ found image. FindsInFlight (list_among files.now image) found) }
    ensures stand { IfOk result (λ found. IfSome found (AreNodes files.now)) }
    ensures checked { OnOk result (ForSome (F.told folder.old).files (HasOperands files.now)) }
    ensures reads { ReadsOnly F.told F.faults folder.old folder.new (IfDevice result) }
    ensures damaged { IfDamaged result (IsPendingDamage files.now (F.told folder.new)) }
    ensures untold { UndamagedWhere result (F.told folder.old) (IsOpen files.now) }
{
    let node = links.node;
    match code {
        INSERT => {
            let Usable::Counts(head) = usable_head(folder, files)? else {
                return Ok(None);
            };
            let operation = Operation::Insert { head };
            Ok(Some(InFlight { node, operation }))
        }
        REMOVE => {
            let Usable::Counts(neighbours) = usable_links(folder, files, links)? else {
                return Ok(None);
            };
            let operation = Operation::Remove { neighbours };
            Ok(Some(InFlight { node, operation }))
        }
        MOVE => {
            let Usable::Counts(head) = usable_head(folder, files)? else {
                return Ok(None);
            };
            let Usable::Counts(neighbours) = usable_links(folder, files, links)? else {
                return Ok(None);
            };
            let operation = Operation::Move { neighbours, head };
            Ok(Some(InFlight { node, operation }))
        }
        _ => Ok(None),
    }
}

// The head of the list or none, where its word is 0 or names a node that passes its check.
fn usable_head<F: Folder>(folder: &mut F, files: &BlockFiles) -> Result<Usable<Option<Addr>>, Fault>
    ensures found { OkFor result (F.told folder.old) (λ found image. FindsHead (list_among files.now image) found) }
    ensures stand { IfOk result (FoundHeadStands files.now) }
    ensures checked { OnOk result (ForSome (F.told folder.old).files (HasHead files.now)) }
    ensures reads { ReadsOnly F.told F.faults folder.old folder.new (IfDevice result) }
    ensures damaged { IfDamaged result (IsPendingDamage files.now (F.told folder.new)) }
    ensures untold { UndamagedWhere result (F.told folder.old) (IsOpen files.now) }
{
    let head = word(folder, HEAD)?;
    if head == 0 {
        return Ok(Usable::Counts(None));
    }
    let Some(links) = checked(folder, files, head)? else {
        return Ok(Usable::Fails);
    };
    Ok(Usable::Counts(Some(links.node)))
}

// The neighbours of a node with these links or none, where its next is 0 or both links name nodes that pass their check.
fn usable_links<F: Folder>(
    folder: &mut F,
    files: &BlockFiles,
    links: &Links,
) -> Result<Usable<Option<Neighbours>>, Fault>
    requires stands { is_node_among files.now links.now.node ≡ true }
    requires links { ForSome (F.told folder.old).files (λ image. AreLinksOf (list_among files.now image) (list_among files.now image).transaction links.now) }
    ensures found { OkFor result (F.told folder.old) (FindsNeighboursInFlight files.now) }
    ensures stand { IfOk result (FoundNeighboursStand files.now) }
    ensures checked { OnOk result (ForSome (F.told folder.old).files (λ image. HasNeighbours files.now image (list_among files.now image).transaction)) }
    ensures reads { ReadsOnly F.told F.faults folder.old folder.new (IfDevice result) }
    ensures damaged { IfDamaged result (IsShortNode files.now (F.told folder.new)) }
    ensures untold { UndamagedWhere result (F.told folder.old) (Agrees files.now) }
{
    if links.next == 0 {
        return Ok(Usable::Counts(None));
    }
    let Some(next) = checked(folder, files, links.next)? else {
        return Ok(Usable::Fails);
    };
    let Some(prev) = checked(folder, files, links.prev)? else {
        return Ok(Usable::Fails);
    };
    let (next, prev) = (next.node, prev.node);
    Ok(Usable::Counts(Some(Neighbours { next, prev })))
}
