// Changes of the LRU list, each an operation in flight until its last word.
ghost use Rattle.std.specs.Prelude.{◌≡◌, ◌≢◌, ◌++◌, ◌∷◌, ◌≤◌, IfOk, IfSome, IsTrue, OnOk, Some, true};
ghost use Rattle.std.specs.Option.{ForSome};
ghost use Rattle.spec_image.specs.Told.{MakesPartOf, Rises, ReadsOnly, LeavesFrom, LeavesWhere, StopsWhere, MakesSteps};
ghost use Rattle.spec_format.specs.Sealed.{sealed_steps};
ghost use Rattle.spec_folder.specs.Completion.{insert, move, remove as removal};
ghost use Rattle.spec_folder.specs.ListPlans.{touch_writes, writes_of};
ghost use Rattle.spec_folder.specs.View.{list_of};
ghost use Rattle.spec_folder.specs.ListSteps.{AreTimes, Seals, steps_of_writes, times_of};
ghost use Rattle.spec_folder.specs.ListImages.{CanBeMade, HasListAtRest, operation_steps, steps_of_touch, walked};
ghost use Rattle.blk_io.specs.Faults.{IfDamaged, IfDevice, UndamagedWhere, OkFor};
ghost use Rattle.blk_disk.specs.Tables.{Agrees, is_node_among};
ghost use Rattle.blk_lru.specs.Damages.{IsInsertDamage, IsNeighbourDamage, IsWrongNode, IsRemovalDamage, IsTouchDamage};
ghost use Rattle.blk_lru.specs.Lists.{CanBeTouched, HasGoodLinks, IsListed};
ghost use Rattle.blk_lru.specs.Moments.{IsMidInsert, IsMidRemove, IsMidAccess};
ghost use Rattle.blk_lru.specs.Plans.{AreBeside, StandBeside, word_or_zero};
ghost use Rattle.blk_lru.specs.ListClauses.{MayGoInFront, LeavesListed, StopsListed, SealsAccess};
ghost use Rattle.blk_disk.specs.Open.{IsOpen};

use crate::nodes::link;
use crate::plans::{Neighbours, Operation, plan_of};
use crate::reading::first;
use crate::writes::perform;
use blk_addr::Addr;
use blk_disk::BlockFiles;
use blk_io::{Fault, Folder};
use blk_record::{NodeView, WORD_VALUES};

/// Puts a node at the head of the list. It is not in the list, and fewer than 131072 nodes are.
///
/// The operation word and the transaction word are written, then the node's links, the link of the node that was first, or the last node where there was none,
/// and the first node; in the end the transaction word becomes 0. The checksum of a node that is written is 0 first and the hash again in the end. A head that
/// is neither 0 nor the address of a node that is there is corruption, and so is a wrong checksum of a node that is to be written. This takes at most 17 folder
/// calls.
pub fn insert_front<F: Folder>(f: &mut F, files: &BlockFiles, node: Addr) -> Result<(), Fault>
    requires stands { IsTrue (is_node_among files.now node) }
    requires is_open { ForSome (F.told f.old).files (IsOpen files.now) }

    // Where the call succeeds, the checksum of each node that was written matched or was absent.
    ensures checked { OnOk result (ForSome (F.told f.old).files (λ from. CanBeMade from (writes_of insert node (list_of from)))) }
    ensures inserted { OnOk result (LeavesWhere (F.told f.old) (F.told f.new) (MayGoInFront node) (λ from. HasListAtRest (node ∷ walked from))) }
    ensures sealed { OnOk result (LeavesFrom (F.told f.old) (F.told f.new) (λ from. Seals from (writes_of insert node (list_of from)))) }
    ensures steps { OnOk result (MakesSteps (F.told f.old) (F.told f.new) (λ from. operation_steps insert node from)) }
    ensures prefix { MakesPartOf (F.told f.old) (F.told f.new) (λ from. operation_steps insert node from) }

    // At each word the redo gives the old list, or from the transaction word on the new one; nothing but the list changes.
    ensures stops { StopsWhere (F.told f.old) (F.told f.new) (MayGoInFront node) (IsMidInsert files.now node) }

    ensures is_open { ForSome (F.told f.new).files (IsOpen files.now) }

    // An observable folder reports corruption only where the node can't be inserted.
    ensures damaged { IfDamaged result (IsInsertDamage files.now (F.told f.old) (F.told f.new)) }
    ensures untold { UndamagedWhere result (F.told f.old) (MayGoInFront node) }

    ensures later { F.faults f.old ≤ F.faults f.new }
    ensures device { IfDevice result (Rises (F.faults f.old) (F.faults f.new)) }
{
    let head = first(f, files)?;
    let plan = plan_of(node, &Operation::Insert { head });
    perform(f, files, &plan)
}

/// Takes a node out of the list.
///
/// The operation word and the transaction word are written, then the links of the nodes beside it, or the first or the last node, and then its own next
/// becomes 0 and so does the transaction word. The checksum of a node that is written is 0 first and the hash again in the end. A link of the node that isn't
/// the address of a node that is there is corruption, and so is a wrong checksum of a node that is to be written. This takes at most 17 folder calls.
pub fn remove<F: Folder>(f: &mut F, files: &BlockFiles, node: Addr) -> Result<(), Fault>
    requires stands { IsTrue (is_node_among files.now node) }
    requires is_open { ForSome (F.told f.old).files (IsOpen files.now) }

    // Where the call succeeds, the checksums of the node and of both nodes that its links name matched or were absent.
    ensures checked { OnOk result (ForSome (F.told f.old).files (λ from. HasGoodLinks (list_of from) node)) }
    ensures removed { OnOk result (LeavesListed node (F.told f.old) (F.told f.new) (λ prefix suffix. prefix ++ suffix)) }
    ensures sealed { OnOk result (LeavesFrom (F.told f.old) (F.told f.new) (λ from. Seals from (writes_of removal node (list_of from)))) }
    ensures steps { OnOk result (MakesSteps (F.told f.old) (F.told f.new) (λ from. operation_steps removal node from)) }
    ensures prefix { MakesPartOf (F.told f.old) (F.told f.new) (λ from. operation_steps removal node from) }

    // At each word the redo gives the old list, or from the transaction word on the new one; nothing but the list changes.
    ensures stops { StopsListed node (F.told f.old) (F.told f.new) (IsMidRemove files.now node) }

    ensures is_open { ForSome (F.told f.new).files (IsOpen files.now) }

    // An observable folder reports corruption only where the node isn't listed.
    ensures damaged { IfDamaged result (IsRemovalDamage node files.now (F.told f.old) (F.told f.new)) }
    ensures untold { UndamagedWhere result (F.told f.old) (IsListed node) }

    ensures later { F.faults f.old ≤ F.faults f.new }
    ensures device { IfDevice result (Rises (F.faults f.old) (F.faults f.new)) }
{
    let neighbours = neighbours(f, files, node)?;
    let neighbours = Some(neighbours);
    let plan = plan_of(node, &Operation::Remove { neighbours });
    perform(f, files, &plan)
}

/// Moves a listed node to the head of the list, and sets its two times to a moment.
///
/// The operation word and the transaction word are written, the node is taken out, the operation word becomes that of an insert, and the node is put at the
/// head; then the transaction word becomes 0. Where the node is the first one already no operation is started. In the end the times are written. Failed checks
/// are those of an insert and a removal. This takes at most 36 folder calls.
pub fn touch<F: Folder>(f: &mut F, files: &BlockFiles, node: Addr, moment: u64) -> Result<(), Fault>
    requires stands { IsTrue (is_node_among files.now node) }
    requires is_open { ForSome (F.told f.old).files (IsOpen files.now) }

    // Where the call succeeds, each node that was written had a right or absent checksum, and so had both neighbours of a node that wasn't the first.
    ensures checked { OnOk result (ForSome (F.told f.old).files (λ from. CanBeTouched from node)) }
    ensures touched { OnOk result (LeavesListed node (F.told f.old) (F.told f.new) (λ prefix suffix. node ∷ prefix ++ suffix)) }
    ensures times { OnOk result (LeavesFrom (F.told f.old) (F.told f.new) (λ _. AreTimes node moment)) }
    ensures sealed { OnOk result (LeavesFrom (F.told f.old) (F.told f.new) (SealsAccess node)) }
    ensures steps { OnOk result (MakesSteps (F.told f.old) (F.told f.new) (λ from. steps_of_touch node moment from)) }
    ensures prefix { MakesPartOf (F.told f.old) (F.told f.new) (λ from. steps_of_touch node moment from) }

    // At each word the redo gives the old list, or from the transaction word on the new one; nothing but the list and the times changes.
    ensures stops { StopsListed node (F.told f.old) (F.told f.new) (IsMidAccess files.now node) }

    ensures is_open { ForSome (F.told f.new).files (IsOpen files.now) }

    // An observable folder reports corruption only where the node isn't listed.
    ensures damaged { IfDamaged result (IsTouchDamage node files.now (F.told f.old) (F.told f.new)) }
    ensures untold { UndamagedWhere result (F.told f.old) (IsListed node) }

    ensures later { F.faults f.old ≤ F.faults f.new }
    ensures device { IfDevice result (Rises (F.faults f.old) (F.faults f.new)) }
{
    move_front(f, files, node)?;
    set_times(f, files, node, moment)
}

// Sets the two times of a node to a moment.
fn set_times<F: Folder>(
    folder: &mut F,
    files: &BlockFiles,
    node: Addr,
    moment: u64,
) -> Result<(), Fault>
    requires stands { is_node_among files.now node ≡ true }
    requires is_open { ForSome (F.told folder.old).files (IsOpen files.now) }
    ensures checked { OnOk result (ForSome (F.told folder.old).files (λ image. (list_of image).checks node ≡ true)) }
    ensures steps { OnOk result (MakesSteps (F.told folder.old) (F.told folder.new) (λ from. sealed_steps from node (times_of moment))) }
    ensures prefix { MakesPartOf (F.told folder.old) (F.told folder.new) (λ from. sealed_steps from node (times_of moment)) }
    ensures is_open { ForSome (F.told folder.new).files (IsOpen files.now) }
    ensures damaged { IfDamaged result (IsWrongNode files.now (F.told folder.new)) }
    ensures untold { UndamagedWhere result (F.told folder.old) (λ image. (list_of image).checks node ≡ true) }
    ensures later { F.faults folder.old ≤ F.faults folder.new }
    ensures device { IfDevice result (Rises (F.faults folder.old) (F.faults folder.new)) }
{
    let low = (moment % WORD_VALUES) as u32;
    let high = (moment / WORD_VALUES) as u32;
    let times = [
        (NodeView::LAST_USED, low),
        (NodeView::LAST_USED + 4, high),
        (NodeView::LAST_MODIFIED, low),
        (NodeView::LAST_MODIFIED + 4, high),
    ];
    files.update_sealed(folder, node, &times)
}

// Moves a listed node to the head of the list, where it isn't there already.
fn move_front<F: Folder>(folder: &mut F, files: &BlockFiles, node: Addr) -> Result<(), Fault>
    requires stands { IsTrue (is_node_among files.now node) }
    requires is_open { ForSome (F.told folder.old).files (IsOpen files.now) }
    ensures checked { OnOk result (ForSome (F.told folder.old).files (λ from. CanBeMade from (touch_writes node (list_of from)))) }
    ensures linked { OnOk result (ForSome (F.told folder.old).files (λ from. (list_of from).head ≢ node → HasGoodLinks (list_of from) node)) }
    ensures steps { OnOk result (MakesSteps (F.told folder.old) (F.told folder.new) (λ from. steps_of_writes (touch_writes node (list_of from)) from)) }
    ensures prefix { MakesPartOf (F.told folder.old) (F.told folder.new) (λ from. steps_of_writes (touch_writes node (list_of from)) from) }
    ensures is_open { ForSome (F.told folder.new).files (IsOpen files.now) }
    ensures damaged { IfDamaged result (IsTouchDamage node files.now (F.told folder.old) (F.told folder.new)) }
    ensures untold { UndamagedWhere result (F.told folder.old) (IsListed node) }
    ensures later { F.faults folder.old ≤ F.faults folder.new }
    ensures device { IfDevice result (Rises (F.faults folder.old) (F.faults folder.new)) }
{
    let head = first(folder, files)?;
    if head == Some(node) {
        return Ok(());
    }
    move_behind(folder, files, node, head)
}

// Moves a listed node to the head of the list, where another node is the first one.
fn move_behind<F: Folder>(
    folder: &mut F,
    files: &BlockFiles,
    node: Addr,
    head: Option<Addr>,
) -> Result<(), Fault>
    requires stands { IsTrue (is_node_among files.now node) }
    requires first { IfSome head (λ n. IsTrue (is_node_among files.now n)) }
    requires is_open { ForSome (F.told folder.old).files (IsOpen files.now) }
    requires head { ForSome (F.told folder.old).files (λ image. word_or_zero head ≡ (list_of image).head) }
    ensures checked { OnOk result (ForSome (F.told folder.old).files (λ from. CanBeMade from (writes_of move node (list_of from)))) }
    ensures linked { OnOk result (ForSome (F.told folder.old).files (λ from. HasGoodLinks (list_of from) node)) }
    ensures steps { OnOk result (MakesSteps (F.told folder.old) (F.told folder.new) (λ from. operation_steps move node from)) }
    ensures prefix { MakesPartOf (F.told folder.old) (F.told folder.new) (λ from. operation_steps move node from) }
    ensures is_open { ForSome (F.told folder.new).files (IsOpen files.now) }
    ensures damaged { IfDamaged result (IsRemovalDamage node files.now (F.told folder.old) (F.told folder.new)) }
    ensures untold { UndamagedWhere result (F.told folder.old) (IsListed node) }
    ensures later { F.faults folder.old ≤ F.faults folder.new }
    ensures device { IfDevice result (Rises (F.faults folder.old) (F.faults folder.new)) }
{
    let neighbours = neighbours(folder, files, node)?;
    let neighbours = Some(neighbours);
    let plan = plan_of(node, &Operation::Move { neighbours, head });
    perform(folder, files, &plan)
}

// The nodes that the links of one name, by two folder calls.
fn neighbours<F: Folder>(
    folder: &mut F,
    files: &BlockFiles,
    node: Addr,
) -> Result<Neighbours, Fault>
    requires stands { IsTrue (is_node_among files.now node) }
    requires agrees { ForSome (F.told folder.old).files (Agrees files.now) }
    ensures words { OkFor result (F.told folder.old) (λ found image. AreBeside ((list_of image).next node) ((list_of image).prev node) (Some found)) }
    ensures stand { IfOk result (StandBeside files.now) }
    ensures reads { ReadsOnly F.told F.faults folder.old folder.new (IfDevice result) }
    ensures damaged { IfDamaged result (IsNeighbourDamage node files.now (F.told folder.old) (F.told folder.new)) }
    ensures untold { UndamagedWhere result (F.told folder.old) (IsListed node) }
{
    let next = link(folder, files, node, NodeView::NEXT)?;
    let prev = link(folder, files, node, NodeView::PREV)?;
    Ok(Neighbours { next, prev })
}
