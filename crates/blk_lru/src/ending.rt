// The end of the LRU list.
ghost use Rattle.std.specs.Prelude.{◌≡◌, ◌≤◌, IfOk, IfSome, None, OnOk, map, true};
ghost use Rattle.std.specs.Option.{ForSome};
ghost use Rattle.spec_image.specs.Told.{MakesPartOf, Rises, ReadsOnly, LeavesFrom, MakesSteps};
ghost use Rattle.spec_folder.specs.ListPlans.{ending_writes, front_of};
ghost use Rattle.spec_folder.specs.ListSteps.{AllWriteWords, AreOf, Seals, steps_of_writes};
ghost use Rattle.spec_folder.specs.ListImages.{CanBeMade};
ghost use Rattle.spec_folder.specs.View.{list_of};
ghost use Rattle.blk_io.specs.Faults.{IfDamaged, IfDevice, UndamagedWhere, OkFor};
ghost use Rattle.blk_disk.specs.Open.{IsOpen};
ghost use Rattle.blk_disk.specs.Tables.{Agrees, is_node_among};
ghost use Rattle.blk_lru.specs.Damages.{IsEndDamage, IsEndReadDamage, IsFrontDamage};
ghost use Rattle.blk_lru.specs.Writes.{meant};

use crate::nodes::link_word;
use crate::plans::{Plan, end_plan};
use crate::reading::{HEAD, TAIL};
use crate::writes::perform;
use blk_addr::Addr;
use blk_disk::BlockFiles;
use blk_index::word;
use blk_io::{Fault, Folder};
use blk_record::NodeView;

/// Makes a node the last of the list: it gets itself as its next, and the tail names it. Or, for `None`, makes the
/// list empty: head and tail become 0.
///
/// A word is written only where it differs. No operation is in flight meanwhile, and the list need not be whole. A wrong checksum of a node that is to be
/// written is corruption, and so are too few bytes. This takes at most 7 folder calls, and 2 where nothing differs.
pub fn end_at<F: Folder>(
    folder: &mut F,
    files: &BlockFiles,
    last: Option<Addr>,
) -> Result<(), Fault>
    requires stands { IfSome last (λ node. is_node_among files.now node ≡ true) }
    requires is_open { ForSome (F.told folder.old).files (IsOpen files.now) }
    ensures checked { OnOk result (ForSome (F.told folder.old).files (λ from. CanBeMade from (ending_writes (list_of from) last))) }
    ensures sealed { OnOk result (LeavesFrom (F.told folder.old) (F.told folder.new) (λ from. Seals from (ending_writes (list_of from) last))) }
    ensures steps { OnOk result (MakesSteps (F.told folder.old) (F.told folder.new) (λ from. steps_of_writes (ending_writes (list_of from) last) from)) }
    ensures prefix { MakesPartOf (F.told folder.old) (F.told folder.new) (λ from. steps_of_writes (ending_writes (list_of from) last) from) }
    ensures is_open { ForSome (F.told folder.new).files (IsOpen files.now) }

    // An observable folder reports corruption only where the node is to be written and has a wrong checksum.
    ensures damaged { IfDamaged result (IsEndDamage last files.now (F.told folder.old) (F.told folder.new)) }
    ensures untold { UndamagedWhere result (F.told folder.old) (λ from. CanBeMade from (ending_writes (list_of from) last)) }

    ensures later { F.faults folder.old ≤ F.faults folder.new }
    ensures device { IfDevice result (Rises (F.faults folder.old) (F.faults folder.new)) }
{
    let plan = ending_of(folder, files, last)?;
    perform(folder, files, &plan)
}

// What makes a node the last of the list, or the list empty, by two folder calls.
fn ending_of<F: Folder>(
    folder: &mut F,
    files: &BlockFiles,
    last: Option<Addr>,
) -> Result<Plan, Fault>
    requires stands { IfSome last (λ node. is_node_among files.now node ≡ true) }
    ensures plan { OkFor result (F.told folder.old) (λ plan image. Agrees files.now image → map meant plan.items ≡ ending_writes (list_of image) last) }
    ensures stand { IfOk result (λ plan. AreOf (λ n. is_node_among files.now n ≡ true) (map meant plan.items)) }
    ensures words { IfOk result (λ plan. AllWriteWords (map meant plan.items)) }
    ensures reads { ReadsOnly F.told F.faults folder.old folder.new (IfDevice result) }
    ensures damaged { IfDamaged result (IsEndReadDamage last (F.told folder.old)) }
    ensures untold { UndamagedWhere result (F.told folder.old) (IsOpen files.now) }
{
    let front = front_word(folder, files, last)?;
    let tail = word(folder, TAIL)?;
    Ok(end_plan(&last, front, tail))
}

// The next of a node, or the head of the list where there is none.
fn front_word<F: Folder>(
    folder: &mut F,
    files: &BlockFiles,
    last: Option<Addr>,
) -> Result<u32, Fault>
    requires stands { IfSome last (λ node. is_node_among files.now node ≡ true) }
    ensures word { OkFor result (F.told folder.old) (λ front image. Agrees files.now image → front ≡ front_of (list_of image) last) }
    ensures reads { ReadsOnly F.told F.faults folder.old folder.new (IfDevice result) }
    ensures damaged { IfDamaged result (IsFrontDamage last (F.told folder.old)) }
    ensures untold { UndamagedWhere result (F.told folder.old) (IsOpen files.now) }
{
    match last {
        Some(node) => link_word(folder, files, node, NodeView::NEXT),
        None => word(folder, HEAD),
    }
}
