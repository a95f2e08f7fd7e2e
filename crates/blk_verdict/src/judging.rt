// The verdict on a node, against the records that are kept so far.
ghost use Rattle.std.specs.Prelude.{◌≡◌, ◌<◌, IfOk, OnOk, length};
ghost use Rattle.spec_image.specs.Told.{ReadsOnly};
ghost use Rattle.spec_folder.specs.Loads as shown;
ghost use Rattle.blk_entry.specs.Keys.{most_key};
ghost use Rattle.blk_audit.specs.Faults.{IfScanDamaged, IfScanDevice};
ghost use Rattle.blk_verdict.specs.Kept.{HaveKeys, IsKeptInOrder, KeepsAtMostOne};
ghost use Rattle.blk_verdict.specs.Reads.{IsCutRead};
ghost use Rattle.blk_verdict.specs.VerdictClauses.{AnswersAt, KeepsAsJudged, KeepsKeys, ScanPassesAt, WhereNode};

use crate::kept::KeptSoFar;
use crate::loading::Verdict;
use crate::reason::Reason;
use crate::walked_nodes::load_walked;
use blk_audit::{Lists, ScanFault, WalkedNode};
use blk_disk::BlockFiles;
use blk_io::Folder;

// Judges a walked node by the reasons from `Contents` to `Parent` in their order, and keeps its record at the end of those that are kept where none of them
// holds. Of a part the key is read into a prefix of `name`.
//
// The folder calls are those of `load_walked` and, where it finds no reason, those of `KeptSoFar::admit`.
pub(crate) fn judge_walked<F: Folder>(
    folder: &mut F,
    files: &BlockFiles,
    lists: &Lists,
    kept: &mut KeptSoFar,
    node: &WalkedNode,
    name: &mut [u8],
) -> Result<Option<Reason>, ScanFault>
    requires order { IsKeptInOrder files.now kept.old }
    requires room { length name.old ≡ most_key }
    ensures answer { IfOk result (λ reason. WhereNode (F.told folder.old) files.now lists.now node.now (AnswersAt kept.old node.now reason)) }
    ensures shown { OnOk result (WhereNode (F.told folder.old) files.now lists.now node.now (KeepsAsJudged kept.old kept.new node.now)) }
    ensures keys { OnOk result (WhereNode (F.told folder.old) files.now lists.now node.now (KeepsKeys kept.old kept.new)) }
    ensures kept { IfOk result (KeepsAtMostOne kept.old.kept.items kept.new.kept.items) }
    ensures order { OnOk result (IsKeptInOrder files.now kept.new) }
    ensures reads { ReadsOnly F.told F.faults folder.old folder.new (IfScanDevice result) }
    ensures short { IfScanDamaged result (IsCutRead files.now (F.told folder.old)) }
    ensures untold { ScanPassesAt result (F.told folder.old) files.now lists.now node.now (λ image. HaveKeys image kept.old.kept.items) }
{
    match load_walked(folder, files, lists, node, name)? {
        Verdict::Loaded(loaded) => {
            let key = &name[..loaded.key_len as usize];
            kept.admit(folder, files, loaded, key)
        }
        Verdict::Dropped(reason) => Ok(Some(reason)),
    }
}
