// A SparseWrite of no bytes.
ghost use Rattle.std.specs.Prelude.{◌≡◌, IfOk, IsTrue};
ghost use Rattle.std.specs.Option.{ForSome};
ghost use Rattle.spec_image.specs.Told.{MayWrite};
ghost use Rattle.blk_io.specs.Faults.{IfDamaged, IfDevice};
ghost use Rattle.blk_model.specs.declared.Answer.TheVariants as answer;
ghost use Rattle.blk_disk.specs.Open.{IsOpen};
ghost use Rattle.blk_disk.specs.Tables.{is_node_among};
ghost use Rattle.blk_object.specs.FailedChecks.{IsFailedCheck};
ghost use Rattle.blk_cache.specs.CommandClauses.{DoneBy, StopsBy, UndamagedBy};
ghost use Rattle.blk_cache.specs.SparseTargets.{ForEmptyWrites};

use crate::cache::Cache;
use blk_io::{Fault, Folder};
use blk_lru::touch;
use blk_model::Answer;
use blk_sparse::Target;

impl Cache {
    // Does a SparseWrite of no bytes: the main item of its object is put in front of the LRU list.
    pub(crate) fn use_target<F: Folder>(
        &self,
        folder: &mut F,
        target: &Target,
        moment: u64,
    ) -> Result<Answer, Fault>
        requires stands { IsTrue (is_node_among self.now.files target.now.parent.node) }
        requires is_open { ForSome (F.told folder.old).files (IsOpen self.now.files) }
        ensures does { ForEmptyWrites self.now (F.told folder.old) moment target.now (DoneBy self.now (F.told folder.new) result) }
        ensures stops { ForEmptyWrites self.now (F.told folder.old) moment target.now (StopsBy (F.told folder.new)) }
        ensures wrote { IfOk result (λ given. given ≡ answer.Wrote 0) }
        ensures is_open { ForSome (F.told folder.new).files (IsOpen self.now.files) }
        ensures damaged { IfDamaged result (IsFailedCheck self.now.files (F.told folder.new)) }
        ensures untold { ForEmptyWrites self.now (F.told folder.old) moment target.now (UndamagedBy result) }
        ensures writes { MayWrite F.told F.faults folder.old folder.new (IfDevice result) }
    {
        touch(folder, &self.files, target.parent.node, moment)?;
        Ok(Answer::Wrote(0))
    }
}
