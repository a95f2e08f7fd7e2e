// The reason `Parent`: no kept record is the parent of a part.
ghost use Rattle.std.specs.Prelude.{IfOk};
ghost use Rattle.spec_image.specs.Told.{ReadsOnly};
ghost use Rattle.blk_io.specs.Faults.{IfDamaged, IfDevice};
ghost use Rattle.blk_verdict.specs.Kept.{HaveKeys, IsKeptInOrder};
ghost use Rattle.blk_verdict.specs.Reads.{IsCutRead};
ghost use Rattle.blk_verdict.specs.VerdictClauses.{ChecksPass, LacksParent, SaysOrphan, WhereAgrees, WhereGiven};

use crate::fitting::Sought;
use crate::kept::KeptSoFar;
use crate::loading::Loaded;
use crate::roles::Role;
use blk_disk::BlockFiles;
use blk_io::{Fault, Folder};
use blk_ranges::{KEY_OF_NAME, read_child_name};
use blk_record::super_fast_hash;

impl KeptSoFar {
    // Whether a record is a part, whose key this is, and no kept record is its parent with the part's bit.
    pub(crate) fn is_orphan<F: Folder>(
        &self,
        folder: &mut F,
        files: &BlockFiles,
        loaded: &Loaded,
        key: &[u8],
    ) -> Result<bool, Fault>
        requires order { IsKeptInOrder files.now self.now }
        ensures orphan { IfOk result (λ orphan. WhereGiven (F.told folder.old) files.now self.now loaded.now key.now (SaysOrphan orphan)) }
        ensures reads { ReadsOnly F.told F.faults folder.old folder.new (IfDevice result) }
        ensures short { IfDamaged result (IsCutRead files.now (F.told folder.old)) }
        ensures untold { ChecksPass result (F.told folder.old) files.now (λ image. HaveKeys image self.now.kept.items) }
    {
        match loaded.role {
            Role::Plain => Ok(false),
            Role::Parent(_) => Ok(false),
            Role::Part(_) => self.lacks_parent(folder, files, key),
        }
    }

    // Whether no kept record is the parent of a part with this key, with the part's bit.
    fn lacks_parent<F: Folder>(
        &self,
        folder: &mut F,
        files: &BlockFiles,
        key: &[u8],
    ) -> Result<bool, Fault>
        requires order { IsKeptInOrder files.now self.now }
        ensures orphan { IfOk result (λ orphan. WhereAgrees (F.told folder.old) files.now (LacksParent self.now key.now orphan)) }
        ensures reads { ReadsOnly F.told F.faults folder.old folder.new (IfDevice result) }
        ensures short { IfDamaged result (IsCutRead files.now (F.told folder.old)) }
        ensures untold { ChecksPass result (F.told folder.old) files.now (λ image. HaveKeys image self.now.kept.items) }
    {
        let Some(name) = read_child_name(key) else {
            return Ok(true);
        };
        let behind = &key[KEY_OF_NAME..];
        let parent = &behind[..name.key_len];
        let hash = super_fast_hash(parent);
        let found = self.has(folder, files, hash, Sought::ParentOf(name), parent)?;
        Ok(!found)
    }
}
