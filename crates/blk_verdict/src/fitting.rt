// What is sought among the kept records, and whether one of them is that.
ghost use Rattle.std.specs.Prelude.{◌≡◌, IfOk, None, if◌then◌else◌, true};
ghost use Rattle.std.specs.Int.{cast_unsigned, w64};
ghost use Rattle.std.specs.Option.{ForSome};
ghost use Rattle.spec_image.specs.Told.{ReadsOnly};
ghost use Rattle.blk_io.specs.Faults.{IfDamaged, IfDevice};
ghost use Rattle.blk_disk.specs.Tables.{Agrees};
ghost use Rattle.blk_verdict.specs.Keyed.{HasItsKey};
ghost use Rattle.blk_verdict.specs.Kept.{HasPartNumber, is_parent_said, is_part_said, is_role_sought, is_sought};
ghost use Rattle.blk_verdict.specs.Readable.{HasReadableIndex, IsReadable};
ghost use Rattle.blk_verdict.specs.Reads.{IsCutRead};
ghost use Rattle.blk_verdict.specs.declared.fitting.Sought.TheVariants as variant;
ghost use Rattle.blk_verdict.specs.VerdictClauses.{ChecksPass, ForLoadedNode, IsSoughtItself, WhereAgrees};

use crate::loading::Loaded;
use crate::parts::has_part;
use crate::roles::Role;
use crate::same_keys::has_this_key;
use blk_disk::BlockFiles;
use blk_io::{Fault, Folder};
use blk_ranges::ChildName;

// What is sought.
#[derive(Clone, Copy, PartialEq, Eq)]
pub(crate) enum Sought {
    // A part.
    Part,
    // A record that is no part.
    Whole,
    // The parent that the name of a part says, with the bit of the part.
    ParentOf(ChildName),
}

impl Sought {
    // A record with the same child flag as one of a role.
    pub(crate) fn alike(role: Role) -> Sought
        ensures { result ≡ (if is_part_said role then variant.Part else variant.Whole) }
    {
        match role {
            Role::Plain => Sought::Whole,
            Role::Parent(_) => Sought::Whole,
            Role::Part(_) => Sought::Part,
        }
    }

    // Whether a role is one of what is sought.
    pub(crate) fn admits(self, role: Role) -> bool
        ensures { result ≡ is_role_sought self role }
    {
        match self {
            Sought::Part => is_part(role),
            Sought::Whole => !is_part(role),
            Sought::ParentOf(name) => is_parent(role, name.signature),
        }
    }
}

// Whether a role is a part's.
fn is_part(role: Role) -> bool
    ensures { result ≡ is_part_said role }
{
    match role {
        Role::Plain => false,
        Role::Parent(_) => false,
        Role::Part(_) => true,
    }
}

// Whether a role is that of a parent with a generation.
fn is_parent(role: Role, signature: i64) -> bool
    ensures { result ≡ is_parent_said (cast_unsigned w64 signature) role }
{
    match role {
        Role::Plain => false,
        Role::Parent(head) => head.signature == signature,
        Role::Part(_) => false,
    }
}

// Whether a kept record is what is sought, with this key.
//
// One folder call reads its key, where its role and the length of the key are right, and one more the bit of a part.
pub(crate) fn fits<F: Folder>(
    folder: &mut F,
    files: &BlockFiles,
    kept: &Loaded,
    sought: Sought,
    key: &[u8],
) -> Result<bool, Fault>
    requires readable { IsReadable files.now kept.now }
    requires part { HasPartNumber sought }
    ensures fits { IfOk result (λ fits. WhereAgrees (F.told folder.old) files.now (ForLoadedNode kept.now (λ loaded. fits ≡ is_sought sought key.now loaded))) }
    ensures reads { ReadsOnly F.told F.faults folder.old folder.new (IfDevice result) }
    ensures short { IfDamaged result (IsCutRead files.now (F.told folder.old)) }
    ensures untold { ChecksPass result (F.told folder.old) files.now (λ image. HasItsKey image kept.now) }
{
    if !sought.admits(kept.role) {
        return Ok(false);
    }
    if !has_this_key(folder, files, kept, key)? {
        return Ok(false);
    }
    has_bit(folder, files, kept, sought)
}

// Whether a kept record of a role that is sought has the bit of a part, where it is to have one.
fn has_bit<F: Folder>(
    folder: &mut F,
    files: &BlockFiles,
    kept: &Loaded,
    sought: Sought,
) -> Result<bool, Fault>
    requires index { HasReadableIndex files.now kept.now.sizes kept.now.addrs kept.now.role }
    requires role { is_role_sought sought kept.now.role ≡ true }
    requires part { HasPartNumber sought }
    ensures fits { IfOk result (λ has. ForSome (F.told folder.old).files (IsSoughtItself sought kept.now has)) }
    ensures reads { ReadsOnly F.told F.faults folder.old folder.new (IfDevice result) }
    ensures short { IfDamaged result (IsCutRead files.now (F.told folder.old)) }
    ensures untold { ForSome (F.told folder.old).files (Agrees files.now) → IfDamaged result (λ _. (F.told folder.old).files ≡ None) }
{
    match sought {
        Sought::Part => Ok(true),
        Sought::Whole => Ok(true),
        Sought::ParentOf(name) => has_part(folder, files, kept.addrs[2], name.part),
    }
}
