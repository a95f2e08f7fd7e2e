// An object is accessed: its main item, and the parts in range.
ghost use Rattle.std.specs.Prelude.{◌≡◌, ◌≤◌, ◌<◌, ◌+◌, IfOk, IsTrue, OnOk, length};
ghost use Rattle.std.specs.Int.{cast_unsigned, w64};
ghost use Rattle.std.specs.Option.{ForSome};
ghost use Rattle.spec_image.specs.Told.{MayWrite, ForTold};
ghost use Rattle.blk_model.specs.Sizes.{largest_offset, longest_key, part_size, signatures};
ghost use Rattle.spec_format.specs.Address.{blocks_256, kind_of};
ghost use Rattle.spec_format.specs.Names.{longest_name};
ghost use Rattle.blk_io.specs.Faults.{IfDamaged, IfDevice};
ghost use Rattle.blk_disk.specs.Open.{IsOpen};
ghost use Rattle.blk_disk.specs.Tables.{stands_among};
ghost use Rattle.blk_object.specs.FailedChecks.{IsFailedCheck};
ghost use Rattle.blk_sparse.specs.Clauses.{ForEachOfParent, HasRun, Undamaged, Used, Using, all_in};

use crate::children::Parent;
use crate::parts::use_entry;
use crate::reading::range;
use blk_disk::BlockFiles;
use blk_io::{Fault, Folder};

/// The first run of present bytes of an object, as `range` finds it. The main item is accessed first, and then the parts that
/// are in range and exist.
///
/// One folder call reads the parent's node, and then there are those of `touch` and of `range`.
pub fn use_range<F: Folder>(
    folder: &mut F,
    files: &BlockFiles,
    parent: &Parent,
    name: &mut [u8],
    offset: u64,
    count: u64,
    moment: u64,
) -> Result<(u64, u64), Fault>
    requires kind { kind_of parent.now.entry ≡ blocks_256 }
    requires stands { IsTrue (stands_among files.now parent.now.entry) }
    requires signature { cast_unsigned w64 parent.now.signature < signatures }
    requires name { longest_key + longest_name ≤ length name.old }
    requires few { count ≤ part_size }
    requires inside { offset + count ≤ largest_offset }
    requires is_open { ForSome (F.told folder.old).files (IsOpen files.now) }

    // This is the run of each object that a kept state has with this parent.
    ensures run { IfOk result (λ run. ForTold (F.told folder.old) (ForEachOfParent parent.now) (HasRun (run.0, run.1) offset count)) }

    // Each state that was kept, with such an object, is kept with these items in front in the end, by the same layout.
    ensures used { OnOk result (ForTold (F.told folder.old) (ForEachOfParent parent.now) (Used (F.told folder.new) parent.now (all_in offset count))) }

    // At each word the durable contents with the first of them in front are recovered.
    ensures stops { ForTold (F.told folder.old) (ForEachOfParent parent.now) (Using (F.told folder.old) (F.told folder.new) (all_in offset count)) }

    ensures is_open { ForSome (F.told folder.new).files (IsOpen files.now) }

    // Corruption is a check that fails on what is read here; nothing is written after it.
    ensures damaged { IfDamaged result (IsFailedCheck files.now (F.told folder.new)) }

    // An observable folder, with such an object, reports no corruption.
    ensures untold { ForTold (F.told folder.old) (ForEachOfParent parent.now) (Undamaged result (F.told folder.old)) }

    ensures writes { MayWrite F.told F.faults folder.old folder.new (IfDevice result) }
{
    use_entry(folder, files, parent.entry, moment)?;
    range(folder, files, parent, name, offset, count, moment)
}
