// Hints are set.
ghost use Rattle.std.specs.Prelude.{◌≤◌, ◌<◌, OnOk, OnErr};
ghost use Rattle.std.specs.Option.{ForSome};
ghost use Rattle.spec_image.specs.Footprint.{SameOutside, one_word};
ghost use Rattle.spec_image.specs.Image.{Block as block, length_of};
ghost use Rattle.spec_image.specs.Told.{MayWrite, LeavesFrom, StopsFrom};
ghost use Rattle.blk_alloc.specs.Fitting.{hint_place};
ghost use Rattle.blk_alloc.specs.Marking.{HasHint};

use crate::fitting::HINTS;
use blk_io::{Failed, FileId, Folder, write_word};

// Hint i of a file becomes the number of a group.
pub(crate) fn set_hint<F: Folder>(
    folder: &mut F,
    file: u8,
    i: u32,
    group: u32,
) -> Result<(), Failed>
    requires small { i < 4 }
    requires header { ForSome (F.told folder.old).files (λ image. 8192 ≤ length_of image (block file)) }
    ensures set { OnOk result (LeavesFrom (F.told folder.old) (F.told folder.new) (HasHint file i group)) }
    ensures stops { StopsFrom (F.told folder.old) (F.told folder.new) (SameOutside (one_word (block file) (hint_place i))) }
    ensures writes { MayWrite F.told F.faults folder.old folder.new (OnErr result) }
{
    write_word(folder, FileId::Block(file), HINTS + 4 * u64::from(i), group)
}
