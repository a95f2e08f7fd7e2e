// The counters of a file are written, and its change is done.
ghost use Rattle.std.specs.Prelude.{◌≡◌, ◌≤◌, length, OnOk, OnErr};
ghost use Rattle.std.specs.Option.{ForSome};
ghost use Rattle.spec_image.specs.Image.{Block as block, length_of};
ghost use Rattle.spec_image.specs.Steps.{word_steps};
ghost use Rattle.spec_image.specs.Told.{Applies, AppliesPrefix, Rises};
ghost use Rattle.blk_alloc.specs.Changes.{counter_words, finish_words};

use blk_io::{Failed, FileId, Folder, write_run, write_word};
use blk_record::BlockHead;

// Writes the number of allocations of a file, and how many groups have each longest free run.
fn write_counters<F: Folder>(
    folder: &mut F,
    file: u8,
    allocations: u32,
    empty: &[u32; 4],
) -> Result<(), Failed>
    requires four { length empty.now ≡ 4 }
    requires header { ForSome (F.told folder.old).files (λ image. 8192 ≤ length_of image (block file)) }
    ensures steps { OnOk result (Applies (F.told folder.old) (F.told folder.new) (word_steps (block file) (counter_words allocations empty.now))) }
    ensures prefix { AppliesPrefix (F.told folder.old) (F.told folder.new) (word_steps (block file) (counter_words allocations empty.now)) }
    ensures later { F.faults folder.old ≤ F.faults folder.new }
    ensures failed { OnErr result (Rises (F.faults folder.old) (F.faults folder.new)) }
{
    write_word(
        folder,
        FileId::Block(file),
        BlockHead::ALLOCATIONS,
        allocations,
    )?;
    write_run(folder, FileId::Block(file), BlockHead::EMPTY, empty)
}

// Writes the counters of a file, and then that its change is done.
pub(crate) fn finish<F: Folder>(
    folder: &mut F,
    file: u8,
    allocations: u32,
    empty: &[u32; 4],
) -> Result<(), Failed>
    requires four { length empty.now ≡ 4 }
    requires header { ForSome (F.told folder.old).files (λ image. 8192 ≤ length_of image (block file)) }
    ensures steps { OnOk result (Applies (F.told folder.old) (F.told folder.new) (word_steps (block file) (finish_words allocations empty.now))) }
    ensures prefix { AppliesPrefix (F.told folder.old) (F.told folder.new) (word_steps (block file) (finish_words allocations empty.now)) }
    ensures later { F.faults folder.old ≤ F.faults folder.new }
    ensures failed { OnErr result (Rises (F.faults folder.old) (F.faults folder.new)) }
{
    write_counters(folder, file, allocations, empty)?;
    write_word(folder, FileId::Block(file), BlockHead::UPDATING, 0)
}
