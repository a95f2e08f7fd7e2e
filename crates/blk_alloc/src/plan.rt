// The plan of a change of marks: what is read of a header, and what is to be written.
ghost use Rattle.std.specs.Prelude.{◌≡◌, ◌≤◌, ◌<◌, ◌+◌, ◌*◌, ◌/◌, ◌%◌, ◌^◌, ℕ, slice_index, IfOk, OnOk, OnErr};
ghost use Rattle.std.specs.Option.{ForSome};
ghost use Rattle.spec_image.specs.Image.{Block as block, length_of};
ghost use Rattle.spec_image.specs.Steps.{word_steps};
ghost use Rattle.spec_image.specs.Told.{Applies, AppliesPrefix, Rises, ReadsOnly};
ghost use Rattle.spec_format.specs.Maps.{group_size};
ghost use Rattle.blk_io.specs.Faults.{IfDamaged, IfDevice, OkFor};

use crate::counters::Counters;
use crate::finishing::finish;
use crate::layout::BITS_OF_WORD;
use crate::map::{longest_run, set_marks, word_of};
use blk_addr::GROUP;
use blk_io::{Failed, Fault, FileId, Folder, write_words};
use blk_record::BlockHead;

// A word of a map with its place, and the counters of the header.
#[derive(Clone, Copy)]
pub(crate) struct Plan {
    pub at: u64,
    pub word: u32,
    pub counters: Counters,
}

impl Plan {
    ghost use Rattle.blk_alloc.specs.Changes.{IsPlan, CanChangeMarks, plan_words};
    ghost use Rattle.blk_alloc.specs.Fitting.{IsMapWord};
    ghost use Rattle.blk_alloc.specs.Owning.{IsCause};
    ghost use Rattle.blk_alloc.specs.Clauses.{OpaqueIfDamagedWhere};

    // The plan by which so many blocks from one on, which lie in one group, are all marked or all freed, where
    // the word of the map that has them was read.
    pub(crate) fn read<F: Folder>(
        folder: &mut F,
        file: u8,
        start: u32,
        count: u32,
        used: bool,
        word: u32,
    ) -> Result<Plan, Fault>
        requires some { 0 < count }
        requires group { start % 4 + count ≤ group_size }
        requires small { start + count < 2 ^ 32 }
        requires word { ForSome (F.told folder.old).files (λ image. IsMapWord image file (start / 32) word) }
        ensures plan { OkFor result (F.told folder.old) (λ plan image. IsPlan image file start count used plan) }
        ensures aligned { IfOk result (λ plan. plan.at % 4 ≡ 0) }
        ensures fits { IfOk result (λ plan. plan.counters.allocations < 2 ^ 32) }
        ensures runs_fit { IfOk result (λ plan. (i : ℕ) → i < 4 → slice_index plan.counters.empty i < 2 ^ 32) }
        ensures cause { IfDamaged result (IsCause (F.told folder.old) file start count used) }
        ensures untold { OpaqueIfDamagedWhere result (F.told folder.old) (λ image. CanChangeMarks image file start count used) }
        ensures reads { ReadsOnly F.told F.faults folder.old folder.new (IfDevice result) }
    {
        let counters = Counters::read(folder, file)?;
        let at = BlockHead::MAP + 4 * u64::from(start / BITS_OF_WORD);
        let mut bytes = word.to_le_bytes();
        let first = start % BITS_OF_WORD;
        let before = longest_run(&bytes, first / GROUP);
        set_marks(&mut bytes, first, count, used);
        let later = longest_run(&bytes, first / GROUP);
        let counters = counters.moved(file, before, later, used)?;
        let word = word_of(&bytes);
        Ok(Plan { at, word, counters })
    }

    // Writes the words of the plan.
    pub(crate) fn write<F: Folder>(&self, folder: &mut F, file: u8) -> Result<(), Failed>
        requires aligned { self.now.at % 4 ≡ 0 }
        requires inside { ForSome (F.told folder.old).files (λ image. self.now.at + 4 ≤ 8192) }
        requires header { ForSome (F.told folder.old).files (λ image. 8192 ≤ length_of image (block file)) }
        ensures steps { OnOk result (Applies (F.told folder.old) (F.told folder.new) (word_steps (block file) (plan_words self.now))) }
        ensures prefix { AppliesPrefix (F.told folder.old) (F.told folder.new) (word_steps (block file) (plan_words self.now)) }
        ensures later { F.faults folder.old ≤ F.faults folder.new }
        ensures failed { OnErr result (Rises (F.faults folder.old) (F.faults folder.new)) }
    {
        let words = [(BlockHead::UPDATING, 1), (self.at, self.word)];
        write_words(folder, FileId::Block(file), &words)?;
        finish(
            folder,
            file,
            self.counters.allocations,
            &self.counters.empty,
        )
    }
}
