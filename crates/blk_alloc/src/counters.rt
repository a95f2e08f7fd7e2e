// The counters of a block file's header.
ghost use Rattle.std.specs.Prelude.{◌≡◌, ◌≤◌, ◌<◌, ◌+◌, ◌-◌, ◌*◌, ℕ, length, slice_index, IfOk};
ghost use Rattle.spec_image.specs.Image.{Block as block, byte};
ghost use Rattle.spec_image.specs.Told.{ReadsOnly};
ghost use Rattle.spec_format.specs.Maps.{group_size};
ghost use Rattle.blk_io.specs.Faults.{IfDamaged, IfDevice, IsShort, OkFor};

use blk_io::{Damage, Fault, FileId, Folder, read_exact};
use blk_record::BlockHead;

// The number of allocations, and for each run of 1 to 4 blocks how many groups have it as their
// longest free run.
#[derive(Clone, Copy)]
pub(crate) struct Counters {
    pub allocations: u32,
    pub empty: [u32; 4],
    ghost four: { length empty ≡ 4 },
}

impl Counters {
    ghost use Rattle.blk_alloc.specs.Counting.{AreCounters, counted, largest, IsCounted, MovesRun, MayMoveRun, IsAtEnd, IsEmptyAt};

    // The counters that the header of a file has.
    pub(crate) fn read<F: Folder>(folder: &mut F, file: u8) -> Result<Counters, Fault>
        ensures counters { OkFor result (F.told folder.old) (λ counters image. AreCounters (byte image (block file)) counters) }
        ensures short { IfDamaged result (IsShort (F.told folder.old) (FileId.Block file) 0 80) }
        ensures reads { ReadsOnly F.told F.faults folder.old folder.new (IfDevice result) }
    {
        let mut bytes = [0u8; BlockHead::LEN];
        read_exact(folder, FileId::Block(file), 0, &mut bytes)?;
        let Some(head) = BlockHead::over(&bytes) else {
            unreachable!();
        };
        let empty = [head.empty(0), head.empty(1), head.empty(2), head.empty(3)];
        Ok(Counters {
            allocations: head.num_entries(),
            empty,
        })
    }

    // The counters after the longest free run of one group has changed, with an allocation more or less.
    pub(crate) fn moved(
        self,
        file: u8,
        before: u32,
        later: u32,
        used: bool,
    ) -> Result<Counters, Fault>
        requires before { before ≤ group_size }
        requires later { later ≤ group_size }
        ensures moves { IfOk result (λ counters. MovesRun self counters before later used) }
        ensures end { IfDamaged result (IsAtEnd self file before later used) }
        ensures never { IfDamaged result (λ _. MayMoveRun self before later used → ⊥) }
        ensures no_device { IfDevice result ⊥ }
    {
        let counters = self.counting(file, used)?;
        if before == later {
            return Ok(counters);
        }
        counters.lowered(file, before)?.raised(file, later)
    }

    // The counters with one allocation more or less.
    fn counting(self, file: u8, used: bool) -> Result<Counters, Fault>
        ensures allocations { IfOk result (λ counters. IsCounted used self.allocations counters.allocations) }
        ensures same { IfOk result (λ counters. counters.empty ≡ self.empty) }
        ensures end { IfDamaged result (λ damage. (before later : ℕ) → IsAtEnd self file before later used damage) }
        ensures never { IfDamaged result (λ _. (before later : ℕ) → MayMoveRun self before later used → ⊥) }
        ensures no_device { IfDevice result ⊥ }
    {
        let old = self.allocations;
        let empty = self.empty;
        let new = if used {
            old.checked_add(1)
        } else {
            old.checked_sub(1)
        };
        match new {
            Some(allocations) => Ok(Counters { allocations, empty }),
            None => Err(at_end(file, BlockHead::ALLOCATIONS, old)),
        }
    }

    // The counters with one group less of those with this longest free run.
    fn lowered(self, file: u8, run: u32) -> Result<Counters, Fault>
        requires { run ≤ group_size }
        ensures allocations { IfOk result (λ counters. counters.allocations ≡ self.allocations) }
        ensures empty { IfOk result (λ counters. (i : ℕ) → i < 4 → slice_index counters.empty i + counted run i ≡ slice_index self.empty i) }
        ensures end { IfDamaged result (λ damage. (damage.file ≡ FileId.Block file) × IsEmptyAt self run 0 damage) }
        ensures no_device { IfDevice result ⊥ }
    {
        if run == 0 {
            return Ok(self);
        }
        let i = (run - 1) as usize;
        let mut empty = self.empty;
        let old = empty[i];
        if old == 0 {
            return Err(at_end(file, BlockHead::EMPTY + 4 * i as u64, old));
        }
        empty[i] = old - 1;
        Ok(Counters {
            allocations: self.allocations,
            empty,
        })
    }

    // The counters with one group more of those with this longest free run.
    fn raised(self, file: u8, run: u32) -> Result<Counters, Fault>
        requires { run ≤ group_size }
        ensures allocations { IfOk result (λ counters. counters.allocations ≡ self.allocations) }
        ensures empty { IfOk result (λ counters. (i : ℕ) → i < 4 → slice_index counters.empty i ≡ slice_index self.empty i + counted run i) }
        ensures end { IfDamaged result (λ damage. (damage.file ≡ FileId.Block file) × IsEmptyAt self run largest damage) }
        ensures no_device { IfDevice result ⊥ }
    {
        if run == 0 {
            return Ok(self);
        }
        let i = (run - 1) as usize;
        let mut empty = self.empty;
        let old = empty[i];
        if old == u32::MAX {
            return Err(at_end(file, BlockHead::EMPTY + 4 * i as u64, old));
        }
        empty[i] = old + 1;
        Ok(Counters {
            allocations: self.allocations,
            empty,
        })
    }
}

// The failed check of a counter that would leave its range.
fn at_end(file: u8, at: u64, found: u32) -> Fault
    ensures { result ≡ Fault.Damaged (record { file = FileId.Block file; at = at; found = found }) }
{
    Fault::Damaged(Damage {
        file: FileId::Block(file),
        at,
        found,
    })
}
