// The commands SparseRead and SparseRange.
ghost use Rattle.std.specs.Prelude.{◌≡◌, IfOk, IfSome, Ok};
ghost use Rattle.std.specs.Option.{ForSome};
ghost use Rattle.spec_image.specs.Told.{Stays, MayWrite};
ghost use Rattle.blk_io.specs.Faults.{IfDamaged, IfDevice, UndamagedWhere};
ghost use Rattle.blk_model.specs.declared.Answer.TheVariants as answer;
ghost use Rattle.blk_disk.specs.Open.{IsOpen};
ghost use Rattle.blk_object.specs.FailedChecks.{IsFailedCheck};
ghost use Rattle.blk_cache.specs.CommandClauses.{DoneBy, ForCall, IsRefused, KeepsAny, SparedBy, StopsBy};
ghost use Rattle.blk_cache.specs.Listing.{OnlyRoomChanges};
ghost use Rattle.blk_cache.specs.SparseAsking.{early_sparse_refusal};
ghost use Rattle.blk_cache.specs.SparseReading.{to_use_sparse, told_of_run};

use crate::cache::Cache;
use crate::sparse_asking::AskedSparse;
use blk_io::{Fault, Folder};
use blk_model::{Answer, Refusal};
use blk_sparse::use_range;

/// What is asked of the sparse data in the range of a command.
#[derive(Clone, Copy, PartialEq, Eq)]
pub(crate) enum Wanted {
    /// How many bytes there are from the offset on, which are printed then: a SparseRead.
    Bytes,
    /// The first run of those that there are: a SparseRange.
    Run,
}

impl Cache {
    /// Does all of a SparseRead or a SparseRange that writes: the item of its object is put in front of the LRU list, and
    /// then each part in range that exists, in rising number. The answer gives what is wanted of the first run of present
    /// bytes.
    ///
    /// It is refused with `BadHandle` where the name is free, or 4096 or more, `TooLarge` where there are more than 1048576
    /// bytes, `RangeEnd` where they end after 68719476736, `Doomed` where the object is doomed, and `NotSparse` where it is
    /// plain, the first of these. After a fault nothing is promised of the cache but that it can be dropped.
    pub(crate) fn use_sparse<F: Folder>(
        &mut self,
        folder: &mut F,
        wanted: Wanted,
        handle: u16,
        offset: u64,
        count: u64,
        moment: u64,
    ) -> Result<Answer, Fault>
        requires is_open { ForSome (F.told folder.old).files (IsOpen self.old.files) }
        ensures does { ForCall self.old (F.told folder.old) moment (to_use_sparse wanted handle offset count) (DoneBy self.new (F.told folder.new) result) }
        ensures stops { ForCall self.old (F.told folder.old) moment (to_use_sparse wanted handle offset count) (StopsBy (F.told folder.new)) }

        // A refusal that the handles and the range alone decide is given on every folder, and a refusal does nothing.
        ensures refuses { IfSome (early_sparse_refusal self.old.handles handle offset count) (λ why. result ≡ Ok (answer.Refused why)) }
        ensures quiet { IfOk result (λ answer. IsRefused answer → Stays (F.told folder.old) (F.told folder.new)) }
        ensures unchanged { IfOk result (λ answer. IsRefused answer → self.new ≡ self.old) }

        ensures spares { ForCall self.old (F.told folder.old) moment (to_use_sparse wanted handle offset count) (SparedBy (F.told folder.new) result) }
        ensures others { OnlyRoomChanges self.old self.new }
        ensures is_open { ForSome (F.told folder.new).files (IsOpen self.new.files) }

        // Corruption is a check that fails on what is read here; nothing is written after it. An observable folder gives none where the cache keeps a state.
        ensures damaged { IfDamaged result (IsFailedCheck self.new.files (F.told folder.new)) }
        ensures untold { UndamagedWhere result (F.told folder.old) (KeepsAny self.old) }
        ensures writes { MayWrite F.told F.faults folder.old folder.new (IfDevice result) }
    {
        let asked = self.ask_sparse(folder, handle, offset, count)?;
        match asked {
            AskedSparse::Refused(why) => Ok(Answer::Refused(why)),
            AskedSparse::Plain(_) => Ok(Answer::Refused(Refusal::NotSparse)),
            AskedSparse::Parent(parent) => {
                let found = use_range(
                    folder,
                    &self.files,
                    &parent,
                    &mut self.name,
                    offset,
                    count,
                    moment,
                )?;
                Ok(told_of_run(wanted, offset, found))
            }
        }
    }
}

// The answer from the first run of present bytes: how many there are at the offset, or the run.
fn told_of_run(wanted: Wanted, offset: u64, run: (u64, u64)) -> Answer
    ensures { result ≡ told_of_run wanted offset (run.0, run.1) }
{
    let (start, length) = run;
    match wanted {
        Wanted::Bytes => Answer::Bytes(if start == offset { length } else { 0 }),
        Wanted::Run => Answer::Range { start, length },
    }
}
