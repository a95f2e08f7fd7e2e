// The command Total.
ghost use Rattle.std.specs.Prelude.{◌≡◌, ℕ};
ghost use Rattle.spec_image.specs.Told.{Told};
ghost use Rattle.blk_model.specs.Request.{to_total};
ghost use Rattle.blk_model.specs.declared.Answer.TheVariants as answer;
ghost use Rattle.law_state.specs.Commands.{Does};
ghost use Rattle.blk_cache.specs.CacheKeeping.{HoldsState};

use crate::cache::Cache;
use blk_model::Answer;

impl Cache {
    /// The number of items and the sum of their costs, doomed open objects included. No folder call is made.
    pub(crate) fn total(&self) -> Answer
        ensures answer { result ≡ answer.Totals self.now.items self.now.bytes }
        ensures does { (told : Told) (moment : ℕ) → Does (HoldsState self.now) (HoldsState self.now) told told moment to_total result }
    {
        Answer::Totals {
            items: self.items,
            bytes: self.bytes,
        }
    }
}
