// How far a cache evicts.
ghost use Rattle.std.specs.Prelude.{◌≡◌};
ghost use Rattle.spec_image.specs.Image.{Image};
ghost use Rattle.blk_model.specs.State.{State};
ghost use Rattle.blk_cache.specs.CacheKeeping.{HoldsState};
ghost use Rattle.blk_cache.specs.Evicting.{is_met};

use crate::cache::Cache;

/// How far a cache evicts.
#[derive(Clone, Copy)]
pub(crate) enum Goal {
    /// Until so many more bytes and items fit below the low watermark.
    Room { bytes: u64, items: u64 },
    /// Until no more than so many bytes are left.
    Bytes(u64),
}

impl Cache {
    /// Whether enough is evicted.
    pub(crate) fn is_met(&self, goal: &Goal) -> bool
        ensures met { (state : State) (image : Image) → HoldsState self.now state image → result ≡ is_met goal.now state }
    {
        match *goal {
            Goal::Room { bytes, items } => self.is_enough(bytes, items),
            Goal::Bytes(most) => self.bytes <= most,
        }
    }
}
