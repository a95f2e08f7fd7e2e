// Whether there is space below the limits.
ghost use Rattle.std.specs.Prelude.{◌≡◌, ◌&&◌, ◌+◌, ◌<◌, ◌==◌, ◌^◌, nat_le, nat_lt};
ghost use Rattle.blk_model.specs.Refusals.{is_full};
ghost use Rattle.blk_model.specs.Room.{fits, low, room};
ghost use Rattle.blk_cache.specs.Covering.{ForAnyCovered};
ghost use Rattle.blk_cache.specs.RoomTold.{asks_too_much};
ghost use Rattle.blk_cache.specs.CommandClauses.{ForAnyKept};

use crate::cache::Cache;
use crate::covered::Covered;

// The low watermark is below the limit by the limit divided by this.
const FREE_SHARE: u64 = 16;

impl Cache {
    /// Whether there is no space for so many more bytes and items: some are to be added, and the open objects, the parts in
    /// range and what is added exceed a limit.
    pub(crate) fn is_full(&self, bytes: u64, items: u64, parts: &Covered) -> bool
        ensures full { ForAnyCovered self.now parts.now (λ state covered. result ≡ is_full (room state covered bytes items)) }
    {
        self.asks_too_much(bytes, items, parts)
    }

    // Whether something is to be added, and the open objects, the parts in range and what is added exceed a limit.
    fn asks_too_much(&self, bytes: u64, items: u64, parts: &Covered) -> bool
        ensures { result ≡ asks_too_much self.now parts.now bytes items }
    {
        if bytes == 0 && items == 0 {
            return false;
        }
        let open = self.handles.open_objects() as u64;
        let most_items = u64::from(self.limits.max_items);
        exceed(self.open_bytes, parts.bytes, bytes, self.limits.max_bytes)
            || exceed(open, parts.count(), items, most_items)
    }

    /// Whether so many more bytes and items fit below the limits.
    pub(crate) fn fits(&self, bytes: u64, items: u64) -> bool
        ensures fits { ForAnyKept self.now (λ state. result ≡ fits state.limits.max_bytes bytes items state) }
    {
        let most = self.limits.max_bytes;
        self.fits_below(most, bytes, items)
    }

    /// Whether enough items are evicted for so many more bytes and items: they fit below the low watermark.
    pub(crate) fn is_enough(&self, bytes: u64, items: u64) -> bool
        ensures enough { ForAnyKept self.now (λ state. result ≡ fits (low state) bytes items state) }
    {
        let most = self.limits.max_bytes;
        self.fits_below(most - most / FREE_SHARE, bytes, items)
    }

    // Whether with what is added there are no more bytes than `most`, and no more items than the limit.
    fn fits_below(&self, most: u64, bytes: u64, items: u64) -> bool
        requires small { most < 2 ^ 63 }
        ensures { ForAnyKept self.now (λ state. result ≡ fits most bytes items state) }
    {
        let most_items = u64::from(self.limits.max_items);
        is_within(self.bytes, bytes, most) && is_within(self.items, items, most_items)
    }
}

// Whether a number and one more exceed a limit.
pub(crate) fn exceeds(number: u64, more: u64, most: u64) -> bool
    requires small { most < 2 ^ 63 }
    ensures { result ≡ nat_lt most (number + more) }
{
    number.saturating_add(more) > most
}

// Whether two numbers and one more exceed a limit.
fn exceed(number: u64, other: u64, more: u64, most: u64) -> bool
    requires small { most < 2 ^ 63 }
    ensures { result ≡ nat_lt most (number + other + more) }
{
    number.saturating_add(other).saturating_add(more) > most
}

// Whether a number and one more are within a limit.
fn is_within(number: u64, more: u64, most: u64) -> bool
    requires small { most < 2 ^ 63 }
    ensures { result ≡ nat_le (number + more) most }
{
    number.saturating_add(more) <= most
}
