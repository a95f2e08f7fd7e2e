//! Numbers from outside, made to limits.
ghost use Rattle.std.specs.Prelude.{◌≡◌, ◌↔◌, IsSome, IfSome};
ghost use Rattle.blk_model.specs.Bounds.{AreAllowed};

use crate::bounds::{Limits, MOST_BYTES, MOST_ITEMS};

/// The limits with these numbers, or `None` where a cache may not have them.
pub fn limits(max_bytes: u64, max_items: u32) -> Option<Limits>
    ensures allowed { IsSome result ↔ AreAllowed max_bytes max_items }
    ensures numbers { IfSome result (λ l. (l.max_bytes ≡ max_bytes) × (l.max_items ≡ max_items)) }
{
    if (1..=MOST_BYTES).contains(&max_bytes) && (1..=MOST_ITEMS).contains(&max_items) {
        Some(Limits {
            max_bytes,
            max_items,
        })
    } else {
        None
    }
}
