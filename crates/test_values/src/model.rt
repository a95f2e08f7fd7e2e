// Limits from outside.
use crate::same::assert_same;
use blk_model::limits;

#[test]
fn limits_are_refused_outside_their_bounds(rt: HostRuntime) {
    for (max_bytes, max_items) in [(0, 1), (1, 0), (1, 131073), (1099511627777, 1)] {
        assert!(rt; limits(max_bytes, max_items).is_none());
    }
}

#[test]
fn limits_keep_their_numbers(rt: HostRuntime) {
    for (max_bytes, max_items) in [
        (83886080, 65536),
        (1, 1),
        (2147483648, 1),
        (1099511627776, 131072),
    ] {
        let numbers = numbers_of(max_bytes, max_items);
        assert_same(&rt, numbers, Some((max_bytes, max_items)));
    }
}

// The numbers of the limits with these numbers.
fn numbers_of(max_bytes: u64, max_items: u32) -> Option<(u64, u32)> {
    let limits = limits(max_bytes, max_items)?;
    Some((limits.max_bytes, limits.max_items))
}
