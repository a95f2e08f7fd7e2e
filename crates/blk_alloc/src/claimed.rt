// The marks that used blocks make, and the space that they leave.
ghost use Rattle.std.specs.Prelude.{◌≡◌, ℕ, ◌+◌, ◌*◌, ◌^◌, ◌<◌, ◌≤◌, length, slice_index};
ghost use Rattle.spec_format.specs.Maps.{group_size, groups_with};
ghost use Rattle.blk_addr.specs.Bits.{has_bit};
ghost use Rattle.blk_alloc.specs.Counting.{counted};
ghost use Rattle.blk_alloc.specs.Rebuilding.{is_block_claimed};

use crate::map::{longest_run, set_mark};
use blk_addr::Claims;

// Marks the used blocks of a file, and no others.
pub(crate) fn mark_claimed(claims: &Claims, file: u8, bytes: &mut [u8])
    requires { 8 * length bytes.old ≤ 65536 }
    ensures marks { (m : ℕ) → m < 8 * length bytes.old → has_bit bytes.new m ≡ is_block_claimed claims.now file m }
    ensures length { length bytes.new ≡ length bytes.old }
{
    for m in 0..8 * bytes.len() as u32 {
        let used = claims.has_block(file, m);
        set_mark(bytes, m, used);
    }
}

// Counts one group more with this longest free run.
fn count_run(empty: &mut [u32; 4], run: u32)
    requires run { run ≤ group_size }
    requires room { (i : ℕ) → i < 4 → slice_index empty.old i + 1 < 2 ^ 32 }
    ensures counts { (i : ℕ) → i < 4 → slice_index empty.new i ≡ slice_index empty.old i + counted run i }
{
    if run > 0 {
        empty[(run - 1) as usize] += 1;
    }
}

// Adds the groups of a piece of a map to the counts by longest free run.
pub(crate) fn count_runs(bytes: &[u8], groups: u32, empty: &mut [u32; 4])
    requires few { groups < 2 ^ 16 }
    requires room { (i : ℕ) → i < 4 → slice_index empty.old i + groups < 2 ^ 32 }
    ensures counts { (i : ℕ) → i < 4 → slice_index empty.new i ≡ slice_index empty.old i + groups_with (has_bit bytes.now) groups (i + 1) }
{
    for group in 0..groups {
        count_run(empty, longest_run(bytes, group));
    }
}
