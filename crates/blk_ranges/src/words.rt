// The words of a part's map, and the bits in them.
ghost use Rattle.std.specs.Prelude.{◌≡◌, ℕ, ◌+◌, ◌-◌, ◌*◌, ◌^◌, ◌<◌, ◌≤◌, ◌==◌, ◌&&◌, nat_le, nat_lt, not, if◌then◌else◌};
ghost use Rattle.std.specs.Int.{bit_at};

/// The words of a map.
pub(crate) const WORDS: usize = 32;

/// The bits of a word.
pub(crate) const BITS: u32 = 32;

/// The bits of word i that represent the blocks from one on and below another.
pub(crate) fn bits_between(i: usize, first: u32, last: u32) -> u32
    requires { i < 32 }
    ensures { (k : ℕ) → k < 32 → (bit_at result k == 1) ≡ (nat_le first (32 * i + k) && nat_lt (32 * i + k) last) }
{
    let start = BITS * i as u32;
    let high = last.saturating_sub(start).min(BITS);
    let low = first.saturating_sub(start).min(high);
    ones(low, high)
}

// A word with the bits from one on and below another.
fn ones(low: u32, high: u32) -> u32
    requires order { low ≤ high }
    requires within { high ≤ 32 }
    ensures { result ≡ 2 ^ high - 2 ^ low }
{
    ((1_u64 << high) - (1_u64 << low)) as u32
}

/// The bits of a word that are set, or those that are not.
pub(crate) fn bits_that(word: u32, are_set: bool) -> u32
    ensures { (k : ℕ) → k < 32 → (bit_at result k == 1) ≡ (if are_set then bit_at word k == 1 else not (bit_at word k == 1)) }
{
    if are_set { word } else { !word }
}
