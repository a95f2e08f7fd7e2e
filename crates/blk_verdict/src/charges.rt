// The costs of loaded entries.
ghost use Rattle.std.specs.Prelude.{◌≡◌, ◌≤◌, ◌<◌, ◌^◌, length};
ghost use Rattle.std.specs.List.{sum_by};
ghost use Rattle.blk_verdict.specs.Charges.{charge_said};

use crate::loading::Loaded;

impl Loaded {
    /// How many bytes its key and its streams have, indexes included.
    pub fn charge(&self) -> u64
        ensures charge { result ≡ charge_said self.now }
        ensures few { result < 2 ^ 34 }
    {
        let [first, second, third, _] = self.sizes;
        u64::from(self.key_len) + u64::from(first) + u64::from(second) + u64::from(third)
    }
}

/// How many bytes the keys and the streams of several entries have.
pub fn charge_of_all(kept: &[Loaded]) -> u64
    requires few { length kept.now ≤ 131072 }
    ensures { result ≡ sum_by charge_said kept.now }
{
    let mut sum = 0u64;
    for loaded in kept {
        sum += loaded.charge();
    }
    sum
}
