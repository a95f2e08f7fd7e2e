// A set of numbers below a limit that grows, one bit for each.
ghost use Rattle.std.specs.Prelude.{◌≡◌, ℕ, ◌+◌, ◌*◌, ◌^◌, ◌<◌, ◌≤◌, ◌||◌, ◌==◌, false, vec_len, OnOk};
ghost use Rattle.std.specs.List.{list_any, range_with_len};
ghost use Rattle.blk_addr.specs.Bits.{has_bit, is_between};

use crate::no_memory::NoMemory;
use std::alloc::Global;

const BITS_OF_BYTE: u32 = 8;

#[derive(Drop)]
pub struct Bitmap {
    pub bytes: Vec<u8>,
}

impl Bitmap {
    #[tactic(auto, unfolding(crate::specs::Bits::has_bit))]
    pub fn new(alloc: Global) -> Bitmap
        ensures { (n : ℕ) → has_bit result.bytes.items n ≡ false }
    {
        Bitmap {
            bytes: Vec::new(alloc),
        }
    }

    #[tactic(auto, unfolding(crate::specs::Bits::has_bit))]
    pub fn has(&self, n: u32) -> bool
        ensures { result ≡ has_bit self.now.bytes.items n }
    {
        let place = (n / BITS_OF_BYTE) as usize;
        match self.bytes.get(place) {
            Some(byte) => (byte >> (n % BITS_OF_BYTE)) & 1 == 1,
            None => false,
        }
    }

    // Whether one of `count` numbers from `first` on is in the set.
    pub fn has_any(&self, first: u32, count: u32) -> bool
        requires { first + count < 2 ^ 32 }
        ensures { result ≡ list_any (has_bit self.now.bytes.items) (range_with_len first count) }
    {
        (first..first + count).any(|n| self.has(n))
    }

    // Makes space for the numbers below `limit`.
    pub fn reserve(&mut self, limit: u32) -> Result<(), NoMemory>
        ensures same { (n : ℕ) → has_bit self.new.bytes.items n ≡ has_bit self.old.bytes.items n }
        ensures room { OnOk result (limit ≤ 8 * vec_len self.new.bytes) }
        ensures longer { vec_len self.old.bytes ≤ vec_len self.new.bytes }
    {
        let wanted = limit.div_ceil(BITS_OF_BYTE) as usize;
        let present = self.bytes.len();
        if present < wanted {
            self.bytes.reserve_exact(wanted - present)?;
            self.bytes.resize(wanted, 0)?;
        }
        Ok(())
    }

    #[tactic(auto, unfolding(crate::specs::Bits::has_bit))]
    pub fn insert(&mut self, n: u32)
        requires { n < 8 * vec_len self.old.bytes }
        ensures added { (m : ℕ) → has_bit self.new.bytes.items m ≡ (m == n || has_bit self.old.bytes.items m) }
        ensures room { vec_len self.new.bytes ≡ vec_len self.old.bytes }
    {
        let place = (n / BITS_OF_BYTE) as usize;
        self.bytes[place] |= 1 << (n % BITS_OF_BYTE);
    }

    // Adds `count` numbers from `first` on.
    pub fn insert_all(&mut self, first: u32, count: u32)
        requires fits { first + count < 2 ^ 32 }
        requires room { first + count ≤ 8 * vec_len self.old.bytes }
        ensures length { vec_len self.new.bytes ≡ vec_len self.old.bytes }
        ensures added { (m : ℕ) → has_bit self.new.bytes.items m ≡ (is_between first (first + count) m || has_bit self.old.bytes.items m) }
    {
        for n in first..first + count {
            self.insert(n);
        }
    }
}
