// The line of which a part was taken so far.
ghost use Rattle.std.specs.Prelude.{◌≡◌, ◌≤◌, ◌↔◌, ◌+◌, false, [], ◌++◌, ℕ, List, ◌<◌, length, IfOk, IsTrue, None};
ghost use Rattle.std.specs.Option.{ForSome};

use blk_io::NoMemory;
use blk_script::LONGEST_LINE;
use std::alloc::Global;

// The bytes of a line so far, as many as a line may have, and how many they are; of a longer line no byte is kept.
#[derive(Drop)]
pub(crate) struct Line {
    kept: Vec<u8>,
    len: usize,
    too_long: bool,
    ghost buffer: { length kept.items ≡ 2200000 },
    ghost within: { len ≤ 2200000 },
}

impl Line {
    ghost use Rattle.blk_run.specs.Pending.{HoldsLine, pending};

    // A line without a byte.
    pub(crate) fn new(alloc: Global) -> Result<Line, NoMemory>
        ensures nothing { IfOk result (λ line. HoldsLine line []) }
        ensures none { IfOk result (λ line. pending line ≡ 0) }
    {
        Ok(Line {
            kept: vec![in alloc; 0; LONGEST_LINE]?,
            len: 0,
            too_long: false,
        })
    }

    // More bytes of it come.
    pub(crate) fn add(&mut self, more: &[u8])
        ensures added { (bytes : List ℕ) → HoldsLine self.old bytes → HoldsLine self.new (bytes ++ more.now) }
        ensures few { pending self.new ≤ pending self.old + length more.now }
    {
        if self.too_long || LONGEST_LINE - self.len < more.len() {
            self.too_long = true;
        } else {
            let end = self.len + more.len();
            self.kept[self.len..end].copy_from_slice(more);
            self.len = end;
        }
    }

    // The next line begins.
    pub(crate) fn clear(&mut self)
        ensures nothing { HoldsLine self.new [] }
        ensures none { pending self.new ≡ 0 }
    {
        self.len = 0;
        self.too_long = false;
    }

    // Whether no byte of it has come.
    pub(crate) fn is_empty(&self) -> bool
        ensures nothing { (bytes : List ℕ) → HoldsLine self.now bytes → IsTrue result ↔ (bytes ≡ []) }
        ensures some { result ≡ false → 0 < pending self.now }
    {
        self.len == 0 && !self.too_long
    }

    // Its bytes, but for a line that is too long.
    pub(crate) fn bytes(&self) -> Option<&[u8]>
        ensures whole { (bytes : List ℕ) → HoldsLine self.now bytes → ForSome result (λ kept. kept.now ≡ bytes) }
        ensures few { ForSome result (λ kept. length kept.now ≤ 2200000) }
        ensures too_long { (bytes : List ℕ) → HoldsLine self.now bytes → result ≡ None → 2200000 < length bytes }
    {
        if self.too_long {
            None
        } else {
            Some(&self.kept[..self.len])
        }
    }
}
