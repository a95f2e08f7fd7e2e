// An input of bytes, an output of bytes and a clock.
ghost use Rattle.std.specs.Prelude.{◌≡◌, ◌≤◌, ℕ, Bool, List, ◌++◌, length, drop, false, Option, OnOk, OnErr, IfOk};
ghost use Rattle.std.specs.Option.{ForSome, option_map};
ghost use Rattle.spec_image.specs.Told.{Rises};
ghost use Rattle.blk_io.specs.Streams.{Appends, GoesOn, Moves, Readings, reading_of, later_of};

use crate::Failed;

/// Bytes that come from outside, as the lines of a script do.
///
/// A call that answers `Failed` took nothing, and is counted in `faults`.
pub trait Source {
    /// The bytes that are still to be read, where they are observable.
    ghost left: { Self → Option (List ℕ) };

    /// The error counter of the input.
    ghost faults: { Self → ℕ };

    /// Moves bytes of what is left into a prefix of `out`. Where none are moved into a buffer that isn't empty, the input is at its end.
    fn take(&mut self, out: &mut [u8]) -> Result<usize, Failed>
        ensures within { IfOk result (λ n. n ≤ length out.old) }
        ensures left { IfOk result (λ n. left self.new ≡ option_map (drop n) (left self.old)) }
        ensures bytes { IfOk result (λ n. ForSome (left self.old) (λ bytes. Moves bytes out.old out.new n)) }
        ensures stays { OnErr result (left self.new ≡ left self.old) }
        ensures later { faults self.old ≤ faults self.new }
        ensures failed { OnErr result (Rises (faults self.old) (faults self.new)) };
}

/// An output, to which bytes are printed.
///
/// An output may gather bytes, as long as it isn't flushed; those that it holds count as written. A call that answers `Failed` may have written a prefix of its
/// bytes, and is counted in `faults`.
pub trait Sink {
    /// The identity of the output, which no call changes: so an output that was lent to a call is known to be the same after it.
    ghost is: { Self → List ℕ };

    /// The bytes that were written, where they are observable.
    ghost written: { Self → Option (List ℕ) };

    /// Whether bytes wait to be handed on.
    ghost waiting: { Self → Bool };

    /// The error counter of the output.
    ghost faults: { Self → ℕ };

    /// Writes all the bytes, or a prefix of them where it fails.
    fn put(&mut self, bytes: &[u8]) -> Result<(), Failed>
        ensures steps { OnOk result (written self.new ≡ option_map (λ w. w ++ bytes.now) (written self.old)) }
        ensures prefix { Appends (written self.old) (written self.new) bytes.now }
        ensures later { GoesOn is faults self.old self.new }
        ensures failed { OnErr result (Rises (faults self.old) (faults self.new)) };

    /// Hands on the bytes that are held, at the end of a text. Nothing more is written.
    fn flush(&mut self) -> Result<(), Failed>
        ensures stays { written self.new ≡ written self.old }
        ensures handed { OnOk result (waiting self.new ≡ false) }
        ensures later { GoesOn is faults self.old self.new }
        ensures failed { OnErr result (Rises (faults self.old) (faults self.new)) };
}

/// A clock, which is read in microseconds since 1970.
pub trait Clock {
    /// The readings to come, where they are observable.
    ghost readings: { Self → Option Readings };

    /// The next reading, in microseconds since 1970. It may be less than the one before.
    fn now(&mut self) -> u64
        ensures reading { ForSome (readings self.old) (λ r. result ≡ reading_of r) }
        ensures later { readings self.new ≡ option_map later_of (readings self.old) };
}
