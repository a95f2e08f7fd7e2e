// An output in memory that holds back what it gets until it is flushed.
ghost use Rattle.std.specs.Prelude.{◌≡◌, [], ◌++◌, false, Some, OnOk, OnErr, is_err};
ghost use Rattle.std.specs.Option.{option_map};
ghost use Rattle.spec_image.specs.Told.{Rises};
ghost use Rattle.blk_io.specs.Counts.{no_calls, with_listed, fails_next};
ghost use Rattle.blk_io.specs.Streams.{Appends, GoesOn};

use crate::calls::Calls;
use crate::{Failed, NoMemory, Sink};
use std::alloc::Global;

/// Bytes that were written, and how many of them were handed on: the rest waits for a flush.
#[derive(Drop)]
pub struct HoldingSink {
    bytes: Vec<u8>,
    handed: usize,
    waits: bool,
    flushes: Calls,
}

impl HoldingSink {
    ghost use Rattle.blk_io.specs.HoldingSink.{held_written, held_counts};

    /// An output to which nothing is written yet.
    pub fn new(alloc: Global) -> HoldingSink
        ensures written { held_written result ≡ [] }
        ensures counts { held_counts result ≡ no_calls }
        ensures waits { result.waits ≡ false }
    {
        HoldingSink {
            bytes: Vec::new(alloc),
            handed: 0,
            waits: false,
            flushes: Calls::new(alloc),
        }
    }

    /// Lists a call of `flush` that is to fail, counted from 1.
    pub fn fail_at(&mut self, call: u64) -> Result<(), NoMemory>
        ensures done { OnOk result (held_counts self.new ≡ with_listed call 0 (held_counts self.old)) }
        ensures undone { OnErr result (held_counts self.new ≡ held_counts self.old) }
        ensures written { held_written self.new ≡ held_written self.old }
    {
        self.flushes.list(call, 0)
    }

    /// What was written, whether it was handed on or not.
    pub fn written(&self) -> &[u8]
        ensures { result.now ≡ held_written self.now }
    {
        &self.bytes
    }

    /// How many bytes were handed on by flushes.
    pub fn handed(&self) -> usize {
        self.handed
    }

    /// Whether something was put since the last flush that didn't fail.
    pub fn waits(&self) -> bool
        ensures { result ≡ self.now.waits }
    {
        self.waits
    }
}

impl Sink for HoldingSink {
    ghost use Rattle.blk_io.specs.HoldingSink.{held_written, held_counts};

    ghost is = { λ _. [] };

    ghost written = { λ sink. Some (held_written sink) };

    ghost waiting = { λ sink. sink.waits };

    ghost faults = { λ sink. (held_counts sink).faults };

    // It fails only where memory runs out.
    fn put(&mut self, bytes: &[u8]) -> Result<(), Failed>
        ensures steps { OnOk result (Some (held_written self.new) ≡ option_map (λ w. w ++ bytes.now) (Some (held_written self.old))) }
        ensures prefix { Appends (Some (held_written self.old)) (Some (held_written self.new)) bytes.now }
        ensures later { GoesOn (λ _. []) (λ sink. (held_counts sink).faults) self.old self.new }
        ensures failed { OnErr result (Rises (held_counts self.old).faults (held_counts self.new).faults) }
    {
        match self.bytes.extend_from_slice(bytes) {
            Ok(()) => {
                self.waits = true;
                Ok(())
            }
            Err(_) => Err(self.flushes.lack()),
        }
    }

    // It fails exactly where it is listed, and then hands nothing on.
    fn flush(&mut self) -> Result<(), Failed>
        ensures stays { Some (held_written self.new) ≡ Some (held_written self.old) }
        ensures handed { OnOk result (self.new.waits ≡ false) }
        ensures later { GoesOn (λ _. []) (λ sink. (held_counts sink).faults) self.old self.new }
        ensures failed { OnErr result (Rises (held_counts self.old).faults (held_counts self.new).faults) }
        ensures exact { is_err result ≡ fails_next (held_counts self.old) }
        ensures held { OnErr result (self.new.waits ≡ self.old.waits) }
    {
        self.flushes.pass()?;
        self.handed = self.bytes.len();
        self.waits = false;
        Ok(())
    }
}
