// The counts of the calls on an object in memory, and the calls that are to fail.
ghost use Rattle.std.specs.Prelude.{◌≡◌, ◌≤◌, ◌==◌, find, OnOk, OnErr, is_err};
ghost use Rattle.std.specs.Option.{option_map};
ghost use Rattle.spec_image.specs.Told.{Rises};
ghost use Rattle.blk_io.specs.Counts.{no_calls, with_listed, next_failure, fails_next, CountsCall, begun, failed, lacking};

use crate::{Failed, NoMemory};
use std::alloc::Global;

// A call that is to fail, and how many words of it last.
#[derive(Clone, Copy)]
pub(crate) struct Listed {
    call: u64,
    words: u64,
}

// How many calls were made, ran out of memory and failed, and those that are to fail.
#[derive(Drop)]
pub(crate) struct Calls {
    listed: Vec<Listed>,
    made: u64,
    lacks: u64,
    faults: u64,
}

// How many words of a call last, where it is listed to fail.
fn words_listed(listed: &[Listed], call: u64) -> Option<u64>
    ensures { result ≡ option_map (λ one. one.words) (find (λ one. one.call == call) listed.now) }
{
    listed
        .iter()
        .find(|one| one.call == call)
        .map(|one| one.words)
}

impl Calls {
    ghost use Rattle.blk_io.specs.Calls.{counts_in};

    // No call was made, and none is to fail.
    pub(crate) fn new(alloc: Global) -> Calls
        ensures { counts_in result ≡ no_calls }
    {
        Calls {
            listed: Vec::new(alloc),
            made: 0,
            lacks: 0,
            faults: 0,
        }
    }

    // Lists a call that is to fail, and how many words of it last.
    pub(crate) fn list(&mut self, call: u64, words: u64) -> Result<(), NoMemory>
        ensures done { OnOk result (counts_in self.new ≡ with_listed call words (counts_in self.old)) }
        ensures undone { OnErr result (counts_in self.new ≡ counts_in self.old) }
    {
        match self.listed.push(Listed { call, words }) {
            Ok(()) => Ok(()),
            Err(_) => Err(NoMemory),
        }
    }

    // The number of calls.
    pub(crate) fn made(&self) -> u64
        ensures { result ≡ (counts_in self.now).calls }
    {
        self.made
    }

    // The number of those that ran out of memory.
    pub(crate) fn lacks(&self) -> u64
        ensures { result ≡ (counts_in self.now).lacks }
    {
        self.lacks
    }

    // A call begins: how many words of it last, where it is to fail.
    pub(crate) fn begin(&mut self) -> Option<u64>
        ensures counts { counts_in self.new ≡ begun (counts_in self.old) }
        ensures listed { result ≡ next_failure (counts_in self.old) }
        ensures faults { self.new.faults ≡ self.old.faults }
    {
        self.made = self.made.saturating_add(1);
        words_listed(&self.listed, self.made)
    }

    // Counts a failure.
    pub(crate) fn fail(&mut self) -> Failed
        ensures counts { counts_in self.new ≡ failed (counts_in self.old) }
        ensures later { self.old.faults ≤ self.new.faults }
        ensures rises { Rises self.old.faults self.new.faults }
    {
        self.faults = self.faults.saturating_add(1);
        Failed
    }

    // Counts a call that ran out of memory, which is a failure too.
    pub(crate) fn lack(&mut self) -> Failed
        ensures counts { counts_in self.new ≡ lacking (counts_in self.old) }
        ensures later { self.old.faults ≤ self.new.faults }
        ensures rises { Rises self.old.faults self.new.faults }
    {
        self.lacks = self.lacks.saturating_add(1);
        self.fail()
    }

    // A call begins, and fails where it is listed.
    pub(crate) fn pass(&mut self) -> Result<(), Failed>
        ensures counted { CountsCall (counts_in self.old) (counts_in self.new) (is_err result) (fails_next (counts_in self.old)) }
        ensures exact { is_err result ≡ fails_next (counts_in self.old) }
        ensures lacks { self.new.lacks ≡ self.old.lacks }
        ensures later { self.old.faults ≤ self.new.faults }
        ensures failed { OnErr result (Rises self.old.faults self.new.faults) }
    {
        match self.begin() {
            Some(_) => Err(self.fail()),
            None => Ok(()),
        }
    }
}
