// Sessions over an opaque folder in memory, by the lines of a script.
use blk_audit::ScanFault;
use blk_cache::{Cache, StepFault};
use blk_io::{Folder, MemSink, Sink};
use blk_model::{Answer, Command, Limits};
use blk_script::read_line;
use std::alloc::Global;
use std::test::Fail;
use test_folders::folders::audited;
use test_folders::found::found;
use test_folders::stopping::{Mem, again};

/// The limits that the program has where it is given none.
pub const LIMITS: Limits = Limits {
    max_bytes: 83_886_080,
    max_items: 65_536,
};

// The moment of each command.
const MOMENT: u64 = 100;

// The most bytes of a line.
const LONGEST: usize = 400;

/// A session over a folder: the folder, the cache, and what was printed.
#[derive(Drop)]
pub struct Session {
    pub f: Mem,
    pub cache: Cache,
    pub out: MemSink,
}

impl Session {
    /// A session over a folder, with these limits.
    pub fn over(alloc: Global, f: Mem, limits: Limits) -> Result<Session, Fail> {
        let mut f = f;
        let cache = Cache::start(alloc, &mut f, limits, MOMENT)?;
        Ok(Session {
            f,
            cache,
            out: MemSink::new(alloc),
        })
    }

    /// Does a command. Gives its answer and the number of its folder calls.
    pub fn step(&mut self, command: &Command) -> Result<(Answer, u64), StepFault> {
        let start = self.f.calls();
        let answer = self
            .cache
            .step(&mut self.f, &mut self.out, MOMENT, command)?;
        Ok((answer, self.f.calls().wrapping_sub(start)))
    }

    /// Does the command of a line. Gives the number of its folder calls.
    pub fn line(&mut self, line: &[u8]) -> Result<u64, StepFault> {
        let mut buffer = [0u8; LONGEST];
        if line.len() > LONGEST {
            return Err(StepFault::Device);
        }
        match read_line(line, &mut buffer) {
            Ok(command) => {
                let (_, calls) = self.step(&command)?;
                Ok(calls)
            }
            Err(_) => Err(StepFault::Device),
        }
    }

    /// Does the commands of some lines.
    pub fn run(&mut self, lines: &[&[u8]]) -> Result<(), StepFault> {
        for line in lines {
            self.line(line)?;
        }
        Ok(())
    }
}

/// What is held: the number of the entries that are kept, the sum of their costs, and the hash of their keys and data
/// in the order of the list.
pub type Held = (u64, u64, u64);

/// Checks a folder. Gives what it holds.
pub fn held(alloc: Global, f: Mem) -> Result<Held, ScanFault> {
    let mut f = again(f, u64::MAX);
    let scan = audited(alloc, &mut f)?;
    Ok((scan.items(), scan.bytes(), found(&mut f, &scan)?))
}
