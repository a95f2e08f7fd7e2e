// Commands, runs and verifications over a folder whose words are computed from their place.
use crate::computed::Computed;
use crate::running::{after, left_by, run_over};
use crate::same::assert_same;
use crate::twelve::BEFORE;
use blk_cache::{Cache, StepFault};
use blk_inspect::{InspectFault, verify};
use blk_io::{MemFolder, MemSink, SilentFolder};
use blk_model::{Command, Limits};
use blk_run::Status;
use std::alloc::Global;
use std::test::Fail;

const LIMITS: Limits = Limits {
    max_bytes: 2_500_000,
    max_items: 5,
};

const MOMENT: u64 = 100;

// How many folders are tried, each with words of its own.
const SEEDS: u64 = 12;

const BYTES: [u8; 3000] = [b'z'; 3000];

// Makes a plain object and a sparse one of two parts that stay open, and one that is closed.
const MAKING: [Command<'static>; 8] = [
    Command::Create {
        handle: 0,
        key: b"a",
    },
    Command::Write {
        handle: 0,
        stream: 0,
        offset: 0,
        cut: false,
        bytes: &BYTES,
    },
    Command::Create {
        handle: 1,
        key: b"b",
    },
    Command::SparseWrite {
        handle: 1,
        offset: 1_047_000,
        bytes: &BYTES,
    },
    Command::Create {
        handle: 2,
        key: b"c",
    },
    Command::Close { handle: 2 },
    Command::Open {
        handle: 3,
        key: b"a",
    },
    Command::Total,
];

// Each of the commands. There is no space for an item more.
const COMMANDS: [Command<'static>; 18] = [
    Command::Flush { handle: 1 },
    Command::Open {
        handle: 4,
        key: b"c",
    },
    Command::Read {
        handle: 0,
        stream: 0,
        offset: 10,
        count: 5000,
    },
    Command::Write {
        handle: 3,
        stream: 1,
        offset: 5000,
        cut: true,
        bytes: &BYTES,
    },
    Command::Size {
        handle: 0,
        stream: 0,
    },
    Command::SparseRead {
        handle: 1,
        offset: 1_047_000,
        count: 1_048_576,
    },
    Command::SparseRange {
        handle: 1,
        offset: 0,
        count: 1_048_576,
    },
    Command::List,
    Command::SparseWrite {
        handle: 1,
        offset: 1_048_000,
        bytes: &BYTES,
    },
    Command::Create {
        handle: 5,
        key: b"d",
    },
    Command::Total,
    Command::DoomKey { key: b"c" },
    Command::Doom { handle: 1 },
    Command::Trim { bytes: 0 },
    Command::Flush { handle: 0 },
    Command::Close { handle: 0 },
    Command::Close { handle: 1 },
    Command::Close { handle: 3 },
];

// A folder whose words are computed once it turns hostile, over a copy of another.
fn computed(f: &MemFolder, seed: u64) -> Result<Computed, Fail> {
    Ok(Computed::over(SilentFolder::new(after(f, 0)?), seed))
}

// How many of the commands are answered on a folder that is hostile after its opening, how many end with Device, and how many with
// Damaged; or none, where one ends otherwise.
fn ends_of_commands(alloc: Global, start: &MemFolder, seed: u64) -> Result<Option<[u32; 3]>, Fail> {
    let mut f = computed(start, seed)?;
    let mut cache = Cache::start(alloc, &mut f, LIMITS, MOMENT)?;
    let mut out = MemSink::new(alloc);
    for command in &MAKING {
        cache.step(&mut f, &mut out, MOMENT, command)?;
    }
    f.turn();
    let [mut answered, mut failed, mut damaged] = [0u32; 3];
    for command in &COMMANDS {
        match cache.step(&mut f, &mut out, MOMENT, command) {
            Ok(_) => answered = answered.wrapping_add(1),
            Err(StepFault::Device) => failed = failed.wrapping_add(1),
            Err(StepFault::Damaged(_)) => damaged = damaged.wrapping_add(1),
            Err(StepFault::Sink) => return Ok(None),
        }
    }
    Ok(Some([answered, failed, damaged]))
}

#[test]
fn each_command_on_a_computed_folder_is_answered(rt: HostRuntime) -> Result<(), Fail> {
    let start = left_by(rt.alloc(), BEFORE)?;
    let [mut answered, mut failed, mut damaged] = [0u32; 3];
    for seed in 0..SEEDS {
        let ends = ends_of_commands(rt.alloc(), &start, seed)?;
        assert!(rt; ends.is_some(), "seed {seed}");
        let [ok, device, damage] = ends.unwrap_or([0; 3]);
        answered = answered.wrapping_add(ok);
        failed = failed.wrapping_add(device);
        damaged = damaged.wrapping_add(damage);
    }

    // Each of the three comes somewhere.
    assert!(rt;
        answered > 0 && failed > 0 && damaged > 0,
        "{answered}, {failed}, {damaged}"
    );
    Ok(())
}

// The words of runs, and the input of each.
const RUNS: [(&[&str], &[u8]); 7] = [
    (&["count"], b""),
    (&["list"], b""),
    (&["get", "a", "0"], b""),
    (&["put", "a", "0"], b"abc"),
    (&["doom", "b"], b""),
    (&["trim", "0"], b""),
    (
        &["session"],
        b"create 0 d\nwrite 0 0 0 616263\nopen 1 a\nswrite 1 0 6162\nlist\nclose 0\n",
    ),
];

// Makes three entries.
const THREE: &[u8] = b"create 0 a\nwrite 0 0 0 616263\ncreate 1 b\nswrite 1 0 616263\ncreate 2 c\n";

// Whether a run may end so where only the folder is at fault.
fn is_an_end(status: Status) -> bool {
    match status {
        Status::Ok | Status::Refused | Status::Device | Status::Damaged => true,
        Status::Words | Status::Source | Status::Sink | Status::Memory | Status::TooLong => false,
    }
}

#[test]
fn each_run_on_a_computed_folder_ends(rt: HostRuntime) -> Result<(), Fail> {
    let start = left_by(rt.alloc(), THREE)?;
    for seed in 0..SEEDS {
        for (words, input) in RUNS {
            let mut f = computed(&start, seed)?;
            f.turn();
            let (status, _) = run_over(rt.alloc(), &mut f, words, input)?;
            assert!(rt; is_an_end(status), "seed {seed}");
        }
    }
    Ok(())
}

#[test]
fn a_computed_folder_is_verified(rt: HostRuntime) -> Result<(), Fail> {
    let start = left_by(rt.alloc(), THREE)?;
    for seed in 0..SEEDS {
        let mut f = computed(&start, seed)?;
        f.turn();
        let mut out = MemSink::new(rt.alloc());
        match verify(rt.alloc(), &mut f, &mut out) {
            Ok(()) | Err(InspectFault::Device | InspectFault::Damaged(_)) => {}
            Err(fault) => assert_same(&rt, Err(fault), Ok(())),
        }
    }
    Ok(())
}
