// What is drawn from a seed, and what is counted.
use crate::same::assert_same;
use blk_gen::{Counts, Draws, Turn, fill};
use blk_io::MemSink;
use blk_model::{Answer, Refusal};

#[test]
fn the_draws_of_the_seed_0(rt: HostRuntime) {
    let mut draws = Draws::new(0);
    for draw in [167_951_807, 218_396_424, 1_299_921_937] {
        assert_same(&rt, draws.draw(), draw);
    }
}

#[test]
fn values_wrap_at_64_bits(rt: HostRuntime) {
    let mut draws = Draws::new(u64::MAX);
    for value in [
        13_525_302_890_751_722_018,
        12_801_857_353_207_693_129,
        10_372_369_020_401_571_876,
    ] {
        let draw = draws.draw();
        assert_same(&rt, draws.value, value);
        assert_same(&rt, u64::from(draw), value >> 33);
    }
}

#[test]
fn a_turn_draws_a_key_a_stream_and_a_length(rt: HostRuntime) {
    let mut draws = Draws::new(0);
    let turn = draws.turn();
    let first = Turn {
        key_number: 807,
        stream: 0,
        byte_count: 16945,
    };
    assert_same(&rt, turn, first);
    let mut buffer = [0; 4];
    assert_same(&rt, turn.key(&mut buffer), b"k807");
}

#[test]
fn keys_have_no_zeros_in_front(rt: HostRuntime) {
    for (key_number, key) in [(0, b"k0".as_slice()), (42, b"k42".as_slice())] {
        let turn = Turn {
            key_number,
            stream: 0,
            byte_count: 0,
        };
        let mut buffer = [0; 4];
        assert_same(&rt, turn.key(&mut buffer), key);
    }
}

#[test]
fn data_counts_up_from_the_number_of_the_turn(rt: HostRuntime) {
    let mut bytes = [0; 3];
    fill(510, &mut bytes);
    assert_same(&rt, bytes, [254, 255, 0]);
}

#[test]
fn commands_are_counted_and_printed(rt: HostRuntime) {
    let mut counts = Counts::new();
    counts.count(&Answer::Refused(Refusal::Missing), 0);
    counts.count(&Answer::Done, 0);
    counts.count(&Answer::Wrote(16945), 2);
    counts.count(&Answer::Bytes(16945), 0);
    counts.count(&Answer::Done, 0);
    let mut out = MemSink::new(rt.alloc());
    assert_same(&rt, counts.print_counts(&mut out), Ok(()));
    let line = b"commands 5 refused 1 evicted 2 read 16945\n";
    assert_same(&rt, out.written(), line.as_slice());
}
