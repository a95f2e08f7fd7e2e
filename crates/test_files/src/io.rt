// Examples on the objects in memory.
use crate::same::{assert_same, assert_same_at};
use blk_io::{
    Clock, Failed, Fault, FileId, Folder, ListClock, MemFolder, MemSink, MemSource, NoMemory,
    SilentFolder, Sink, Source, StopFolder, read_word, write_run, write_words,
};
use std::alloc::Global;
use std::test::Fail;

// Writes over bytes of the index, where it has them.
fn write_inside<F: Folder>(f: &mut F, at: u64, bytes: &[u8]) -> Result<(), Failed> {
    match f.length(FileId::Index)? {
        Some(n) if at <= n && bytes.len() as u64 <= n - at => f.write_at(FileId::Index, at, bytes),
        _ => Err(Failed),
    }
}

// A folder whose index has eight zeros.
fn eight_zeros(alloc: Global) -> Result<MemFolder, NoMemory> {
    let mut f = MemFolder::new(alloc);
    f.add_file(FileId::Index, &[0; 8])?;
    Ok(f)
}

// The files after so many steps, where there are so many.
fn image_at(f: &MemFolder, steps: u64) -> Result<MemFolder, NoMemory> {
    match f.steps() {
        Some(n) if steps <= n => f.image(steps),
        _ => Err(NoMemory),
    }
}

// Five steps: two words, a new file, a note, the file's end.
fn run<F: Folder>(f: &mut F) -> Result<(), Failed> {
    write_inside(f, 2, &[1, 2, 3, 4, 5])?;
    f.set_len(FileId::External(3), 4)?;
    f.note(1)?;
    f.delete(FileId::External(3))
}

// Whether the index has these bytes, and the external file this length.
fn holds<F: Folder>(f: &mut F, bytes: &[u8], external: Option<u64>) -> Result<bool, Failed> {
    let mut out = [9; 16];
    let n = f.read_at(FileId::Index, 0, &mut out)?;
    Ok(&out[..n] == bytes && f.length(FileId::External(3))? == external)
}

// A write that fails with so many words written: what it answers, and the calls, failed allocations and steps then.
fn fail_write(
    f: &mut MemFolder,
    words: u64,
) -> Result<(Result<(), Failed>, [u64; 2], Option<u64>), NoMemory> {
    f.fail_at(2, words)?;
    let answer = write_inside(f, 2, &[1, 2, 3, 4, 5]);
    Ok((answer, [f.calls(), f.lacks()], f.steps()))
}

// Whether the index has these bytes, and all of the write's after it is made again.
fn holds_and_is_written(f: &mut MemFolder, bytes: &[u8]) -> Result<[bool; 2], Failed> {
    let before = holds(f, bytes, None)?;
    write_inside(f, 2, &[1, 2, 3, 4, 5])?;
    Ok([before, holds(f, &[0, 0, 1, 2, 3, 4, 5, 0], None)?])
}

#[test]
fn a_listed_write_lasts_in_part(rt: HostRuntime) -> Result<(), Fail> {
    for (words, bytes) in [(0, [0, 0, 0, 0, 0, 0, 0, 0]), (1, [0, 0, 1, 2, 0, 0, 0, 0])] {
        let mut f = eight_zeros(rt.alloc())?;
        let failed = (Err(Failed), [2, 0], Some(words));
        assert_same(&rt, fail_write(&mut f, words), Ok(failed));
        assert_same(&rt, holds_and_is_written(&mut f, &bytes), Ok([true, true]));
    }
    Ok(())
}

// Writes two words after the first of the index, where they fit.
fn write_two<F: Folder>(f: &mut F) -> Result<(), Failed> {
    match f.length(FileId::Index)? {
        Some(n) if n >= 12 => write_run(f, FileId::Index, 4, &[0x0403_0201, 5]),
        _ => Err(Failed),
    }
}

// Writes them, and counts: the calls and the steps.
fn counted_two(f: &mut MemFolder) -> Result<(u64, Option<u64>), Failed> {
    write_two(f)?;
    Ok((f.calls(), f.steps()))
}

#[test]
fn neighbouring_words_are_written_by_one_call(rt: HostRuntime) -> Result<(), Fail> {
    let mut f = MemFolder::new(rt.alloc());
    f.add_file(FileId::Index, &[9; 16])?;
    assert_same(&rt, counted_two(&mut f), Ok((2, Some(2))));
    let bytes = [9, 9, 9, 9, 1, 2, 3, 4, 5, 0, 0, 0, 9, 9, 9, 9];
    assert_same(&rt, holds(&mut f, &bytes, None), Ok(true));
    Ok(())
}

// The words of an index of zeros once fourteen are written, each its number: three side by side, ten side by side, and one
// apart.
const FOURTEEN: [u32; 18] = [0, 1, 2, 3, 0, 4, 5, 6, 7, 8, 9, 10, 11, 12, 13, 0, 14, 0];

// Writes the fourteen words.
fn write_fourteen(f: &mut SilentFolder<MemFolder>) -> Result<(), Failed> {
    let words = [
        (4, 1),
        (8, 2),
        (12, 3),
        (20, 4),
        (24, 5),
        (28, 6),
        (32, 7),
        (36, 8),
        (40, 9),
        (44, 10),
        (48, 11),
        (52, 12),
        (56, 13),
        (64, 14),
    ];
    write_words(f, FileId::Index, &words)
}

// Whether the index has so many of the fourteen, from the first on, and zeros.
fn has_front(f: &mut MemFolder, count: u64) -> Result<bool, Fault> {
    let front = FOURTEEN.map(|word: u32| -> u32 {
        if u64::from(word) <= count { word } else { 0 }
    });
    let mut words = [0; 18];
    for (slot, number) in words.iter_mut().zip(0..18u64) {
        *slot = read_word(f, FileId::Index, number.wrapping_mul(4))?;
    }
    Ok(words == front)
}

// A folder whose index has zeros. In the folder inside it the call with a number fails, with so many of its words written.
fn zeros_failing(
    alloc: Global,
    call: u64,
    words: u64,
) -> Result<SilentFolder<MemFolder>, NoMemory> {
    let mut f = MemFolder::new(alloc);
    f.add_file(FileId::Index, &[0; 72])?;
    f.fail_at(call, words)?;
    Ok(SilentFolder::new(f))
}

#[test]
fn at_most_eight_words_side_by_side_are_written_by_one_call(rt: HostRuntime) -> Result<(), Fail> {
    let mut f = zeros_failing(rt.alloc(), u64::MAX, 0)?;

    // One call writes three words, two write ten, and one writes one.
    assert_same(&rt, (write_fourteen(&mut f), f.calls()), (Ok(()), 4));
    let mut f = f.into_inner();
    assert_same(
        &rt,
        (f.steps(), has_front(&mut f, 14)),
        (Some(14), Ok(true)),
    );
    for count in 0..14 {
        let mut image = image_at(&f, count)?;
        assert_same_at(&rt, has_front(&mut image, count), Ok(true), count);
    }
    Ok(())
}

#[test]
fn words_side_by_side_last_in_part(rt: HostRuntime) -> Result<(), Fail> {
    // The second of the writes fails, of eight words: the fourth call inside, where each write looks at the length first.
    for words in [0, 1, 7, 8] {
        let mut f = zeros_failing(rt.alloc(), 4, words)?;
        assert_same(&rt, (write_fourteen(&mut f), f.calls()), (Err(Failed), 2));
        let mut f = f.into_inner();
        let steps = words.wrapping_add(3);
        assert_same(
            &rt,
            (f.steps(), has_front(&mut f, steps)),
            (Some(steps), Ok(true)),
        );
    }
    Ok(())
}

// The answers of a look and of a write of no bytes.
fn answers(f: &mut StopFolder) -> [bool; 2] {
    [
        f.length(FileId::Index) == Err(Failed),
        f.write_at(FileId::Index, 0, &[]) == Err(Failed),
    ]
}

// Whether the five steps are made where so many pass, whether other calls fail then, and the folder.
fn stopped(alloc: Global, steps: u64) -> Result<(bool, [bool; 2], MemFolder), NoMemory> {
    let mut f = StopFolder::new(eight_zeros(alloc)?, steps);
    let done = run(&mut f).is_ok();
    let fails = answers(&mut f);
    Ok((done, fails, f.into_inner()))
}

#[test]
fn a_stop_leaves_the_image_after_its_steps(rt: HostRuntime) -> Result<(), Fail> {
    let after = [
        (0, [0, 0, 0, 0, 0, 0, 0, 0], None),
        (1, [0, 0, 1, 2, 0, 0, 0, 0], None),
        (2, [0, 0, 1, 2, 3, 4, 5, 0], None),
        (3, [0, 0, 1, 2, 3, 4, 5, 0], Some(4)),
        (4, [0, 0, 1, 2, 3, 4, 5, 0], Some(4)),
        (5, [0, 0, 1, 2, 3, 4, 5, 0], None),
    ];
    let mut f = eight_zeros(rt.alloc())?;
    assert_same(&rt, (run(&mut f), f.steps()), (Ok(()), Some(5)));
    for (steps, bytes, external) in after {
        let mut image = image_at(&f, steps)?;
        assert_same(&rt, (image.steps(), image.calls()), (Some(0), 0));
        let held = holds(&mut image, &bytes, external);
        assert_same_at(&rt, held, Ok(true), format_args!("the image at {steps}"));
        let (done, fails, mut inner) = stopped(rt.alloc(), steps)?;
        assert_same(&rt, (done, fails), (steps == 5, [true; 2]));
        assert_same(&rt, inner.steps(), Some(steps));
        let held = holds(&mut inner, &bytes, external);
        assert_same_at(&rt, held, Ok(true), format_args!("stopped at {steps}"));
    }
    Ok(())
}

#[test]
fn files_are_listed_in_their_order(rt: HostRuntime) -> Result<(), Fail> {
    let mut f = MemFolder::without_trail(rt.alloc());
    'adding: for file in [
        FileId::External(2),
        FileId::Block(1),
        FileId::Index,
        FileId::External(0),
        FileId::Block(0),
        FileId::Index,
    ] {
        f.add_file(file, b"x")?;
    }
    assert_same(&rt, f.steps(), None);
    let mut last = None;
    for file in [
        FileId::Index,
        FileId::Block(0),
        FileId::Block(1),
        FileId::External(0),
        FileId::External(2),
    ] {
        last = f.list(last)?;
        assert_same(&rt, last, Some(file));
    }
    assert_same(&rt, f.list(last), Ok(None));
    Ok(())
}

#[test]
fn sources_fail_where_they_are_listed(rt: HostRuntime) -> Result<(), Fail> {
    let mut source = MemSource::new(rt.alloc(), b"abc")?;
    source.fail_at(2)?;
    let mut out = [0; 2];
    for (answer, bytes) in [
        (Ok(2), *b"ab"),
        (Err(Failed), *b"ab"),
        (Ok(1), *b"cb"),
        (Ok(0), *b"cb"),
    ] {
        assert_same(&rt, source.take(&mut out), answer);
        assert_same(&rt, out, bytes);
    }
    Ok(())
}

#[test]
fn sinks_fail_where_they_are_listed(rt: HostRuntime) -> Result<(), Fail> {
    let mut sink = MemSink::new(rt.alloc());
    sink.fail_at(2)?;
    for (bytes, answer) in [(b"one", Ok(())), (b"two", Err(Failed)), (b"six", Ok(()))] {
        assert_same(&rt, sink.put(bytes), answer);
    }
    assert_same(&rt, sink.written(), b"onesix");
    assert_same(&rt, sink.lacks(), 0);
    Ok(())
}

#[test]
fn a_clock_repeats_its_last_reading(rt: HostRuntime) -> Result<(), Fail> {
    let readings: [&[u64]; 2] = [&[3, 5], &[]];
    for (i, wanted) in [[3, 5, 5, 5], [0; 4]].iter().enumerate() {
        let mut clock = ListClock::new(rt.alloc(), readings[i])?;
        assert_same(&rt, four_of(&mut clock), *wanted);
    }
    Ok(())
}

// Four readings of a clock.
fn four_of(clock: &mut ListClock) -> [u64; 4] {
    [clock.now(), clock.now(), clock.now(), clock.now()]
}

#[test]
fn a_silent_folder_passes_its_calls_on(rt: HostRuntime) -> Result<(), Fail> {
    let mut f = SilentFolder::new(eight_zeros(rt.alloc())?);
    assert_same(&rt, (run(&mut f), f.calls()), (Ok(()), 5));
    let past = f.write_at(FileId::Index, 5, &[1, 2, 3, 4]);
    assert_same(&rt, (past, f.calls()), (Err(Failed), 6));
    let held = holds(&mut f, &[0, 0, 1, 2, 3, 4, 5, 0], None);
    assert_same(&rt, held, Ok(true));
    Ok(())
}
