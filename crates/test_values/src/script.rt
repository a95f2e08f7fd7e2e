use crate::same::{assert_same, assert_same_at};
use blk_io::{Failed, MemSink, Sink};
use blk_model::{Answer, Command, Refusal};
use blk_script::{
    Field, LineFault, print_bytes, print_fields, print_key, print_line, print_number, print_reply,
    read_line,
};
use std::alloc::Global;
use std::process::Abort;
use std::test::Fail;

// Reads a short line, and compares what it says.
fn says(rt: &impl Abort, line: &str, want: Result<Command, LineFault>) {
    let mut buffer = [0; 64];
    assert!(rt; line.len() <= buffer.len());
    assert_same_at(rt, read_line(line.as_bytes(), &mut buffer), want, line);
}

#[test]
fn six_faulty_lines(rt: HostRuntime) {
    for (line, fault) in [
        ("", LineFault::Empty),
        ("fly 1", LineFault::UnknownWord),
        ("create 0", LineFault::FieldCount),
        ("create x a", LineFault::Number),
        ("write 0 0 0 6", LineFault::Hex),
        ("create 0 a%2", LineFault::Key),
    ] {
        says(&rt, line, Err(fault));
    }
}

#[test]
fn lines_without_a_word(rt: HostRuntime) {
    for line in [
        " ",
        "  ",
        " list",
        "List",
        "lists",
        "lis",
        "create1 a",
        "-",
        "FLUSH 0",
        "flushh 0",
    ] {
        says(&rt, line, Err(LineFault::UnknownWord));
    }
}

#[test]
fn lines_with_another_number_of_fields(rt: HostRuntime) {
    for line in [
        "list ",
        "total 1",
        "trim",
        "trim 1 ",
        "doom",
        "close 1 2",
        "flush",
        "flush 0 1",
        "doomkey",
        "open 65535",
        "create 0 a b",
        "create 1  a",
        "size 0",
        "sread 0 0",
        "srange 0 0 1 2",
        "swrite x 0",
        "write 0 0 0",
        "cut 0 0 0 - -",
    ] {
        says(&rt, line, Err(LineFault::FieldCount));
    }
}

#[test]
fn lines_with_a_wrong_number(rt: HostRuntime) {
    for line in [
        "create 65536 a",
        "create 00 a",
        "create 01 a",
        "create +1 a",
        "create -1 a",
        "create  a",
        "create x %",
        "size 0 256",
        "size 256 x",
        "read 0 0 00 1",
        "read 0 0 0 18446744073709551616",
        "read 0 0 18446744073709551616 x",
        "trim 184467440737095516150",
        "trim 99999999999999999999999999999999",
        "trim 0x1",
        "trim ",
        "flush x",
        "flush -1",
        "flush 00",
        "flush 65536",
        "flush ",
        "cut 0 256 0 6",
        "write x 0 0 6",
    ] {
        says(&rt, line, Err(LineFault::Number));
    }
}

#[test]
fn lines_with_wrong_data(rt: HostRuntime) {
    for line in [
        "write 0 0 0 ",
        "write 0 0 0 0g",
        "write 0 0 0 --",
        "write 0 0 0 -0",
        "cut 0 0 0 123",
        "swrite 0 0 6",
    ] {
        says(&rt, line, Err(LineFault::Hex));
    }
}

#[test]
fn lines_with_a_wrong_key(rt: HostRuntime) {
    for line in [
        "create 0 %",
        "create 0 a%",
        "create 0 %4",
        "create 0 %4g",
        "create 0 %%41",
        "open 0 a\x7f",
        "open 0 a\t",
        "doomkey a\x1f",
        "doomkey \u{80}",
    ] {
        says(&rt, line, Err(LineFault::Key));
    }
}

#[test]
fn lines_that_say_keys(rt: HostRuntime) {
    for (line, key) in [
        ("doomkey a", b"a".as_slice()),
        ("doomkey ", b"".as_slice()),
        ("doomkey !~", b"!~".as_slice()),
        ("doomkey a%20b", b"a b".as_slice()),
        ("doomkey %41%7e%7E%25", b"A~~%".as_slice()),
        ("doomkey %00%fF", [0, 255].as_slice()),
    ] {
        says(&rt, line, Ok(Command::DoomKey { key }));
    }
}

#[test]
fn lines_that_say_data(rt: HostRuntime) {
    for (line, bytes) in [
        ("swrite 65535 18446744073709551615 -", b"".as_slice()),
        ("swrite 65535 18446744073709551615 00", [0].as_slice()),
        (
            "swrite 65535 18446744073709551615 0aFF",
            [10, 255].as_slice(),
        ),
        (
            "swrite 65535 18446744073709551615 aBCdef",
            [0xAB, 0xCD, 0xEF].as_slice(),
        ),
    ] {
        says(
            &rt,
            line,
            Ok(Command::SparseWrite {
                handle: 65535,
                offset: 18446744073709551615,
                bytes,
            }),
        );
    }
}

// The number of bytes of the key or the data that a line says, where there is space for the line.
fn length_of(line: &[u8], buffer: &mut [u8]) -> Option<Result<usize, LineFault>> {
    if line.len() > buffer.len() {
        return None;
    }
    match read_line(line, buffer) {
        Ok(Command::DoomKey { key }) => Some(Ok(key.len())),
        Ok(Command::SparseWrite { bytes, .. }) => Some(Ok(bytes.len())),
        Ok(_) => None,
        Err(fault) => Some(Err(fault)),
    }
}

#[test]
fn lines_are_bounded(rt: HostRuntime) -> Result<(), Fail> {
    let mut line = Vec::from_slice(rt.alloc(), b"doomkey ")?;
    line.resize(2200000, b'a')?;
    let mut buffer = vec![in rt.alloc(); 0; 2200001]?;
    assert_same(&rt, length_of(&line, &mut buffer), Some(Ok(2199992)));
    line.push(b'a')?;
    let fault = Some(Err(LineFault::TooLong));
    assert_same(&rt, length_of(&line, &mut buffer), fault);
    Ok(())
}

#[test]
fn data_is_bounded(rt: HostRuntime) -> Result<(), Fail> {
    let mut line = Vec::from_slice(rt.alloc(), b"swrite 0 0 ")?;
    line.resize(2097163, b'6')?;
    let mut buffer = vec![in rt.alloc(); 0; 2200000]?;
    assert_same(&rt, length_of(&line, &mut buffer), Some(Ok(1048576)));

    // The digits are not looked at, but the fields in front are.
    line.push(b'x')?;
    let fault = Some(Err(LineFault::TooLong));
    assert_same(&rt, length_of(&line, &mut buffer), fault);
    if let Some(byte) = line.get_mut(7) {
        *byte = b'x';
    }
    let fault = Some(Err(LineFault::Number));
    assert_same(&rt, length_of(&line, &mut buffer), fault);
    Ok(())
}

// Prints a command, compares the line, and reads it again.
fn prints(rt: &impl Abort, alloc: Global, command: Command, want: &str) {
    let mut out = MemSink::new(alloc);
    assert_same(rt, print_line(&mut out, &command), Ok(()));
    let text = out.written();
    assert_same(rt, text, want.as_bytes());
    let mut buffer = [0; 64];
    if let Some((_, line)) = text.split_last() {
        assert!(rt; line.len() <= buffer.len());
        assert_same_at(rt, read_line(line, &mut buffer), Ok(command), want);
    }
}

#[test]
fn commands_with_keys_are_printed(rt: HostRuntime) {
    let (plain, odd) = (b"a b".as_slice(), b"-._~/:%\x00\xFFzZ9".as_slice());
    for (command, want) in [
        (
            Command::Create {
                handle: 7,
                key: plain,
            },
            "create 7 a%20b\n",
        ),
        (
            Command::Open {
                handle: 0,
                key: odd,
            },
            "open 0 -._~/:%25%00%FFzZ9\n",
        ),
        (Command::DoomKey { key: b"" }, "doomkey \n"),
    ] {
        prints(&rt, rt.alloc(), command, want);
    }
}

#[test]
fn commands_with_numbers_are_printed(rt: HostRuntime) {
    let read = Command::Read {
        handle: 65535,
        stream: 255,
        offset: 18446744073709551615,
        count: 10,
    };
    let (handle, offset, count) = (1, 20, 300);
    let sparse_read = Command::SparseRead {
        handle,
        offset,
        count,
    };
    let sparse_range = Command::SparseRange {
        handle,
        offset,
        count,
    };
    for (command, want) in [
        (read, "read 65535 255 18446744073709551615 10\n"),
        (sparse_read, "sread 1 20 300\n"),
        (sparse_range, "srange 1 20 300\n"),
        (Command::Size { handle, stream: 2 }, "size 1 2\n"),
        (Command::Doom { handle }, "doom 1\n"),
        (Command::Close { handle }, "close 1\n"),
        (Command::Flush { handle }, "flush 1\n"),
        (Command::Trim { bytes: 0 }, "trim 0\n"),
        (Command::List, "list\n"),
        (Command::Total, "total\n"),
    ] {
        prints(&rt, rt.alloc(), command, want);
    }
}

#[test]
fn commands_with_data_are_printed(rt: HostRuntime) {
    let (handle, stream, offset) = (1, 2, 3);
    let bytes = [10, 255].as_slice();
    let write = Command::Write {
        handle,
        stream,
        offset,
        cut: false,
        bytes,
    };
    let cut = Command::Write {
        handle,
        stream,
        offset,
        cut: true,
        bytes: b"",
    };
    let sparse_write = Command::SparseWrite {
        handle,
        offset,
        bytes,
    };
    for (command, want) in [
        (write, "write 1 2 3 0aff\n"),
        (cut, "cut 1 2 3 -\n"),
        (sparse_write, "swrite 1 3 0aff\n"),
    ] {
        prints(&rt, rt.alloc(), command, want);
    }
}

// Prints an answer, and compares the line.
fn replies(rt: &impl Abort, alloc: Global, answer: Answer, want: &str) {
    let mut out = MemSink::new(alloc);
    if let Answer::Bytes(_) = answer {
        return;
    }
    assert_same(rt, print_reply(&mut out, &answer), Ok(()));
    assert_same(rt, out.written(), want.as_bytes());
}

#[test]
fn answers_are_printed(rt: HostRuntime) {
    let range = Answer::Range {
        start: 1024,
        length: 127,
    };
    for (answer, want) in [
        (Answer::Done, "ok\n"),
        (Answer::Wrote(12), "ok 12\n"),
        (Answer::Trimmed(0), "ok 0\n"),
        (Answer::Size(20001), "size 20001\n"),
        (range, "range 1024 127\n"),
        (Answer::Listed(3), "end 3\n"),
        (Answer::Totals { items: 2, bytes: 4 }, "total 2 4\n"),
    ] {
        replies(&rt, rt.alloc(), answer, want);
    }
}

#[test]
fn refusals_are_printed(rt: HostRuntime) {
    for (why, want) in [
        (Refusal::BadHandle, "refused 1 BadHandle\n"),
        (Refusal::HandleBusy, "refused 2 HandleBusy\n"),
        (Refusal::Missing, "refused 3 Missing\n"),
        (Refusal::Exists, "refused 4 Exists\n"),
        (Refusal::BadStream, "refused 5 BadStream\n"),
        (Refusal::TooLarge, "refused 6 TooLarge\n"),
        (Refusal::NotSparse, "refused 7 NotSparse\n"),
        (Refusal::SparseStream, "refused 8 SparseStream\n"),
        (Refusal::RangeEnd, "refused 9 RangeEnd\n"),
        (Refusal::Doomed, "refused 10 Doomed\n"),
        (Refusal::Full, "refused 11 Full\n"),
        (Refusal::Memory, "refused 12 Memory\n"),
        (Refusal::BadKey, "refused 13 BadKey\n"),
        (Refusal::NoHandle, "refused 14 NoHandle\n"),
    ] {
        replies(&rt, rt.alloc(), Answer::Refused(why), want);
    }
}

#[test]
fn faults_are_printed(rt: HostRuntime) -> Result<(), Fail> {
    for (fault, want) in [
        (LineFault::Empty, "fault 9 1 Empty\n"),
        (LineFault::UnknownWord, "fault 9 2 UnknownWord\n"),
        (LineFault::FieldCount, "fault 9 3 FieldCount\n"),
        (LineFault::Number, "fault 9 4 Number\n"),
        (LineFault::Hex, "fault 9 5 Hex\n"),
        (LineFault::Key, "fault 9 6 Key\n"),
        (LineFault::TooLong, "fault 9 7 TooLong\n"),
    ] {
        let mut out = MemSink::new(rt.alloc());
        let fields = [
            Field::Word("fault"),
            Field::Number(9),
            Field::Number(fault.number().into()),
            Field::Word(fault.name()),
        ];
        assert_same(&rt, print_fields(&mut out, &fields), Ok(()));
        assert_same(&rt, out.written(), want.as_bytes());
    }
    Ok(())
}

// Prints a number, a key, no bytes and some bytes.
fn print_parts<K: Sink>(out: &mut K, bytes: &[u8]) -> Result<(), Failed> {
    print_number(out, 18446744073709551615)?;
    print_key(out, b"k %")?;
    print_bytes(out, b"")?;
    print_bytes(out, bytes)
}

#[test]
fn parts_are_printed(rt: HostRuntime) -> Result<(), Fail> {
    let mut out = MemSink::new(rt.alloc());
    assert_same(&rt, print_parts(&mut out, &[0xA5; 300]), Ok(()));
    let mut want = Vec::from_slice(rt.alloc(), b"18446744073709551615k%20%25")?;
    for _ in 0..300 {
        want.extend_from_slice(b"a5")?;
    }
    assert_same(&rt, out.written(), want.as_slice());
    Ok(())
}

#[test]
fn a_sink_fails_in_the_middle(rt: HostRuntime) -> Result<(), Fail> {
    let mut out = MemSink::new(rt.alloc());
    out.fail_at(3).ok().ok_or("memory")?;
    let command = Command::Doom { handle: 12 };
    for (answer, text) in [
        (Err(Failed), b"doom ".as_slice()),
        (Ok(()), b"doom doom 12\n".as_slice()),
    ] {
        assert_same(&rt, print_line(&mut out, &command), answer);
        assert_same(&rt, out.written(), text);
    }
    Ok(())
}
