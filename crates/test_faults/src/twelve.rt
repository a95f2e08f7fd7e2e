// Twelve commands, of which each changes one entry at the most, with what they print and what is held after each.
use test_folders::inputs::Pieces;
use test_folders::replies::{is_row, replies_in};

// Makes an entry with long streams, and removes it: then the block files are as long as the commands need them.
pub(crate) const BEFORE: &[u8] =
    b"create 0 x\nwrite 0 0 0 78\nwrite 0 1 8255 78\nclose 0\ndoomkey x\n";

// Makes a plain and a sparse entry, of which the second stays open and is flushed, accesses and changes the first, dooms the second and evicts
// the first.
pub(crate) const TWELVE: Pieces<'static> = &[
    (b"create 0 a\nwrite 0 0 0 ", 4500),
    (b"\nclose 0\ncreate 1 b\nswrite 1 1024 ", 4000),
    (
        b"\nflush 1\nopen 2 a\nread 2 0 4498 9\nwrite 2 0 4500 ",
        2000,
    ),
    (b"\nclose 2\ndoomkey b\ntrim 0\n", 0),
];

// The reply to each of them.
const REPLIES: [&[u8]; 12] = [
    b"ok\n",
    b"ok 4500\n",
    b"ok\n",
    b"ok\n",
    b"ok 4000\n",
    b"ok\n",
    b"ok\n",
    b"data 2 7a7a\n",
    b"ok 2000\n",
    b"ok\n",
    b"ok\n",
    b"evicted a\nok 1\n",
];

// Lists of what is held, the last used first.
const NONE: &[u8] = b"end 0\n";

const EMPTY_A: &[u8] = b"main a 0 0 0\nend 1\n";

const A: &[u8] = b"main a 4500 0 0\nend 1\n";

const EMPTY_B_A: &[u8] = b"main b 0 0 0\nmain a 4500 0 0\nend 2\n";

const B_A: &[u8] = b"part b 0 5024\nsparse b 0\nmain a 4500 0 0\nend 3\n";

const A_B: &[u8] = b"main a 4500 0 0\npart b 0 5024\nsparse b 0\nend 3\n";

const B: &[u8] = b"part b 0 5024\nsparse b 0\nend 2\n";

const LONGER_A_B: &[u8] = b"main a 6500 0 0\npart b 0 5024\nsparse b 0\nend 3\n";

const LONGER_A: &[u8] = b"main a 6500 0 0\nend 1\n";

// The durable contents where none of the commands is done, where the first is, the first two, and so on. What a crash inside a
// command may leave is the durable contents before it or after it.
const AT_REST: [&[u8]; 13] = [
    NONE, NONE, NONE, A, A, A, B_A, A_B, A_B, B, LONGER_A_B, LONGER_A, NONE,
];

// What is held where so many of the commands are done, and then each handle that is open is closed.
const CLOSED: [&[u8]; 13] = [
    NONE, EMPTY_A, A, A, EMPTY_B_A, B_A, B_A, A_B, A_B, LONGER_A_B, LONGER_A_B, LONGER_A, NONE,
];

// How many of the replies were printed, where nothing else was but a prefix of the next.
pub(crate) fn replies_to_twelve(printed: &[u8]) -> Option<usize> {
    replies_in(&REPLIES, printed)
}

// Whether this is the list of what a crash may leave after so many commands.
pub(crate) fn is_stop_outcome(done: usize, listed: &[u8]) -> bool {
    is_row(&AT_REST, done, listed) || is_row(&AT_REST, done.wrapping_add(1), listed)
}

// Whether this is the list of what is held after so many commands, and then the closings.
pub(crate) fn is_closed(done: usize, listed: &[u8]) -> bool {
    is_row(&CLOSED, done, listed)
}

// Whether exactly the replies to so many commands were printed.
pub(crate) fn are_replies(done: usize, printed: &[u8]) -> bool {
    let mut rest = printed;
    for reply in REPLIES.iter().take(done) {
        let Some(behind) = rest.strip_prefix(*reply) else {
            return false;
        };
        rest = behind;
    }
    rest.is_empty()
}
