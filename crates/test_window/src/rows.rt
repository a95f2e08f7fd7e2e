// Sessions over a window of two pages, beside the same sessions without one.
use crate::same::assert_same;
use crate::traced::{newly_traced, window_over};
use blk_io::{Folder, ListClock, MemFolder, MemSink, MemSource};
use blk_model::{Limits, MOST_ITEMS};
use blk_run::{Status, session};
use std::alloc::Global;
use std::test::Fail;
use test_folders::inputs::{Pieces, text_of};

// An input limit of more bytes than any of these inputs has.
const BUDGET: u64 = 100_000;

const LIMITS: Limits = Limits {
    max_bytes: 83_886_080,
    max_items: MOST_ITEMS,
};

const THOUSAND: Limits = Limits {
    max_bytes: 1000,
    max_items: MOST_ITEMS,
};

const TWO_ITEMS: Limits = Limits {
    max_bytes: 83_886_080,
    max_items: 2,
};

// A session over an empty folder: its limits and its input, how it ends, and what it prints.
#[derive(Clone, Copy)]
struct Row<'a> {
    limits: Limits,
    input: Pieces<'a>,
    status: Status,
    printed: &'a [u8],
}

// A stream in two blocks.
const TWO_BLOCKS: Row<'static> = Row {
    limits: LIMITS,
    input: &[(
        b"create 0 g\nwrite 0 1 5000 616263\nread 0 1 4998 9\nsize 0 1\n",
        0,
    )],
    status: Status::Ok,
    printed: b"ok\nok 3\ndata 5 0000616263\nsize 5003\n",
};

// A stream in a file of its own, which is cut short.
const LONG_AND_CUT: Row<'static> = Row {
    limits: LIMITS,
    input: &[
        (b"create 0 g\nwrite 0 0 0 ", 20_000),
        (b"\nread 0 0 16382 4\ncut 0 0 0 ", 10),
        (b"\nread 0 0 0 99\n", 0),
    ],
    status: Status::Ok,
    printed: b"ok\nok 20000\ndata 4 7a7a7a7a\nok 10\ndata 10 7a7a7a7a7a7a7a7a7a7a\n",
};

// A doomed object, which stays readable while its key is free.
const DOOMED: Row<'static> = Row {
    limits: LIMITS,
    input: &[(
        b"create 0 k\nwrite 0 0 0 6162\nopen 1 k\ndoom 0\nread 1 0 0 9\ndoom 1\ncreate 2 k\nlist\ntotal\n",
        0,
    )],
    status: Status::Refused,
    printed: b"ok\nok 2\nok\nok\ndata 2 6162\nrefused 10 Doomed\nok\nmain k 0 0 0\nend 1\ntotal 2 4\n",
};

// Evictions that make space for a write: objects that cost 40, 300, 300 and 300 bytes are closed one after another, and then one is
// written.
const EVICTING: Row<'static> = Row {
    limits: THOUSAND,
    input: &[
        (b"create 0 a\nwrite 0 0 0 ", 39),
        (b"\nclose 0\ncreate 0 b\nwrite 0 0 0 ", 125),
        (b"\nwrite 0 1 0 ", 125),
        (b"\nwrite 0 2 0 ", 49),
        (b"\nclose 0\ncreate 0 c\nwrite 0 0 0 ", 125),
        (b"\nwrite 0 1 0 ", 125),
        (b"\nwrite 0 2 0 ", 49),
        (b"\nclose 0\ncreate 0 d\nwrite 0 0 0 ", 125),
        (b"\nwrite 0 1 0 ", 125),
        (b"\nwrite 0 2 0 ", 49),
        (b"\nclose 0\ntotal\ncreate 0 e\nwrite 0 0 0 ", 60),
        (b"\ntotal\n", 0),
    ],
    status: Status::Ok,
    printed: b"ok\nok 39\nok\nok\nok 125\nok 125\nok 49\nok\nok\nok 125\nok 125\nok 49\nok\nok\nok 125\nok 125\nok 49\nok\n\
        total 4 940\nok\nevicted a\nevicted b\nok 60\ntotal 3 661\n",
};

// The evictions where a handle names the first object since it was made.
const EVICTING_BESIDE: Row<'static> = Row {
    limits: THOUSAND,
    input: &[
        (b"create 9 a\nwrite 9 0 0 ", 39),
        (b"\ncreate 0 b\nwrite 0 0 0 ", 125),
        (b"\nwrite 0 1 0 ", 125),
        (b"\nwrite 0 2 0 ", 49),
        (b"\nclose 0\ncreate 0 c\nwrite 0 0 0 ", 125),
        (b"\nwrite 0 1 0 ", 125),
        (b"\nwrite 0 2 0 ", 49),
        (b"\nclose 0\ncreate 0 d\nwrite 0 0 0 ", 125),
        (b"\nwrite 0 1 0 ", 125),
        (b"\nwrite 0 2 0 ", 49),
        (b"\nclose 0\ntotal\ncreate 0 e\nwrite 0 0 0 ", 60),
        (b"\ntotal\n", 0),
    ],
    status: Status::Ok,
    printed: b"ok\nok 39\nok\nok 125\nok 125\nok 49\nok\nok\nok 125\nok 125\nok 49\nok\nok\nok 125\nok 125\nok 49\nok\n\
        total 4 940\nok\nevicted b\nok 60\ntotal 4 701\n",
};

// Open objects that leave no space for so many bytes, and space for one less.
const NO_ROOM: Row<'static> = Row {
    limits: THOUSAND,
    input: &[
        (b"create 0 a\nwrite 0 0 0 ", 125),
        (b"\nwrite 0 1 0 ", 125),
        (b"\nwrite 0 2 0 ", 125),
        (b"\ncreate 1 b\nwrite 1 0 0 ", 125),
        (b"\nwrite 1 1 0 ", 125),
        (b"\nwrite 1 2 0 ", 125),
        (b"\ncreate 2 c\nwrite 2 0 0 ", 125),
        (b"\nwrite 2 1 0 ", 100),
        (b"\ntotal\nwrite 2 2 0 ", 23),
        (b"\ntotal\nwrite 2 2 0 ", 22),
        (b"\ntotal\n", 0),
    ],
    status: Status::Refused,
    printed: b"ok\nok 125\nok 125\nok 125\nok\nok 125\nok 125\nok 125\nok\nok 125\nok 100\ntotal 3 978\n\
        refused 11 Full\ntotal 3 978\nok 22\ntotal 3 1000\n",
};

// Space for two items, which are open, and then one of them isn't.
const NO_ITEM_MORE: Row<'static> = Row {
    limits: TWO_ITEMS,
    input: &[(
        b"create 0 a\ncreate 1 b\ncreate 2 c\nclose 0\ncreate 2 c\n",
        0,
    )],
    status: Status::Refused,
    printed: b"ok\nok\nrefused 11 Full\nok\nevicted a\nok\n",
};

// Sparse data that begins inside a block and ends in the next part, and more after it; then a key equal to the name of a part, which
// stays where the object with this part is doomed.
const NAMED_AS_A_PART: Row<'static> = Row {
    limits: LIMITS,
    input: &[
        (b"create 0 v\nswrite 0 1048076 ", 1500),
        (
            b"\nsread 0 1048076 1500\nsrange 0 1048076 1500\nlist\ntotal\nswrite 0 1049576 ",
            24,
        ),
        (
            b"\nsrange 0 1048576 2000\ntotal\ncreate 1 Range_v:64:0\ndoomkey v\nlist\n",
            0,
        ),
    ],
    status: Status::Ok,
    printed: b"ok\nok 1500\ndata 0 -\nrange 1048576 1000\npart v 1 1000\npart v 0 1048576\nsparse v 0\nend 3\n\
        total 3 1058241\nok 24\nrange 1048576 1024\ntotal 3 1058265\nok\nok\nmain Range_v:64:0 0 0 0\nend 1\n",
};

// What is refused of a plain object, and of a sparse one.
const REFUSALS: Row<'static> = Row {
    limits: LIMITS,
    input: &[(
        b"create 0 a\ncreate 0 a\ncreate 1 a\ncreate 4096 x\nread 9 0 0 1\nopen 1 zz\ncreate 1 \nread 0 3 0 1\n\
        write 0 0 10485760 61\nsread 0 0 1\nsread 0 68719476736 1\nswrite 0 0 61\nsize 0 1\n",
        0,
    )],
    status: Status::Refused,
    printed: b"ok\nrefused 2 HandleBusy\nrefused 4 Exists\nrefused 1 BadHandle\nrefused 1 BadHandle\nrefused 3 Missing\n\
        refused 13 BadKey\nrefused 5 BadStream\nrefused 6 TooLarge\nrefused 7 NotSparse\nrefused 9 RangeEnd\nok 1\n\
        refused 8 SparseStream\n",
};

// Sparse data that is read from one part into the next, up to where nothing is, and in parts that aren't there.
const ACROSS_PARTS: Row<'static> = Row {
    limits: LIMITS,
    input: &[
        (b"create 0 v\nswrite 0 1047552 ", 1024),
        (
            b"\nswrite 0 1048576 61626364\nsread 0 1048574 99\nsrange 0 1047000 1048576\nsread 0 2097152 4\n\
            srange 0 2097152 4\nclose 0\nlist\nopen 1 v\nsread 1 1048575 2\ntotal\n",
            0,
        ),
    ],
    status: Status::Ok,
    printed: b"ok\nok 1024\nok 4\ndata 6 7a7a61626364\nrange 1047552 1028\ndata 0 -\nrange 2097152 0\nok\n\
        sparse v 0\npart v 1 4\npart v 0 1048576\nend 3\nok\ndata 2 7a61\ntotal 3 1057245\n",
};

const ROWS: [Row<'static>; 10] = [
    TWO_BLOCKS,
    LONG_AND_CUT,
    DOOMED,
    EVICTING,
    EVICTING_BESIDE,
    NO_ROOM,
    NO_ITEM_MORE,
    NAMED_AS_A_PART,
    REFUSALS,
    ACROSS_PARTS,
];

// A session over a folder: how it ended, and what it printed.
fn play<F: Folder>(
    alloc: Global,
    f: &mut F,
    limits: Limits,
    input: &[u8],
) -> Result<(Status, MemSink), Fail> {
    let mut input = MemSource::new(alloc, input)?;
    let mut out = MemSink::new(alloc);
    let mut clock = ListClock::new(alloc, &[50, 100])?;
    let status = session(alloc, limits, BUDGET, &mut input, &mut out, f, &mut clock);
    Ok((status, out))
}

// A session of a row over an empty folder alone, and over a window of two pages: how it ended and what it printed over the folder alone,
// and whether all is the same, with the steps that were made.
fn is_the_same(alloc: Global, row: &Row<'_>) -> Result<(Status, MemSink, bool), Fail> {
    let input = text_of(alloc, row.input)?;
    let mut alone = newly_traced(MemFolder::new(alloc));
    let (status, printed) = play(alloc, &mut alone, row.limits, &input)?;
    let mut window = window_over(alloc, newly_traced(MemFolder::new(alloc)), 2)?;
    let (status_then, printed_then) = play(alloc, &mut window, row.limits, &input)?;
    let behind = window.into_inner();
    let same = status == status_then
        && printed.written() == printed_then.written()
        && alone.trail == behind.trail
        && alone.inner.steps() == behind.inner.steps();
    Ok((status, printed, same))
}

#[test]
fn sessions_print_and_write_the_same_over_two_pages(rt: HostRuntime) -> Result<(), Fail> {
    for row in &ROWS {
        let (status, out, same) = is_the_same(rt.alloc(), row)?;
        assert_same(&rt, out.written(), row.printed);
        assert_same(&rt, status, row.status);
        assert!(rt; same);
    }
    Ok(())
}
