// Reads over a window of two pages, of which one fails.
use crate::same::{assert_same, assert_same_at};
use crate::traced::window_over;
use blk_io::{Failed, FileId, Folder, MemFolder, NoMemory};
use blk_window::Window;
use std::alloc::Global;
use std::test::Fail;

// How many bytes the index has.
const LENGTH: usize = 10_000;

// Reads of so many bytes from a place on, one after another: how many they give, and which of the first three pages are held then.
// The third call on the folder inside fails. The page that was used last longest ago is dropped then, and the other is still held.
const READS: [(u64, usize, Result<usize, Failed>, [bool; 3]); 5] = [
    (0, 4097, Ok(4097), [true, true, false]),
    (4000, 100, Ok(100), [true, true, false]),
    (8192, 4, Err(Failed), [false, true, false]),
    (4096, 4, Ok(4), [false, true, false]),
    (9000, 2000, Ok(1000), [false, true, true]),
];

// Bytes of which two that are a page apart differ.
fn bytes_of_index(alloc: Global) -> Result<Vec<u8>, NoMemory> {
    let mut bytes = Vec::new(alloc);
    bytes.resize(LENGTH, 0)?;
    let mut value = 0u8;
    for byte in bytes.iter_mut() {
        *byte = value;
        value = value
            .wrapping_mul(5)
            .wrapping_add(if value == 7 { 6 } else { 3 });
    }
    Ok(bytes)
}

// Which of the first three pages are held.
fn first_pages(window: &Window<MemFolder>) -> [bool; 3] {
    [0, 1, 2].map(|page: u64| window.holds(FileId::Index, page))
}

#[test]
fn a_failed_read_drops_the_page_that_was_to_give_way(rt: HostRuntime) -> Result<(), Fail> {
    let bytes = bytes_of_index(rt.alloc())?;
    let mut folder = MemFolder::new(rt.alloc());
    folder.add_file(FileId::Index, &bytes)?;
    folder.fail_at(3, 0)?;
    let mut window = window_over(rt.alloc(), folder, 2)?;
    let mut out = Vec::new(rt.alloc());
    out.resize(LENGTH, 0)?;
    for (at, count, answer, pages) in READS {
        let given = window.read_at(FileId::Index, at, &mut out[..count.min(LENGTH)]);
        assert_same_at(&rt, given, answer, format_args!("at {at}"));
        let n = given.unwrap_or(0);
        assert!(rt;
            bytes
                .iter()
                .skip(at as usize)
                .take(n)
                .eq(out.iter().take(n)),
            "at {at}"
        );
        assert_same_at(&rt, first_pages(&window), pages, format_args!("at {at}"));
    }

    // Pages 0 and 1, the read that failed, and page 2.
    assert_same(&rt, window.into_inner().calls(), 4);
    Ok(())
}
