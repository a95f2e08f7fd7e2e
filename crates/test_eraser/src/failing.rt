// A folder inside of which one call fails: the map keeps its marks, unless the call is the write of the map itself.
use crate::files::{HEADER_LEN, MAP, OLD, block_file, folder_with, is_full_of};
use crate::same::{assert_same, assert_same_at};
use blk_eraser::Eraser;
use blk_io::{Failed, FileId, Folder};
use std::test::Fail;

const BLOCKS: FileId = FileId::Block(3);

const EXTERNAL: FileId = FileId::External(7);

#[test]
fn a_failure_before_the_map_leaves_the_marks(rt: HostRuntime) -> Result<(), Fail> {
    let bytes = block_file(rt.alloc(), 4096, 0x07, 3 * 4096)?;

    // The length, the header, three blocks and the map.
    for call in 1..7u64 {
        let mut folder = folder_with(rt.alloc(), BLOCKS, &bytes)?;
        folder.fail_at(call, 0)?;
        let mut f = Eraser::new(folder);
        assert_same_at(&rt, f.write_at(BLOCKS, MAP, &[0]), Err(Failed), call);
        let mut inner = f.into_inner();
        assert_same(&rt, inner.calls(), call);
        assert!(rt; is_full_of(&mut inner, BLOCKS, MAP, 1, 0x07)?, "{call}");

        // The blocks before the one whose write failed are zeros, and those from it on are as they were.
        for b in 0..3u64 {
            let at = HEADER_LEN as u64 + b * 4096;
            let byte = if b + 3 < call { 0 } else { OLD };
            assert!(rt;
                is_full_of(&mut inner, BLOCKS, at, 4096, byte)?,
                "{call} {b}"
            );
        }
    }
    Ok(())
}

#[test]
fn a_failure_before_a_deletion_leaves_the_file(rt: HostRuntime) -> Result<(), Fail> {
    let bytes = [OLD; 5000];

    // The length, two pages, and the deletion or the new length.
    for call in 1..5u64 {
        let mut folder = folder_with(rt.alloc(), EXTERNAL, &bytes)?;
        folder.fail_at(call, 0)?;
        let mut f = Eraser::new(folder);
        assert_same_at(&rt, f.delete(EXTERNAL), Err(Failed), call);
        let mut inner = f.into_inner();
        assert_same(&rt, inner.length(EXTERNAL)?, Some(5000));
        let first = if call > 2 { 0 } else { OLD };
        assert!(rt; is_full_of(&mut inner, EXTERNAL, 0, 4096, first)?, "{call}");
        let second = if call > 3 { 0 } else { OLD };
        assert!(rt;
            is_full_of(&mut inner, EXTERNAL, 4096, 904, second)?,
            "{call}"
        );
    }
    Ok(())
}

#[test]
fn a_write_that_cannot_be_judged_fails(rt: HostRuntime) -> Result<(), Fail> {
    // The header is not whole; the file hasn't the range; there is no file.
    let mut f = Eraser::new(folder_with(rt.alloc(), BLOCKS, &[0xFF; 100])?);
    assert_same(&rt, f.write_at(BLOCKS, MAP, &[0]), Err(Failed));
    assert_same(&rt, f.write_at(BLOCKS, 99, &[0, 0]), Err(Failed));
    assert_same(&rt, f.write_at(EXTERNAL, 0, &[0]), Err(Failed));
    let mut inner = f.into_inner();
    assert!(rt; is_full_of(&mut inner, BLOCKS, 0, 100, 0xFF)?);
    Ok(())
}
